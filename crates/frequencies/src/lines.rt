// A window's line: how many bytes it is, and the line put.
ghost use Rattle.std.specs.Prelude.{false, [], ◌∷◌, ◌≡◌, ◌+◌, ◌≤◌, ◌<◌, pos, nat_abs, length, take, drop};
ghost use Rattle.std.specs.Int.Signed.{lt_z};
ghost use Rattle.frequencies.specs.Puts.{Puts};
ghost use Rattle.frequencies.specs.Lent.{lent_windows, AllLent, window_at, window_line, CanSay};

use crate::Windows;
use crate::names::{name_size, put_name};
use crate::parts::{Span, part};
use crate::puts::{put, put_digits, put_time};
use crate::sizes::{digits_size, time_size};

// One of the windows: what its line says, the name as so many bytes of a text from a place on.
#[derive(Clone, Copy)]
pub(crate) struct Window {
    pub place: u32,
    pub size: u32,
    pub double: u8,
    pub start: i32,
    pub end: i32,
    pub headway: i32,
    pub exact: u8,
}

// Window i.
pub(crate) fn window_at(windows: &Windows, i: usize) -> Window
    requires lent { AllLent windows.now }
    requires there { i < windows.now.count }
    ensures { result ≡ window_at (lent_windows windows.now) i }
{
    Window {
        place: windows.name_places[i],
        size: windows.name_lengths[i],
        double: windows.name_doubled[i],
        start: windows.starts[i],
        end: windows.ends[i],
        headway: windows.headways[i],
        exact: windows.exacts[i],
    }
}

// A number that is not below 0.
fn whole(v: i32) -> usize
    requires { lt_z v (pos 0) ≡ false }
    ensures { result ≡ nat_abs v }
{
    v as usize
}

// The bytes of a window's name.
fn name_in(text: &[u8], window: Window) -> &[u8]
    requires { CanSay text.now window }
    ensures { result.now ≡ take window.size (drop window.place text.now) }
{
    part(
        text,
        Span {
            at: window.place as usize,
            size: window.size as usize,
        },
    )
}

// How many bytes a window's line is, which is the same whatever exact_times is.
pub(crate) fn window_size(text: &[u8], window: Window) -> usize
    requires { CanSay text.now window }
    ensures { (result ≡ length (window_line text.now window)) × (result ≤ 8589934640) }
{
    let name = name_size(window.double, name_in(text, window));
    let times = time_size(whole(window.start)) + time_size(whole(window.end));
    name + times + digits_size(10, whole(window.headway)) + 6
}

// Puts what stands behind the headway.
fn put_end(exact: u8, out: &mut [u8], at: usize) -> usize
    requires { exact ≤ 1 }
    ensures { Puts (44 ∷ (48 + exact) ∷ 10 ∷ []) out.old at out.new result }
{
    let a = put(out, at, b',');
    let b = put(out, a, 48 + exact);
    put(out, b, b'\n')
}

// Puts a window's line.
pub(crate) fn put_window(text: &[u8], window: Window, out: &mut [u8], at: usize) -> usize
    requires sayable { CanSay text.now window }
    requires exact_bound { window.exact ≤ 1 }
    ensures { Puts (window_line text.now window) out.old at out.new result }
{
    let a = put_name(window.double, name_in(text, window), out, at);
    let b = put(out, a, b',');
    let c = put_time(whole(window.start), out, b);
    let d = put(out, c, b',');
    let e = put_time(whole(window.end), out, d);
    let f = put(out, e, b',');
    let g = put_digits(10, whole(window.headway), out, f);
    put_end(window.exact, out, g)
}
