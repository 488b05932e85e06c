// Checks 1 and 4 to 8 on the windows that a call is lent to write. A check over the windows answers the least that fails, if any does.
ghost use Rattle.std.specs.Prelude.{false, ◌&&◌, ◌||◌, [], ◌≡◌, ◌+◌, ◌≤◌, eqb, leb, ltb, pos, take, drop};
ghost use Rattle.std.specs.Int.Signed.{le_z, lt_z};
ghost use Rattle.integers.specs.Below.{if_below};
ghost use Rattle.paper.specs.Lists.{first_fail};
ghost use Rattle.frequencies.specs.Csv.{doubled_from};
ghost use Rattle.frequencies.specs.Writing.{rows_lent, doubled_at, times_at, headway_good_at, exact_good_at, named_at};
ghost use Rattle.frequencies.specs.Lent.{lent_windows, AllLent};

use crate::Windows;
use crate::names::quotes_double;

// A window's place is a number of 31 bits, and every row has a place for each window. No test waits for another, so they are joined by `&`.
pub(crate) fn rows_lent(windows: &Windows) -> bool
    ensures { result ≡ rows_lent windows.now.count [] (lent_windows windows.now) }
{
    let count = windows.count;
    let numbers = (count <= windows.headways.len()) & (count <= windows.exacts.len());
    let times = (count <= windows.starts.len()) & ((count <= windows.ends.len()) & numbers);
    let doubled = (count <= windows.name_doubled.len()) & times;
    let names = (count <= windows.name_places.len())
        & ((count <= windows.name_lengths.len()) & doubled);
    (count <= 2147483647) & names
}

// Where quotes are said to stand double, each does. The bytes are those that are lent of the name's.
fn double_good(text: &[u8], place: u32, size: u32, double: u8) -> bool
    ensures { result ≡ (eqb double 0 || doubled_from false (take size (drop place text.now))) }
{
    if double == 0 {
        return true;
    }
    let from = (place as usize).min(text.len());
    let to = (place as usize + size as usize).min(text.len());
    quotes_double(&text[from..to])
}

// The first window with a quote that does not stand double where it is said to.
pub(crate) fn first_single_quote(text: &[u8], windows: &Windows) -> Option<usize>
    requires { AllLent windows.now }
    ensures { result ≡ if_below windows.now.count (first_fail (doubled_at windows.now.count text.now (lent_windows windows.now)) windows.now.count) }
{
    for i in 0..windows.count {
        if !double_good(
            text,
            windows.name_places[i],
            windows.name_lengths[i],
            windows.name_doubled[i],
        ) {
            return Some(i);
        }
    }
    None
}

// Both times are 0 or more.
fn times_good(start: i32, end: i32) -> bool
    ensures { result ≡ (le_z (pos 0) start && le_z (pos 0) end) }
{
    (0 <= start) & (0 <= end)
}

// The first window with a time below 0.
pub(crate) fn first_bad_time(windows: &Windows) -> Option<usize>
    requires { AllLent windows.now }
    ensures { result ≡ if_below windows.now.count (first_fail (times_at windows.now.count [] (lent_windows windows.now)) windows.now.count) }
{
    for i in 0..windows.count {
        if !times_good(windows.starts[i], windows.ends[i]) {
            return Some(i);
        }
    }
    None
}

// The headway is above 0.
fn headway_good(headway: i32) -> bool
    ensures { result ≡ lt_z (pos 0) headway }
{
    0 < headway
}

// The first window with a headway of 0 or less.
pub(crate) fn first_bad_headway(windows: &Windows) -> Option<usize>
    requires { AllLent windows.now }
    ensures { result ≡ if_below windows.now.count (first_fail (headway_good_at windows.now.count [] (lent_windows windows.now)) windows.now.count) }
{
    windows.headways[..windows.count]
        .iter()
        .position(|&headway| !headway_good(headway))
}

// The first window with an exact_times that is neither 0 nor 1.
pub(crate) fn first_bad_exact(windows: &Windows) -> Option<usize>
    requires { AllLent windows.now }
    ensures { result ≡ if_below windows.now.count (first_fail (exact_good_at windows.now.count [] (lent_windows windows.now)) windows.now.count) }
{
    windows.exacts[..windows.count]
        .iter()
        .position(|&exact| 1 < exact)
}

// The name has a byte, and stands among the lent ones.
fn name_good(lent: usize, place: u32, size: u32) -> bool
    ensures { result ≡ (ltb 0 size && leb (place + size) lent) }
{
    (0 < size) & (place as usize + size as usize <= lent)
}

// The first window whose name has no byte, or does not stand among the lent ones.
pub(crate) fn first_bad_name(text: &[u8], windows: &Windows) -> Option<usize>
    requires { AllLent windows.now }
    ensures { result ≡ if_below windows.now.count (first_fail (named_at windows.now.count text.now (lent_windows windows.now)) windows.now.count) }
{
    let lent = text.len();
    for i in 0..windows.count {
        if !name_good(lent, windows.name_places[i], windows.name_lengths[i]) {
            return Some(i);
        }
    }
    None
}
