// Checks 1 to 3 of the windows that a departure board is lent: all are lent, their numbers are good, and no two overlap. A check over the windows
// answers the least that fails, if any does.
ghost use Rattle.std.specs.Prelude.{[], ◌≡◌, not, ◌≤◌, ◌<◌, length};
ghost use Rattle.integers.specs.Below.{if_below};
ghost use Rattle.paper.specs.Lists.{first_fail};
ghost use Rattle.times.specs.Windows.{windows_fit, window_good, numbers_good, shared, overlap, apart};
ghost use Rattle.times.specs.Lent.{lent_windows, Timed};

use crate::Windows;
use formulas::blanks::is_blank;

// There are at most 64 windows, and all of them are lent.
pub fn windows_fit(windows: &Windows) -> bool
    ensures { result ≡ windows_fit (lent_windows windows.now []) }
{
    let count = windows.count;
    (count <= 64)
        & (count <= windows.starts.len())
        & (count <= windows.ends.len())
        & (count <= windows.headways.len())
}

// No number of the window is blank, and its headway is above 0.
fn window_good(start: i32, end: i32, headway: i32) -> bool
    ensures { result ≡ window_good start end headway }
{
    !is_blank(start) & !is_blank(end) & !is_blank(headway) & (0 < headway)
}

// The first window with a blank number or a headway of 0 or less.
pub fn first_bad_number(windows: &Windows) -> Option<usize>
    requires { (windows.now.count ≤ length windows.now.starts.now) × (windows.now.count ≤ length windows.now.ends.now)
        × (windows.now.count ≤ length windows.now.headways.now) }
    ensures { result ≡ if_below windows.now.count (first_fail (numbers_good (lent_windows windows.now [])) windows.now.count) }
{
    for i in 0..windows.count {
        if !window_good(windows.starts[i], windows.ends[i], windows.headways[i]) {
            return Some(i);
        }
    }
    None
}

// Each of two windows has its start before its own end and before the other's end.
fn share(start: i32, end: i32, other_start: i32, other_end: i32) -> bool
    ensures { result ≡ shared start end other_start other_end }
{
    (start < end) & (start < other_end) & (other_start < other_end) & (other_start < end)
}

// The first window that overlaps window i.
fn first_on(windows: &Windows, i: usize) -> Option<usize>
    requires timed { Timed windows.now }
    requires there { i < windows.now.count }
    ensures { result ≡ if_below windows.now.count (first_fail (λ j. not (overlap (lent_windows windows.now []) i j)) windows.now.count) }
{
    for j in 0..windows.count {
        if (i != j)
            & share(
                windows.starts[i],
                windows.ends[i],
                windows.starts[j],
                windows.ends[j],
            )
        {
            return Some(j);
        }
    }
    None
}

// The first window that overlaps another.
pub fn first_overlapping(windows: &Windows) -> Option<usize>
    requires { Timed windows.now }
    ensures { result ≡ if_below windows.now.count (first_fail (apart (lent_windows windows.now [])) windows.now.count) }
{
    for i in 0..windows.count {
        if first_on(windows, i).is_some() {
            return Some(i);
        }
    }
    None
}
