// The rows of a file judged: how many there are, and for each check the line of the first row that does not pass it.
ghost use Rattle.std.specs.Prelude.{◌≡◌, Some, not, ◌&&◌};
ghost use Rattle.integers.specs.Integers.{eq_z};
ghost use Rattle.paper.specs.Formula.{blank};
ghost use Rattle.frequencies.specs.Judging.{first_bad, Started, JudgedNext, JudgedAll};

use crate::fields::{Place, row_behind};
use crate::parts::part;
use crate::rows::{Columns, scan_row};
use crate::values::{exact_of, headway_of, time_of};
use formulas::blanks::is_blank;

// Of the rows judged: how many there are, and for each check the line of the first that does not pass it, if any does not; and where the next row begins, if
// there is one.
#[derive(Clone, Copy)]
pub struct Judged {
    pub count: usize,
    pub widths: Option<usize>,
    pub quotes: Option<usize>,
    pub times: Option<usize>,
    pub headways: Option<usize>,
    pub exacts: Option<usize>,
    pub names: Option<usize>,
    pub next: Option<Place>,
}

// Neither is blank.
fn both_values(a: i32, b: i32) -> bool
    ensures { result ≡ (not (eq_z a blank) && not (eq_z b blank)) }
{
    !is_blank(a) & !is_blank(b)
}

// The line of the first row that does not pass a check, with one row more.
pub fn first_bad(bad: Option<usize>, good: bool, line: usize) -> Option<usize>
    ensures { result ≡ first_bad bad good line }
{
    match bad {
        None if !good => Some(line),
        _ => bad,
    }
}

// Judges the next row.
fn judge_next(bytes: &[u8], columns: Columns, width: usize, j: Judged, from: Place) -> Judged
    requires started { Started bytes.now j }
    requires next { j.next ≡ Some from }
    ensures { JudgedNext bytes.now columns width j from result }
{
    let line = from.line;
    let row = scan_row(bytes, from, columns);
    let start = time_of(part(bytes, row.start));
    let end = time_of(part(bytes, row.end));
    let headway = headway_of(part(bytes, row.headway));
    let exact = exact_of(part(bytes, row.exact));
    Judged {
        count: j.count + 1,
        widths: first_bad(j.widths, row.width == width, line),
        quotes: first_bad(j.quotes, row.right, line),
        times: first_bad(j.times, both_values(start, end), line),
        headways: first_bad(j.headways, !is_blank(headway), line),
        exacts: first_bad(j.exacts, exact <= 1, line),
        names: first_bad(j.names, 0 < row.trip.size, line),
        next: row_behind(row.behind),
    }
}

// Judges the rows from a place on, if there are any; `start.quotes` is the line of a header whose quotes are not right.
pub fn judge_rows(bytes: &[u8], columns: Columns, width: usize, start: Judged) -> Judged
    requires { Started bytes.now start }
    ensures { JudgedAll bytes.now columns width start result }
{
    let mut j = start;
    while let Some(place) = j.next {
        j = judge_next(bytes, columns, width, j, place);
    }
    j
}
