// DEPARTURES and LAST, of a row and of three numbers: the times start + k * headway, k = 0, 1, 2 and on, strictly before end.
ghost use Rattle.std.specs.Prelude.{◌≤◌, ◌≡◌, true, pos, length, ◌+ℤ◌, ◌*ℤ◌};
ghost use Rattle.std.specs.Int.Signed.{lt_z};
ghost use Rattle.paper.specs.Formula.{trips};
ghost use Rattle.paper.specs.Formula as Formula;
ghost use Rattle.formulas.specs.Inputs.{unless_blank};
ghost use Rattle.formulas.specs.Given.{inputs_of};
ghost use Rattle.formulas.specs.Row.{of_three, window_of};

use crate::blanks::{BLANK, difference, fitted, is_blank, plus_product};
use crate::inputs::Inputs;

// A start, an end and a headway.
#[derive(Clone, Copy)]
pub struct Window {
    pub start: i32,
    pub end: i32,
    pub headway: i32,
}

impl Window {
    // The inputs start, end and headway, none if one of them is blank.
    fn of(row: Inputs) -> Option<Window>
        requires { length row.vars.now ≡ 3 }
        ensures { result ≡ window_of (inputs_of row.entry) }
    {
        let start = row.at(0);
        let end = row.at(1);
        let headway = row.at(2);
        if is_blank(start) | is_blank(end) | is_blank(headway) {
            return None;
        }
        Some(Window {
            start,
            end,
            headway,
        })
    }

    // How many of the times are strictly before end, of a headway above 0.
    fn times_before(self) -> u64
        requires { lt_z (pos 0) self.headway ≡ true }
        ensures { result ≡ trips self.start self.end self.headway }
    {
        if self.start < self.end {
            let gap = difference(self.end, self.start).unsigned_abs();
            let step = i64::from(self.headway).unsigned_abs();
            // Stays: so the definition `trips` divides; `div_ceil` is defined by a quotient and a remainder.
            (gap + step - 1) / step
        } else {
            0
        }
    }

    // The time k headways after start, of a headway above 0.
    fn time(self, k: u64) -> i64
        requires { (lt_z (pos 0) self.headway ≡ true) × (k ≤ 4294967296) }
        ensures { result ≡ self.start +ℤ pos k *ℤ self.headway }
    {
        plus_product(i64::from(self.start), k as i64, i64::from(self.headway))
    }

    // How many times are strictly before end; blank if headway is 0 or less.
    pub fn departures(self) -> i32
        ensures { result ≡ Formula.departures self.start self.end self.headway }
    {
        if self.headway <= 0 {
            return BLANK;
        }
        fitted(self.times_before() as i64)
    }

    // The latest of them, blank if there are none or headway is 0 or less. It lies from start to before end, so 32 bits hold it.
    pub fn last(self) -> i32
        ensures { result ≡ Formula.last self.start self.end self.headway }
    {
        if self.headway <= 0 {
            return BLANK;
        }
        let n = self.times_before();
        if n == 0 {
            return BLANK;
        }
        self.time(n - 1) as i32
    }
}

// DEPARTURES: how many times there are.
pub fn departures(row: Inputs) -> i32
    requires { length row.vars.now ≡ 3 }
    ensures { result ≡ unless_blank (of_three Formula.departures) (inputs_of row.entry) }
{
    Window::of(row).map_or(BLANK, Window::departures)
}

// LAST: the latest of them.
pub fn last(row: Inputs) -> i32
    requires { length row.vars.now ≡ 3 }
    ensures { result ≡ unless_blank (of_three Formula.last) (inputs_of row.entry) }
{
    Window::of(row).map_or(BLANK, Window::last)
}
