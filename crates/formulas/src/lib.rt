// The nine formulas over a part of the lent entries and the lent row of values.
#![tactic(auto)]

pub mod blanks;
mod buckets;
mod element;
pub mod extremes;
pub mod inputs;
mod linear;
mod over;
mod places;
pub mod shares;
pub mod windows;

ghost use Rattle.std.specs.Prelude.{◌≡◌};
ghost use Rattle.paper.specs.Formula as Formula;
ghost use Rattle.formulas.specs.Inputs.{part_of, inputs};
ghost use Rattle.formulas.specs.Given.{inputs_of};
ghost use Rattle.formulas.specs.Row.{Row, PartFits, worked};

use crate::element::element;
use crate::extremes::{greatest, least};
use crate::inputs::Inputs;
use crate::linear::linear;
use crate::over::over;
use crate::places::{count, shared};
use crate::windows::{departures, last};

// What the formula gives that a kind code picks, blank among it; every other code is refused, since no formula has it.
pub fn formula(kind: u16, param: i32, coefs: &[i16], row: Inputs) -> Option<i32>
    requires { Row kind coefs.now row.vars.now }
    ensures { result ≡ worked kind param coefs.now (inputs_of row.entry) }
{
    // Stays: a kind is a number of the lent tables (the C interface), and the closing range refuses each that no formula has.
    match kind {
        1 => Some(linear(param, coefs, row)),
        2 => Some(least(row)),
        3 => Some(greatest(row)),
        4 => Some(element(row)),
        5 => Some(shared(row)),
        6 => Some(count(param, row)),
        7 => Some(over(row)),
        8 => Some(departures(row)),
        9 => Some(last(row)),
        0 | 10..=65535 => None,
    }
}

// The value of a row that passed checks 2 and 3, from the part of the entries that starts at its first.
// Stays: `formulas` lies below `tables`, so the parts of the tables come one by one.
pub fn formula_value(
    kind: u16,
    param: i32,
    first: usize,
    count: usize,
    coefs: &[i16],
    vars: &[u16],
    values: &[i32],
) -> i32
    requires { PartFits kind first count coefs.now vars.now values.now }
    ensures { result ≡ Formula.formula kind param (part_of first count coefs.now) (inputs (part_of first count vars.now) values.now) }
{
    let end = first + count;
    let row = Inputs {
        vars: &vars[first..end],
        values,
    };
    // the code is known
    formula(kind, param, &coefs[first..end], row).unwrap()
}
