// MIN and MAX: one walk along the inputs, which leaves the lesser or the greater of each two. A blank stands in it on the side where every value is
// left before it, so it is left only if no input has a value.
ghost use Rattle.std.specs.Prelude.{◌<◌, ◌≡◌, false, length};
ghost use Rattle.paper.specs.Formula.{lesser, greater, valued};
ghost use Rattle.paper.specs.Formula as Formula;
ghost use Rattle.formulas.specs.Given.{inputs_of};
ghost use Rattle.formulas.specs.Standing.{stands_as, stands_for};

use crate::blanks::{fitted, is_blank};
use crate::inputs::Inputs;

// What an input of MIN stands as: 1 less, which leaves room for a blank above all values.
fn standing(x: i32) -> i32
    ensures { result ≡ stands_as false x }
{
    if is_blank(x) { i32::MAX } else { x - 1 }
}

// The input that stands as this number.
fn stood_for(z: i32) -> i32
    ensures { result ≡ stands_for false z }
{
    fitted(i64::from(z) + 1)
}

// MIN: the least input that has a value, blank if none has.
pub fn least(row: Inputs) -> i32
    requires { 0 < length row.vars.now }
    ensures { result ≡ Formula.extreme lesser (valued (inputs_of row.entry)) }
{
    let mut left = standing(row.at(0));
    for &v in &row.vars[1..] {
        left = left.min(standing(row.values[usize::from(v)]));
    }
    stood_for(left)
}

// Stays: as one with MIN a walk would be given the choice and what an input stands as, which is no plainer.
// MAX: the greatest input that has a value, blank if none has: a blank lies below all values.
pub fn greatest(row: Inputs) -> i32
    requires { 0 < length row.vars.now }
    ensures { result ≡ Formula.extreme greater (valued (inputs_of row.entry)) }
{
    let mut left = row.at(0);
    for &v in &row.vars[1..] {
        left = left.max(row.values[usize::from(v)]);
    }
    left
}
