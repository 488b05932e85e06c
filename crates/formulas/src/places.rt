// COUNT and SHARED: how many places pass a test.
ghost use Rattle.std.specs.Prelude.{◌≤◌, ◌≡◌, pos, length};
ghost use Rattle.paper.specs.Formula as Formula;
ghost use Rattle.formulas.specs.Inputs.{unless_blank};
ghost use Rattle.formulas.specs.Given.{inputs_of};

use crate::blanks::{BLANK, blanks_among};
use crate::buckets::sharing_places;
use crate::inputs::Inputs;

// SHARED: how many places share their value.
pub fn shared(row: Inputs) -> i32
    requires { length row.vars.now ≤ 256 }
    ensures { result ≡ unless_blank (λ xs. pos (Formula.sharing xs)) (inputs_of row.entry) }
{
    // Stays: rows of a fixed length, since no call allocates.
    let mut held = [0i32; 256];
    let n = row.len();
    row.copy_to(&mut held);
    if blanks_among(n, &held) != 0 {
        return BLANK;
    }
    sharing_places(&held[..n]) as i32
}

// COUNT: how many inputs equal the parameter.
pub fn count(param: i32, row: Inputs) -> i32
    requires { length row.vars.now ≤ 256 }
    ensures { result ≡ unless_blank (λ xs. pos (Formula.places param xs)) (inputs_of row.entry) }
{
    row.unless_blank(row.places(param) as i32)
}
