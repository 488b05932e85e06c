// OVER: by how much the first input exceeds the second.
ghost use Rattle.std.specs.Prelude.{◌≡◌, length};
ghost use Rattle.paper.specs.Formula.{input_at};
ghost use Rattle.paper.specs.Formula as Formula;
ghost use Rattle.formulas.specs.Inputs.{unless_blank};
ghost use Rattle.formulas.specs.Given.{inputs_of};

use crate::blanks::{BLANK, difference, fitted, is_blank};
use crate::inputs::Inputs;

// a - b if positive, else 0.
fn excess(a: i32, b: i32) -> i32
    ensures { result ≡ Formula.excess a b }
{
    if b < a { fitted(difference(a, b)) } else { 0 }
}

// OVER: a - b if positive, else 0, of the inputs a and b.
pub fn over(row: Inputs) -> i32
    requires { length row.vars.now ≡ 2 }
    ensures { result ≡ unless_blank (λ xs. Formula.excess (input_at xs 0) (input_at xs 1)) (inputs_of row.entry) }
{
    let a = row.at(0);
    let b = row.at(1);
    if is_blank(a) | is_blank(b) {
        return BLANK;
    }
    excess(a, b)
}
