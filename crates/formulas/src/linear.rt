// LINEAR: parameter plus the sum of coefficient times input.
ghost use Rattle.std.specs.Prelude.{◌≤◌, ◌≡◌, ◌+ℤ◌, length};
ghost use Rattle.paper.specs.Formula.{fit};
ghost use Rattle.paper.specs.Formula as Formula;
ghost use Rattle.formulas.specs.Inputs.{unless_blank};
ghost use Rattle.formulas.specs.Given.{inputs_of};

use crate::blanks::{BLANK, fitted, is_blank, plus_product};
use crate::inputs::Inputs;

// LINEAR: the exact sum if it lies in the range and no input is blank, else blank. No input stops the loop: a blank is added too, and noted.
pub fn linear(param: i32, coefs: &[i16], row: Inputs) -> i32
    requires { (length coefs.now ≡ length row.vars.now) × (length row.vars.now ≤ 256) }
    ensures { result ≡ unless_blank (λ xs. fit (param +ℤ Formula.sum coefs.now xs)) (inputs_of row.entry) }
{
    let mut sum = i64::from(param);
    let mut blank = false;
    // Stays: by `row.vars.iter().zip(coefs)` the goal `plus_product-sum-requires` is left open, since an invariant has the iterator and no place.
    for i in 0..row.len() {
        let x = row.at(i);
        blank |= is_blank(x);
        sum = plus_product(sum, i64::from(coefs[i]), i64::from(x));
    }
    if blank { BLANK } else { fitted(sum) }
}
