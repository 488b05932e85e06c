// The exact sum of results, of which a blank one adds nothing.
ghost use Rattle.std.specs.Prelude.{cond, ◌≡◌, ◌+◌, ◌<◌, pos, ◌+ℤ◌};
ghost use Rattle.integers.specs.Integers.{eq_z, away};
ghost use Rattle.paper.specs.Formula.{blank};

use formulas::blanks::is_blank;

// The exact sum with one more result; a blank one adds nothing.
pub(crate) fn add_value(sum: i64, value: i32) -> i64
    requires { away sum + 2147483648 < 9223372036854775808 }
    ensures { result ≡ sum +ℤ cond (eq_z value blank) (pos 0) value }
{
    if is_blank(value) {
        return sum;
    }
    sum + i64::from(value)
}
