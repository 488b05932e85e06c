// Blank, the number that is no value, how many values are blank, and exact arithmetic, whose result is blank where it leaves the range.
ghost use Rattle.std.specs.Prelude.{◌+◌, ◌≤◌, ◌<◌, ◌≡◌, pos, ◌+ℤ◌, ◌-ℤ◌, ◌*ℤ◌, length, get_or};
ghost use Rattle.integers.specs.Integers.{away, eq_z};
ghost use Rattle.paper.specs.Formula.{blank, fit};
ghost use Rattle.paper.specs.Calls.{blanks_among};

// No value.
// Stays: the number for no value in the lent rows (the C interface), and the paper's `blank`.
pub const BLANK: i32 = i32::MIN;

// Whether a value is blank.
pub fn is_blank(value: i32) -> bool
    ensures { result ≡ eq_z value blank }
{
    value == BLANK
}

// How many of the first n values are blank.
pub fn blanks_among(n: usize, values: &[i32]) -> u32
    requires { (n ≤ length values.now) × (n ≤ 4096) }
    ensures { result ≡ blanks_among n (λ v. get_or values.now v (pos 0)) }
{
    // Stays: the machine code of `filter` and `count` branches at each value and takes one at a time, where this takes several.
    let mut count = 0;
    for &value in &values[..n] {
        if is_blank(value) {
            count += 1;
        }
    }
    count
}

// The exact result, or blank where it leaves the range.
pub fn fitted(exact: i64) -> i32
    ensures { result ≡ fit exact }
{
    i32::try_from(exact).unwrap_or(BLANK)
}

// The exact a - b.
pub fn difference(a: i32, b: i32) -> i64
    ensures { result ≡ a -ℤ b }
{
    i64::from(a) - i64::from(b)
}

// The exact sum + a * b.
pub fn plus_product(sum: i64, a: i64, b: i64) -> i64
    requires { away sum + away (a *ℤ b) < 9223372036854775808 }
    ensures { result ≡ sum +ℤ a *ℤ b }
{
    sum + a * b
}
