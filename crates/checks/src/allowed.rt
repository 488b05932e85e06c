// Values. What is checked of them: check 7, of start values and of stored values, and check 19 before it.
// Made variables are told from search variables by the row of makers.
ghost use Rattle.std.specs.Prelude.{cond, ◌≡◌, ◌≤◌, ◌<◌, length, IfSome};
ghost use Rattle.integers.specs.Below.{if_below};
ghost use Rattle.paper.specs.Lists.{first_fail, all_below};
ghost use Rattle.paper.specs.Tables.{values_in};
ghost use Rattle.paper.specs.Checks.{accepted, start_allowed, stored_allowed};
ghost use Rattle.tables.specs.Answers.{answer_of};
ghost use Rattle.tables.specs.Lent.{lent_bounds};
ghost use Rattle.checks.specs.Allowed.{OfMakers, BoundsLong, starts, value_good, value_of, stored_checks};

use crate::bounds::between;
use formulas::blanks::{blanks_among, is_blank};
use tables::lent::Bounds;
use tables::{Refusal, none_fails, refused};

// Whose values are checked: those that a model starts with, or those that it has stored.
#[derive(Clone, Copy, PartialEq, Eq)]
pub enum Values {
    Start,
    Stored,
}

// A variable may have the value: a search variable any but blank that lies within its bounds; a made one any, and 0 where a model starts.
// There is no branch, since bounds that only one side reads would keep the compiler from taking several variables at a time.
fn value_good(whose: Values, made: bool, low: i32, value: i32, high: i32) -> bool
    ensures { result ≡ value_good (starts whose) made low value high }
{
    let searched = !is_blank(value) & between(low, value, high);
    (made & ((whose == Values::Stored) | (value == 0))) | (!made & searched)
}

// Whether every variable may have its value; no turn leaves the loop, so the compiler takes several variables at a time.
fn all_values_good(whose: Values, n: usize, by: &[u16], bounds: &Bounds, values: &[i32]) -> bool
    requires { BoundsLong n by.now (lent_bounds bounds.now) × (n ≤ length values.now) }
    ensures { result ≡ all_below (value_of (starts whose) by.now (lent_bounds bounds.now) values.now) n }
{
    let mut all = true;
    // Stays: rows read at one place each; a `zip` of so many cut slices is no plainer.
    for v in 0..n {
        let good = value_good(
            whose,
            by[v] != 0,
            bounds.lows[v],
            values[v],
            bounds.highs[v],
        );
        all = all & good;
    }
    all
}

// The first variable that may not have its start value, or its stored one.
pub fn first_bad_value(
    whose: Values,
    n: usize,
    by: &[u16],
    bounds: &Bounds,
    values: &[i32],
) -> Option<usize>
    requires { BoundsLong n by.now (lent_bounds bounds.now) × (n ≤ length values.now) }
    ensures least { OfMakers n by.now (λ t. result ≡ if_below n (first_fail (cond (starts whose) (start_allowed t) (stored_allowed t) (lent_bounds bounds.now) (values_in t values.now)) n)) }
    ensures below { IfSome result (λ v. v < n) }
{
    if all_values_good(whose, n, by, bounds, values) {
        return None;
    }
    (0..n).find(|&v| !value_good(
        whose,
        by[v] != 0,
        bounds.lows[v],
        values[v],
        bounds.highs[v],
    ))
}

// Stays: `n`, `by` and the bounds apart, here and in what is called, since docs/ARCHITECTURE names this check; `OfMakers` joins them in clauses.
// Checks 19 and 7 of stored values: `blanks` is how many of them are blank, and no search variable is, or lies outside its bounds.
pub fn stored_checks(
    blanks: u32,
    n: usize,
    by: &[u16],
    bounds: &Bounds,
    stored: &[i32],
) -> Result<(), Refusal>
    requires { BoundsLong n by.now (lent_bounds bounds.now) × (n ≤ length stored.now) × (n ≤ 4096) }
    ensures { OfMakers n by.now (λ t. result ≡ answer_of tt (stored_checks blanks (lent_bounds bounds.now) stored.now t accepted)) }
{
    if blanks != blanks_among(n, stored) {
        return Err(refused(19, 0));
    }
    none_fails(7, first_bad_value(Values::Stored, n, by, bounds, stored))
}
