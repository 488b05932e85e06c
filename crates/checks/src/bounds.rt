// Bounds on what may be moved: the lowest and the highest allowed number of each variable, in two lent rows.
ghost use Rattle.std.specs.Prelude.{◌&&◌, ◌≡◌};
ghost use Rattle.std.specs.Int.Signed.{le_z};
ghost use Rattle.integers.specs.Below.{if_below};
ghost use Rattle.paper.specs.Lists.{first_fail, all_below};
ghost use Rattle.paper.specs.Checks.{bound_good, within as allowed};
ghost use Rattle.tables.specs.Lent.{lent_bounds};
ghost use Rattle.checks.specs.Allowed.{BoundsLong, bound_of};

use tables::lent::Bounds;

// The full range.
pub const LOWEST: i32 = -i32::MAX;

pub const HIGHEST: i32 = i32::MAX;

// A value lies from the lowest to the highest.
pub fn between(low: i32, value: i32, high: i32) -> bool
    ensures { result ≡ (le_z low value && le_z value high) }
{
    (low <= value) & (value <= high)
}

// The bounds of a variable are as they must be: in the range and in order, and full if some row makes it.
fn bound_good(made: bool, low: i32, high: i32) -> bool
    ensures { result ≡ bound_good made low high }
{
    if made {
        return (low == LOWEST) & (high == HIGHEST);
    }
    (LOWEST <= low) & (LOWEST <= high) & (low <= high)
}

// Whether all bounds are as they must be; no turn leaves the loop, so the compiler takes several variables at a time.
fn all_bounds_good(n: usize, by: &[u16], bounds: &Bounds) -> bool
    requires { BoundsLong n by.now (lent_bounds bounds.now) }
    ensures { result ≡ all_below (bound_of by.now (lent_bounds bounds.now)) n }
{
    let mut all = true;
    // Stays: rows read at one place each; a `zip` of so many cut slices is no plainer.
    for v in 0..n {
        let good = bound_good(by[v] != 0, bounds.lows[v], bounds.highs[v]);
        all = all & good;
    }
    all
}

// The first variable whose bounds are not as they must be; `by` has 0 for each that no row makes.
pub fn first_bad_bound(n: usize, by: &[u16], bounds: &Bounds) -> Option<usize>
    requires { BoundsLong n by.now (lent_bounds bounds.now) }
    ensures { result ≡ if_below n (first_fail (bound_of by.now (lent_bounds bounds.now)) n) }
{
    if all_bounds_good(n, by, bounds) {
        return None;
    }
    (0..n).find(|&v| !bound_good(by[v] != 0, bounds.lows[v], bounds.highs[v]))
}

// A value is one that the variable may have; a bound that is not lent is 0.
pub fn within(bounds: &Bounds, variable: usize, value: i32) -> bool
    ensures { result ≡ allowed (lent_bounds bounds.now) variable value }
{
    let low = bounds.lows.get(variable).copied().unwrap_or(0);
    let high = bounds.highs.get(variable).copied().unwrap_or(0);
    between(low, value, high)
}
