// Check 4: coefficients and parameters.
ghost use Rattle.std.specs.Prelude.{◌≡◌, true, cond, not, ◌&&◌, ◌||◌, ◌+◌, ◌-◌, ◌≤◌, ◌<◌, leb, nat_abs, length, take, drop};
ghost use Rattle.paper.specs.Lists.{nat, first_fail};
ghost use Rattle.paper.specs.Checks.{number_good};
ghost use Rattle.integers.specs.Below.{if_below};
ghost use Rattle.tables.specs.Lent.{lent_tables};
ghost use Rattle.tables.specs.Rows.{PartsLong, NumbersLong, parts_good, all_small, all_one, coefs_good, param_good, coefs_suit, all_params_good};

use crate::lent::Tables;
use crate::shape::parts_good;
use integers::wide;

// The coefficient is from -1,000 to 1,000.
fn small(coef: i16) -> bool
    ensures { result ≡ leb (nat_abs coef) 1000 }
{
    (-1000 <= coef) & (coef <= 1000)
}

// All these coefficients are. No entry stops the loop, so that it takes several at a time.
fn all_small(part: &[i16]) -> bool
    ensures { result ≡ all_small part.now }
{
    part.iter().fold(true, |good, &coef| good & small(coef))
}

// All these coefficients are 1.
fn all_one(part: &[i16]) -> bool
    ensures { result ≡ all_one part.now }
{
    part.iter().fold(true, |good, &coef| good & (coef == 1))
}

// A row of this kind may have these coefficients.
fn coefs_good(kind: u16, part: &[i16]) -> bool
    ensures { result ≡ coefs_good kind part.now }
{
    if kind == 1 {
        return all_small(part);
    }
    all_one(part)
}

// A row of this kind may have the parameter. 0 suits every kind, so that no test waits for another.
fn param_good(kind: u16, param: i32) -> bool
    ensures { result ≡ param_good kind param }
{
    let sized = (-1000000000 <= param) & (param <= 1000000000);
    (param == 0) | (((kind == 1) | (kind == 6)) & sized)
}

// All m parameters suit the kinds of their rows. No row stops the loop, so that it takes several at a time.
fn params_good(tables: &Tables) -> bool
    requires { (tables.now.m ≤ length tables.now.kinds.now) × (tables.now.m ≤ length tables.now.params.now) }
    ensures { result ≡ all_params_good tables.now.m tables.now.kinds.now tables.now.params.now }
{
    let mut good = true;
    // Stays: two columns at one row; a `zip` of two cut slices is no plainer.
    for row in 0..tables.m {
        good = good & param_good(tables.kinds[row], tables.params[row]);
    }
    good
}

// The coefficients before, between and after the LINEAR parts are 1, each run of them looked at in one go. Where all coefficients are small and
// the parts lie one behind the other, a yes shows that those of every row suit its kind.
fn others_one(tables: &Tables) -> bool
    requires m_in_bounds { PartsLong (lent_tables tables.now) }
    requires coefs_value { (parts_good tables.now.m (length tables.now.coefs.now) tables.now.firsts.now tables.now.counts.now && all_small tables.now.coefs.now) ≡ true }
    ensures { (result && coefs_suit (lent_tables tables.now)) ≡ result }
{
    let mut good = true;
    let mut from = 0;
    for row in 0..tables.m {
        if tables.kinds[row] == 1 {
            let first = wide(tables.firsts[row]);
            good = good & all_one(&tables.coefs[from..first]);
            from = first + wide(tables.counts[row]);
        }
    }
    good & all_one(&tables.coefs[from..])
}

// All coefficients looked at together show that those of every row suit its kind.
fn all_suit(tables: &Tables) -> bool
    requires { PartsLong (lent_tables tables.now) }
    ensures { (result && coefs_suit (lent_tables tables.now)) ≡ result }
{
    if all_one(tables.coefs) {
        return true;
    }
    let known = parts_good(tables, tables.coefs.len()) & all_small(tables.coefs);
    if !known {
        return false;
    }
    others_one(tables)
}

// The coefficients of a part, as many of them as there are.
fn part_of<'a>(first: u16, count: u16, coefs: &'a [i16]) -> &'a [i16]
    ensures { result.now ≡ take count (drop first coefs.now) }
{
    let end = (wide(first) + wide(count)).min(coefs.len());
    let start = wide(first).min(end);
    &coefs[start..end]
}

// The first row whose coefficients or parameter do not suit its kind, row by row. All coefficients are looked at once: if all suit a kind, no part of
// a row of that kind is looked at.
fn bad_number_by_row(tables: &Tables) -> Option<usize>
    requires { NumbersLong (lent_tables tables.now) }
    ensures { result ≡ if_below tables.now.m (first_fail (number_good (lent_tables tables.now)) tables.now.m) }
{
    let ones = all_one(tables.coefs);
    let linear = ones || all_small(tables.coefs);
    for row in 0..tables.m {
        let kind = tables.kinds[row];
        let part = part_of(tables.firsts[row], tables.counts[row], tables.coefs);
        let known = ones | (linear & (kind == 1));
        let good = (known || coefs_good(kind, part)) & param_good(kind, tables.params[row]);
        if !good {
            return Some(row);
        }
    }
    None
}

// The same. All parameters and all coefficients are looked at once, in loops that nothing stops; only where these do not show every row to be good are
// they looked at row by row.
pub fn first_bad_number(tables: &Tables) -> Option<usize>
    requires { NumbersLong (lent_tables tables.now) }
    ensures { result ≡ if_below tables.now.m (first_fail (number_good (lent_tables tables.now)) tables.now.m) }
{
    let known = params_good(tables) & all_suit(tables);
    if known {
        return None;
    }
    bad_number_by_row(tables)
}
