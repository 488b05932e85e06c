// Check 2: the kind codes.
ghost use Rattle.std.specs.Prelude.{◌≡◌, ◌≤◌, length};
ghost use Rattle.integers.specs.Below.{if_below};
ghost use Rattle.paper.specs.Lists.{between, first_fail, all_below};
ghost use Rattle.paper.specs.Checks.{kind_good};
ghost use Rattle.tables.specs.Lent.{lent_tables};

use crate::lent::Tables;

// The kind code picks a formula.
// Stays: kinds are numbers in the tables, here and in every crate that reads them, since C lends them so and the paper's definitions say which is which.
fn kind_good(kind: u16) -> bool
    ensures { result ≡ between 1 kind 9 }
{
    matches!(kind, 1..=9)
}

// All m kind codes do. No code stops the loop.
fn kinds_good(tables: &Tables) -> bool
    requires { tables.now.m ≤ length tables.now.kinds.now }
    ensures { result ≡ all_below (kind_good (lent_tables tables.now)) tables.now.m }
{
    tables.kinds[..tables.m]
        .iter()
        .fold(true, |good, &kind| good & kind_good(kind))
}

// The first row whose kind code picks no formula.
pub fn first_bad_kind(tables: &Tables) -> Option<usize>
    requires { tables.now.m ≤ length tables.now.kinds.now }
    ensures { result ≡ if_below tables.now.m (first_fail (kind_good (lent_tables tables.now)) tables.now.m) }
{
    if kinds_good(tables) {
        return None;
    }
    tables.kinds[..tables.m]
        .iter()
        .position(|&kind| !kind_good(kind))
}
