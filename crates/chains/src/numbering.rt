// The number of every variable of tables whose chains of inputs may close, and the least on a closed chain that is not permitted.
ghost use Rattle.std.specs.Prelude.{◌≡◌, ◌≤◌, length};
ghost use Rattle.integers.specs.Below.{if_below};
ghost use Rattle.paper.specs.Lists.{nat, over, first_fail};
ghost use Rattle.paper.specs.Chains.{permitted};
ghost use Rattle.tables.specs.Makers.{Makers};
ghost use Rattle.order.specs.Numbering.{Clean};
ghost use Rattle.chains.specs.Links.{kinded_lent, Kinded, Shared};

use crate::permits::find_shared;
use order::{find_numbers, write_numbers};
use tables::lent::Tables;

// The least variable on a closed chain that is not permitted, if there is one; `numbers` then holds the number of every variable. Groups are looked for
// only where a chain closes.
pub fn number_all(tables: &Tables, by: &[u16], numbers: &mut [u16]) -> Option<usize>
    requires kinded { Kinded (kinded_lent tables.now) }
    requires makers { Makers (kinded_lent tables.now) by.now }
    requires clean { Clean tables.now.n numbers.old }
    ensures least { result ≡ if_below tables.now.n (first_fail (permitted (kinded_lent tables.now)) tables.now.n) }
    ensures numbered { Shared (kinded_lent tables.now) numbers.new }
{
    if find_numbers(tables, by, numbers).is_some() {
        return find_shared(tables, by, numbers);
    }
    write_numbers(tables, numbers);
    None
}

// Copies the numbers of the first n variables.
// Stays: beside `rows::copies::copy_values`, since neither crate stands on the other, and one line of std is all that each holds.
pub fn copy_numbers(n: usize, from: &[u16], to: &mut [u16])
    requires { (n ≤ length from.now) × (n ≤ length to.old) }
    ensures { to.new ≡ over n (nat from.now) to.old }
{
    to[..n].copy_from_slice(&from[..n]);
}
