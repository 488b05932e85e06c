// Check 8 where chains may close: whether lent numbers and a lent order are what build gives.
ghost use Rattle.std.specs.Prelude.{◌≡◌, ◌≤◌, cond, Some, None, length};
ghost use Rattle.paper.specs.Lists.{all_below};
ghost use Rattle.paper.specs.Chains.{closes, groups_numbered};
ghost use Rattle.tables.specs.Makers.{Makers};
ghost use Rattle.order.specs.Formed.{bare_lent};
ghost use Rattle.order.specs.Numbering.{made_right};
ghost use Rattle.chains.specs.Links.{kinded_lent, Kinded};

use crate::permits::permit::find_shared;
use crate::ranks::write_shared_order;
use order::numbered_right;
use tables::lent::Tables;

// Whether every closed chain is permitted, and numbers and order are those found anew.
fn groups_right(tables: &Tables, by: &[u16], numbers: &[u16], order: &[u16]) -> bool
    requires kinded { Kinded (kinded_lent tables.now) }
    requires makers { Makers (kinded_lent tables.now) by.now }
    requires long { (tables.now.n ≤ length numbers.now) × (tables.now.m ≤ length order.now) }
    ensures { result ≡ groups_numbered (kinded_lent tables.now) numbers.now order.now }
{
    let n = tables.n;
    let m = tables.m;
    // Stays: rows of a fixed length, since no call allocates.
    let mut shared = [0u16; 4096];
    let mut rows = [0u16; 4096];
    let barred = find_shared(tables, by, &mut shared);
    write_shared_order(tables, &shared, &mut rows);
    barred.is_none() && numbers[..n] == shared[..n] && order[..m] == rows[..m]
}

// Check 8 of numbers and order: if it is passed, whether some chain closes. Where none does numbers and order themselves show that they are right, `due`
// those of what rows make; only otherwise are they found anew.
pub fn shared_right(
    tables: &Tables,
    by: &[u16],
    numbers: &[u16],
    order: &[u16],
    due: bool,
) -> Option<bool>
    requires kinded { Kinded (kinded_lent tables.now) }
    requires makers { Makers (kinded_lent tables.now) by.now }
    requires long { (tables.now.n ≤ length numbers.now) × (tables.now.m ≤ length order.now) }
    requires told { due ≡ all_below (made_right (bare_lent tables.now) numbers.now) tables.now.m }
    ensures { result ≡ cond (groups_numbered (kinded_lent tables.now) numbers.now order.now) (Some (closes (kinded_lent tables.now))) None }
{
    if numbered_right(tables, by, numbers, order, due) {
        return Some(false);
    }
    groups_right(tables, by, numbers, order).then_some(true)
}
