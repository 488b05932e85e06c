// The numbers found, where their states stand. Tables that the code does not read stand for the contract.
ghost use Rattle.std.specs.Prelude.{◌≡◌, ◌≤◌, length};
ghost use Rattle.paper.specs.Lists.{over};
ghost use Rattle.paper.proofs.Straight.{number};
ghost use Rattle.paper.specs.Tables.{net};
ghost use Rattle.order.specs.Formed.{bare_lent};
ghost use Rattle.order.specs.Numbering.{Numbered};

use tables::lent::Tables;

// Writes the number of every variable in place of its state.
pub fn write_numbers(tables: &Tables, state: &mut [u16])
    requires numbered { Numbered (bare_lent tables.now) state.old }
    requires there { tables.now.n ≤ length state.old }
    ensures { state.new ≡ over tables.now.n (number (net (bare_lent tables.now)) tables.now.n) state.old }
{
    for s in &mut state[..tables.n] {
        *s -= 2;
    }
}
