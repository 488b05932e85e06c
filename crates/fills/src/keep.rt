// What an accepted keep writes.
ghost use Rattle.std.specs.Prelude.{◌≡◌};
ghost use Rattle.paper.specs.Chains.{closes};
ghost use Rattle.tables.specs.Lent.{lent_tables, lent_index};
ghost use Rattle.tables.specs.Makers.{Makers};
ghost use Rattle.verdicts.specs.Lent.{lent_to_keep};
ghost use Rattle.fills.specs.Accepted.{KeepAccepted, KeepFilled};

use crate::running::run_route;
use rows::copies::{begin_route, copy_values};
use rows::steps::evaluations;
use tables::lent::{Index, Move, Tables};

// Works the move out by route 1 in a row of its own, stores the new values, and answers with the number of evaluations. `by` holds the makers, and `closed` says
// whether some chain closes.
pub fn fill_keep(
    tables: &Tables,
    by: &[u16],
    closed: bool,
    order: &[u16],
    stored: &mut [i32],
    index: &Index,
    mv: &Move,
    flags: &mut [u8],
) -> u32
    requires keep_accepted { KeepAccepted (lent_tables tables.now) order.now (lent_index index.now) stored.old (lent_to_keep mv.now flags.old) }
    requires makers { Makers (lent_tables tables.now) by.now }
    requires closing { closed ≡ closes (lent_tables tables.now) }
    ensures { KeepFilled (lent_tables tables.now) stored.old (lent_to_keep mv.now flags.old) result stored.new flags.new }
{
    // Stays: rows of a fixed length, since no call allocates.
    let mut row = [0i32; 4096];
    begin_route(tables.n, stored, mv, &mut row, flags);
    run_route(
        tables,
        by,
        closed,
        order,
        index,
        &mv.vars[..mv.pairs],
        stored,
        &mv.vars[..0],
        1,
        &mut row,
        flags,
    );
    copy_values(tables.n, &row, stored);
    evaluations(tables.n, flags) as u32
}
