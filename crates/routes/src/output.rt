// Routes 2 and 3, from outputs to inputs: what is asked is asked over a row of work, the makers of all variables or of those that are marked.
ghost use Rattle.std.specs.Prelude.{true, ◌≡◌, ltb};
ghost use Rattle.paper.specs.Lists.{all};
ghost use Rattle.paper.specs.Net.{output-to-input, mark-guided};
ghost use Rattle.tables.specs.Lent.{lent_tables};
ghost use Rattle.tables.specs.Makers.{Makers};
ghost use Rattle.routes.specs.Rows.{Ended};
ghost use Rattle.index.specs.Index.{Indexed};
ghost use Rattle.routes.specs.Routed.{Begun, Named, Routed};

use crate::ask::ask_all;
use crate::marks::mark_moved;
use rows::steps::plan_work;
use tables::lent::{Index, Tables};

// Route 2: asks with every variable to be worked out, so that the row of work is that of the makers.
pub fn output_to_input(
    tables: &Tables,
    by: &[u16],
    asked: &[u16],
    stored: &[i32],
    trial: &mut [i32],
    flags: &mut [u8],
)
    requires ended { Ended (lent_tables tables.now) }
    requires begun { Begun (lent_tables tables.now) stored.now trial.old flags.old }
    requires asked { all (λ v. ltb v tables.now.n) asked.now ≡ true }
    requires makers { Makers (lent_tables tables.now) by.now }
    ensures { Routed (lent_tables tables.now) output-to-input stored.now trial.old flags.old asked.now trial.new flags.new }
{
    ask_all(asked, &by[..tables.n], tables, trial, flags);
}

// Route 3: asks with those marked that moved, and what is made from them.
pub fn mark_guided(
    tables: &Tables,
    by: &[u16],
    index: &Index,
    moves: &[u16],
    asked: &[u16],
    stored: &[i32],
    trial: &mut [i32],
    flags: &mut [u8],
)
    requires ended { Ended (lent_tables tables.now) }
    requires index { Indexed (lent_tables tables.now) index.now.starts.now index.now.places.now }
    requires named { Named (lent_tables tables.now) stored.now trial.old moves.now }
    requires begun { Begun (lent_tables tables.now) stored.now trial.old flags.old }
    requires asked { all (λ v. ltb v tables.now.n) asked.now ≡ true }
    requires makers { Makers (lent_tables tables.now) by.now }
    ensures { Routed (lent_tables tables.now) mark-guided stored.now trial.old flags.old asked.now trial.new flags.new }
{
    let index = Index {
        starts: &index.starts[..tables.n + 1],
        places: index.places,
    };
    // Stays: rows of a fixed length, since no call allocates.
    let mut marks = [0u8; 4096];
    mark_moved(moves, tables.makes, &index, stored, trial, &mut marks);
    let mut work = [0u16; 4096];
    plan_work(tables.n, by, &marks, &mut work);
    ask_all(asked, &work[..tables.n], tables, trial, flags);
}
