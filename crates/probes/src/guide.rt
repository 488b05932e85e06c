// Route 3 over rows at rest: what is asked is asked over the work that the walk along the readers has planned.
ghost use Rattle.std.specs.Prelude.{true, ◌≡◌, ◌≤◌, ltb, length};
ghost use Rattle.paper.specs.Lists.{all};
ghost use Rattle.paper.specs.Net.{mark-guided};
ghost use Rattle.tables.specs.Lent.{lent_tables};
ghost use Rattle.tables.specs.Makers.{Makers};
ghost use Rattle.index.specs.Index.{Indexed};
ghost use Rattle.routes.specs.Rows.{Ended};
ghost use Rattle.routes.specs.Routed.{Begun, Named, Routed};
ghost use Rattle.probes.specs.Rest.{Unmarked, Astray};

use crate::touch::touch_moved;
use routes::ask::ask_all;
use tables::lent::{Index, Tables};

// Asks with those marked that moved, and what is made from them; answers how many are listed.
// Stays: rows that are written are parameters of their own, here and below: a struct of them would need a clause for each, that it is still the caller's.
pub fn guide(
    tables: &Tables,
    by: &[u16],
    index: &Index,
    moves: &[u16],
    asked: &[u16],
    stored: &[i32],
    trial: &mut [i32],
    flags: &mut [u8],
    marks: &mut [u8],
    work: &mut [u16],
    touched: &mut [u16],
) -> usize
    requires ended { Ended (lent_tables tables.now) }
    requires index { Indexed (lent_tables tables.now) index.now.starts.now index.now.places.now }
    requires named { Named (lent_tables tables.now) stored.now trial.old moves.now }
    requires begun { Begun (lent_tables tables.now) stored.now trial.old flags.old }
    requires asked { all (λ v. ltb v tables.now.n) asked.now ≡ true }
    requires makers { Makers (lent_tables tables.now) by.now }
    requires unmarked { Unmarked tables.now.n marks.old work.old }
    requires list { tables.now.n ≤ length touched.old }
    ensures routed { Routed (lent_tables tables.now) mark-guided stored.now trial.old flags.old asked.now trial.new flags.new }
    ensures astray { Astray tables.now.n stored.now trial.new flags.new marks.new work.new touched.new 0 result }
{
    let index = Index {
        starts: &index.starts[..tables.n + 1],
        places: index.places,
    };
    let count = touch_moved(
        moves,
        tables.makes,
        &index,
        by,
        stored,
        trial,
        marks,
        work,
        touched,
    );
    ask_all(asked, &work[..tables.n], tables, trial, flags);
    count
}
