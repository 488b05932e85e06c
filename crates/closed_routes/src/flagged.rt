// Which variables a route evaluates, where chains of inputs may close and all new values are known.
ghost use Rattle.std.specs.Prelude.{true, ◌≡◌, ltb};
ghost use Rattle.paper.specs.Lists.{all};
ghost use Rattle.paper.specs.Net.{mark-guided};
ghost use Rattle.paper.specs.Calls.{route_of};
ghost use Rattle.tables.specs.Lent.{lent_tables};
ghost use Rattle.tables.specs.Makers.{Makers};
ghost use Rattle.index.specs.Index.{Indexed};
ghost use Rattle.routes.specs.Routed.{Begun, Named};
ghost use Rattle.closed_routes.specs.Following.{Renewed, Flagged};

use crate::changes::flag_changed;
use crate::looks::look_all;
use crate::reaches::spread_moved;
use routes::Route;
use rows::steps::plan_work;
use tables::lent::{Index, Tables};

// Route 3: flags what the asked come to, where those that moved and what is made from them are to be worked out.
fn flag_marked(
    tables: &Tables,
    by: &[u16],
    index: &Index,
    moves: &[u16],
    asked: &[u16],
    stored: &[i32],
    trial: &[i32],
    values: &[i32],
    flags: &mut [u8],
)
    requires renewed { Renewed (lent_tables tables.now) stored.now trial.now values.now }
    requires index { Indexed (lent_tables tables.now) index.now.starts.now index.now.places.now }
    requires named { Named (lent_tables tables.now) stored.now trial.now moves.now }
    requires begun { Begun (lent_tables tables.now) stored.now trial.now flags.old }
    requires asked { all (λ v. ltb v tables.now.n) asked.now ≡ true }
    requires makers { Makers (lent_tables tables.now) by.now }
    ensures { Flagged (lent_tables tables.now) stored.now trial.now mark-guided asked.now flags.old flags.new }
{
    let index = Index {
        starts: &index.starts[..tables.n + 1],
        places: index.places,
    };
    // Stays: rows of a fixed length, since no call allocates.
    let mut marks = [0u8; 4096];
    spread_moved(moves, tables.makes, &index, stored, trial, &mut marks);
    let mut work = [0u16; 4096];
    plan_work(tables.n, by, &marks, &mut work);
    look_all(asked, &work[..tables.n], tables, values, flags);
}

// Flags what the route of that number evaluates.
pub fn flag_evaluated(
    tables: &Tables,
    by: &[u16],
    index: &Index,
    moves: &[u16],
    asked: &[u16],
    stored: &[i32],
    trial: &[i32],
    values: &[i32],
    route: u32,
    flags: &mut [u8],
)
    requires renewed { Renewed (lent_tables tables.now) stored.now trial.now values.now }
    requires makers { Makers (lent_tables tables.now) by.now }
    requires index { Indexed (lent_tables tables.now) index.now.starts.now index.now.places.now }
    requires named { Named (lent_tables tables.now) stored.now trial.now moves.now }
    requires begun { Begun (lent_tables tables.now) stored.now trial.now flags.old }
    requires asked { all (λ v. ltb v tables.now.n) asked.now ≡ true }
    ensures { Flagged (lent_tables tables.now) stored.now trial.now (route_of route) asked.now flags.old flags.new }
{
    match Route::of_number(route) {
        Route::InputToOutput => flag_changed(tables, &by[..tables.n], stored, values, flags),
        Route::OutputToInput => look_all(asked, &by[..tables.n], tables, values, flags),
        Route::MarkGuided => flag_marked(
            tables, by, index, moves, asked, stored, trial, values, flags,
        ),
    }
}
