// A begun move worked out by the route asked for.
ghost use Rattle.std.specs.Prelude.{true, ◌≡◌, ltb};
ghost use Rattle.paper.specs.Lists.{all};
ghost use Rattle.paper.specs.Calls.{route_of};
ghost use Rattle.paper.specs.Chains.{closes};
ghost use Rattle.tables.specs.Lent.{lent_tables};
ghost use Rattle.tables.specs.Makers.{Makers};
ghost use Rattle.index.specs.Index.{Indexed};
ghost use Rattle.routes.specs.Routed.{Begun, Named, Routed};
ghost use Rattle.fills.specs.Running.{Running};

use closed_routes::followed::follow_route;
use routes::{Route, input_to_output, mark_guided, output_to_input};
use tables::lent::{Index, Tables};

// Works a begun move out by the route of that number: by following the choices where `closed` says that some chain closes.
// Stays: `closed` is what a check has found of the tables and no choice of the caller, so an enum or a closure would be no plainer.
pub fn run_route(
    tables: &Tables,
    by: &[u16],
    closed: bool,
    order: &[u16],
    index: &Index,
    moves: &[u16],
    stored: &[i32],
    asked: &[u16],
    route: u32,
    trial: &mut [i32],
    flags: &mut [u8],
)
    requires running { Running (lent_tables tables.now) order.now stored.now trial.old }
    requires closing { closed ≡ closes (lent_tables tables.now) }
    requires index { Indexed (lent_tables tables.now) index.now.starts.now index.now.places.now }
    requires named { Named (lent_tables tables.now) stored.now trial.old moves.now }
    requires begun { Begun (lent_tables tables.now) stored.now trial.old flags.old }
    requires asked { all (λ v. ltb v tables.now.n) asked.now ≡ true }
    requires makers { Makers (lent_tables tables.now) by.now }
    ensures { Routed (lent_tables tables.now) (route_of route) stored.now trial.old flags.old asked.now trial.new flags.new }
{
    if closed {
        follow_route(tables, by, index, moves, stored, asked, route, trial, flags);
        return;
    }
    match Route::of_number(route) {
        Route::InputToOutput => input_to_output(tables, order, index, moves, stored, trial, flags),
        Route::OutputToInput => output_to_input(tables, by, asked, stored, trial, flags),
        Route::MarkGuided => mark_guided(tables, by, index, moves, asked, stored, trial, flags),
    }
}
