// A move worked out where chains of inputs may close: all new values by following the choices, and then what the route evaluates.
ghost use Rattle.std.specs.Prelude.{true, cond, ◌≡◌, ◌≤◌, eqb, ltb, length};
ghost use Rattle.paper.specs.Lists.{all, nat, over};
ghost use Rattle.paper.specs.Calls.{route_of};
ghost use Rattle.tables.specs.Lent.{lent_tables};
ghost use Rattle.tables.specs.Makers.{Makers};
ghost use Rattle.index.specs.Index.{Indexed};
ghost use Rattle.routes.specs.Rows.{values_of};
ghost use Rattle.routes.specs.Routed.{Begun, Named, Routed};
ghost use Rattle.closed_routes.specs.Following.{Steady};

use crate::flagged::flag_evaluated;
use choices::follow_choices;
use rows::copies::copy_values;
use tables::lent::{Index, Tables};

// The new value where the flag is set, else the old one.
// Stays: a choice between two values, and not whether to store, leaves the loop over the rows without a branch (speed).
fn pick(flag: u8, new: i32, old: i32) -> i32
    ensures { result ≡ cond (eqb flag 1) new old }
{
    if flag == 1 { new } else { old }
}

// Puts the new value of every flagged variable into the trial row.
fn take_values(n: usize, flags: &[u8], values: &[i32], trial: &mut [i32])
    requires { (n ≤ length flags.now) × (n ≤ length values.now) × (n ≤ length trial.old) }
    ensures { trial.new ≡ over n (λ v. cond (eqb (nat flags.now v) 1) (values_of values.now v) (values_of trial.old v)) trial.old }
{
    for v in 0..n {
        trial[v] = pick(flags[v], values[v], trial[v]);
    }
}

// Works a begun move out by the route of that number: every new value by following the choices, then the flags of what the route evaluates, and the new
// values of these.
pub fn follow_route(
    tables: &Tables,
    by: &[u16],
    index: &Index,
    moves: &[u16],
    stored: &[i32],
    asked: &[u16],
    route: u32,
    trial: &mut [i32],
    flags: &mut [u8],
)
    requires steady { Steady (lent_tables tables.now) stored.now trial.old }
    requires index { Indexed (lent_tables tables.now) index.now.starts.now index.now.places.now }
    requires named { Named (lent_tables tables.now) stored.now trial.old moves.now }
    requires begun { Begun (lent_tables tables.now) stored.now trial.old flags.old }
    requires asked { all (λ v. ltb v tables.now.n) asked.now ≡ true }
    requires makers { Makers (lent_tables tables.now) by.now }
    ensures { Routed (lent_tables tables.now) (route_of route) stored.now trial.old flags.old asked.now trial.new flags.new }
{
    // Stays: rows of a fixed length, since no call allocates.
    let mut values = [0i32; 4096];
    copy_values(tables.n, trial, &mut values);
    let mut states = [0u8; 4096];
    follow_choices(tables, by, &mut values, &mut states);
    flag_evaluated(
        tables, by, index, moves, asked, stored, trial, &values, route, flags,
    );
    take_values(tables.n, flags, &values, trial);
}
