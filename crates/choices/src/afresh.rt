// Stored values worked out afresh in scratch rows, as they are and with a move put in.
mod least;

ghost use Rattle.std.specs.Prelude.{◌≡◌, ◌≤◌, length};
ghost use Rattle.integers.specs.Below.{if_below};
ghost use Rattle.paper.specs.Lists.{first_fail};
ghost use Rattle.paper.specs.Net.{moved};
ghost use Rattle.paper.specs.Tables.{values_in};
ghost use Rattle.paper.specs.Checks.{Sound, pairs_of_move};
ghost use Rattle.paper.specs.Chains.{determined};
ghost use Rattle.tables.specs.Lent.{lent_tables, lent_move};
ghost use Rattle.tables.specs.Makers.{Makers};
ghost use Rattle.rows.specs.Put.{PairsFit};
ghost use Rattle.choices.specs.Renewed.{is_fresh};

use crate::follow_choices;
use least::first_other;
use rows::copies::{copy_values, put_move};
use rows::waiting::first_waiting;
use tables::lent::{Move, Tables};

// The least variable that is undetermined, or whose stored value is not the fresh one, if there is one.
pub fn first_stale(tables: &Tables, by: &[u16], stored: &[i32]) -> Option<usize>
    requires sound { Sound (lent_tables tables.now) }
    requires makers { Makers (lent_tables tables.now) by.now }
    requires there { tables.now.n ≤ length stored.now }
    ensures { result ≡ if_below tables.now.n (first_fail (is_fresh (lent_tables tables.now) stored.now) tables.now.n) }
{
    // Stays: rows of a fixed length, since no call allocates.
    let mut values = [0i32; 4096];
    let mut states = [0u8; 4096];
    copy_values(tables.n, stored, &mut values);
    follow_choices(tables, by, &mut values, &mut states);
    first_other(tables.n, stored, &values, &states)
}

// The least variable that is undetermined once the move is put in, if there is one.
// Stays: it begins as `first_stale` does, and a helper that is lent both rows would be no plainer.
pub fn first_stuck(tables: &Tables, by: &[u16], stored: &[i32], mv: &Move) -> Option<usize>
    requires sound { Sound (lent_tables tables.now) }
    requires makers { Makers (lent_tables tables.now) by.now }
    requires there { tables.now.n ≤ length stored.now }
    requires fits { PairsFit tables.now.n (lent_move mv.now) }
    ensures { result ≡ if_below tables.now.n (first_fail (determined (lent_tables tables.now) (moved (pairs_of_move (lent_move mv.now)) (values_in (lent_tables tables.now) stored.now))) tables.now.n) }
{
    // Stays: rows of a fixed length, since no call allocates.
    let mut values = [0i32; 4096];
    let mut states = [0u8; 4096];
    copy_values(tables.n, stored, &mut values);
    put_move(mv, &mut values);
    follow_choices(tables, by, &mut values, &mut states);
    first_waiting(tables.n, &states)
}
