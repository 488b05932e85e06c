// Route 1, from inputs to outputs: what changed flags what its readers make, and along the order every flagged row has its turn.
ghost use Rattle.std.specs.Prelude.{[], ◌≡◌, ◌<◌, ◌≤◌, length};
ghost use Rattle.paper.specs.Net.{input-to-output};
ghost use Rattle.paper.specs.Checks.{Sound};
ghost use Rattle.tables.specs.Lent.{lent_tables};
ghost use Rattle.routes.specs.Rows.{Along};
ghost use Rattle.routes.specs.Sections.{made_from};
ghost use Rattle.index.specs.Index.{Indexed};
ghost use Rattle.routes.specs.Routed.{Begun, Named, Routed, Section, flag_each, pass_each, Passable, Turned};

use crate::row::row_value;
use integers::wide;
use rows::steps::moved;
use tables::lent::{Index, Tables};

// Flags what the readers of v make.
fn flag_readers(v: usize, makes: &[u16], index: &Index, flags: &mut [u8])
    requires { Section makes.now index.now.starts.now index.now.places.now v (length flags.old) }
    ensures { flags.new ≡ flag_each (made_from makes.now index.now.starts.now index.now.places.now v) flags.old }
{
    let end = wide(index.starts[v + 1]);
    for i in wide(index.starts[v])..end {
        flags[wide(makes[wide(index.places[i])])] = 1;
    }
}

// Flags what the readers of each variable that moved make.
// Stays: no plainer as one with `mark_moved`, which would be handed the walk as a closure over the row and what it promises as laws.
fn flag_moved(
    moves: &[u16],
    makes: &[u16],
    index: &Index,
    stored: &[i32],
    trial: &[i32],
    flags: &mut [u8],
)
    requires { Passable makes.now index.now.starts.now index.now.places.now stored.now trial.now moves.now (length flags.old) }
    ensures { flags.new ≡ pass_each makes.now index.now.starts.now index.now.places.now stored.now trial.now moves.now flags.old }
{
    for &m in moves {
        let v = wide(m);
        if moved(v, stored, trial) {
            flag_readers(v, makes, index, flags);
        }
    }
}

// If what row r makes is flagged, it has its value over the new inputs; and if that is another than before, what its readers make is flagged.
fn turn(
    r: usize,
    tables: &Tables,
    index: &Index,
    stored: &[i32],
    trial: &mut [i32],
    flags: &mut [u8],
)
    requires sound { Sound (lent_tables tables.now) }
    requires index { Indexed (lent_tables tables.now) index.now.starts.now index.now.places.now }
    requires row { r < tables.now.m }
    requires room { (tables.now.n ≤ length stored.now) × (tables.now.n ≤ length trial.old) × (tables.now.n ≤ length flags.old) }
    ensures { Turned (lent_tables tables.now) index.now.starts.now index.now.places.now r stored.now trial.old flags.old trial.new flags.new }
{
    let u = wide(tables.makes[r]);
    if flags[u] != 1 {
        return;
    }
    trial[u] = row_value(r, tables, trial);
    if moved(u, stored, trial) {
        flag_readers(u, tables.makes, index, flags);
    }
}

// Gives every row its turn, along the order.
pub fn input_to_output(
    tables: &Tables,
    order: &[u16],
    index: &Index,
    moves: &[u16],
    stored: &[i32],
    trial: &mut [i32],
    flags: &mut [u8],
)
    requires along { Along (lent_tables tables.now) order.now }
    requires index { Indexed (lent_tables tables.now) index.now.starts.now index.now.places.now }
    requires begun { Begun (lent_tables tables.now) stored.now trial.old flags.old }
    requires named { Named (lent_tables tables.now) stored.now trial.old moves.now }
    ensures { Routed (lent_tables tables.now) input-to-output stored.now trial.old flags.old [] trial.new flags.new }
{
    flag_moved(moves, tables.makes, index, stored, trial, flags);
    for &row in &order[..tables.m] {
        turn(wide(row), tables, index, stored, trial, flags);
    }
}
