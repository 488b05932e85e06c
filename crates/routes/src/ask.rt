// Routes 2 and 3, from outputs to inputs, over a row of work: asking a variable asks its row, and the row asks its inputs in turn.
ghost use Rattle.std.specs.Prelude.{true, ◌≡◌, suc, ◌<◌, ltb, length};
ghost use Rattle.paper.specs.Lists.{all, nat};
ghost use Rattle.routes.specs.Work.{rows_lent, RowsWorkable, worked_out, Ready, Asked, AllAsked};

use crate::row::row_value;
use integers::wide;
use rows::steps::{next_place, waits};
use tables::lent::Tables;

// The value of variable v: as it stands, or, where there is work to do for v that is not done yet, the value of its row.
#[cycle(value_of_row_value_of_variable)]
fn value_of_variable(
    v: usize,
    work: &[u16],
    tables: &Tables,
    trial: &mut [i32],
    flags: &mut [u8],
) -> i32
    requires workable { RowsWorkable (rows_lent tables.now) work.now }
    requires there { (v < length work.now) × (v < 65536) }
    requires ready { Ready (rows_lent tables.now) work.now trial.old flags.old }
    ensures value { result ≡ worked_out (rows_lent tables.now) work.now trial.old v }
    ensures asked { Asked (rows_lent tables.now) work.now v trial.old flags.old trial.new flags.new }
{
    if !waits(v, work, flags) {
        return trial[v];
    }
    value_of_row(wide(work[v]) - 1, v, work, tables, trial, flags)
}

// The value of row r over the inputs that it asks in turn, stored with a flag for the variable v that it makes.
#[cycle(value_of_row_value_of_variable)]
fn value_of_row(
    r: usize,
    v: usize,
    work: &[u16],
    tables: &Tables,
    trial: &mut [i32],
    flags: &mut [u8],
) -> i32
    requires workable { RowsWorkable (rows_lent tables.now) work.now }
    requires row { (nat work.now v ≡ suc r) × (r < 65536) }
    requires ready { Ready (rows_lent tables.now) work.now trial.old flags.old }
    ensures value { result ≡ worked_out (rows_lent tables.now) work.now trial.old v }
    ensures asked { Asked (rows_lent tables.now) work.now v trial.old flags.old trial.new flags.new }
{
    let kind = tables.kinds[r];
    let first = wide(tables.firsts[r]);
    let last = first + wide(tables.counts[r]);
    let mut i = first;
    // Stays: the place asked next need not be the one behind, so no `for` goes along them.
    while i < last {
        let u = wide(tables.vars[i]);
        if waits(u, work, flags) {
            value_of_variable(u, work, tables, trial, flags);
        }
        i = next_place(kind, trial[u], i, first, last);
    }
    let y = row_value(r, tables, trial);
    trial[v] = y;
    flags[v] = 1;
    y
}

// Asks every variable of a list.
pub fn ask_all(asked: &[u16], work: &[u16], tables: &Tables, trial: &mut [i32], flags: &mut [u8])
    requires workable { RowsWorkable (rows_lent tables.now) work.now }
    requires there { all (λ v. ltb v (length work.now)) asked.now ≡ true }
    requires ready { Ready (rows_lent tables.now) work.now trial.old flags.old }
    ensures { AllAsked (rows_lent tables.now) work.now asked.now trial.old flags.old trial.new flags.new }
{
    for &v in asked {
        value_of_variable(wide(v), work, tables, trial, flags);
    }
}
