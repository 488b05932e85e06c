// A visit of the walk that follows the choices: a variable's value stands once all that its formula looks at has been visited and stands.
ghost use Rattle.std.specs.Prelude.{◌<◌, length};
ghost use Rattle.routes.specs.Work.{rows_lent, work_net};
ghost use Rattle.choices.specs.Visiting.{PartsLent, ValuesRight, Visited};

use integers::wide;
use routes::row_value;
use rows::steps::next_place;
use tables::lent::Tables;

// The state of v after its visit: 2 if its value stands, or 1 if it waits for itself or for one that does.
// Stays: the states are numbers, since `Followed` says of the row, which `first_waiting` reads, that it holds 2 where a value stands; the result is that state.
pub fn visit(
    v: usize,
    tables: &Tables,
    by: &[u16],
    values: &mut [i32],
    states: &mut [u8; 4096],
) -> u8
    requires laid { PartsLent (rows_lent tables.now) by.now }
    requires there { v < length by.now }
    requires right { ValuesRight (work_net (rows_lent tables.now) by.now) (length by.now) values.old states.old }
    ensures { Visited (work_net (rows_lent tables.now) by.now) (length by.now) v values.old states.old values.new states.new result }
{
    let known = states[v];
    if known > 0 {
        return known;
    }
    // Stays: 0 in `by` for none, as `Makers` says of it.
    let maker = wide(by[v]);
    if maker == 0 {
        states[v] = 2;
        return 2;
    }
    states[v] = 1;
    let r = maker - 1;
    let kind = tables.kinds[r];
    let first = wide(tables.firsts[r]);
    let last = first + wide(tables.counts[r]);
    let mut i = first;
    // Stays: the next place jumps, over the candidates that are not chosen.
    while i < last {
        let u = wide(tables.vars[i]);
        if visit(u, tables, by, values, states) == 1 {
            return 1;
        }
        i = next_place(kind, values[u], i, first, last);
    }
    values[v] = row_value(r, tables, values);
    states[v] = 2;
    2
}
