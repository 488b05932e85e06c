// Which variables routes 2 and 3 evaluate, from outputs to inputs: values are known already, and a variable that is worked out leads to what its
// formula looks at over them.
ghost use Rattle.std.specs.Prelude.{true, ◌≡◌, ◌≤◌, ◌<◌, ltb, length};
ghost use Rattle.paper.specs.Lists.{all};
ghost use Rattle.routes.specs.Reach.{Closed};
ghost use Rattle.closed_routes.specs.Walk.{Walked};
ghost use Rattle.routes.specs.Work.{works_out};
ghost use Rattle.closed_routes.specs.Looking.{shapes_lent, looks_at, Lookable, AllLooked};

use integers::wide;
use rows::steps::next_place;
use tables::lent::Tables;

// Flags v if it is worked out, and then what its formula looks at: a chain that comes back to v finds it flagged.
fn look(v: usize, work: &[u16], tables: &Tables, values: &[i32], flags: &mut [u8])
    requires laid { Lookable (shapes_lent tables.now) work.now values.now }
    requires there { (v < length work.now) × (length work.now ≤ length flags.old) }
    ensures { Walked (works_out (shapes_lent tables.now) work.now) (looks_at (shapes_lent tables.now) work.now values.now) v flags.old flags.new }
{
    if flags[v] == 1 {
        return;
    }
    let maker = wide(work[v]);
    if maker == 0 {
        return;
    }
    flags[v] = 1;
    let r = maker - 1;
    let kind = tables.kinds[r];
    let first = wide(tables.firsts[r]);
    let last = first + wide(tables.counts[r]);
    let mut i = first;
    // Stays: the place looked at next need not be the one behind, so no `for` goes along them.
    while i < last {
        let u = wide(tables.vars[i]);
        look(u, work, tables, values, flags);
        i = next_place(kind, values[u], i, first, last);
    }
}

// Flags what is worked out and comes of any variable of a list.
pub fn look_all(asked: &[u16], work: &[u16], tables: &Tables, values: &[i32], flags: &mut [u8])
    requires laid { Lookable (shapes_lent tables.now) work.now values.now }
    requires there { all (λ v. ltb v (length work.now)) asked.now ≡ true }
    requires room { length work.now ≤ length flags.old }
    requires closed { Closed (works_out (shapes_lent tables.now) work.now) (looks_at (shapes_lent tables.now) work.now values.now) flags.old }
    ensures { AllLooked (shapes_lent tables.now) work.now values.now asked.now flags.old flags.new }
{
    for &v in asked {
        look(wide(v), work, tables, values, flags);
    }
}
