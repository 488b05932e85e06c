// Which variables can have a topological number, and which: each is visited once, after what it is made from.
ghost use Rattle.std.specs.Prelude.{◌≡◌, ◌≤◌, ◌<◌, length};
ghost use Rattle.integers.specs.Below.{if_below};
ghost use Rattle.paper.specs.Lists.{nat, over, first_fail};
ghost use Rattle.paper.specs.Tables.{inputs_of};
ghost use Rattle.tables.specs.Makers.{Makers};
ghost use Rattle.order.specs.Formed.{bare_lent, Formed};
ghost use Rattle.order.specs.Numbering.{Clean, NumbersRight, NumberVisit, NumberedBelow, search_state, ended, NumbersFound};

use crate::parts::of_maker;
use integers::wide;
use tables::lent::Tables;

// The state of v after its visit: two more than its number, or 1 if it waits for itself or for one that does. An input that has been visited costs a look and
// no call.
// Stays: a state is a number, since `NumberVisit` and `Numbered` say the states in the row that the numbers are written over.
fn visit(v: usize, tables: &Tables, by: &[u16], state: &mut [u16]) -> usize
    requires formed { Formed (bare_lent tables.now) }
    requires makers { Makers (bare_lent tables.now) by.now }
    requires there { v < tables.now.n }
    requires right { NumbersRight tables.now.n (inputs_of (bare_lent tables.now)) state.old }
    ensures { NumberVisit tables.now.n (inputs_of (bare_lent tables.now)) v state.old state.new result }
{
    let known = wide(state[v]);
    if known > 0 {
        return known;
    }
    state[v] = 1;
    let maker = wide(by[v]);
    let first = wide(of_maker(maker, tables.firsts));
    let stop = first + wide(of_maker(maker, tables.counts));
    let mut best = 1;
    for &var in &tables.vars[first..stop] {
        let u = wide(var);
        let mut found = wide(state[u]);
        if found == 0 {
            found = visit(u, tables, by, state);
        }
        if found == 1 {
            return 1;
        }
        best = best.max(found);
    }
    state[v] = (best + 1) as u16;
    best + 1
}

// The state of a search variable, which has no input to wait for; of what a row makes, that of one not visited.
fn search_state(maker: u16) -> u16
    ensures { result ≡ search_state maker }
{
    if maker == 0 {
        return 2;
    }
    0
}

// Ends the visit of every search variable.
fn end_search(n: usize, by: &[u16], state: &mut [u16])
    requires { (n ≤ length state.old) × (n ≤ length by.now) }
    ensures { state.new ≡ over n (λ v. search_state (nat by.now v)) state.old }
{
    for v in 0..n {
        state[v] = search_state(by[v]);
    }
}

// Visits every variable that is not visited yet.
fn visit_all(tables: &Tables, by: &[u16], state: &mut [u16])
    requires formed { Formed (bare_lent tables.now) }
    requires makers { Makers (bare_lent tables.now) by.now }
    requires swept { NumberedBelow tables.now.n (inputs_of (bare_lent tables.now)) 0 state.old }
    ensures { NumberedBelow tables.now.n (inputs_of (bare_lent tables.now)) tables.now.n state.new }
{
    for v in 0..tables.n {
        visit(v, tables, by, state);
    }
}

// The least variable whose visit has not ended, or none.
fn first_open(n: usize, state: &[u16]) -> Option<usize>
    requires { n ≤ length state.now }
    ensures { result ≡ if_below n (first_fail (ended state.now) n) }
{
    state[..n].iter().position(|&s| s < 2)
}

// The least variable that can have no number, or none; with none, `state` holds two more than each variable's number. Whatever the answer, it says
// which variables can have one: those whose visit ended.
pub fn find_numbers(tables: &Tables, by: &[u16], state: &mut [u16]) -> Option<usize>
    requires formed { Formed (bare_lent tables.now) }
    requires makers { Makers (bare_lent tables.now) by.now }
    requires clean { Clean tables.now.n state.old }
    ensures { NumbersFound (bare_lent tables.now) state.new result }
{
    end_search(tables.n, by, state);
    visit_all(tables, by, state);
    first_open(tables.n, state)
}
