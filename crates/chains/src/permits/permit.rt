// The least variable on a closed chain that is not permitted, and the numbers of the groups.
ghost use Rattle.std.specs.Prelude.{not, ◌≡◌, ◌≤◌, length};
ghost use Rattle.integers.specs.Below.{if_below};
ghost use Rattle.paper.specs.Lists.{first_fail, all_below};
ghost use Rattle.paper.specs.Chains.{depends, plain_inputs, round_index, permitted};
ghost use Rattle.tables.specs.Makers.{Makers};
ghost use Rattle.chains.specs.Links.{kinded_lent, Kinded, Shared};

use crate::bars::{bar_groups, first_back, first_barred};
use crate::links::{Which, set_links};
use crate::numbering::copy_numbers;
use groups::find_groups;
use groups::links::Links;
use tables::lent::Tables;

// The least variable on a closed chain that passes through no ELEMENT, if there is one.
fn first_plain(tables: &Tables, by: &[u16]) -> Option<usize>
    requires kinded { Kinded (kinded_lent tables.now) }
    requires makers { Makers (kinded_lent tables.now) by.now }
    ensures { result ≡ if_below tables.now.n (first_fail (λ v. not (depends (plain_inputs (kinded_lent tables.now)) tables.now.n v v)) tables.now.n) }
{
    // Stays: rows of a fixed length, since no call allocates.
    let mut begins = [0u16; 4096];
    let mut stops = [0u16; 4096];
    let mut marks = [0u16; 4096];
    let mut numbers = [0u16; 4096];
    set_links(Which::Plain, tables, by, &mut begins, &mut stops);
    let links = Links {
        n: tables.n,
        begins: &begins,
        stops: &stops,
        vars: tables.vars,
    };
    find_groups(&links, &mut marks, &mut numbers);
    first_back(&links, &marks)
}

// Stays: begins as `first_plain` does, but each has its own rows and goes on to read links and marks; a helper that is lent all four rows is no plainer.
// The least variable on a closed chain that passes through an index, if there is one; `numbers` then holds the number of every variable.
fn first_round(tables: &Tables, by: &[u16], numbers: &mut [u16]) -> Option<usize>
    requires kinded { Kinded (kinded_lent tables.now) }
    requires makers { Makers (kinded_lent tables.now) by.now }
    requires room { tables.now.n ≤ length numbers.old }
    ensures least { result ≡ if_below tables.now.n (first_fail (λ v. all_below (λ x. not (round_index (kinded_lent tables.now) v x)) tables.now.n) tables.now.n) }
    ensures numbered { Shared (kinded_lent tables.now) numbers.new }
{
    // Stays: rows of a fixed length, since no call allocates.
    let mut begins = [0u16; 4096];
    let mut stops = [0u16; 4096];
    let mut marks = [0u16; 4096];
    let mut found = [0u16; 4096];
    let mut barred = [false; 65536];
    set_links(Which::All, tables, by, &mut begins, &mut stops);
    let links = Links {
        n: tables.n,
        begins: &begins,
        stops: &stops,
        vars: tables.vars,
    };
    find_groups(&links, &mut marks, &mut found);
    copy_numbers(tables.n, &found, numbers);
    bar_groups(tables.kinds, by, &links, &marks, &mut barred);
    first_barred(tables.n, &marks, &barred)
}

// The least variable on a closed chain that is not permitted, if there is one; `numbers` then holds the number of every variable.
// Stays: tables and `by` apart, here and in what is called, since docs/STATEMENTS names this function; `Makers` joins them in clauses.
pub fn find_shared(tables: &Tables, by: &[u16], numbers: &mut [u16]) -> Option<usize>
    requires kinded { Kinded (kinded_lent tables.now) }
    requires makers { Makers (kinded_lent tables.now) by.now }
    requires room { tables.now.n ≤ length numbers.old }
    ensures least { result ≡ if_below tables.now.n (first_fail (permitted (kinded_lent tables.now)) tables.now.n) }
    ensures numbered { Shared (kinded_lent tables.now) numbers.new }
{
    let plain = first_plain(tables, by);
    let round = first_round(tables, by, numbers);
    match (plain, round) {
        (Some(v), Some(w)) => Some(v.min(w)),
        _ => plain.or(round),
    }
}
