// A variable that an earlier place of a list names too, as checks 5 and 11 have it: check 11.
ghost use Rattle.std.specs.Prelude.{true, ◌≡◌, ◌≤◌, ◌<◌, length, set};
ghost use Rattle.integers.specs.Below.{if_below};
ghost use Rattle.paper.specs.Lists.{first_fail};
ghost use Rattle.paper.specs.Checks.{made_once};
ghost use Rattle.checks.specs.Named.{makes_rows, named_before};

use integers::wide;

// An earlier place names what place i names: the variable's mark says so, or the places themselves if it is too great to have a mark.
fn named_before(seen: &[bool], vars: &[u16], i: usize) -> bool
    requires { i < length vars.now }
    ensures { result ≡ named_before seen.now vars.now i }
{
    match seen.get(wide(vars[i])) {
        Some(&marked) => marked,
        None => vars[..i].contains(&vars[i]),
    }
}

// Marks the variable, unless it is too great to have a mark.
pub fn mark(v: u16, seen: &mut [bool])
    ensures { seen.new ≡ set seen.old v true }
{
    // Stays: with `get_mut` the goals `returns-in-Some` and `returns-in_default` stay open.
    let at = wide(v);
    if at < seen.len() {
        seen[at] = true;
    }
}

// The first of m places that names what an earlier one names, by marks: one look at a place, but a row of marks to clear.
fn first_marked(m: usize, vars: &[u16]) -> Option<usize>
    requires { m ≤ length vars.now }
    ensures { result ≡ if_below m (first_fail (made_once (makes_rows vars.now)) m) }
{
    // Stays: rows of a fixed length, since no call allocates.
    let mut seen = [false; 4096];
    for i in 0..m {
        if named_before(&seen, vars, i) {
            return Some(i);
        }
        mark(vars[i], &mut seen);
    }
    None
}

// The first of m places that names what an earlier one names, by comparing each place but the first with those before it.
fn first_compared(m: usize, vars: &[u16]) -> Option<usize>
    requires { m ≤ length vars.now }
    ensures { result ≡ if_below m (first_fail (made_once (makes_rows vars.now)) m) }
{
    (1..m).find(|&place| vars[..place].contains(&vars[place]))
}

// The first of m places that names what an earlier one names. Few places are compared sooner than a row of marks is cleared.
pub fn first_again(m: usize, vars: &[u16]) -> Option<usize>
    requires { m ≤ length vars.now }
    ensures { result ≡ if_below m (first_fail (made_once (makes_rows vars.now)) m) }
{
    if m <= 16 {
        return first_compared(m, vars);
    }
    first_marked(m, vars)
}
