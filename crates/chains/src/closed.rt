// Whether some chain closes, told by right numbers: they fall along every link but those inside a group, and a permitted closed chain passes through a candidate.
ghost use Rattle.std.specs.Prelude.{not, ◌≡◌, ◌≤◌, ◌<◌, eqb, length};
ghost use Rattle.paper.specs.Lists.{nat, all_below};
ghost use Rattle.paper.specs.Chains.{closes};
ghost use Rattle.chains.specs.Links.{kinded_lent, Kinded, Grouped};
ghost use Rattle.chains.specs.Level.{level_candidate};

use integers::wide;
use tables::lent::Tables;

// Whether some row is ELEMENT; no turn leaves the loop, so the compiler takes several rows at a time.
fn some_element(tables: &Tables) -> bool
    requires { tables.now.m ≤ length tables.now.kinds.now }
    ensures { result ≡ not (all_below (λ q. not (eqb (nat tables.now.kinds.now q) 4)) tables.now.m) }
{
    tables.kinds[..tables.m]
        .iter()
        .fold(false, |some, &kind| some | (kind == 4))
}

// Whether row r is ELEMENT, and a candidate's number is not below that of the variable it makes.
fn level_candidate(r: usize, tables: &Tables, numbers: &[u16]) -> bool
    requires kinded { Kinded (kinded_lent tables.now) }
    requires long { (r < tables.now.m) × (tables.now.n ≤ length numbers.now) }
    ensures { result ≡ level_candidate (kinded_lent tables.now) numbers.now (nat tables.now.makes.now r) }
{
    // Stays: a kind is a number, as `tables::kind` says.
    if tables.kinds[r] != 4 {
        return false;
    }
    let number = numbers[wide(tables.makes[r])];
    let first = wide(tables.firsts[r]);
    let stop = first + wide(tables.counts[r]);
    tables.vars[first + 1..stop]
        .iter()
        .any(|&i| number <= numbers[wide(i)])
}

// Whether some chain of inputs closes. Where no row is ELEMENT none does.
pub fn some_closes(tables: &Tables, numbers: &[u16]) -> bool
    requires kinded { Kinded (kinded_lent tables.now) }
    requires right { Grouped (kinded_lent tables.now) numbers.now }
    ensures { result ≡ closes (kinded_lent tables.now) }
{
    some_element(tables) && (0..tables.m).any(|r| level_candidate(r, tables, numbers))
}
