// Groups that an index lies in, barred by their marks.
ghost use Rattle.std.specs.Prelude.{false, not, ◌≡◌, ◌≤◌, ◌<◌, get_or};
ghost use Rattle.integers.specs.Below.{if_below};
ghost use Rattle.paper.specs.Lists.{nat, first_fail};
ghost use Rattle.chains.specs.Back.{back_in, Indexed, BarredFlags};

use crate::links::by_element;
use groups::links::Links;
use integers::wide;

// Whether an ELEMENT makes v, and its index has v's mark.
fn index_back(v: usize, kinds: &[u16], by: &[u16], links: &Links, marks: &[u16; 4096]) -> bool
    requires indexed { Indexed kinds.now by.now links.now }
    requires there { v < links.now.n }
    ensures { result ≡ back_in kinds.now by.now links.now marks.now v }
{
    if !by_element(wide(by[v]), kinds) {
        return false;
    }
    let index = wide(links.vars[wide(links.begins[v])]);
    marks[v] == marks[index]
}

// Bars the mark of each ELEMENT whose index has it.
pub fn bar_groups(
    kinds: &[u16],
    by: &[u16],
    links: &Links,
    marks: &[u16; 4096],
    barred: &mut [bool; 65536],
)
    requires indexed { Indexed kinds.now by.now links.now }
    requires none { BarredFlags (back_in kinds.now by.now links.now marks.now) marks.now 0 barred.old }
    ensures { BarredFlags (back_in kinds.now by.now links.now marks.now) marks.now links.now.n barred.new }
{
    for v in 0..links.n {
        barred[wide(marks[v])] |= index_back(v, kinds, by, links, marks);
    }
}

// The least variable below n whose mark is barred, if there is one.
pub fn first_barred(n: usize, marks: &[u16; 4096], barred: &[bool; 65536]) -> Option<usize>
    requires { n ≤ 4096 }
    ensures { result ≡ if_below n (first_fail (λ v. not (get_or barred.now (nat marks.now v) false)) n) }
{
    marks[..n].iter().position(|&mark| barred[wide(mark)])
}
