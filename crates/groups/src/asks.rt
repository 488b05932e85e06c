// What the links of a variable ask of the number that its group shares: one more than the number of each closed group that they lead to.
ghost use Rattle.std.specs.Prelude.{◌≡◌, ◌<◌};
ghost use Rattle.groups.specs.Asked.{asked, asked_by};
ghost use Rattle.groups.specs.Links.{Laid, links_of};

use crate::links::Links;
use integers::wide;

// What a link to i asks of the number of the group that it leads from.
fn asks(i: usize, marks: &[u16; 4096], numbers: &[u16; 4096]) -> usize
    requires { i < 4096 }
    ensures { result ≡ asked marks.now numbers.now i }
{
    if wide(marks[i]) <= 4096 {
        return 0;
    }
    wide(numbers[i]) + 1
}

// What the links of v ask.
pub fn asks_of(v: usize, links: &Links, marks: &[u16; 4096], numbers: &[u16; 4096]) -> usize
    requires laid { Laid links.now }
    requires there { v < links.now.n }
    ensures { result ≡ asked_by (links_of links.now) marks.now numbers.now v }
{
    let mut best = 0;
    // Stays: a slice asks that it does not begin beyond its end, which `Laid` does not say and may not ask.
    for i in wide(links.begins[v])..wide(links.stops[v]) {
        best = best.max(asks(wide(links.vars[i]), marks, numbers));
    }
    best
}
