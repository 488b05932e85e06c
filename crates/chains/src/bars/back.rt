// Links that lead back into the group that they come from.
ghost use Rattle.std.specs.Prelude.{not, ◌≡◌, ◌<◌};
ghost use Rattle.integers.specs.Below.{if_below};
ghost use Rattle.paper.specs.Lists.{first_fail};
ghost use Rattle.groups.specs.Links.{Laid, links_of};
ghost use Rattle.chains.specs.Back.{leads_back};

use groups::links::Links;
use integers::wide;

// Whether v has a link to a variable with its mark.
fn leads_back(v: usize, links: &Links, marks: &[u16; 4096]) -> bool
    requires laid { Laid links.now }
    requires there { v < links.now.n }
    ensures { result ≡ leads_back (links_of links.now) marks.now v }
{
    let mark = marks[v];
    (wide(links.begins[v])..wide(links.stops[v])).any(|i| mark == marks[wide(links.vars[i])])
}

// The least variable with a link to its own mark, if there is one.
pub fn first_back(links: &Links, marks: &[u16; 4096]) -> Option<usize>
    requires laid { Laid links.now }
    ensures { result ≡ if_below links.now.n (first_fail (λ v. not (leads_back (links_of links.now) marks.now v)) links.now.n) }
{
    (0..links.n).find(|&v| leads_back(v, links, marks))
}
