// The stack of the walk that finds groups: a variable put on it, and the number and the mark of the group that stands on top.
ghost use Rattle.std.specs.Prelude.{◌≡◌, ◌+◌, ◌≤◌, ◌<◌, length, set};
ghost use Rattle.paper.specs.Lists.{nat};
ghost use Rattle.groups.specs.Links.{Laid, links_of};
ghost use Rattle.groups.specs.Stack.{Waits, Stacked, asked_at, first_number, Best, Marked};

use crate::asks::asks_of;
use crate::links::Links;
use integers::wide;

// Puts v on the stack: its place there.
// Stays: place 0 holds how many wait, since `Stacked` says the row so.
pub fn enter(v: usize, marks: &mut [u16; 4096], stack: &mut [u16; 4097]) -> usize
    requires { (v < 4096) × (nat stack.old 0 < 4096) }
    ensures { (result ≡ nat stack.old 0 + 1) × (marks.new ≡ set marks.old v result) × (stack.new ≡ set (set stack.old result v) 0 result) }
{
    let place = wide(stack[0]) + 1;
    marks[v] = place as u16;
    stack[place] = v as u16;
    stack[0] = place as u16;
    place
}

// 1 with links, 0 without.
fn first_number(v: usize, links: &Links) -> usize
    requires { v < 4096 }
    ensures { result ≡ first_number links.now.begins.now links.now.stops.now v }
{
    if wide(links.begins[v]) < wide(links.stops[v]) {
        return 1;
    }
    0
}

// The number of the group that stands on the stack from v's place on.
pub fn group_number(
    v: usize,
    links: &Links,
    marks: &[u16; 4096],
    stack: &[u16; 4097],
    numbers: &[u16; 4096],
) -> usize
    requires laid { Laid links.now }
    requires waits { (v < links.now.n) × Waits marks.now v }
    requires stacked { Stacked links.now.n marks.now stack.now }
    ensures { Best (asked_at (links_of links.now) marks.now stack.now numbers.now) (nat marks.now v) (nat stack.now 0 + 1) (first_number links.now.begins.now links.now.stops.now v) result }
{
    let mut best = first_number(v, links);
    for &u in &stack[wide(marks[v])..wide(stack[0]) + 1] {
        best = best.max(asks_of(wide(u), links, marks, numbers));
    }
    best
}

// Gives a mark and a number to what stands on the stack from place p on.
pub fn mark_group(
    p: usize,
    n: usize,
    mark: u16,
    number: u16,
    marks: &mut [u16; 4096],
    stack: &[u16; 4097],
    numbers: &mut [u16; 4096],
)
    requires place { (0 < p) × (p ≤ nat stack.now 0) }
    requires there { (n ≤ 4096) × (n ≤ length numbers.old) }
    requires stacked { Stacked n marks.old stack.now }
    ensures { Marked p (nat stack.now 0 + 1) mark number marks.old numbers.old marks.new numbers.new }
{
    for &u in &stack[p..wide(stack[0]) + 1] {
        let v = wide(u);
        marks[v] = mark;
        numbers[v] = number;
    }
}
