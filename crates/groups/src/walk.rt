// The groups of variables that depend on each other, in one walk: each variable is entered once, and the first that was entered of a group closes it when its
// own links are done.
ghost use Rattle.std.specs.Prelude.{◌≡◌, min, ◌+◌, ◌≤◌, ◌<◌};
ghost use Rattle.order.specs.Numbering.{Clean};
ghost use Rattle.groups.specs.Groups.{Found};
ghost use Rattle.groups.specs.Links.{Laid, links_of};
ghost use Rattle.groups.specs.Walk.{WalkState, Leading, GroupVisit, EnteredBelow};

use crate::links::Links;
use crate::stacks::{enter, group_number, mark_group};
use integers::wide;

// Stays: a mark is a number of three kinds, 0, a place or one above 4096, since `Waits` and `asked` say the row of marks so.
// Visits v: the mark of v if it has been entered before or if its group closes; else the least place that links lead to from what this visit leaves waiting.
fn visit(
    v: usize,
    links: &Links,
    marks: &mut [u16; 4096],
    stack: &mut [u16; 4097],
    numbers: &mut [u16; 4096],
) -> usize
    requires laid { Laid links.now }
    requires there { v < links.now.n }
    requires state { WalkState links.now.n (links_of links.now) marks.old stack.old numbers.old }
    requires leading { Leading (links_of links.now) v marks.old }
    ensures { GroupVisit links.now.n (links_of links.now) v marks.old marks.new stack.new numbers.new result }
{
    let known = wide(marks[v]);
    if known > 0 {
        return known;
    }
    let place = enter(v, marks, stack);
    let mut low = place;
    // Stays: a slice asks that it does not begin beyond its end, which `Laid` does not say and may not ask.
    for i in wide(links.begins[v])..wide(links.stops[v]) {
        low = low.min(visit(wide(links.vars[i]), links, marks, stack, numbers));
    }
    if low < place {
        return low;
    }
    let mark = 4097 + v;
    let number = group_number(v, links, marks, stack, numbers);
    mark_group(
        place,
        links.n,
        mark as u16,
        number as u16,
        marks,
        stack,
        numbers,
    );
    stack[0] = (place - 1) as u16;
    mark
}

// Visits every variable.
fn visit_all(
    links: &Links,
    marks: &mut [u16; 4096],
    stack: &mut [u16; 4097],
    numbers: &mut [u16; 4096],
)
    requires laid { Laid links.now }
    requires clean { Clean links.now.n marks.old × Clean (links.now.n + 1) stack.old × Clean links.now.n numbers.old }
    ensures { EnteredBelow links.now.n (links_of links.now) links.now.n marks.new stack.new numbers.new }
{
    for v in 0..links.n {
        visit(v, links, marks, stack, numbers);
    }
}

// Writes a mark for each variable, the same for those of one group, and the number of the group.
pub fn find_groups(links: &Links, marks: &mut [u16; 4096], numbers: &mut [u16; 4096])
    requires laid { Laid links.now }
    requires clean { Clean links.now.n marks.old × Clean links.now.n numbers.old }
    ensures { Found links.now.n (links_of links.now) marks.new numbers.new }
{
    // Stays: rows of a fixed length, since no call allocates.
    let mut stack = [0u16; 4097];
    visit_all(links, marks, &mut stack, numbers);
}
