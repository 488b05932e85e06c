// The part of the lent entries that a row names, for whoever asks.
ghost use Rattle.std.specs.Prelude.{◌≡◌};
ghost use Rattle.tables.specs.Given.{VeryPart, part_asked, part_named};

use integers::wide;

// A part of the lent entries: where it starts among them, and how many it has.
#[repr(C)]
#[derive(Clone, Copy)]
pub struct Part {
    pub first: usize,
    pub count: usize,
}

// The part of a row's inputs: empty if there is no such row or its part ends after e.
// Stays: an empty part for none, since C is handed a `Part`, and `part_asked` with `part_named` says so.
// Stays: rows of their own, here and below, since docs/LINKING names `inputs_of_row`, whose caller may hold these three alone, and what is given back may outlive the other two.
pub fn part_of_row(
    m: usize,
    e: usize,
    firsts: &[u16],
    counts: &[u16],
    vars: &[u16],
    row: usize,
) -> Part
    ensures { result ≡ part_named (part_asked m e firsts.now counts.now vars.now row) }
{
    let there = (row < m) & (row < firsts.len()) & (row < counts.len());
    if !there {
        return Part { first: 0, count: 0 };
    }
    let first = wide(firsts[row]);
    let count = wide(counts[row]);
    let end = first + count;
    let inside = (end <= e) & (end <= vars.len());
    if !inside {
        return Part { first: 0, count: 0 };
    }
    Part { first, count }
}

// The input variables of a row: none if there is no such row or its part ends after e.
pub fn inputs_of_row<'a>(
    m: usize,
    e: usize,
    firsts: &[u16],
    counts: &[u16],
    vars: &'a [u16],
    row: usize,
) -> &'a [u16]
    ensures { VeryPart vars.entry (part_asked m e firsts.now counts.now vars.now row) result }
{
    let part = part_of_row(m, e, firsts, counts, vars, row);
    &vars[part.first..part.first + part.count]
}
