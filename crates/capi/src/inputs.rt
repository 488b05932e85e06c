// The inputs of a row across the C boundary.
ghost use Rattle.std.specs.Prelude.{◌≡◌};
ghost use Rattle.tables.specs.Given.{part_asked, part_named};

use tables::parts::{Part, part_of_row};

// `tables::parts::inputs_of_row` for C: where the part starts among the lent entries, and how many it has. C can take no slice back.
pub fn lukhandro_inputs_of_row(
    m: usize,
    e: usize,
    firsts: &[u16],
    counts: &[u16],
    vars: &[u16],
    row: usize,
) -> Part
    ensures { result ≡ part_named (part_asked m e firsts.now counts.now vars.now row) }
{
    part_of_row(m, e, firsts, counts, vars, row)
}
