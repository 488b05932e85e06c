// The inputs of a row across the C boundary.
ghost use Rattle.std.specs.Prelude.{◌≡◌};
ghost use Rattle.tables.specs.Given.{part_asked, part_named};

use tables::parts::Part;

// `capi::lukhandro_inputs_of_row` for C.
#[unsafe(no_mangle)]
pub extern "C" fn lukhandro_inputs_of_row(
    m: usize,
    e: usize,
    firsts: &[u16],
    counts: &[u16],
    vars: &[u16],
    row: usize,
) -> Part
    ensures { result ≡ part_named (part_asked m e firsts.now counts.now vars.now row) }
{
    capi::lukhandro_inputs_of_row(m, e, firsts, counts, vars, row)
}
