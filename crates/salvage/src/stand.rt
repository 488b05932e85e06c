// What a file gives, and which of its rows stand.
ghost use Rattle.std.specs.Prelude.{◌≡◌, ◌≤◌, length, take};
ghost use Rattle.paper.specs.Checks.{accepted, by_lines};
ghost use Rattle.paper.specs.File as File;
ghost use Rattle.tables.specs.Lent.{lent_tables};
ghost use Rattle.damage.specs.Saved.{start_given};
ghost use Rattle.salvage.specs.Salvage.{lends_to_salvage, left_by_salvage};
ghost use Rattle.salvage.specs.Salvage as Salvage;
ghost use Rattle.damage.specs.Keeping.{FileGives};

use crate::Saved;
use crate::packing::drop_rows;
use crate::save::save;
use damage::kept::{keep_rows, lay_given};
use fields::places::Size;
use tables::Refusal;
use tables::lent::Tables;

// Salvages the rows that a file gives: those that stand among the rows kept are saved.
fn salvage_rows(
    bytes: &[u8],
    tables: &Tables,
    starts: &mut [i32],
    file: &mut [u8],
    list: &mut [u16],
) -> Result<Saved, Refusal>
    requires gives { FileGives bytes.now (lent_tables tables.now) }
    requires values { (tables.now.n ≤ length starts.old) × (take tables.now.n starts.old ≡ start_given bytes.now) }
    ensures { left_by_salvage result file.new list.new ≡ Salvage.salvage (lends_to_salvage bytes.now file.old list.old) }
{
    // Stays: rows of a fixed length, since no call allocates.
    let mut row = [false; 4096];
    keep_rows(bytes, tables, &mut row);
    drop_rows(tables, &mut row);
    save(bytes, tables, starts, &row, file, list)
}

// Salvages a file whose version and counts are right.
pub(crate) fn salvage_given(
    bytes: &[u8],
    size: Size,
    file: &mut [u8],
    list: &mut [u16],
) -> Result<Saved, Refusal>
    requires counts { (size.n ≡ File.n_in bytes.now) × (size.m ≡ File.m_in bytes.now) × (size.e ≡ File.e_in bytes.now) }
    requires head { by_lines (File.head_lines File.version1 bytes.now) accepted ≡ accepted }
    ensures { left_by_salvage result file.new list.new ≡ Salvage.salvage (lends_to_salvage bytes.now file.old list.old) }
{
    // Stays: rows of a fixed length, since no call allocates.
    let mut starts = [0i32; 4096];
    let mut kinds = [0u16; 4096];
    let mut makes = [0u16; 4096];
    let mut params = [0i32; 4096];
    let mut firsts = [0u16; 4096];
    let mut counts = [0u16; 4096];
    let mut vars = [0u16; 16384];
    let mut coefs = [0i16; 16384];
    lay_given(
        bytes,
        size,
        &mut starts,
        &mut kinds,
        &mut makes,
        &mut params,
        &mut firsts,
        &mut counts,
        &mut vars,
        &mut coefs,
    );
    let Size { n, m, e } = size;
    let tables = Tables {
        n,
        m,
        e,
        kinds: &kinds[..m],
        makes: &makes[..m],
        params: &params[..m],
        firsts: &firsts[..m],
        counts: &counts[..m],
        vars: &vars[..e],
        coefs: &coefs[..e],
    };
    salvage_rows(bytes, &tables, &mut starts[..n], file, list)
}
