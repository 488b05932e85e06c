// What stands is saved: packed, with the start values that are kept, and written with the list.
ghost use Rattle.std.specs.Prelude.{true, ◌≡◌, ◌≤◌, length};
ghost use Rattle.tables.specs.Lent.{lent_tables};
ghost use Rattle.salvage.specs.Salvage.{lends_to_salvage, left_by_salvage};
ghost use Rattle.salvage.specs.Salvage as Salvage;
ghost use Rattle.damage.specs.Flags.{flagged};
ghost use Rattle.salvage.specs.Saving.{Judged, Packed, SavedReady};

use crate::Saved;
use crate::packing::{pack, pack_parts, pack_shape};
use crate::start::keep_starts;
use damage::flags::{count_flagged, list_flagged, list_unset};
use fields::places::{Size, Version, ends_at};
use files::write;
use tables::lent::Tables;
use tables::{Refusal, makers, refused};

// Writes the file of these tables and start values, and the list, if there is room for both.
fn write_saved(
    bytes: &[u8],
    m: usize,
    tables: &Tables,
    starts: &[i32],
    row: &[bool],
    taken: &[bool],
    file: &mut [u8],
    list: &mut [u16],
) -> Result<Saved, Refusal>
    requires ready { SavedReady bytes.now m (lent_tables tables.now) starts.now row.now taken.now }
    requires there { (m ≤ length row.now) × (tables.now.n ≤ length taken.now) }
    ensures { left_by_salvage result file.new list.new ≡ Salvage.salvage (lends_to_salvage bytes.now file.old list.old) }
{
    let n = tables.n;
    let size = Size {
        n,
        m: tables.m,
        e: tables.e,
    };
    let length = ends_at(Version::One, size);
    let rows = count_flagged(m, row, false);
    let values = count_flagged(n, taken, false);
    let fits = (length <= file.len()) & (rows + values <= list.len());
    if !fits {
        return Err(refused(1, 0));
    }
    list_unset(m, row, n, taken, list);
    write(tables, starts, file)?;
    Ok(Saved {
        length,
        rows,
        values,
    })
}

// Keeps the start values that can be kept with these tables, and writes what is saved.
fn save_packed(
    bytes: &[u8],
    m: usize,
    tables: &Tables,
    starts: &mut [i32],
    row: &[bool],
    file: &mut [u8],
    list: &mut [u16],
) -> Result<Saved, Refusal>
    requires packed { Packed bytes.now m (lent_tables tables.now) starts.old row.now }
    requires there { (m ≤ length row.now) × (tables.now.n ≤ length starts.old) }
    ensures { left_by_salvage result file.new list.new ≡ Salvage.salvage (lends_to_salvage bytes.now file.old list.old) }
{
    // Stays: rows of a fixed length, since no call allocates.
    let mut by = [0u16; 4096];
    let mut taken = [false; 4096];
    let n = tables.n;
    makers(n, tables.m, tables.makes, &mut by);
    keep_starts(bytes.len(), n, &by, starts, &mut taken);
    write_saved(bytes, m, tables, &starts[..n], row, &taken, file, list)
}

// Packs the rows listed, which are those that stand, and saves them.
fn save_rows(
    bytes: &[u8],
    tables: &Tables,
    rows: &[u16],
    starts: &mut [i32],
    row: &[bool],
    file: &mut [u8],
    list: &mut [u16],
) -> Result<Saved, Refusal>
    requires judged { Judged bytes.now (lent_tables tables.now) starts.old row.now }
    requires there { (tables.now.m ≤ length row.now) × (tables.now.n ≤ length starts.old) }
    requires listed { rows.now ≡ flagged true row.now tables.now.m }
    ensures { left_by_salvage result file.new list.new ≡ Salvage.salvage (lends_to_salvage bytes.now file.old list.old) }
{
    // Stays: rows of a fixed length, since no call allocates.
    let mut kinds = [0u16; 4096];
    let mut makes = [0u16; 4096];
    let mut params = [0i32; 4096];
    let mut firsts = [0u16; 4096];
    let mut counts = [0u16; 4096];
    let mut vars = [0u16; 16384];
    let mut coefs = [0i16; 16384];
    pack(rows, tables.kinds, &mut kinds);
    pack(rows, tables.params, &mut params);
    let m = rows.len();
    let e = pack_shape(
        rows,
        tables,
        &mut makes,
        &mut firsts,
        &mut counts,
        &mut vars,
    );
    pack_parts(rows, tables.firsts, tables.counts, tables.coefs, &mut coefs);
    let saved = Tables {
        n: tables.n,
        m,
        e,
        kinds: &kinds[..m],
        makes: &makes[..m],
        params: &params[..m],
        firsts: &firsts[..m],
        counts: &counts[..m],
        vars: &vars[..e],
        coefs: &coefs[..e],
    };
    save_packed(bytes, tables.m, &saved, starts, row, file, list)
}

// Saves the rows that stand.
pub(crate) fn save(
    bytes: &[u8],
    tables: &Tables,
    starts: &mut [i32],
    row: &[bool],
    file: &mut [u8],
    list: &mut [u16],
) -> Result<Saved, Refusal>
    requires judged { Judged bytes.now (lent_tables tables.now) starts.old row.now }
    requires there { (tables.now.m ≤ length row.now) × (tables.now.n ≤ length starts.old) }
    ensures { left_by_salvage result file.new list.new ≡ Salvage.salvage (lends_to_salvage bytes.now file.old list.old) }
{
    // Stays: rows of a fixed length, since no call allocates.
    let mut rows = [0u16; 4096];
    let k = list_flagged(tables.m, row, true, 0, &mut rows);
    save_rows(bytes, tables, &rows[..k], starts, row, file, list)
}
