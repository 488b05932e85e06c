// Rows of tables packed: copied in the order of a list of rows, with their parts one after another.
ghost use Rattle.std.specs.Prelude.{◌≡◌, ◌+◌, ◌≤◌, ◌<◌, length, get_or, take};
ghost use Rattle.std.proofs.lemmas.List.Edits.{sets};
ghost use Rattle.paper.specs.Lists.{nat, over, total, joined};
ghost use Rattle.tables.specs.Makers.{AllBelow};
ghost use Rattle.salvage.specs.Packing.{part_of_row, Packable, Shaped, bare_part};

use integers::wide;
use tables::lent::Tables;

// Copies what the rows have in a column.
pub fn pack<T: Copy>(rows: &[u16], column: &[T], out: &mut [T])
    requires { (length rows.now ≤ length out.old) × AllBelow (length rows.now) rows.now (length column.now) }
    ensures { (d : T) → out.new ≡ over (length rows.now) (λ i. get_or column.now (nat rows.now i) d) out.old }
{
    for (i, &row) in rows.iter().enumerate() {
        out[i] = column[wide(row)];
    }
}

// Writes where each part begins if they stand one after another: where the last ends.
fn pack_firsts(counts: &[u16], out: &mut [u16]) -> usize
    requires { (length counts.now ≤ length out.old) × (total counts.now ≤ 16384) }
    ensures { (result ≡ total counts.now) × (out.new ≡ over (length counts.now) (λ k. total (take k counts.now)) out.old) }
{
    let mut first = 0;
    for (i, &count) in counts.iter().enumerate() {
        out[i] = first as u16;
        first += wide(count);
    }
    first
}

// The part of the entries that a row names.
fn part_of<'a, T>(row: u16, firsts: &[u16], counts: &[u16], entries: &'a [T]) -> &'a [T]
    requires { (row < length firsts.now) × (row < length counts.now) × (nat firsts.now row + nat counts.now row ≤ length entries.now) }
    ensures { result.now ≡ part_of_row firsts.now counts.now entries.now row }
{
    let place = wide(row);
    let first = wide(firsts[place]);
    let end = first + wide(counts[place]);
    &entries[first..end]
}

// Copies the rows' parts of the entries one after another.
pub fn pack_parts<T: Copy>(
    rows: &[u16],
    firsts: &[u16],
    counts: &[u16],
    entries: &[T],
    out: &mut [T],
)
    requires packable { Packable firsts.now counts.now (length entries.now) rows.now }
    requires room { 16384 ≤ length out.old }
    ensures { out.new ≡ sets out.old 0 (joined (λ k. part_of_row firsts.now counts.now entries.now (nat rows.now k)) (length rows.now)) }
{
    let mut at = 0;
    for &row in rows {
        let part = part_of(row, firsts, counts, entries);
        let end = at + part.len();
        out[at..end].copy_from_slice(part);
        at = end;
    }
}

// Packs the columns that numbers depend on: how many entries the rows have.
// Stays: rows that are written are parameters of their own, here and below: a struct of them would need a clause for each, that it is still the caller's.
pub fn pack_shape(
    rows: &[u16],
    tables: &Tables,
    makes: &mut [u16],
    firsts: &mut [u16],
    counts: &mut [u16],
    vars: &mut [u16],
) -> usize
    requires packable { Packable tables.now.firsts.now tables.now.counts.now (length tables.now.vars.now) rows.now }
    requires made { AllBelow (length rows.now) rows.now (length tables.now.makes.now) }
    requires room { (4096 ≤ length makes.old) × (4096 ≤ length firsts.old) × (4096 ≤ length counts.old) × (16384 ≤ length vars.old) }
    ensures { Shaped (bare_part tables.now) rows.now makes.new firsts.new counts.new vars.new result }
{
    pack(rows, tables.makes, makes);
    pack(rows, tables.counts, counts);
    pack_parts(rows, tables.firsts, tables.counts, tables.vars, vars);
    pack_firsts(&counts[..rows.len()], firsts)
}
