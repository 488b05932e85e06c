// From the entries to their rows.
ghost use Rattle.std.specs.Prelude.{length};
ghost use Rattle.index.specs.Parts.{PartsApart, RowsAt};

use integers::wide;
use tables::lent::Tables;

// Writes at each entry its row.
pub fn write_rows(tables: &Tables, rows: &mut [u16])
    requires apart { PartsApart tables.now.m (length rows.old) tables.now.firsts.now tables.now.counts.now }
    ensures { RowsAt tables.now.m tables.now.firsts.now tables.now.counts.now rows.new }
{
    for r in 0..tables.m {
        let first = wide(tables.firsts[r]);
        rows[first..first + wide(tables.counts[r])].fill(r as u16);
    }
}
