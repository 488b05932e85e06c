// A file stored: its header, and behind it start values, rows and entries, one line behind the other.
ghost use Rattle.std.specs.Prelude.{◌≡◌, ◌++◌, ◌+◌, ◌≤◌, ◌<◌, length};
ghost use Rattle.std.proofs.lemmas.List.Edits.{sets};
ghost use Rattle.std.specs.Int.{w16, w32};
ghost use Rattle.std.proofs.Common.{of_z};
ghost use Rattle.paper.specs.Lists.{joined};
ghost use Rattle.fields.specs.Rows.{HasRows, HasEntries, bytes_of_row, bytes_of_entry};
ghost use Rattle.paper.specs.File.{bytes_of, start_bytes, rows_from, entries_from, bounds_from};

use crate::numbers::Number;
use crate::places::{entries_at, rows_at};
use tables::lent::Tables;

mod header;

pub use header::put_header;

// Stores the start values behind a header.
pub fn put_starts(bytes: &mut [u8], head: usize, n: usize, starts: &[i32])
    requires { (n ≤ length starts.now) × (rows_from head n ≤ length bytes.old) }
    ensures { bytes.new ≡ sets bytes.old head (joined (start_bytes starts.now) n) }
{
    for (v, &start) in starts[..n].iter().enumerate() {
        start.write(bytes, head + 4 * v);
    }
}

// Stores one row.
fn put_row(bytes: &mut [u8], at: usize, kind: u16, made: u16, param: i32, first: u16, count: u16)
    requires { at + 12 ≤ length bytes.old }
    ensures { bytes.new ≡ sets bytes.old at (bytes_of 2 kind ++ bytes_of 2 made ++ bytes_of 4 (of_z w32 param) ++ bytes_of 2 first ++ bytes_of 2 count) }
{
    kind.write(bytes, at);
    made.write(bytes, at + 2);
    param.write(bytes, at + 4);
    first.write(bytes, at + 8);
    count.write(bytes, at + 10);
}

// Stores the rows. The columns are taken before the loop, here and below: a byte that is stored might lie in the struct, for all that the compiler knows.
// Stays: r picks from five columns, and the place too.
pub fn put_rows(bytes: &mut [u8], head: usize, tables: &Tables)
    requires sized { HasRows tables.now }
    requires head_bound { (head ≤ 28) × (tables.now.n < 65536) × (tables.now.m < 65536) × (entries_from head tables.now.n tables.now.m ≤ length bytes.old) }
    ensures { bytes.new ≡ sets bytes.old (rows_from head tables.now.n) (joined (bytes_of_row tables.now) tables.now.m) }
{
    let at = rows_at(head, tables.n);
    let Tables {
        m,
        kinds,
        makes,
        params,
        firsts,
        counts,
        ..
    } = *tables;
    for r in 0..m {
        put_row(
            bytes,
            at + 12 * r,
            kinds[r],
            makes[r],
            params[r],
            firsts[r],
            counts[r],
        );
    }
}

// Stores one entry.
fn put_entry(bytes: &mut [u8], at: usize, var: u16, coef: i16)
    requires { at + 4 ≤ length bytes.old }
    ensures { bytes.new ≡ sets bytes.old at (bytes_of 2 var ++ bytes_of 2 (of_z w16 coef)) }
{
    var.write(bytes, at);
    coef.write(bytes, at + 2);
}

// Stores the entries.
// Stays: i picks from two columns, and the place too.
pub fn put_entries(bytes: &mut [u8], head: usize, tables: &Tables)
    requires sized { HasEntries tables.now }
    requires head_bound { (head ≤ 28) × (tables.now.n < 65536) × (tables.now.m < 65536) × (bounds_from head tables.now.n tables.now.m tables.now.e ≤ length bytes.old) }
    ensures { bytes.new ≡ sets bytes.old (entries_from head tables.now.n tables.now.m) (joined (bytes_of_entry tables.now) tables.now.e) }
{
    let at = entries_at(head, tables.n, tables.m);
    let Tables { e, vars, coefs, .. } = *tables;
    for i in 0..e {
        put_entry(bytes, at + 4 * i, vars[i], coefs[i]);
    }
}
