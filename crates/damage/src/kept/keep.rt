// Which rows of a file are kept: each that is whole and good, makes a variable that none kept before it makes, and leaves the entries within 16,384.
ghost use Rattle.std.specs.Prelude.{◌≡◌, ◌+◌, ◌≤◌, ◌<◌, length};
ghost use Rattle.paper.specs.Lists.{nat};
ghost use Rattle.paper.specs.File.{n_in};
ghost use Rattle.paper.proofs.Sizes.{Sized};
ghost use Rattle.tables.specs.Lent.{lent_tables};
ghost use Rattle.damage.specs.Saved.{row_whole, alone_good, can_keep, kept_rows};
ghost use Rattle.damage.specs.Scratch.{KeptFlags};
ghost use Rattle.damage.specs.Keeping.{FileGives, Taken};

use crate::admissions::{can_join, entries_whole};
use checks::repeats::mark;
use checks::sound::row_checks;
use fields::places::{Size, Version, entries_at};
use integers::wide;
use tables::lent::Tables;

// The row is whole in the file.
fn row_whole(bytes: &[u8], n: usize, row: usize) -> bool
    requires { (n ≡ n_in bytes.now) × (n ≤ 4096) × (row < 4096) }
    ensures { result ≡ row_whole bytes.now row }
{
    entries_at(Version::One.head_length(), n, row + 1) <= bytes.len()
}

// The row is good on its own: checks 2 to 4 accept a table of this row alone.
fn alone_good(tables: &Tables, row: usize) -> bool
    requires sized { Sized (lent_tables tables.now) }
    requires row_lt_m { (row < tables.now.m) × (nat tables.now.firsts.now row + nat tables.now.counts.now row ≤ tables.now.e) }
    ensures { result ≡ alone_good (lent_tables tables.now) row }
{
    let next = row + 1;
    let first = wide(tables.firsts[row]);
    let count = wide(tables.counts[row]);
    let end = first + count;
    let alone = Tables {
        n: tables.n,
        m: 1,
        e: count,
        kinds: &tables.kinds[row..next],
        makes: &tables.makes[row..next],
        params: &tables.params[row..next],
        firsts: &[0],
        counts: &tables.counts[row..next],
        vars: &tables.vars[first..end],
        coefs: &tables.coefs[first..end],
    };
    row_checks(&alone).is_ok()
}

// The row can be kept after those kept before it, whose variables are marked and whose entries are counted.
fn can_keep(bytes: &[u8], tables: &Tables, row: usize, made: &[bool], used: usize) -> bool
    requires file_gives { FileGives bytes.now (lent_tables tables.now) }
    requires row_lt_m { row < tables.now.m }
    requires taken { Taken tables.now.makes.now tables.now.counts.now (kept_rows bytes.now row) made.now used }
    ensures { result ≡ can_keep bytes.now (kept_rows bytes.now row) row }
{
    let size = Size {
        n: tables.n,
        m: tables.m,
        e: tables.e,
    };
    let first = tables.firsts[row];
    let count = tables.counts[row];
    let whole = row_whole(bytes, tables.n, row) & entries_whole(bytes, size, first, count);
    if !whole {
        return false;
    }
    if !alone_good(tables, row) {
        return false;
    }
    can_join(tables.makes[row], count, made, used)
}

// Says of each row whether it is kept: the variables of the rows kept are marked, and their entries counted.
pub fn keep_rows(bytes: &[u8], tables: &Tables, stands: &mut [bool])
    requires file_gives { FileGives bytes.now (lent_tables tables.now) }
    requires m_in_bounds { tables.now.m ≤ length stands.old }
    ensures { KeptFlags bytes.now (lent_tables tables.now) stands.new }
{
    // Stays: rows of a fixed length, since no call allocates.
    let mut made = [false; 4096];
    let mut used = 0;
    for row in 0..tables.m {
        let kept = can_keep(bytes, tables, row, &made, used);
        stands[row] = kept;
        if kept {
            mark(tables.makes[row], &mut made);
            used += wide(tables.counts[row]);
        }
    }
}
