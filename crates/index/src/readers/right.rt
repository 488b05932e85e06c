// Check 8 over the rows, in one walk. Each row in turn must stand at the place that its inputs' readers have reached, and in the end each variable's
// readers must have reached the start of the next one's: then the lent index is what build gives. What each row makes is held to the number due from
// its inputs on the way.
ghost use Rattle.std.specs.Prelude.{suc, ◌≤◌, length};
ghost use Rattle.tables.specs.Lent.{lent_index};
ghost use Rattle.order.specs.Formed.{bare_lent, Formed};
ghost use Rattle.index.specs.Index.{entries_lent, EntriesLaid};
ghost use Rattle.index.specs.Walk.{Begun, RowsWalked};

use crate::tries::{ends_right, row_due};
use integers::wide;
use tables::lent::{Index, Tables};

// Begins at each variable's start, with no row found.
fn begin(n: usize, starts: &[u16], cells: &mut [u32])
    requires { (n ≤ length starts.now) × (n ≤ length cells.old) }
    ensures { Begun n starts.now cells.new }
{
    for v in 0..n {
        cells[v] = u32::from(starts[v]);
    }
}

// The walk, over a row of N cells: none if the index is not what build gives, and otherwise whether what each row makes has the number due from its inputs.
fn walk_rows<const N: usize>(tables: &Tables, nums: &[u16], index: &Index) -> Option<bool>
    requires laid { EntriesLaid (entries_lent tables.now) }
    requires formed { Formed (bare_lent tables.now) }
    requires room { (tables.now.n ≤ length nums.now) × (suc tables.now.n ≤ length index.now.starts.now) × (tables.now.e ≤ length index.now.places.now) }
    requires cells { (tables.now.n ≤ N) × (N ≤ 4096) }
    ensures { RowsWalked (entries_lent tables.now) (bare_lent tables.now) nums.now (lent_index index.now) result }
{
    // Stays: rows of a fixed length, since no call allocates.
    let mut cells = [0u32; N];
    begin(tables.n, index.starts, &mut cells);
    let mut due = true;
    for r in 0..tables.m {
        let first = wide(tables.firsts[r]);
        let least = row_due(
            r,
            &tables.vars[first..first + wide(tables.counts[r])],
            nums,
            &index.places[..tables.e],
            &mut cells,
        )?;
        due = due & (wide(nums[wide(tables.makes[r])]) == least);
    }
    ends_right(tables.n, index.starts, &cells).then_some(due)
}

// Check 8 over the rows: none if the lent index is not what build gives, and otherwise whether the numbers of what rows make are due. A small model has
// a short row of cells, since clearing a long one would take longer than the check.
pub fn rows_right(tables: &Tables, nums: &[u16], index: &Index) -> Option<bool>
    requires laid { EntriesLaid (entries_lent tables.now) }
    requires formed { Formed (bare_lent tables.now) }
    requires room { (tables.now.n ≤ length nums.now) × (suc tables.now.n ≤ length index.now.starts.now) × (tables.now.e ≤ length index.now.places.now) }
    ensures { RowsWalked (entries_lent tables.now) (bare_lent tables.now) nums.now (lent_index index.now) result }
{
    if tables.n <= 256 {
        walk_rows::<256>(tables, nums, index)
    } else {
        walk_rows::<4096>(tables, nums, index)
    }
}
