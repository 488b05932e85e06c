// A row tried among the readers of its inputs, each in turn, with the number due from them, and whether all readers have been reached in the end: the
// steps of check 8 over the rows.
ghost use Rattle.std.specs.Prelude.{suc, ◌≤◌, ◌<◌, ◌≡◌, length};
ghost use Rattle.index.specs.Walk.{ReadersTried, Untried, RowTried, ends_meet};

use integers::wide;

// Whether row r stands where the readers of v have reached, which then go on behind it. A row that reads v twice stands there once: a cell holds the
// place that its variable's readers have reached, and 65536 times one more than the last row found among them.
// Stays: a cell is one number of two, as `found_from` and `behind` of `Walk` say it: two rows of cells would be cleared and read for each check.
fn reader_right(r: usize, v: usize, places: &[u16], cells: &mut [u32]) -> bool
    requires { (r < 4096) × (v < length cells.old) × (length places.now ≤ 16384) }
    ensures { ReadersTried r v places.now cells.old cells.new result }
{
    let cell = cells[v] as usize;
    let found = (r + 1) * 65536;
    if found <= cell {
        return true;
    }
    let at = cell % 65536;
    let Some(&row) = places.get(at) else {
        return false;
    };
    if wide(row) != r {
        return false;
    }
    cells[v] = (found + at + 1) as u32;
    true
}

// The number due from the inputs of row r, if it stands where the readers of each of them have reached, which then go on behind it; otherwise none.
pub fn row_due(
    r: usize,
    part: &[u16],
    nums: &[u16],
    places: &[u16],
    cells: &mut [u32],
) -> Option<usize>
    requires { Untried r part.now nums.now places.now cells.old }
    ensures { RowTried r part.now nums.now places.now cells.old cells.new result }
{
    let mut best = 0;
    for &var in part {
        let v = wide(var);
        if !reader_right(r, v, places, cells) {
            return None;
        }
        best = best.max(wide(nums[v]) + 1);
    }
    Some(best)
}

// Whether each variable's readers have reached the start of the next one's, and the first start at 0. No variable stops the loop, so that it takes
// several at a time.
pub fn ends_right(n: usize, starts: &[u16], cells: &[u32]) -> bool
    requires { (suc n ≤ length starts.now) × (n ≤ length cells.now) }
    ensures { result ≡ ends_meet n starts.now cells.now }
{
    let mut all = true;
    for v in 0..n {
        all = all & (cells[v] % 65536 == u32::from(starts[v + 1]));
    }
    all & (starts[0] == 0)
}
