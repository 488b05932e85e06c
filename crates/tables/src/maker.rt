// The row of makers: which row makes which variable.
ghost use Rattle.std.specs.Prelude.{◌≡◌, ◌≤◌, ◌<◌, length};
ghost use Rattle.paper.specs.Lists.{over};
ghost use Rattle.tables.specs.Makers.{AllBelow, maker_of};

use integers::wide;

// Fills in, for each variable below n, one more than the row that makes it, or 0 if none does: from the last row to the first, so that of rows that
// make the same the first stays.
pub fn makers(n: usize, m: usize, makes: &[u16], by: &mut [u16])
    requires m_in_bounds { (m ≤ length makes.now) × (n ≤ length by.old) × (m < 65536) }
    requires all_below { AllBelow m makes.now n }
    ensures { by.new ≡ over n (maker_of m makes.now) by.old }
{
    by[..n].fill(0);
    // Stays: by the row's number, which is what is written; `iter().enumerate().rev()` over a cut slice is no plainer.
    for row in (0..m).rev() {
        by[wide(makes[row])] = (row + 1) as u16;
    }
}
