// The call: judged first, and written only once it is accepted.
ghost use Rattle.std.specs.Prelude.{◌≡◌, length};
ghost use Rattle.times.specs.Windows.{list, board_verdict};
ghost use Rattle.times.specs.Lent.{lent_windows};
ghost use Rattle.boards.specs.Board.{board, listed_by, left_by_board};

use crate::trips::count_departures;
use tables::{Refusal, none_fails, refused};
use times::Windows;
use times::lists::write_list;
use times::overlaps::{first_bad_number, first_overlapping, windows_fit};

// Checks 1 to 5, each over all windows before the next.
fn judge(windows: &Windows, row: &[i32]) -> Result<usize, Refusal>
    ensures { let b = lent_windows windows.now row.now in result ≡ listed_by (board_verdict b) (length (list b)) }
{
    if !windows_fit(windows) {
        return Err(refused(1, 0));
    }
    none_fails(2, first_bad_number(windows))?;
    none_fails(3, first_overlapping(windows))?;
    let length = count_departures(windows);
    if 2000 < length {
        return Err(refused(4, 0));
    }
    if row.len() < length {
        return Err(refused(5, 0));
    }
    Ok(length)
}

// All departures of the windows in time order, in the first places of the row: how many there are.
pub fn list_departures(windows: &Windows, row: &mut [i32]) -> Result<usize, Refusal>
    ensures { left_by_board result row.new ≡ board (lent_windows windows.now row.old) }
{
    let length = judge(windows, row)?;
    write_list(windows, row);
    Ok(length)
}
