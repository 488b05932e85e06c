// The departure board across the C boundary.
ghost use Rattle.std.specs.Prelude.{◌≡◌};
ghost use Rattle.times.specs.Windows.{lends};
ghost use Rattle.boards.specs.Board.{board};
ghost use Rattle.capi.specs.Products.{listed_out};

use crate::ListOutcome;
use boards::list_departures;
use times::Windows;

// `boards::list_departures` for C.
pub fn lukhandro_departures(
    windows: usize,
    starts: &[i32],
    ends: &[i32],
    headways: &[i32],
    list: &mut [i32],
) -> ListOutcome
    ensures { (result, list.new) ≡ listed_out (board (lends windows starts.now ends.now headways.now list.old)) }
{
    let windows = Windows {
        count: windows,
        starts,
        ends,
        headways,
    };
    ListOutcome::from(list_departures(&windows, list))
}
