// The departure board across the C boundary.
ghost use Rattle.std.specs.Prelude.{◌≡◌};
ghost use Rattle.times.specs.Windows.{lends};
ghost use Rattle.boards.specs.Board.{board};
ghost use Rattle.capi.specs.Products.{listed_out};

use capi::ListOutcome;

// `capi::lukhandro_departures` for C.
#[unsafe(no_mangle)]
pub extern "C" fn lukhandro_departures(
    windows: usize,
    starts: &[i32],
    ends: &[i32],
    headways: &[i32],
    list: &mut [i32],
) -> ListOutcome
    ensures { (result, list.new) ≡ listed_out (board (lends windows starts.now ends.now headways.now list.old)) }
{
    capi::lukhandro_departures(windows, starts, ends, headways, list)
}
