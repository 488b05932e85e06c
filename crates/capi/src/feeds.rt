// frequencies.txt across the C boundary, read and written.
ghost use Rattle.std.specs.Prelude.{◌≡◌, []};
ghost use Rattle.frequencies.specs.Reading.{windows_in, read_frequencies};
ghost use Rattle.frequencies.specs.Writing.{write_frequencies};
ghost use Rattle.capi.specs.Products.{feed_read, feed_written};

use crate::ListOutcome;
use frequencies::{Windows, read_frequencies, write_frequencies};

// `frequencies::read_frequencies` for C.
pub fn lukhandro_frequencies(
    bytes: &[u8],
    name_places: &mut [u32],
    name_lengths: &mut [u32],
    name_doubled: &mut [u8],
    starts: &mut [i32],
    ends: &mut [i32],
    headways: &mut [i32],
    exacts: &mut [u8],
    lines: &mut [u32],
) -> ListOutcome
    ensures { (result, windows_in name_places.new name_lengths.new name_doubled.new starts.new ends.new headways.new exacts.new lines.new) ≡ feed_read (read_frequencies bytes.now (windows_in name_places.old name_lengths.old name_doubled.old starts.old ends.old headways.old exacts.old lines.old)) }
{
    ListOutcome::from(read_frequencies(
        bytes,
        name_places,
        name_lengths,
        name_doubled,
        starts,
        ends,
        headways,
        exacts,
        lines,
    ))
}

// `frequencies::write_frequencies` for C.
pub fn lukhandro_write_frequencies(
    windows: usize,
    text: &[u8],
    name_places: &[u32],
    name_lengths: &[u32],
    name_doubled: &[u8],
    starts: &[i32],
    ends: &[i32],
    headways: &[i32],
    exacts: &[u8],
    bytes: &mut [u8],
) -> ListOutcome
    ensures { (result, bytes.new) ≡ feed_written (write_frequencies windows text.now (windows_in name_places.now name_lengths.now name_doubled.now starts.now ends.now headways.now exacts.now []) bytes.old) }
{
    let windows = Windows {
        count: windows,
        name_places,
        name_lengths,
        name_doubled,
        starts,
        ends,
        headways,
        exacts,
    };
    ListOutcome::from(write_frequencies(text, &windows, bytes))
}
