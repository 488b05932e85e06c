// Reading frequencies.txt: the whole file is judged before anything is written.
ghost use Rattle.std.specs.Prelude.{◌≡◌};
ghost use Rattle.frequencies.specs.Reading.{windows_in, left_by_reading, read_frequencies};

use crate::fill::fill_rows;
use crate::verdict::{judge_file, least_room};
use tables::Refusal;

// Reads the windows of a file into the lent rows: how many there are. A file that is refused leaves the rows as they are.
// Stays: the rows that are written are lent one by one, as the C interface lends them; so in `fill`.
pub fn read_frequencies(
    bytes: &[u8],
    name_places: &mut [u32],
    name_lengths: &mut [u32],
    name_doubled: &mut [u8],
    starts: &mut [i32],
    ends: &mut [i32],
    headways: &mut [i32],
    exacts: &mut [u8],
    lines: &mut [u32],
) -> Result<usize, Refusal>
    ensures { left_by_reading result (windows_in name_places.new name_lengths.new name_doubled.new starts.new ends.new
        headways.new exacts.new lines.new)
        ≡ read_frequencies bytes.now (windows_in name_places.old name_lengths.old name_doubled.old
        starts.old ends.old headways.old exacts.old lines.old) }
{
    let room = least_room(
        name_places.len(),
        name_lengths.len(),
        name_doubled.len(),
        starts.len(),
        ends.len(),
        headways.len(),
        exacts.len(),
        lines.len(),
    );
    let judged = judge_file(bytes, room)?;
    let end = judged.end;
    fill_rows(
        &bytes[..end],
        judged.next,
        judged.columns,
        name_places,
        name_lengths,
        name_doubled,
        starts,
        ends,
        headways,
        exacts,
        lines,
    );
    Ok(judged.count)
}
