// The windows of a file's rows, put into the lent rows.
ghost use Rattle.std.specs.Prelude.{◌+◌, ◌≤◌, ◌≡◌, cond, length, take, drop, IfSome};
ghost use Rattle.paper.specs.Lists.{any};
ghost use Rattle.frequencies.specs.Csv.{is_quote};
ghost use Rattle.frequencies.specs.Reading.{windows_in, windows_of};
ghost use Rattle.frequencies.specs.Scan.{Scannable, rows_from};
ghost use Rattle.frequencies.specs.Heading.{columns_in};
ghost use Rattle.frequencies.specs.Filling.{Room, Held, window_put};

use crate::fields::{Place, row_behind};
use crate::parts::{Span, part};
use crate::rows::{Columns, RowScan, scan_row};
use crate::values::{exact_of, headway_of, time_of};

// 1 if a quote is among the bytes of a part, and otherwise 0.
fn doubled_at(bytes: &[u8], span: Span) -> u8
    requires { span.at + span.size ≤ length bytes.now }
    ensures { result ≡ cond (any is_quote (take span.size (drop span.at bytes.now))) 1 0 }
{
    u8::from(part(bytes, span).contains(&b'"'))
}

// Puts the window of a scanned row, which begins on this line, at place i.
// Stays: rows that are written are parameters of their own, here and below: a struct of them would need a clause for each, that it is still the caller's.
fn put_window(
    bytes: &[u8],
    row: RowScan,
    line: usize,
    i: usize,
    name_places: &mut [u32],
    name_lengths: &mut [u32],
    name_doubled: &mut [u8],
    starts: &mut [i32],
    ends: &mut [i32],
    headways: &mut [i32],
    exacts: &mut [u8],
    lines: &mut [u32],
)
    requires held { Held bytes.now row line }
    requires room { Room (i + 1) (windows_in name_places.old name_lengths.old name_doubled.old starts.old ends.old headways.old exacts.old lines.old) }
    ensures { windows_in name_places.new name_lengths.new name_doubled.new starts.new ends.new headways.new exacts.new lines.new ≡ window_put bytes.now row line i (windows_in name_places.old name_lengths.old name_doubled.old starts.old ends.old headways.old exacts.old lines.old) }
{
    name_places[i] = row.trip.at as u32;
    name_lengths[i] = row.trip.size as u32;
    name_doubled[i] = doubled_at(bytes, row.trip);
    starts[i] = time_of(part(bytes, row.start));
    ends[i] = time_of(part(bytes, row.end));
    headways[i] = headway_of(part(bytes, row.headway));
    exacts[i] = exact_of(part(bytes, row.exact));
    lines[i] = line as u32;
}

// Puts the windows of the rows from a place on, if there are any, into the first places.
pub fn fill_rows(
    bytes: &[u8],
    first: Option<Place>,
    columns: Columns,
    name_places: &mut [u32],
    name_lengths: &mut [u32],
    name_doubled: &mut [u8],
    starts: &mut [i32],
    ends: &mut [i32],
    headways: &mut [i32],
    exacts: &mut [u8],
    lines: &mut [u32],
)
    requires here { IfSome first (λ place. Scannable bytes.now place.at place.line) }
    requires room { Room (length (rows_from bytes.now first)) (windows_in name_places.old name_lengths.old name_doubled.old starts.old ends.old headways.old exacts.old lines.old) }
    ensures { windows_in name_places.new name_lengths.new name_doubled.new starts.new ends.new headways.new exacts.new lines.new ≡ windows_of (columns_in columns) (rows_from bytes.now first) (windows_in name_places.old name_lengths.old name_doubled.old starts.old ends.old headways.old exacts.old lines.old) }
{
    let mut next = first;
    let mut i = 0;
    while let Some(place) = next {
        let row = scan_row(bytes, place, columns);
        put_window(
            bytes,
            row,
            place.line,
            i,
            name_places,
            name_lengths,
            name_doubled,
            starts,
            ends,
            headways,
            exacts,
            lines,
        );
        next = row_behind(row.behind);
        i += 1;
    }
}
