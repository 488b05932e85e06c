// The header: which of its fields name the columns that are read, and how often.
ghost use Rattle.std.specs.Prelude.{◌≤◌, ◌≡◌};
ghost use Rattle.frequencies.specs.Scan.{Scannable};
ghost use Rattle.frequencies.specs.Heading.{SoughtNext, Found, Headed};
ghost use Rattle.frequencies.specs.declared.fields.Behind.TheVariants.{Comma};

use crate::fields::{Behind, Place, row_behind, scan_field};
use crate::parts::{Span, part};
use crate::rows::{Columns, held, scan_row};
use crate::values::same;

// A name looked for among fields: the place of the first one that has it or how many there were, how many have it, and what is behind.
// Stays: a number for none, which the definition of `column` gives and no row has a field at.
#[derive(Clone, Copy)]
pub struct Named {
    pub column: usize,
    pub count: usize,
    pub behind: Behind,
}

// Looks at the next field.
fn find_next(bytes: &[u8], name: &[u8], sought: Named, from: Place) -> Named
    requires next { sought.behind ≡ Comma from }
    requires here { Scannable bytes.now from.at from.line }
    requires few { (sought.column ≤ from.at) × (sought.count ≤ from.at) }
    ensures { SoughtNext bytes.now name.now from sought result }
{
    let f = scan_field(bytes, from);
    let span = Span {
        at: from.at + usize::from(f.quoted),
        size: held(f.quoted, f.end - from.at),
    };
    let named = same(part(bytes, span), name);
    let passed = (sought.count == 0) & !named;
    Named {
        column: sought.column + usize::from(passed),
        count: sought.count + usize::from(named),
        behind: f.behind,
    }
}

// Looks for a name among the fields of the row at a place.
fn find(bytes: &[u8], from: Place, name: &[u8]) -> Named
    requires { Scannable bytes.now from.at from.line }
    ensures { Found bytes.now from.at from.line name.now result }
{
    let mut sought = Named {
        column: 0,
        count: 0,
        behind: Behind::Comma(from),
    };
    while let Behind::Comma(next) = sought.behind {
        sought = find_next(bytes, name, sought, next);
    }
    sought
}

// The header: its columns, whether it names each as often as it must, how wide it is, whether its quotes are right, and where the next row begins, if there
// is one.
#[derive(Clone, Copy)]
pub struct Header {
    pub columns: Columns,
    pub good: bool,
    pub width: usize,
    pub right: bool,
    pub next: Option<Place>,
}

// Reads the header at place `at`.
pub fn read_header(bytes: &[u8], at: usize) -> Header
    requires { Scannable bytes.now at 1 }
    ensures { Headed bytes.now at result }
{
    let from = Place { at, line: 1 };
    let trip = find(bytes, from, b"trip_id");
    let start = find(bytes, from, b"start_time");
    let end = find(bytes, from, b"end_time");
    let headway = find(bytes, from, b"headway_secs");
    let exact = find(bytes, from, b"exact_times");
    let columns = Columns {
        trip: trip.column,
        start: start.column,
        end: end.column,
        headway: headway.column,
        exact: exact.column,
    };
    let row = scan_row(bytes, from, columns);
    Header {
        columns,
        good: (trip.count == 1)
            & (start.count == 1)
            & (end.count == 1)
            & (headway.count == 1)
            & (exact.count <= 1),
        width: row.width,
        right: row.right,
        next: row_behind(row.behind),
    }
}
