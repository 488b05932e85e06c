// A row, scanned field by field: how wide it is, whether its quotes are right, and what its columns hold.
ghost use Rattle.std.specs.Prelude.{◌-◌, ◌≤◌, ◌≡◌, cond};
ghost use Rattle.frequencies.specs.Scan.{Scannable, NextScanned, RowScanned};
ghost use Rattle.frequencies.specs.declared.fields.Behind.TheVariants.{Comma};

use crate::fields::{Behind, Place, scan_field};
use crate::parts::Span;

// The columns of the fields that are read, as the header has them; a number past the last one, if it has none.
#[derive(Clone, Copy)]
pub struct Columns {
    pub trip: usize,
    pub start: usize,
    pub end: usize,
    pub headway: usize,
    pub exact: usize,
}

// A row, or its first fields: how many there are and whether their quotes are right, what each column holds, and what is behind.
#[derive(Clone, Copy)]
pub struct RowScan {
    pub width: usize,
    pub right: bool,
    pub trip: Span,
    pub start: Span,
    pub end: Span,
    pub headway: Span,
    pub exact: Span,
    pub behind: Behind,
}

// The first of two if they say so, and otherwise the second.
fn pick(first: bool, x: Span, y: Span) -> Span
    ensures { result ≡ cond first x y }
{
    if first { x } else { y }
}

// How many bytes stand in a field of this size: those between its quotes, if it has any.
pub fn held(quoted: bool, size: usize) -> usize
    ensures { result ≡ cond quoted (size - 2) size }
{
    if quoted { size.saturating_sub(2) } else { size }
}

// Scans the next field of a row.
fn scan_next(bytes: &[u8], row: RowScan, from: Place, columns: Columns) -> RowScan
    requires next { row.behind ≡ Comma from }
    requires here { Scannable bytes.now from.at from.line }
    requires few { row.width ≤ from.at }
    ensures { NextScanned bytes.now columns from row result }
{
    let f = scan_field(bytes, from);
    let k = row.width;
    let span = Span {
        at: from.at + usize::from(f.quoted),
        size: held(f.quoted, f.end - from.at),
    };
    RowScan {
        width: k + 1,
        right: row.right & f.right,
        trip: pick(k == columns.trip, span, row.trip),
        start: pick(k == columns.start, span, row.start),
        end: pick(k == columns.end, span, row.end),
        headway: pick(k == columns.headway, span, row.headway),
        exact: pick(k == columns.exact, span, row.exact),
        behind: f.behind,
    }
}

// Scans the row at a place.
pub fn scan_row(bytes: &[u8], from: Place, columns: Columns) -> RowScan
    requires { Scannable bytes.now from.at from.line }
    ensures { RowScanned bytes.now from.at from.line columns result }
{
    let none = Span { at: 0, size: 0 };
    let mut row = RowScan {
        width: 0,
        right: true,
        trip: none,
        start: none,
        end: none,
        headway: none,
        exact: none,
        behind: Behind::Comma(from),
    };
    while let Behind::Comma(next) = row.behind {
        row = scan_next(bytes, row, next, columns);
    }
    row
}
