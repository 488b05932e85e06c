// Writing, whatever the version.
ghost use Rattle.std.specs.Prelude.{◌≡◌};
ghost use Rattle.fields.specs.Places.{version_in};
ghost use Rattle.files.specs.Answers.{verdict};
ghost use Rattle.files.specs.Lent.{lent_contents};
ghost use Rattle.paper.specs.File as File;

use crate::lay::rows_held;
use fields::limits::put_bounds;
use fields::lines::{put_entries, put_header, put_rows, put_starts};
use fields::places::{Size, Version, bounds_at, ends_at};
use tables::lent::{Bounds, Tables};
use tables::{Refusal, refused};

// Stores the file of a model in front of the lent bytes.
// Stays: a version beside bounds that version 1 leaves empty, as `File.write` and `File.unbounded_contents` have it.
pub fn write_as(
    version: Version,
    tables: &Tables,
    starts: &[i32],
    bounds: &Bounds,
    bytes: &mut [u8],
) -> Result<(), Refusal>
    ensures { (verdict result, bytes.new)
        ≡ File.write (version_in version) (lent_contents tables.now starts.now bounds.now) bytes.old }
{
    if !rows_held(version, tables, starts, bounds) {
        return Err(refused(1, 0));
    }
    let size = Size {
        n: tables.n,
        m: tables.m,
        e: tables.e,
    };
    if bytes.len() < ends_at(version, size) {
        return Err(refused(1, 0));
    }
    let head = version.head_length();
    let at = bounds_at(head, size);
    let count = version.bounded_count(tables.n);
    put_header(bytes, version, size);
    put_starts(bytes, head, tables.n, starts);
    put_rows(bytes, head, tables);
    put_entries(bytes, head, tables);
    put_bounds(bytes, at, count, bounds);
    Ok(())
}
