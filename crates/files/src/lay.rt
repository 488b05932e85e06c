// Reading, whatever the version.
ghost use Rattle.std.specs.Prelude.{◌≡◌};
ghost use Rattle.paper.specs.Tables.{lent};
ghost use Rattle.fields.specs.Places.{version_in};
ghost use Rattle.files.specs.HeaderAnswers.{answer};
ghost use Rattle.files.specs.Answers.{has_read};
ghost use Rattle.files.specs.Lent.{lent_contents};
ghost use Rattle.paper.specs.File as File;

use crate::headers::header_as;
use fields::columns::lay_starts;
use fields::laid::{lay_entries, lay_rows};
use fields::limits::lay_bounds;
use fields::places::{Size, Version, bounds_at};
use tables::lent::{Bounds, Tables};
use tables::{Refusal, refused, sizes};

// The counts are within their bounds, and no row is shorter than they ask, those of the bounds among them where there are any.
pub fn rows_held(version: Version, tables: &Tables, starts: &[i32], bounds: &Bounds) -> bool
    ensures { result ≡ File.held (version_in version) (lent_contents tables.now starts.now bounds.now) }
{
    let count = version.bounded_count(tables.n);
    let held = sizes(tables, starts);
    (count <= bounds.lows.len()) & (count <= bounds.highs.len()) & held
}

// What a call that reads answers: the size that the file states if its header is right and the rows have room, else why not.
fn judge_reading(
    version: Version,
    bytes: &[u8],
    rows: &Tables,
    starts: &[i32],
    bounds: &Bounds,
) -> Result<Size, Refusal>
    ensures { result ≡ answer bytes.now (File.read_verdict (version_in version) bytes.now
        (File.counted 0 0 0 (lent_contents rows.now starts.now bounds.now))) }
{
    let size = header_as(bytes, version)?;
    let tables = Tables {
        n: size.n,
        m: size.m,
        e: size.e,
        ..*rows
    };
    if !rows_held(version, &tables, starts, bounds) {
        return Err(refused(1, 0));
    }
    Ok(size)
}

// Lays the model that a file holds over the lent rows.
// Stays: the rows are written: with a struct of them lent as `&mut` the goal `returns-clause-kinds_after` of lay_rows stayed open, and each row would need a clause that it is still the caller's.
pub fn read_as(
    version: Version,
    bytes: &[u8],
    starts: &mut [i32],
    kinds: &mut [u16],
    makes: &mut [u16],
    params: &mut [i32],
    firsts: &mut [u16],
    counts: &mut [u16],
    vars: &mut [u16],
    coefs: &mut [i16],
    lows: &mut [i32],
    highs: &mut [i32],
) -> Result<Size, Refusal>
    ensures { has_read result (File.contents
        (lent 0 0 0 kinds.new makes.new params.new firsts.new counts.new vars.new coefs.new)
        starts.new lows.new highs.new)
        ≡ File.read (version_in version) bytes.now (File.contents
        (lent 0 0 0 kinds.old makes.old params.old firsts.old counts.old vars.old coefs.old)
        starts.old lows.old highs.old) }
{
    let rows = Tables {
        n: 0,
        m: 0,
        e: 0,
        kinds,
        makes,
        params,
        firsts,
        counts,
        vars,
        coefs,
    };
    let size = judge_reading(version, bytes, &rows, starts, &Bounds { lows, highs })?;
    let head = version.head_length();
    let at = bounds_at(head, size);
    let count = version.bounded_count(size.n);
    lay_starts(bytes, head, size.n, starts);
    lay_rows(bytes, head, size, kinds, makes, params, firsts, counts);
    lay_entries(bytes, head, size, vars, coefs);
    lay_bounds(bytes, at, count, lows, highs);
    Ok(size)
}
