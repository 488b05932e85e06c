// The model file in its two versions: `write` stores a model as bytes and `read` lays the model that bytes hold over lent rows, both of version 1;
// `write_bounded` and `read_bounded` do so with bounds, in version 2. Whatever a call is lent, it answers and leaves what the paper says; a refused call changes nothing.
#![tactic(auto)]

pub mod conversions;
pub mod headers;
mod lay;
mod store;

ghost use Rattle.std.specs.Prelude.{◌≡◌};
ghost use Rattle.paper.specs.Tables.{lent};
ghost use Rattle.paper.specs.Checks.{accepted, by_lines};
ghost use Rattle.files.specs.HeaderAnswers.{answer};
ghost use Rattle.tables.specs.Lent.{lent_tables};
ghost use Rattle.files.specs.Answers.{verdict, has_read};
ghost use Rattle.files.specs.Lent.{lent_contents};
ghost use Rattle.paper.specs.File as File;

use crate::headers::counts_as;
use crate::lay::read_as;
use crate::store::write_as;
use fields::places::{Size, Version};
use tables::Refusal;
use tables::lent::{Bounds, Tables};

// The size that a file of version 1 states, or the first of its length, its version and its counts that is wrong.
pub fn counts(bytes: &[u8]) -> Result<Size, Refusal>
    ensures { result ≡ answer bytes.now (by_lines (File.head_lines File.version1 bytes.now) accepted) }
{
    counts_as(bytes, Version::One)
}

// Stores the file of a model, of version 1, in front of the lent bytes.
pub fn write(tables: &Tables, starts: &[i32], bytes: &mut [u8]) -> Result<(), Refusal>
    ensures { (verdict result, bytes.new)
        ≡ File.write File.version1 (File.unbounded_contents (lent_tables tables.now) starts.now) bytes.old }
{
    let none = Bounds {
        lows: &[],
        highs: &[],
    };
    write_as(Version::One, tables, starts, &none, bytes)
}

// Stores the file of a model with bounds, of version 2, in front of the lent bytes.
pub fn write_bounded(
    tables: &Tables,
    starts: &[i32],
    bounds: &Bounds,
    bytes: &mut [u8],
) -> Result<(), Refusal>
    ensures { (verdict result, bytes.new)
        ≡ File.write File.version2 (lent_contents tables.now starts.now bounds.now) bytes.old }
{
    write_as(Version::Two, tables, starts, bounds, bytes)
}

// Lays the model that a file of version 1 holds over the lent rows.
// Stays: the rows are written: with a struct of them lent as `&mut` the goal `returns-clause-kinds_after` of lay_rows stayed open, and each row would need a clause that it is still the caller's.
pub fn read(
    bytes: &[u8],
    starts: &mut [i32],
    kinds: &mut [u16],
    makes: &mut [u16],
    params: &mut [i32],
    firsts: &mut [u16],
    counts: &mut [u16],
    vars: &mut [u16],
    coefs: &mut [i16],
) -> Result<Size, Refusal>
    ensures { has_read result (File.unbounded_contents
        (lent 0 0 0 kinds.new makes.new params.new firsts.new counts.new vars.new coefs.new)
        starts.new)
        ≡ File.read File.version1 bytes.now (File.unbounded_contents
        (lent 0 0 0 kinds.old makes.old params.old firsts.old counts.old vars.old coefs.old)
        starts.old) }
{
    read_as(
        Version::One,
        bytes,
        starts,
        kinds,
        makes,
        params,
        firsts,
        counts,
        vars,
        coefs,
        &mut [],
        &mut [],
    )
}

// Lays the model with bounds that a file of version 2 holds over the lent rows.
// Stays: the rows are written: with a struct of them lent as `&mut` the goal `returns-clause-kinds_after` of lay_rows stayed open, and each row would need a clause that it is still the caller's.
pub fn read_bounded(
    bytes: &[u8],
    starts: &mut [i32],
    kinds: &mut [u16],
    makes: &mut [u16],
    params: &mut [i32],
    firsts: &mut [u16],
    counts: &mut [u16],
    vars: &mut [u16],
    coefs: &mut [i16],
    lows: &mut [i32],
    highs: &mut [i32],
) -> Result<Size, Refusal>
    ensures { has_read result (File.contents
        (lent 0 0 0 kinds.new makes.new params.new firsts.new counts.new vars.new coefs.new)
        starts.new lows.new highs.new)
        ≡ File.read File.version2 bytes.now (File.contents
        (lent 0 0 0 kinds.old makes.old params.old firsts.old counts.old vars.old coefs.old)
        starts.old lows.old highs.old) }
{
    read_as(
        Version::Two,
        bytes,
        starts,
        kinds,
        makes,
        params,
        firsts,
        counts,
        vars,
        coefs,
        lows,
        highs,
    )
}
