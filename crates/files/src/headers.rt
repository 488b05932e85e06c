// The header of a model file, judged field by field, in both versions.
ghost use Rattle.std.specs.Prelude.{◌≡◌, ◌≤◌, ◌<◌, length, true, false, OnOk, IfErr};
ghost use Rattle.paper.specs.Checks.{accepted, by_lines};
ghost use Rattle.paper.specs.File as File;
ghost use Rattle.tables.specs.Answers.{refusal};
ghost use Rattle.fields.specs.Places.{version_in, Small};
ghost use Rattle.files.specs.HeaderAnswers.{answer, size_in};

use fields::numbers::Number;
use fields::places::{Size, Version, bounds_at, ends_at, entries_at, rows_at};
use integers::wide;
use tables::{Refusal, refused};

// The field at a place is right, or the file is refused.
fn right(place: usize, good: bool) -> Result<(), Refusal>
    requires { place < 65536 }
    ensures ok { OnOk result (good ≡ true) }
    ensures err { IfErr result (λ refused. (good ≡ false) × (refused ≡ refusal 14 place)) }
{
    if good {
        Ok(())
    } else {
        Err(refused(14, place))
    }
}

// The size that a file states, or the first of its length, its version and its counts that is wrong.
pub fn counts_as(bytes: &[u8], version: Version) -> Result<Size, Refusal>
    ensures { result ≡ answer bytes.now (by_lines (File.head_lines (version_in version) bytes.now) accepted) }
{
    if bytes.len() < version.head_length() {
        return Err(refused(14, bytes.len()));
    }
    let number = u16::read(bytes, 0);
    let n = wide(u16::read(bytes, 2));
    let m = wide(u16::read(bytes, 4));
    let e = wide(u16::read(bytes, 6));
    right(0, number == u16::from(version))?;
    right(2, (1 <= n) & (n <= 4096))?;
    right(4, m <= n)?;
    right(6, e <= 16384)?;
    Ok(Size { n, m, e })
}

// The field behind the total says where the bounds begin, if there are any.
fn bounds_right(bytes: &[u8], version: Version, size: Size) -> bool
    requires stated { size ≡ size_in bytes.now }
    requires within { Small size × (File.head_of (version_in version) ≤ length bytes.now) }
    ensures { result ≡ File.bounds_told (version_in version) bytes.now }
{
    match version {
        Version::One => true,
        Version::Two => u32::read(bytes, 24) as usize == bounds_at(28, size),
    }
}

// The size that a file states, or the first field of its header that is wrong.
// Stays: `as usize` for 32 bits, since std has no `From<u32>` for `usize`.
pub fn header_as(bytes: &[u8], version: Version) -> Result<Size, Refusal>
    ensures { result ≡ answer bytes.now (File.header (version_in version) bytes.now) }
{
    let size = counts_as(bytes, version)?;
    let head = version.head_length();
    let starts = u32::read(bytes, 8) as usize;
    let rows = u32::read(bytes, 12) as usize;
    let entries = u32::read(bytes, 16) as usize;
    let end = u32::read(bytes, 20) as usize;
    let whole = ends_at(version, size);
    right(8, starts == head)?;
    right(12, rows == rows_at(head, size.n))?;
    right(16, entries == entries_at(head, size.n, size.m))?;
    right(20, (end == whole) & (bytes.len() == whole))?;
    right(24, bounds_right(bytes, version, size))?;
    Ok(size)
}
