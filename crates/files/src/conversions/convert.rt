// A file of one version as one of another.
ghost use Rattle.std.specs.Prelude.{◌≡◌, ◌+◌, ◌*◌, ◌≤◌, ◌<◌, length};
ghost use Rattle.std.proofs.lemmas.List.Edits.{sets};
ghost use Rattle.integers.specs.Below.{if_below};
ghost use Rattle.paper.specs.Lists.{joined, first_fail};
ghost use Rattle.paper.specs.File as File;
ghost use Rattle.fields.specs.Places.{version_in};
ghost use Rattle.files.specs.HeaderAnswers.{Stated};
ghost use Rattle.files.specs.MoveAnswers.{has_converted};
ghost use Rattle.files.specs.Moving.{full_at};

use crate::headers::header_as;
use fields::limits::put_bound;
use fields::lines::put_header;
use fields::numbers::Number;
use fields::places::{Size, Version, bounds_at, ends_at};
use tables::{Refusal, none_fails, refused};

// The bounds of a variable are full: -2,147,483,647 and 2,147,483,647.
fn full(bytes: &[u8], at: usize, v: usize) -> bool
    requires { (at < 1048576) × (at + 8 * v + 8 ≤ length bytes.now) }
    ensures { result ≡ full_at bytes.now at v }
{
    let low = i32::read(bytes, at + 8 * v);
    let high = i32::read(bytes, at + 4 + 8 * v);
    (low == -i32::MAX) & (high == i32::MAX)
}

// The first variable whose bounds are not full.
fn first_narrow(bytes: &[u8], at: usize, count: usize) -> Option<usize>
    requires { (at < 1048576) × (at + 8 * count ≤ length bytes.now) }
    ensures { result ≡ if_below count (first_fail (full_at bytes.now at) count) }
{
    (0..count).find(|&v| !full(bytes, at, v))
}

// Stores full bounds.
fn put_full(file: &mut [u8], at: usize, count: usize)
    requires { at + 8 * count ≤ length file.old }
    ensures { file.new ≡ sets file.old at (joined File.full_bytes count) }
{
    for v in 0..count {
        put_bound(file, at + 8 * v, -i32::MAX, i32::MAX);
    }
}

// Stores a file whose header is right, of this size, as one of another version.
fn convert_headed(
    from: Version,
    to: Version,
    bytes: &[u8],
    size: Size,
    file: &mut [u8],
) -> Result<usize, Refusal>
    requires { Stated bytes.now (File.header (version_in from) bytes.now) size.n size.m size.e }
    ensures { has_converted result file.new ≡ File.convert (version_in from) (version_in to) bytes.now file.old }
{
    let head = from.head_length();
    let behind = bounds_at(head, size);
    none_fails(18, first_narrow(bytes, behind, from.bounded_count(size.n)))?;
    let length = ends_at(to, size);
    if file.len() < length {
        return Err(refused(1, 0));
    }
    let start = to.head_length();
    let end = bounds_at(start, size);
    put_header(file, to, size);
    file[start..end].copy_from_slice(&bytes[head..behind]);
    put_full(file, end, to.bounded_count(size.n));
    Ok(length)
}

// Stores a file as one of another version.
pub fn convert(from: Version, to: Version, bytes: &[u8], file: &mut [u8]) -> Result<usize, Refusal>
    ensures { has_converted result file.new ≡ File.convert (version_in from) (version_in to) bytes.now file.old }
{
    let size = header_as(bytes, from)?;
    convert_headed(from, to, bytes, size, file)
}
