// The header of a file, stored.
ghost use Rattle.std.specs.Prelude.{◌≡◌, ◌≤◌, length, ◌++◌};
ghost use Rattle.std.proofs.lemmas.List.Edits.{sets};
ghost use Rattle.paper.specs.File.{bytes_of, head_of, head_bytes};
ghost use Rattle.fields.specs.Places.{version_in, Small};

use crate::numbers::Number;
use crate::places::{Size, Version, bounds_at, ends_at, entries_at, rows_at};

// Stores the version and the counts.
fn put_counts(bytes: &mut [u8], version: u16, n: u16, m: u16, e: u16)
    requires { 24 ≤ length bytes.old }
    ensures { bytes.new ≡ sets bytes.old 0 (bytes_of 2 version ++ bytes_of 2 n ++ bytes_of 2 m ++ bytes_of 2 e) }
{
    version.write(bytes, 0);
    n.write(bytes, 2);
    m.write(bytes, 4);
    e.write(bytes, 6);
}

// Stores the header of a file of this size. Where there are no bounds there is no field for their place.
pub fn put_header(bytes: &mut [u8], version: Version, size: Size)
    requires { Small size × (head_of (version_in version) ≤ length bytes.old) }
    ensures { bytes.new ≡ sets bytes.old 0 (head_bytes (version_in version) size.n size.m size.e) }
{
    let Size { n, m, e } = size;
    let head = version.head_length();
    put_counts(bytes, u16::from(version), n as u16, m as u16, e as u16);
    (head as u32).write(bytes, 8);
    (rows_at(head, n) as u32).write(bytes, 12);
    (entries_at(head, n, m) as u32).write(bytes, 16);
    (ends_at(version, size) as u32).write(bytes, 20);
    if let Version::Two = version {
        (bounds_at(head, size) as u32).write(bytes, 24);
    }
}
