// What the versions differ in, and where the parts of a file begin and end.
ghost use Rattle.std.specs.Prelude.{◌≡◌, ◌≤◌, ◌<◌};
ghost use Rattle.paper.specs.File.{version_number, head_of, bounded, rows_from, entries_from, bounds_from, ends_at};
ghost use Rattle.fields.specs.Places.{version_in, Small};

// The versions of a file: the second has bounds behind the entries.
#[derive(Clone, Copy)]
pub enum Version {
    One,
    Two,
}

// How many variables, rows and entries a file has.
#[derive(Clone, Copy)]
pub struct Size {
    pub n: usize,
    pub m: usize,
    pub e: usize,
}

// The number in the header.
impl From<Version> for u16 {
    ghost from_gives = { λ version r. r ≡ version_number (version_in version) };

    fn from(version: Version) -> u16 {
        match version {
            Version::One => 1,
            Version::Two => 2,
        }
    }
}

impl Version {
    // The length of the header.
    pub fn head_length(self) -> usize
        ensures { (result ≡ head_of (version_in self)) × (24 ≤ result) × (result ≤ 28) }
    {
        match self {
            Version::One => 24,
            Version::Two => 28,
        }
    }

    // Of n variables, how many have bounds in the file.
    pub fn bounded_count(self, n: usize) -> usize
        ensures { (result ≡ bounded (version_in self) n) × (result ≤ n) }
    {
        match self {
            Version::One => 0,
            Version::Two => n,
        }
    }
}

// Where the rows begin behind a header.
pub fn rows_at(head: usize, n: usize) -> usize
    requires { (head ≤ 28) × (n < 65536) }
    ensures { result ≡ rows_from head n }
{
    head + 4 * n
}

// Where the entries begin.
pub fn entries_at(head: usize, n: usize, m: usize) -> usize
    requires { (head ≤ 28) × (n < 65536) × (m < 65536) }
    ensures { result ≡ entries_from head n m }
{
    rows_at(head, n) + 12 * m
}

// Where the entries end, and the bounds begin.
pub fn bounds_at(head: usize, size: Size) -> usize
    requires { (head ≤ 28) × Small size }
    ensures { result ≡ bounds_from head size.n size.m size.e }
{
    entries_at(head, size.n, size.m) + 4 * size.e
}

// Where the file ends.
pub fn ends_at(version: Version, size: Size) -> usize
    requires { Small size }
    ensures { result ≡ ends_at (version_in version) size.n size.m size.e }
{
    bounds_at(version.head_length(), size) + 8 * version.bounded_count(size.n)
}
