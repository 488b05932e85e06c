// The tests by which what a damaged file gives is kept. Of a row: its entries are whole in the file, it can join the rows kept before it, and it
// still stands once it is known which variables can have a number. Of a start value: build takes it.
ghost use Rattle.std.specs.Prelude.{true, false, not, ◌&&◌, ◌≡◌, ◌+◌, ◌≤◌, ◌<◌, leb, length, get_or};
ghost use Rattle.paper.specs.File.{version1, ends_at};
ghost use Rattle.order.specs.Numbering.{ended};
ghost use Rattle.damage.specs.Starts.{start_test};

use fields::places::{Size, Version, ends_at};
use integers::wide;

// The entries of a row with this part are whole: they end within those of the file, and within the file.
pub fn entries_whole(bytes: &[u8], size: Size, first: u16, count: u16) -> bool
    requires { (size.n ≤ 4096) × (size.m ≤ size.n) × (size.e ≤ 16384) }
    ensures { result ≡ leb (first + count) size.e && leb (ends_at version1 size.n size.m (first + count)) (length bytes.now) }
{
    let end = wide(first) + wide(count);
    end <= size.e && ends_at(Version::One, Size { e: end, ..size }) <= bytes.len()
}

// A row that makes v from `count` entries joins rows whose variables are marked and whose entries are counted: none of them makes v, and the
// entries stay within 16,384.
pub fn can_join(v: u16, count: u16, made: &[bool], used: usize) -> bool
    requires { (v < length made.now) × (used ≤ 16384) }
    ensures { result ≡ (not (get_or made.now v false) && leb (used + count) 16384) }
{
    let room = used + wide(count) <= 16384;
    !made[wide(v)] & room
}

// The row was flagged, and its variable has a number.
pub fn still(flag: bool, made: u16, state: &[u16; 4096]) -> bool
    requires { flag ≡ true → made < 4096 }
    ensures { result ≡ flag && ended state.now made }
{
    flag && 2 <= state[wide(made)]
}

// A start value is kept: it is whole, and 0 at a made variable, and not blank at any other.
pub fn start_good(whole: bool, made: bool, value: i32) -> bool
    ensures { result ≡ start_test whole made value }
{
    if made {
        whole & (value == 0)
    } else {
        whole & (value != i32::MIN)
    }
}
