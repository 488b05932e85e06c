// Where a file's rows begin and end: behind the byte order mark, and before the line ends at its end.
ghost use Rattle.std.specs.Prelude.{◌+◌, ◌-◌, ◌≤◌, ◌<◌, ◌≡◌, ◌&&◌, ◌||◌, length, take, drop};
ghost use Rattle.paper.specs.Lists.{nat};
ghost use Rattle.frequencies.specs.Csv.{is_line_feed, is_return, line_feed_next, mark_length, trimmed};
ghost use Rattle.frequencies.specs.Ends.{Trimmed};

use crate::fields::stands;

// How long the byte order mark is.
pub fn mark_length(bytes: &[u8]) -> usize
    ensures { (result ≡ mark_length bytes.now) × (result ≤ length bytes.now) }
{
    if bytes.starts_with(&[239, 187, 191]) {
        3
    } else {
        0
    }
}

// The byte at this place is one of a line end.
fn ends_line(bytes: &[u8], at: usize) -> bool
    requires { at < length bytes.now }
    ensures { result ≡ (is_line_feed (nat bytes.now at) || (is_return (nat bytes.now at) && line_feed_next (drop (at + 1) bytes.now))) }
{
    b'\n' == bytes[at] || (b'\r' == bytes[at] && stands(bytes, at + 1, b'\n'))
}

// Where the line ends at the end of the file begin.
pub fn body_end(bytes: &[u8], mark: usize) -> usize
    requires { mark ≤ length bytes.now }
    ensures { Trimmed bytes.now mark result }
{
    for last in (mark..bytes.len()).rev() {
        if !ends_line(bytes, last) {
            return last + 1;
        }
    }
    mark
}
