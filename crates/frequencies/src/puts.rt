// Bytes written one behind the other into a lent buffer. A place is where the next byte goes; a full buffer takes no more, so every call takes any
// buffer, and the contract says what stands in one that has room.
ghost use Rattle.std.specs.Prelude.{[], ◌∷◌, ◌≡◌, ◌+◌, ◌<◌, leb};
ghost use Rattle.frequencies.specs.Puts.{Puts};
ghost use Rattle.frequencies.specs.Writing.{digits_of, two_digits, hours_bytes, time_bytes};

// Puts a byte.
pub(crate) fn put(out: &mut [u8], at: usize, byte: u8) -> usize
    ensures { Puts (byte ∷ []) out.old at out.new result }
{
    if at < out.len() {
        out[at] = byte;
        at + 1
    } else {
        at
    }
}

// There is room for so many bytes from a place on.
fn has_room(size: usize, at: usize, count: usize) -> bool
    ensures { result ≡ leb (at + count) size }
{
    at <= size && count <= size - at
}

// Puts bytes one behind the other, if there is room for all.
pub(crate) fn put_all(out: &mut [u8], at: usize, bytes: &[u8]) -> usize
    ensures { Puts bytes.now out.old at out.new result }
{
    if !has_room(out.len(), at, bytes.len()) {
        return at;
    }
    let end = at + bytes.len();
    out[at..end].copy_from_slice(bytes);
    end
}

// Puts the decimal digits of a number that has at most this many.
pub(crate) fn put_digits(most: usize, n: usize, out: &mut [u8], at: usize) -> usize
    ensures { Puts (digits_of most n) out.old at out.new result }
{
    if most == 0 {
        return at;
    }
    if n < 10 {
        return put(out, at, (48 + n) as u8);
    }
    let next = put_digits(most - 1, n / 10, out, at);
    put(out, next, (48 + n % 10) as u8)
}

// Puts a number below 100 in two digits.
fn put_two(n: usize, out: &mut [u8], at: usize) -> usize
    requires { n < 100 }
    ensures { Puts (two_digits n) out.old at out.new result }
{
    let next = put(out, at, (48 + n / 10) as u8);
    put(out, next, (48 + n % 10) as u8)
}

// Puts hours.
fn put_hours(hours: usize, out: &mut [u8], at: usize) -> usize
    ensures { Puts (hours_bytes hours) out.old at out.new result }
{
    if hours < 100 {
        return put_two(hours, out, at);
    }
    put_digits(10, hours, out, at)
}

// Puts a time.
pub(crate) fn put_time(time: usize, out: &mut [u8], at: usize) -> usize
    ensures { Puts (time_bytes time) out.old at out.new result }
{
    let a = put_hours(time / 3600, out, at);
    let b = put(out, a, b':');
    let c = put_two(time / 60 % 60, out, b);
    let d = put(out, c, b':');
    put_two(time % 60, out, d)
}
