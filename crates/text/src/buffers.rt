// Bytes, put one behind the other into a lent buffer: one, many, and the sign of a number.
ghost use Rattle.std.specs.Prelude.{[], ◌∷◌};
ghost use Rattle.text.specs.Buffer.{Put, sign};

// Puts a byte.
pub fn put(out: &mut [u8], at: usize, byte: u8) -> usize
    ensures { Put (byte ∷ []) out.old at out.new result }
{
    if at < out.len() {
        out[at] = byte;
        at + 1
    } else {
        at
    }
}

// Puts bytes one behind the other.
pub fn put_all(out: &mut [u8], at: usize, bytes: &[u8]) -> usize
    ensures { Put bytes.now out.old at out.new result }
{
    let mut next = at;
    for &byte in bytes {
        next = put(out, next, byte);
    }
    next
}

// Puts the sign of a number below 0.
pub fn put_sign(out: &mut [u8], at: usize, v: i32) -> usize
    ensures { Put (sign v) out.old at out.new result }
{
    if v < 0 { put(out, at, b'-') } else { at }
}
