// Numbers and values as text.
ghost use Rattle.text.specs.Buffer.{Put};
ghost use Rattle.text.specs.Lines as Lines;

use crate::buffers::{put, put_all, put_sign};
use formulas::blanks::is_blank;

// Puts the decimal digits of a number.
pub fn put_decimal(out: &mut [u8], at: usize, n: u64) -> usize
    ensures { Put (Lines.decimal n) out.old at out.new result }
{
    // Stays: rows of a fixed length, since no call allocates.
    let mut digits = [0u8; 20];
    let k = io::decimal(n, &mut digits);
    put_all(out, at, &digits[..k])
}

// Puts a value, or `-` if it is blank.
pub fn put_value(out: &mut [u8], at: usize, v: i32) -> usize
    ensures { Put (Lines.value v) out.old at out.new result }
{
    if is_blank(v) {
        return put(out, at, b'-');
    }
    let next = put_sign(out, at, v);
    put_decimal(out, next, u64::from(v.unsigned_abs()))
}
