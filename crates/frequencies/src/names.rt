// A trip's name, from its bytes as they stand in a text. Where quotes stand double they already stand as the file has them, so no name is copied to be written.
ghost use Rattle.std.specs.Prelude.{false, cond, ◌||◌, [], ◌∷◌, ◌≡◌, ◌*◌, ◌+◌, ◌≤◌, eqb, length};
ghost use Rattle.frequencies.specs.Csv.{is_comma, is_quote, is_line_feed, is_return, doubled_from};
ghost use Rattle.frequencies.specs.Puts.{Puts, Doubles};
ghost use Rattle.frequencies.specs.Writing.{doubled, must_quote, name_bytes, name_of};

use crate::puts::{put, put_all};

// Every quote is one of two next to each other.
pub(crate) fn quotes_double(name: &[u8]) -> bool
    ensures { result ≡ doubled_from false name.now }
{
    let mut one = false;
    for &byte in name {
        let quote = b'"' == byte;
        if one & !quote {
            return false;
        }
        one = quote & !one;
    }
    !one
}

// A name with this byte is quoted.
fn asks_quotes(byte: u8) -> bool
    ensures { result ≡ (is_comma byte || (is_quote byte || (is_line_feed byte || is_return byte))) }
{
    (b',' == byte) | ((b'"' == byte) | ((b'\n' == byte) | (b'\r' == byte)))
}

// The name is quoted. No byte stops the loop.
fn must_quote(name: &[u8]) -> bool
    ensures { result ≡ must_quote name.now }
{
    let mut must = false;
    for &byte in name {
        must = must | asks_quotes(byte);
    }
    must
}

// How many bytes one is, with a quote double.
fn byte_size(byte: u8) -> usize
    ensures { (result ≡ length (doubled (byte ∷ []))) × (result ≤ 2) }
{
    if b'"' == byte { 2 } else { 1 }
}

// How many bytes these are, with each quote double.
fn doubled_size(name: &[u8]) -> usize
    requires { length name.now ≤ 4294967295 }
    ensures { (result ≡ length (doubled name.now)) × (result ≤ 2 * length name.now) }
{
    let mut size = 0;
    for &byte in name {
        size += byte_size(byte);
    }
    size
}

// How many bytes stand between the quotes.
// Stays: `double` is the number of the lent row, as the definitions take it.
fn inside_size(double: u8, name: &[u8]) -> usize
    requires { length name.now ≤ 4294967295 }
    ensures { (result ≡ length (cond (eqb double 0) (doubled name.now) name.now)) × (result ≤ 2 * length name.now) }
{
    if double == 0 {
        return doubled_size(name);
    }
    name.len()
}

// How many bytes the name's field is.
pub(crate) fn name_size(double: u8, name: &[u8]) -> usize
    requires name_len_bound { length name.now ≤ 4294967295 }
    requires doubles { Doubles double name.now }
    ensures { (result ≡ length (name_bytes (name_of double name.now))) × (result ≤ 2 * length name.now + 2) }
{
    if must_quote(name) {
        return inside_size(double, name) + 2;
    }
    name.len()
}

// Puts a byte, a quote double.
fn put_byte(byte: u8, out: &mut [u8], at: usize) -> usize
    ensures { Puts (doubled (byte ∷ [])) out.old at out.new result }
{
    if b'"' == byte {
        let next = put(out, at, b'"');
        return put(out, next, b'"');
    }
    put(out, at, byte)
}

// Puts bytes, each quote double.
fn put_doubled(name: &[u8], out: &mut [u8], at: usize) -> usize
    ensures { Puts (doubled name.now) out.old at out.new result }
{
    let mut next = at;
    for &byte in name {
        next = put_byte(byte, out, next);
    }
    next
}

// Puts what stands between the quotes.
fn put_inside(double: u8, name: &[u8], out: &mut [u8], at: usize) -> usize
    ensures { Puts (cond (eqb double 0) (doubled name.now) name.now) out.old at out.new result }
{
    if double == 0 {
        return put_doubled(name, out, at);
    }
    put_all(out, at, name)
}

// Puts the name's field.
pub(crate) fn put_name(double: u8, name: &[u8], out: &mut [u8], at: usize) -> usize
    requires { Doubles double name.now }
    ensures { Puts (name_bytes (name_of double name.now)) out.old at out.new result }
{
    if must_quote(name) {
        let from = put(out, at, b'"');
        let to = put_inside(double, name, out, from);
        return put(out, to, b'"');
    }
    put_all(out, at, name)
}
