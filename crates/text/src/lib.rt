// What the programs print, put into a lent buffer: the refusal line and the list, with reasons or without. A place is where the next byte goes; a full buffer takes no
// more, so every call takes any buffer, and the contract says what is in it.
#![tactic(auto)]

pub mod buffers;
mod numbers;
mod reasons;

ghost use Rattle.io.specs.Counts.{IsPrefixLen};
ghost use Rattle.text.specs.Buffer.{Put, Shows};
ghost use Rattle.text.specs.Lines as Lines;

use crate::buffers::{put, put_all};
use crate::numbers::put_decimal;
use crate::reasons::{put_field, reason_at};

// Puts a line of the list, with reasons or without.
// Stays: the buffer is written: a struct of it and the place would need a clause at each call that it is still the caller's, as rows in a struct lent as `&mut` do.
fn put_line(
    reasons: bool,
    out: &mut [u8],
    at: usize,
    v: usize,
    number: u16,
    value: i32,
    reason: u8,
) -> usize
    ensures { Put (Lines.line reasons v number value reason) out.old at out.new result }
{
    let a = put_decimal(out, at, v as u64);
    let b = put(out, a, b' ');
    let c = put_decimal(out, b, u64::from(number));
    let d = put(out, c, b' ');
    let e = put_field(reasons, out, d, value, reason);
    put(out, e, b'\n')
}

// Puts the lines of the variables below n, from the front on, with the reasons of a row or without.
fn put_lines(
    reasons: bool,
    n: usize,
    numbers: &[u16],
    values: &[i32],
    row: &[u8],
    out: &mut [u8],
) -> usize
    ensures { Put (Lines.lines reasons n numbers.now values.now row.now) out.old 0 out.new result }
{
    let count = n.min(numbers.len().min(values.len()));
    let mut at = 0;
    for v in 0..count {
        at = put_line(
            reasons,
            out,
            at,
            v,
            numbers[v],
            values[v],
            reason_at(row, v),
        );
    }
    at
}

// Puts the refusal line, from the front on.
// Stays: two numbers in place of a `Refusal`, since this crate stands on none that knows it.
fn put_refusal(number: u32, place: u32, out: &mut [u8]) -> usize
    ensures { Put (Lines.refusal number place) out.old 0 out.new result }
{
    let a = put_all(out, 0, b"refused ");
    let b = put_decimal(out, a, u64::from(number));
    let c = put(out, b, b' ');
    let d = put_decimal(out, c, u64::from(place));
    put(out, d, b'\n')
}

// The list of the variables below n, with the reasons of a row or without: its text in front of the buffer, and how many bytes that is.
// Stays: a flag beside the row, here and above, since `Lines.lines` takes both, and `printed`, in which the contracts of the programs are stated, the flag.
pub fn lines(
    reasons: bool,
    n: usize,
    numbers: &[u16],
    values: &[i32],
    row: &[u8],
    out: &mut [u8],
) -> usize
    ensures prefix_len { IsPrefixLen result out.new }
    ensures shows { Shows (Lines.lines reasons n numbers.now values.now row.now) out.old out.new result }
{
    put_lines(reasons, n, numbers, values, row, out)
}

// The refusal line: its text in front of the buffer, and how many bytes that is.
pub fn refusal(number: u32, place: u32, out: &mut [u8]) -> usize
    ensures prefix_len { IsPrefixLen result out.new }
    ensures shows { Shows (Lines.refusal number place) out.old out.new result }
{
    put_refusal(number, place, out)
}
