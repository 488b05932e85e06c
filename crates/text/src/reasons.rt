// Values as text, with the reasons of blanks or without.
ghost use Rattle.std.specs.Prelude.{cond, ◌≡◌};
ghost use Rattle.paper.specs.Lists.{nat};
ghost use Rattle.text.specs.Buffer.{Put};
ghost use Rattle.text.specs.Lines as Lines;

use crate::buffers::put_all;
use crate::numbers::{put_decimal, put_value};
use formulas::blanks::is_blank;

// The reason in place v of a row, 0 beyond its end.
pub fn reason_at(row: &[u8], v: usize) -> u8
    ensures { result ≡ nat row.now v }
{
    row.get(v).copied().unwrap_or(0)
}

// Puts a value, or `blank:` followed by the reason if it is blank.
fn put_reasoned(out: &mut [u8], at: usize, value: i32, reason: u8) -> usize
    ensures { Put (Lines.value_or_reason value reason) out.old at out.new result }
{
    if is_blank(value) {
        let next = put_all(out, at, b"blank:");
        return put_decimal(out, next, u64::from(reason));
    }
    put_value(out, at, value)
}

// Puts what stands in a line for a value, with reasons or without.
pub fn put_field(reasons: bool, out: &mut [u8], at: usize, value: i32, reason: u8) -> usize
    ensures { Put (cond reasons (Lines.value_or_reason value reason) (Lines.value value)) out.old at out.new result }
{
    if reasons {
        return put_reasoned(out, at, value, reason);
    }
    put_value(out, at, value)
}
