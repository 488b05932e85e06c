// The model file across the C boundary.
ghost use Rattle.std.specs.Prelude.{◌≡◌};
ghost use Rattle.paper.specs.Tables.{lent};
ghost use Rattle.paper.specs.File as File;
ghost use Rattle.files.specs.Answers.{verdict};
ghost use Rattle.records.specs.Outcomes.{in_numbers};
ghost use Rattle.capi.specs.Outcomes.{read_in_numbers, Small, left_by_read, written_out, read_out};
ghost use Rattle.paper.specs.Calls.{answered};

use crate::ReadOutcome;
use fields::places::Size;
use files::{read, write};
use records::answers::Outcome;
use tables::Refusal;
use tables::lent::Tables;

// What `write` and `write_bounded` answer, as three numbers.
pub(crate) fn written_numbers(told: Result<(), Refusal>) -> Outcome
    ensures { result ≡ in_numbers (answered (verdict told) 0) }
{
    match told {
        Ok(()) => Outcome::from(Ok(0)),
        Err(refusal) => Outcome::from(Err(refusal)),
    }
}

// What `read` and `read_bounded` answer, as five numbers.
// Stays: a function and not `From`, since it asks of its caller that the counts are small.
pub(crate) fn read_numbers(told: Result<Size, Refusal>) -> ReadOutcome
    requires { Small told }
    ensures { result ≡ read_in_numbers told }
{
    match told {
        Ok(size) => ReadOutcome {
            number: 0,
            place: 0,
            n: size.n as u32,
            m: size.m as u32,
            e: size.e as u32,
        },
        Err(refusal) => ReadOutcome {
            number: refusal.number,
            place: refusal.place,
            n: 0,
            m: 0,
            e: 0,
        },
    }
}

// `files::write` for C.
pub fn lukhandro_write(
    n: usize,
    m: usize,
    e: usize,
    starts: &[i32],
    kinds: &[u16],
    makes: &[u16],
    params: &[i32],
    firsts: &[u16],
    counts: &[u16],
    vars: &[u16],
    coefs: &[i16],
    bytes: &mut [u8],
) -> Outcome
    ensures { (result, bytes.new)
        ≡ written_out (File.write File.version1 (File.unbounded_contents
        (lent n m e kinds.now makes.now params.now firsts.now counts.now vars.now coefs.now)
        starts.now) bytes.old) }
{
    let tables = Tables {
        n,
        m,
        e,
        kinds,
        makes,
        params,
        firsts,
        counts,
        vars,
        coefs,
    };
    written_numbers(write(&tables, starts, bytes))
}

// `files::read` for C.
pub fn lukhandro_read(
    bytes: &[u8],
    starts: &mut [i32],
    kinds: &mut [u16],
    makes: &mut [u16],
    params: &mut [i32],
    firsts: &mut [u16],
    counts: &mut [u16],
    vars: &mut [u16],
    coefs: &mut [i16],
) -> ReadOutcome
    ensures { left_by_read result (File.unbounded_contents
        (lent 0 0 0 kinds.new makes.new params.new firsts.new counts.new vars.new coefs.new)
        starts.new)
        ≡ read_out (File.read File.version1 bytes.now (File.unbounded_contents
        (lent 0 0 0 kinds.old makes.old params.old firsts.old counts.old vars.old coefs.old)
        starts.old)) }
{
    read_numbers(read(
        bytes, starts, kinds, makes, params, firsts, counts, vars, coefs,
    ))
}
