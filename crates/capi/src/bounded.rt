// The model file of version 2, with bounds, across the C boundary.
ghost use Rattle.std.specs.Prelude.{◌≡◌};
ghost use Rattle.paper.specs.Tables.{lent};
ghost use Rattle.paper.specs.File as File;
ghost use Rattle.capi.specs.Outcomes.{left_by_read, written_out, read_out};

use crate::ReadOutcome;
use crate::file::{read_numbers, written_numbers};
use files::{read_bounded, write_bounded};
use records::answers::Outcome;
use tables::lent::{Bounds, Tables};

// `files::write_bounded` for C.
pub fn lukhandro_write_bounded(
    n: usize,
    m: usize,
    e: usize,
    starts: &[i32],
    kinds: &[u16],
    makes: &[u16],
    params: &[i32],
    firsts: &[u16],
    counts: &[u16],
    vars: &[u16],
    coefs: &[i16],
    lows: &[i32],
    highs: &[i32],
    bytes: &mut [u8],
) -> Outcome
    ensures { (result, bytes.new)
        ≡ written_out (File.write File.version2 (File.contents
        (lent n m e kinds.now makes.now params.now firsts.now counts.now vars.now coefs.now)
        starts.now lows.now highs.now) bytes.old) }
{
    let tables = Tables {
        n,
        m,
        e,
        kinds,
        makes,
        params,
        firsts,
        counts,
        vars,
        coefs,
    };
    let bounds = Bounds { lows, highs };
    written_numbers(write_bounded(&tables, starts, &bounds, bytes))
}

// `files::read_bounded` for C.
pub fn lukhandro_read_bounded(
    bytes: &[u8],
    starts: &mut [i32],
    kinds: &mut [u16],
    makes: &mut [u16],
    params: &mut [i32],
    firsts: &mut [u16],
    counts: &mut [u16],
    vars: &mut [u16],
    coefs: &mut [i16],
    lows: &mut [i32],
    highs: &mut [i32],
) -> ReadOutcome
    ensures { left_by_read result (File.contents
        (lent 0 0 0 kinds.new makes.new params.new firsts.new counts.new vars.new coefs.new)
        starts.new lows.new highs.new)
        ≡ read_out (File.read File.version2 bytes.now (File.contents
        (lent 0 0 0 kinds.old makes.old params.old firsts.old counts.old vars.old coefs.old)
        starts.old lows.old highs.old)) }
{
    let told = read_bounded(
        bytes, starts, kinds, makes, params, firsts, counts, vars, coefs, lows, highs,
    );
    read_numbers(told)
}
