// Build across the C boundary.
ghost use Rattle.std.specs.Prelude.{◌≡◌};
ghost use Rattle.verdicts.specs.Lent.{to_build};
ghost use Rattle.records.specs.Left.{record_in};
ghost use Rattle.paper.specs.Calls.{build as built};
ghost use Rattle.capi.specs.Outcomes.{had_by_build, built_out};

use records::Session;
use records::answers::Outcome;
use tables::lent::{Bounds, Tables};

// `engine::build` for C. The reason of every variable is given.
pub fn lukhandro_build(
    session: &mut Session,
    n: usize,
    m: usize,
    e: usize,
    kinds: &[u16],
    makes: &[u16],
    params: &[i32],
    firsts: &[u16],
    counts: &[u16],
    vars: &[u16],
    coefs: &[i16],
    lows: &[i32],
    highs: &[i32],
    starts: &[i32],
    numbers: &mut [u16],
    order: &mut [u16],
    stored: &mut [i32],
    reader_starts: &mut [u16],
    reader_places: &mut [u16],
    reasons: &mut [u8],
    log_sizes: &mut [u16],
) -> Outcome
    ensures { had_by_build result session.new numbers.new order.new stored.new reader_starts.new reader_places.new reasons.new log_sizes.new ≡ built_out (built (to_build (record_in session.old) n m e kinds.now makes.now params.now firsts.now counts.now vars.now coefs.now lows.now highs.now starts.now numbers.old order.old stored.old reader_starts.old reader_places.old reasons.old log_sizes.old)) }
{
    let tables = Tables {
        n,
        m,
        e,
        kinds,
        makes,
        params,
        firsts,
        counts,
        vars,
        coefs,
    };
    let bounds = Bounds { lows, highs };
    let answer = engine::build(
        session,
        &tables,
        &bounds,
        starts,
        numbers,
        order,
        stored,
        reader_starts,
        reader_places,
        reasons,
        log_sizes,
    );
    Outcome::from(answer)
}
