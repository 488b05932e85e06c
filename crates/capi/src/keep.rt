// Keep across the C boundary.
ghost use Rattle.std.specs.Prelude.{◌≡◌};
ghost use Rattle.paper.specs.Log.{log_in};
ghost use Rattle.verdicts.specs.Lent.{to_model, to_keep};
ghost use Rattle.records.specs.Left.{record_in};
ghost use Rattle.paper.specs.Calls.{keep as kept};
ghost use Rattle.capi.specs.Outcomes.{had_by_keep, kept_out};

use records::Session;
use records::answers::Outcome;
use tables::lent::{Bounds, Index, Move, Tables};

// `engine::keep` for C. The reason of every variable evaluated is given.
pub fn lukhandro_keep(
    session: &mut Session,
    n: usize,
    m: usize,
    e: usize,
    kinds: &[u16],
    makes: &[u16],
    params: &[i32],
    firsts: &[u16],
    counts: &[u16],
    vars: &[u16],
    coefs: &[i16],
    lows: &[i32],
    highs: &[i32],
    numbers: &[u16],
    order: &[u16],
    stored: &mut [i32],
    reader_starts: &[u16],
    reader_places: &[u16],
    reasons: &mut [u8],
    pairs: usize,
    move_vars: &[u16],
    move_values: &[i32],
    flags: &mut [u8],
    log_sizes: &mut [u16],
    log_vars: &mut [u16],
    log_values: &mut [i32],
) -> Outcome
    ensures { had_by_keep result session.new stored.new reasons.new flags.new log_sizes.new log_vars.new log_values.new ≡ kept_out (kept (record_in session.old) (log_in log_sizes.old log_vars.old log_values.old) (to_model n m e kinds.now makes.now params.now firsts.now counts.now vars.now coefs.now lows.now highs.now numbers.now order.now stored.old reader_starts.now reader_places.now reasons.old) (to_keep pairs move_vars.now move_values.now flags.old)) }
{
    let tables = Tables {
        n,
        m,
        e,
        kinds,
        makes,
        params,
        firsts,
        counts,
        vars,
        coefs,
    };
    let bounds = Bounds { lows, highs };
    let index = Index {
        starts: reader_starts,
        places: reader_places,
    };
    let mv = Move {
        pairs,
        vars: move_vars,
        values: move_values,
    };
    let answer = engine::keep(
        session, &tables, &bounds, numbers, order, stored, &index, reasons, &mv, flags, log_sizes,
        log_vars, log_values,
    );
    Outcome::from(answer)
}
