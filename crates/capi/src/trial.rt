// Trial across the C boundary.
ghost use Rattle.std.specs.Prelude.{◌≡◌};
ghost use Rattle.verdicts.specs.Lent.{to_model, to_try};
ghost use Rattle.records.specs.Left.{record_in};
ghost use Rattle.paper.specs.Calls.{trial as tried};
ghost use Rattle.capi.specs.Outcomes.{had_by_trial, tried_out};

use records::Session;
use records::answers::Outcome;
use tables::lent::{Bounds, Index, Model, Move, Tables};
use verdicts::asked::Asked;

// `engine::trial` for C. The reason of every variable asked is given.
pub fn lukhandro_trial(
    session: &mut Session,
    n: usize,
    m: usize,
    e: usize,
    kinds: &[u16],
    makes: &[u16],
    params: &[i32],
    firsts: &[u16],
    counts: &[u16],
    vars: &[u16],
    coefs: &[i16],
    lows: &[i32],
    highs: &[i32],
    numbers: &[u16],
    order: &[u16],
    stored: &[i32],
    reader_starts: &[u16],
    reader_places: &[u16],
    reasons: &[u8],
    pairs: usize,
    move_vars: &[u16],
    move_values: &[i32],
    asked: usize,
    asked_vars: &[u16],
    route: u32,
    results: &mut [i32],
    trial: &mut [i32],
    flags: &mut [u8],
    why: &mut [u8],
) -> Outcome
    ensures { had_by_trial result session.new results.new trial.new flags.new why.new ≡ tried_out (tried (record_in session.old) (to_model n m e kinds.now makes.now params.now firsts.now counts.now vars.now coefs.now lows.now highs.now numbers.now order.now stored.now reader_starts.now reader_places.now reasons.now) (to_try pairs move_vars.now move_values.now asked asked_vars.now route results.old trial.old flags.old why.old)) }
{
    let tables = Tables {
        n,
        m,
        e,
        kinds,
        makes,
        params,
        firsts,
        counts,
        vars,
        coefs,
    };
    let bounds = Bounds { lows, highs };
    let index = Index {
        starts: reader_starts,
        places: reader_places,
    };
    let model = Model {
        tables,
        bounds,
        numbers,
        order,
        stored,
        index,
        reasons,
    };
    let mv = Move {
        pairs,
        vars: move_vars,
        values: move_values,
    };
    let asked = Asked {
        count: asked,
        vars: asked_vars,
        route,
    };
    let answer = engine::trial(session, &model, &mv, &asked, results, trial, flags, why);
    Outcome::from(answer)
}
