// Many moves tried in one call across the C boundary.
ghost use Rattle.std.specs.Prelude.{◌≡◌};
ghost use Rattle.verdicts.specs.Lent.{to_model};
ghost use Rattle.records.specs.Left.{record_in};
ghost use Rattle.trials.specs.Batch.{batch_of};
ghost use Rattle.trials.specs.Trials.{question, rows_in, trials as allTried};
ghost use Rattle.capi.specs.Products.{trials_out};

use records::Session;
use records::answers::Outcome;
use tables::lent::{Bounds, Index, Model, Tables};
use trials::{Batch, trials};
use verdicts::asked::Asked;

// `trials::trials` for C. The record is only read.
pub fn lukhandro_trials(
    session: &Session,
    n: usize,
    m: usize,
    e: usize,
    kinds: &[u16],
    makes: &[u16],
    params: &[i32],
    firsts: &[u16],
    counts: &[u16],
    vars: &[u16],
    coefs: &[i16],
    lows: &[i32],
    highs: &[i32],
    numbers: &[u16],
    order: &[u16],
    stored: &[i32],
    reader_starts: &[u16],
    reader_places: &[u16],
    reasons: &[u8],
    moves: usize,
    move_pairs: &[u16],
    move_vars: &[u16],
    move_values: &[i32],
    asked: usize,
    asked_vars: &[u16],
    route: u32,
    move_numbers: &mut [u32],
    move_places: &mut [u32],
    move_evaluations: &mut [u32],
    results: &mut [i32],
    why: &mut [u8],
) -> Outcome
    ensures { (result, rows_in move_numbers.new move_places.new move_evaluations.new results.new why.new) ≡ trials_out (allTried (record_in session.now) (to_model n m e kinds.now makes.now params.now firsts.now counts.now vars.now coefs.now lows.now highs.now numbers.now order.now stored.now reader_starts.now reader_places.now reasons.now) (batch_of moves move_pairs.now move_vars.now move_values.now) (question asked asked_vars.now route) (rows_in move_numbers.old move_places.old move_evaluations.old results.old why.old)) }
{
    let tables = Tables {
        n,
        m,
        e,
        kinds,
        makes,
        params,
        firsts,
        counts,
        vars,
        coefs,
    };
    let bounds = Bounds { lows, highs };
    let index = Index {
        starts: reader_starts,
        places: reader_places,
    };
    let model = Model {
        tables,
        bounds,
        numbers,
        order,
        stored,
        index,
        reasons,
    };
    let batch = Batch {
        moves,
        pairs: move_pairs,
        vars: move_vars,
        values: move_values,
    };
    let asked = Asked {
        count: asked,
        vars: asked_vars,
        route,
    };
    Outcome::from(trials(
        *session,
        &model,
        &batch,
        &asked,
        move_numbers,
        move_places,
        move_evaluations,
        results,
        why,
    ))
}
