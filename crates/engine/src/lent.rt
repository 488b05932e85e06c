// The calls, over a lent session record.
ghost use Rattle.std.specs.Prelude.{◌≡◌};
ghost use Rattle.paper.specs.Log.{log_in};
ghost use Rattle.tables.specs.Lent.{lent_bounds, lent_model};
ghost use Rattle.verdicts.specs.Lent.{lent_to_build, lent_to_model, lent_to_try, lent_to_keep, to_take};
ghost use Rattle.records.specs.Left.{record_in, left_by_build, left_by_trial, left_by_keep};
ghost use Rattle.paper.specs.Calls.{build as built, trial as tried, keep as kept, take_back};

use crate::counters::set_all;
use build::building::build_core;
use calls::keeping::keep_core;
use calls::taking::take_back_core;
use calls::trying::trial_core;
use records::Session;
use tables::Answer;
use tables::lent::{Bounds, Index, Model, Move, Tables};
use verdicts::asked::Asked;

// Build: numbers, order, values and index of readers of a model whose tables and start values are lent. The reason of every variable is given.
// Stays: rows that are written are parameters of their own, here and below: a struct of them would need a clause for each, that it is still the caller's.
pub fn build(
    session: &mut Session,
    tables: &Tables,
    bounds: &Bounds,
    starts: &[i32],
    numbers: &mut [u16],
    order: &mut [u16],
    stored: &mut [i32],
    reader_starts: &mut [u16],
    reader_places: &mut [u16],
    reasons: &mut [u8],
    log_sizes: &mut [u16],
) -> Answer
    ensures { left_by_build (record { answer = result; session = session.new }) numbers.new order.new stored.new reader_starts.new reader_places.new reasons.new log_sizes.new ≡ built (lent_to_build (record_in session.old) tables.now (lent_bounds bounds.now) starts.now numbers.old order.old stored.old reader_starts.old reader_places.old reasons.old log_sizes.old) }
{
    let done = build_core(
        *session,
        tables,
        bounds,
        starts,
        numbers,
        order,
        stored,
        reader_starts,
        reader_places,
        reasons,
        log_sizes,
    );
    set_all(session, done.session);
    done.answer
}

// Trial: the asked values that a move would give, by one of three routes; the stored values stay. The reason of every variable asked is given.
pub fn trial(
    session: &mut Session,
    model: &Model,
    mv: &Move,
    asked: &Asked,
    results: &mut [i32],
    trial: &mut [i32],
    flags: &mut [u8],
    why: &mut [u8],
) -> Answer
    ensures { left_by_trial (record { answer = result; session = session.new }) results.new trial.new flags.new why.new ≡ tried (record_in session.old) (lent_model model.now) (lent_to_try mv.now asked.now results.old trial.old flags.old why.old) }
{
    let done = trial_core(*session, model, mv, asked, results, trial, flags, why);
    set_all(session, done.session);
    done.answer
}

// Keep: the stored values become those that a move gives. The reason of every variable evaluated is given.
pub fn keep(
    session: &mut Session,
    tables: &Tables,
    bounds: &Bounds,
    numbers: &[u16],
    order: &[u16],
    stored: &mut [i32],
    index: &Index,
    reasons: &mut [u8],
    mv: &Move,
    flags: &mut [u8],
    log_sizes: &mut [u16],
    log_vars: &mut [u16],
    log_values: &mut [i32],
) -> Answer
    ensures { left_by_keep (record { answer = result; session = session.new }) stored.new reasons.new flags.new log_sizes.new log_vars.new log_values.new ≡ kept (record_in session.old) (log_in log_sizes.old log_vars.old log_values.old) (lent_to_model tables.now bounds.now numbers.now order.now stored.old index.now reasons.old) (lent_to_keep mv.now flags.old) }
{
    let done = keep_core(
        *session, tables, bounds, numbers, order, stored, index, reasons, mv, flags, log_sizes,
        log_vars, log_values,
    );
    set_all(session, done.session);
    done.answer
}

// Taking back: the stored values become those before the latest kept move. The reason of every variable evaluated is given.
pub fn take_back(
    session: &mut Session,
    tables: &Tables,
    bounds: &Bounds,
    numbers: &[u16],
    order: &[u16],
    stored: &mut [i32],
    index: &Index,
    reasons: &mut [u8],
    flags: &mut [u8],
    log_sizes: &mut [u16],
    log_vars: &[u16],
    log_values: &[i32],
) -> Answer
    ensures { left_by_keep (record { answer = result; session = session.new }) stored.new reasons.new flags.new log_sizes.new log_vars.now log_values.now ≡ take_back (record_in session.old) (log_in log_sizes.old log_vars.now log_values.now) (lent_to_model tables.now bounds.now numbers.now order.now stored.old index.now reasons.old) (to_take flags.old) }
{
    let done = take_back_core(
        *session, tables, bounds, numbers, order, stored, index, reasons, flags, log_sizes,
        log_vars, log_values,
    );
    set_all(session, done.session);
    done.answer
}
