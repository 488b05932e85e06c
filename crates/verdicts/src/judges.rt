// The verdicts of the calls that change values: the checks in their order, over shared slices and scratch rows. No buffer of a call is written here,
// so none has changed where the call is refused. If it is accepted, `by` holds the makers and the answer says whether some chain closes.
mod back;

ghost use Rattle.std.specs.Prelude.{◌≡◌};
ghost use Rattle.paper.specs.Calls.{trial_verdict, keep_verdict, take_verdict};
ghost use Rattle.tables.specs.Lent.{lent_model, lent_log};
ghost use Rattle.verdicts.specs.Lent.{lent_to_try, lent_to_keep, to_take};
ghost use Rattle.verdicts.specs.ModelJudged.{OnceJudged, CallJudged};

use crate::asked::Asked;
use crate::fits::{keep_fits, move_fits, take_fits};
use crate::models::{judge_model, model_checks};
use crate::sequels::{ask_checks, keep_checks, take_checks};
use back::back_checks;
use choices::renewals::fresh_checks;
use tables::lent::{Log, Model, Move};
use tables::{Refusal, refused};

// The verdict of a trial over a judged model: the move's own part of check 1, the model's refusal if there was one, and then the move's checks.
pub fn judge_move(
    verdict: Result<bool, Refusal>,
    by: &[u16],
    blanks: u32,
    model: &Model,
    mv: &Move,
    asked: &Asked,
    results: &[i32],
    trial: &[i32],
    flags: &[u8],
    why: &[u8],
) -> Result<bool, Refusal>
    requires judged { OnceJudged (lent_model model.now) blanks by.now verdict }
    ensures { CallJudged (trial_verdict (record { kept = 0; evaluations = 0; blanks = blanks }) (lent_model model.now) (lent_to_try mv.now asked.now results.now trial.now flags.now why.now)) (lent_model model.now).tables by.now result }
{
    let n = model.tables.n;
    if !move_fits(n, mv, asked, results, trial, flags, why) {
        return Err(refused(1, 0));
    }
    let closed = verdict?;
    ask_checks(n, by, &model.bounds, mv, asked)?;
    fresh_checks(&model.tables, by, closed, model.stored, mv)?;
    Ok(closed)
}

// The verdict of trial: checks 1 to 13 without 6, 8 and 19 before 7, and 17 behind 12; then 21 and 20. `blanks` is the record's number of blanks, here and below.
// The trial's own part of check 1 comes first, as it looks at nothing of the model.
pub fn judge_trial(
    blanks: u32,
    model: &Model,
    mv: &Move,
    asked: &Asked,
    results: &[i32],
    trial: &[i32],
    flags: &[u8],
    why: &[u8],
    by: &mut [u16; 4096],
) -> Result<bool, Refusal>
    ensures { CallJudged (trial_verdict (record { kept = 0; evaluations = 0; blanks = blanks }) (lent_model model.now) (lent_to_try mv.now asked.now results.now trial.now flags.now why.now)) (lent_model model.now).tables by.new result }
{
    if !move_fits(model.tables.n, mv, asked, results, trial, flags, why) {
        return Err(refused(1, 0));
    }
    let verdict = judge_model(blanks, model, by);
    judge_move(
        verdict, by, blanks, model, mv, asked, results, trial, flags, why,
    )
}

// The verdict of keep: those of trial without 9 and 13, and 16 before 21.
pub fn judge_keep(
    kept: u32,
    blanks: u32,
    model: &Model,
    mv: &Move,
    flags: &[u8],
    log: &Log,
    by: &mut [u16; 4096],
) -> Result<bool, Refusal>
    ensures { CallJudged (keep_verdict (record { kept = kept; evaluations = 0; blanks = blanks }) (lent_log log.now) (lent_model model.now) (lent_to_keep mv.now flags.now)) (lent_model model.now).tables by.new result }
{
    if !keep_fits(model, mv, flags, log) {
        return Err(refused(1, 0));
    }
    let closed = model_checks(blanks, model, by)?;
    keep_checks(model.tables.n, by, &model.bounds, kept, mv, log)?;
    fresh_checks(&model.tables, by, closed, model.stored, mv)?;
    Ok(closed)
}

// The verdict of taking back: the model's checks, the log's, whether it holds a move, and then 21 and 20.
pub fn judge_take_back(
    kept: u32,
    blanks: u32,
    model: &Model,
    flags: &[u8],
    log: &Log,
    by: &mut [u16; 4096],
) -> Result<bool, Refusal>
    ensures { CallJudged (take_verdict (record { kept = kept; evaluations = 0; blanks = blanks }) (lent_log log.now) (lent_model model.now) (to_take flags.now)) (lent_model model.now).tables by.new result }
{
    if !take_fits(model, flags, log) {
        return Err(refused(1, 0));
    }
    let closed = model_checks(blanks, model, by)?;
    take_checks(model.tables.n, by, &model.bounds, kept, log)?;
    back_checks(&model.tables, by, closed, model.stored, log)?;
    Ok(closed)
}
