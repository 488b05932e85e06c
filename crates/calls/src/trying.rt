// Trial: judged first, and written only once it is accepted.
ghost use Rattle.std.specs.Prelude.{◌≡◌};
ghost use Rattle.paper.specs.Calls.{trial_verdict, trial as tried};
ghost use Rattle.tables.specs.Lent.{lent_tables, lent_model};
ghost use Rattle.verdicts.specs.Lent.{lent_to_try};
ghost use Rattle.verdicts.specs.ModelJudged.{CallJudged};
ghost use Rattle.records.specs.Left.{record_in, left_by_trial};

use fills::fill_trial;
use records::{Done, Session};
use tables::Refusal;
use tables::lent::{Model, Move};
use verdicts::asked::Asked;
use verdicts::judges::judge_trial;
use whys::notes::asked_reasons;

// A trial over its verdict: if that is acceptance, it says whether some chain closes, and `by` holds the makers. Of every variable asked it gives the
// reason too: the stored one if the variable is not evaluated.
// Stays: rows that are written are parameters of their own, here and below: a struct of them would need a clause for each, that it is still the caller's.
pub fn try_over(
    verdict: Result<bool, Refusal>,
    by: &[u16],
    session: Session,
    model: &Model,
    mv: &Move,
    asked: &Asked,
    results: &mut [i32],
    trial: &mut [i32],
    flags: &mut [u8],
    why: &mut [u8],
) -> Done
    requires judged { CallJudged (trial_verdict (record { kept = 0; evaluations = 0; blanks = session.blanks }) (lent_model model.now) (lent_to_try mv.now asked.now results.old trial.old flags.old why.old)) (lent_tables model.now.tables) by.now verdict }
    ensures { left_by_trial result results.new trial.new flags.new why.new ≡ tried (record_in session) (lent_model model.now) (lent_to_try mv.now asked.now results.old trial.old flags.old why.old) }
{
    // Stays: no `?` here and in the other calls: the record goes with the refusal, and an inner function for it would take every row again.
    let closed = match verdict {
        Ok(closed) => closed,
        Err(refusal) => {
            return Done {
                answer: Err(refusal),
                session,
            };
        }
    };
    let evaluations = fill_trial(model, by, closed, mv, asked, results, trial, flags);
    asked_reasons(
        &model.tables,
        by,
        trial,
        flags,
        model.reasons,
        &asked.vars[..asked.count],
        why,
    );
    Done {
        answer: Ok(evaluations),
        session: Session {
            evaluations,
            ..session
        },
    }
}

// Trial, with the session record taken and given back by value.
pub fn trial_core(
    session: Session,
    model: &Model,
    mv: &Move,
    asked: &Asked,
    results: &mut [i32],
    trial: &mut [i32],
    flags: &mut [u8],
    why: &mut [u8],
) -> Done
    ensures { left_by_trial result results.new trial.new flags.new why.new ≡ tried (record_in session) (lent_model model.now) (lent_to_try mv.now asked.now results.old trial.old flags.old why.old) }
{
    // Stays: rows of a fixed length, since no call allocates.
    let mut by = [0u16; 4096];
    let verdict = judge_trial(
        session.blanks,
        model,
        mv,
        asked,
        results,
        trial,
        flags,
        why,
        &mut by,
    );
    try_over(
        verdict, &by, session, model, mv, asked, results, trial, flags, why,
    )
}
