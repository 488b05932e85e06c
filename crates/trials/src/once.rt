// A move tried on a model that is judged once: what the move is given is what a trial gives it.
ghost use Rattle.std.specs.Prelude.{◌≡◌};
ghost use Rattle.paper.specs.Calls.{trial as tried};
ghost use Rattle.tables.specs.Lent.{lent_model};
ghost use Rattle.verdicts.specs.Lent.{lent_to_try};
ghost use Rattle.records.specs.Left.{record_in, left_by_trial};
ghost use Rattle.trials.specs.Once.{JudgedOnce};

use calls::trying::try_over;
use records::{Done, Session};
use tables::Refusal;
use tables::lent::{Model, Move};
use verdicts::asked::Asked;
use verdicts::judges::judge_move;

// A model judged once: the verdict of its checks, which says whether some chain closes if all are passed, and then the makers.
#[derive(Clone, Copy)]
pub struct Judged<'a> {
    pub verdict: Result<bool, Refusal>,
    pub by: &'a [u16],
}

// Tries a move over a judged model, and leaves what a trial leaves.
// Stays: rows that are written are parameters of their own, here and below: a struct of them would need a clause for each, that it is still the caller's.
pub fn try_judged(
    judged: &Judged,
    session: Session,
    model: &Model,
    mv: &Move,
    asked: &Asked,
    results: &mut [i32],
    trial: &mut [i32],
    flags: &mut [u8],
    why: &mut [u8],
) -> Done
    requires judged { JudgedOnce (lent_model model.now) session.blanks judged.now }
    ensures { left_by_trial result results.new trial.new flags.new why.new ≡ tried (record_in session) (lent_model model.now) (lent_to_try mv.now asked.now results.old trial.old flags.old why.old) }
{
    let verdict = judge_move(
        judged.verdict,
        judged.by,
        session.blanks,
        model,
        mv,
        asked,
        results,
        trial,
        flags,
        why,
    );
    try_over(
        verdict, judged.by, session, model, mv, asked, results, trial, flags, why,
    )
}
