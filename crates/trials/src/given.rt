// What a move is given over a judged model, with rows of the call's own for values and flags: whatever stands in these does not matter.
ghost use Rattle.std.specs.Prelude.{◌≡◌, length};
ghost use Rattle.tables.specs.Lent.{lent_model, lent_move};
ghost use Rattle.records.specs.Left.{record_in};
ghost use Rattle.trials.specs.Once.{JudgedOnce};
ghost use Rattle.trials.specs.Trials.{question_of, Given};

use crate::once::{Judged, try_judged};
use records::Session;
use tables::Answer;
use tables::lent::{Model, Move};
use verdicts::asked::Asked;

// Tries a move, and answers what a trial of it answers; `results` and `why` are left as the trial leaves them.
// Stays: rows that are written are parameters of their own, here and below: a struct of them would need a clause for each, that it is still the caller's.
pub fn try_given(
    judged: &Judged,
    session: Session,
    model: &Model,
    mv: &Move,
    asked: &Asked,
    results: &mut [i32],
    trial: &mut [i32],
    flags: &mut [u8],
    why: &mut [u8],
) -> Answer
    requires judged { JudgedOnce (lent_model model.now) session.blanks judged.now }
    requires rows { (length trial.old ≡ 4096) × (length flags.old ≡ 4096) }
    ensures { Given (record_in session) (lent_model model.now) (question_of asked.now) (lent_move mv.now) results.old why.old result results.new why.new }
{
    let done = try_judged(
        judged, session, model, mv, asked, results, trial, flags, why,
    );
    done.answer
}
