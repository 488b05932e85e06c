// What comes of one move: it is tried on the stored values by each of the three routes, and not kept.
ghost use Rattle.std.specs.Prelude.{◌≡◌, ◌≤◌, ◌<◌, length};
ghost use Rattle.integers.specs.Integers.{away};
ghost use Rattle.tables.specs.Lent.{lent_model, lent_move};
ghost use Rattle.records.specs.Left.{record_in};
ghost use Rattle.trials.specs.Once.{JudgedOnce};
ghost use Rattle.figures.specs.Outcomes.{tried_once, outcome, SmallOutcome};

use records::Session;
use records::answers::{evaluations_of, number_of};
use tables::lent::{Model, Move};
use trials::given::try_given;
use trials::once::Judged;
use verdicts::asked::Asked;

// What comes of a move by one route: the number that the engine answers, its evaluations, and the value of the asked variable.
#[derive(Clone, Copy)]
pub struct Tried {
    pub number: u32,
    pub evaluations: u32,
    pub result: i32,
}

// Stays: the number 0 for accepted, here and in what comes of a trial, since `tried_once`, `outcome` and `having` say it so.
// What comes of a move: its number and its result by route 1, and the evaluations by each route.
#[derive(Clone, Copy)]
pub struct Outcome {
    pub number: u32,
    pub result: i32,
    pub first: u32,
    pub second: u32,
    pub third: u32,
}

// Tries a move by a route over a judged model, with one variable asked.
fn try_by(
    judged: &Judged,
    session: Session,
    model: &Model,
    mv: &Move,
    asked: u16,
    route: u32,
    trial: &mut [i32],
    flags: &mut [u8],
) -> Tried
    requires judged { JudgedOnce (lent_model model.now) session.blanks judged.now }
    requires rows { (length trial.old ≡ 4096) × (length flags.old ≡ 4096) }
    ensures { (result ≡ tried_once (record_in session) (lent_model model.now) asked route (lent_move mv.now)) × (result.number < 22) × (result.evaluations ≤ 4096) × (away result.result ≤ 2147483648) }
{
    // Stays: rows of a fixed length, since no call allocates.
    let mut results = [0i32; 1];
    let mut why = [0u8; 1];
    let one = Asked {
        count: 1,
        vars: &[asked; 1],
        route,
    };
    let answer = try_given(
        judged,
        session,
        model,
        mv,
        &one,
        &mut results,
        trial,
        flags,
        &mut why,
    );
    Tried {
        number: number_of(answer),
        evaluations: evaluations_of(answer),
        result: results[0],
    }
}

// Tries a move by each route; the number and the result are those of the first.
pub(crate) fn try_move(
    judged: &Judged,
    session: Session,
    model: &Model,
    mv: &Move,
    asked: u16,
    trial: &mut [i32],
    flags: &mut [u8],
) -> Outcome
    requires judged { JudgedOnce (lent_model model.now) session.blanks judged.now }
    requires rows { (length trial.old ≡ 4096) × (length flags.old ≡ 4096) }
    ensures { (result ≡ outcome (record_in session) (lent_model model.now) asked (lent_move mv.now)) × SmallOutcome result }
{
    let first = try_by(judged, session, model, mv, asked, 1, trial, flags);
    let second = try_by(judged, session, model, mv, asked, 2, trial, flags);
    let third = try_by(judged, session, model, mv, asked, 3, trial, flags);
    Outcome {
        number: first.number,
        result: first.result,
        first: first.evaluations,
        second: second.evaluations,
        third: third.evaluations,
    }
}
