// The numbers of an answer: its refusal's, how many evaluations it tells, and all three as C takes them.
ghost use Rattle.std.specs.Prelude.{◌≡◌};
ghost use Rattle.paper.specs.Calls.{number_of, evaluations_of};
ghost use Rattle.records.specs.Left.{answer_in};
ghost use Rattle.records.specs.Outcomes.{in_numbers};

use tables::Answer;

// What a call answers: 0 and place 0 if accepted, and then how many evaluations it made.
#[repr(C)]
#[derive(Clone, Copy)]
pub struct Outcome {
    pub number: u32,
    pub place: u32,
    pub evaluations: u32,
}

// The number of an answer, 0 if the call was accepted.
pub fn number_of(answer: Answer) -> u32
    ensures { result ≡ number_of (answer_in answer) }
{
    match answer {
        Ok(_) => 0,
        Err(refusal) => refusal.number,
    }
}

// The evaluations of an answer, 0 if the call was refused.
pub fn evaluations_of(answer: Answer) -> u32
    ensures { result ≡ evaluations_of (answer_in answer) }
{
    answer.unwrap_or(0)
}

// An answer as three numbers: 0 and place 0 if accepted, no evaluations if refused.
impl From<Answer> for Outcome {
    ghost from_gives = { λ answer r. r ≡ in_numbers (answer_in answer) };

    fn from(answer: Answer) -> Outcome {
        match answer {
            Ok(evaluations) => Outcome {
                number: 0,
                place: 0,
                evaluations,
            },
            Err(refusal) => Outcome {
                number: refusal.number,
                place: refusal.place,
                evaluations: 0,
            },
        }
    }
}
