// What is checked before anything is worked out: check 1 of the tables, checks 2 to 4 one by one, the maker of each variable, and the answer of a
// call. A check answers the least place that fails, or none, and asks of its caller that rows are as long as it reads them.
#![tactic(auto)]

mod kind;
pub mod lent;
mod maker;
mod number;
pub mod parts;
mod shape;
mod size;
pub mod walker;

ghost use Rattle.std.specs.Prelude.{◌≡◌, ◌<◌, IfSome};
ghost use Rattle.tables.specs.Answers.{refusal, unless_at};

pub use kind::first_bad_kind;
pub use maker::makers;
pub use number::first_bad_number;
pub use shape::{first_bad_shape, first_unknown, total_of};
pub use size::sizes;

// What refuses a call: its number and its place.
// Stays: a number, not an enum of checks, since callers from C are handed it and the paper's definitions number the checks.
#[derive(Clone, Copy)]
pub struct Refusal {
    pub number: u32,
    pub place: u32,
}

// What a call answers: how many evaluations it made, or what refuses it.
pub type Answer = Result<u32, Refusal>;

// The refusal with a number and a place.
pub fn refused(number: u32, place: usize) -> Refusal
    requires { place < 65536 }
    ensures { result ≡ refusal number place }
{
    Refusal {
        number,
        place: place as u32,
    }
}

// None of the places fails, or the one that does is refused with the number.
pub fn none_fails(number: u32, at: Option<usize>) -> Result<(), Refusal>
    requires { IfSome at (λ place. place < 65536) }
    ensures { result ≡ unless_at number at }
{
    match at {
        Some(place) => Err(refused(number, place)),
        None => Ok(()),
    }
}
