// What refuses a call: its number, and a place or a line, which is a number of 32 bits.
ghost use Rattle.std.specs.Prelude.{◌≡◌, ◌≤◌, IfSome};
ghost use Rattle.tables.specs.Answers.{refusal, unless_at};

use tables::Refusal;

// The refusal with a number and a place.
pub(crate) fn refused(number: u32, place: usize) -> Refusal
    requires { place ≤ 2147483648 }
    ensures { result ≡ refusal number place }
{
    Refusal {
        number,
        place: place as u32,
    }
}

// None of the places fails, or the one that does is refused with the number.
// Stays: `tables::none_fails` asks for places below 65,536, and those of a file's lines are greater.
pub(crate) fn none_fails(number: u32, at: Option<usize>) -> Result<(), Refusal>
    requires { IfSome at (λ place. place ≤ 2147483648) }
    ensures { result ≡ unless_at number at }
{
    match at {
        Some(place) => Err(refused(number, place)),
        None => Ok(()),
    }
}
