// The calls for C and Rust, each under the name by which C calls it. Each states what the call beneath it states. The crate capi_c exports them.
#![tactic(auto)]

mod batch;
mod bounded;
mod building;
mod departures;
mod feeds;
mod file;
mod inputs;
mod interface;
mod keep;
mod many;
mod merged;
mod saving;
mod take_back;
mod trial;
mod versions;

ghost use Rattle.std.specs.Prelude.{◌≡◌};
ghost use Rattle.capi.specs.Products.{list_in_numbers};

pub use batch::lukhandro_figures;
pub use bounded::{lukhandro_read_bounded, lukhandro_write_bounded};
pub use building::lukhandro_build;
pub use departures::lukhandro_departures;
pub use feeds::{lukhandro_frequencies, lukhandro_write_frequencies};
pub use file::{lukhandro_read, lukhandro_write};
pub use inputs::lukhandro_inputs_of_row;
pub use interface::{lukhandro_interface, lukhandro_interface_1};
pub use keep::lukhandro_keep;
pub use many::lukhandro_trials;
pub use merged::lukhandro_merge;
pub use saving::lukhandro_salvage;
use tables::Refusal;
pub use take_back::lukhandro_take_back;
pub use trial::lukhandro_trial;
pub use versions::{lukhandro_to_version_1, lukhandro_to_version_2};

// What reading a file answers: 0 and place 0 if accepted, and then how many variables, rows and entries it has.
#[repr(C)]
#[derive(Clone, Copy)]
pub struct ReadOutcome {
    pub number: u32,
    pub place: u32,
    pub n: u32,
    pub m: u32,
    pub e: u32,
}

// What salvaging a file answers: 0 and place 0 if accepted, and then how long the saved file is, and how many rows dropped and how many start
// values missing or reset the list has.
#[repr(C)]
#[derive(Clone, Copy)]
pub struct SalvageOutcome {
    pub number: u32,
    pub place: u32,
    pub length: usize,
    pub rows: usize,
    pub values: usize,
}

// What a move of a file from one version to the other answers: 0 and place 0 if accepted, and then how long the new file is.
#[repr(C)]
#[derive(Clone, Copy)]
pub struct MoveOutcome {
    pub number: u32,
    pub place: u32,
    pub length: usize,
}

// What a batch in figures answers: 0 and place 0 if accepted, and then how many results are blank, the least, the greatest and the sum of those that
// have a value, and the evaluations by each of the three routes.
#[repr(C)]
#[derive(Clone, Copy)]
pub struct FiguresOutcome {
    pub number: u32,
    pub place: u32,
    pub blank: u32,
    pub least: i32,
    pub greatest: i32,
    pub sum: i64,
    pub first: u32,
    pub second: u32,
    pub third: u32,
}

// What a departure board answers: 0 and place 0 if accepted, and then how long the list is; what frequencies.txt read or written answers, and then how many windows
// or bytes it has.
#[repr(C)]
#[derive(Clone, Copy)]
pub struct ListOutcome {
    pub number: u32,
    pub place: u32,
    pub length: usize,
}

// A count, or what refuses it, as three numbers.
impl From<Result<usize, Refusal>> for ListOutcome {
    ghost from_gives = { λ told r. r ≡ list_in_numbers told };

    fn from(told: Result<usize, Refusal>) -> ListOutcome {
        match told {
            Ok(length) => ListOutcome {
                number: 0,
                place: 0,
                length,
            },
            Err(refusal) => ListOutcome {
                number: refusal.number,
                place: refusal.place,
                length: 0,
            },
        }
    }
}
