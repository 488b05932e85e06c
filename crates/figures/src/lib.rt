// A batch of candidate moves in figures: each move is tried on the same stored values by each of the three routes, and none is kept.
#![tactic(auto)]

mod add;
mod batch;
mod outcomes;
mod sums;

pub use add::{greatest_of, least_of};
pub use batch::figures;

// The figures of the moves together: blank results; least, greatest and sum of those that have a value; evaluations by each route.
#[derive(Clone, Copy)]
pub struct Totals {
    pub blank: u32,
    pub least: i32,
    pub greatest: i32,
    pub sum: i64,
    pub first: u32,
    pub second: u32,
    pub third: u32,
}
