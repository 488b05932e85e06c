// The checks of tables, bounds, values and moves: 2 to 5, 7 and 19, 10 to 12 and 17.
#![tactic(auto)]

pub mod allowed;
pub mod bounds;
pub mod moves;
pub mod repeats;
pub mod sound;
