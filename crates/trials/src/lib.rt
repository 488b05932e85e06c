// Many moves tried on the same stored values: the model is judged once, and each move by its own checks.
#![tactic(auto)]

pub mod batch;
pub mod given;
pub mod once;
pub mod parts;

pub use batch::{Batch, trials};
