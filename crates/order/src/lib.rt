// Topological numbers where no chain closes, found and checked, and the order checked; chains threaded through a list.
#![tactic(auto)]

pub mod ascents;
mod chain;
mod parts;
mod right;
mod visit;
mod write;

pub use chain::{place_all, thread};
pub use parts::of_maker;
pub use right::numbered_right;
pub use visit::find_numbers;
pub use write::write_numbers;
