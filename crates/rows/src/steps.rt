// The small steps of the routes: what changed, what is asked next, the row of work, and the flags counted.
mod ask;
mod change;
mod count;
mod plan;

pub use ask::{next_place, waits};
pub use change::moved;
pub use count::evaluations;
pub use plan::plan_work;
