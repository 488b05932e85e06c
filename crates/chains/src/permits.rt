// Closed chains of tables: the least variable on one that is not permitted, with the number that each group shares, found for build, and both checked with the
// order for the other calls.
mod permit;
mod right;

pub use permit::find_shared;
pub use right::shared_right;
