// What an accepted trial and keep write: trial its rows by one of the three routes, keep the new stored values.
#![tactic(auto)]

pub mod accepts;
mod keep;
pub mod running;
mod trial;

pub use keep::fill_keep;
pub use trial::fill_trial;
