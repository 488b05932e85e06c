// The public calls: build, trial, keep and taking back. Each is lent the session record; the call beneath takes it and gives it back by value.
#![tactic(auto)]

mod counters;
mod lent;

pub use lent::{build, keep, take_back, trial};
