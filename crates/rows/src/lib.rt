// Small steps over rows of values: a move put in, values copied out, what changed, what is asked next, flags counted, what waits.
#![tactic(auto)]

pub mod copies;
pub mod steps;
pub mod waiting;
