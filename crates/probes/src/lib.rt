// A move tried by what it touches: the walk along the readers lists what it marks, and afterwards just this is put back.
#![tactic(auto)]

pub mod back;
pub mod fill;
pub mod guide;
pub mod touch;
