// Build, with the record taken and given back by value: judged, numbered and written.
#![tactic(auto)]

pub mod building;
pub mod builds;
pub mod writes;
