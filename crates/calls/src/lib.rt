// Trial, keep and taking back, with the record taken and given back by value: judged, and then written.
#![tactic(auto)]

pub mod keeping;
pub mod taking;
pub mod trying;
