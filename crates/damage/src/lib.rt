// What a damaged model file gives by its counts, and which of its rows may be kept.
#![tactic(auto)]

pub mod admissions;
pub mod flags;
pub mod kept;
