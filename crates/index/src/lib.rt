// The index of the rows that read each variable: written for build, checked for the other calls.
#![tactic(auto)]

pub mod readers;
pub mod tries;
