// The three routes where a chain closes: all new values by following the choices, and the flags of what the route is defined to evaluate.
#![tactic(auto)]

pub mod changes;
pub mod flagged;
pub mod followed;
pub mod looks;
pub mod reaches;
