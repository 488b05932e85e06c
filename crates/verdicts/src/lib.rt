// Whether a trial, a keep and a taking back are accepted: the checks in their order, over what is lent to be read.
#![tactic(auto)]

pub mod asked;
pub mod fits;
pub mod judges;
pub mod models;
pub mod sequels;
pub mod taken;
