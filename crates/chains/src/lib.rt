// Closed chains of inputs: which are permitted, the numbers that groups share and the rows by them, and whether any chain closes.
#![tactic(auto)]

pub mod bars;
pub mod closed;
pub mod links;
pub mod numbering;
pub mod permits;
pub mod ranks;
