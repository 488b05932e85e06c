// Variables that depend on each other, over any links in rows: the groups, and the number that each shares.
#![tactic(auto)]

pub mod asks;
pub mod links;
pub mod stacks;
mod walk;

pub use links::Links;
pub use walk::find_groups;
