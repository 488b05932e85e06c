// The archive for C: each call that C makes, under its name. Each calls the function of that name in capi, and states what that states. The
// structs that cross are capi's.
#![tactic(auto)]

mod batch;
mod bounded;
mod building;
mod departures;
mod feeds;
mod file;
mod inputs;
mod interface;
mod keep;
mod many;
mod merged;
mod saving;
mod take_back;
mod trial;
mod versions;
