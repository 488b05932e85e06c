// The log of kept moves in its three rows: judged, a move noted, the latest dropped.
#![tactic(auto)]

pub mod latest;
pub mod logs;
pub mod noting;
pub mod rooms;
