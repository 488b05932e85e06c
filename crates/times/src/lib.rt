// The departures of the windows of one trip in time order: the checks of a departure board, and the list.
#![tactic(auto)]

pub mod lists;
pub mod overlaps;

// The windows of one trip: how many, and a lent row for each of their numbers.
#[derive(Clone, Copy)]
pub struct Windows<'a> {
    pub count: usize,
    pub starts: &'a [i32],
    pub ends: &'a [i32],
    pub headways: &'a [i32],
}
