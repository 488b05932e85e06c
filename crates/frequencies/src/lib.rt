// frequencies.txt of the GTFS Schedule Reference: its bytes read as windows, and windows written as its bytes.
#![tactic(auto)]

mod checks;
mod ends;
mod fields;
mod fill;
mod header;
mod judge;
mod lines;
mod names;
mod parts;
mod puts;
mod read;
mod refusals;
mod rows;
mod sizes;
mod values;
mod verdict;
mod write;

pub use read::read_frequencies;
pub use write::write_frequencies;

// The windows that a call is lent to write: how many, and a row for each of what they say. A name is so many bytes of a text from a place on; where
// `name_doubled` is not 0, its quotes stand double there.
#[derive(Clone, Copy)]
pub struct Windows<'a> {
    pub count: usize,
    pub name_places: &'a [u32],
    pub name_lengths: &'a [u32],
    pub name_doubled: &'a [u8],
    pub starts: &'a [i32],
    pub ends: &'a [i32],
    pub headways: &'a [i32],
    pub exacts: &'a [u8],
}
