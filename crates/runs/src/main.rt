// The runs of the paper that are not proved, and the windows of the GTFS sample feed, each with its end one second to either side.
#![tactic(auto)]

mod print;
mod rows;

use crate::print::{clock, text, value};
use crate::rows::{over, window};
use std::io;

// Prints OVER of two inputs.
fn over_line<R: Print>(rt: &R, a: i32, b: i32) -> io::Result<()> {
    text(rt, b"OVER of ")?;
    value(rt, a)?;
    text(rt, b" and ")?;
    value(rt, b)?;
    text(rt, b": ")?;
    value(rt, over(a, b))?;
    text(rt, b"\n")
}

// Prints how many departures a window has, and the last of them.
fn window_line<R: Print>(rt: &R, start: i32, end: i32, headway: i32) -> io::Result<()> {
    clock(rt, start)?;
    text(rt, b" to ")?;
    clock(rt, end)?;
    text(rt, b" every ")?;
    value(rt, headway)?;
    text(rt, b" s: ")?;
    let given = window(start, end, headway);
    value(rt, given.departures)?;
    text(rt, b" departures, last ")?;
    clock(rt, given.last)?;
    text(rt, b"\n")
}

// The same with the end one second earlier, as it is, and one second later.
fn window_lines<R: Print>(
    rt: &R,
    start: i32,
    before: i32,
    end: i32,
    after: i32,
    headway: i32,
) -> io::Result<()> {
    window_line(rt, start, before, headway)?;
    window_line(rt, start, end, headway)?;
    window_line(rt, start, after, headway)
}

fn main(rt: HostRuntime) -> io::Result<()> {
    over_line(&rt, 2147483647, -1)?;
    over_line(&rt, 5, 5)?;
    window_lines(&rt, 21600, 79199, 79200, 79201, 1800)?;
    window_lines(&rt, 21600, 28798, 28799, 28800, 1800)?;
    window_lines(&rt, 28800, 35998, 35999, 36000, 600)?;
    window_lines(&rt, 36000, 57598, 57599, 57600, 1800)?;
    window_lines(&rt, 57600, 68398, 68399, 68400, 600)?;
    window_lines(&rt, 68400, 79199, 79200, 79201, 1800)
}
