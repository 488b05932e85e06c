// What is copied for an accepted move: a trial row is begun from the stored values with the move put in, and asked values are copied out.
mod begin;
mod copy;

pub use begin::{begin_route, put_move};
pub use copy::{copy_asked, copy_values};
