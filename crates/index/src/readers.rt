// The index of readers: where the rows that read each variable start, and the rows. Written for build, checked for trial and keep.
mod right;
mod rows;
mod write;

pub use right::rows_right;
pub use write::write_readers;
