// Which rows of a damaged model file are kept: what the file gives is laid over scratch rows, a missing byte being 0, and each row is tested.
mod keep;
mod lay;

pub use keep::keep_rows;
pub use lay::lay_given;
