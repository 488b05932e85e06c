// Rows of a list: copied one after another with their parts, and dropped if what they make can have no topological number.
mod copy;
mod number;

pub use copy::{pack, pack_parts, pack_shape};
pub use number::drop_rows;
