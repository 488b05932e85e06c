// Links that lead back into the group that they come from, and groups barred since an index lies in them.
mod back;
mod barred;

pub use back::first_back;
pub use barred::{bar_groups, first_barred};
