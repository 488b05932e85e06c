// Values worked out: of one row, of all rows along the order, and by each of the three routes.
#![tactic(auto)]

mod afresh;
pub mod ask;
pub mod marks;
mod output;
mod route;
mod row;
mod sweep;

pub use afresh::work_out;
pub use output::{mark_guided, output_to_input};
pub use route::Route;
pub use row::row_value;
pub use sweep::input_to_output;
