//! The response of each thread under a prompt schedule, and its bound.
#![tactic(auto)]

mod bound;
mod laws;
mod place;
mod report;
mod row;
mod text;

pub use bound::response_is_bounded;
pub use cost_graph::GraphStop as ReportStop;
pub use laws::{rows_are_one, some_rows};
pub use report::rows;
pub use row::Row;
pub use text::response_text;
