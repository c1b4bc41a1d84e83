//! The text of the inputs.
#![tactic(auto)]

mod inputs;
mod laws;
mod line;
mod path;

pub use inputs::{InputFault, read_inputs};
pub use laws::all_lines_are_read;
pub use line::cut;
pub use path::{read_part, read_path};
