//! A text to a program: its names are resolved, and its limits are kept.
#![tactic(auto)]

mod block;
mod declared;
mod faults;
mod laws;
mod list;
mod names;
mod once;
mod procedure;
mod reader;
mod resolve;
mod term;

pub use faults::{Fault, What};
pub use inputs_text::{InputFault, read_inputs};
pub use laws::source_laws;
pub use reader::{SourceFault, read_source, read_source_leaving_tree};
