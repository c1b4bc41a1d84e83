//! Bytes in and bytes out: sources and sinks whose faults are counted, and reading and writing the whole.
#![tactic(auto)]

mod blanks;
mod ends;
mod laws;
mod memory;
mod sections;
mod standard;
mod steady;
mod whole;
mod words;

pub use blanks::{are_blank, is_blank};
pub use ends::{Failed, Sink, Source};
pub use laws::{all_words_are_read, every_input_is_cut};
pub use memory::{MemSink, MemSource};
pub use sections::{SectionFault, Sections, next_line, split};
pub use standard::{StdSink, StdSource};
pub use steady::{SteadySink, SteadySource};
pub use whole::{ReadStop, WriteStop, read_all, write_all};
pub use words::{Command, WordsFault, capped_value, is_digits, read_words};
