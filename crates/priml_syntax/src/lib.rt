//! The plain data of PriML: programs, values, events, records and inputs, each with `copy`.
//!
//! Each type has a reading as a plain tree of numbers, variants and lists (`specs/Read`), in which a pointer,
//! the room of a list and its allocator play no part. Contracts compare readings, so two values are equal
//! where they hold the same numbers, variants and items in the same order.
//!
//! Places are byte offsets from the start of the input. Priorities and procedures are numbered from 0 in the
//! order of their declarations, priority variables from 0 in the order in which their procedure lists them,
//! and variables from 0 by their place in scope, the outermost first.
//!
//! What takes memory has the allocator for an argument and may answer want of memory, whatever it was asked.
#![tactic(auto)]

mod block;
mod event;
mod expr;
mod inputs;
mod limits;
mod memory;
mod path;
mod prio;
mod program;
mod record;
mod text;
mod ty;
mod value;

pub use block::{Action, Bind, Block, Tail, TailForm};
pub use event::{Event, copy_events};
pub use expr::{Expr, ExprForm, Op};
pub use inputs::Inputs;
pub use limits::{
    MOST_CONSTRAINTS, MOST_IN_SCOPE, MOST_NODES, MOST_PAIRS, MOST_PARAMETERS, MOST_PARTS,
    MOST_PRIORITIES, MOST_PRIORITY_VARIABLES, MOST_PROCEDURES,
};
pub use memory::{boxed, push};
pub use path::{Path, PathStop};
pub use prio::Prio;
pub use program::{Proc, Program};
pub use record::{Record, Records};
pub use text::{push_path, push_path_and};
pub use ty::Ty;
pub use value::{FaultKind, Outcome, Value};
