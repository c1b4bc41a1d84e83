//! The grammar of a program's text: tokens to a tree whose names are not resolved.
#![tactic(auto)]

mod action;
mod block;
mod choice;
mod cursor;
mod expr;
mod head;
mod laws;
mod list;
mod program;
pub mod raw;
mod ty;

pub use laws::grammar_laws;
pub use program::{ParseStop, parse};
