//! The tokens of a text.
#![tactic(auto)]

mod bytes;
mod form;
mod laws;
pub mod lexer;
mod name;
pub mod token;
mod word;

pub use laws::token_laws;
