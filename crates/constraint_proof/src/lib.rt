//! What declared pairs and assumed constraints entail, and derivations that show it.
#![tactic(auto)]

mod derivation;
mod known;
mod search;

pub use derivation::{Derivation, Rule, Step, accepts};
pub use known::{Known, MOST_VARIABLES, entails};
pub use search::derive;
