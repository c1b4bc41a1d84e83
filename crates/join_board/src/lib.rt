//! The board that the workers of a run share. It keeps 64 shards of logs over a table of words that change in single steps. Workers
//! publish the steps of threads on it, look up how threads ended, park tasks that wait for an end, count steps and stop. Between any
//! two steps of any number of workers it reads as a configuration that interleavings of the job reach.
#![tactic(auto)]

mod close;
mod commit;
mod enroll;
mod look;
mod moves;
mod new;
mod open;
mod owned;
mod park;
mod rule;
mod runs;
mod shard;
mod stop;
mod view;

pub use commit::Commit;
pub use enroll::Enroll;
pub use look::Look;
pub use owned::{Board, BoardSeat};
pub use park::Park;
pub use runs::Made;
pub use stop::StopCause;
