ghost use Rattle.std.specs.Prelude.{◌≡◌};
ghost use Rattle.cost_graph.specs.declared.stop.GraphStop.TheVariants.{OutOfMemory};

use std::alloc::AllocError;

/// Whether a graph is well formed.
#[derive(Clone, Copy, Debug, PartialEq, Eq)]
pub enum Shape {
    Good,
    /// The first thread that is not well formed, and the first vertex, by number, that is an ancestor of its last
    /// vertex and not of its first and whose priority the thread's is not at most.
    Bad(u32, u32),
}

/// Why a question about all threads and vertices of a graph has no answer.
#[derive(Clone, Copy, Debug, PartialEq, Eq)]
pub enum GraphStop {
    /// Threads times vertices exceeds 134,217,728.
    TooLarge,
    OutOfMemory,
}

impl From<AllocError> for GraphStop {
    ghost from_gives = { λ _ stop. stop ≡ OutOfMemory };

    fn from(_: AllocError) -> GraphStop {
        GraphStop::OutOfMemory
    }
}
