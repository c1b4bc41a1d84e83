//! Why a run has no book.
ghost use Rattle.std.specs.Prelude.{◌≡◌};

use std::alloc::AllocError;

/// Why a run has no book.
#[derive(Debug, Drop)]
pub enum RunStop {
    /// Want of memory.
    OutOfMemory,
    /// The job's work exceeds the limit. So does the number of steps that were made, which is told.
    StepLimit(u64),
}

impl From<AllocError> for RunStop {
    ghost use Rattle.steal_runtime.specs.declared.stops.RunStop.TheVariants.{OutOfMemory};

    ghost from_gives = { λ _ stop. stop ≡ OutOfMemory };

    fn from(_: AllocError) -> RunStop {
        RunStop::OutOfMemory
    }
}
