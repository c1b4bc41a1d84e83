//! What is wrong with the names of a program, and with how many there are.

ghost use Rattle.std.specs.Prelude.{◌≡◌};

use std::alloc::AllocError;

/// What a program has too many of.
#[derive(Clone, Copy, Debug, PartialEq, Eq)]
pub enum What {
    /// More than 16 declared priorities.
    Priorities,
    /// More than 256 declared pairs of priorities.
    Pairs,
    /// More than 256 procedures.
    Procedures,
    /// More than 8 priority variables of one procedure.
    PrioVars,
    /// More than 16 constraints of one procedure.
    Constraints,
    /// More than 8 parameters of one procedure.
    Parameters,
    /// More than 32 variables in scope, hidden ones too.
    Scope,
    /// A written type of more than 16 nodes.
    TypeNodes,
}

/// A fault of a program's names and limits, with its offset in the text.
#[derive(Clone, Copy, Debug, PartialEq, Eq)]
pub enum Fault {
    /// The name at this offset stands for nothing in scope.
    UnknownName(u64),
    /// The name at this offset is declared a second time.
    TwiceNamed(u64),
    /// What stands at this offset passes the limit.
    TooMany(u64, What),
}

/// Why names are not resolved.
#[derive(Drop, Debug)]
pub enum ResolveStop {
    /// The first fault.
    Fault(Fault),
    OutOfMemory,
}

/// What is made of names, or why they are not resolved.
pub type Made<T> = Result<T, ResolveStop>;

impl From<AllocError> for ResolveStop {
    ghost use Rattle.source_reader.specs.declared.faults.ResolveStop.TheVariants.{OutOfMemory};

    ghost from_gives = { λ _ e. e ≡ OutOfMemory };

    fn from(_error: AllocError) -> ResolveStop {
        ResolveStop::OutOfMemory
    }
}
