//! The type checker: it accepts the typable programs, and names the first fault of any other.
#![tactic(auto)]

mod block;
mod call;
mod checked;
mod job;
mod laws;
mod routine;
mod shared;
mod term;

pub use checked::{Checked, check};
pub use job::Job;
pub use laws::{at_most_one_fault, each_is_typed_or_faulty, faults_are_untypable};
use std::alloc::AllocError;

/// What is wrong at a place. Of several kinds at one place the first in this list is told.
#[derive(Clone, Copy, Debug, PartialEq, Eq)]
pub enum TypeKind {
    /// A declared pair whose second is at most its first by the pairs before it.
    Cycle,
    /// A call with another number of priorities or arguments than the procedure declares.
    Arity,
    /// A type other than the one that the rule needs.
    Mismatch,
    /// A `sync` of a variable whose type is no thread's.
    NotThread,
    /// A call of a procedure whose own priority is another.
    WrongPriority,
    /// A call one of whose constraints is not entailed.
    Constraint,
    /// A `sync` of a thread whose priority is not known to be at least the own one.
    Inversion,
    /// A pair or a `spawn` whose type would have more than 16 nodes.
    Wide,
}

/// The first fault of a program.
#[derive(Clone, Copy, Debug, PartialEq, Eq)]
pub struct TypeFault {
    pub kind: TypeKind,
    /// The offset of the first token of what has no type, in bytes.
    pub at: u64,
}

/// Why a program was not accepted.
#[derive(Debug, Drop)]
pub enum TypeStop {
    /// It is not typable, and this is its first fault.
    Fault(TypeFault),
    OutOfMemory,
}

impl From<AllocError> for TypeStop {
    ghost use Rattle.std.specs.Prelude.{◌≡◌};
    ghost use Rattle.type_rules.specs.declared.TypeStop.TheVariants.{OutOfMemory};

    ghost from_gives = { λ _ stop. stop ≡ OutOfMemory };

    fn from(_: AllocError) -> TypeStop {
        TypeStop::OutOfMemory
    }
}
