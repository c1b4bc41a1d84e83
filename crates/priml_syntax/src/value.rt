ghost use Rattle.std.specs.Prelude.{◌≡◌, IfOk};
ghost use Rattle.priml_syntax.specs.Read.{read_value, read_outcome};

use crate::memory::boxed;
use crate::path::Path;
use std::alloc::{AllocError, Global};

/// A value that a thread computes.
#[derive(Drop)]
pub enum Value {
    Unit,
    Bool(bool),
    Int(i64),
    Pair(Box<Value>, Box<Value>),
    /// A left value of a sum.
    Inl(Box<Value>),
    /// A right value of a sum.
    Inr(Box<Value>),
    /// A thread by its path, and its priority by the number of its declaration.
    Thread(Path, u32),
}

/// Why a thread ended without a value.
#[derive(Clone, Copy, Debug, PartialEq, Eq)]
pub enum FaultKind {
    /// A number outside the range of 64 bits with a sign.
    Overflow,
    /// A divisor that is 0.
    Zero,
    /// A spawn by a thread whose path has 32 parts, or that has 4,294,967,295 children.
    Depth,
}

/// How a thread ended: with a value, or with a fault.
#[derive(Drop)]
pub enum Outcome {
    Value(Value),
    Fault(FaultKind),
}

impl Value {
    /// An equal value.
    #[cycle(copy)]
    pub fn copy(&self, alloc: Global) -> Result<Value, AllocError>
        ensures { IfOk result (λ v. read_value v ≡ read_value self.now) }
    {
        match self {
            Value::Bool(b) => Ok(Value::Bool(*b)),
            Value::Unit => Ok(Value::Unit),
            Value::Int(n) => Ok(Value::Int(*n)),
            Value::Pair(a, b) => {
                let a = boxed(alloc, a.copy(alloc)?)?;
                Ok(Value::Pair(a, boxed(alloc, b.copy(alloc)?)?))
            }
            Value::Inl(a) => Ok(Value::Inl(boxed(alloc, a.copy(alloc)?)?)),
            Value::Inr(a) => Ok(Value::Inr(boxed(alloc, a.copy(alloc)?)?)),
            Value::Thread(path, prio) => Ok(Value::Thread(path.copy(alloc)?, *prio)),
        }
    }
}

impl FaultKind {
    /// An equal fault.
    pub fn copy(&self, _alloc: Global) -> Result<FaultKind, AllocError>
        ensures { IfOk result (λ f. f ≡ self.now) }
    {
        Ok(*self)
    }
}

impl Outcome {
    /// An equal outcome.
    pub fn copy(&self, alloc: Global) -> Result<Outcome, AllocError>
        ensures { IfOk result (λ o. read_outcome o ≡ read_outcome self.now) }
    {
        match self {
            Outcome::Value(v) => Ok(Outcome::Value(v.copy(alloc)?)),
            Outcome::Fault(f) => Ok(Outcome::Fault(*f)),
        }
    }
}
