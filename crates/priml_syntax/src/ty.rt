ghost use Rattle.priml_syntax.specs.Size.{type_nodes};
ghost use Rattle.std.specs.Prelude.{◌≡◌, ◌↔◌, IsTrue, IfOk, ◌-◌, ◌^◌, min};
ghost use Rattle.priml_syntax.specs.Read.{read_type};

use crate::memory::boxed;
use crate::prio::Prio;
use std::alloc::{AllocError, Global};

/// A type. Each use of one of the six forms is one node.
#[derive(Drop)]
pub enum Ty {
    Unit,
    Bool,
    /// Numbers of 64 bits with a sign.
    Int,
    Pair(Box<Ty>, Box<Ty>),
    /// One of two: a left value or a right one.
    Sum(Box<Ty>, Box<Ty>),
    /// A thread of this priority that gives a value of this type.
    Thread(Prio, Box<Ty>),
}

impl Ty {
    /// An equal type.
    #[cycle(copy)]
    pub fn copy(&self, alloc: Global) -> Result<Ty, AllocError>
        ensures { IfOk result (λ t. read_type t ≡ read_type self.now) }
    {
        match self {
            Ty::Unit => Ok(Ty::Unit),
            Ty::Bool => Ok(Ty::Bool),
            Ty::Int => Ok(Ty::Int),
            Ty::Pair(a, b) => {
                let a = boxed(alloc, a.copy(alloc)?)?;
                Ok(Ty::Pair(a, boxed(alloc, b.copy(alloc)?)?))
            }
            Ty::Sum(a, b) => {
                let a = boxed(alloc, a.copy(alloc)?)?;
                Ok(Ty::Sum(a, boxed(alloc, b.copy(alloc)?)?))
            }
            Ty::Thread(p, a) => Ok(Ty::Thread(*p, boxed(alloc, a.copy(alloc)?)?)),
        }
    }

    /// Whether the two are the same type, thread priorities compared by name.
    pub fn equals(&self, other: &Ty) -> bool
        ensures { IsTrue result ↔ (read_type self.now ≡ read_type other.now) }
    {
        match (self, other) {
            (Ty::Unit, Ty::Unit) | (Ty::Bool, Ty::Bool) | (Ty::Int, Ty::Int) => true,
            (Ty::Pair(a, b), Ty::Pair(c, d)) => a.equals(c) && b.equals(d),
            (Ty::Sum(a, b), Ty::Sum(c, d)) => a.equals(c) && b.equals(d),
            (Ty::Thread(p, a), Ty::Thread(q, b)) => *p == *q && a.equals(b),
            _ => false,
        }
    }

    /// The number of nodes, at least 1; the last value of u64 where there are more.
    pub fn nodes(&self) -> u64
        ensures { result ≡ min (type_nodes (read_type self.now)) (2 ^ 64 - 1) }
    {
        match self {
            Ty::Unit | Ty::Bool | Ty::Int => 1,
            Ty::Pair(a, b) | Ty::Sum(a, b) => a.nodes().saturating_add(b.nodes()).saturating_add(1),
            Ty::Thread(_, a) => a.nodes().saturating_add(1),
        }
    }
}
