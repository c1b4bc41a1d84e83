ghost use Rattle.std.specs.Prelude.{◌≡◌, IfOk};

use std::alloc::{AllocError, Global};

/// A priority as code names it. Two are equal where they are the same name.
#[derive(Clone, Copy, Debug, PartialEq, Eq)]
pub enum Prio {
    /// A declared priority, by the number of its declaration from 0.
    Const(u32),
    /// A priority variable of the procedure, by its number from 0.
    Var(u32),
}

impl Prio {
    /// An equal priority.
    pub fn copy(&self, _alloc: Global) -> Result<Prio, AllocError>
        ensures { IfOk result (λ p. p ≡ self.now) }
    {
        Ok(*self)
    }
}
