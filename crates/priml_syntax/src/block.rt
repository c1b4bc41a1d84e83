ghost use Rattle.std.specs.Prelude.{◌≡◌, ℕ, IfOk};
ghost use Rattle.priml_syntax.specs.Tree.{block};
ghost use Rattle.priml_syntax.specs.Read.{read_code, read_act, read_tail};
ghost use Rattle.priml_syntax.specs.Lists.{body_of};

use crate::expr::{Expr, copies};
use crate::memory::boxed;
use crate::prio::Prio;
use std::alloc::{AllocError, Global};

/// A block at its place, the byte offset of its opening brace: actions, each of which binds one variable that
/// is in scope from the next action on, and an ending.
#[cycle(block)]
#[derive(Drop)]
pub struct Block {
    pub at: u64,
    pub binds: Vec<Bind>,
    pub tail: Tail,
}

/// An action at its place, the byte offset of its word, and not of the variable that it binds.
#[cycle(block)]
#[derive(Drop)]
pub struct Bind {
    pub at: u64,
    pub action: Action,
}

/// What an action does.
#[cycle(block)]
#[derive(Drop)]
pub enum Action {
    /// Gives the value of the expression.
    Ret(Expr),
    /// Spawns a thread of this priority that runs the block in the present scope, and gives the thread.
    Spawn(Prio, Box<Block>),
    /// Waits for the thread in the variable at this place in scope, and gives its value.
    Sync(u32),
    /// Runs the procedure of this number, with these priorities for its variables and these arguments.
    Call(u32, Vec<Prio>, Vec<Expr>),
    /// Runs the block in the present scope.
    Do(Box<Block>),
    /// Gives the thread's next input as a right value, or a left unit where none is left.
    Input,
    /// Writes a number, and gives unit.
    Output(Expr),
}

/// The ending of a block at its place, the byte offset of its word.
#[cycle(block)]
#[derive(Drop)]
pub struct Tail {
    pub at: u64,
    pub form: TailForm,
}

/// How a block ends.
#[cycle(block)]
#[derive(Drop)]
pub enum TailForm {
    /// With the value of the expression.
    Ret(Expr),
    /// In the first block where the expression is true, else in the second.
    If(Expr, Box<Block>, Box<Block>),
    /// In the first block where the expression is a left value, in the second where it is a right one. Either
    /// has one variable more in scope, which holds what was inside.
    Case(Expr, Box<Block>, Box<Block>),
}

impl Block {
    /// The block of these parts: its tree is that of the ending below the actions in order.
    pub fn of(at: u64, binds: Vec<Bind>, tail: Tail) -> Block
        ensures { read_code result ≡ block at (body_of binds.items (read_tail tail.form tail.at)) }
    {
        Block { at, binds, tail }
    }

    /// An equal block.
    #[cycle(copy)]
    pub fn copy(&self, alloc: Global) -> Result<Block, AllocError>
        ensures { IfOk result (λ b. read_code b ≡ read_code self.now) }
    {
        let mut binds = Vec::new(alloc);
        for bind in &self.binds {
            binds.push(bind.copy(alloc)?)?;
        }
        let tail = self.tail.copy(alloc)?;
        Ok(Block {
            at: self.at,
            binds,
            tail,
        })
    }
}

impl Bind {
    /// An equal action at the same place.
    #[cycle(copy)]
    pub fn copy(&self, alloc: Global) -> Result<Bind, AllocError>
        ensures at { IfOk result (λ b. b.at ≡ self.now.at) }
        ensures action { IfOk result (λ b. read_act b.action ≡ read_act self.now.action) }
    {
        let action = self.action.copy(alloc)?;
        Ok(Bind {
            at: self.at,
            action,
        })
    }
}

impl Action {
    /// An equal action.
    #[cycle(copy)]
    pub fn copy(&self, alloc: Global) -> Result<Action, AllocError>
        ensures { IfOk result (λ a. read_act a ≡ read_act self.now) }
    {
        match self {
            Action::Ret(e) => Ok(Action::Ret(e.copy(alloc)?)),
            Action::Spawn(q, block) => Ok(Action::Spawn(*q, boxed(alloc, block.copy(alloc)?)?)),
            Action::Sync(h) => Ok(Action::Sync(*h)),
            Action::Call(f, ps, es) => {
                let ps = Vec::from_slice(alloc, ps)?;
                Ok(Action::Call(*f, ps, copies(alloc, es)?))
            }
            Action::Do(block) => Ok(Action::Do(boxed(alloc, block.copy(alloc)?)?)),
            Action::Input => Ok(Action::Input),
            Action::Output(e) => Ok(Action::Output(e.copy(alloc)?)),
        }
    }
}

impl TailForm {
    /// An equal form.
    #[cycle(copy)]
    pub fn copy(&self, alloc: Global) -> Result<TailForm, AllocError>
        ensures { IfOk result (λ t. (at : ℕ) → read_tail t at ≡ read_tail self.now at) }
    {
        match self {
            TailForm::Ret(e) => Ok(TailForm::Ret(e.copy(alloc)?)),
            TailForm::If(e, a, b) => {
                let e = e.copy(alloc)?;
                let a = boxed(alloc, a.copy(alloc)?)?;
                Ok(TailForm::If(e, a, boxed(alloc, b.copy(alloc)?)?))
            }
            TailForm::Case(e, a, b) => {
                let e = e.copy(alloc)?;
                let a = boxed(alloc, a.copy(alloc)?)?;
                Ok(TailForm::Case(e, a, boxed(alloc, b.copy(alloc)?)?))
            }
        }
    }
}

impl Tail {
    /// An equal ending.
    #[cycle(copy)]
    pub fn copy(&self, alloc: Global) -> Result<Tail, AllocError>
        ensures { IfOk result (λ t. read_tail t.form t.at ≡ read_tail self.now.form self.now.at) }
    {
        let form = self.form.copy(alloc)?;
        Ok(Tail { at: self.at, form })
    }
}
