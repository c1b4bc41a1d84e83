//! What expressions gave, for the step that asked for it.

ghost use Rattle.std.specs.Prelude.{IfOk, map};
ghost use Rattle.priml_syntax.specs.Read.{read_term};
ghost use Rattle.core_steps.specs.Expressions.{result_of, results_of};
ghost use Rattle.core_steps.specs.Fields.{read_frame};
ghost use Rattle.core_steps.specs.Inside.Locals.{IsGiven, AreGiven};

use crate::expressions::{evaluate, evaluate_all};
use crate::frame::Frame;
use priml_syntax::{Expr, FaultKind, Outcome, Value};
use std::alloc::{AllocError, Global};

/// What an expression gave.
pub(crate) enum Given {
    Value(Value),
    Fault(FaultKind),
    /// Nothing: it met a value of a wrong kind.
    Wrong,
}

/// What several expressions gave: the values of all, or the first fault.
pub(crate) enum GivenAll {
    Values(Vec<Value>),
    Fault(FaultKind),
    /// Nothing: one met a value of a wrong kind.
    Wrong,
}

impl Frame {
    /// What an expression gives in the frame's scope.
    pub(crate) fn given(&self, alloc: Global, expr: &Expr) -> Result<Given, AllocError>
        ensures { IfOk result (IsGiven (result_of (read_frame self.now).scope (read_term expr.now))) }
    {
        match evaluate(alloc, &self.scope, expr)? {
            Some(Outcome::Value(value)) => Ok(Given::Value(value)),
            Some(Outcome::Fault(kind)) => Ok(Given::Fault(kind)),
            None => Ok(Given::Wrong),
        }
    }

    /// What several expressions give in it.
    pub(crate) fn given_all(&self, alloc: Global, exprs: &[Expr]) -> Result<GivenAll, AllocError>
        ensures { IfOk result (AreGiven (results_of (read_frame self.now).scope (map read_term exprs.now))) }
    {
        match evaluate_all(alloc, &self.scope, exprs)? {
            Some(Ok(values)) => Ok(GivenAll::Values(values)),
            Some(Err(kind)) => Ok(GivenAll::Fault(kind)),
            None => Ok(GivenAll::Wrong),
        }
    }
}
