//! The steps that end a block.

ghost use Rattle.std.specs.Prelude.{◌≡◌, ℕ, Some, None, IfOk, OnErr};
ghost use Rattle.priml_syntax.specs.Tree.{ret_tail, if_tail, case_tail};
ghost use Rattle.priml_syntax.specs.Read.{read_code, read_tail, read_term};
ghost use Rattle.core_steps.specs.Fields.{running, read_frame, read_local, read_mode, body_at};
ghost use Rattle.core_steps.specs.Inside.Locals.{MakesTo};
ghost use Rattle.core_steps.specs.Moves.{read_job};
ghost use Rattle.core_steps.specs.Inside.Moves.{CanStep};

use crate::given::Given;
use crate::kinds::{Sided, boolean, side};
use crate::local::{Local, Made, without_child};
use crate::place::Turn;
use priml_syntax::{Block, Event, Expr, Outcome, TailForm};
use std::alloc::{AllocError, Global};
use type_rules::Job;

impl Local {
    // The ending of a block.
    pub(crate) fn finish(
        &mut self,
        alloc: Global,
        job: &Job,
        form: &TailForm,
    ) -> Result<Made, AllocError>
        requires can { CanStep (read_job job.now) (read_local self.old) None }
        requires mode { read_mode self.old.mode ≡ running }
        requires ending { (at : ℕ) × (body_at (read_job job.now).program (read_frame self.old.top) ≡ Some (read_tail form.now at)) }
        ensures goes { IfOk result (λ m. MakesTo (read_job job.now) self.old None m self.new) }
        ensures steps { self.new.steps ≡ self.old.steps }
        ensures kept { OnErr result (read_local self.new ≡ read_local self.old) }
    {
        match form {
            TailForm::Ret(expr) => self.ret_tail(alloc, job, expr),
            TailForm::If(expr, a, b) => self.if_tail(alloc, job, expr, a, b),
            TailForm::Case(expr, a, b) => self.case_tail(alloc, job, expr, a, b),
        }
    }

    // The value of a block goes to the frame below, or ends the thread.
    fn ret_tail(&mut self, alloc: Global, job: &Job, expr: &Expr) -> Result<Made, AllocError>
        requires can { CanStep (read_job job.now) (read_local self.old) None }
        requires mode { read_mode self.old.mode ≡ running }
        requires ending { (at : ℕ) × (body_at (read_job job.now).program (read_frame self.old.top) ≡ Some (ret_tail at (read_term expr.now))) }
        ensures goes { IfOk result (λ m. MakesTo (read_job job.now) self.old None m self.new) }
        ensures steps { self.new.steps ≡ self.old.steps }
        ensures kept { OnErr result (read_local self.new ≡ read_local self.old) }
    {
        match self.top.given(alloc, expr)? {
            Given::Value(value) => {
                if self.below.len() == 0 {
                    self.below = Vec::new(alloc);
                    return Ok(self.end(Outcome::Value(value)));
                }
                self.leave(value)?;
                Ok(without_child(Event::Plain))
            }
            Given::Fault(kind) => Ok(self.end(Outcome::Fault(kind))),
            Given::Wrong => unreachable!(),
        }
    }

    // Goes on in the block that a condition chooses.
    fn if_tail(
        &mut self,
        alloc: Global,
        job: &Job,
        expr: &Expr,
        a: &Block,
        b: &Block,
    ) -> Result<Made, AllocError>
        requires can { CanStep (read_job job.now) (read_local self.old) None }
        requires mode { read_mode self.old.mode ≡ running }
        requires ending { (at : ℕ) × (body_at (read_job job.now).program (read_frame self.old.top)
            ≡ Some (if_tail at (read_term expr.now) (read_code a.now) (read_code b.now))) }
        ensures goes { IfOk result (λ m. MakesTo (read_job job.now) self.old None m self.new) }
        ensures steps { self.new.steps ≡ self.old.steps }
        ensures kept { OnErr result (read_local self.new ≡ read_local self.old) }
    {
        match self.top.given(alloc, expr)? {
            Given::Value(value) => match boolean(&value) {
                Some(true) => {
                    self.branch(Turn::First)?;
                    Ok(without_child(Event::Plain))
                }
                Some(false) => {
                    self.branch(Turn::Second)?;
                    Ok(without_child(Event::Plain))
                }
                None => unreachable!(),
            },
            Given::Fault(kind) => Ok(self.end(Outcome::Fault(kind))),
            Given::Wrong => unreachable!(),
        }
    }

    // Goes on in the block for the side of a sum, with what was inside.
    fn case_tail(
        &mut self,
        alloc: Global,
        job: &Job,
        expr: &Expr,
        a: &Block,
        b: &Block,
    ) -> Result<Made, AllocError>
        requires can { CanStep (read_job job.now) (read_local self.old) None }
        requires mode { read_mode self.old.mode ≡ running }
        requires ending { (at : ℕ) × (body_at (read_job job.now).program (read_frame self.old.top)
            ≡ Some (case_tail at (read_term expr.now) (read_code a.now) (read_code b.now))) }
        ensures goes { IfOk result (λ m. MakesTo (read_job job.now) self.old None m self.new) }
        ensures steps { self.new.steps ≡ self.old.steps }
        ensures kept { OnErr result (read_local self.new ≡ read_local self.old) }
    {
        match self.top.given(alloc, expr)? {
            Given::Value(value) => match side(value) {
                Sided::Left(inner) => {
                    self.branch_with(Turn::First, inner)?;
                    Ok(without_child(Event::Plain))
                }
                Sided::Right(inner) => {
                    self.branch_with(Turn::Second, inner)?;
                    Ok(without_child(Event::Plain))
                }
                Sided::Wrong => unreachable!(),
            },
            Given::Fault(kind) => Ok(self.end(Outcome::Fault(kind))),
            Given::Wrong => unreachable!(),
        }
    }
}
