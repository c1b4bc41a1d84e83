//! Lanes, as a worker sees them.
ghost use Rattle.std.specs.Prelude.{◌≡◌, OnOk, IfErr, IfNone, IfSome};
ghost use Rattle.core_steps.specs.Moves.{read_job};
ghost use Rattle.task_state.specs.Tasks.{read_task};
ghost use Rattle.priority_deques.specs.Books.{NoneTaken, Picked, WasPut, WasRefused};
ghost use Rattle.priority_deques.specs.EndBooks.{shared_books, shared_job, steal_books, steal_job};
ghost use Rattle.priority_deques.specs.Ends.{IsEndOf};
ghost use Rattle.priority_deques.specs.Tasks.{IsAtRest};

use crate::ends::{SharedEnd, StealEnd};
use crate::handles::{OwnDeque, SharedDeque, TheirDeque};
use crate::parts::Pick;
use crate::walk::{put_into, take_from};
use std::alloc::AllocError;
use std::sync::Wait;
use task_state::Task;

/// Where a worker puts tasks and takes them from: lanes, one for each priority of a job's program, which are numbered from 0.
pub trait Lanes: Drop {
    ghost use Rattle.std.specs.Prelude.{List};
    ghost use Rattle.type_rules.specs.Jobs.{WithInputs};
    ghost use Rattle.priority_deques.specs.Books.{DequeBook};

    ghost job: { Self → WithInputs };

    // what the end knows of its deques, lane by lane, of each lane its own deque first
    ghost books: { Self → List (List DequeBook) };

    /// Puts a task of the job, which has not ended, has no pending step and was not fed, into the lane of its priority. Where the end's own deque of
    /// that lane refused it, which is want of memory, the task comes back.
    fn put<R: Wait>(&mut self, rt: &R, task: Task) -> Result<(), (Task, AllocError)>
        requires { IsAtRest (read_job (job self.old)) (read_task task) }
        ensures put { OnOk result (WasPut (job self.old) (read_task task) (books self.old) (books self.new)) }
        ensures refused { IfErr result (λ e. (e.0 ≡ task) × WasRefused (job self.old) (read_task task) (books self.old) (books self.new)) }
        ensures end { (job self.new ≡ job self.old) × IsEndOf (job self.new) (books self.new) };

    /// Takes a task of the first lane that gives one, from lane 0 up. None comes only after every deque of every lane was tried in this call.
    fn take<R: Wait>(&mut self, rt: &R) -> Option<Pick>
        ensures none { IfNone result (NoneTaken (books self.old) (books self.new)) }
        ensures picked { IfSome result (λ p. Picked (job self.old) p.lane (read_task p.task) (books self.old) (books self.new)) }
        ensures end { (job self.new ≡ job self.old) × IsEndOf (job self.new) (books self.new) };
}

impl Lanes for SharedEnd {
    ghost use Rattle.priority_deques.specs.EndBooks.{shared_books, shared_job};

    ghost job = { shared_job };

    ghost books = { shared_books };

    fn put<R: Wait>(&mut self, rt: &R, task: Task) -> Result<(), (Task, AllocError)> {
        let lane = self.table.lane(&task);
        put_into::<R, SharedDeque, SharedDeque>(&mut self.lanes, rt, lane, task)
    }

    fn take<R: Wait>(&mut self, rt: &R) -> Option<Pick> {
        take_from::<R, SharedDeque, SharedDeque>(&mut self.lanes, rt)
    }
}

impl StealEnd {
    /// `Lanes::put` without a runtime. It returns.
    pub fn push_task(&mut self, task: Task) -> Result<(), (Task, AllocError)>
        requires { IsAtRest (read_job (steal_job self.old)) (read_task task) }
        ensures put { OnOk result (WasPut (steal_job self.old) (read_task task) (steal_books self.old) (steal_books self.new)) }
        ensures refused { IfErr result (λ e. (e.0 ≡ task) × WasRefused (steal_job self.old) (read_task task) (steal_books self.old) (steal_books self.new)) }
        ensures end { (steal_job self.new ≡ steal_job self.old) × IsEndOf (steal_job self.new) (steal_books self.new) }
    {
        let lane = self.table.lane(&task);
        put_into::<(), OwnDeque, TheirDeque>(&mut self.lanes, &(), lane, task)
    }

    /// `Lanes::take` without a runtime. It returns.
    pub fn take_task(&mut self) -> Option<Pick>
        ensures none { IfNone result (NoneTaken (steal_books self.old) (steal_books self.new)) }
        ensures picked { IfSome result (λ p. Picked (steal_job self.old) p.lane (read_task p.task) (steal_books self.old) (steal_books self.new)) }
        ensures end { (steal_job self.new ≡ steal_job self.old) × IsEndOf (steal_job self.new) (steal_books self.new) }
    {
        take_from::<(), OwnDeque, TheirDeque>(&mut self.lanes, &())
    }
}

impl Lanes for StealEnd {
    ghost use Rattle.priority_deques.specs.EndBooks.{steal_books, steal_job};

    ghost job = { steal_job };

    ghost books = { steal_books };

    fn put<R: Wait>(&mut self, _rt: &R, task: Task) -> Result<(), (Task, AllocError)> {
        self.push_task(task)
    }

    fn take<R: Wait>(&mut self, _rt: &R) -> Option<Pick> {
        self.take_task()
    }
}
