//! A queue that all ends share, as one of them holds it.
ghost use Rattle.std.specs.Prelude.{◌≡◌, IfOk};
ghost use Rattle.crossbeam_queue.specs.SegTies.{IsSegPassOf};
ghost use Rattle.priority_deques.specs.Ends.{fresh_book};
ghost use Rattle.priority_deques.specs.Handles.{shared_book};
ghost use Rattle.priority_deques.specs.Inside.Rule.{newcomer, unnamed};

use crate::bag::{Bag, OwnBag};
use crate::handles::{Line, SharedDeque};
use crate::opening::Opens;
use crate::view::{LaneRule, LaneView, Names, Naming, Puts, Takes, Twin};
use crossbeam_queue::{RuledSegQueue, SegPass};
use std::alloc::{AllocError, Global};
use std::marker::Brand;
use std::snapshot::Snapshot;
use std::sync::{Arc, Wait};
use task_state::Task;
use type_rules::Job;

type Queue = RuledSegQueue<Task, LaneView, LaneRule>;

type Passing = SegPass<Task, LaneView>;

fn name_as<N: Names>(queue: &Queue, pass: &mut Passing, _job: &Job, _lane: u64)
    requires name { N.named ≡ newcomer _job.now _lane }
    requires unnamed { pass.old.me.view.client ≡ unnamed }
    requires queue { IsSegPassOf queue.now pass.old }
    ensures view { pass.new.me.view.client ≡ newcomer _job.now _lane }
    ensures queue { IsSegPassOf queue.now pass.new }
{
    let _other = queue.another::<Naming<N>>(pass);
}

// Gives the queue its job and its lane.
fn name(queue: &Queue, pass: &mut Passing, job: &Job, lane: u64)
    requires unnamed { pass.old.me.view.client ≡ unnamed }
    requires queue { IsSegPassOf queue.now pass.old }
    ensures view { pass.new.me.view.client ≡ newcomer job.now lane }
    ensures queue { IsSegPassOf queue.now pass.new }
{
    name_as::<Brand>(queue, pass, job, lane);
}

impl Opens for SharedDeque {
    ghost use Rattle.priority_deques.specs.Handles.{shared_book};

    ghost own = { shared_book };

    // The first end of a queue.
    fn open(alloc: Global, job: &Job, lane: u64) -> Result<SharedDeque, AllocError> {
        let (queue, mut pass) = Queue::with_rule(alloc)?;
        name(&queue, &mut pass, job, lane);
        let line = Arc::new(alloc, Line { queue })?;
        Ok(SharedDeque {
            line,
            pass,
            job: Snapshot::of(job),
            misses: 0,
            refusals: 0,
        })
    }
}

impl SharedDeque {
    /// One more end of the queue.
    pub fn another(&mut self, job: &Job) -> Result<SharedDeque, AllocError>
        requires { (shared_book self.old).job ≡ job.now }
        ensures same { shared_book self.new ≡ shared_book self.old }
        ensures fresh { IfOk result (λ d. shared_book d ≡ fresh_book job.now (shared_book self.old).lane) }
    {
        let line = Arc::try_clone(&self.line)?;
        let pass = self.line.queue.another::<Twin>(&mut self.pass);
        Ok(SharedDeque {
            line,
            pass,
            job: Snapshot::of(job),
            misses: 0,
            refusals: 0,
        })
    }
}

impl<R: Wait> Bag<R> for SharedDeque {
    ghost use Rattle.priority_deques.specs.Handles.{shared_book};

    ghost book = { shared_book };

    fn remove(&mut self, ctx: &R) -> Option<Task> {
        match self.line.queue.pop_as::<Takes, R>(ctx, &mut self.pass) {
            Some(task) => Some(task),
            None => {
                self.misses = self.misses.saturating_add(1);
                None
            }
        }
    }
}

impl<R: Wait> OwnBag<R> for SharedDeque {
    fn add(&mut self, ctx: &R, task: Task) -> Result<(), Task> {
        match self
            .line
            .queue
            .push_as::<Puts, R>(ctx, &mut self.pass, task)
        {
            Ok(()) => Ok(()),
            Err(task) => {
                self.refusals = self.refusals.saturating_add(1);
                Err(task)
            }
        }
    }
}
