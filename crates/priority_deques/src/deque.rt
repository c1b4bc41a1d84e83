//! Stealing deques: of the end itself, and of another end.
ghost use Rattle.std.specs.Prelude.{◌≡◌, IfOk};
ghost use Rattle.crossbeam_deque.specs.Handles.{worker_view, worker_flavor};
ghost use Rattle.priority_deques.specs.Ends.{fresh_book};
ghost use Rattle.priority_deques.specs.Handles.{own_book, their_book};
ghost use Rattle.priority_deques.specs.Inside.Rule.{newcomer, unnamed};

use crate::bag::{Bag, OwnBag};
use crate::handles::{OwnDeque, TheirDeque};
use crate::opening::Opens;
use crate::view::{LaneRule, LaneView, Names, Naming, Puts, Takes, Twin};
use crossbeam_deque::{Steal, Worker};
use std::alloc::{AllocError, Global};
use std::marker::Brand;
use std::snapshot::Snapshot;
use task_state::Task;
use type_rules::Job;

type Deque = Worker<Task, Global, LaneView, LaneRule>;

/// How many slots a deque has at first.
const FIRST_SLOTS: usize = 16;

fn name_as<N: Names>(worker: &mut Deque, _job: &Job, _lane: u64)
    requires name { N.named ≡ newcomer _job.now _lane }
    requires unnamed { worker_view worker.old ≡ unnamed }
    ensures view { worker_view worker.new ≡ newcomer _job.now _lane }
    ensures flavor { worker_flavor worker.new ≡ worker_flavor worker.old }
{
    let _other = worker.another::<Naming<N>>();
}

// Gives the deque its job and its lane.
fn name(worker: &mut Deque, job: &Job, lane: u64)
    requires { worker_view worker.old ≡ unnamed }
    ensures view { worker_view worker.new ≡ newcomer job.now lane }
    ensures flavor { worker_flavor worker.new ≡ worker_flavor worker.old }
{
    name_as::<Brand>(worker, job, lane);
}

impl Opens for OwnDeque {
    ghost use Rattle.priority_deques.specs.Handles.{own_book};

    ghost own = { own_book };

    fn open(alloc: Global, job: &Job, lane: u64) -> Result<OwnDeque, AllocError> {
        let mut worker = Deque::fifo_as(alloc, FIRST_SLOTS)?;
        name(&mut worker, job, lane);
        Ok(OwnDeque {
            worker,
            job: Snapshot::of(job),
            misses: 0,
            refusals: 0,
        })
    }
}

impl OwnDeque {
    /// A handle for another end.
    pub fn visitor(&mut self, job: &Job) -> Result<TheirDeque, AllocError>
        requires { (own_book self.old).job ≡ job.now }
        ensures same { own_book self.new ≡ own_book self.old }
        ensures fresh { IfOk result (λ d. their_book d ≡ fresh_book job.now (own_book self.old).lane) }
    {
        let stealer = self.worker.stealer()?;
        let pass = self.worker.another::<Twin>();
        Ok(TheirDeque {
            stealer,
            pass,
            job: Snapshot::of(job),
            misses: 0,
        })
    }
}

impl Bag<()> for OwnDeque {
    ghost use Rattle.priority_deques.specs.Handles.{own_book};

    ghost book = { own_book };

    fn remove(&mut self, _ctx: &()) -> Option<Task> {
        match self.worker.pop_as::<Takes>() {
            Some(task) => Some(task),
            None => {
                self.misses = self.misses.saturating_add(1);
                None
            }
        }
    }
}

impl OwnBag<()> for OwnDeque {
    fn add(&mut self, _ctx: &(), task: Task) -> Result<(), Task> {
        match self.worker.push_as::<Puts>(task) {
            Ok(()) => Ok(()),
            Err(task) => {
                self.refusals = self.refusals.saturating_add(1);
                Err(task)
            }
        }
    }
}

impl Bag<()> for TheirDeque {
    ghost use Rattle.priority_deques.specs.Handles.{their_book};

    ghost book = { their_book };

    fn remove(&mut self, _ctx: &()) -> Option<Task> {
        match self.stealer.steal_as::<Takes>(&mut self.pass) {
            Steal::Success(task) => Some(task),
            Steal::Empty | Steal::Retry => {
                self.misses = self.misses.saturating_add(1);
                None
            }
        }
    }
}
