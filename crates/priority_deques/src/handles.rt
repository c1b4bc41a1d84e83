//! The handles that an end has of its deques.
ghost use Rattle.std.specs.Prelude.{◌≡◌, Some};
ghost use Rattle.std.specs.Arc.{arc_value};
ghost use Rattle.std.specs.Coded.{Coded-set, coded_option};
ghost use Rattle.crossbeam_deque.specs.Handles.{worker_view, worker_flavor, view, stealer_deque, IsPassOf};
ghost use Rattle.crossbeam_queue.specs.SegTies.{IsSegPassOf};
ghost use Rattle.priority_deques.specs.Codes.{job_code};

use crate::view::{LaneRule, LaneView};
use crossbeam_deque::{Pass, Stealer, Worker};
use crossbeam_queue::{RuledSegQueue, SegPass};
use std::alloc::Global;
use std::snapshot::Snapshot;
use std::sync::Arc;
use task_state::Task;
use type_rules::Job;

/// A stealing deque, first in, first out, that belongs to the end.
#[derive(Drop)]
pub struct OwnDeque {
    pub(crate) worker: Worker<Task, Global, LaneView, LaneRule>,
    pub(crate) job: Snapshot<Job>,
    pub(crate) misses: u64,
    pub(crate) refusals: u64,
    ghost named: { (worker_view worker).job ≡ Some job.value } by { Coded-set (coded_option job_code) _ _ },
    ghost fifo: { worker_flavor worker ≡ 0 },
}

/// The stealing deque of another end.
#[derive(Drop)]
pub struct TheirDeque {
    pub(crate) stealer: Stealer<Task, Global, LaneView, LaneRule>,
    pub(crate) pass: Pass<Task, LaneView, Global>,
    pub(crate) job: Snapshot<Job>,
    pub(crate) misses: u64,
    ghost named: { (view pass).job ≡ Some job.value } by { Coded-set (coded_option job_code) _ _ },
    ghost same: { IsPassOf (stealer_deque stealer) pass },
}

/// A queue that is destroyed when the last end lets it go.
pub struct Line {
    pub(crate) queue: RuledSegQueue<Task, LaneView, LaneRule>,
}

impl Drop for Line {
    fn drop(self) {
        let Self { queue } = self;
        queue.destroy();
    }
}

/// A queue that all ends share, as one of them holds it.
#[derive(Drop)]
pub struct SharedDeque {
    pub(crate) line: Arc<Line, Global>,
    pub(crate) pass: SegPass<Task, LaneView>,
    pub(crate) job: Snapshot<Job>,
    pub(crate) misses: u64,
    pub(crate) refusals: u64,
    ghost named: { pass.me.view.client.job ≡ Some job.value } by { Coded-set (coded_option job_code) _ _ },
    ghost same: { IsSegPassOf (arc_value line).queue pass },
}
