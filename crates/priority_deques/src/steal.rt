//! Lanes that are one stealing deque for each worker.
ghost use Rattle.std.specs.Prelude.{◌≡◌, ◌+◌, ◌<◌, ◌≤◌, ◌∷◌, IfOk, OnOk, length, map, slice_get, slice_set, Some};
ghost use Rattle.std.specs.List.{All};
ghost use Rattle.priority_deques.specs.declared.parts.LaneDeques.{LaneDeques as TheDeques};
ghost use Rattle.priority_deques.specs.declared.handles.OwnDeque.{OwnDeque as TheOwn};
ghost use Rattle.priority_deques.specs.declared.handles.TheirDeque.{TheirDeque as TheTheirs};
ghost use Rattle.priority_deques.specs.EndBooks.{steal_books, steal_job};
ghost use Rattle.priority_deques.specs.Ends.{AreOfLane, IsOpened, fresh_book, lane_count};
ghost use Rattle.priority_deques.specs.Handles.{own_book, their_book};
ghost use Rattle.priority_deques.specs.Inside.Opening.{AreFresh, Ready};

use crate::ends::StealEnd;
use crate::handles::TheirDeque;
use crate::opening::lone_lanes;
use crate::table::LaneTable;
use std::alloc::{AllocError, Global};
use type_rules::Job;

/// The stealing form of lanes: one deque for each worker and priority.
pub struct StealLanes;

impl StealLanes {
    /// The ends of new lanes for 1 to 16 workers, in their order. Each has of each lane one deque for each worker: its own, and then those of the
    /// others from the next one round.
    pub fn open(alloc: Global, job: &Job, workers: u32) -> Result<Vec<StealEnd>, AllocError>
        requires { (0 < workers) × (workers ≤ 16) }
        ensures count { IfOk result (λ v. length v.items ≡ workers) }
        ensures ends { IfOk result (λ v. All (λ e. (steal_job e ≡ job.now) × IsOpened job.now workers (steal_books e)) v.items) }
    {
        let mut ends = Vec::new(alloc);
        for _made in 0..workers {
            ends.push(lone_end(alloc, job)?)?;
        }
        for worker in 0..workers {
            join_end(alloc, job, &mut ends, worker as usize)?;
        }
        Ok(ends)
    }
}

// An end that has its own deques alone.
fn lone_end(alloc: Global, job: &Job) -> Result<StealEnd, AllocError>
    ensures { IfOk result (λ e. (steal_job e ≡ job.now) × IsOpened job.now 1 (steal_books e)) }
{
    let table = LaneTable::of(alloc, job)?;
    let lanes = lone_lanes(alloc, job, &table)?;
    Ok(StealEnd { table, lanes })
}

// Gives the end of the worker the handles of all other deques.
fn join_end(
    alloc: Global,
    job: &Job,
    ends: &mut Vec<StealEnd>,
    worker: usize,
) -> Result<(), AllocError>
    requires worker { worker < length ends.old.items }
    requires few { length ends.old.items ≤ 16 }
    requires ready { Ready job.now (length ends.old.items) worker 0 ends.old.items }
    ensures { OnOk result ((length ends.new.items ≡ length ends.old.items) × Ready job.now (length ends.old.items) (worker + 1) 0 ends.new.items) }
{
    for lane in 0..ends[worker].lanes.len() {
        let others = visitors(alloc, job, ends, worker, lane)?;
        ends[worker].join(lane, others);
    }
    Ok(())
}

// Handles of the lane's deques of the other workers, from the next one round.
fn visitors(
    alloc: Global,
    job: &Job,
    ends: &mut Vec<StealEnd>,
    worker: usize,
    lane: usize,
) -> Result<Vec<TheirDeque>, AllocError>
    requires worker { worker < length ends.old.items }
    requires lane { lane < lane_count job.now }
    requires few { length ends.old.items ≤ 16 }
    requires ready { Ready job.now (length ends.old.items) worker lane ends.old.items }
    ensures ends { OnOk result ((length ends.new.items ≡ length ends.old.items) × Ready job.now (length ends.old.items) worker lane ends.new.items) }
    ensures others { IfOk result (λ v. AreFresh job.now lane (map their_book v.items) × (length v.items + 1 ≡ length ends.old.items)) }
{
    let workers = ends.len();
    let mut others = Vec::new(alloc);
    for step in 1..workers {
        let visitor = ends[(worker + step) % workers].visitor(job, lane)?;
        others.push(visitor)?;
    }
    Ok(others)
}

impl StealEnd {
    // A handle of the end's own deque of the lane, for another end.
    fn visitor(&mut self, job: &Job, lane: usize) -> Result<TheirDeque, AllocError>
        requires job { steal_job self.old ≡ job.now }
        requires lane { lane < length self.old.lanes.items }
        ensures same { (steal_job self.new ≡ steal_job self.old) × (steal_books self.new ≡ steal_books self.old) }
        ensures fresh { IfOk result (λ d. their_book d ≡ fresh_book job.now lane) }
    {
        self.lanes[lane].own.visitor(job)
    }

    // Gives the end handles of the other deques of the lane.
    fn join(&mut self, lane: usize, others: Vec<TheirDeque>)
        requires lane { lane < length self.old.lanes.items }
        requires others { AreOfLane (steal_job self.old) lane (map their_book others.items) }
        ensures job { steal_job self.new ≡ steal_job self.old }
        ensures books { (d : TheDeques TheOwn TheTheirs) → slice_get self.old.lanes.items lane ≡ Some d →
            steal_books self.new ≡ slice_set (steal_books self.old) lane (own_book d.own ∷ map their_book others.items) }
    {
        self.lanes[lane].others = others;
    }
}
