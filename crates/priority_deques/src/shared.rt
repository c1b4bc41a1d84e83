//! Lanes that are one queue each.
ghost use Rattle.std.specs.Prelude.{◌≡◌, ◌<◌, ◌≤◌, IfOk, length};
ghost use Rattle.std.specs.List.{All};
ghost use Rattle.priority_deques.specs.EndBooks.{shared_books, shared_job};
ghost use Rattle.priority_deques.specs.Ends.{IsOpened};
ghost use Rattle.priority_deques.specs.Handles.{shared_book};
ghost use Rattle.priority_deques.specs.Parts.{end_books};

use crate::ends::SharedEnd;
use crate::handles::SharedDeque;
use crate::opening::lone_lanes;
use crate::parts::LaneDeques;
use crate::table::LaneTable;
use std::alloc::{AllocError, Global};
use type_rules::Job;

type Deques = LaneDeques<SharedDeque, SharedDeque>;

/// The plain form of lanes: one queue for each priority, which all workers share.
pub struct SharedLanes;

impl SharedLanes {
    /// The ends of new lanes for 1 to 16 workers, in their order. Each has one queue of each lane.
    pub fn open(alloc: Global, job: &Job, workers: u32) -> Result<Vec<SharedEnd>, AllocError>
        requires { (0 < workers) × (workers ≤ 16) }
        ensures count { IfOk result (λ v. length v.items ≡ workers) }
        ensures ends { IfOk result (λ v. All (λ e. (shared_job e ≡ job.now) × IsOpened job.now 1 (shared_books e)) v.items) }
    {
        let mut first = first_end(alloc, job)?;
        let mut ends = Vec::new(alloc);
        for _worker in 1..workers {
            ends.push(another_end(alloc, job, &mut first)?)?;
        }
        ends.push(first)?;
        Ok(ends)
    }
}

// The first end of new lanes.
fn first_end(alloc: Global, job: &Job) -> Result<SharedEnd, AllocError>
    ensures { IfOk result (λ e. (shared_job e ≡ job.now) × IsOpened job.now 1 (shared_books e)) }
{
    let table = LaneTable::of(alloc, job)?;
    let lanes = lone_lanes(alloc, job, &table)?;
    Ok(SharedEnd { table, lanes })
}

// One more end of lanes that were not used yet.
fn another_end(alloc: Global, job: &Job, first: &mut SharedEnd) -> Result<SharedEnd, AllocError>
    requires job { shared_job first.old ≡ job.now }
    requires new { IsOpened job.now 1 (shared_books first.old) }
    ensures first { (shared_job first.new ≡ shared_job first.old) × (shared_books first.new ≡ shared_books first.old) }
    ensures another { IfOk result (λ e. (shared_job e ≡ job.now) × IsOpened job.now 1 (shared_books e)) }
{
    let table = LaneTable::of(alloc, job)?;
    let lanes = other_ends(alloc, job, &mut first.lanes)?;
    Ok(SharedEnd { table, lanes })
}

// One more end of each queue.
fn other_ends(alloc: Global, job: &Job, lanes: &mut Vec<Deques>) -> Result<Vec<Deques>, AllocError>
    requires { IsOpened job.now 1 (end_books shared_book shared_book lanes.old.items) }
    ensures lanes { end_books shared_book shared_book lanes.new.items ≡ end_books shared_book shared_book lanes.old.items }
    ensures others { IfOk result (λ v. IsOpened job.now 1 (end_books shared_book shared_book v.items)) }
{
    let mut others = Vec::new(alloc);
    for lane in 0..lanes.len() {
        let own = lanes[lane].own.another(job)?;
        others.push(LaneDeques {
            own,
            others: Vec::new(alloc),
        })?;
    }
    Ok(others)
}
