//! Lanes that were just opened.
ghost use Rattle.std.specs.Prelude.{◌≡◌, IfOk};
ghost use Rattle.priority_deques.specs.Books.{DequeBook};
ghost use Rattle.priority_deques.specs.Ends.{IsEndOf, IsOpened};
ghost use Rattle.priority_deques.specs.Parts.{end_books};

use crate::parts::LaneDeques;
use crate::table::LaneTable;
use std::alloc::{AllocError, Global};
use type_rules::Job;

/// A deque that an end opens as its own.
pub trait Opens: Drop {
    ghost use Rattle.std.specs.Prelude.{◌≡◌, IfOk};
    ghost use Rattle.priority_deques.specs.Books.{DequeBook};
    ghost use Rattle.priority_deques.specs.Ends.{fresh_book};

    ghost own: { Self → DequeBook };

    /// An empty deque of the lane.
    fn open(alloc: Global, job: &Job, lane: u64) -> Result<Self, AllocError>
        ensures { IfOk result (λ d. own d ≡ fresh_book job.now lane) };
}

/// Lanes of one empty deque each, the end's own.
pub(crate) fn lone_lanes<O: Opens, B: Drop>(
    alloc: Global,
    job: &Job,
    table: &LaneTable,
) -> Result<Vec<LaneDeques<O, B>>, AllocError>
    requires { table.now ≡ job.now }
    ensures { IfOk result (λ v. (theirs : B → DequeBook) →
        IsOpened job.now 1 (end_books O.own theirs v.items) × IsEndOf table.now (end_books O.own theirs v.items)) }
{
    let mut lanes = Vec::new(alloc);
    for lane in 0..table.count() {
        let own = O::open(alloc, job, lane as u64)?;
        lanes.push(LaneDeques {
            own,
            others: Vec::new(alloc),
        })?;
    }
    Ok(lanes)
}
