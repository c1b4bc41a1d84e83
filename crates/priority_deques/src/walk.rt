//! The walk over the lanes, written once for both forms.
ghost use Rattle.std.specs.Prelude.{◌≡◌, ◌<◌, ◌^◌, length, slice_get, MatchOption, OnOk, IfErr, Some};
ghost use Rattle.std.specs.List.{AllZip};
ghost use Rattle.task_state.specs.Tasks.{read_task};
ghost use Rattle.priority_deques.specs.declared.parts.LaneDeques.{LaneDeques as TheDeques};
ghost use Rattle.priority_deques.specs.Books.{AsBefore, ChangedAt, Got, Missed, NoneTaken, Refused, TookOne};
ghost use Rattle.priority_deques.specs.Parts.{end_books, lane_books};
ghost use Rattle.core_steps.specs.Moves.{read_job};
ghost use Rattle.priority_deques.specs.Tasks.{Fits};

use crate::bag::{Bag, OwnBag, remove_any};
use crate::parts::{LaneDeques, Pick};
use std::alloc::AllocError;
use task_state::Task;

impl<O, B> LaneDeques<O, B> {
    /// A task of the lane: of the own deque, or else of the first of the others that gives one.
    pub fn take<X>(&mut self, ctx: &X) -> Option<Task>
    where
        O: OwnBag<X>,
        B: Bag<X>,
        ensures { MatchOption result (AllZip Missed (lane_books O.book B.book self.old) (lane_books O.book B.book self.new))
            (λ t. TookOne (read_task t) (lane_books O.book B.book self.old) (lane_books O.book B.book self.new)) }
    {
        if let Some(task) = self.own.remove(ctx) {
            return Some(task);
        }
        match remove_any(&mut self.others, ctx) {
            Some(task) => Some(task),
            None => None,
        }
    }
}

/// A task of the first lane that gives one, from lane 0 up.
pub fn take_from<X, O: OwnBag<X>, B: Bag<X>>(
    lanes: &mut Vec<LaneDeques<O, B>>,
    ctx: &X,
) -> Option<Pick>
    requires { length lanes.old.items < 2 ^ 32 }
    ensures { MatchOption result (NoneTaken (end_books O.book B.book lanes.old.items) (end_books O.book B.book lanes.new.items))
        (λ p. ChangedAt (AllZip Missed) (TookOne (read_task p.task)) p.lane (end_books O.book B.book lanes.old.items)
        (end_books O.book B.book lanes.new.items)) }
{
    for lane in 0..lanes.len() {
        if let Some(task) = lanes[lane].take(ctx) {
            return Some(Pick {
                task,
                lane: lane as u32,
            });
        }
    }
    None
}

/// Puts the task on the own deque of the lane.
pub fn put_into<X, O: OwnBag<X>, B: Bag<X>>(
    lanes: &mut Vec<LaneDeques<O, B>>,
    ctx: &X,
    lane: u32,
    task: Task,
) -> Result<(), (Task, AllocError)>
    requires lane { lane < length lanes.old.items }
    requires fits { (d : TheDeques O B) → slice_get lanes.old.items lane ≡ Some d → Fits (read_job (O.book d.own).job) (O.book d.own).lane (read_task task) }
    ensures put { OnOk result (ChangedAt AsBefore (ChangedAt AsBefore (Got (read_task task)) 0) lane
        (end_books O.book B.book lanes.old.items) (end_books O.book B.book lanes.new.items)) }
    ensures refused { IfErr result (λ e. (e.0 ≡ task) × ChangedAt AsBefore (ChangedAt AsBefore Refused 0) lane
        (end_books O.book B.book lanes.old.items) (end_books O.book B.book lanes.new.items)) }
{
    match lanes[lane as usize].own.add(ctx, task) {
        Ok(()) => Ok(()),
        Err(task) => Err((task, AllocError)),
    }
}
