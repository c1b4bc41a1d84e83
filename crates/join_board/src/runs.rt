//! Tasks run at a seat.
ghost use Rattle.std.specs.Prelude.{◌≡◌, ◌<◌, ◌≤◌, IfOk, OnOk, IfSome};
ghost use Rattle.core_steps.specs.Moves.{read_job};
ghost use Rattle.trace_book.specs.Segments.{read_segment};
ghost use Rattle.task_state.specs.Tasks.{read_task};
ghost use Rattle.join_board.specs.Handles.{knows};
ghost use Rattle.join_board.specs.Jobs.{the_job};
ghost use Rattle.join_board.specs.Tasks.{CanRun, HasChild, IsIdle, LastSteps};

use crate::owned::BoardSeat;
use std::alloc::{AllocError, Global};
use task_state::{Halt, Task};
use trace_book::Segment;
use type_rules::Job;

/// What a run of a task came to.
#[derive(Drop)]
pub struct Made {
    /// Why it came to its end.
    pub halt: Halt,
    /// The steps that it made; None where there are none.
    pub segment: Option<Segment>,
}

impl BoardSeat {
    /// Runs the task for at most `quantum` steps. They come as a segment by this worker, which the seat can commit. Where memory is
    /// wanting no segment comes.
    pub fn run(
        &self,
        alloc: Global,
        job: &Job,
        worker: u32,
        quantum: u32,
        task: &mut Task,
    ) -> Result<Made, AllocError>
        requires job { the_job (knows self.now).about ≡ read_job job.now }
        requires numbers { (worker < (knows self.now).about.opened) × (0 < quantum) × (quantum ≤ (knows self.now).about.quantum) }
        requires task { CanRun (read_job job.now) (knows self.now) (read_task task.old) }
        ensures rest { OnOk result (IsIdle (read_job job.now) (read_task task.new)) }
        ensures segment { IfOk result (λ m. IfSome m.segment (λ s. LastSteps (knows self.now) (read_task task.new) (read_segment s))) }
        ensures child { IfOk result (λ m. HasChild (read_job job.now) (read_task task.new) m.halt) }
    {
        let halt = task.run(alloc, job, quantum)?;
        let segment = task.segment(worker);
        Ok(Made { halt, segment })
    }
}
