//! The lane of each priority.
ghost use Rattle.std.specs.Prelude.{◌≡◌, ◌<◌, ◌≤◌, IfOk};
ghost use Rattle.core_steps.specs.Moves.{read_job};
ghost use Rattle.task_state.specs.Tasks.{read_task};
ghost use Rattle.priority_order.specs.Order.{most_names};
ghost use Rattle.priority_deques.specs.Ends.{lane_count};
ghost use Rattle.priority_deques.specs.Tasks.{IsAtRest, IsLaneOf};

use core_steps::job_is_checked;
use std::alloc::{AllocError, Global};
use std::marker::Model;
use std::snapshot::Snapshot;
use task_state::Task;
use type_rules::Job;

/// The lane of each priority of a job's program. Clauses see the job.
#[derive(Drop)]
pub struct LaneTable {
    job: Snapshot<Job>,
    lanes: Vec<u32>,
}

impl Model for LaneTable {
    ghost use Rattle.type_rules.specs.Jobs.{WithInputs};
    ghost use Rattle.priority_deques.specs.Codes.{job_code};
    ghost use Rattle.priority_deques.specs.Inside.Tables.{IsLaneTable};

    ghost Value = { WithInputs };

    ghost coded = { job_code };

    ghost view = { λ t. t.job.value };

    ghost invariant = { λ t. IsLaneTable t.job.value t.lanes.items };
}

impl LaneTable {
    /// The table of the job's order.
    pub fn of(alloc: Global, job: &Job) -> Result<LaneTable, AllocError>
        ensures { IfOk result (λ t. t ≡ job.now) }
    {
        job_is_checked(job);
        let order = job.order();
        let mut lanes = Vec::new(alloc);
        for priority in 0..order.count() {
            lanes.push(order.lane(priority))?;
        }
        Ok(LaneTable {
            job: Snapshot::of(job),
            lanes,
        })
    }

    /// How many lanes there are, at most 16.
    pub fn count(&self) -> u32
        ensures value { result ≡ lane_count self.now }
        ensures few { result ≤ most_names }
    {
        self.lanes.len() as u32
    }

    /// The lane of the task's priority.
    pub fn lane(&self, task: &Task) -> u32
        requires { IsAtRest (read_job self.now) (read_task task.now) }
        ensures is { IsLaneOf (read_job self.now) (read_task task.now).local.prio result }
        ensures within { result < lane_count self.now }
    {
        self.lanes[task.priority() as usize]
    }
}
