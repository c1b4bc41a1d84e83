//! Tasks, and what can be seen of them.
ghost use Rattle.std.specs.Prelude.{◌≡◌, IfOk, IfErr, length, slice_get, ◌<◌};
ghost use Rattle.std.specs.Option.{option_copied, option_map};
ghost use Rattle.core_steps.specs.Fields.{read_local, state_of};
ghost use Rattle.core_steps.specs.Locals.{IsLocal};
ghost use Rattle.core_steps.specs.Moves.{read_job};
ghost use Rattle.core_steps.specs.Steps.{Job as TheJob, root_state};
ghost use Rattle.task_state.specs.Tasks.{IsStart, awaited_of, awaits_in, begun, has_ended, read_task};

use core_steps::Local;
use priml_syntax::{Event, Outcome, Path};
use std::alloc::{AllocError, Global};
use type_rules::Job;

/// A thread that runs in turns. It stands for the state that its job determines after as many steps as it has made, and
/// keeps the steps since its last segment as pending ones.
#[derive(Drop)]
pub struct Task {
    /// In a box of its own, since tasks move often and it is the larger part.
    pub(crate) local: Box<Local>,
    /// What the steps since the last segment did.
    pub(crate) pending: Vec<Event>,
    /// The outcome that its next step takes.
    pub(crate) fed: Option<Outcome>,
    /// The variable whose thread its next step awaits.
    pub(crate) variable: Option<u32>,
    /// The path for the next segment, copied before the first of its steps.
    pub(crate) name: Option<Path>,
    /// Whether its outcome was handed out with its last segment.
    pub(crate) over: bool,
}

/// Why a run of a task came to its end.
#[derive(Drop)]
pub enum Halt {
    /// The last step ended the thread.
    Ended,
    /// The last step spawned this thread.
    Spawned(Task),
    /// The next step needs the outcome of another thread.
    Wants,
    /// All the steps were made that it was given.
    Spent,
}

impl Task {
    /// The task of the first root, not started.
    pub fn root(alloc: Global, job: &Job) -> Result<Task, AllocError>
        ensures start { IfOk result (λ t. IsStart (read_job job.now) (read_task t)) }
        ensures root { IfOk result (λ t. option_map (λ m. root_state m 0) (slice_get (read_job job.now).program.mains 0)
            ≡ state_of (read_job job.now).program (read_task t).local) }
    {
        Task::root_at(alloc, job, 0)
    }

    /// The task of the k-th root, from 0, not started.
    pub fn root_at(alloc: Global, job: &Job, k: u32) -> Result<Task, AllocError>
        requires { k < length (read_job job.now).program.mains }
        ensures start { IfOk result (λ t. IsStart (read_job job.now) (read_task t)) }
        ensures root { IfOk result (λ t. option_map (λ m. root_state m k) (slice_get (read_job job.now).program.mains k)
            ≡ state_of (read_job job.now).program (read_task t).local) }
    {
        let local = Local::root_at(alloc, job, k)?;
        begin(alloc, local)
    }

    /// The task of a thread that has not started. Where memory is wanting the thread comes back.
    pub fn of_start(alloc: Global, local: Local) -> Result<Task, (Local, AllocError)>
        requires { (read_local local).steps ≡ 0 }
        ensures ok { IfOk result (λ t. read_task t ≡ begun (read_local local)) }
        ensures start { IfOk result (λ t. (job : TheJob) → IsLocal job (read_local local) → IsStart job (read_task t)) }
        ensures handed_back { IfErr result (λ e. e.0 ≡ local) }
    {
        match Box::new(alloc, local) {
            Ok(local) => Ok(Task {
                local,
                pending: Vec::new(alloc),
                fed: None,
                variable: None,
                name: None,
                over: false,
            }),
            Err(failed) => Err((failed.value, AllocError)),
        }
    }

    /// The thread's path.
    pub fn path(&self) -> &Path
        ensures { result.now ≡ (read_task self.now).local.path }
    {
        self.local.path()
    }

    /// The number of the thread's priority.
    pub fn priority(&self) -> u32
        ensures { result ≡ (read_task self.now).local.prio }
    {
        self.local.priority()
    }

    /// How many steps the thread has made.
    pub fn steps(&self) -> u64
        ensures { result ≡ (read_task self.now).local.steps }
    {
        self.local.steps()
    }

    /// How many of them were made since the last segment.
    pub fn pending(&self) -> u64
        ensures { result ≡ length (read_task self.now).pending }
    {
        self.pending.len() as u64
    }

    /// The thread whose outcome the next step needs and which was not fed; else None.
    pub fn awaited(&self) -> Option<&Path>
        ensures { option_copied result ≡ awaited_of (read_task self.now) }
    {
        match &self.fed {
            Some(_) => None,
            None => self.next_awaited(),
        }
    }

    // The thread that the next step awaits.
    fn next_awaited(&self) -> Option<&Path>
        ensures { option_copied result ≡ awaits_in (read_task self.now) }
    {
        match self.variable {
            Some(x) => self.local.thread(x),
            None => None,
        }
    }

    /// Whether the thread has ended.
    pub fn ended(&self) -> bool
        ensures { result ≡ has_ended (read_task self.now) }
    {
        self.over || self.local.outcome().is_some()
    }
}

// The task of a thread that has not started, which is let go where memory is wanting.
pub(crate) fn begin(alloc: Global, local: Local) -> Result<Task, AllocError>
    requires { (read_local local).steps ≡ 0 }
    ensures ok { IfOk result (λ t. read_task t ≡ begun (read_local local)) }
    ensures start { IfOk result (λ t. (job : TheJob) → IsLocal job (read_local local) → IsStart job (read_task t)) }
{
    match Task::of_start(alloc, local) {
        Ok(task) => Ok(task),
        Err((_, error)) => Err(error),
    }
}
