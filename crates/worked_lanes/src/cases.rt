//! The worked case of lanes: in both forms, and in the stealing form by the calls without a runtime too.
ghost use Rattle.std.specs.Prelude.{◌≡◌, IfOk, length};
ghost use Rattle.std.specs.List.{All};
ghost use Rattle.core_steps.specs.Moves.{read_job as the_job};
ghost use Rattle.task_state.specs.Tasks.{read_task};
ghost use Rattle.priority_deques.specs.EndBooks.{steal_job};
ghost use Rattle.priority_deques.specs.Tasks.{IsAtRest};

use crate::tasks::{push, root_of, spawn};
use priority_deques::{Lanes, Pick, SharedLanes, StealEnd, StealLanes};
use std::alloc::Global;
use std::sync::Wait;
use std::test::Fail;
use task_state::Task;
use type_rules::Job;
use worked_jobs::leaves;

/// What a pick tells: its lane, and the length of its thread's path.
type Found = Option<(u32, usize)>;

/// The root's task, of ui.
const ROOT: Found = Some((0, 1));

/// The task of its child, of bg.
const CHILD: Found = Some((1, 2));

/// A task of the root's child.
fn child_of(alloc: Global, job: &Job) -> Result<Task, Fail>
    ensures { IfOk result (λ t. IsAtRest (the_job job.now) (read_task t)) }
{
    let mut root = root_of(alloc, job)?;
    match spawn(alloc, job, &mut root)? {
        Some(child) => Ok(child),
        None => Err(Fail::new("no child")),
    }
}

fn found(pick: Option<Pick>) -> Found {
    match pick {
        Some(pick) => Some((pick.lane, pick.task.path().parts().len())),
        None => None,
    }
}

/// Puts the task into the lanes.
#[tactic(auto, using(crate::proofs::Rests::rests_as))]
fn put<R: Wait, L: Lanes>(rt: &R, _job: &Job, end: &mut L, task: Task) -> Result<(), Fail>
    requires job { L.job end.old ≡ _job.now }
    requires task { IsAtRest (the_job _job.now) (read_task task) }
    ensures { L.job end.new ≡ _job.now }
{
    match end.put(rt, task) {
        Ok(()) => Ok(()),
        Err(_) => Err(Fail::new("refused")),
    }
}

/// Puts the root's task into the lanes.
fn put_root<R: Wait, L: Lanes>(rt: &R, alloc: Global, job: &Job, end: &mut L) -> Result<(), Fail>
    requires { L.job end.old ≡ job.now }
    ensures { L.job end.new ≡ job.now }
{
    put(rt, job, end, root_of(alloc, job)?)
}

/// Puts the task of its child into the lanes.
fn put_child<R: Wait, L: Lanes>(rt: &R, alloc: Global, job: &Job, end: &mut L) -> Result<(), Fail>
    requires { L.job end.old ≡ job.now }
    ensures { L.job end.new ≡ job.now }
{
    put(rt, job, end, child_of(alloc, job)?)
}

/// Takes tasks from the lanes, which must be these.
fn gives<R: Wait, L: Lanes>(rt: &R, end: &mut L, wanted: &[Found]) -> Result<(), Fail>
    ensures { L.job end.new ≡ L.job end.old }
{
    for task in wanted {
        if found(end.take(rt)) != *task {
            return Err(Fail::new("another task"));
        }
    }
    Ok(())
}

/// The worked case over two ends.
fn worked_case<R: Wait, L: Lanes>(
    rt: &R,
    alloc: Global,
    job: &Job,
    ends: &mut [L],
) -> Result<(), Fail>
    requires count { length ends.old ≡ 2 }
    requires jobs { All (λ e. L.job e ≡ job.now) ends.old }
{
    let (a, b) = ends.split_at_mut(1);
    let (a, b) = (&mut a[0], &mut b[0]);
    put_root(rt, alloc, job, a)?;
    gives(rt, b, &[ROOT, None])?;
    put_child(rt, alloc, job, b)?;
    gives(rt, a, &[CHILD])?;
    put_child(rt, alloc, job, a)?;
    put_root(rt, alloc, job, b)?;
    gives(rt, b, &[ROOT, CHILD, None])
}

#[test]
fn shared_lanes(rt: HostRuntime) -> Result<(), Fail> {
    let alloc = rt.alloc();
    let job = leaves().job(alloc)?;
    let mut ends = SharedLanes::open(alloc, &job, 2)?;
    worked_case(&rt, alloc, &job, &mut ends)
}

#[test]
fn stealing_lanes(rt: HostRuntime) -> Result<(), Fail> {
    let alloc = rt.alloc();
    let job = leaves().job(alloc)?;
    let mut ends = StealLanes::open(alloc, &job, 2)?;
    worked_case(&rt, alloc, &job, &mut ends)
}

/// `put_root` without a runtime.
fn push_root(alloc: Global, job: &Job, end: &mut StealEnd) -> Result<(), Fail>
    requires { steal_job end.old ≡ job.now }
    ensures { steal_job end.new ≡ job.now }
{
    push(job, end, root_of(alloc, job)?)?;
    Ok(())
}

/// `put_child` without a runtime.
fn push_child(alloc: Global, job: &Job, end: &mut StealEnd) -> Result<(), Fail>
    requires { steal_job end.old ≡ job.now }
    ensures { steal_job end.new ≡ job.now }
{
    push(job, end, child_of(alloc, job)?)?;
    Ok(())
}

/// `gives` without a runtime.
fn gives_at_once(end: &mut StealEnd, wanted: &[Found]) -> Result<(), Fail>
    ensures { steal_job end.new ≡ steal_job end.old }
{
    for task in wanted {
        if found(end.take_task()) != *task {
            return Err(Fail::new("another task"));
        }
    }
    Ok(())
}

/// `worked_case` without a runtime.
fn worked_at_once(alloc: Global, job: &Job, ends: &mut [StealEnd]) -> Result<(), Fail>
    requires count { length ends.old ≡ 2 }
    requires jobs { All (λ e. steal_job e ≡ job.now) ends.old }
{
    let (a, b) = ends.split_at_mut(1);
    let (a, b) = (&mut a[0], &mut b[0]);
    push_root(alloc, job, a)?;
    gives_at_once(b, &[ROOT, None])?;
    push_child(alloc, job, b)?;
    gives_at_once(a, &[CHILD])?;
    push_child(alloc, job, a)?;
    push_root(alloc, job, b)?;
    gives_at_once(b, &[ROOT, CHILD, None])
}

#[test]
fn stealing_lanes_at_once(rt: HostRuntime) -> Result<(), Fail> {
    let alloc = rt.alloc();
    let job = leaves().job(alloc)?;
    let mut ends = StealLanes::open(alloc, &job, 2)?;
    worked_at_once(alloc, &job, &mut ends)
}
