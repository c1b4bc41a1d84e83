//! The serial meaning of a job, by the threads that have not ended.

ghost use Rattle.std.specs.Prelude.{◌≡◌, ◌<◌, ◌≤◌, ◌^◌, ◌+◌, ◌++◌, [], ◌∷◌, ℕ, map, length, IfOk, OnOk, Err};
ghost use Rattle.std.specs.List.{All};
ghost use Rattle.std.specs.Vec.{vec_len};
ghost use Rattle.priml_syntax.specs.Read.{read_record};
ghost use Rattle.priml_syntax.specs.Limits.{most_parts, most_children};
ghost use Rattle.serial_meaning.specs.declared.serial.MeaningStop.TheVariants.{OutOfMemory};
ghost use Rattle.priml_syntax.specs.declared.record.Record.{Record as TheRecord};
ghost use Rattle.cost_graph.specs.Records.{AreFinished, parts_in};
ghost use Rattle.core_steps.specs.Configs.{Advances, IsConfig, slots_of};
ghost use Rattle.core_steps.specs.Laws.{HasGraph};
ghost use Rattle.core_steps.specs.Meaning.{meaning as the_meaning, Finished, Over};
ghost use Rattle.core_steps.specs.Moves.{read_job};
ghost use Rattle.serial_meaning.specs.Inside.Serial.{Serial, GoesOnAt, MaySpawn, left_of, roots_below};

use core_steps::{Config, CoreStop, job_is_checked};
use priml_syntax::{Event, Path, PathStop, Records};
use std::alloc::{AllocError, Global};
use type_rules::Job;

/// Why there is no meaning within the limit.
#[derive(Debug, Drop)]
pub enum MeaningStop {
    /// The work exceeds the limit.
    Over,
    /// Want of memory.
    OutOfMemory,
}

// A thread that has not ended, and how many threads it has spawned.
#[derive(Drop)]
pub(crate) struct Active {
    path: Path,
    children: u32,
}

/// The records of the serial meaning of a job, whose priorities are declared and whose graph has no cycle and is well formed. Below a
/// limit of 2^32 they are what `Graph::of_records` asks for. `Over` comes exactly where the work exceeds the limit.
pub fn meaning(alloc: Global, job: &Job, limit: u64) -> Result<Records, MeaningStop>
    ensures ok { IfOk result (λ r. the_meaning (read_job job.now) limit ≡ Finished (map read_record r)) }
    ensures over { result ≡ Err MeaningStop.Over → the_meaning (read_job job.now) limit ≡ Over }
    ensures declared { IfOk result (All (λ (r : TheRecord). r.prio < length (read_job job.now).program.names)) }
    ensures graph { IfOk result (λ r. HasGraph (read_job job.now) (map read_record r)) }
    ensures finished { limit < 2 ^ 32 → IfOk result (λ r. AreFinished (parts_in r)) }
{
    job_is_checked(job);
    let mut config = Config::start(alloc, job)?;
    let mut active = roots(alloc, job)?;
    run(&mut config, &mut active, alloc, job, limit)?;
    match config.into_records(alloc)? {
        Some(records) => Ok(records),
        None => unreachable!(),
    }
}

// The roots, the first of them the last of the list.
fn roots(alloc: Global, job: &Job) -> Result<Vec<Active>, AllocError>
    ensures { IfOk result (λ v. v.items ≡ roots_below (length (read_job job.now).program.mains)) }
{
    let mut active = Vec::new(alloc);
    let mut left = job.roots();
    'roots: while left > 0 {
        left -= 1;
        let path = Path::root_at(alloc, left)?;
        active.push(Active { path, children: 0 })?;
    }
    Ok(active)
}

// Steps of the thread that none which has not ended comes before, until all have ended.
fn run(
    config: &mut Config,
    active: &mut Vec<Active>,
    alloc: Global,
    job: &Job,
    limit: u64,
) -> Result<(), MeaningStop>
    requires config { IsConfig (read_job job.now) config.old }
    requires serial { Serial (read_job job.now) 0 (slots_of config.old) active.old.items }
    ensures config { IsConfig (read_job job.now) config.new }
    ensures done { OnOk result ((n : ℕ) × (n ≤ limit) × Serial (read_job job.now) n (slots_of config.new) []) }
    ensures over { result ≡ Err MeaningStop.Over → the_meaning (read_job job.now) limit ≡ Over }
{
    job_is_checked(job);
    let mut steps: u64 = 0;
    'steps: while active.len() > 0 {
        if steps >= limit {
            return Err(MeaningStop::Over);
        }
        step(config, active, alloc, job)?;
        steps += 1;
    }
    Ok(())
}

// One step of that thread, the last of the list.
fn step(
    config: &mut Config,
    active: &mut Vec<Active>,
    alloc: Global,
    job: &Job,
) -> Result<(), AllocError>
    requires config { IsConfig (read_job job.now) config.old }
    requires serial { (n : ℕ) × Serial (read_job job.now) n (slots_of config.old) active.old.items }
    requires some { 0 < vec_len active.old }
    ensures config { IsConfig (read_job job.now) config.new }
    ensures serial { OnOk result ((n : ℕ) → Serial (read_job job.now) n (slots_of config.old) active.old.items →
        Serial (read_job job.now) (n + 1) (slots_of config.new) active.new.items) }
{
    match active.pop() {
        Some(top) => {
            let event = advance(config, alloc, job, &top.path)?;
            put_back(active, alloc, top, event)
        }
        None => unreachable!(),
    }
}

// A step of a thread that has not ended and waits on none.
fn advance(config: &mut Config, alloc: Global, job: &Job, path: &Path) -> Result<Event, AllocError>
    requires config { IsConfig (read_job job.now) config.old }
    requires goes { GoesOnAt (read_job job.now) (slots_of config.old) path.now }
    ensures goes { IfOk result (λ e. Advances (read_job job.now) (slots_of config.old) path.now e (slots_of config.new)) }
    ensures config { IsConfig (read_job job.now) config.new }
{
    match config.advance(alloc, job, path) {
        Ok(event) => Ok(event),
        Err(CoreStop::OutOfMemory) => Err(AllocError),
        Err(CoreStop::NoThread) => unreachable!(),
        Err(CoreStop::Ended) => unreachable!(),
        Err(CoreStop::Waits(_)) => unreachable!(),
    }
}

// What a thread's step leaves to be run: the thread, where it has not ended, and behind it its new child.
fn put_back(
    active: &mut Vec<Active>,
    alloc: Global,
    top: Active,
    event: Event,
) -> Result<(), AllocError>
    requires { MaySpawn top event }
    ensures { OnOk result (active.new.items ≡ active.old.items ++ left_of top event) }
{
    match event {
        Event::End => Ok(()),
        Event::Spawn => put_both(active, alloc, top),
        Event::Start => Ok(active.push(top)?),
        Event::Plain => Ok(active.push(top)?),
        Event::Join(_) => Ok(active.push(top)?),
        Event::Read => Ok(active.push(top)?),
        Event::Wrote(_) => Ok(active.push(top)?),
    }
}

// The thread and its next child.
fn put_both(active: &mut Vec<Active>, alloc: Global, top: Active) -> Result<(), AllocError>
    requires deep { length top.path < most_parts }
    requires many { top.children < most_children }
    ensures { OnOk result (active.new.items ≡ active.old.items ++ left_of top Event.Spawn) }
{
    let path = child_of(alloc, &top.path, top.children)?;
    active.push(Active {
        path: top.path,
        children: top.children + 1,
    })?;
    Ok(active.push(Active { path, children: 0 })?)
}

// The path of a child of a thread that may spawn.
fn child_of(alloc: Global, path: &Path, k: u32) -> Result<Path, AllocError>
    requires { length path.now < most_parts }
    ensures { IfOk result (λ p. p ≡ path.now ++ k ∷ []) }
{
    match path.child(alloc, k) {
        Ok(child) => Ok(child),
        Err(PathStop::OutOfMemory) => Err(AllocError),
        Err(PathStop::TooDeep) => unreachable!(),
    }
}

impl From<AllocError> for MeaningStop {
    ghost from_gives = { λ _ stop. stop ≡ OutOfMemory };

    fn from(_: AllocError) -> MeaningStop {
        MeaningStop::OutOfMemory
    }
}
