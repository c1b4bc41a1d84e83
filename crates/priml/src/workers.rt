//! The run of a job on workers, as the layer of runs.
ghost use Rattle.std.specs.Prelude.{◌≡◌, ◌<◌, length, map, IfOk, IfErr};
ghost use Rattle.std.specs.List.{All};
ghost use Rattle.priml_syntax.specs.Read.{read_record};
ghost use Rattle.priml_syntax.specs.declared.record.Record.{Record as TheRecord};
ghost use Rattle.core_steps.specs.Laws.{HasGraph};
ghost use Rattle.core_steps.specs.Moves.{read_job};
ghost use Rattle.cost_graph.specs.Records.{parts_in, AreFinished};
ghost use Rattle.steal_runtime.specs.Runs.{IsRun};
ghost use Rattle.priml.specs.Layers as the;
ghost use Rattle.priml.specs.Inside.Reply.{Hands, IsTeam};

use crate::refusal::{Stop, too_many_steps};
use core_steps::job_is_checked;
use priml_syntax::Records;
use std::alloc::Global;
use std::sync::Wait;
use std::thread::Threads;
use steal_runtime::{Gate, RunStop, run_job};
use trace_book::Book;
use type_rules::Job;

/// The records of the run of a job on so many workers, in turns of at most `quantum` steps, which has at most so many steps, and its book.
pub fn run_on_workers<R: Threads + Wait + Sync, G: Gate>(
    rt: &R,
    alloc: Global,
    job: &Job,
    workers: u32,
    quantum: u32,
    most: u64,
    gate: &G,
) -> Result<(Records, Book), Stop>
    requires { IsTeam workers quantum most }
    ensures records { Hands (the.run (read_job job.now) most) (λ x. map read_record x.0) result }
    ensures run { IfOk result (λ x. IsRun (read_job job.now) workers quantum most x.1) }
    ensures declared { IfOk result (λ x. All (λ (r : TheRecord). r.prio < length (read_job job.now).program.names) x.0) }
    ensures graph { IfOk result (λ x. HasGraph (read_job job.now) (map read_record x.0)) }
    ensures finished { IfOk result (λ x. AreFinished (parts_in x.0)) }
{
    job_is_checked(job);
    match run_job(rt, alloc, job, workers, quantum, most, gate) {
        Ok(book) => {
            let records = records_of(alloc, job, &book, workers, quantum, most)?;
            Ok((records, book))
        }
        Err(RunStop::StepLimit(_)) => Err(Stop::Refused(too_many_steps())),
        Err(RunStop::OutOfMemory) => Err(Stop::OutOfMemory),
    }
}

// The records of the book of a whole run. The only error is want of memory.
fn records_of(
    alloc: Global,
    _job: &Job,
    book: &Book,
    _workers: u32,
    _quantum: u32,
    _most: u64,
) -> Result<Records, Stop>
    requires { IsRun (read_job _job.now) _workers _quantum _most book.now }
    ensures records { IfOk result (λ r. (the.run (read_job _job.now) _most).makes (map read_record r)) }
    ensures memory { IfErr result (λ e. e ≡ Stop.OutOfMemory) }
{
    match book.records(alloc) {
        Ok(Some(records)) => Ok(records),
        Ok(None) => unreachable!(),
        Err(_) => Err(Stop::OutOfMemory),
    }
}
