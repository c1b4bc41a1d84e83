//! `sample`: a run on workers of the program that is made of a number.
ghost use Rattle.std.specs.Prelude.{◌≡◌, ◌<◌, ◌≤◌, [], IfOk, IfErr};
ghost use Rattle.priml_syntax.specs.Tree.{Tree};
ghost use Rattle.core_steps.specs.Moves.{read_job};
ghost use Rattle.source_maker.specs.Text.{made_text};
ghost use Rattle.source_reader.specs.Stands.{Stands};
ghost use Rattle.type_rules.specs.Typable.{Typable};
ghost use Rattle.priml.specs.Commands.{Sampled};
ghost use Rattle.priml.specs.Inside.Reply.{IsTeam, Replies};
ghost use Rattle.priml.specs.Runs.{job_with};

use crate::graphs::{graph, plan};
use crate::layers::{done, source, typed};
use crate::refusal::Stop;
use crate::summary::summary;
use crate::workers::run_on_workers;
use priml_syntax::Inputs;
use source_maker::make;
use std::alloc::Global;
use std::mem::forget;
use std::sync::Wait;
use std::thread::Threads;
use steal_runtime::Gate;
use type_rules::Job;

/// Answers the line on the run of the program that is made of `size`, 1 to 5,000, by so many workers in turns of at most `quantum` steps: at most so many
/// steps, and the canonical plan on so many cores.
pub fn sample<R: Threads + Wait + Sync, G: Gate>(
    rt: &R,
    alloc: Global,
    size: u32,
    workers: u32,
    quantum: u32,
    cores: u32,
    most: u64,
    gate: &G,
) -> Result<Vec<u8>, Stop>
    requires size { (1 ≤ size) × (size ≤ 5000) }
    requires team { IsTeam workers quantum most }
    requires cores { 1 ≤ cores }
    ensures { Replies (Sampled size cores most) result }
{
    let job = made_job(alloc, size)?;
    let (records, book) = run_on_workers(rt, alloc, &job, workers, quantum, most, gate)?;
    forget(book);
    let graph = graph(alloc, &records)?;
    let schedule = plan(alloc, &graph, job.order(), cores)?;
    let text = summary(alloc, size, &records, &schedule);
    // as in `serial`
    forget(job);
    forget(records);
    forget(graph);
    done(text)
}

// The program that is made of the number, without inputs. The only error is want of memory.
fn made_job(alloc: Global, size: u32) -> Result<Job, Stop>
    requires { (1 ≤ size) × (size ≤ 5000) }
    ensures job { IfOk result (λ j. (p : Tree) × Stands (made_text size) p × Typable p × (read_job j ≡ job_with p [])) }
    ensures memory { IfErr result (λ e. e ≡ Stop.OutOfMemory) }
{
    let Ok(text) = make(alloc, size) else {
        return Err(Stop::OutOfMemory);
    };
    let program = source(alloc, &text)?;
    let checked = typed(alloc, program)?;
    Ok(Job::new(checked, Inputs::none(alloc)))
}
