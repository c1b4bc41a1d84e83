//! `run`: as `report`, where workers run the program.
ghost use Rattle.std.specs.Prelude.{◌≤◌};
ghost use Rattle.priml_io.specs.declared.words.Command.{Command};
ghost use Rattle.priml.specs.Commands.{Of};
ghost use Rattle.priml.specs.Inside.Reply.{IsTeam, Replies};

use crate::commands::report::planned;
use crate::prefixes::graphed_on_workers;
use crate::refusal::Stop;
use std::alloc::Global;
use std::sync::Wait;
use std::thread::Threads;
use steal_runtime::Gate;

/// Answers the report on the canonical plan on so many cores of a run of at most so many steps, by so many workers in turns of at
/// most `quantum` steps.
pub fn run<R: Threads + Wait + Sync, G: Gate>(
    rt: &R,
    alloc: Global,
    workers: u32,
    quantum: u32,
    cores: u32,
    most: u64,
    input: &[u8],
    gate: &G,
) -> Result<Vec<u8>, Stop>
    requires team { IsTeam workers quantum most }
    requires some { 1 ≤ cores }
    requires few { cores ≤ 1024 }
    ensures { Replies (Of (Command.Run workers quantum cores most) input.now) result }
{
    let (_, job, records, graph) = graphed_on_workers(
        rt, alloc, input, workers, quantum, most, gate,
    )?;
    planned(alloc, cores, job, records, graph)
}
