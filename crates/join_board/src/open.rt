//! The table, and what it begins with.
ghost use Rattle.std.specs.Prelude.{◌≡◌, ◌<◌, ◌≤◌, [], ◌∷◌, Some, IfOk, OnOk, List, length, map, replicate};
ghost use Rattle.core_steps.specs.Fields.{read_local};
ghost use Rattle.core_steps.specs.Moves.{read_job};
ghost use Rattle.join_board.specs.Entries.{Entry};
ghost use Rattle.join_board.specs.Jobs.{the_job};
ghost use Rattle.join_board.specs.Inside.Openings.{FirstShards, IsRooted};
ghost use Rattle.join_board.specs.Threads.{PrioOf};
ghost use Rattle.join_board.specs.Views.{newcomer};
ghost use Rattle.join_board.specs.Handles.{about, knows, IsSeatOf};

use crate::owned::{Board, BoardSeat};
use crate::shard::{Shard, shard_of};
use crate::view::About;
use atomic_table::Table;
use core_steps::Local;
use priml_syntax::Path;
use std::alloc::{AllocError, Global};
use std::snapshot::Snapshot;
use type_rules::Job;

/// 64 shards without entry.
fn empty_shards(alloc: Global) -> Result<Vec<Shard>, AllocError>
    ensures { IfOk result (λ v. v.items ≡ replicate 64 []) }
{
    let mut shards = Vec::new(alloc);
    for _ in 0..64usize {
        shards.push(Shard::new(alloc))?;
    }
    Ok(shards)
}

/// The priority of the k-th root.
fn root_priority(alloc: Global, job: &Job, k: u32) -> Result<u32, AllocError>
    requires { k < length (read_job job.now).program.mains }
    ensures { IfOk result (λ a. PrioOf (read_job job.now) (k ∷ []) a) }
{
    let local = Local::root_at(alloc, job, k)?;
    Ok(priority_of(local))
}

fn priority_of(local: Local) -> u32
    ensures { result ≡ (read_local local).prio }
{
    local.priority()
}

/// The k-th root gets an entry.
fn enroll_root(shards: &mut Vec<Shard>, alloc: Global, job: &Job, k: u32) -> Result<(), AllocError>
    requires root { k < length (read_job job.now).program.mains }
    requires deep { length shards.old.items ≡ 64 }
    ensures { OnOk result (IsRooted (read_job job.now) k shards.old.items shards.new.items) }
{
    let prio = root_priority(alloc, job, k)?;
    let path = Path::root_at(alloc, k)?;
    let shard = shard_of(&path);
    shards[shard].enroll(alloc, path, prio)
}

/// The shards at the start, with an entry for each root.
fn first_shards(alloc: Global, job: &Job, about: &About) -> Result<Vec<Shard>, AllocError>
    requires { the_job about.now ≡ read_job job.now }
    ensures { IfOk result (λ v. FirstShards about.now v.items) }
{
    let mut shards = empty_shards(alloc)?;
    for k in 0..job.roots() {
        enroll_root(&mut shards, alloc, job, k)?;
    }
    Ok(shards)
}

/// Each shard in a slot.
fn in_slots(alloc: Global, shards: Vec<Shard>) -> Result<Vec<Option<Shard>>, AllocError>
    ensures { IfOk result (λ v. v.items ≡ map (λ (x : List Entry). Some x) shards.items) }
{
    let mut slots = Vec::new(alloc);
    for shard in shards {
        slots.push(Some(shard))?;
    }
    Ok(slots)
}

impl Board {
    /// The roots are enrolled, and the seat stands for all seats.
    pub(crate) fn open(
        alloc: Global,
        job: &Job,
        seats: u32,
        quantum: u32,
        limit: u64,
    ) -> Result<(Board, BoardSeat), AllocError>
        requires seats { (0 < seats) × (seats ≤ 16) }
        ensures seat { IfOk result (λ b. IsSeatOf b.0 b.1 × (knows b.1 ≡ newcomer (about b.0))) }
        ensures about { IfOk result (λ b. (the_job (about b.0) ≡ read_job job.now) × ((about b.0).opened ≡ seats)
            × ((about b.0).quantum ≡ quantum) × ((about b.0).limit ≡ limit)) }
    {
        let room = Vec::with_capacity(alloc, 64)?;
        let about = About {
            job: Some(Snapshot::of(job)),
            quantum,
            opened: seats,
            limit,
        };
        let shards = first_shards(alloc, job, &about)?;
        let slots = in_slots(alloc, shards)?;
        let mut words = [0; 1072];
        words[0] = job.roots() as u64;
        match Table::new(alloc, &words, slots, &about) {
            Ok((table, seat)) => Ok((
                Board { table, room },
                BoardSeat {
                    seat,
                    steps: 0,
                    uncounted: 0,
                },
            )),
            Err(_) => Err(AllocError),
        }
    }
}
