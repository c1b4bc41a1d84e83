//! Steps of a thread are published.
ghost use Rattle.std.specs.Prelude.{◌≡◌, ◌+◌, ◌<◌, ◌∷◌, [], false, cond, length, None, is_some};
ghost use Rattle.priml_syntax.specs.Events.{spawns, ends};
ghost use Rattle.trace_book.specs.Segments.{read_segment};
ghost use Rattle.task_state.specs.Tasks.{most_steps};
ghost use Rattle.join_board.specs.Threads.{is_spawn, spawned_last};
ghost use Rattle.join_board.specs.Inside.Views.{ahead_view, settled_view};
ghost use Rattle.join_board.specs.Inside.Plays.{Grew_by};
ghost use Rattle.join_board.specs.Handles.{knows, IsSeatOf};
ghost use Rattle.join_board.specs.Calls.{CanCommit, Committed, IsFull, SameSeat};

use crate::moves::{add_live, give, give_back, sub_live, take};
use crate::owned::{Board, BoardSeat};
use crate::rule::{Place, Top};
use crate::shard::{Shard, shard_of};
use priml_syntax::Event;
use std::alloc::Global;
use task_state::{MOST_STEPS, Task};
use trace_book::Segment;

/// What became of a segment.
#[derive(Drop)]
pub enum Commit {
    /// It was appended. These tasks were parked on the thread, where it ended; else none.
    Done(Vec<Task>),
    /// The seat's own steps and the segment's would be more than 2^59. Decided first, with no step on the board.
    Full(Segment),
    /// Another seat has the thread's shard.
    Busy(Segment),
    /// The thread's log has another length than the segment's `from`, or there is no log: then 0.
    Stale(Segment, u64),
    /// Want of memory.
    OutOfMemory(Segment),
}

// Whether the last event is a Spawn.
fn spawns_last(events: &[Event]) -> bool
    ensures { result ≡ spawned_last events.now }
{
    match events.last() {
        Some(event) => is_spawn(event),
        None => false,
    }
}

fn is_spawn(event: &Event) -> bool
    ensures { result ≡ is_spawn event.now }
{
    matches!(event, Event::Spawn)
}

// The shard is given back. The count of live threads goes up before it, and down after it.
fn settle(top: &Top, seat: &mut Place, shard: usize, value: Shard, spawn: bool, end: bool)
    requires table { (seat.old.table_id ≡ top.now.table_id) × (top.now.table_id.words ≡ 1072) × (top.now.table_id.slots ≡ 64) × (shard < 64) }
    requires holds { (seat.old.me.1 ≡ (shard, None) ∷ []) × (seat.old.me.0.hand.hand ≡ shard + 1) × (seat.old.me.0.live.ahead ≡ 0)
        × (seat.old.me.0.live.behind ≡ 0) × (0 < seat.old.me.0.seats) }
    requires grew { (g : Grew_by (ahead_view seat.old.me.0 (cond spawn 1 0)) shard value)
        × (spawns g.segment.events ≡ cond spawn 1 0) × (ends g.segment.events ≡ cond end 1 0) }
    ensures same { seat.new.table_id ≡ seat.old.table_id }
    ensures settled { seat.new.me ≡ (settled_view seat.old.me.0 value, []) }
{
    add_live(top, seat, spawn);
    give(top, seat, shard, value);
    sub_live(top, seat, end);
}

impl Board {
    /// Appends the segment to its thread's log. The thread makes these steps from its state after `from` steps, and the seat has seen
    /// the end of each thread that they join. After each answer but Done nothing was appended, and the segment comes back.
    pub fn commit(&self, alloc: Global, seat: &mut BoardSeat, segment: Segment) -> Commit
        requires seat { IsSeatOf self.now seat.old }
        requires segment { CanCommit (knows seat.old) (read_segment segment) }
        ensures seat { IsSeatOf self.now seat.new × SameSeat (knows seat.old) (knows seat.new) }
        ensures answer { Committed (knows seat.old) (read_segment segment) result (knows seat.new) }
        ensures full { most_steps < (knows seat.old).own + length segment.events.items → IsFull result }
    {
        let length = segment.events.len() as u64;
        if length > MOST_STEPS || seat.steps > MOST_STEPS - length {
            return Commit::Full(segment);
        }
        let shard = shard_of(&segment.path);
        let Some(mut value) = take(&self.table.shared, &mut seat.seat, shard) else {
            return Commit::Busy(segment);
        };
        match value.find(&segment.path) {
            None => {
                give_back(&self.table.shared, &mut seat.seat, shard, value);
                Commit::Stale(segment, 0)
            }
            Some(i) => {
                let len = value.len_at(i) as u64;
                if len != segment.from {
                    give_back(&self.table.shared, &mut seat.seat, shard, value);
                    return Commit::Stale(segment, len);
                }
                let spawn = spawns_last(&segment.events);
                let end = segment.outcome.is_some();
                match value.append(alloc, i, segment) {
                    Ok(tasks) => {
                        settle(&self.table.shared, &mut seat.seat, shard, value, spawn, end);
                        seat.steps += length;
                        seat.uncounted += length;
                        Commit::Done(tasks)
                    }
                    Err(segment) => {
                        give_back(&self.table.shared, &mut seat.seat, shard, value);
                        Commit::OutOfMemory(segment)
                    }
                }
            }
        }
    }
}
