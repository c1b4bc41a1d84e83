//! A worker.
ghost use Rattle.std.specs.Prelude.{◌≡◌, ◌<◌, true};
ghost use Rattle.steal_runtime.specs.Inside.Seats.{Leaves, Serves, Sits};

use crate::gate::Gate;
use crate::nap::idle;
use crate::parts::{Left, Part};
use crate::seat::{all_ended, is_stopped, stop_for_memory};
use crate::turn::turn;
use join_board::Board;
use priority_deques::Lanes;
use std::sync::Wait;
use std::sync::atomic::AtomicU64;
use type_rules::Job;

/// Takes tasks and runs them, until every thread has ended or the run is stopped.
pub(crate) fn work<R: Wait, L: Lanes, G: Gate>(
    rt: &R,
    board: &Board,
    job: &Job,
    gate: &G,
    bed: &AtomicU64,
    part: Part<L>,
) -> Left
    requires ready { Sits board.now part.seat × Serves board.now job.now part.duty }
    requires lanes { L.job part.end ≡ job.now }
    ensures { Leaves board.now result }
{
    let Part {
        duty,
        mut end,
        mut seat,
    } = part;
    let mut turns: u32 = 0;
    for _ in rt.forever() {
        if is_stopped(board, &mut seat) {
            break;
        }
        match end.take(rt) {
            Some(pick) => {
                turns = 0;
                gate.turn(duty.worker, pick.task.path());
                if turn(rt, duty, board, &mut seat, job, &mut end, pick.task).is_err() {
                    stop_for_memory(board, &mut seat);
                    break;
                }
            }
            None => {
                if all_ended(board, &mut seat) {
                    return Left { seat, over: true };
                }
                idle(rt, bed, turns);
                turns = turns.saturating_add(1);
            }
        }
    }
    Left { seat, over: false }
}
