//! The single steps of a worker at its seat.
ghost use Rattle.std.specs.Prelude.{◌≡◌, ◌<◌, true};
ghost use Rattle.join_board.specs.Handles.{about, knows};
ghost use Rattle.steal_runtime.specs.Inside.Seats.{Sits, Stays};

use join_board::{Board, BoardSeat, StopCause};

/// Whether every thread has ended.
pub(crate) fn all_ended(board: &Board, seat: &mut BoardSeat) -> bool
    requires { Sits board.now seat.old }
    ensures seat { Stays board.now seat.old seat.new }
    ensures over { result ≡ true → 0 < (knows seat.new).live.over }
{
    board.all_ended(seat)
}

/// Whether a worker has asked for a stop.
pub(crate) fn is_stopped(board: &Board, seat: &mut BoardSeat) -> bool
    requires { Sits board.now seat.old }
    ensures { Stays board.now seat.old seat.new }
{
    board.stopped(seat).is_some()
}

/// Asks for a stop, since memory is wanting.
pub(crate) fn stop_for_memory(board: &Board, seat: &mut BoardSeat)
    requires { Sits board.now seat.old }
    ensures { Stays board.now seat.old seat.new }
{
    board.ask_stop(seat, StopCause::Memory);
}

/// Counts the steps that the worker has published, and asks for a stop where all steps exceed the limit.
pub(crate) fn count(board: &Board, seat: &mut BoardSeat, limit: u64)
    requires seat { Sits board.now seat.old }
    requires limit { (about board.now).limit ≡ limit }
    ensures { Stays board.now seat.old seat.new }
{
    if board.count(seat) > limit {
        board.ask_stop(seat, StopCause::Limit);
    }
}
