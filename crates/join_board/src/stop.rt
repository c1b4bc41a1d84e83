//! The ends of all threads, the count of steps, and the stop.
ghost use Rattle.std.specs.Prelude.{◌≡◌, ◌<◌, ◌≤◌, ◌+◌, MatchBool};
ghost use Rattle.join_board.specs.Handles.{knows, IsSeatOf};
ghost use Rattle.join_board.specs.Calls.{SameSeat, NoWork};
ghost use Rattle.join_board.specs.Clauses.{MayAsk, Asked, Stopped};

use crate::moves::{add_spent, ask_limit, ask_memory, load_live, load_stop};
use crate::owned::{Board, BoardSeat};

/// Why a run is stopped before its end.
#[derive(Drop, Clone, Copy)]
pub enum StopCause {
    /// The steps exceed the limit.
    Limit,
    /// A worker wants memory.
    Memory,
}

impl BoardSeat {
    /// How many steps were published by this seat.
    pub fn steps(&self) -> u64
        ensures { result ≡ (knows self.now).own }
    {
        self.steps
    }
}

impl Board {
    /// Whether every thread has ended. False also while a seat stands within a commit.
    pub fn all_ended(&self, seat: &mut BoardSeat) -> bool
        requires seat { IsSeatOf self.now seat.old }
        ensures seat { IsSeatOf self.now seat.new × SameSeat (knows seat.old) (knows seat.new) × NoWork (knows seat.old) (knows seat.new) }
        ensures found { MatchBool result (0 < (knows seat.new).live.over) ((knows seat.new).live.alive ≡ (knows seat.old).live.alive + 1) }
    {
        load_live(&self.table.shared, &mut seat.seat)
    }

    /// Adds the seat's uncounted steps to the total of the board, and tells the total.
    pub fn count(&self, seat: &mut BoardSeat) -> u64
        requires seat { IsSeatOf self.now seat.old }
        ensures seat { IsSeatOf self.now seat.new × SameSeat (knows seat.old) (knows seat.new) }
        ensures counted { ((knows seat.new).uncounted ≡ 0) × ((knows seat.new).own ≡ (knows seat.old).own) × ((knows seat.new).keys ≡ (knows seat.old).keys) }
        ensures greatest { (result ≡ (knows seat.new).stop.most) × ((knows seat.old).stop.most ≤ result) }
    {
        let found = add_spent(&self.table.shared, &mut seat.seat, seat.uncounted);
        let total = found + seat.uncounted;
        seat.uncounted = 0;
        total
    }

    /// Asks that the run stop, for Limit only after a count above the limit. The first cause stands.
    pub fn ask_stop(&self, seat: &mut BoardSeat, why: StopCause)
        requires seat { IsSeatOf self.now seat.old }
        requires cause { MayAsk (knows seat.old) why }
        ensures seat { IsSeatOf self.now seat.new × SameSeat (knows seat.old) (knows seat.new) × NoWork (knows seat.old) (knows seat.new) }
        ensures asked { Asked why (knows seat.new) }
    {
        match why {
            StopCause::Limit => ask_limit(&self.table.shared, &mut seat.seat),
            StopCause::Memory => ask_memory(&self.table.shared, &mut seat.seat),
        }
    }

    /// Why the run is to stop, where a seat has asked for it.
    pub fn stopped(&self, seat: &mut BoardSeat) -> Option<StopCause>
        requires seat { IsSeatOf self.now seat.old }
        ensures seat { IsSeatOf self.now seat.new × SameSeat (knows seat.old) (knows seat.new) × NoWork (knows seat.old) (knows seat.new) }
        ensures found { Stopped (knows seat.old) result (knows seat.new) }
    {
        let found = load_stop(&self.table.shared, &mut seat.seat);
        if found == 0 {
            None
        } else if found == 1 {
            Some(StopCause::Limit)
        } else {
            Some(StopCause::Memory)
        }
    }
}
