//! The board is closed: all seats are joined, and the logs become a book.
ghost use Rattle.std.specs.Prelude.{◌≡◌, ◌+◌, ◌<◌, ◌-◌, [], vec_len};
ghost use Rattle.task_state.specs.Sums.{total};
ghost use Rattle.join_board.specs.Logs.{Each};
ghost use Rattle.join_board.specs.Inside.Views.{left, right, both};
ghost use Rattle.join_board.specs.Handles.{about, knows, IsSeatOf};
ghost use Rattle.join_board.specs.Close.{Closes};
ghost use Rattle.join_board.specs.Inside.Close.{ClosesOne, Absorbed};

use crate::owned::{Board, BoardSeat};
use crate::rule::{Cuts, Glues, Place, Top};
use trace_book::Book;

/// The second seat's view goes to the first.
fn join(top: &Top, seat: &mut Place, other: Place)
    requires table { (seat.old.table_id ≡ top.now.table_id) × (other.table_id ≡ top.now.table_id) × (top.now.table_id.words ≡ 1072) }
    requires rests { (other.me.1 ≡ []) × (seat.old.me.0.hand.hand ≡ 0) × (other.me.0.hand.hand ≡ 0) × (0 < seat.old.me.0.seats) }
    ensures { (seat.new.table_id ≡ seat.old.table_id) × (seat.new.me ≡ (both seat.old.me.0 other.me.0, seat.old.me.1)) }
{
    top.join_seat::<Glues>(seat, other);
}

/// All seats' views go to the kept one.
fn gather(top: &Top, kept: &mut Place, mut seats: Vec<BoardSeat>)
    requires table { (kept.old.table_id ≡ top.now.table_id) × (top.now.table_id.words ≡ 1072) }
    requires rests { (kept.old.me.1 ≡ []) × (kept.old.me.0.hand.hand ≡ 0) × (0 < kept.old.me.0.seats) }
    requires others { Each (λ s. s.seat.table_id ≡ top.now.table_id) seats.items }
    ensures table { kept.new.table_id ≡ top.now.table_id }
    ensures rests { (kept.new.me.1 ≡ []) × (kept.new.me.0.hand.hand ≡ 0)
        × (kept.new.me.0.seats ≡ kept.old.me.0.seats + total (λ s. (knows s).seats) seats.items) }
    ensures asked { kept.new.me.0.stop.asked_memory ≡ kept.old.me.0.stop.asked_memory + total (λ s. (knows s).stop.asked_memory) seats.items }
    ensures knows { Absorbed kept.old.me.0 kept.new.me.0 × Each (λ s. Absorbed (knows s) kept.new.me.0) seats.items }
{
    while let Some(other) = seats.pop() {
        let BoardSeat {
            seat,
            steps: _,
            uncounted: _,
        } = other;
        join(top, kept, seat);
    }
}

impl Board {
    /// The book of the board's logs, by all the board's seats, each once. Parked tasks are dropped. It takes no memory.
    pub fn close(self, mut seats: Vec<BoardSeat>) -> Book
        requires seats { Each (λ s. IsSeatOf self s) seats.items }
        requires all { (total (λ s. (knows s).seats) seats.items ≡ (about self).opened) × (0 < vec_len seats) }
        ensures { Closes (about self) seats.items result }
    {
        let Some(first) = seats.pop() else {
            unreachable!()
        };
        let BoardSeat {
            seat: mut kept,
            steps: _,
            uncounted: _,
        } = first;
        gather(&self.table.shared, &mut kept, seats);
        self.close_one(kept)
    }

    /// A new seat takes over one of those that the seat stands for.
    pub(crate) fn split(&self, seat: &mut BoardSeat) -> BoardSeat
        requires seat { IsSeatOf self.now seat.old }
        requires more { ((knows seat.old).own ≡ 0) × (1 < (knows seat.old).seats) }
        ensures seat { IsSeatOf self.now seat.new × (knows seat.new ≡ left (knows seat.old)) }
        ensures other { IsSeatOf self.now result × (knows result ≡ right (knows seat.old)) }
    {
        BoardSeat {
            seat: self.table.shared.split_seat::<Cuts>(&mut seat.seat),
            steps: 0,
            uncounted: 0,
        }
    }

    /// The book of the logs at home, which are all.
    fn close_one(self, seat: Place) -> Book
        requires table { seat.table_id ≡ self.table.shared.table_id }
        requires all { (seat.me.0.hand.hand ≡ 0) × (seat.me.0.seats ≡ (about self).opened) }
        ensures { ClosesOne (about self) seat.me.0 result }
    {
        let Board { table, mut room } = self;
        let mut closed = table.close_with(seat);
        for i in 0..64 {
            room.push_reserved(closed.take(i).unwrap().into_logs());
        }
        closed.free();
        Book::of_shards(room)
    }
}
