//! The board is opened.
ghost use Rattle.std.specs.Prelude.{◌≡◌, ◌-◌, ◌<◌, ◌≤◌, IfOk, vec_len};
ghost use Rattle.core_steps.specs.Moves.{read_job};
ghost use Rattle.join_board.specs.Jobs.{the_job};
ghost use Rattle.join_board.specs.Logs.{Each};
ghost use Rattle.join_board.specs.Views.{opened_view};
ghost use Rattle.join_board.specs.Handles.{about, knows, IsSeatOf};

use crate::owned::{Board, BoardSeat};
use std::alloc::{AllocError, Global};
use type_rules::Job;

impl Board {
    /// A board of the job with as many seats, 1 to 16, which have seen nothing. Each root has an entry. The room for the book is taken here.
    pub fn new(
        alloc: Global,
        job: &Job,
        seats: u32,
        quantum: u32,
        limit: u64,
    ) -> Result<(Board, Vec<BoardSeat>), AllocError>
        requires seats { (0 < seats) × (seats ≤ 16) }
        ensures seats { IfOk result (λ b. (vec_len b.1 ≡ seats) × Each (λ s. IsSeatOf b.0 s × (knows s ≡ opened_view (about b.0) 1)) b.1.items) }
        ensures about { IfOk result (λ b. (the_job (about b.0) ≡ read_job job.now) × ((about b.0).opened ≡ seats)
            × ((about b.0).quantum ≡ quantum) × ((about b.0).limit ≡ limit)) }
    {
        let mut all = Vec::with_capacity(alloc, seats as usize)?;
        let (board, mut first) = Board::open(alloc, job, seats, quantum, limit)?;
        for i in 1..seats {
            let other = board.split(&mut first);
            all.push_reserved(other);
        }
        all.push_reserved(first);
        Ok((board, all))
    }
}
