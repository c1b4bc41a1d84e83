//! The ends that workers have of the lanes.
ghost use Rattle.priority_deques.specs.Ends.{IsEndOf};
ghost use Rattle.priority_deques.specs.Handles.{own_book, shared_book, their_book};
ghost use Rattle.priority_deques.specs.Parts.{end_books};
ghost use Rattle.priority_deques.specs.Inside.Props.{end_prop};

use crate::handles::{OwnDeque, SharedDeque, TheirDeque};
use crate::parts::LaneDeques;
use crate::table::LaneTable;

/// What one worker has of lanes that are one queue each.
#[derive(Drop)]
pub struct SharedEnd {
    pub(crate) table: LaneTable,
    pub(crate) lanes: Vec<LaneDeques<SharedDeque, SharedDeque>>,
    ghost end: { IsEndOf table (end_books shared_book shared_book lanes.items) } by { end_prop _ _ },
}

/// What one worker has of lanes that are one stealing deque for each worker.
#[derive(Drop)]
pub struct StealEnd {
    pub(crate) table: LaneTable,
    pub(crate) lanes: Vec<LaneDeques<OwnDeque, TheirDeque>>,
    ghost end: { IsEndOf table (end_books own_book their_book lanes.items) } by { end_prop _ _ },
}
