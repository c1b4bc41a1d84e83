//! The rule of the table, and what its steps tell.
use crate::shard::Shard;
use crate::view::{About, View};
use atomic_table::{Join, Play, Seat, Shared, Split, TableRule};

#[derive(Clone, Copy)]
pub struct Rule;

impl TableRule<Option<Shard>, View, About> for Rule {
    ghost use Rattle.join_board.specs.Rule.{Keeps};
    ghost use Rattle.join_board.specs.Views.{newcomer};

    ghost holds = { Keeps };

    ghost first = { newcomer };
}

pub struct Takes;

impl Play<Option<Shard>, View> for Takes {
    ghost use Rattle.join_board.specs.Inside.Plays.{took};

    ghost then = { took };
}

pub struct Gives;

impl Play<Option<Shard>, View> for Gives {
    ghost use Rattle.join_board.specs.Inside.Plays.{gave};

    ghost then = { gave };
}

pub struct Adds;

impl Play<Option<Shard>, View> for Adds {
    ghost use Rattle.join_board.specs.Inside.Plays.{added};

    ghost then = { added };
}

pub struct Subtracts;

impl Play<Option<Shard>, View> for Subtracts {
    ghost use Rattle.join_board.specs.Inside.Plays.{subtracted};

    ghost then = { subtracted };
}

pub struct Looks;

impl Play<Option<Shard>, View> for Looks {
    ghost use Rattle.join_board.specs.Inside.Plays.{looked};

    ghost then = { looked };
}

pub struct Counts;

impl Play<Option<Shard>, View> for Counts {
    ghost use Rattle.join_board.specs.Inside.Plays.{counted};

    ghost then = { counted };
}

pub struct AsksLimit;

impl Play<Option<Shard>, View> for AsksLimit {
    ghost use Rattle.join_board.specs.Inside.Plays.{asked_limit};

    ghost then = { asked_limit };
}

pub struct AsksMemory;

impl Play<Option<Shard>, View> for AsksMemory {
    ghost use Rattle.join_board.specs.Inside.Plays.{asked_memory};

    ghost then = { asked_memory };
}

pub struct Finds;

impl Play<Option<Shard>, View> for Finds {
    ghost use Rattle.join_board.specs.Inside.Plays.{found_stop};

    ghost then = { found_stop };
}

pub struct Cuts;

impl Split<View> for Cuts {
    ghost use Rattle.join_board.specs.Inside.Views.{left, right};

    ghost left = { left };

    ghost right = { right };
}

pub struct Glues;

impl Join<View> for Glues {
    ghost use Rattle.join_board.specs.Inside.Views.{both, spent_view};

    ghost both = { both };

    ghost spent = { spent_view };
}

pub type Place = Seat<Option<Shard>, View>;

pub type Top = Shared<Option<Shard>, View, About, Rule>;
