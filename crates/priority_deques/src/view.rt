//! What an end knows of a deque, and the rule that each deque keeps.
use crossbeam_deque::protocol::{Outcome, Protocol, Split};
use std::collections::LinkedList;
use std::marker::{Brand, PhantomData};
use task_state::{Key, Task};
use type_rules::Job;

/// What one pass of a deque knows. No value of it is made.
pub struct LaneView {
    /// None before the deque has its job and its lane.
    pub job: Option<Job>,
    pub lane: u64,
    pub put: LinkedList<Key>,
    pub taken: LinkedList<Key>,
}

/// The rule of each deque, stealing or shared.
pub struct LaneRule;

impl Protocol<Task, LaneView> for LaneRule {
    ghost use Rattle.priority_deques.specs.Inside.Rule.{Kept, unnamed};

    ghost holds = { Kept };

    ghost first = { unnamed };

    ghost guest = { unnamed };
}

impl crossbeam_queue::protocol::Protocol<Task, LaneView> for LaneRule {
    ghost use Rattle.priority_deques.specs.Inside.Rule.{Kept, unnamed};

    ghost holds = { Kept };

    ghost first = { unnamed };
}

/// The view that a pass has after its deque got its job and its lane.
pub trait Names {
    ghost use Rattle.priority_deques.specs.declared.view.LaneView.{LaneView};

    ghost named: { LaneView };
}

impl Names for Brand {
    ghost use Rattle.priority_deques.specs.Inside.Rule.{unnamed};

    ghost named = { unnamed };
}

/// A deque gets its job and its lane.
pub struct Naming<N> {
    marker: PhantomData<N>,
}

impl<N: Names> Split<LaneView> for Naming<N> {
    ghost left = { λ _. N.named };

    ghost right = { λ _. N.named };
}

/// One more pass of the same deque.
pub struct Twin;

impl Split<LaneView> for Twin {
    ghost use Rattle.std.specs.Prelude.{[]};

    ghost left = { λ v. v };

    ghost right = { λ v. record v { put = []; taken = [] } };
}

pub struct Puts;

pub struct Takes;

impl Outcome<Task, LaneView> for Puts {
    ghost use Rattle.priority_deques.specs.Inside.Rule.{HasPut};

    ghost then = { HasPut };
}

impl Outcome<Task, LaneView> for Takes {
    ghost use Rattle.priority_deques.specs.Inside.Rule.{HasTaken};

    ghost then = { HasTaken };
}

impl crossbeam_queue::protocol::Outcome<Task, LaneView> for Puts {
    ghost use Rattle.std.specs.Prelude.{[], ◌∷◌};
    ghost use Rattle.priority_deques.specs.Inside.Rule.{HasPut};

    ghost then = { λ v x w. HasPut v (x ∷ []) w };
}

impl crossbeam_queue::protocol::Outcome<Task, LaneView> for Takes {
    ghost use Rattle.std.specs.Prelude.{[], ◌∷◌};
    ghost use Rattle.priority_deques.specs.Inside.Rule.{HasTaken};

    ghost then = { λ v x w. HasTaken v (x ∷ []) w };
}

impl crossbeam_queue::protocol::Lesson<Task, LaneView> for Takes {
    ghost use Rattle.std.specs.Prelude.{⊤};

    ghost fact = { λ v items. ⊤ };
}
