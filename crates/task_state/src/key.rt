//! What tells tasks apart.
ghost use Rattle.std.specs.Coded.{codes};
ghost use Rattle.task_state.specs.Tasks.{TaskKey};

use priml_syntax::Path;
use std::marker::Model;

/// What tells tasks apart: the thread, and how many steps it has made. No value of it is made.
pub struct Key {
    path: Path,
    steps: u64,
}

impl Model for Key {
    ghost Value = { TaskKey };

    ghost coded = { Prim.hlevel codes };

    ghost view = { λ k. record { path = k.path; steps = k.steps } };
}
