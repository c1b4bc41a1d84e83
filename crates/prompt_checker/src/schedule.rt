/// A schedule: in each step the vertices that run in it, in the order in which they are written.
#[derive(Drop)]
pub struct Schedule {
    pub steps: Vec<Vec<u32>>,
}

/// What is wrong at a step.
#[derive(Clone, Copy, Debug, PartialEq, Eq)]
pub enum FlawKind {
    /// The step has no vertex.
    EmptyStep,
    /// The step has more vertices than there are cores.
    TooWide,
    /// The vertex stands earlier in the step or in an earlier one.
    Twice(u32),
    /// A parent of the vertex is in no earlier step.
    NotReady(u32),
    /// The step has fewer vertices than there are cores, and this ready one is left out.
    IdleCore(u32),
    /// The first vertex is in the step, and the second, of a priority strictly above it, is ready and left out.
    Inverted(u32, u32),
    /// The vertex is in no step; the step of this flaw is the one after the last.
    Unfinished(u32),
}

/// A flaw of a schedule: its step, counted from 1, and its kind.
#[derive(Clone, Copy, Debug, PartialEq, Eq)]
pub struct Flaw {
    pub step: u64,
    pub kind: FlawKind,
}

/// Whether a schedule is prompt, or its first flaw.
#[derive(Clone, Copy, Debug, PartialEq, Eq)]
pub enum Verdict {
    Prompt,
    Flaw(Flaw),
}
