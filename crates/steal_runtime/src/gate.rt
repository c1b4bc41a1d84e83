//! What a worker passes before each turn.
use priml_syntax::Path;

/// A worker calls it before each turn of a task. A test may hold workers in it; it changes nothing else.
pub trait Gate: Sync {
    /// The worker, numbered from 0, is about to run a task of this thread.
    fn turn(&self, worker: u32, path: &Path);
}

/// A gate that does nothing.
pub struct Free;

impl Gate for Free {
    fn turn(&self, _worker: u32, _path: &Path) {}
}
