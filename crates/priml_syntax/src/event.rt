ghost use Rattle.std.specs.Prelude.{◌≡◌, IfOk};

use crate::path::Path;
use std::alloc::{AllocError, Global};

/// What one step of a thread did.
#[derive(Drop)]
pub enum Event {
    /// It entered its block. This is the first event of each thread.
    Start,
    /// A step inside the thread: a value bound, a branch chosen, a frame entered or left.
    Plain,
    /// It spawned a thread. The k-th of these, from 0, made child k.
    Spawn,
    /// It took the outcome of the thread of this path, which had ended.
    Join(Path),
    /// It took the next of its inputs, or saw that none is left.
    Read,
    /// It wrote this number.
    Wrote(i64),
    /// It ended, with a value or a fault. This is the last event of each thread.
    End,
}

impl Event {
    /// An equal event.
    pub fn copy(&self, alloc: Global) -> Result<Event, AllocError>
        ensures { IfOk result (λ e. e ≡ self.now) }
    {
        match self {
            Event::Start => Ok(Event::Start),
            Event::Plain => Ok(Event::Plain),
            Event::Spawn => Ok(Event::Spawn),
            Event::Join(path) => Ok(Event::Join(path.copy(alloc)?)),
            Event::Read => Ok(Event::Read),
            Event::Wrote(n) => Ok(Event::Wrote(*n)),
            Event::End => Ok(Event::End),
        }
    }
}

/// Equal events, in order.
pub fn copy_events(alloc: Global, list: &[Event]) -> Result<Vec<Event>, AllocError>
    ensures { IfOk result (λ v. v.items ≡ list.now) }
{
    let mut all = Vec::new(alloc);
    for event in list {
        all.push(event.copy(alloc)?)?;
    }
    Ok(all)
}
