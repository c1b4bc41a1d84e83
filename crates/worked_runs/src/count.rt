//! Ends that count.
ghost use Rattle.std.specs.Prelude.{◌≡◌, IfOk, vec_len};
ghost use Rattle.std.specs.List.{All};

use priority_deques::{Lanes, Pick};
use std::alloc::{AllocError, Global};
use std::sync::Wait;
use std::sync::atomic::{AtomicU64, Ordering};
use task_state::Task;
use type_rules::Job;

/// An end that passes each call on, and counts the tasks that were put.
#[derive(Drop)]
pub struct CountEnd<'a, L> {
    end: L,
    count: &'a AtomicU64,
}

impl<'a, L: Lanes> Lanes for CountEnd<'a, L> {
    ghost job = { λ e. L.job e.end };

    ghost books = { λ e. L.books e.end };

    fn put<R: Wait>(&mut self, rt: &R, task: Task) -> Result<(), (Task, AllocError)> {
        match self.end.put(rt, task) {
            Ok(()) => {
                self.count.fetch_add(1, Ordering::SeqCst);
                Ok(())
            }
            Err(refused) => Err(refused),
        }
    }

    fn take<R: Wait>(&mut self, rt: &R) -> Option<Pick> {
        match self.end.take(rt) {
            Some(pick) => Some(pick),
            None => None,
        }
    }
}

/// The ends, each of which counts into the number.
pub(crate) fn counted<'a, L: Lanes>(
    alloc: Global,
    _job: &Job,
    ends: Vec<L>,
    count: &'a AtomicU64,
) -> Result<Vec<CountEnd<'a, L>>, AllocError>
    requires { All (λ e. L.job e ≡ _job.now) ends.items }
    ensures { IfOk result (λ v. (vec_len v ≡ vec_len ends) × All (λ e. L.job e.end ≡ _job.now) v.items) }
{
    let mut all = Vec::new(alloc);
    for end in ends {
        all.push(CountEnd { end, count })?;
    }
    Ok(all)
}
