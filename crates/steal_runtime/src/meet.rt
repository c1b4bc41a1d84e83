//! A gate for tests of two workers.
ghost use Rattle.std.specs.Prelude.{◌<◌};

use crate::gate::Gate;
use priml_syntax::Path;
use std::sync::Wait;
use std::sync::atomic::{AtomicBool, AtomicU64, Ordering};
use std::thread;
use std::thread::Threads;

const TRIES: u32 = 1_000_000;

// How many turns each worker has entered, and how holdings have ended.
#[derive(Drop)]
struct Counts {
    entered: [AtomicU64; 2],
    met: AtomicBool,
    ran_out: AtomicBool,
}

/// Holds a worker within its second turn until the other one has entered a turn, at most 1,000,000 tries long. Once two workers have met it
/// holds no more.
#[derive(Drop)]
pub struct Meet<'a, R: Threads + Wait + Sync> {
    // A test's runtime. It is not used: a worker that is held yields its processor.
    _runtime: &'a R,
    counts: Counts,
}

impl Counts {
    fn met(&self) -> bool {
        self.met.load(Ordering::SeqCst)
    }

    // The turns that the worker had entered before this one.
    fn enter(&self, worker: usize) -> u64
        requires { worker < 2 }
    {
        self.entered[worker].fetch_add(1, Ordering::SeqCst)
    }

    fn hold(&self, other: usize)
        requires { other < 2 }
    {
        let before = self.entered[other].load(Ordering::SeqCst);
        for _ in 0..TRIES {
            if self.met() {
                return;
            }
            if self.entered[other].load(Ordering::SeqCst) != before {
                self.met.store(true, Ordering::SeqCst);
                return;
            }
            thread::yield_now();
        }
        self.ran_out.store(true, Ordering::SeqCst);
    }
}

impl<'a, R: Threads + Wait + Sync> Meet<'a, R> {
    /// A gate that no worker has passed.
    pub fn new(rt: &'a R) -> Meet<'a, R> {
        let counts = Counts {
            entered: [AtomicU64::new(0), AtomicU64::new(0)],
            met: AtomicBool::new(false),
            ran_out: AtomicBool::new(false),
        };
        Meet {
            _runtime: rt,
            counts,
        }
    }

    /// Whether a holding ended because the other worker entered a turn.
    pub fn met(&self) -> bool {
        self.counts.met()
    }

    /// Whether a holding ended because its tries ran out.
    pub fn ran_out(&self) -> bool {
        self.counts.ran_out.load(Ordering::SeqCst)
    }
}

impl<'a, R: Threads + Wait + Sync> Gate for Meet<'a, R> {
    fn turn(&self, worker: u32, _path: &Path) {
        let mine = if worker == 0 { 0 } else { 1 };
        let before = self.counts.enter(mine);
        if before == 1 && !self.counts.met() {
            self.counts.hold(1 - mine);
        }
    }
}
