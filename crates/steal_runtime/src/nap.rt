//! What a worker does that found no task.
use std::sync::Wait;
use std::sync::atomic::AtomicU64;
use std::thread;
use std::time::Duration;

/// It yields 32 times, and then naps, 20 microseconds longer each time, up to half a millisecond. Nobody has to wake it.
pub(crate) fn idle<R: Wait>(rt: &R, bed: &AtomicU64, turns: u32) {
    if turns < 32 {
        thread::yield_now();
    } else {
        let micros = (u64::from(turns) - 31).min(25) * 20;
        bed.park_timeout(rt, 0, Duration::from_micros(micros));
    }
}
