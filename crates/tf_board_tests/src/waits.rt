//! Threads that wait for each other.
use std::alloc::Global;
use std::sync::Arc;
use std::sync::atomic::{AtomicU64, Ordering};
use std::thread;

/// How many turns a thread waits at most for another one.
const TURNS: u64 = 1_000_000_000;

/// Whether a count comes to so many in that time.
pub(crate) fn comes_to(count: &Arc<AtomicU64, Global>, wanted: u64) -> bool {
    for _ in 0..TURNS {
        if count.load(Ordering::SeqCst) >= wanted {
            return true;
        }
        thread::yield_now();
    }
    false
}
