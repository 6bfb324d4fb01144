//! A gate that holds a worker before one merge.

use std::sync::atomic::{AtomicU64, Ordering};
use std::thread;
use steps::Gate;

// How often each side looks, at most.
const LOOKS: u64 = 100_000_000;

/// Waits until the flag is set.
fn await_flag(flag: &AtomicU64) {
    for _ in 0..LOOKS {
        if flag.load(Ordering::SeqCst) != 0 {
            break;
        }
        thread::yield_now();
    }
}

/// Holds a worker before the merge that began at `seq`, until it is let go. No merge begins at 0.
#[derive(Drop)]
pub struct Hold {
    seq: u32,
    reached: AtomicU64,
    free: AtomicU64,
}

impl Hold {
    pub fn new(seq: u32) -> Hold {
        Hold {
            seq,
            reached: AtomicU64::new(0),
            free: AtomicU64::new(0),
        }
    }

    /// Returns once a worker is held, if one is to be.
    pub fn await_worker(&self) {
        if self.seq != 0 {
            await_flag(&self.reached);
        }
    }

    /// Lets the worker go on.
    pub fn let_go(&self) {
        self.free.store(1, Ordering::SeqCst);
    }
}

impl Gate for Hold {
    fn pass(&self, _level: u32, seq: u32) {
        if seq == self.seq {
            self.reached.store(1, Ordering::SeqCst);
            await_flag(&self.free);
        }
    }
}
