//! One growth that is held up, so that a test can see what others do meanwhile.

use std::sync::atomic::{AtomicU64, Ordering};

/// How often a growth that is held up looks whether it may go on, at most.
const MOST_TURNS: u64 = 1_000_000_000;

/// No growth is held up.
const FREE: u64 = 0;

/// The next growth is to be held up.
const ARMED: u64 = 1;

/// A growth is held up.
const HELD: u64 = 2;

/// Whether a growth is held up, or is to be.
#[derive(Drop)]
pub(crate) struct Hold {
    state: AtomicU64,
}

impl Hold {
    /// No growth is held up.
    pub fn new() -> Hold {
        Hold {
            state: AtomicU64::new(FREE),
        }
    }

    /// Holds the next growth up, and none after it.
    pub fn arm(&self) {
        self.state.store(ARMED, Ordering::SeqCst);
    }

    /// Whether a growth is held up now.
    pub fn holds(&self) -> bool {
        self.state.load(Ordering::SeqCst) == HELD
    }

    /// Lets the growth that is held up go on.
    pub fn release(&self) {
        self.state.store(FREE, Ordering::SeqCst);
    }

    /// Where this growth is the one to be held up, waits until it is released. Whether it never was.
    pub fn times_out(&self) -> bool {
        let armed = self
            .state
            .compare_exchange(ARMED, HELD, Ordering::SeqCst, Ordering::SeqCst);
        if armed.is_err() {
            return false;
        }
        for _turn in 0..MOST_TURNS {
            if self.state.load(Ordering::SeqCst) == FREE {
                return false;
            }
        }
        self.state.store(FREE, Ordering::SeqCst);
        true
    }
}
