//! Gates for tests.

use std::sync::atomic::{AtomicU64, Ordering};
use tas_desk::Gate;

/// How often one looks at a flag at most.
pub const MOST_TURNS: u64 = 1_000_000_000;

/// A gate that nobody waits at.
#[derive(Drop)]
pub struct Open;

impl Gate for Open {
    fn pass(&self, _piece: usize) {}
}

/// A flag that one thread sets and another waits for.
#[derive(Drop)]
pub struct Flag {
    set: AtomicU64,
    seen: AtomicU64,
}

impl Flag {
    /// A flag that isn't set.
    pub fn new() -> Flag {
        Flag {
            set: AtomicU64::new(0),
            seen: AtomicU64::new(0),
        }
    }

    /// Sets the flag.
    pub fn set(&self) {
        self.set.store(1, Ordering::SeqCst);
    }

    /// Waits until the flag is set, for this many turns at most.
    pub fn wait(&self) {
        for _turn in 0..MOST_TURNS {
            if self.set.load(Ordering::SeqCst) == 1 {
                self.seen.store(1, Ordering::SeqCst);
                return;
            }
        }
    }

    /// Whether one who waited saw the flag.
    pub fn was_seen(&self) -> bool {
        self.seen.load(Ordering::SeqCst) == 1
    }
}

/// Piece 0 waits until piece 1 has entered.
#[derive(Drop)]
pub struct Ordered {
    pub entered: Flag,
}

impl Ordered {
    pub fn new() -> Ordered {
        Ordered {
            entered: Flag::new(),
        }
    }
}

impl Gate for Ordered {
    fn pass(&self, piece: usize) {
        if piece == 0 {
            self.entered.wait();
        }
        if piece == 1 {
            self.entered.set();
        }
    }
}

/// It counts who passes: how many, and the sum of their numbers' squares.
#[derive(Drop)]
pub struct Counting {
    passed: AtomicU64,
    squares: AtomicU64,
}

impl Counting {
    pub fn new() -> Counting {
        Counting {
            passed: AtomicU64::new(0),
            squares: AtomicU64::new(0),
        }
    }

    /// How many passed, and the sum of their numbers' squares.
    pub fn passed(&self) -> (u64, u64) {
        let passed = self.passed.load(Ordering::SeqCst);
        (passed, self.squares.load(Ordering::SeqCst))
    }
}

impl Gate for Counting {
    fn pass(&self, piece: usize) {
        let piece = piece as u64;
        self.passed.fetch_add(1, Ordering::SeqCst);
        self.squares
            .fetch_add(piece.wrapping_mul(piece), Ordering::SeqCst);
    }
}

/// It is passed by pieces in order, from 0 on, on one thread.
#[derive(Drop)]
pub struct InOrder {
    next: AtomicU64,
}

impl InOrder {
    /// Nobody has passed.
    pub fn new() -> InOrder {
        InOrder {
            next: AtomicU64::new(0),
        }
    }

    /// Whether this many pieces have passed, in order.
    pub fn was_passed_by(&self, pieces: usize) -> bool {
        self.next.load(Ordering::SeqCst) == pieces as u64
    }
}

impl Gate for InOrder {
    fn pass(&self, piece: usize) {
        let is_next = self.next.load(Ordering::SeqCst) == piece as u64;
        let next = if is_next {
            (piece as u64).saturating_add(1)
        } else {
            u64::MAX
        };
        self.next.store(next, Ordering::SeqCst);
    }
}
