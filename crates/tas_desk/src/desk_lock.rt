//! The lock of a desk. It has one door, for callers that may wait. Nothing here tries the lock, so no call of the desk takes it, or
//! spins on it, without a part for waiting in its signature.
//!
//! A signature without a `Wait` bound keeps a body from `lock`, but `try_lock` needs none, and a guard is dropped
//! without one: a look that spins would be proved. So the lock is the private field of this type, and docs/check-proofs
//! checks what the language can't say: that this module shows just `new`, `lock` and `into_inner`, that there is no
//! other lock, and that no look's signature has a `Wait` bound.

use std::sync::{Mutex, MutexGuard, Wait};

/// A value that one caller at a time has. Contracts see nothing of it: what is known of the value is what its type keeps.
#[derive(Drop)]
pub struct DeskLock<T> {
    value: Mutex<T>,
}

impl<T> DeskLock<T> {
    /// Puts the value under a lock that nobody holds.
    pub fn new(value: T) -> DeskLock<T> {
        DeskLock {
            value: Mutex::new(value),
        }
    }

    /// Waits for the lock, and holds it until the guard is dropped.
    pub fn lock<R: Wait>(&self, rt: &R) -> MutexGuard<'_, T> {
        self.value.lock(rt)
    }

    /// The value, once nobody else can hold the lock.
    pub fn into_inner(self) -> T {
        self.value.into_inner()
    }
}
