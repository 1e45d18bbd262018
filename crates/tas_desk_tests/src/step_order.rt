//! A row of steps that several threads take in one order, and gates that follow it.

use crate::gates::MOST_TURNS;
use std::sync::atomic::{AtomicU64, Ordering};
use tas_desk::Gate;

/// The steps are taken in the order of their numbers, each by whoever waits for it.
#[derive(Drop)]
pub struct StepOrder {
    next: AtomicU64,
    has_given_up: AtomicU64,
}

impl StepOrder {
    /// No step is taken yet.
    pub fn new() -> StepOrder {
        StepOrder {
            next: AtomicU64::new(0),
            has_given_up: AtomicU64::new(0),
        }
    }

    /// Waits until all steps before this one are taken, for this many turns at most. Who has waited in vain says so, and then
    /// nobody waits any more.
    pub fn wait_for(&self, step: usize) {
        for _turn in 0..MOST_TURNS {
            if self.next.load(Ordering::SeqCst) == step as u64 {
                return;
            }
            if self.has_given_up.load(Ordering::SeqCst) == 1 {
                return;
            }
        }
        self.has_given_up.store(1, Ordering::SeqCst);
    }

    /// This step is taken.
    pub fn done(&self, step: usize) {
        self.next
            .store((step as u64).saturating_add(1), Ordering::SeqCst);
    }

    /// Whether all waited no longer than they may, and this many steps were taken.
    pub fn was_played(&self, steps: usize) -> bool {
        let has_given_up = self.has_given_up.load(Ordering::SeqCst) == 1;
        !has_given_up && self.next.load(Ordering::SeqCst) == steps as u64
    }
}

/// The gate of a work with one target: the job is taken in one step, and its batch offered in a later one.
#[derive(Drop)]
pub struct Pause<'a> {
    pub order: &'a StepOrder,
    pub start: usize,
    pub offer: usize,
}

impl Gate for Pause<'_> {
    fn pass(&self, _piece: usize) {
        self.order.done(self.start);
        self.order.wait_for(self.offer);
    }
}

/// The gate of an export by three workers, each of which passes in a step of its own.
#[derive(Drop)]
pub struct Runs<'a> {
    pub order: &'a StepOrder,
    pub passes: [usize; 3],
}

impl Gate for Runs<'_> {
    fn pass(&self, piece: usize) {
        if let Some(step) = self.passes.get(piece) {
            self.order.wait_for(*step);
            self.order.done(*step);
        }
    }
}
