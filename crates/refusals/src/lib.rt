//! An allocator that refuses one of its growths, so that a test can see what a call leaves behind where memory is refused in
//! its middle. It can hold a growth up, too, so that a test can see what others do meanwhile. Threads may share it.
#![tactic(auto)]

ghost use Rattle.std.specs.Prelude.{◌≡◌, ◌↔◌, ◌≤◌, ◌-◌, IsTrue};

mod hold;

use hold::Hold;
use std::alloc::{AllocError, Allocator};
use std::sync::atomic::{AtomicU64, Ordering};

/// What each growth passes.
#[derive(Drop)]
struct Gate {
    /// How many growths are to come up to the one that is refused.
    to_come: AtomicU64,
    hold: Hold,
}

/// An allocator that hands each call on to another one, but for one growth, which it refuses. It holds a growth up where it is
/// told to; one that isn't released within 1,000,000,000 turns of a loop is refused. A growth is a call of `allocate`; those of
/// `grow` and `shrink` call it once each.
///
/// It is lent: `&Refusing` is an allocator, and `Copy`, so it fits each call that takes its memory from one.
pub struct Refusing<B: Allocator> {
    gate: Gate,
    inner: B,
}

impl<B: Allocator> Refusing<B> {
    /// Refuses the growth with this number, counted from 1, and no other. None is held up.
    pub fn new(inner: B, number: u64) -> Refusing<B>
        requires { 1 ≤ number }
    {
        let gate = Gate {
            to_come: AtomicU64::new(number),
            hold: Hold::new(),
        };
        Refusing { gate, inner }
    }

    /// Counts anew: refuses the growth with this number from now on, counted from 1, and no other.
    pub fn refuse(&self, number: u64)
        requires { 1 ≤ number }
    {
        self.gate.to_come.store(number, Ordering::SeqCst);
    }

    /// Whether the growth that is refused has been asked for.
    pub fn has_refused(&self) -> bool {
        is_behind(self.gate.to_come.load(Ordering::SeqCst))
    }

    /// Holds the next growth up, and none after it.
    pub fn hold(&self) {
        self.gate.hold.arm();
    }

    /// Whether a growth is held up now.
    pub fn holds(&self) -> bool {
        self.gate.hold.holds()
    }

    /// Lets the growth that is held up go on.
    pub fn release(&self) {
        self.gate.hold.release();
    }
}

impl<B: Allocator> Drop for Refusing<B> {
    fn drop(self) {
        let Refusing { gate: _, inner: _ } = self;
    }
}

/// Whether no growth up to the one that is refused is still to come.
fn is_behind(to_come: u64) -> bool
    // A growth that was to be refused is past exactly where the count is 0.
    // Refused: refusal_is_reported_before_it_comes.
    ensures { IsTrue result ↔ to_come ≡ 0 }
{
    to_come == 0
}

/// Whether the next growth is the one that is refused, where so many are to come up to that one.
fn is_next(to_come: u64) -> bool
    // A count of 1 says that the next growth is the one to refuse.
    // Refused: no_growth_is_refused, each_growth_from_then_on_is_refused*, the_growth_before_is_refused*.
    ensures { IsTrue result ↔ to_come ≡ 1 }
{
    to_come == 1
}

/// How many are to come after the next growth.
fn after_next(to_come: u64) -> u64
    // The count to come is one less, and 0 after 0.
    // Refused: a_growth_is_not_counted.
    ensures { result ≡ to_come - 1 }
{
    to_come.saturating_sub(1)
}

/// Counts a growth, and returns whether it is the one that is refused.
fn is_refused(to_come: &AtomicU64) -> bool {
    let before = to_come.fetch_update(
        Ordering::SeqCst,
        Ordering::SeqCst,
        |to_come| Some(after_next(to_come)),
    );
    before.is_ok_and(is_next)
}

/// Waits where this growth is held up, then counts it, and returns whether it is refused.
fn refuses_next(gate: &Gate) -> bool {
    let times_out = gate.hold.times_out();
    is_refused(&gate.to_come) || times_out
}

unsafe impl<B: Allocator> Allocator for Refusing<B> {
    ghost dealloc_token = { λ heap ty ptr. B.dealloc_token heap.inner ty ptr };

    // A block is the inner allocator's and goes back to it; a refused growth takes none.
    // Refused: none, each is proved by hand along its steps, so an edit shows nothing.
    fn allocate(&self, size: usize, align: usize) -> Result<*mut u8, AllocError> {
        if refuses_next(&self.gate) {
            return Err(AllocError);
        }
        self.inner.allocate(size, align)
    }

    unsafe fn deallocate(&self, ptr: *mut u8, size: usize, align: usize) {
        self.inner.deallocate(ptr, size, align);
    }
}
