//! How many entries each seat has in a journal, so that no edit has to look through the journal.

ghost use Rattle.std.specs.Prelude.{◌≡◌, ℕ, ◌+◌, ◌<◌, ◌^◌, ◌==◌, if◌then◌else◌, IsSome, OnOk};
ghost use Rattle.std.specs.Ordering.{nat_cmp};
ghost use Rattle.std.specs.BTreeMap.{get};
ghost use Rattle.tas_session.specs.Inside.Counts.{count_in};

use std::alloc::{AllocError, Allocator, Global};
use std::collections::BTreeMap;

/// How many entries each seat has. A seat that isn't named has none.
#[derive(Drop)]
pub struct EntryCounts<A: Allocator = Global> {
    /// The number of entries, by the seat's number.
    pub map: BTreeMap<u32, u64, A>,
}

impl<A: Allocator + Copy> EntryCounts<A> {
    /// No seat has any.
    pub fn new(alloc: A) -> Self
        ensures { (q : ℕ) → count_in result q ≡ 0 }
    {
        Self {
            map: BTreeMap::new(alloc),
        }
    }

    /// How many entries the seat has.
    pub fn count(&self, seat: u32) -> u64
        ensures { result ≡ count_in self.now seat }
    {
        self.map.get(&seat).copied().unwrap_or(0)
    }

    /// Makes room for the seat's number.
    pub fn reserve(&mut self, seat: u32) -> Result<(), AllocError>
        ensures same { (q : ℕ) → count_in self.new q ≡ count_in self.old q }
        ensures room { OnOk result (IsSome (get nat_cmp self.new.map seat)) }
    {
        self.map.entry(seat)?.or_insert(0);
        Ok(())
    }

    /// One entry more of a seat that has its room.
    pub fn add(&mut self, seat: u32)
        requires room { IsSome (get nat_cmp self.old.map seat) }
        requires bound { count_in self.old seat + 1 < 2 ^ 64 }
        ensures { (q : ℕ)
            → count_in self.new q ≡ count_in self.old q + (if seat == q then 1 else 0) }
    {
        if let Some(count) = self.map.get_mut(&seat) {
            *count += 1;
        }
    }
}
