//! Versions: each state of the history that is to be published gets the next number of a registry, so that two versions of
//! one registry that have one number are one history. Whoever holds two versions compares eight bytes and knows whether
//! they are equal, without looking at an entry.
//!
//! The registry exists in proofs alone: at run time a version is its number, and the registry is a counter.
//!
//! Versions are needed since no contract of `left_right` says, after a publish or an entry, which table a writer or
//! reader belongs to. So `tell` and `learn`, which require one table, are used once for each seat, as the desk opens,
//! and a call under the lock must show otherwise that the seat's reader sees the session's journal: by equal numbers.
//! Two tokens of one registry speak of beginnings of one list of histories, so equal numbers are one history.
//! `Version::is_same` says so where it returns true, and nothing where it returns false.
//!
//! What is published carries its registry as data, not as a type. The name in the types of desk and seats (`Name`) has
//! the registry, and what lies under the lock keeps that its session's is the name's, and each seat that its reader's
//! and its zone's are.

ghost use Rattle.std.specs.Prelude.{◌≡◌, ◌+◌, ◌==◌, ◌<◌, [], length, true};
ghost use Rattle.tas_published.specs.Inside.Registry.{counter_of, latest};
ghost use Rattle.tas_published.specs.Version.{version_of};

use crate::Entry;
use logbook::{Gain, Offer, Plain, Play, Rule, Seen, Start, Word};
use std::alloc::{Allocator, Global};
use std::collections::LinkedList;
use std::marker::Model;

/// What a registry keeps: its counter is the number of histories in it.
pub struct VersionRule;

impl<A: Allocator> Rule<LinkedList<Entry<A>, A>, u64> for VersionRule {
    ghost use Rattle.std.specs.Prelude.{[]};
    ghost use base.Fml.{ftrue};
    ghost use Rattle.tas_published.specs.Inside.Registry.{CountsHistories};

    ghost holds = { λ cells numbered. CountsHistories cells numbered };

    ghost first = { [] };

    ghost hinted = { λ number numbered. Unit {0} };

    ghost shows = { λ numbered. [] };

    ghost keeps = { λ names numbered. ftrue };

    ghost moves = { λ ask before after answer. Unit {0} };
}

/// A caller of a registry gets nothing but the answer.
pub struct NoGain;

impl<A: Allocator> Gain<LinkedList<Entry<A>, A>, u64> for NoGain {
    ghost use base.Fml.{ftrue};

    ghost after = { λ names about answer. ftrue };
}

/// The exchange that gives a history the next number.
pub struct AddVersion;

impl<A: Allocator> Play<LinkedList<Entry<A>, A>, u64> for AddVersion {
    ghost use Rattle.tas_published.specs.Inside.Registry.{Numbers};

    ghost then = { Numbers };
}

impl<A: Allocator> Plain<Vec<Entry<A>, A>, LinkedList<Entry<A>, A>, u64> for AddVersion {
    ghost use Rattle.std.specs.Prelude.{None};

    ghost ask = { λ journal. journal.items };

    ghost state = { λ journal. None };
}

/// A history, by its number in a registry. Contracts see the registry and the history.
#[derive(Drop)]
pub struct Version<A: Allocator = Global>
where
    VersionRule: Rule<LinkedList<Entry<A>, A>, u64>,
{
    number: u64,
    seen: Seen<LinkedList<Entry<A>, A>, u64, VersionRule>,
}

impl<A: Allocator> Model for Version<A>
where
    VersionRule: Rule<LinkedList<Entry<A>, A>, u64>,
{
    ghost use Rattle.std.specs.Prelude.{◌≡◌, length};
    ghost use Rattle.tas_published.specs.Version.{VersionContent, version_of};
    ghost use Rattle.tas_published.specs.Inside.Registry.{latest};

    ghost Value = { VersionContent A };

    ghost view = { λ v. version_of v.seen.book (latest v.seen.log) };

    ghost invariant = { λ v. v.number ≡ length v.seen.log };
}

/// The version with the greatest number of its registry, with the registry's counter. Nobody else can number a history in
/// that registry. Contracts see the registry and the history.
#[derive(Drop)]
pub struct LatestVersion<A: Allocator = Global>
where
    VersionRule: Rule<LinkedList<Entry<A>, A>, u64>,
{
    counter: Word<LinkedList<Entry<A>, A>, u64, VersionRule>,
    version: Version<A>,
}

impl<A: Allocator> Model for LatestVersion<A>
where
    VersionRule: Rule<LinkedList<Entry<A>, A>, u64>,
{
    ghost use Rattle.std.specs.Prelude.{◌≡◌};
    ghost use Rattle.tas_published.specs.Version.{VersionContent};
    ghost use Rattle.tas_published.specs.Inside.Registry.{counter_of};

    ghost Value = { VersionContent A };

    ghost view = { λ l. l.version };

    ghost invariant = { λ l. l.counter ≡ counter_of l.version.registry };
}

impl<A: Allocator> Version<A> {
    /// A copy. It takes no memory.
    pub fn copy(&self) -> Version<A>
        // Refused: none, see `Entry::copy`.
        ensures { result ≡ self.now }
    {
        Version {
            number: self.number,
            seen: self.seen.again(),
        }
    }

    /// Whether the other version of the same registry has the same number. The two are one history then.
    pub fn is_same(&self, other: &Version<A>) -> bool
        requires { self.now.registry ≡ other.now.registry }
        // Two versions of one registry that it reports as the same are one history.
        // Refused: versions_with_two_numbers_are_the_same.
        ensures { result ≡ true → self.now ≡ other.now }
    {
        if self.number != other.number {
            return false;
        }
        let mut both = self.seen.again();
        both.learn(&other.seen);
        true
    }

    /// Becomes the version of this history, under the next number, and returns whether it did. It doesn't where another history has that
    /// number already, whose version it becomes then, nor where numbers run out.
    fn try_renew(
        &mut self,
        counter: &Word<LinkedList<Entry<A>, A>, u64, VersionRule>,
        journal: &Vec<Entry<A>, A>,
    ) -> bool
        requires { counter.now ≡ counter_of self.old.registry }
        ensures registry { self.new.registry ≡ self.old.registry }
        ensures history { result ≡ true → self.new.history ≡ journal.now.items }
    {
        let number = self.number;
        if number >= 1 << 62 {
            return false;
        }
        let mut offer: Offer<LinkedList<Entry<A>, A>, u64, VersionRule, NoGain> = self
            .seen
            .plain::<NoGain, Vec<Entry<A>, A>, AddVersion>(journal);
        let mut pen = self.seen.no_pen();
        let found = counter.compare_exchange::<AddVersion, NoGain>(
            number,
            number + 1,
            &mut self.seen,
            &mut offer,
            &mut pen,
        );
        self.number = if found == number { number + 1 } else { found };
        found == number
    }
}

impl<A: Allocator> LatestVersion<A> {
    /// A new registry. Its version before the first number is the empty history.
    pub fn new() -> LatestVersion<A>
        ensures { result.history ≡ [] }
    {
        let (seen, mut first, _second) = Seen::open(Start::alone(), 0, 0);
        LatestVersion {
            counter: Word::tracked(0, &mut first),
            version: Version { number: 0, seen },
        }
    }

    /// The version.
    pub fn version(&self) -> &Version<A>
        ensures { result.now ≡ self.now }
    {
        &self.version
    }

    /// Becomes the version of this history, under the next number, and returns whether it did. It does, as long as there are
    /// numbers below 2^62, since nobody else has the counter; no clause says so.
    pub fn try_renew(&mut self, journal: &Vec<Entry<A>, A>) -> bool
        ensures registry { self.new.registry ≡ self.old.registry }
        ensures history { result ≡ true → self.new.history ≡ journal.now.items }
    {
        let LatestVersion { counter, version } = self;
        version.try_renew(counter, journal)
    }
}
