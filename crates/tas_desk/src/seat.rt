//! Seats.

ghost use Rattle.std.specs.Prelude.{◌≡◌, ◌+◌, ◌≤◌, length, is_some, MatchResult, IfOk, OnOk};
ghost use Rattle.tas_green.specs.Grid.{most_states};
ghost use Rattle.tas_green.specs.Zone.{state_at};
ghost use Rattle.tas_session.specs.Shots.{IsShotAt, MatchPlayed};
ghost use Rattle.tas_published.specs.Looks.{answer_len};
ghost use Rattle.tas_published.specs.History.{movie_of};
ghost use Rattle.tas_published.specs.Published.{KnowsRegistry};
ghost use Rattle.tas_desk.specs.States.{IsStateFor, IsZoneReached};
ghost use Rattle.tas_desk.specs.Zones.{CutsWindow, IsShort, IsZoneAway, view_in};
ghost use Rattle.tas_desk.specs.Seats.{seat_of, HasSeen, KeepsZone, IsInput, IsZoneShot, IsZoneViewed};

use crate::seat_zone::SeatZone;
use crate::{InputError, Name, NoEntry, Reached, Shot, ShotError, StateError};
use std::alloc::{Allocator, Global};
use std::marker::Model;
use std::sync::ledger::Share;
use tas_green::View;
use tas_movie::Movie;
use tas_session::{MovieReader, shown};
use vcs_machine::Input;
use vcs_tia::Picture;

/// A seat of a desk. Contracts see its number, how many edits it made, what it has seen of the history, and its greenzone with
/// its window.
#[derive(Drop)]
pub struct Seat<N: Name, A: Allocator = Global> {
    pub(crate) number: u32,
    pub(crate) made: u64,
    pub(crate) share: Share<N>,
    pub(crate) reader: MovieReader<A>,
    pub(crate) zone: SeatZone<A>,
}

impl<N: Name, A: Allocator> Model for Seat<N, A> {
    ghost use Rattle.tas_desk.specs.Seats.{SeatContent, seat_of, IsSeated};

    ghost Value = { SeatContent A };

    ghost view = { λ s. seat_of s.number s.made s.reader.seen s.zone };

    ghost invariant = { λ s. IsSeated s.reader N.registry s.share.parts s.share.amount s.number
        s.made s.zone };
}

impl<N: Name, A: Allocator> Seat<N, A> {
    /// A seat that has made nothing, with one part of the ledger.
    pub(crate) fn new(
        number: u32,
        share: Share<N>,
        reader: MovieReader<A>,
        zone: SeatZone<A>,
    ) -> Seat<N, A>
        requires share { (share.parts ≡ 1) × (share.amount ≡ 0) }
        requires reader { KnowsRegistry reader N.registry }
        requires zone { zone.made_for.registry ≡ N.registry }
        ensures { result ≡ seat_of number 0 reader.seen zone }
    {
        Seat {
            number,
            made: 0,
            share,
            reader,
            zone,
        }
    }

    /// The seat's number, counted from 0.
    pub fn number(&self) -> u32
        // Refused: seat_numbers_are_halved.
        ensures { result ≡ self.now.number }
    {
        self.number
    }

    /// How many states its greenzone has.
    pub fn kept(&self) -> usize
        // A seat's zone has at most 512 states, and `kept` returns how many.
        // Refused: half_of_the_kept_states_are_reported.
        ensures count { result ≡ length self.now.zone.states }
        ensures bounded { result ≤ most_states }
    {
        self.zone.count()
    }

    /// Whether its greenzone has a state after `frame` frames of the movie that it was made for.
    pub fn holds(&self, frame: usize) -> bool
        // `holds` reports whether the seat's zone has a state after a number of frames, `zone_movie` shows the movie
        // that it was made for, and `view` this movie with its states and its window.
        // Refused: state_after_one_frame_less_is_reported.
        ensures { result ≡ is_some (state_at frame self.now.zone.states) }
    {
        self.zone.holds(frame)
    }

    /// The movie that its greenzone was made for: that of the seat's last shot, picture, state or share that was answered or halted, and
    /// before the first the blank cartridge with no inputs.
    pub fn zone_movie(&self) -> &Movie<A>
        // Refused: none, its result's type leaves nothing else to return.
        ensures { result.now ≡ self.now.zone.movie }
    {
        self.zone.movie()
    }

    /// Its greenzone and its window with the movie that they were made for, [`Seat::zone_movie`]: for one who plays it, or an edited copy
    /// of it, elsewhere.
    pub fn view(&self) -> &View<A>
        // Refused: none, its result's type leaves nothing else to return.
        ensures { result.now ≡ view_in self.now.zone }
    {
        self.zone.view()
    }

    /// How many edits there are, and how many inputs.
    pub(crate) fn len(&mut self) -> Result<(u64, usize), NoEntry>
        ensures seat { KeepsZone self.old self.new }
        ensures reply { MatchResult result
            (λ p. (p.0 ≡ length self.new.front) × (p.1 ≡ answer_len (movie_of self.new.front)))
            (λ _. self.new ≡ self.old) }
    {
        self.reader.len()
    }

    /// The input of frame `k`.
    pub(crate) fn input(&mut self, k: usize) -> Result<(u64, Input), InputError>
        ensures seat { KeepsZone self.old self.new }
        ensures reply { IsInput self.old self.new k result }
    {
        self.reader.input(k)
    }
}

impl<N: Name, A: Allocator + Copy> Seat<N, A> {
    /// Draws frame `k` from the seat's own zone.
    pub(crate) fn shot<B: Allocator>(&mut self, alloc: B, k: usize) -> Result<Shot<B>, ShotError>
        ensures seat { HasSeen self.old self.new }
        ensures reply { IsShotAt self.new.front k result }
        ensures zone { IsZoneShot self.old self.new k result }
        ensures short { IfOk result (λ shot. IsShort self.old.zone self.new.zone k shot.ran) }
        ensures window { MatchPlayed result (CutsWindow self.old.zone self.new.zone)
            (self.new.zone ≡ self.old.zone) }
    {
        let (at, copied) = self
            .reader
            .copy(self.zone.allocator(), self.zone.version(), k)?;
        let Ok(mut picture) = Picture::blank(alloc) else {
            return Err(ShotError::Memory);
        };
        let played = self.zone.shot(copied, k, &mut picture);
        shown(at, k, played.ran, picture, played.end)
    }

    /// Draws frame `k` from the seat's own zone and window.
    pub(crate) fn picture<B: Allocator>(&mut self, alloc: B, k: usize) -> Result<Shot<B>, ShotError>
        ensures seat { HasSeen self.old self.new }
        ensures reply { IsShotAt self.new.front k result }
        ensures zone { IsZoneViewed self.old self.new k result }
        ensures short { IfOk result (λ shot. IsShort self.old.zone self.new.zone k shot.ran) }
        ensures forward { OnOk result (IsZoneAway self.new.zone (k + 1)) }
    {
        let (at, copied) = self
            .reader
            .copy(self.zone.allocator(), self.zone.version(), k)?;
        let Ok(mut picture) = Picture::blank(alloc) else {
            return Err(ShotError::Memory);
        };
        let viewed = self.zone.picture(copied, k, &mut picture);
        shown(at, k, viewed.ran, picture, viewed.end)
    }

    /// The machine after `from` frames, from the seat's own zone and window, where `from` is at most `to`, and `to` at most the movie's length.
    pub(crate) fn state_for(&mut self, from: usize, to: usize) -> Result<Reached, StateError>
        ensures seat { HasSeen self.old self.new }
        ensures reply { IsStateFor self.new.front from to result }
        ensures zone { IsZoneReached self.old self.new from result }
        ensures forward { OnOk result (IsZoneAway self.new.zone from) }
    {
        if from > to {
            return match self.reader.len() {
                Ok((at, len)) => Err(StateError::NoFrame { at, len }),
                Err(NoEntry) => Err(StateError::NoEntry),
            };
        }
        let (at, copied) = self
            .reader
            .copy_of(self.zone.allocator(), self.zone.version(), to)?;
        let reached = self.zone.reach(copied, from);
        Ok(Reached {
            at,
            ran: reached.ran,
            state: reached.state,
        })
    }
}
