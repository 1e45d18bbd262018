//! The greenzone of a seat and its window, with the movie that they were made for and the version of its history.
//!
//! The zone takes the room for all its states when the desk opens, so `shot`, `picture` and `state_for` ask for no
//! memory but a copy of a newer movie and a picture, both before the zone is cut for that movie. Where the published
//! version is that of the zone (`Version::is_same`), the movie isn't copied.

ghost use Rattle.std.specs.Prelude.{◌≡◌, ◌+◌, ◌<◌, ◌≤◌, [], length, is_some, IfOk, OnOk, OnErr};
ghost use Rattle.tas_green.specs.Grid.{most_states};
ghost use Rattle.tas_green.specs.Run.{state_after, picture_of, answer_of};
ghost use Rattle.tas_green.specs.Green.{IsLawful, IsMoved, IsShotFrom};
ghost use Rattle.tas_green.specs.Zone.{state_at};
ghost use Rattle.tas_green.specs.View.{AreOfMovie, IsBrought};
ghost use Rattle.tas_green.specs.Window.{IsStateFrom, IsViewFrom, both};
ghost use Rattle.tas_published.specs.History.{movie_of};
ghost use Rattle.tas_published.specs.Readings.{version_after};
ghost use Rattle.tas_desk.specs.Zones.{CutsWindow, IsMadeFor, IsZoneAway, Shares, blank_zone, view_in};

use crate::Entry;
use logbook::Rule;
use std::alloc::{AllocError, Allocator, Global};
use std::collections::LinkedList;
use std::marker::Model;
use tas_green::{Green, ReachedState, View, Viewed, shared_front};
use tas_movie::Movie;
use tas_session::{MovieCopy, Version, VersionRule};
use vcs_tia::Picture;

/// A view of a movie, with the version of the history that makes it.
#[derive(Drop)]
pub struct SeatZone<A: Allocator = Global>
where
    VersionRule: Rule<LinkedList<Entry<A>, A>, u64>,
{
    alloc: A,
    view: View<A>,
    version: Version<A>,
}

impl<A: Allocator> Model for SeatZone<A>
where
    VersionRule: Rule<LinkedList<Entry<A>, A>, u64>,
{
    ghost use Rattle.tas_desk.specs.Zones.{ZoneContent, IsMadeFor, zone_of};

    ghost Value = { ZoneContent A };

    ghost view = { λ z. zone_of z.version z.view };

    ghost invariant = { λ z. IsMadeFor (zone_of z.version z.view) z.version.history };
}

impl<A: Allocator> SeatZone<A> {
    /// How many states there are.
    pub fn count(&self) -> usize
        ensures count { result ≡ length self.now.states }
        ensures bounded { result ≤ most_states }
    {
        self.view.count()
    }

    /// Whether a state is kept after `frame` frames.
    pub fn holds(&self, frame: usize) -> bool
        ensures { result ≡ is_some (state_at frame self.now.states) }
    {
        self.view.holds(frame)
    }

    /// The movie that the zone was made for.
    pub fn movie(&self) -> &Movie<A>
        ensures { result.now ≡ self.now.movie }
    {
        self.view.movie()
    }

    /// The movie with the states and the window.
    pub fn view(&self) -> &View<A>
        ensures { result.now ≡ view_in self.now }
    {
        &self.view
    }
}

impl<A: Allocator + Copy> SeatZone<A> {
    /// No states, made for the empty history.
    pub fn new(alloc: A, version: &Version<A>) -> Result<SeatZone<A>, AllocError>
        requires { version.now.history ≡ [] }
        ensures { IfOk result (λ zone. zone ≡ blank_zone version.now.registry) }
    {
        let movie = Movie::blank(alloc)?;
        Ok(SeatZone {
            alloc,
            view: View::new(alloc, movie)?,
            version: version.copy(),
        })
    }

    /// What copies of the movie for the zone take their memory from.
    pub fn allocator(&self) -> A {
        self.alloc
    }

    /// The version of the history that the zone was made for.
    pub fn version(&self) -> &Version<A>
        ensures { result.now ≡ self.now.made_for }
    {
        &self.version
    }

    /// Shows frame `k` of the movie that was copied, or of the zone's own where none was: zone and window are cut for it, the
    /// frames are played from the zone's nearest state that is left, and both are that movie's from then on. It takes no memory.
    pub fn shot<B: Allocator>(
        &mut self,
        copied: Option<MovieCopy<A>>,
        k: usize,
        picture: &mut Picture<B>,
    ) -> Viewed
        requires { k < length (movie_of (version_after self.old.made_for copied).history).inputs }
        ensures answer { result.end ≡ answer_of (state_after self.new.movie (k + 1)).halt }
        ensures picture { OnOk result.end (picture.new ≡ picture_of self.new.movie k) }
        ensures made_for { self.new.made_for ≡ version_after self.old.made_for copied }
        ensures made { IsMadeFor self.new self.new.made_for.history }
        ensures kept { IsShotFrom self.old.movie self.new.movie k self.old.states self.new.states 0
            result.ran }
        ensures cut { CutsWindow self.old self.new }
    {
        follow(&mut self.view, &mut self.version, copied);
        self.view.shot(k, picture).unwrap()
    }

    /// Shows frame `k` as [`SeatZone::shot`] does, but played from the nearest state of zone and window, or from the zone's where
    /// a place of the grid comes after it, up to the window's; the window is then filled around this frame. The zone is left as by a
    /// shot. It takes no memory.
    pub fn picture<B: Allocator>(
        &mut self,
        copied: Option<MovieCopy<A>>,
        k: usize,
        picture: &mut Picture<B>,
    ) -> Viewed
        requires { k < length (movie_of (version_after self.old.made_for copied).history).inputs }
        ensures answer { result.end ≡ answer_of (state_after self.new.movie (k + 1)).halt }
        ensures picture { OnOk result.end (picture.new ≡ picture_of self.new.movie k) }
        ensures made_for { self.new.made_for ≡ version_after self.old.made_for copied }
        ensures made { IsMadeFor self.new self.new.made_for.history }
        ensures kept { IsViewFrom self.old.movie self.new.movie k
            (both self.old.states self.old.window) (both self.new.states self.new.window)
            result.ran }
        ensures forward { IsZoneAway self.new (k + 1) }
    {
        follow(&mut self.view, &mut self.version, copied);
        self.view.picture(k, picture).unwrap()
    }

    /// The state after `k` frames of the movie that was copied, or of the zone's own where none was, played from where
    /// [`SeatZone::picture`] plays; the window is then filled as by a picture of the frame before. The zone is left as if the frames were
    /// played from its nearest state. It takes no memory.
    pub fn reach(&mut self, copied: Option<MovieCopy<A>>, k: usize) -> ReachedState
        requires { k ≤ length (movie_of (version_after self.old.made_for copied).history).inputs }
        ensures state { result.state ≡ state_after self.new.movie k }
        ensures made_for { self.new.made_for ≡ version_after self.old.made_for copied }
        ensures made { IsMadeFor self.new self.new.made_for.history }
        ensures kept { IsStateFrom self.old.movie self.new.movie k
            (both self.old.states self.old.window) (both self.new.states self.new.window)
            result.ran }
        ensures forward { IsZoneAway self.new k }
    {
        follow(&mut self.view, &mut self.version, copied);
        self.view.state(k).unwrap()
    }

    /// Gains the states of another greenzone, once zone and window are cut for that one's movie, and returns how many. After
    /// `AllocError` nothing is changed.
    pub fn share(
        &mut self,
        movie: &Movie<A>,
        version: &Version<A>,
        other: &Green<A>,
    ) -> Result<usize, AllocError>
        requires registry { self.old.made_for.registry ≡ version.now.registry }
        requires movie { movie.now ≡ movie_of version.now.history }
        requires lawful { IsLawful movie.now other.now }
        ensures made_for { OnOk result (self.new.made_for ≡ version.now) }
        ensures made { OnOk result (IsMadeFor self.new self.new.made_for.history) }
        ensures gained { IfOk result
            (Shares self.old.movie self.new.movie self.old.states other.now self.new.states) }
        ensures cut { OnOk result (CutsWindow self.old self.new) }
        ensures memory { OnErr result (self.new ≡ self.old) }
    {
        let copied = copy_unless_known(self.alloc, &self.version, movie, version)?;
        follow(&mut self.view, &mut self.version, copied);
        Ok(self.view.gain(other))
    }

    /// A copy of the states that is cut for a movie, as `shot` cuts; the zone isn't changed.
    pub fn moved<B: Allocator, C: Allocator>(
        &self,
        alloc: B,
        movie: &Movie<C>,
    ) -> Result<Green<B>, AllocError>
        ensures moved { IfOk result
            (λ green. IsMoved self.now.movie movie.now self.now.states green) }
        ensures lawful { IfOk result (λ green. IsLawful movie.now green) }
    {
        let mut green = self.view.copy_states(alloc)?;
        green.cut(shared_front(self.view.movie(), movie), movie.len());
        Ok(green)
    }
}

/// A view becomes one of the movie that was copied, and is cut for it; where none was, it stays as it is.
fn follow<A: Allocator>(view: &mut View<A>, version: &mut Version<A>, copied: Option<MovieCopy<A>>)
    requires movie { view.old.movie ≡ movie_of version.old.history }
    requires lawful { AreOfMovie view.old }
    ensures version { version.new ≡ version_after version.old copied }
    ensures movie { view.new.movie ≡ movie_of version.new.history }
    ensures brought { IsBrought view.old view.new }
    ensures lawful { AreOfMovie view.new }
{
    if let Some(copied) = copied {
        view.follow(copied.movie);
        *version = copied.version;
    }
}

/// A copy of the movie, where its history isn't the known one.
fn copy_unless_known<A: Allocator + Copy>(
    alloc: A,
    known: &Version<A>,
    movie: &Movie<A>,
    version: &Version<A>,
) -> Result<Option<MovieCopy<A>>, AllocError>
    requires registry { known.now.registry ≡ version.now.registry }
    requires movie { movie.now ≡ movie_of version.now.history }
    ensures { IfOk result (λ copied. version_after known.now copied ≡ version.now) }
{
    if known.is_same(version) {
        return Ok(None);
    }
    Ok(Some(MovieCopy {
        movie: movie.copy(alloc)?,
        version: version.copy(),
    }))
}
