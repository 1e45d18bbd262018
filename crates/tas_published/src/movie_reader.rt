//! What a seat sees of the published movie, without the lock. These calls wait for nobody.

ghost use Rattle.std.specs.Prelude.{◌≡◌};
ghost use Rattle.left_right.specs.Sides.{view};
ghost use Rattle.tas_published.specs.Published.{KnowsRegistry};
ghost use Rattle.tas_published.specs.Readings.{FoundLen, FoundInput, FoundMovie, FoundCopy};

use crate::movie_copy::MovieCopy;
use crate::published::{Look, PrefixRule, PublishedMovie};
use crate::publisher::RuledReader;
use crate::reader_view::ReaderView;
use crate::version::{Version, VersionRule};
use crate::{Entry, InputError, NoEntry, ShotError, StateError};
use core::mem::replace_with;
use crossbeam_utils::rule::Protocol;
use logbook::Rule;
use std::alloc::{Allocator, Global};
use std::collections::LinkedList;
use std::marker::Model;
use vcs_inputs::Input;

/// A reader of the published movie. Contracts see its view: what it has seen.
#[derive(Drop)]
pub struct MovieReader<A: Allocator = Global>
where
    VersionRule: Rule<LinkedList<Entry<A>, A>, u64>,
    PrefixRule: Protocol<PublishedMovie<A>, ReaderView<A>>,
{
    pub(crate) ruled: RuledReader<A>,
}

impl<A: Allocator> Model for MovieReader<A>
where
    VersionRule: Rule<LinkedList<Entry<A>, A>, u64>,
    PrefixRule: Protocol<PublishedMovie<A>, ReaderView<A>>,
{
    ghost use Rattle.left_right.specs.Sides.{view as known_by};
    ghost use Rattle.tas_published.specs.declared.reader_view.ReaderView.{ReaderView};

    ghost Value = { ReaderView A };

    ghost view = { λ m. known_by m.ruled.place };
}

impl<A: Allocator> MovieReader<A> {
    /// A reader with what it has seen.
    pub(crate) fn new(reader: RuledReader<A>) -> MovieReader<A>
        ensures { result ≡ view reader.place }
    {
        MovieReader { ruled: reader }
    }

    /// How many edits there are, and how many inputs. `NoEntry` where the writer is gone; the reader is as it was.
    pub fn len(&mut self) -> Result<(u64, usize), NoEntry>
        // A reader's `len` and `input` return the length and an input of the published movie, that of a history that
        // begins with all that the reader had seen; of an input `NoFrame` exactly where the movie hasn't the frame; or
        // `NoEntry` with the reader as it was.
        // Refused: reader_makes_up_an_edit, length_of_the_opening_movie*.
        ensures { FoundLen self.old self.new result }
    {
        replace_with(
            &mut self.ruled,
            (),
            |reader: RuledReader<A>, _none: ()| -> (RuledReader<A>, Result<(u64, usize), NoEntry>)
                ensures { FoundLen (view reader.place) (view result.0.place) result.1 }
            { look_len(reader) },
        )
    }

    /// How many edits there are, and the input of frame `k`, counted from 0. `NoFrame` where the movie has no such frame; `NoEntry` where
    /// the writer is gone, with the reader as it was.
    pub fn input(&mut self, k: usize) -> Result<(u64, Input), InputError>
        // Refused: input_of_the_opening_movie, input_is_made_up.
        ensures { FoundInput self.old self.new k result }
    {
        replace_with(
            &mut self.ruled,
            (),
            |reader: RuledReader<A>, _none: ()| -> (
                RuledReader<A>,
                Result<(u64, Input), InputError>,
            )
                ensures { FoundInput (view reader.place) (view result.0.place) k result.1 }
            { look_input(reader, k) },
        )
    }
}

impl<A: Allocator + Copy> MovieReader<A> {
    /// How many edits there are, and a copy of the movie, where it has a frame `k`, counted from 0; no copy where the history is the
    /// known one. `NoFrame` where the movie has no such frame, `Memory` where memory is refused; `NoEntry` where the writer is gone, with
    /// the reader as it was.
    pub fn copy(
        &mut self,
        alloc: A,
        known: &Version<A>,
        k: usize,
    ) -> Result<(u64, Option<MovieCopy<A>>), ShotError>
        requires { KnowsRegistry self.old known.now.registry }
        // `copy` returns a copy of the published movie where this has the frame, or none, but only where its history is
        // the known one; `copy_of` the same where it has that many frames; `NoFrame` exactly where it hasn't; out of
        // memory only where it has.
        // Refused: shot_of_the_movie_that_was_known, state_after_the_last_frame_is_no_frame*.
        ensures { FoundCopy self.old self.new known.now k result }
    {
        // The greatest number stays as it is: no movie has that many frames.
        match self.copy_of(alloc, known, k.saturating_add(1)) {
            Ok(found) => Ok(found),
            Err(error) => Err(ShotError::from(error)),
        }
    }

    /// The same of a movie with at least this many frames.
    pub fn copy_of(
        &mut self,
        alloc: A,
        known: &Version<A>,
        frames: usize,
    ) -> Result<(u64, Option<MovieCopy<A>>), StateError>
        requires { KnowsRegistry self.old known.now.registry }
        // Refused: none, see `MovieReader::copy`.
        ensures { FoundMovie self.old self.new known.now frames result }
    {
        replace_with(
            &mut self.ruled,
            (),
            |reader: RuledReader<A>, _none: ()| -> (
                RuledReader<A>,
                Result<(u64, Option<MovieCopy<A>>), StateError>,
            )
                requires { KnowsRegistry (view reader.place) known.now.registry }
                ensures { FoundMovie (view reader.place) (view result.0.place) known.entry.now
                    frames result.1 }
            { look_copy(reader, alloc, known, frames) },
        )
    }
}

/// Reads how long the movie is.
fn look_len<A: Allocator>(reader: RuledReader<A>) -> (RuledReader<A>, Result<(u64, usize), NoEntry>)
    ensures { FoundLen (view reader.place) (view result.0.place) result.1 }
{
    match reader.enter_as::<Look>() {
        Ok(reading) => {
            let published = reading.get();
            let answer = (published.at(), published.movie().len());
            (reading.leave(), Ok(answer))
        }
        Err(reader) => (reader, Err(NoEntry)),
    }
}

/// Reads an input.
fn look_input<A: Allocator>(
    reader: RuledReader<A>,
    k: usize,
) -> (RuledReader<A>, Result<(u64, Input), InputError>)
    ensures { FoundInput (view reader.place) (view result.0.place) k result.1 }
{
    match reader.enter_as::<Look>() {
        Ok(reading) => {
            let published = reading.get();
            let (at, len) = (published.at(), published.movie().len());
            if k < len {
                let input = published.movie().input(k);
                return (reading.leave(), Ok((at, input)));
            }
            (reading.leave(), Err(InputError::NoFrame { at, len }))
        }
        Err(reader) => (reader, Err(InputError::NoEntry)),
    }
}

/// Copies the movie, where it has at least this many frames and its history isn't the known one.
fn look_copy<A: Allocator + Copy>(
    reader: RuledReader<A>,
    alloc: A,
    known: &Version<A>,
    frames: usize,
) -> (
    RuledReader<A>,
    Result<(u64, Option<MovieCopy<A>>), StateError>,
)
    requires { KnowsRegistry (view reader.place) known.now.registry }
    ensures { FoundMovie (view reader.place) (view result.0.place) known.now frames result.1 }
{
    match reader.enter_as::<Look>() {
        Ok(reading) => {
            let published = reading.get();
            let (at, len) = (published.at(), published.movie().len());
            if frames > len {
                return (reading.leave(), Err(StateError::NoFrame { at, len }));
            }
            if known.is_same(published.version()) {
                return (reading.leave(), Ok((at, None)));
            }
            let Ok(movie) = published.movie().copy(alloc) else {
                return (reading.leave(), Err(StateError::Memory));
            };
            let version = published.version().copy();
            (
                reading.leave(),
                Ok((at, Some(MovieCopy { movie, version }))),
            )
        }
        Err(reader) => (reader, Err(StateError::NoEntry)),
    }
}
