//! What readers see: a movie, the number of edits that made it, and the version of their history; and the rule that ties it to
//! what each reader has seen.
//!
//! A rule of `left_right` says what holds at each moment; what a step may do is said by its kind. `PublishStep`: the
//! writer appends just the entries of one step, one or two, at once. `Look`: a reader's view, a beginning of what is
//! published, becomes all of it. `TellAll`: a writer's view stays, and a reader that learns it keeps the longer of both
//! (`learned`). `PublishNothing`: nothing changes; it comes only when a reader is made, since a writer starts with a
//! view that doesn't know the registry, and would have nothing to pass on.
//!
//! Two entries are one operation (`PublishedStep`) where nobody may see one without the other. Two publishes under the
//! lock wouldn't do, since readers take no lock; and the writer takes no operation back, so the second could be refused
//! memory when the first can't be undone. All growths, the journal's too, come before the publish.

ghost use Rattle.std.specs.Prelude.{◌≡◌};
ghost use Rattle.tas_movie.specs.Edit.{edited};
ghost use Rattle.tas_published.specs.Strokes.{edits_of, edited_by};
ghost use Rattle.tas_published.specs.Published.{published_of, step_of};

use crate::reader_view::ReaderView;
use crate::version::{Version, VersionRule};
use crate::{Entry, Stroke};
use atomic_table::{Join, Split};
use crossbeam_utils::rule::{Outcome, Protocol};
use left_right::Absorb;
use logbook::Rule;
use std::alloc::{AllocError, Allocator, Global};
use std::collections::LinkedList;
use std::marker::Model;
use tas_movie::{Edit, Movie, apply, check};

/// One of the two copies that `left_right` keeps of the movie.
#[derive(Drop)]
pub struct PublishedMovie<A: Allocator = Global>
where
    VersionRule: Rule<LinkedList<Entry<A>, A>, u64>,
{
    movie: Movie<A>,
    at: u64,
    version: Version<A>,
}

impl<A: Allocator> Model for PublishedMovie<A>
where
    VersionRule: Rule<LinkedList<Entry<A>, A>, u64>,
{
    ghost use Rattle.tas_published.specs.Published.{PublishedContent, published_of};

    ghost Value = { PublishedContent A };

    ghost view = { λ s. published_of s.movie s.at s.version };
}

/// The accepted edits of one step on their way into both copies, with the version of the history once they are made.
#[derive(Drop)]
pub struct PublishedStep<A: Allocator = Global>
where
    VersionRule: Rule<LinkedList<Entry<A>, A>, u64>,
{
    stroke: Stroke<A>,
    version: Version<A>,
}

impl<A: Allocator> Model for PublishedStep<A>
where
    VersionRule: Rule<LinkedList<Entry<A>, A>, u64>,
{
    ghost use Rattle.tas_published.specs.Published.{StepContent, step_of};
    ghost use Rattle.tas_published.specs.Strokes.{edits_of};

    ghost Value = { StepContent A };

    ghost view = { λ o. step_of (edits_of o.stroke) o.version };
}

impl<A: Allocator> PublishedStep<A> {
    /// Edits, with the version of the history once they are made.
    pub fn new(stroke: Stroke<A>, version: Version<A>) -> PublishedStep<A>
        ensures { result ≡ step_of (edits_of stroke) version }
    {
        PublishedStep { stroke, version }
    }
}

impl<A: Allocator> PublishedMovie<A> {
    /// A movie that no edit has made.
    pub fn new(movie: Movie<A>, version: Version<A>) -> PublishedMovie<A>
        ensures { result ≡ published_of movie 0 version }
    {
        PublishedMovie {
            movie,
            at: 0,
            version,
        }
    }

    /// The movie.
    pub fn movie(&self) -> &Movie<A>
        ensures { result.now ≡ self.now.movie }
    {
        &self.movie
    }

    /// The movie, without the rest.
    pub fn into_movie(self) -> Movie<A>
        ensures { result ≡ self.movie }
    {
        let PublishedMovie {
            movie,
            at: _,
            version: _,
        } = self;
        movie
    }

    /// How many edits made the movie.
    pub fn at(&self) -> u64
        ensures { result ≡ self.now.at }
    {
        self.at
    }

    /// The version of the history that makes the movie.
    pub fn version(&self) -> &Version<A>
        ensures { result.now ≡ self.now.version }
    {
        &self.version
    }
}

/// Makes an edit where it is allowed; one that isn't changes nothing, as in the history's movie.
fn apply_if_allowed<A: Allocator>(movie: &mut Movie<A>, edit: &Edit<A>)
    ensures { movie.new ≡ edited movie.old edit.now }
{
    if check(movie, edit).is_ok() {
        apply(movie, edit);
    }
}

/// Makes the edits of a stroke, one after the other, each where it is allowed.
fn apply_stroke<A: Allocator>(movie: &mut Movie<A>, stroke: &Stroke<A>)
    ensures { movie.new ≡ edited_by movie.old (edits_of stroke.now) }
{
    match stroke {
        Stroke::Nothing => {}
        Stroke::One(edit) => apply_if_allowed(movie, edit),
        Stroke::Two(edit, next) => {
            apply_if_allowed(movie, edit);
            apply_if_allowed(movie, next);
        }
    }
}

impl<A: Allocator> Absorb<PublishedStep<A>> for PublishedMovie<A> {
    ghost use Rattle.tas_published.specs.Published.{after};

    type State = PublishedMovie<A>;

    ghost state = { λ s. s };

    ghost applied = { after };

    ghost never_fails = { Unit {0} };

    fn absorb_first(
        &mut self,
        operation: &PublishedStep<A>,
        _other: &PublishedMovie<A>,
    ) -> Result<(), AllocError> {
        apply_stroke(&mut self.movie, &operation.stroke);
        self.at = self.at.saturating_add(operation.stroke.count());
        self.version = operation.version.copy();
        Ok(())
    }
}

/// The rule between what is published and what was seen of it: the published movie is that of its history, which is legal,
/// and each reader has seen a prefix of it.
pub struct PrefixRule;

impl<A: Allocator> Protocol<PublishedMovie<A>, ReaderView<A>> for PrefixRule {
    ghost use Rattle.tas_published.specs.Published.{Holds, blank_view};

    ghost holds = { Holds };

    ghost first = { blank_view };
}

/// A reader's entry: what is published has been seen, and stays as it is.
pub struct Look;

impl<A: Allocator> Outcome<PublishedMovie<A>, ReaderView<A>> for Look {
    ghost use Rattle.tas_published.specs.Published.{Sees};

    ghost then = { Sees };
}

/// The writer publishes one step: the published history gains just its entries, one or two, at once.
pub struct PublishStep;

impl<A: Allocator> Outcome<PublishedMovie<A>, ReaderView<A>> for PublishStep {
    ghost use Rattle.tas_published.specs.Published.{PublishesStep};

    ghost then = { PublishesStep };
}

/// The writer publishes nothing, by which it comes to know the registry of what is published, for a new reader.
pub struct PublishNothing;

impl<A: Allocator> Outcome<PublishedMovie<A>, ReaderView<A>> for PublishNothing {
    ghost use Rattle.tas_published.specs.Published.{PublishesNothing};

    ghost then = { PublishesNothing };
}

/// The writer hands a reader all that it has seen, and keeps it. The reader keeps what it had seen where that is more.
pub struct TellAll;

impl<A: Allocator> Split<ReaderView<A>> for TellAll {
    ghost left = { λ v. v };

    ghost right = { λ v. v };
}

impl<A: Allocator> Join<ReaderView<A>> for TellAll {
    ghost use Rattle.tas_published.specs.Published.{blank_view, learned};

    ghost both = { learned };

    ghost spent = { blank_view };
}
