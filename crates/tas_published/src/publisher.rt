//! The history, and what is published of it.
//!
//! The publisher keeps that nothing waits to be published, that the published version is the journal, and that the
//! writer's view is the journal: by the rule the published movie is then the journal's.
//!
//! A number is tried until it works (`renew`): nobody else has the counter, so the first try does it, as long as
//! numbers are below 2^62; no clause says that. Under the lock a seat's reader enters, and the version that it finds is
//! compared with the one published last (`read_latest`). Nobody publishes meanwhile, so the first entry finds it. No
//! proof can see that, so the code would enter again.

ghost use Rattle.std.specs.Prelude.{◌≡◌, ◌<◌, ◌^◌, [], ◌∷◌, ◌++◌, drop, fold, IfOk, OnOk, OnErr, MatchResult};
ghost use Rattle.left_right.specs.Sides.{view};
ghost use mathlib.Core.List.{IsPrefix};
ghost use Rattle.tas_movie.specs.Content.{blank_movie};
ghost use Rattle.tas_movie.specs.Edit.{edited};
ghost use Rattle.tas_published.specs.History.{IsNextEntry};
ghost use Rattle.tas_published.specs.Version.{version_of};
ghost use Rattle.tas_published.specs.Strokes.{AreNext, entries_in};
ghost use Rattle.tas_published.specs.Published.{published_of, blank_view, after, HasSeenAll, HasStepMore, Follows, pushed_by, learned, view_of, KnowsRegistry};

use crate::Entry;
use crate::journal::{Step, add_step, take_back};
use crate::movie_reader::MovieReader;
use crate::published::{
    Look, PrefixRule, PublishNothing, PublishStep, PublishedMovie, PublishedStep, TellAll,
};
use crate::reader_view::ReaderView;
use crate::version::{LatestVersion, Version, VersionRule};
use core::mem::replace_with;
use crossbeam_utils::rule::Protocol;
use left_right::Absorb;
use left_right::reader::Reader;
use left_right::writer::Writer;
use logbook::Rule;
use std::alloc::{AllocError, Allocator, Global};
use std::collections::LinkedList;
use std::marker::Model;
use std::sync::Wait;
use tas_movie::Movie;

/// What publishes the movie.
type MovieWriter<A> = Writer<PublishedMovie<A>, PublishedStep<A>, ReaderView<A>, PrefixRule, A>;

/// What reads the published movie, under the rule.
pub(crate) type RuledReader<A> = Reader<PublishedMovie<A>, ReaderView<A>, PrefixRule, A>;

/// What a session leaves.
#[derive(Drop)]
pub struct Closed<A: Allocator = Global> {
    /// The movie.
    pub movie: Movie<A>,
    /// The history that made it.
    pub journal: Vec<Entry<A>, A>,
}

/// The history, and the movie that it makes, which readers see. It can't be dropped: end it by `close`.
pub struct Publisher<A: Allocator = Global>
where
    VersionRule: Rule<LinkedList<Entry<A>, A>, u64>,
    PublishedMovie<A>: Absorb<PublishedStep<A>, State = PublishedMovie<A>>,
    PrefixRule: Protocol<PublishedMovie<A>, ReaderView<A>>,
{
    journal: Vec<Entry<A>, A>,
    latest: LatestVersion<A>,
    writer: MovieWriter<A>,
}

impl<A: Allocator> Model for Publisher<A>
where
    VersionRule: Rule<LinkedList<Entry<A>, A>, u64>,
    PublishedMovie<A>: Absorb<PublishedStep<A>, State = PublishedMovie<A>>,
    PrefixRule: Protocol<PublishedMovie<A>, ReaderView<A>>,
{
    ghost use Rattle.std.specs.Prelude.{drop};
    ghost use Rattle.left_right.specs.Sides.{view as known_by};
    ghost use Rattle.tas_published.specs.Published.{IsCurrent, PublisherContent};

    ghost Value = { PublisherContent A };

    ghost view = { λ p. record {
      registry = p.latest.registry;
      journal = p.journal.items;
      movie =
          p.writer.desk.shown.value.movie;
    } };

    // The movie is the one that the journal makes (edits folded from the blank cartridge with no inputs). It is what is
    // published, with nothing pending, and the writer's view is the journal.
    // Refused: edit_writes_the_journal_alone, edit_is_published_twice.
    ghost invariant = { λ p. IsCurrent p.writer.desk.shown.value
        (drop p.writer.behind p.writer.log.items) p.latest.registry p.journal.items
        (known_by p.writer.desk.place).seen };
}

/// A writer of the blank movie, of the empty history that has this version, with places for this many readers.
fn new_writer<A: Allocator + Copy>(
    alloc: A,
    readers: usize,
    version: &Version<A>,
) -> Result<MovieWriter<A>, AllocError>
    requires few { (0 < readers) × (readers < 2 ^ 32) }
    requires empty { version.now.history ≡ [] }
    ensures none { IfOk result (λ w. drop w.behind w.log.items ≡ []) }
    ensures value { IfOk result (λ w. w.desk.shown.value ≡ published_of blank_movie 0 version.now) }
    ensures view { IfOk result (λ w. view w.desk.place ≡ blank_view) }
{
    let first = Movie::blank(alloc)?;
    let second = Movie::blank(alloc)?;
    Writer::new(
        alloc,
        PublishedMovie::new(first, version.copy()),
        PublishedMovie::new(second, version.copy()),
        readers,
    )
}

/// Makes the next version, of this history. Only the session numbers histories, so the first try succeeds.
fn renew<A: Allocator, R: Wait>(rt: &R, latest: &mut LatestVersion<A>, journal: &Vec<Entry<A>, A>)
    ensures { latest.new ≡ version_of latest.old.registry journal.now.items }
{
    for _ in rt.forever() {
        if latest.try_renew(journal) {
            return;
        }
    }
    unreachable!()
}

/// Publishes the one step that is pending, by value, so that the writer has seen it.
fn publish_step<A: Allocator, R: Wait>(writer: MovieWriter<A>, rt: &R) -> MovieWriter<A>
    requires known { HasSeenAll writer.desk.shown.value (view writer.desk.place) }
    requires more { HasStepMore writer.desk.shown.value
        (fold after writer.desk.shown.value (drop writer.behind writer.log.items)) }
    ensures none { drop result.behind result.log.items ≡ [] }
    ensures value { result.desk.shown.value
        ≡ fold after writer.desk.shown.value (drop writer.behind writer.log.items) }
    ensures more { HasStepMore writer.desk.shown.value result.desk.shown.value }
    ensures view { view result.desk.place ≡ view_of result.desk.shown.value.version }
{
    let (writer, _) = writer.publish_as::<PublishStep, R>(rt);
    writer
}

/// Publishes nothing, by value: what is published stays. A new writer hasn't seen the registry of its histories, which a new reader gets
/// from it; after such a publish it has.
fn publish_nothing<A: Allocator, R: Wait>(writer: MovieWriter<A>, rt: &R) -> MovieWriter<A>
    requires none { drop writer.behind writer.log.items ≡ [] }
    requires known { HasSeenAll writer.desk.shown.value (view writer.desk.place) }
    ensures none { drop result.behind result.log.items ≡ [] }
    // When a reader is made, the writer publishes with nothing pending, which changes nothing.
    // Refused: nothing_is_published_as_an_edit.
    ensures same { result.desk.shown.value ≡ writer.desk.shown.value }
    ensures view { view result.desk.place ≡ view_of writer.desk.shown.value.version }
{
    let (writer, _) = writer.publish_as::<PublishNothing, R>(rt);
    writer
}

/// Publishes one step, by value. Its only growth comes first: where that is refused nothing is published.
fn publish<A: Allocator, R: Wait>(
    writer: MovieWriter<A>,
    rt: &R,
    change: PublishedStep<A>,
) -> (MovieWriter<A>, Result<(), AllocError>)
    requires none { drop writer.behind writer.log.items ≡ [] }
    requires known { HasSeenAll writer.desk.shown.value (view writer.desk.place) }
    requires follows { Follows writer.desk.shown.value change }
    ensures none { drop result.0.behind result.0.log.items ≡ [] }
    ensures value { MatchResult result.1
        (λ _. result.0.desk.shown.value ≡ after writer.desk.shown.value change)
        (λ _. result.0.desk.shown.value ≡ writer.desk.shown.value) }
    // What is published changes by one step at a time: the writer, which has seen all that is published, appends just
    // the step's entries, one or two, at once.
    ensures more { OnOk result.1 (HasStepMore writer.desk.shown.value result.0.desk.shown.value) }
    ensures view { MatchResult result.1
        (λ _. view result.0.desk.place ≡ view_of result.0.desk.shown.value.version)
        (λ _. view result.0.desk.place ≡ view writer.desk.place) }
{
    let mut writer = writer;
    if let Err(_) = writer.append(change) {
        return (writer, Err(AllocError));
    }
    (publish_step(writer, rt), Ok(()))
}

/// Hands a reader of this writer all that the writer has seen. The reader has seen no less than before.
fn tell_all<A: Allocator>(writer: &mut MovieWriter<A>, reader: &mut RuledReader<A>)
    requires own { reader.old.place.table_id ≡ writer.old.desk.place.table_id }
    requires begins { IsPrefix (view reader.old.place).seen (view writer.old.desk.place).seen }
    ensures none { drop writer.new.behind writer.new.log.items
        ≡ drop writer.old.behind writer.old.log.items }
    ensures value { writer.new.desk.shown.value ≡ writer.old.desk.shown.value }
    ensures view { view writer.new.desk.place ≡ view writer.old.desk.place }
    ensures learned { view reader.new.place
        ≡ learned (view reader.old.place) (view writer.old.desk.place) }
    // A reader that learns has seen no less than before.
    // Refused: reader_forgets_what_it_had_seen.
    ensures grows { IsPrefix (view reader.old.place).seen (view reader.new.place).seen }
{
    reader.learn::<TellAll>(writer.tell::<TellAll>());
}

/// A reader that has seen what is published, or an error where there is no place for it.
fn make_reader<A: Allocator, R: Wait>(
    writer: MovieWriter<A>,
    rt: &R,
) -> (MovieWriter<A>, Result<RuledReader<A>, AllocError>)
    requires none { drop writer.behind writer.log.items ≡ [] }
    requires known { HasSeenAll writer.desk.shown.value (view writer.desk.place) }
    ensures none { drop result.0.behind result.0.log.items ≡ [] }
    ensures value { result.0.desk.shown.value ≡ writer.desk.shown.value }
    ensures own { view result.0.desk.place ≡ view_of writer.desk.shown.value.version }
    ensures view { IfOk result.1 (λ r. view r.place ≡ view_of writer.desk.shown.value.version) }
{
    let mut writer = publish_nothing(writer, rt);
    match writer.factory().reader() {
        Ok(mut reader) => {
            tell_all(&mut writer, &mut reader);
            (writer, Ok(reader))
        }
        Err(error) => (writer, Err(error)),
    }
}

impl<A: Allocator + Copy> Publisher<A> {
    /// The blank movie, with no edits, with places for this many readers. The writer is made last.
    pub fn new(alloc: A, readers: usize) -> Result<Publisher<A>, AllocError>
        requires { (0 < readers) × (readers < 2 ^ 32) }
        // A new publisher has the blank movie and no edits.
        // Refused: none, see `Publisher`.
        ensures { IfOk result
            (λ publisher. publisher
            ≡ record { registry = publisher.registry; journal = []; movie = blank_movie }) }
    {
        let latest = LatestVersion::new();
        let writer = new_writer(alloc, readers, latest.version())?;
        Ok(Publisher {
            journal: Vec::new(alloc),
            latest,
            writer,
        })
    }

    /// Adds an entry that can come next, and publishes it. All growths come first, and then nothing can fail.
    pub fn push<R: Wait>(&mut self, rt: &R, next: Entry<A>) -> Result<(), AllocError>
        requires { IsNextEntry self.old.journal next }
        // An entry is added to the journal and its edit made in the movie; where memory is refused all stays as it was.
        // Refused: none, it is `push_step` of one entry.
        ensures done { OnOk result
            (self.new
            ≡ record {
              registry = self.old.registry;
              journal = self.old.journal
                  ++ next ∷ [];
              movie = edited self.old.movie next.edit;
            }) }
        ensures refused { OnErr result (self.new ≡ self.old) }
    {
        self.push_step(rt, Step::One(next))
    }

    /// Adds the entries of a step that can come next, one after the other, and publishes them at once. All growths come first, and
    /// then nothing can fail.
    pub fn push_step<R: Wait>(&mut self, rt: &R, step: Step<A>) -> Result<(), AllocError>
        requires { AreNext self.old.journal (entries_in step) }
        // The entries of a step are added to the journal and their edits made in the movie; where memory is refused,
        // also between two entries, all stays as it was.
        // Refused: first_edit_stays_where_the_second_is_refused.
        ensures done { OnOk result (self.new ≡ pushed_by self.old (entries_in step)) }
        ensures refused { OnErr result (self.new ≡ self.old) }
    {
        replace_with(
            self,
            step,
            |publisher: Publisher<A>, step: Step<A>| -> (Publisher<A>, Result<(), AllocError>)
                requires { AreNext publisher.journal (entries_in step) }
                ensures done { OnOk result.1 (result.0 ≡ pushed_by publisher (entries_in step)) }
                ensures refused { OnErr result.1 (result.0 ≡ publisher) }
            { publisher.pushed(rt, step) },
        )
    }

    /// As [`Publisher::push_step`], by value, since the writer publishes by value.
    fn pushed<R: Wait>(self, rt: &R, step: Step<A>) -> (Publisher<A>, Result<(), AllocError>)
        requires { AreNext self.journal (entries_in step) }
        ensures done { OnOk result.1 (result.0 ≡ pushed_by self (entries_in step)) }
        ensures refused { OnErr result.1 (result.0 ≡ self) }
    {
        let Publisher {
            mut journal,
            mut latest,
            writer,
        } = self;
        let kept = journal.as_slice().len();
        match add_step(&mut journal, step) {
            Ok(stroke) => {
                renew(rt, &mut latest, &journal);
                let version = latest.version().copy();
                let change = PublishedStep::new(stroke, version);
                let (writer, answer) = publish(writer, rt, change);
                if answer.is_err() {
                    take_back(&mut journal, kept);
                }
                let publisher = Publisher {
                    journal,
                    latest,
                    writer,
                };
                (publisher, answer)
            }
            Err(error) => {
                let publisher = Publisher {
                    journal,
                    latest,
                    writer,
                };
                (publisher, Err(error))
            }
        }
    }
}

impl<A: Allocator> Publisher<A> {
    /// A reader under the rule that has seen the history.
    fn ruled_reader<R: Wait>(&mut self, rt: &R) -> Result<RuledReader<A>, AllocError>
        ensures same { self.new ≡ self.old }
        ensures view { IfOk result
            (λ r. view r.place ≡ view_of (version_of self.old.registry self.old.journal)) }
    {
        replace_with(
            &mut self.writer,
            (),
            |writer: MovieWriter<A>, _none: ()| -> (
                MovieWriter<A>,
                Result<RuledReader<A>, AllocError>,
            )
                requires { (drop writer.behind writer.log.items ≡ [])
                    × HasSeenAll writer.desk.shown.value (view writer.desk.place) }
                ensures none { drop result.0.behind result.0.log.items ≡ [] }
                ensures value { result.0.desk.shown.value ≡ writer.desk.shown.value }
                ensures own { view result.0.desk.place ≡ view_of writer.desk.shown.value.version }
                ensures view { IfOk result.1
                    (λ r. view r.place ≡ view_of writer.desk.shown.value.version) }
            { make_reader(writer, rt) },
        )
    }

    /// Lets a reader enter until it sees the version that this publisher published last. While the publisher is lent nobody
    /// publishes, so its first entry does.
    fn read_latest<R: Wait>(&self, rt: &R, reader: RuledReader<A>) -> RuledReader<A>
        requires { KnowsRegistry (view reader.place) self.now.registry }
        ensures seen { view result.place ≡ view_of (version_of self.now.registry self.now.journal) }
        ensures begins { IsPrefix (view reader.place).seen self.now.journal }
    {
        let mut reader = reader;
        for _ in rt.forever() {
            match reader.enter_as::<Look>() {
                Ok(reading) => {
                    let version = self.writer.published().version();
                    let is_latest = reading.get().version().is_same(version);
                    reader = reading.leave();
                    if is_latest {
                        return reader;
                    }
                }
                Err(back) => reader = back,
            }
        }
        unreachable!()
    }

    /// A reader that has seen the history. An error comes where there is no place for it.
    pub fn reader<R: Wait>(&mut self, rt: &R) -> Result<MovieReader<A>, AllocError>
        // A reader is made with the whole history seen, and one that is shown the history has seen all of it, which
        // begins with what it had seen.
        // Refused: none, see `Publisher::show_to`.
        ensures same { self.new ≡ self.old }
        ensures seen { IfOk result
            (λ reader. reader ≡ view_of (version_of self.old.registry self.old.journal)) }
    {
        let reader = self.ruled_reader(rt)?;
        Ok(MovieReader::new(reader))
    }

    /// Lets a reader see the history, which begins with all that it had seen.
    pub fn show_to<R: Wait>(&self, rt: &R, reader: &mut MovieReader<A>)
        requires { KnowsRegistry reader.old self.now.registry }
        // Refused: any_version_is_the_latest.
        ensures seen { reader.new ≡ view_of (version_of self.now.registry self.now.journal) }
        ensures begins { IsPrefix reader.old.seen self.now.journal }
    {
        replace_with(
            &mut reader.ruled,
            (),
            |reader: RuledReader<A>, _none: ()| -> (RuledReader<A>, ())
                requires { KnowsRegistry (view reader.place) self.now.registry }
                ensures seen { view result.0.place
                    ≡ view_of (version_of self.entry.now.registry self.entry.now.journal) }
                ensures begins { IsPrefix (view reader.place).seen self.entry.now.journal }
            { (self.read_latest(rt, reader), ()) },
        )
    }

    /// Ends it, and returns its movie and history.
    pub fn close<R: Wait>(self, rt: &R) -> Closed<A>
        // Refused: session_closes_without_its_journal.
        ensures journal { result.journal.items ≡ self.journal }
        ensures movie { result.movie ≡ self.movie }
    {
        let Publisher {
            journal,
            latest: _,
            writer,
        } = self;
        let published = Box::into_inner(writer.take(rt));
        Closed {
            movie: published.into_movie(),
            journal,
        }
    }

    /// The movie.
    pub fn movie(&self) -> &Movie<A>
        // `movie`, `version` and `journal` show what there is, and `close` returns movie and journal.
        // Refused: none, see `Publisher::journal` and `Publisher::close`.
        ensures { result.now ≡ self.now.movie }
    {
        self.writer.published().movie()
    }

    /// The version of the history.
    pub fn version(&self) -> &Version<A>
        // Refused: none, see `Publisher::movie`.
        ensures { result.now ≡ version_of self.now.registry self.now.journal }
    {
        self.writer.published().version()
    }

    /// The history, in order.
    pub fn journal(&self) -> &[Entry<A>]
        // Refused: journal_without_its_first_half.
        ensures { result.now ≡ self.now.journal }
    {
        self.journal.as_slice()
    }
}
