//! Conversations with a journal.
//!
//! The journal's head is written once the movie is made, before a line is read: a file that can't be written is reported while nothing is
//! lost yet. It begins with the entry after the two edits that make the movie, since the head has the movie itself.

ghost use Rattle.std.specs.Prelude.{◌≡◌, [], Err, None, IfErr, IfOk, OnOk};
ghost use Rattle.tas_movie.specs.Content.{blank_movie};
ghost use Rattle.tas_desk.specs.Seats.{name_of};
ghost use Rattle.tas_tool.specs.Talk.{talk_state_from};
ghost use Rattle.tas_tool.specs.NotedTalks.{IsKeptAt, IsNoBeginning, IsNotedCartTalk, IsNotedMovieTalk, IsNotedTalkLeaving};
ghost use Rattle.tas_tool.specs.Inside.Alone.{noted_end, noted_left, EndsNoted, HasHead, IsBegun, IsHeadCut, IsKeptOnceMade, IsStarted, SeesOwn};

use crate::making::{MOVIE_EDITS, put_movie, read_movie};
use crate::opening::open_alone;
use crate::talk_runs::read_blank_movie;
use std::alloc::{Allocator, Global};
use std::io::{Read, Write};
use std::marker::Brand;
use std::sync::Wait;
use tas_desk::{CloseOnDrop, Closed, Desk, Name, Seat, Unopened};
use tas_engines::{RunFault, ToolFault};
use tas_journaling::{Journal, JournalFile, TalkFault, converse_noted};
use tas_movie::Movie;

/// How a conversation with a journal ended, the movie that it left, and the journal's file.
#[derive(Drop)]
pub struct NotedTalk<J: JournalFile, A: Allocator = Global> {
    /// How it ended.
    pub end: Result<(), TalkFault>,
    /// The movie that its edits have made; `None` where it didn't begin.
    pub movie: Option<Movie<A>>,
    /// What its journal was written to.
    pub file: J,
}

impl<J: JournalFile, A: Allocator> NotedTalk<J, A> {
    /// A conversation that didn't begin.
    fn unbegun(file: J, fault: TalkFault) -> NotedTalk<J, A>
        ensures end { result.end ≡ Err fault }
        ensures movie { result.movie ≡ None }
        ensures file { J.contents result.file ≡ J.contents file }
    {
        NotedTalk {
            end: Err(fault),
            movie: None,
            file,
        }
    }
}

/// A fault of a run, as that of a conversation.
fn run_fault(fault: RunFault) -> TalkFault
    ensures { result ≡ TalkFault.Tool (ToolFault.Run fault) }
{
    TalkFault::Tool(ToolFault::Run(fault))
}

/// Writes the head of a journal. The file comes back where that fails.
fn write_head<A: Allocator + Copy, J: JournalFile>(
    alloc: A,
    movie: &Movie<A>,
    first: u64,
    file: J,
) -> Result<Journal<J>, (J, TalkFault)>
    ensures head { IfOk result (λ journal. IsBegun movie.now first (J.contents file) journal) }
    ensures fault { IfErr result
        (λ back. IsHeadCut movie.now (J.contents file) (J.contents back.0) back.1) }
{
    match Journal::begin(alloc, file, movie, first) {
        Ok(journal) => Ok(journal),
        Err((file, fault)) => Err((file, TalkFault::Journal(fault))),
    }
}

/// Gives a desk without edits its movie, where there is one, and begins the journal. The file comes back where that fails.
fn start_noted<N: Name, C: CloseOnDrop, A: Allocator + Copy, T: Wait, J: JournalFile>(
    rt: &T,
    alloc: A,
    desk: &Desk<N, C, A>,
    seat: &mut Seat<N, A>,
    movie: Option<Movie<A>>,
    file: J,
) -> Result<Journal<J>, (J, TalkFault)>
    requires first { (seat.old.number ≡ 0) × (seat.old.made ≡ 0) × (seat.old.front ≡ []) }
    ensures number { seat.new.number ≡ 0 }
    ensures zone { seat.new.zone ≡ seat.old.zone }
    ensures started { OnOk result (IsStarted seat.new movie) }
    ensures head { IfOk result
        (λ journal. HasHead (talk_state_from movie) (J.contents file) journal) }
    ensures fault { IfErr result (λ back. SeesOwn seat.new
        → IsNoBeginning (talk_state_from movie) (J.contents file) (J.contents back.0)
        (Err back.1)) }
{
    let Some(movie) = movie else {
        let Ok(blank) = Movie::blank(alloc) else {
            return Err((file, run_fault(RunFault::Memory)));
        };
        return write_head(alloc, &blank, 0, file);
    };
    if let Err(fault) = put_movie(rt, alloc, desk, seat, &movie) {
        return Err((file, run_fault(fault)));
    }
    write_head(alloc, &movie, MOVIE_EDITS, file)
}

/// Gives a desk without edits its movie, where there is one, begins the journal, and answers lines. An error where the conversation doesn't
/// begin. The file comes back.
fn noted_made<
    N: Name,
    C: CloseOnDrop,
    A: Allocator + Copy,
    T: Wait,
    J: JournalFile,
    R: Read,
    W: Write,
>(
    rt: &T,
    alloc: A,
    desk: &Desk<N, C, A>,
    seat: &mut Seat<N, A>,
    movie: Option<Movie<A>>,
    file: J,
    input: &mut R,
    output: &mut W,
) -> (Result<Result<(), TalkFault>, TalkFault>, J)
    requires first { (seat.old.number ≡ 0) × (seat.old.made ≡ 0) × (seat.old.front ≡ []) }
    requires zone { (seat.old.zone.movie ≡ blank_movie) × (seat.old.zone.states ≡ []) }
    ensures number { seat.new.number ≡ 0 }
    ensures talk { SeesOwn seat.new
        → EndsNoted seat.new (talk_state_from movie) (J.contents file) (J.contents result.1)
        (R.remaining input.old) (R.remaining input.new)
        (W.contents output.old) (W.contents output.new) result.0 }
    ensures kept { SeesOwn seat.new → IsKeptOnceMade (J.kept (J.contents result.1)) result.0 }
{
    // The movie is dropped there, since the desk has copies of its cartridge and inputs, and a conversation may be long.
    match start_noted(rt, alloc, desk, seat, movie, file) {
        Ok(mut journal) => {
            let end = converse_noted(rt, alloc, desk, seat, &mut journal, input, output);
            (Ok(end), journal.into_file())
        }
        Err((file, fault)) => (Err(fault), file),
    }
}

/// What a conversation left on a desk that was closed so.
fn closed_noted<J: JournalFile, A: Allocator>(
    made: Result<Result<(), TalkFault>, TalkFault>,
    closed: Closed<A>,
    file: J,
) -> NotedTalk<J, A>
    ensures end { result.end ≡ noted_end made }
    ensures movie { result.movie ≡ noted_left made closed.movie }
    ensures file { J.contents result.file ≡ J.contents file }
{
    match made {
        Ok(end) => NotedTalk {
            end,
            movie: Some(closed.movie),
            file,
        },
        Err(fault) => NotedTalk::unbegun(file, fault),
    }
}

/// Answers lines on a desk of one seat, from a movie on where there is one, and closes the desk. That nobody else made an edit is
/// known once it is closed.
fn noted_on<N: Name, A: Allocator + Copy, T: Wait, J: JournalFile, R: Read, W: Write>(
    rt: &T,
    alloc: A,
    unopened: Unopened<A>,
    movie: Option<Movie<A>>,
    file: J,
    input: &mut R,
    output: &mut W,
) -> NotedTalk<J, A>
    requires name { unopened ≡ name_of N.registry N.name N.parts }
    requires one { unopened.seats ≡ 1 }
    ensures talk { IsNotedTalkLeaving result.movie (J.contents file) (J.contents result.file)
        (talk_state_from movie) (R.remaining input.old) (R.remaining input.new)
        (W.contents output.old) (W.contents output.new) result.end }
    ensures kept { IsKeptAt (J.kept (J.contents result.file)) result.movie result.end }
{
    match open_alone::<N, A, T>(rt, alloc, unopened) {
        Ok((desk, mut seats)) => {
            let seat = &mut seats.as_mut_slice()[0];
            let (made, file) = noted_made(rt, alloc, &desk, seat, movie, file, input, output);
            let closed = desk.close(rt, seats);
            closed_noted(made, closed, file)
        }
        Err(refused) => NotedTalk::unbegun(file, run_fault(refused)),
    }
}

/// Answers lines, from a movie on where there is one.
fn noted_from<A: Allocator + Copy, T: Wait, J: JournalFile, R: Read, W: Write>(
    rt: &T,
    alloc: A,
    movie: Option<Movie<A>>,
    file: J,
    input: &mut R,
    output: &mut W,
) -> NotedTalk<J, A>
    ensures talk { IsNotedTalkLeaving result.movie (J.contents file) (J.contents result.file)
        (talk_state_from movie) (R.remaining input.old) (R.remaining input.new)
        (W.contents output.old) (W.contents output.new) result.end }
    ensures kept { IsKeptAt (J.kept (J.contents result.file)) result.movie result.end }
{
    let Ok(unopened) = Unopened::new(alloc, 1) else {
        return NotedTalk::unbegun(file, run_fault(RunFault::Memory));
    };
    noted_on::<Brand, A, T, J, R, W>(rt, alloc, unopened, movie, file, input, output)
}

/// Talks as [`talk_run`](crate::talk_run) does, with a journal in this file, which should have nothing yet: first the journal's head is written,
/// which has the blank movie, and then no answer goes out before the journal has a line of each edit that was made, and was brought to the disk.
/// The file comes back.
///
/// Faults: those of `talk_run`; and `Journal`, after a line that is carried out, of whose answer nothing is written then, or before the
/// first line, where the head isn't written whole.
pub fn noted_talk_run<A: Allocator + Copy, T: Wait, J: JournalFile, R: Read, W: Write>(
    rt: &T,
    alloc: A,
    file: J,
    input: &mut R,
    output: &mut W,
) -> NotedTalk<J, A>
    // A conversation with a journal answers its lines as one without, and ends as one without or where the journal fails.
    // The movie that is left is that of the answered lines, and of the line whose answer isn't out whole, where it was
    // carried out: where the journal failed, it was, and nothing of its answer is out.
    // Refused: noted_conversation_leaves_no_movie.
    // The journal's file was given, after what it had, the head of the movie that was there at the start and a line for each
    // edit of the answered lines, in order, and nothing else; where an answer was cut off, with the edits of its line; where
    // the journal failed, perhaps with some first bytes of these, or all where they can't be brought to the disk. As the
    // writers of answers and journal may fail at each byte, so it is at each moment: an answer's first byte is out only
    // where the journal has all edits so far.
    // tas_journaling has the edits of lines.
    // Refused: journal_has_the_head_of_a_blank_movie, journal_begins_with_the_edits_of_its_movie.
    // Where it didn't begin, nothing is read or written, and there is no movie: memory or a place was refused, and the
    // journal's file is as it was; or the head couldn't be written or brought to the disk, and the file has some first
    // bytes of it, fewer than all, or all of it.
    // Refused: fault_of_the_head_is_reported_as_refused_memory.
    ensures talk { IsNotedTalkLeaving result.movie (J.contents file) (J.contents result.file)
        (talk_state_from None) (R.remaining input.old) (R.remaining input.new)
        (W.contents output.old) (W.contents output.new) result.end }
    // All that the file of a conversation that began holds is on the disk, unless the journal failed there.
    // Refused: none, see `Journal::note`.
    ensures kept { IsKeptAt (J.kept (J.contents result.file)) result.movie result.end }
{
    noted_from(rt, alloc, None, file, input, output)
}

/// Reads a cartridge, and then talks as [`noted_talk_run`] does, but from this cartridge with no inputs on, as
/// [`cart_talk_run`](crate::cart_talk_run) does: the journal's head has its movie.
///
/// Faults, in order: those of `cart_talk_run` before its conversation begins, with nothing written to the journal; then those of `noted_talk_run`.
pub fn noted_cart_talk_run<
    A: Allocator + Copy,
    T: Wait,
    J: JournalFile,
    C: Read,
    R: Read,
    W: Write,
>(rt: &T, alloc: A, cart: &mut C, file: J, input: &mut R, output: &mut W) -> NotedTalk<J, A>
    // Over a cartridge, or a movie, it does the same from its movie on. Faults of the files come first, with nothing read of the
    // input and nothing written, to the journal neither.
    // Refused: blank_cartridge_stands_under_a_journal.
    ensures talk { IsNotedCartTalk result.movie (J.contents file) (J.contents result.file)
        (C.remaining cart.old) (C.remaining cart.new)
        (R.remaining input.old) (R.remaining input.new)
        (W.contents output.old) (W.contents output.new) result.end }
    // Refused: none, see `Journal::note`.
    ensures kept { IsKeptAt (J.kept (J.contents result.file)) result.movie result.end }
{
    match read_blank_movie(alloc, cart) {
        Ok(blank) => noted_from(rt, alloc, Some(blank), file, input, output),
        Err(fault) => NotedTalk::unbegun(file, TalkFault::Tool(fault)),
    }
}

/// Reads a cartridge and a movie text, and then talks as [`noted_talk_run`] does, but from this movie on, as
/// [`movie_talk_run`](crate::movie_talk_run) does: the journal's head has this movie.
///
/// Faults, in order: those of `movie_talk_run` before its conversation begins, with nothing written to the journal; then those of `noted_talk_run`.
pub fn noted_movie_talk_run<
    A: Allocator + Copy,
    T: Wait,
    J: JournalFile,
    C: Read,
    M: Read,
    R: Read,
    W: Write,
>(
    rt: &T,
    alloc: A,
    cart: &mut C,
    movie: &mut M,
    file: J,
    input: &mut R,
    output: &mut W,
) -> NotedTalk<J, A>
    // Refused: cartridge_and_movie_of_a_journal_are_swapped.
    ensures talk { IsNotedMovieTalk result.movie (J.contents file) (J.contents result.file)
        (C.remaining cart.old) (C.remaining cart.new)
        (M.remaining movie.old) (M.remaining movie.new)
        (R.remaining input.old) (R.remaining input.new)
        (W.contents output.old) (W.contents output.new) result.end }
    // Refused: none, see `Journal::note`.
    ensures kept { IsKeptAt (J.kept (J.contents result.file)) result.movie result.end }
{
    match read_movie(alloc, cart, movie) {
        Ok(movie) => noted_from(rt, alloc, Some(movie), file, input, output),
        Err(fault) => NotedTalk::unbegun(file, TalkFault::Tool(fault)),
    }
}
