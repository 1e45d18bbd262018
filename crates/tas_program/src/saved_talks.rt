//! Conversations without a journal, and those whose movie replaces a file.
//!
//! The movie is saved whatever ended the conversation: a client that is gone, or a write that fails, loses no edit that
//! was answered. Where it can't be saved that is the fault that is reported, as at the end of a desk. The new file is made at
//! the end, so that no killed conversation leaves one.

ghost use Rattle.std.specs.Prelude.{◌≡◌, ◌∷◌, [], Err, None, IfOk, IfErr};
ghost use Rattle.tas_program.specs.Files.{files_by};
ghost use Rattle.tas_program.specs.Program.{LeavesOver, LeavesTalk, LeftAfter, OverOne, OverTwo, SavesTalk, left_end, talk_of};
ghost use Rattle.tas_program.specs.Saving.{SaveEnds};
ghost use Rattle.tas_movie.specs.Text.{text2};
ghost use Rattle.tas_tool.specs.Talk.{IsCartTalkLeaving, IsMovieTalkLeaving};

use crate::noted_talks::{Held, hold_words};
use crate::running::open;
use crate::{Directory, Folder, Permit, SaveFault, Streams, TaskFault, save};
use std::alloc::Allocator;
use std::io::{Read, Write};
use std::sync::Wait;
use tas_movie::{Movie, print_text};
use tas_tool::{ReadFault, Talked, ToolFault, cart_talk_run, movie_talk_run, talk_run};
use tas_words::{Start, TalkWords, Task};

/// The words of a task's conversation, if it is one.
pub(crate) fn talk_of<'a>(task: Task<'a>) -> Option<TalkWords<'a>>
    ensures { result ≡ talk_of task.entry }
{
    match task {
        Task::Talk(words) => Some(words),
        _ => None,
    }
}

/// A conversation whose files can't be opened.
fn unopened<A: Allocator>(fault: ToolFault) -> Talked<A>
    ensures end { result.end ≡ Err fault }
    ensures movie { result.movie ≡ None }
{
    Talked {
        end: Err(fault),
        movie: None,
    }
}

/// Opens two files of these names.
pub(crate) fn open_two<F: Folder>(
    folder: &F,
    cart: &str,
    movie: &str,
) -> Result<(F::File, F::File), ToolFault>
    ensures cart { IfOk result (λ two. F.File.remaining two.0 ≡ F.bytes_of folder.now cart.now) }
    ensures movie { IfOk result (λ two. F.File.remaining two.1 ≡ F.bytes_of folder.now movie.now) }
    ensures fault { IfErr result (λ fault. fault ≡ ToolFault.Read ReadFault.Failed) }
{
    let first = open(folder, cart)?;
    let second = open(folder, movie)?;
    Ok((first, second))
}

/// Answers the lines of the input, from a cartridge on.
fn hold_over_cart<T: Wait, A: Allocator + Copy, F: Folder, R: Read, W: Write>(
    rt: &T,
    alloc: A,
    cart: &str,
    folder: &F,
    input: &mut R,
    output: &mut W,
) -> Talked<A>
    ensures { LeavesOver (F.bytes_of folder.now cart.now ∷ [])
        (OverOne (IsCartTalkLeaving result.movie)) result.movie
        (record { input = R.remaining input.old; output = W.contents output.old })
        (record { input = R.remaining input.new; output = W.contents output.new }) result.end }
{
    match open(folder, cart) {
        Ok(mut file) => cart_talk_run(rt, alloc, &mut file, input, output),
        Err(fault) => unopened(fault),
    }
}

/// Answers the lines of the input, from a movie on.
fn hold_over_movie<T: Wait, A: Allocator + Copy, F: Folder, R: Read, W: Write>(
    rt: &T,
    alloc: A,
    cart: &str,
    movie: &str,
    folder: &F,
    input: &mut R,
    output: &mut W,
) -> Talked<A>
    ensures { LeavesOver (F.bytes_of folder.now cart.now ∷ F.bytes_of folder.now movie.now ∷ [])
        (OverTwo (IsMovieTalkLeaving result.movie)) result.movie
        (record { input = R.remaining input.old; output = W.contents output.old })
        (record { input = R.remaining input.new; output = W.contents output.new }) result.end }
{
    match open_two(folder, cart, movie) {
        Ok((mut first, mut second)) => {
            movie_talk_run(rt, alloc, &mut first, &mut second, input, output)
        }
        Err(fault) => unopened(fault),
    }
}

/// Answers the lines of the input, and returns the movie that is left.
pub(crate) fn hold_talk<T: Wait, A: Allocator + Copy, F: Folder, R: Read, W: Write>(
    rt: &T,
    alloc: A,
    start: Start<'_>,
    folder: &F,
    input: &mut R,
    output: &mut W,
) -> Talked<A>
    ensures { LeavesTalk (files_by (F.bytes_of folder.now) (F.held_by folder.now) (F.shown folder.now))
        start.entry result.movie
        (record { input = R.remaining input.old; output = W.contents output.old })
        (record { input = R.remaining input.new; output = W.contents output.new }) result.end }
{
    match start {
        Start::Blank => talk_run(rt, alloc, input, output),
        Start::Cart { cart } => hold_over_cart(rt, alloc, cart, folder, input, output),
        Start::Movie(files) => {
            hold_over_movie(rt, alloc, files.cart, files.movie, folder, input, output)
        }
    }
}

/// Replaces a file with the text of a movie.
fn save_movie<A: Allocator + Copy, D: Directory>(
    alloc: A,
    directory: &mut D,
    file: &str,
    movie: &Movie<A>,
) -> Result<(), SaveFault>
    ensures { SaveEnds D.steps file.now (text2 movie.now) (D.files directory.old) (D.files directory.new)
        result }
{
    match print_text(alloc, movie) {
        Ok(text) => save(alloc, directory, file, text.as_slice()),
        Err(_) => Err(SaveFault::Memory),
    }
}

/// The end where a conversation ended so, and its movie was to replace a file.
fn left_end(done: Result<(), TaskFault>, saved: Result<(), SaveFault>) -> Result<(), TaskFault>
    ensures { result ≡ left_end done saved }
{
    match saved {
        Ok(()) => done,
        Err(fault) => Err(TaskFault::Save(fault)),
    }
}

/// Replaces a file with the movie that a conversation has left, if it left one.
fn save_left<A: Allocator + Copy, D: Directory>(
    alloc: A,
    directory: &mut D,
    file: &str,
    held: Held<A>,
) -> Result<(), TaskFault>
    ensures { LeftAfter D.steps held.end held.movie file.now
        (D.files directory.old) (D.files directory.new) result }
{
    let Held { end, movie } = held;
    match movie {
        Some(movie) => left_end(end, save_movie(alloc, directory, file, &movie)),
        None => end,
    }
}

/// Holds a conversation as [`run_task`](crate::run_task) does, and then the movie that it leaves replaces a file of this directory
/// ([`save`]), whatever ended it. Where the files can't be opened or make no movie, no file is touched. The files that the words name must
/// have been looked at ([`check_output`](crate::check_output)).
pub fn save_talk<
    T: Wait,
    A: Allocator + Copy,
    F: Folder,
    D: Directory,
    R: Read,
    W: Write,
    E: Write,
>(
    rt: &T,
    alloc: A,
    words: TalkWords<'_>,
    permit: Permit,
    file: &str,
    folder: &F,
    directory: &mut D,
    streams: &mut Streams<R, W, E>,
) -> Result<(), TaskFault>
    // A conversation whose movie replaces a file is held as without, and its answers go to standard output. The file gets the
    // text of the movie that is left, whatever ended the conversation; where it didn't begin no file is touched. A fault of
    // the file comes before that of the conversation; where there is none, the text was given as `save` says, as the
    // directory states its steps.
    // Refused: movie_of_a_conversation_is_not_saved, movie_is_saved_only_after_a_good_end, fault_of_the_file_is_lost.
    ensures { SavesTalk D.steps F.steps
        (files_by (F.bytes_of folder.now) (F.held_by folder.now) (F.shown folder.now))
        words.entry file.now streams.old streams.new
        (D.files directory.old) (D.files directory.new) result }
{
    let held = hold_words(
        rt,
        alloc,
        words,
        permit,
        folder,
        &mut streams.input,
        &mut streams.output,
    );
    save_left(alloc, directory, file, held)
}
