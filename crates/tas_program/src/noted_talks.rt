//! Conversations with a journal, and the choice between them and those without.
//!
//! CART and MOVIE are opened before the journal's file is made, and a conversation that doesn't begin removes it: so a fault of
//! theirs leaves no journal, but for a moment in which they are read. The file must be new. One that is there isn't gone on from:
//! `tas recover` makes its movie, from which a conversation with a new journal can start. A desk's journal is treated alike.

ghost use Rattle.std.specs.Prelude.{◌≡◌, Err, None};
ghost use Rattle.tas_program.specs.Files.{files_by};
ghost use Rattle.tas_program.specs.Noting.{NotesOver, NotesTalk, from_blank, from_cart, from_movie, noted_end};
ghost use Rattle.tas_program.specs.Program.{LeavesWords, tool_end};

use crate::journal_files::{FileName, JournalWord, NewFile, new_file};
use crate::running::{ended, open};
use crate::saved_talks::{hold_talk, open_two};
use crate::{Folder, Permit, TaskFault};
use std::alloc::Allocator;
use std::io::{Read, Write};
use std::marker::Brand;
use std::sync::Wait;
use tas_movie::Movie;
use tas_tool::{
    NotedTalk, TalkFault, Talked, noted_cart_talk_run, noted_movie_talk_run, noted_talk_run,
};
use tas_words::{Start, TalkWords};

/// How a conversation ended, and the movie that it left.
#[derive(Drop)]
pub(crate) struct Held<A: Allocator> {
    /// How it ended.
    pub(crate) end: Result<(), TaskFault>,
    /// The movie that its edits have made; `None` where it didn't begin.
    pub(crate) movie: Option<Movie<A>>,
}

/// A conversation that isn't held.
fn unheld<A: Allocator>(fault: TaskFault) -> Held<A>
    ensures end { result.end ≡ Err fault }
    ensures movie { result.movie ≡ None }
{
    Held {
        end: Err(fault),
        movie: None,
    }
}

/// A conversation without a journal, as one of a task.
fn unnoted<A: Allocator>(talked: Talked<A>) -> Held<A>
    ensures end { result.end ≡ tool_end talked.end }
    ensures movie { result.movie ≡ talked.movie }
{
    Held {
        end: ended(talked.end),
        movie: talked.movie,
    }
}

/// The end of a conversation with a journal, as that of a task.
fn noted_end(end: Result<(), TalkFault>) -> Result<(), TaskFault>
    ensures { result ≡ noted_end end }
{
    match end {
        Ok(()) => Ok(()),
        Err(TalkFault::Tool(fault)) => Err(TaskFault::Tool(fault)),
        Err(TalkFault::Journal(fault)) => Err(TaskFault::Journal(fault)),
    }
}

/// A conversation with a journal, as one of a task: its file is closed, and removed where the conversation didn't begin.
fn close_journal<N: FileName, F: Folder, A: Allocator>(
    permit: Permit,
    folder: &F,
    name: &str,
    talk: NotedTalk<NewFile<'_, N, F>, A>,
) -> Held<A>
    ensures end { result.end ≡ noted_end talk.entry.end }
    ensures movie { result.movie ≡ talk.entry.movie }
{
    let NotedTalk { end, movie, file } = talk;
    drop(file);
    if movie.is_none() {
        folder.remove(permit, name);
    }
    Held {
        end: noted_end(end),
        movie,
    }
}

/// Answers the lines of the input, with a journal of this name.
fn note_blank<N: FileName, T: Wait, A: Allocator + Copy, F: Folder, R: Read, W: Write>(
    rt: &T,
    alloc: A,
    permit: Permit,
    folder: &F,
    word: JournalWord<'_>,
    input: &mut R,
    output: &mut W,
) -> Held<A>
    requires name { word.name.now ≡ N.name }
    ensures { NotesOver F.steps word.entry.name.now from_blank result.movie
        (record { input = R.remaining input.old; output = W.contents output.old })
        (record { input = R.remaining input.new; output = W.contents output.new }) result.end }
{
    match new_file::<N, F>(permit, folder, word.name) {
        Ok(file) => {
            let talk = noted_talk_run(rt, alloc, file, input, output);
            close_journal(permit, folder, word.name, talk)
        }
        Err(fault) => unheld(fault),
    }
}

/// The same from a cartridge on.
fn note_cart<N: FileName, T: Wait, A: Allocator + Copy, F: Folder, R: Read, W: Write>(
    rt: &T,
    alloc: A,
    cart: F::File,
    permit: Permit,
    folder: &F,
    word: JournalWord<'_>,
    input: &mut R,
    output: &mut W,
) -> Held<A>
    requires name { word.name.now ≡ N.name }
    ensures { NotesOver F.steps word.entry.name.now (from_cart (F.File.remaining cart)) result.movie
        (record { input = R.remaining input.old; output = W.contents output.old })
        (record { input = R.remaining input.new; output = W.contents output.new }) result.end }
{
    let mut cart = cart;
    match new_file::<N, F>(permit, folder, word.name) {
        Ok(file) => {
            let talk = noted_cart_talk_run(rt, alloc, &mut cart, file, input, output);
            close_journal(permit, folder, word.name, talk)
        }
        Err(fault) => unheld(fault),
    }
}

/// The same from a movie on, of these two files.
fn note_movie<N: FileName, T: Wait, A: Allocator + Copy, F: Folder, R: Read, W: Write>(
    rt: &T,
    alloc: A,
    files: (F::File, F::File),
    permit: Permit,
    folder: &F,
    word: JournalWord<'_>,
    input: &mut R,
    output: &mut W,
) -> Held<A>
    requires name { word.name.now ≡ N.name }
    ensures { NotesOver F.steps word.entry.name.now
        (from_movie (F.File.remaining files.0) (F.File.remaining files.1)) result.movie
        (record { input = R.remaining input.old; output = W.contents output.old })
        (record { input = R.remaining input.new; output = W.contents output.new }) result.end }
{
    let (mut cart, mut movie) = files;
    match new_file::<N, F>(permit, folder, word.name) {
        Ok(file) => {
            let talk = noted_movie_talk_run(rt, alloc, &mut cart, &mut movie, file, input, output);
            close_journal(permit, folder, word.name, talk)
        }
        Err(fault) => unheld(fault),
    }
}

/// Answers the lines of the input, with a journal of this name, and returns the movie that is left.
fn note_talk<T: Wait, A: Allocator + Copy, F: Folder, R: Read, W: Write>(
    rt: &T,
    alloc: A,
    start: Start<'_>,
    name: &str,
    permit: Permit,
    folder: &F,
    input: &mut R,
    output: &mut W,
) -> Held<A>
    ensures { NotesTalk F.steps
        (files_by (F.bytes_of folder.now) (F.held_by folder.now) (F.shown folder.now))
        start.entry name.now result.movie
        (record { input = R.remaining input.old; output = W.contents output.old })
        (record { input = R.remaining input.new; output = W.contents output.new }) result.end }
{
    let word = JournalWord { name };
    match start {
        Start::Blank => {
            note_blank::<Brand, T, A, F, R, W>(rt, alloc, permit, folder, word, input, output)
        }
        Start::Cart { cart } => match open(folder, cart) {
            Ok(cart) => note_cart::<Brand, T, A, F, R, W>(
                rt, alloc, cart, permit, folder, word, input, output,
            ),
            Err(fault) => unheld(TaskFault::Tool(fault)),
        },
        Start::Movie(files) => match open_two(folder, files.cart, files.movie) {
            Ok(files) => note_movie::<Brand, T, A, F, R, W>(
                rt, alloc, files, permit, folder, word, input, output,
            ),
            Err(fault) => unheld(TaskFault::Tool(fault)),
        },
    }
}

/// Answers the lines of the input, with a journal where the words name one, and returns the movie that is left.
pub(crate) fn hold_words<T: Wait, A: Allocator + Copy, F: Folder, R: Read, W: Write>(
    rt: &T,
    alloc: A,
    words: TalkWords<'_>,
    permit: Permit,
    folder: &F,
    input: &mut R,
    output: &mut W,
) -> Held<A>
    ensures { LeavesWords F.steps
        (files_by (F.bytes_of folder.now) (F.held_by folder.now) (F.shown folder.now))
        words.entry result.movie
        (record { input = R.remaining input.old; output = W.contents output.old })
        (record { input = R.remaining input.new; output = W.contents output.new }) result.end }
{
    match words.journal {
        None => unnoted(hold_talk(rt, alloc, words.start, folder, input, output)),
        Some(name) => note_talk(rt, alloc, words.start, name, permit, folder, input, output),
    }
}
