//! Desks, with a journal and without.
//!
//! The files of a desk's pairs are opened by its conversations, once its journal has its head. A pair's file of the journal's name would
//! then be the journal: answers would go over it, or its lines would be read as a client's. So the names are compared before anything is
//! opened. An ordinary file that is there is refused as the journal anyway.

ghost use Rattle.std.specs.Prelude.{◌≡◌, ◌<◌, ℕ, All, List, None, Option, length, map};
ghost use Rattle.tas_desk.specs.Seats.{most_seats};
ghost use Rattle.tas_program.specs.FileWords.{journal_fault};
ghost use Rattle.tas_program.specs.Files.{ends_of, files_by};
ghost use Rattle.tas_program.specs.Noting.{NotesDesk, NotesDeskAfter, NotesDoors, desk_end};
ghost use Rattle.tas_program.specs.Program.{DeskWordsEnd, DoesDesk, desk_of};
ghost use Rattle.tas_words.specs.Task.{pairs_in};

use crate::file_words::journal_fault;
use crate::journal_files::{FileName, JournalWord, NewFile, new_file};
use crate::pipes::{Pipes, pipes_of};
use crate::running::ended;
use crate::saved_talks::open_two;
use crate::{Folder, Permit, TaskFault};
use std::alloc::Global;
use std::io::Write;
use std::marker::Brand;
use std::sync::Wait;
use std::thread::Threads;
use tas_tool::{DeskFault, NotedDesk, ReadFault, ToolFault, desk_run, noted_desk_run};
use tas_words::{DeskWords, Pairs, Task};

/// The words of a task's desk, if it is one.
pub(crate) fn desk_of<'a>(task: Task<'a>) -> Option<DeskWords<'a>>
    ensures { result ≡ desk_of task.entry }
{
    match task {
        Task::Desk(words) => Some(words),
        _ => None,
    }
}

/// Answers the lines of several files at once, on one movie.
fn run_desk<T: Wait + Threads + Sync, F: Folder + Sync, W: Write>(
    rt: &T,
    alloc: Global,
    words: DeskWords<'_>,
    permit: Permit,
    folder: &F,
    output: &mut W,
) -> Result<(), ToolFault>
    ensures { (input : Option (List ℕ)) →
        DoesDesk (files_by (F.bytes_of folder.now) (F.held_by folder.now) (F.shown folder.now))
        words.entry
        (record { input = input; output = W.contents output.old })
        (record { input = input; output = W.contents output.new }) result }
{
    let (mut cart, mut movie) = open_two(folder, words.cart, words.movie)?;
    let Ok(mut doors) = pipes_of(alloc, folder, words.pairs, permit) else {
        return Err(ToolFault::Read(ReadFault::Memory));
    };
    desk_run(rt, alloc, &mut cart, &mut movie, &mut doors, output)
}

/// The end of a desk with a journal, as that of a task.
fn desk_end(end: Result<(), DeskFault>) -> Result<(), TaskFault>
    ensures { result ≡ desk_end end }
{
    match end {
        Ok(()) => Ok(()),
        Err(DeskFault::Tool(fault)) => Err(TaskFault::Tool(fault)),
        Err(DeskFault::Journal(fault)) => Err(TaskFault::Journal(fault)),
        Err(DeskFault::Seat { seat, fault }) => Err(TaskFault::SeatJournal { seat, fault }),
    }
}

/// A desk with a journal, as one of a task: its file is closed, and removed where no conversation began.
fn close_desk<N: FileName, F: Folder>(
    permit: Permit,
    folder: &F,
    name: &str,
    desk: NotedDesk<NewFile<'_, N, F>>,
) -> Result<(), TaskFault>
    ensures { result ≡ desk_end desk.entry.end }
{
    let NotedDesk {
        end,
        has_begun,
        file,
    } = desk;
    drop(file);
    if !has_begun {
        folder.remove(permit, name);
    }
    desk_end(end)
}

/// Answers the lines of the files at these doors, with a journal of this name, on the movie of these files.
fn note_doors<N: FileName + Send, T: Wait + Threads + Sync, F: Folder + Sync, W: Write>(
    rt: &T,
    alloc: Global,
    files: (F::File, F::File),
    doors: Vec<Pipes<'_, F>>,
    pairs: Pairs<'_>,
    permit: Permit,
    folder: &F,
    word: JournalWord<'_>,
    output: &mut W,
) -> Result<(), TaskFault>
    requires name { word.name.now ≡ N.name }
    requires pairs { map (λ door. door.pair) doors.items ≡ pairs_in pairs }
    requires folder { All (λ door. door.folder.now ≡ folder.now) doors.items }
    requires few { length (pairs_in pairs) < most_seats }
    ensures { (input : Option (List ℕ)) →
        NotesDoors F.steps word.entry.name.now
        (ends_of (files_by (F.bytes_of folder.now) (F.held_by folder.now) (F.shown folder.now))
        pairs.entry)
        (F.File.remaining files.0) (F.File.remaining files.1)
        (record { input = input; output = W.contents output.old })
        (record { input = input; output = W.contents output.new }) result }
{
    let (mut cart, mut movie) = files;
    let mut doors = doors;
    match new_file::<N, F>(permit, folder, word.name) {
        Ok(file) => {
            let desk = noted_desk_run(
                rt, alloc, alloc, file, &mut cart, &mut movie, &mut doors, output,
            );
            close_desk(permit, folder, word.name, desk)
        }
        Err(fault) => Err(fault),
    }
}

/// Answers the lines of several files at once, on one movie, with a journal of this name, which has a seat and is no pair's file.
fn note_pairs<T: Wait + Threads + Sync, F: Folder + Sync, W: Write>(
    rt: &T,
    alloc: Global,
    words: DeskWords<'_>,
    name: &str,
    permit: Permit,
    folder: &F,
    output: &mut W,
) -> Result<(), TaskFault>
    requires { journal_fault words name.now ≡ None }
    ensures { (input : Option (List ℕ)) →
        NotesDeskAfter F.steps
        (files_by (F.bytes_of folder.now) (F.held_by folder.now) (F.shown folder.now))
        words.entry name.now None
        (record { input = input; output = W.contents output.old })
        (record { input = input; output = W.contents output.new }) result }
{
    match open_two(folder, words.cart, words.movie) {
        Ok(files) => match pipes_of(alloc, folder, words.pairs, permit) {
            Ok(doors) => note_doors::<Brand, T, F, W>(
                rt,
                alloc,
                files,
                doors,
                words.pairs,
                permit,
                folder,
                JournalWord { name },
                output,
            ),
            Err(_) => Err(TaskFault::Tool(ToolFault::Read(ReadFault::Memory))),
        },
        Err(fault) => Err(TaskFault::Tool(fault)),
    }
}

/// Answers the lines of several files at once, on one movie, with a journal of this name.
fn note_desk<T: Wait + Threads + Sync, F: Folder + Sync, W: Write>(
    rt: &T,
    alloc: Global,
    words: DeskWords<'_>,
    name: &str,
    permit: Permit,
    folder: &F,
    output: &mut W,
) -> Result<(), TaskFault>
    ensures { (input : Option (List ℕ)) →
        NotesDesk F.steps
        (files_by (F.bytes_of folder.now) (F.held_by folder.now) (F.shown folder.now))
        words.entry name.now
        (record { input = input; output = W.contents output.old })
        (record { input = input; output = W.contents output.new }) result }
{
    match journal_fault(words, name) {
        Some(fault) => Err(TaskFault::Word(fault)),
        None => note_pairs(rt, alloc, words, name, permit, folder, output),
    }
}

/// Answers the lines of several files at once, on one movie, with a journal where the words name one. It takes its memory from `alloc`.
pub(crate) fn hold_desk<T: Wait + Threads + Sync, F: Folder + Sync, W: Write>(
    rt: &T,
    alloc: Global,
    words: DeskWords<'_>,
    permit: Permit,
    folder: &F,
    output: &mut W,
) -> Result<(), TaskFault>
    ensures { (input : Option (List ℕ)) →
        DeskWordsEnd F.steps
        (files_by (F.bytes_of folder.now) (F.held_by folder.now) (F.shown folder.now))
        words.entry
        (record { input = input; output = W.contents output.old })
        (record { input = input; output = W.contents output.new }) result }
{
    match words.journal {
        None => ended(run_desk(rt, alloc, words, permit, folder, output)),
        Some(name) => note_desk(rt, alloc, words, name, permit, folder, output),
    }
}
