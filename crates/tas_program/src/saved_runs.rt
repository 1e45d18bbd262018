//! Tasks whose output replaces a file.

ghost use Rattle.std.specs.Prelude.{◌≡◌};
ghost use Rattle.tas_program.specs.Files.{files_by};
ghost use Rattle.tas_program.specs.Program.{IsSaveRun, SavesTask, held, held_error, held_fault, held_recovery, saved_end};

use crate::directory::Names;
use crate::saved_talks::talk_of;
use crate::searching::do_task;
use crate::{
    Directory, Folder, Permit, SaveFault, Streams, TaskFault, check_output, save, save_talk,
    tell_waiting,
};
use std::alloc::{Allocator, Global};
use std::io::{Read, Write};
use std::sync::Wait;
use std::thread::Threads;
use std::time::Clock;
use tas_journal::RecoveryFault;
use tas_search::SearchError;
use tas_tool::{RunFault, ToolFault};
use tas_words::Task;

/// The fault of an engine whose output is held in memory.
fn held_fault(fault: ToolFault) -> ToolFault
    ensures { result ≡ held_fault fault }
{
    match fault {
        ToolFault::Run(RunFault::Write { written: _ }) => ToolFault::Run(RunFault::Memory),
        fault => fault,
    }
}

/// The same of a search.
fn held_error(error: SearchError) -> SearchError
    ensures { result ≡ held_error error }
{
    match error {
        SearchError::Run(RunFault::Write { written: _ }) => SearchError::Memory,
        error => error,
    }
}

/// The same of a recovery.
fn held_recovery(fault: RecoveryFault) -> RecoveryFault
    ensures { result ≡ held_recovery fault }
{
    match fault {
        RecoveryFault::Run(RunFault::Write { written: _ }) => RecoveryFault::Run(RunFault::Memory),
        fault => fault,
    }
}

/// The same of any task.
fn held(fault: TaskFault) -> TaskFault
    ensures { result ≡ held fault }
{
    match fault {
        TaskFault::Tool(fault) => TaskFault::Tool(held_fault(fault)),
        TaskFault::Search(error) => TaskFault::Search(held_error(error)),
        TaskFault::Recover(fault) => TaskFault::Recover(held_recovery(fault)),
        fault => fault,
    }
}

/// The end of a task whose output was to replace a file.
fn saved_end(end: Result<(), SaveFault>) -> Result<(), TaskFault>
    ensures { result ≡ saved_end end }
{
    match end {
        Ok(()) => Ok(()),
        Err(fault) => Err(TaskFault::Save(fault)),
    }
}

/// Does a task by its engine, as [`run_task`](crate::run_task) does, but its output replaces a file of this directory ([`save`]), and
/// nothing is written to standard output. The output is held in memory until the engine is done; after a fault of the engine's no file is
/// touched. The files that the task's words name must have been looked at ([`check_output`]).
pub fn save_run<
    T: Wait + Threads + Clock + Sync,
    A: Allocator + Copy + Send + Sync,
    F: Folder + Sync,
    D: Directory,
    R: Read,
    W: Write,
    E: Write,
>(
    rt: &T,
    global: Global,
    alloc: A,
    task: Task<'_>,
    file: &str,
    permit: Permit,
    folder: &F,
    directory: &mut D,
    streams: &mut Streams<R, W, E>,
) -> Result<(), TaskFault>
    // A task whose output replaces a file is done as without, but its output is the text that the file gets, and
    // standard output has nothing. After an engine's fault no file is touched, in a directory whose files are known.
    // Refused: output_of_a_fault_is_saved.
    ensures { SavesTask D.steps F.steps
        (files_by (F.bytes_of folder.now) (F.held_by folder.now) (F.shown folder.now))
        task.entry file.now streams.old streams.new
        (D.files directory.old) (D.files directory.new) result }
{
    let mut text = Vec::new(alloc);
    // A line that can't be written changes nothing.
    let _ = tell_waiting(alloc, folder.has_terminal(), task, &mut streams.errors);
    let end = do_task(
        rt,
        global,
        alloc,
        task,
        permit,
        folder,
        &mut streams.input,
        &mut text,
        &mut streams.errors,
    );
    match end {
        Ok(()) => saved_end(save(alloc, directory, file, text.as_slice())),
        Err(fault) => Err(held(fault)),
    }
}

/// Does a task whose output replaces a file: first the files that its words name are looked at ([`check_output`]); where one is at fault,
/// as where this file is one of them, nothing is opened. Then it does as [`save_run`], or for [`Task::Talk`] as [`save_talk`].
pub fn save_task<
    T: Wait + Threads + Clock + Sync,
    A: Allocator + Copy + Send + Sync,
    F: Folder + Sync,
    R: Read,
    W: Write,
    E: Write,
>(
    rt: &T,
    global: Global,
    alloc: A,
    task: Task<'_>,
    file: &str,
    folder: &F,
    streams: &mut Streams<R, W, E>,
) -> Result<(), TaskFault>
    // What is wrong with a word comes first, as `check_output` says. A good end comes only after the engine is done and a
    // new file was made beside this one, all of the output, or of the text of the movie that a conversation leaves, was
    // written to that and brought to the disk, and it took this one's name: each by a call that succeeded, as the folder
    // states its steps. The system's states none.
    // Refused: nothing_is_saved, output_is_saved_under_another_name.
    ensures { IsSaveRun F.steps
        (files_by (F.bytes_of folder.now) (F.held_by folder.now) (F.shown folder.now))
        task.entry file.now streams.old streams.new result }
{
    match check_output(folder, task, file) {
        Ok(permit) => {
            let mut names = Names::new(folder, permit);
            match talk_of(task) {
                Some(words) => save_talk(
                    rt, alloc, words, permit, file, folder, &mut names, streams,
                ),
                None => save_run(
                    rt, global, alloc, task, file, permit, folder, &mut names, streams,
                ),
            }
        }
        Err(fault) => Err(TaskFault::Word(fault)),
    }
}
