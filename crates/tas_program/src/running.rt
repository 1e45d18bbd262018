//! Carrying an invocation out.
//!
//! What words make which invocation is clap's parse, of which contracts say the command's name, its files and numbers
//! and their ranges; `carry_out` says exactly how each one ends. A failed write to standard error changes no status,
//! and a fault's line is made whole before it is written, so that lines of programs with one log don't mix; where
//! memory is refused for it, it is written piece by piece.

ghost use Rattle.std.specs.Prelude.{◌≡◌, ◌<◌, ◌⊎◌, length, map, IfOk, IfErr, OnOk, OnErr};
ghost use Rattle.std.specs.Io.KnownBytes.{Appends};
ghost use Rattle.tas_engines.specs.declared.fault.RunFault.{RunFault};
ghost use Rattle.tas_engines.specs.Commands.{IsRun};
ghost use Rattle.tas_engines.specs.Output.{StopsWriting};
ghost use Rattle.tas_program.specs.Files.{files_by};
ghost use Rattle.tas_program.specs.Program.{EndsOver, DoesTask, IsTaskRun, CarriesOut, ProgramEnds, RunsScript, desk_of, end_status, talk_of, tool_end};
ghost use Rattle.tas_program.specs.Reporting.{reported_of};

use crate::named_runs::{run_edit, run_ram};
use crate::naming::run_named;
use crate::opened_runs::{run_export, run_film, run_new};
use crate::searching::do_task;
use crate::{Folder, Roles, Status, Streams, TaskFault, check_words, save_task, tell_waiting};
use std::alloc::{Allocator, Global};
use std::env::Args;
use std::io;
use std::io::{Read, Write};
use std::sync::Wait;
use std::thread::Threads;
use std::time::Clock;
use tas_engines::{Command, Whole, commands, run};
use tas_tool::{ReadFault, RunFault, ToolFault, movie_script_run, script_run, write_all};
use tas_words::{Invocation, MovieFiles, Task, collect_words, read_invocation};

/// Opens a file of this name.
pub(crate) fn open<F: Folder>(folder: &F, name: &str) -> Result<F::File, ToolFault>
    ensures file { IfOk result (λ file. F.File.remaining file ≡ F.bytes_of folder.now name.now) }
    ensures fault { IfErr result (λ fault. fault ≡ ToolFault.Read ReadFault.Failed) }
{
    folder
        .open(name)
        .map_err(|_| ToolFault::Read(ReadFault::Failed))
}

/// Runs the script that is the input.
fn run_script<T: Wait, A: Allocator + Copy, F: Folder, R: Read, W: Write>(
    rt: &T,
    alloc: A,
    start: Option<MovieFiles<'_>>,
    folder: &F,
    input: &mut R,
    output: &mut W,
) -> Result<(), ToolFault>
    ensures { RunsScript (files_by (F.bytes_of folder.now) (F.held_by folder.now) (F.shown folder.now))
        start.entry
        (record { input = R.remaining input.old; output = W.contents output.old })
        (record { input = R.remaining input.new; output = W.contents output.new }) result }
{
    match start {
        None => script_run(rt, alloc, input, output),
        Some(files) => {
            let (mut cart, mut movie) = (open(folder, files.cart)?, open(folder, files.movie)?);
            movie_script_run(rt, alloc, &mut cart, &mut movie, input, output)
        }
    }
}

/// Opens the files of these names, in order.
pub(crate) fn open_all<A: Allocator, F: Folder>(
    alloc: A,
    folder: &F,
    names: &[&str],
) -> Result<Vec<F::File, A>, ToolFault>
    ensures files { IfOk result (λ files. map F.File.remaining files.items
        ≡ map (λ name. F.bytes_of folder.now name.now) names.now) }
    ensures some { IfErr result (λ fault. 0 < length names.now) }
    ensures fault { IfErr result
        (λ fault. (fault ≡ ToolFault.Read ReadFault.Failed)
        ⊎ (fault ≡ ToolFault.Read ReadFault.Memory)) }
{
    let mut files = Vec::new(alloc);
    for k in 0..names.len() {
        let file = open(folder, names[k])?;
        let Ok(()) = files.push(file) else {
            return Err(ToolFault::Read(ReadFault::Memory));
        };
    }
    Ok(files)
}

/// Runs a command over the files of these names and the input.
pub(crate) fn run_over<C: Command, A: Allocator + Copy, F: Folder, R: Read, W: Write>(
    alloc: A,
    command: &C,
    names: &[&str],
    folder: &F,
    input: &mut R,
    output: &mut W,
) -> Result<(), ToolFault>
    ensures { EndsOver (map (λ name. F.bytes_of folder.now name.now) names.now)
        (IsRun (C.answers command.now))
        (record { input = R.remaining input.old; output = W.contents output.old })
        (record { input = R.remaining input.new; output = W.contents output.new }) result }
{
    let mut files = open_all(alloc, folder, names)?;
    run(alloc, command, files.as_mut_slice(), input, output)
}

/// Does a task that reports nothing, and holds no conversation, by its engine, over the two streams that engines know.
pub(crate) fn run_engine<
    T: Wait + Threads + Sync,
    A: Allocator + Copy + Send + Sync,
    F: Folder + Sync,
    R: Read,
    W: Write,
>(
    rt: &T,
    alloc: A,
    task: Task<'_>,
    folder: &F,
    input: &mut R,
    output: &mut W,
) -> Result<(), TaskFault>
    requires reports { reported_of task ≡ None }
    requires talk { talk_of task ≡ None }
    requires desk { desk_of task ≡ None }
    ensures { DoesTask (files_by (F.bytes_of folder.now) (F.held_by folder.now) (F.shown folder.now))
        task.entry
        (record { input = R.remaining input.old; output = W.contents output.old })
        (record { input = R.remaining input.new; output = W.contents output.new }) result }
{
    match task {
        Task::Trace { instructions } => {
            let command = commands::Trace { instructions };
            ended(run_over(alloc, &command, &[], folder, input, output))
        }
        Task::Check { cart } => {
            let command = commands::Check;
            ended(run_over(alloc, &command, &[cart], folder, input, output))
        }
        Task::Migrate { cart } => {
            let command = Whole(commands::Migrate);
            ended(run_over(alloc, &command, &[cart], folder, input, output))
        }
        Task::New { cart, frames } => ended(run_new(alloc, cart, frames, folder, output)),
        Task::Recover(_) => unreachable!(),
        Task::Search(_) => unreachable!(),
        Task::Verify(_) => unreachable!(),
        Task::Shot { cart, frame } => {
            let command = commands::Shot { frame };
            ended(run_over(alloc, &command, &[cart], folder, input, output))
        }
        Task::Film { cart, from, to } => {
            ended(run_film(alloc, cart, from, to, folder, input, output))
        }
        Task::Export {
            cart,
            from,
            to,
            workers,
        } => ended(run_export(rt, alloc, cart, from, to, workers, folder, input, output)),
        Task::Ram {
            cart,
            from,
            to,
            names,
        } => run_ram(alloc, cart, (from, to), names, folder, input, output),
        Task::Digest { cart, every } => {
            let command = Whole(commands::Digest { every });
            let roles = Roles::CartMovie;
            run_named(alloc, &command, roles, &[cart], folder, input, output)
        }
        Task::Compare { cart, old } => {
            let command = Whole(commands::Compare);
            let roles = Roles::CartOldMovie;
            run_named(alloc, &command, roles, &[cart, old], folder, input, output)
        }
        Task::Lag { cart } => {
            let command = Whole(commands::Lag);
            let roles = Roles::CartMovie;
            run_named(alloc, &command, roles, &[cart], folder, input, output)
        }
        Task::Edit {
            cart,
            script,
            other,
        } => run_edit(alloc, cart, script, other, folder, input, output),
        Task::Cut { cart, from, to } => {
            let command = Whole(commands::Cut { from, to });
            let roles = Roles::CartMovie;
            run_named(alloc, &command, roles, &[cart], folder, input, output)
        }
        Task::Diff { cart, old } => {
            let command = Whole(commands::Diff);
            let roles = Roles::CartOldMovie;
            run_named(alloc, &command, roles, &[cart, old], folder, input, output)
        }
        Task::Script(start) => ended(run_script(rt, alloc, start, folder, input, output)),
        Task::Talk(_) => unreachable!(),
        Task::Desk(_) => unreachable!(),
    }
}

/// The end of a task whose engine was run.
pub(crate) fn ended(end: Result<(), ToolFault>) -> Result<(), TaskFault>
    ensures { result ≡ tool_end end }
{
    match end {
        Ok(()) => Ok(()),
        Err(fault) => Err(TaskFault::Tool(fault)),
    }
}

/// Does a task by its engine. First the files that its words name are looked at ([`check_words`]); where a word is at fault, nothing is
/// opened. Then the files are opened, a failure being `Read`, but for the pairs of a desk, which its conversations open. Then the engine
/// reads the files and the input, and writes its answer to the output.
pub fn run_task<
    T: Wait + Threads + Clock + Sync,
    A: Allocator + Copy + Send + Sync,
    F: Folder + Sync,
    R: Read,
    W: Write,
    E: Write,
>(
    rt: &T,
    global: Global,
    alloc: A,
    task: Task<'_>,
    folder: &F,
    streams: &mut Streams<R, W, E>,
) -> Result<(), TaskFault>
    // A command is done by its engine, over its files and standard input, with its own numbers, but for an export's
    // WORKERS, on which no answer depends. The file of a search's report is made, gets the report and is brought to the disk
    // by steps of the folder, as `run_search` says; that standard error gets it is a clause of `run_search` alone, and that
    // the report of a recovery is written is one of `run_recovery`. So is the file that a recovery's cartridge replaces.
    // Refused: check_draws_the_first_frame*, each_file_is_the_first, migration_is_answered_as_check*,
    // talk_is_run_as_a_script*, shot_of_the_frame_before, script_and_cartridge_are_swapped*,
    // movie_and_cartridge_of_a_script_are_swapped*, film_starts_at_its_end, ram_ends_before_its_last_line*,
    // table_has_all_bytes, digest_ignores_every*, new_movie_has_one_frame*, compare_is_answered_as_diff*,
    // cut_ends_before_its_last_frame*, script_and_second_movie_are_swapped*.
    // A fault of `ram`, `digest`, `compare`, `lag`, `edit`, `cut` and `diff` names its input, as `named_run` says, by the names that the command
    // has for its inputs; where one of their files can't be opened it has the name of one of them. That it is this one's, no clause says.
    // Refused: other_movie_of_an_edit_has_no_name, names_file_is_named_as_the_script.
    // A desk's conversations are those of its pairs, in order: their bytes are those of the first file of each, and the
    // answers come after what the folder says that the second one's writer holds when it is opened (`held_by`): nothing,
    // where the file is empty. The system's folder says nothing, and writes from the first byte on. Nothing of standard
    // input is read.
    // Refused: second_pair_is_left_out, each_pair_is_the_first, seventh_pair_stands_for_the_eighth,
    // movie_and_cartridge_of_a_desk_are_swapped.
    // A desk whose words name a journal ends with the fault of a word, and nothing is opened, where it has an eighth pair, or
    // where a pair's file has the journal's name. Else its two files are opened, then the folder makes a new file of this name, by a
    // step that it states, and then the desk's definition in `tas_tool` holds with a journal that begins with what this
    // file holds, and what that says is on the disk was brought there by the folder's steps.
    // Refused: journal_of_a_desk_is_left_out, desk_with_a_journal_has_eight_pairs, journal_is_a_pairs_file,
    // only_names_of_the_first_pair_are_compared, failed_journal_of_a_desk_is_a_good_end,
    // journal_of_each_seat_is_that_of_seat_0.
    // A conversation whose words name a journal is held with one: its files are opened, then the folder makes a new file of
    // this name, by a step that it states, and then the conversation's definition in `tas_tool` holds with a journal that
    // begins with what this file holds. Where a file can't be opened or made, neither stream is read or written, and no movie is left.
    // Refused: journal_is_left_out, journal_has_another_name, failed_journal_is_a_good_end.
    // Where two words of `tas desk`, of `tas talk`, or of `tas recover` with IMAGE, stand for one ordinary file, or an OUT for one that
    // has bytes, or a JOURNAL for one, by what the folder showed of each word, the task isn't begun: it ends with the fault of the first
    // such word, and neither stream is read or written. Else it is done, and only a desk with a journal has a fault of a word then.
    // Refused: journal_may_be_there, journal_is_not_looked_at, journal_of_a_desk_is_not_looked_at,
    // cartridge_of_a_recovery_is_not_looked_at.
    // Refused: words_are_compared_with_none, device_is_not_compared, files_of_one_device_are_one_file,
    // file_of_one_byte_is_written_over, lines_that_have_bytes_are_at_fault, answers_may_go_into_the_lines,
    // no_file_is_looked_at, each_word_is_looked_at_as_the_first, movie_of_a_desk_is_not_looked_at,
    // second_output_is_not_looked_at, lines_are_looked_at_for_the_answers, bytes_are_reported_before_the_same_file,
    // word_is_reported_as_its_own_file, fault_names_the_earlier_word_twice.
    ensures { IsTaskRun F.steps
        (files_by (F.bytes_of folder.now) (F.held_by folder.now) (F.shown folder.now))
        task.entry streams.old streams.new result }
{
    let permit = match check_words(folder, task) {
        Ok(permit) => permit,
        Err(fault) => return Err(TaskFault::Word(fault)),
    };
    // A line that can't be written changes nothing.
    let _ = tell_waiting(alloc, folder.has_terminal(), task, &mut streams.errors);
    do_task(
        rt,
        global,
        alloc,
        task,
        permit,
        folder,
        &mut streams.input,
        &mut streams.output,
        &mut streams.errors,
    )
}

/// Writes the line of a fault in one write, so that lines of other programs don't come into its middle; piece by piece where memory
/// is refused for it.
fn write_line<A: Allocator, E: Write>(
    alloc: A,
    errors: &mut E,
    fault: TaskFault,
) -> io::Result<()> {
    match format!(in alloc; "{fault}\n") {
        Ok(line) => errors.write_all(line.as_bytes()),
        Err(_) => writeln!(errors, "{fault}"),
    }
}

/// The status of what was done; the line of a fault is written to `errors`.
fn report<A: Allocator, E: Write>(alloc: A, errors: &mut E, end: Result<(), TaskFault>) -> Status
    ensures { result ≡ end_status end }
{
    match end {
        Ok(()) => Status::Done,
        Err(fault) => {
            // The status reports the fault even where its line can't be written.
            let _ = write_line(alloc, errors, fault);
            match fault {
                TaskFault::Word(_) => Status::Misuse,
                TaskFault::Tool(_) => Status::Fault,
                TaskFault::Unread { .. } => Status::Fault,
                TaskFault::NotMovie { .. } => Status::Fault,
                TaskFault::Search(_) => Status::Fault,
                TaskFault::Recover(_) => Status::Fault,
                TaskFault::Image(_) => Status::Fault,
                TaskFault::Verify(_) => Status::Fault,
                TaskFault::NoCarts => Status::Fault,
                TaskFault::NotAll => Status::Fault,
                TaskFault::Report(_) => Status::Fault,
                TaskFault::NoReport => Status::Fault,
                TaskFault::UnsyncedReport => Status::Fault,
                TaskFault::NoJournal => Status::Fault,
                TaskFault::Journal(_) => Status::Fault,
                TaskFault::SeatJournal { .. } => Status::Fault,
                TaskFault::Save(_) => Status::Fault,
            }
        }
    }
}

/// Writes a text that was asked for.
fn show<W: Write>(output: &mut W, text: &str) -> Result<(), ToolFault>
    ensures ok { OnOk result (Appends (W.contents output.old) (W.contents output.new) text.now) }
    ensures fault { OnErr result
        ((fault : RunFault)
        × StopsWriting (W.contents output.old) (W.contents output.new) text.now fault) }
{
    Ok(write_all(output, text.as_bytes())?)
}

/// Carries an invocation out, and returns the program's status: 0 where it was done, 1 after a fault, and 2 where a word is at fault or
/// the words weren't understood. The line of a fault, or the text about the words, goes to standard error.
pub fn carry_out<
    T: Wait + Threads + Clock + Sync,
    A: Allocator + Copy + Send + Sync,
    F: Folder + Sync,
    R: Read,
    W: Write,
    E: Write,
>(
    rt: &T,
    global: Global,
    alloc: A,
    invocation: Invocation<'_, A>,
    folder: &F,
    streams: &mut Streams<R, W, E>,
) -> Status
    // The program ends with 0 exactly where the task is done, or the text that was asked for is written whole, with 1
    // after a fault, and with 2, nothing read and nothing written to standard output, where a word is at fault or the
    // words aren't understood. Where the output replaces a file, the end is 0 only where the engine is done and the file was
    // given the output, or the movie that a conversation leaves, as the folder states its steps.
    // Refused: fault_ends_with_status_0, search_without_an_answer_ends_with_status_0*,
    // recovery_without_an_answer_ends_with_status_0*, difference_ends_with_status_0, program_saves_under_another_name,
    // word_at_fault_ends_with_status_1, misuse_ends_with_status_1*, misuse_is_shown_as_help*.
    ensures { CarriesOut F.steps
        (files_by (F.bytes_of folder.now) (F.held_by folder.now) (F.shown folder.now))
        invocation.entry streams.old streams.new result }
{
    match invocation {
        Invocation::Do(task) => {
            let end = run_task(rt, global, alloc, task, folder, streams);
            report(alloc, &mut streams.errors, end)
        }
        Invocation::Save { task, file } => {
            let end = save_task(rt, global, alloc, task, file, folder, streams);
            report(alloc, &mut streams.errors, end)
        }
        Invocation::Show(text) => {
            let end = show(&mut streams.output, text.as_str());
            report(alloc, &mut streams.errors, ended(end))
        }
        Invocation::Refuse(text) => {
            let _ = write_all(&mut streams.errors, text.as_bytes());
            Status::Misuse
        }
        Invocation::NoMemory => report(
            alloc,
            &mut streams.errors,
            Err(TaskFault::Tool(ToolFault::Run(RunFault::Memory))),
        ),
    }
}

/// The whole program: reads the words, the first of which is its name, and does what they ask for. clap, `Task::Recover`, `Task::Verify` and
/// `Task::Desk` take their memory from `global` alone, all else from `alloc`. Somebody at a terminal is told what a task waits for
/// ([`tell_waiting`]), once no word of it is at fault.
pub fn run_program<
    T: Wait + Threads + Clock + Sync,
    A: Allocator + Copy + Send + Sync,
    F: Folder + Sync,
    R: Read,
    W: Write,
    E: Write,
>(
    rt: &T,
    global: Global,
    alloc: A,
    words: io::Result<Args<A>>,
    folder: &F,
    streams: &mut Streams<R, W, E>,
) -> Status
    // The whole program carries out what the system's words may ask for: a task only where they name its command; where
    // the system gave no words, none.
    // Refused: any_words_run_a_script.
    ensures { ProgramEnds words F.steps
        (files_by (F.bytes_of folder.now) (F.held_by folder.now) (F.shown folder.now))
        streams.old streams.new result }
{
    match collect_words(alloc, words) {
        Ok(words) => {
            let invocation = read_invocation(global, alloc, words.as_slice());
            carry_out(rt, global, alloc, invocation, folder, streams)
        }
        Err(invocation) => carry_out(rt, global, alloc, invocation, folder, streams),
    }
}
