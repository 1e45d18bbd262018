//! Searches, and the tasks that report to standard error as they do.
//!
//! A search's answer has two parts: the script goes to standard output, so that it can go on to a file or to `tas edit`, and the report
//! to standard error, where it can be read meanwhile: a line for each layer as it is searched, and then the verdict. It alone says of which
//! sequences the script is the best. So a search whose report can't be written ends with a fault, while the line of a fault that can't be
//! written changes nothing. With `--report` a new file gets the same lines as they are made, so that it has those before a signal. The file
//! must be new, so nothing that is there is written over. It is made before the others are opened: where it is also the name of another word,
//! whose file is missing, that is read as an empty file. It is brought to the disk once, at the end: a search can be made again, so no line
//! waits for the disk, but a good end promises that its report is there.

ghost use Rattle.std.specs.Prelude.{◌≡◌, ◌⊎◌, map, IfOk, IfErr};
ghost use Rattle.tas_program.specs.Files.{files_by};
ghost use Rattle.tas_program.specs.Program.{EngineEnds, desk_of, talk_of};
ghost use Rattle.tas_program.specs.Reporting.{ReportedEnds, reported_of};
ghost use Rattle.tas_program.specs.Searching.{IsAskedFor, KeepsFile, Reports, ReportsVerdict, RunsSearch, SearchEnds, Searches, SearchesOver, bytes_end, search_files};
ghost use Rattle.tas_search.specs.Logs.{log_bytes};

use crate::desks::{desk_of, hold_desk};
use crate::noted_talks::hold_words;
use crate::recovering::run_recovery;
use crate::running::{open_all, run_engine};
use crate::saved_talks::talk_of;
use crate::verifying::run_verify;
use crate::{Folder, Permit, TaskFault};
use std::alloc::{Allocator, Global};
use std::io::{Read, Write, sink};
use std::sync::Wait;
use std::thread::Threads;
use std::time::Clock;
use tas_search::{Search, SpacePart, search_run};
use tas_tool::{ReadFault, ToolFault, write_all};
use tas_words::{RecoveryWords, SearchWords, Task, VerifyWords};

/// The words of a task that reports to standard error beside its output.
#[derive(Clone, Copy)]
pub(crate) enum Reported<'a> {
    /// A search, which reports its layers and its verdict.
    Search(SearchWords<'a>),
    /// A recovery, which reports how many edits were made.
    Recovery(RecoveryWords<'a>),
    /// A verification, which reports how far it is.
    Verification(VerifyWords<'a>),
}

/// The words of a task that reports.
fn reported_of<'a>(task: Task<'a>) -> Option<Reported<'a>>
    ensures { result ≡ reported_of task.entry }
{
    match task {
        Task::Search(words) => Some(Reported::Search(words)),
        Task::Recover(words) => Some(Reported::Recovery(words)),
        Task::Verify(words) => Some(Reported::Verification(words)),
        _ => None,
    }
}

/// What the words of a search ask for.
fn asked_of<'a>(words: SearchWords<'a>) -> Search<'a>
    ensures { IsAskedFor words.entry result }
{
    Search {
        from: words.from,
        frames: words.frames,
        hold: words.hold,
        part: SpacePart {
            number: words.part.number,
            of: words.part.of,
        },
        states: words.states,
        workers: words.workers,
        has_choices: words.choices.is_some(),
        has_names: words.names.is_some(),
        goal: words.goal.as_bytes(),
    }
}

/// Opens the files of a search, in order.
fn open_inputs<A: Allocator, F: Folder>(
    alloc: A,
    words: SearchWords<'_>,
    folder: &F,
) -> Result<Vec<F::File, A>, ToolFault>
    ensures files { IfOk result (λ files. map F.File.remaining files.items
        ≡ search_files
        (files_by (F.bytes_of folder.now) (F.held_by folder.now) (F.shown folder.now)) words.entry) }
    ensures fault { IfErr result
        (λ fault. (fault ≡ ToolFault.Read ReadFault.Failed)
        ⊎ (fault ≡ ToolFault.Read ReadFault.Memory)) }
{
    match words.choices {
        None => match words.names {
            None => open_all(alloc, folder, &[words.cart]),
            Some(names) => open_all(alloc, folder, &[words.cart, names]),
        },
        Some(choices) => match words.names {
            None => open_all(alloc, folder, &[words.cart, choices]),
            Some(names) => open_all(alloc, folder, &[words.cart, choices, names]),
        },
    }
}

/// Searches by these words over files that are open, reports its layers, writes the script and returns the verdict.
fn search_over<
    T: Threads + Clock + Sync,
    A: Allocator + Copy + Send + Sync,
    C: Read,
    R: Read,
    W: Write,
    E: Write,
    P: Write,
>(
    rt: &T,
    alloc: A,
    words: SearchWords<'_>,
    files: &mut [C],
    input: &mut R,
    output: &mut W,
    errors: &mut E,
    report: &mut P,
) -> Result<Vec<u8, A>, TaskFault>
    ensures { SearchesOver words.entry (map C.remaining files.old) (map C.remaining files.new)
        (record { input = R.remaining input.old; output = W.contents output.old })
        (record { input = R.remaining input.new; output = W.contents output.new })
        (log_bytes (E.contents errors.old) (P.contents report.old))
        (log_bytes (E.contents errors.new) (P.contents report.new))
        (bytes_end (λ verdict. verdict.items) result) }
{
    let asked = asked_of(words);
    match search_run(rt, alloc, &asked, files, input, output, errors, report) {
        Ok(verdict) => Ok(verdict),
        Err(error) => Err(TaskFault::Search(error)),
    }
}

/// Writes a report, where there is one.
pub(crate) fn write_report<E: Write>(
    done: Result<Vec<u8>, TaskFault>,
    errors: &mut E,
) -> Result<(), TaskFault>
    ensures { Reports (bytes_end (λ report. report.items) done) (E.contents errors.old)
        (E.contents errors.new) result }
{
    match done {
        Err(fault) => Err(fault),
        Ok(report) => match write_all(errors, report.as_slice()) {
            Err(fault) => Err(TaskFault::Report(fault)),
            Ok(()) => Ok(()),
        },
    }
}

/// Opens the files of a search by these words, reports its layers, writes the script and returns the verdict.
fn verdict_of<
    T: Threads + Clock + Sync,
    A: Allocator + Copy + Send + Sync,
    F: Folder,
    R: Read,
    W: Write,
    E: Write,
    P: Write,
>(
    rt: &T,
    alloc: A,
    words: SearchWords<'_>,
    folder: &F,
    input: &mut R,
    output: &mut W,
    errors: &mut E,
    report: &mut P,
) -> Result<Vec<u8, A>, TaskFault>
    ensures { Searches (files_by (F.bytes_of folder.now) (F.held_by folder.now) (F.shown folder.now))
        words.entry
        (record { input = R.remaining input.old; output = W.contents output.old })
        (record { input = R.remaining input.new; output = W.contents output.new })
        (log_bytes (E.contents errors.old) (P.contents report.old))
        (log_bytes (E.contents errors.new) (P.contents report.new))
        (bytes_end (λ verdict. verdict.items) result) }
{
    match open_inputs(alloc, words, folder) {
        Ok(mut files) => search_over(
            rt,
            alloc,
            words,
            files.as_mut_slice(),
            input,
            output,
            errors,
            report,
        ),
        Err(fault) => Err(TaskFault::Tool(fault)),
    }
}

/// Writes the verdict of a search, where there is one, to the report and to standard error.
fn write_verdict<A: Allocator, E: Write, P: Write>(
    done: Result<Vec<u8, A>, TaskFault>,
    errors: &mut E,
    report: &mut P,
) -> Result<(), TaskFault>
    ensures { ReportsVerdict (bytes_end (λ verdict. verdict.items) done)
        (log_bytes (E.contents errors.old) (P.contents report.old))
        (log_bytes (E.contents errors.new) (P.contents report.new)) result }
{
    let verdict = match done {
        Err(fault) => return Err(fault),
        Ok(verdict) => verdict,
    };
    if let Err(fault) = write_all(report, verdict.as_slice()) {
        return Err(TaskFault::Report(fault));
    }
    match write_all(errors, verdict.as_slice()) {
        Err(fault) => Err(TaskFault::Report(fault)),
        Ok(()) => Ok(()),
    }
}

/// Does a search with these two writers of its report.
fn search_with<
    T: Threads + Clock + Sync,
    A: Allocator + Copy + Send + Sync,
    F: Folder,
    R: Read,
    W: Write,
    E: Write,
    P: Write,
>(
    rt: &T,
    alloc: A,
    words: SearchWords<'_>,
    folder: &F,
    input: &mut R,
    output: &mut W,
    errors: &mut E,
    report: &mut P,
) -> Result<(), TaskFault>
    ensures { SearchEnds (files_by (F.bytes_of folder.now) (F.held_by folder.now) (F.shown folder.now))
        words.entry
        (record { input = R.remaining input.old; output = W.contents output.old })
        (record { input = R.remaining input.new; output = W.contents output.new })
        (log_bytes (E.contents errors.old) (P.contents report.old))
        (log_bytes (E.contents errors.new) (P.contents report.new)) result }
{
    let done = verdict_of(rt, alloc, words, folder, input, output, errors, report);
    write_verdict(done, errors, report)
}

/// Removes a file that has no bytes.
fn remove_empty<F: Folder>(permit: Permit, folder: &F, name: &str) {
    match folder.look(name) {
        Some(file) if file.len == 0 => folder.remove(permit, name),
        _ => {}
    }
}

/// Ends a search whose report went to the file of this name, too: where it is done, the file is brought to the disk; else it is removed if it
/// has no bytes.
fn close_report<F: Folder>(
    permit: Permit,
    folder: &F,
    name: &str,
    file: &mut F::Sink,
    done: Result<(), TaskFault>,
) -> Result<(), TaskFault>
    ensures { KeepsFile F.steps name.now (F.Sink.contents file.old) done result }
{
    match done {
        Err(fault) => {
            remove_empty(permit, folder, name);
            Err(fault)
        }
        Ok(()) => match folder.sync(name, file) {
            Err(_) => Err(TaskFault::UnsyncedReport),
            Ok(()) => Ok(()),
        },
    }
}

/// Does a search: makes the file of its report where the words name one, opens its files, reads them and the input, writes a line for each
/// layer to `errors` and to the report as it goes, the script that makes the best inputs to the output, and then the verdict, a line, where the
/// others went. At last it brings the report's file to the disk.
///
/// Faults: `NoReport` where the report's file can't be made, since there is one of its name, say, and then nothing is opened; `Tool` where a
/// file can't be opened, `Search` of the search, and then the report has no verdict; `Report` where the verdict isn't written whole, and then
/// the script is; `UnsyncedReport` where the file isn't brought to the disk, and then all is written. A file of a report that has no line at a
/// fault is removed.
pub fn run_search<
    T: Threads + Clock + Sync,
    A: Allocator + Copy + Send + Sync,
    F: Folder,
    R: Read,
    W: Write,
    E: Write,
>(
    rt: &T,
    alloc: A,
    words: SearchWords<'_>,
    permit: Permit,
    folder: &F,
    input: &mut R,
    output: &mut W,
    errors: &mut E,
) -> Result<(), TaskFault>
    // A search is done by `search_run`, over the files that its words name, the input and the output, with its own numbers and
    // goal. It is done only where its report, the lines of the layers and the verdict, is written whole to `errors`, and where the
    // words name a file, to the writer of a new one of this name, which was brought to the disk with all that this writer holds, as
    // the folder states its steps.
    // Refused: verdict_is_left_out, unwritten_verdict_is_a_good_end, verdict_goes_to_standard_output,
    // names_file_is_read_for_the_choices, each_choice_is_held_for_one_frame, every_part_is_the_first,
    // search_keeps_as_many_states_as_it_has_frames, report_file_is_left_out, report_is_not_brought_to_the_disk,
    // unsynced_report_is_a_good_end.
    ensures { RunsSearch F.steps
        (files_by (F.bytes_of folder.now) (F.held_by folder.now) (F.shown folder.now)) words.entry
        (record { input = R.remaining input.old; output = W.contents output.old })
        (record { input = R.remaining input.new; output = W.contents output.new })
        (E.contents errors.old) (E.contents errors.new) result }
{
    match words.report {
        None => {
            let mut nowhere = sink();
            search_with(
                rt,
                alloc,
                words,
                folder,
                input,
                output,
                errors,
                &mut nowhere,
            )
        }
        Some(name) => {
            let Ok(mut file) = folder.create_new(permit, name) else {
                return Err(TaskFault::NoReport);
            };
            let done = search_with(rt, alloc, words, folder, input, output, errors, &mut file);
            close_report(permit, folder, name, &mut file, done)
        }
    }
}

/// Does a task that reports, as [`run_search`], [`run_recovery`] and [`run_verify`] do.
fn run_reported<
    T: Threads + Clock + Sync,
    A: Allocator + Copy + Send + Sync,
    F: Folder + Sync,
    R: Read,
    W: Write,
    E: Write,
>(
    rt: &T,
    global: Global,
    alloc: A,
    words: Reported<'_>,
    permit: Permit,
    folder: &F,
    input: &mut R,
    output: &mut W,
    errors: &mut E,
) -> Result<(), TaskFault>
    ensures { ReportedEnds F.steps
        (files_by (F.bytes_of folder.now) (F.held_by folder.now) (F.shown folder.now)) words.entry
        (record { input = R.remaining input.old; output = W.contents output.old })
        (record { input = R.remaining input.new; output = W.contents output.new })
        (E.contents errors.old) (E.contents errors.new) result }
{
    match words {
        Reported::Search(words) => {
            run_search(rt, alloc, words, permit, folder, input, output, errors)
        }
        Reported::Recovery(words) => {
            run_recovery(global, words, permit, folder, input, output, errors)
        }
        Reported::Verification(words) => {
            run_verify(rt, global, words, folder, input, output, errors)
        }
    }
}

/// Does a task by its engine, over the input and the output; the report of a search, a recovery or a verification goes to `errors`, and the journal of a
/// conversation or a desk to a new file; a recovery's cartridge replaces the file that is named for it. A recovery, a verification and `Task::Desk` take their memory from `global`, each other task from `alloc`.
pub(crate) fn do_task<
    T: Wait + Threads + Clock + Sync,
    A: Allocator + Copy + Send + Sync,
    F: Folder + Sync,
    R: Read,
    W: Write,
    E: Write,
>(
    rt: &T,
    global: Global,
    alloc: A,
    task: Task<'_>,
    permit: Permit,
    folder: &F,
    input: &mut R,
    output: &mut W,
    errors: &mut E,
) -> Result<(), TaskFault>
    ensures { EngineEnds F.steps
        (files_by (F.bytes_of folder.now) (F.held_by folder.now) (F.shown folder.now))
        (reported_of task.entry) (talk_of task.entry) (desk_of task.entry) task.entry
        (record { input = R.remaining input.old; output = W.contents output.old })
        (record { input = R.remaining input.new; output = W.contents output.new }) result }
{
    match reported_of(task) {
        Some(words) => run_reported(
            rt, global, alloc, words, permit, folder, input, output, errors,
        ),
        None => match talk_of(task) {
            Some(words) => hold_words(rt, alloc, words, permit, folder, input, output).end,
            None => match desk_of(task) {
                Some(words) => hold_desk(rt, global, words, permit, folder, output),
                None => run_engine(rt, alloc, task, folder, input, output),
            },
        },
    }
}
