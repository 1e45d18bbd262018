//! Recoveries of journals.
//!
//! The movie goes to standard output, where `-o` can take it, and the report to standard error, where somebody sees it beside. It alone
//! says whether a last line was cut. So a recovery whose report can't be written ends with a fault, as a search does.
//!
//! An edit may have loaded a cartridge that is in no other file, so IMAGE gets that of the movie. It does so where no edit loads one, too: then
//! IMAGE and the movie always belong together, and whoever calls needn't look into the journal. It comes before the report and the file of
//! `-o`, so no movie replaces a file before its cartridge is there.

ghost use Rattle.std.specs.Prelude.{◌≡◌, IfOk};
ghost use Rattle.tas_program.specs.Files.{files_by};
ghost use Rattle.tas_program.specs.Recovering.{IsLineAfter, IsReportOf, KeepsImage, Recovers, RecoversOver, RecoveryEnds, first_left_out, image_end, recovery_line};
ghost use Rattle.tas_program.specs.Searching.{bytes_end};

use crate::directory::Names;
use crate::running::open;
use crate::searching::write_report;
use crate::{Folder, ImageFault, Permit, SaveFault, TaskFault, save};
use std::alloc::{AllocError, Global};
use std::io::{Read, Write};
use tas_journal::{Recovered, recover_run};
use tas_tool::RunFault;
use tas_words::RecoveryWords;

/// The first line of a journal that is left out.
fn first_left_out(until: Option<u32>) -> usize
    ensures { result ≡ first_left_out until }
{
    match until {
        Some(line) => line as usize,
        None => usize::MAX,
    }
}

/// Recovers with a cartridge that is open, and writes the movie's text.
fn recover_over<C: Read, R: Read, W: Write>(
    alloc: Global,
    until: Option<u32>,
    cart: &mut C,
    input: &mut R,
    output: &mut W,
) -> Result<Recovered, TaskFault>
    ensures { RecoversOver until (C.remaining cart.old) (C.remaining cart.new)
        (R.remaining input.old) (R.remaining input.new) (W.contents output.old)
        (W.contents output.new) result }
{
    let line = first_left_out(until);
    match recover_run(alloc, line, cart, input, output) {
        Err(fault) => Err(TaskFault::Recover(fault)),
        Ok(found) => Ok(found),
    }
}

/// Opens the cartridge of a recovery, recovers with it and writes the movie's text.
fn recovered_of<F: Folder, R: Read, W: Write>(
    alloc: Global,
    words: RecoveryWords<'_>,
    folder: &F,
    input: &mut R,
    output: &mut W,
) -> Result<Recovered, TaskFault>
    ensures { Recovers (files_by (F.bytes_of folder.now) (F.held_by folder.now) (F.shown folder.now))
        words.entry
        (record { input = R.remaining input.old; output = W.contents output.old })
        (record { input = R.remaining input.new; output = W.contents output.new }) result }
{
    match open(folder, words.cart) {
        Ok(mut cart) => recover_over(alloc, words.until, &mut cart, input, output),
        Err(fault) => Err(TaskFault::Tool(fault)),
    }
}

/// The end of a recovery whose cartridge was to replace a file.
fn image_end(end: Result<(), SaveFault>) -> Result<(), TaskFault>
    ensures { result ≡ image_end end }
{
    match end {
        Ok(()) => Ok(()),
        Err(fault) => Err(TaskFault::Image(ImageFault { fault })),
    }
}

/// Replaces the file of this name with a cartridge's image; without a name nothing is done.
fn keep_image<F: Folder>(
    alloc: Global,
    permit: Permit,
    folder: &F,
    name: Option<&str>,
    image: &[u8],
) -> Result<(), TaskFault>
    ensures { KeepsImage F.steps name.entry image.now result }
{
    match name {
        None => Ok(()),
        Some(name) => {
            let mut names = Names::new(folder, permit);
            image_end(save(alloc, &mut names, name, image))
        }
    }
}

/// The line that reports a recovery.
fn recovery_line(alloc: Global, edits: usize, cut: bool) -> Result<Vec<u8>, AllocError>
    ensures { IfOk result (λ line. line.items ≡ recovery_line edits cut) }
{
    let text = if cut {
        format!(in alloc; "recovered: {edits} edits; a last line was cut\n")?
    } else {
        format!(in alloc; "recovered: {edits} edits\n")?
    };
    Ok(text.into_bytes())
}

/// The line that reports a recovery whose cartridge was kept; the fault where it wasn't.
fn line_after(
    alloc: Global,
    kept: Result<(), TaskFault>,
    edits: usize,
    cut: bool,
) -> Result<Vec<u8>, TaskFault>
    ensures { IsLineAfter kept edits cut (bytes_end (λ report. report.items) result) }
{
    match kept {
        Err(fault) => Err(fault),
        Ok(()) => match recovery_line(alloc, edits, cut) {
            Ok(report) => Ok(report),
            Err(_) => Err(TaskFault::Report(RunFault::Memory)),
        },
    }
}

/// Replaces the file of this name with the cartridge of the movie that was recovered, if it was, and returns the report.
fn report_of<F: Folder>(
    alloc: Global,
    permit: Permit,
    folder: &F,
    name: Option<&str>,
    found: Result<Recovered, TaskFault>,
) -> Result<Vec<u8>, TaskFault>
    ensures { IsReportOf F.steps name.entry found (bytes_end (λ report. report.items) result) }
{
    match found {
        Err(fault) => Err(fault),
        Ok(found) => {
            let kept = keep_image(alloc, permit, folder, name, found.image());
            line_after(alloc, kept, found.edits, found.cut)
        }
    }
}

/// Does a recovery: opens the cartridge, reads it and the journal on the input, writes the text of the movie that the journal's lines make
/// to the output, replaces the file that the words name for it with the movie's cartridge ([`save`]), and then writes the report, a line, to
/// `errors`.
///
/// Faults: `Tool` where the cartridge can't be opened, `Recover` of the recovery, and then nothing is written to `errors`; `Image` where the
/// file of the cartridge isn't replaced, and then the movie is written, and nothing to `errors`; `Report` where the report isn't written whole,
/// and then the movie is, and the file is replaced. The files that the words name must have been looked at ([`check_words`](crate::check_words)).
pub fn run_recovery<F: Folder, R: Read, W: Write, E: Write>(
    alloc: Global,
    words: RecoveryWords<'_>,
    permit: Permit,
    folder: &F,
    input: &mut R,
    output: &mut W,
    errors: &mut E,
) -> Result<(), TaskFault>
    // A recovery is done by `recover_run`, over the cartridge that its words name, the journal on the input and the output, up to
    // the line that they name, or over all lines where they name none. It is done only where its report, how many edits
    // were made and whether a last line was cut, is written whole to `errors`.
    // Refused: recovery_has_an_empty_report, report_of_a_recovery_goes_to_standard_output, whole_journal_is_reported_as_cut,
    // line_of_until_is_made_too, lines_are_left_out_without_until, until_is_ignored, report_without_memory_is_a_good_end,
    // unwritten_report_of_a_recovery_is_a_good_end.
    // Where its words name a file for the cartridge, it is done only where this file was given the image of the cartridge that the
    // movie has, the last one loaded or that of the journal's beginning, as `save` says, by steps of the folder: that comes before
    // the report. Without such a word no file is touched.
    // Refused: cartridge_of_a_recovery_is_not_kept, cartridge_is_kept_under_another_name, unkept_cartridge_is_a_good_end,
    // empty_image_is_kept.
    ensures { RecoveryEnds F.steps
        (files_by (F.bytes_of folder.now) (F.held_by folder.now) (F.shown folder.now)) words.entry
        (record { input = R.remaining input.old; output = W.contents output.old })
        (record { input = R.remaining input.new; output = W.contents output.new })
        (E.contents errors.old) (E.contents errors.new) result }
{
    let found = recovered_of(alloc, words, folder, input, output);
    let done = report_of(alloc, permit, folder, words.image, found);
    write_report(done, errors)
}
