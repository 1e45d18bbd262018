//! A run over many movies.

ghost use Rattle.std.specs.Prelude.{◌≡◌, ◌++◌, ◌+◌, ◌-◌, ◌≤◌, map, length, OnOk, IfOk, IfErr, MatchResult};
ghost use Rattle.std.specs.Io.KnownBytes.{Appends};
ghost use Rattle.tas_verify.specs.declared.fault.VerifyFault.TheVariants.{Memory as Refused, Write as WriteFailed};
ghost use Rattle.tas_verify.specs.Manifest.{words_in};
ghost use Rattle.tas_verify.specs.Lines.{end_of, end_lines, tally_line};
ghost use Rattle.tas_verify.specs.Verifying.{EndsOn, IsVerifyRun};
ghost use Rattle.tas_verify.specs.Inside.Running.{BreaksOff};

use crate::lines::{count_same, lines_text, tally_text};
use crate::manifest::read_manifest;
use crate::progress::Progress;
use crate::workers::{batch_size, verify_rows};
use crate::{ManifestError, Row, Shelf, Tally, Verified, VerifyFault};
use byte_text::{WriteFault, write_counted};
use std::alloc::{AllocError, Allocator};
use std::io::{Read, Write};
use std::thread::Threads;
use std::time::Clock;
use tas_engines::read_input;

impl From<AllocError> for VerifyFault {
    ghost from_gives = { λ _ fault. fault ≡ Refused };

    fn from(_error: AllocError) -> VerifyFault {
        VerifyFault::Memory
    }
}

impl From<WriteFault> for VerifyFault {
    ghost from_gives = { λ error fault. fault ≡ WriteFailed error.written };

    fn from(error: WriteFault) -> VerifyFault {
        VerifyFault::Write {
            written: error.written,
        }
    }
}

/// Writes a text after others, and returns how many bytes have gone out with those before it. A number that no word of the machine
/// holds is reported as out of memory.
fn write_after<W: Write>(text: &[u8], written: usize, output: &mut W) -> Result<usize, VerifyFault>
    ensures all { OnOk result
        (Appends (W.contents output.old) (W.contents output.new) text.now) }
    ensures count { IfOk result (λ n. n ≡ written + length text.now) }
    ensures fault { IfErr result
        (BreaksOff (W.contents output.old) (W.contents output.new) text.now written) }
{
    if written.checked_add(text.len()).is_none() {
        return Err(VerifyFault::Memory);
    }
    Ok(write_counted(text, written, output)?)
}

/// Writes the lines of some movies after those of others.
fn write_lines<A: Allocator, W: Write>(
    alloc: A,
    verified: &[Verified<'_>],
    written: usize,
    output: &mut W,
) -> Result<usize, VerifyFault>
    ensures all { OnOk result (Appends (W.contents output.old) (W.contents output.new)
        (end_lines (map end_of verified.now))) }
    ensures count { IfOk result (λ n. n ≡ written + length (end_lines (map end_of verified.now))) }
    ensures fault { IfErr result (BreaksOff (W.contents output.old) (W.contents output.new)
        (end_lines (map end_of verified.now)) written) }
{
    let text = lines_text(alloc, verified)?;
    write_after(text.as_slice(), written, output)
}

/// Writes the last line after the others.
fn write_tally<A: Allocator, W: Write>(
    alloc: A,
    tally: Tally,
    written: usize,
    output: &mut W,
) -> Result<Tally, VerifyFault>
    ensures all { IfOk result (λ said. (said ≡ tally)
        × Appends (W.contents output.old) (W.contents output.new) (tally_line tally)) }
    ensures fault { IfErr result
        (BreaksOff (W.contents output.old) (W.contents output.new) (tally_line tally) written) }
{
    let text = tally_text(alloc, tally)?;
    write_after(text.as_slice(), written, output)?;
    Ok(tally)
}

/// Plays the movies of these lines and writes what comes of each, some at a time, and the last line.
fn run_rows<
    R: Threads + Clock + Sync,
    A: Allocator + Copy + Send + Sync,
    S: Shelf + Sync,
    W: Write,
    P: Write,
>(
    rt: &R,
    alloc: A,
    workers: usize,
    shelf: &S,
    rows: &[Row<'_>],
    output: &mut W,
    waiting: &mut P,
) -> Result<Tally, VerifyFault>
where
    S::File: Send,
    ensures { EndsOn (S.facts shelf.now) (map words_in rows.now) (W.contents output.old)
        (W.contents output.new) result }
{
    let size = batch_size(workers);
    let mut progress = Progress::new(rt, rows.len());
    let mut at = 0;
    let mut written = 0;
    let mut same = 0;
    while at < rows.len() {
        let end = at + size.min(rows.len() - at);
        let verified = verify_rows(rt, alloc, workers, shelf, &rows[at..end])?;
        written = write_lines(alloc, verified.as_slice(), written, output)?;
        same += count_same(verified.as_slice());
        at = end;
        progress.count(verified.as_slice());
        progress.tell(rt, at, waiting);
    }
    let tally = Tally {
        movies: rows.len(),
        same,
    };
    write_tally(alloc, tally, written, output)
}

/// Plays the movies that a manifest names, by at most as many workers as asked for, 1 to [`MAX_WORKERS`](crate::MAX_WORKERS), and compares each
/// with its digest. The manifest is read whole first. A line for each movie is written, in the manifest's order, and a last line that counts; the lines of
/// some movies at a time. After each of these times `waiting` gets a line for somebody who waits: how many movies are done and left, and how many
/// frames were played in a second. Where it can't be written nothing changes.
///
/// Faults: `Read` and `Manifest` with nothing written; `Memory` with whole lines written; `Write` with the number of bytes.
pub fn verify_run<
    R: Threads + Clock + Sync,
    A: Allocator + Copy + Send + Sync,
    S: Shelf + Sync,
    M: Read,
    W: Write,
    P: Write,
>(
    rt: &R,
    alloc: A,
    workers: usize,
    shelf: &S,
    manifest: &mut M,
    output: &mut W,
    waiting: &mut P,
) -> Result<Tally, VerifyFault>
where
    S::File: Send,
    // Each movie that the manifest names has its line, which says what comes of it alone, in the manifest's order, and a last line
    // counts them. The clause doesn't mention the workers: where the files' bytes are known, the files alone decide the bytes, but for
    // accidents (`one_report_per_manifest`). Where the manifest isn't read or is none, nothing is written; where memory is refused,
    // lines of the first movies; after `Write` the first bytes are out, as many as it reports.
    // Refused: line_is_named_by_the_cartridge, later_movies_are_left_out, all_are_counted_as_the_same, movie_is_not_played,
    // fault_of_a_manifest_has_no_number, failed_read_is_a_line_at_fault, bytes_before_are_not_counted.
    ensures { IsVerifyRun (S.facts shelf.now) (M.remaining manifest.old)
        (M.remaining manifest.new) (W.contents output.old) (W.contents output.new) result }
{
    let bytes = match read_input(alloc, manifest) {
        Ok(bytes) => bytes,
        Err(fault) => return Err(VerifyFault::Read(fault)),
    };
    match read_manifest(alloc, bytes.as_slice()) {
        Ok(rows) => run_rows(rt, alloc, workers, shelf, rows.as_slice(), output, waiting),
        Err(ManifestError::Memory) => Err(VerifyFault::Memory),
        Err(ManifestError::Line(line)) => Err(VerifyFault::Manifest(line)),
    }
}
