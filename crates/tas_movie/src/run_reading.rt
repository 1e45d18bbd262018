//! Reading the runs of a text.
//!
//! A line is a frame or a run where it is the text of what it shows: letters and number are read, printed again and
//! compared. So wrong letters, lengths and spaces, leading zeros, signs and a number of 1 are `Frame`, without a
//! grammar. The definition of a fault carries the frames before the line along, since the fault depends on how many
//! they are and on the last one.

ghost use Rattle.std.specs.Prelude.{◌≡◌, ◌≢◌, ◌+◌, ◌-◌, ◌≤◌, [], ℕ, length, slice_get, MatchResult, OnOk, IfOk, IfSome, IfNone, None, Some, false, vec_len, vec_capacity};
ghost use Rattle.std.specs.List.{flat_map};
ghost use Rattle.tas_movie.specs.declared.run.FrameRun.{FrameRun as SaidRun};
ghost use Rattle.tas_movie.specs.Content.{most_inputs};
ghost use Rattle.tas_movie.specs.Runs.{runs_of};
ghost use Rattle.tas_movie.specs.Text.{count_text, run_line};
ghost use Rattle.tas_movie.specs.Fault.{is_repeated, run_fault, runs_fault, fault_by, IsRunLine};

use crate::printing::FRAME_TEXT_SIZE;
use crate::reading::{error_at, read_frame, split_line};
use crate::run::FrameRun;
use crate::{MAX_FRAMES, TextError, TextErrorKind};
use byte_text::read_decimal;
use std::alloc::Allocator;
use vcs_inputs::Input;

/// The least number of frames that a line counts; one frame has no count.
const LEAST_COUNT: usize = 2;

/// How often a frame comes, by the bytes after its 17 characters: once where there are none, else as often as
/// the number after ` x` says, which is 2 at least and as many as a movie has frames at most.
fn read_count(bytes: &[u8]) -> Option<usize>
    ensures some { IfSome result
        (λ count. (bytes.now ≡ count_text count) × (1 ≤ count) × (count ≤ most_inputs)) }
    ensures none { IfNone result
        ((count : ℕ) → 1 ≤ count → count ≤ most_inputs → bytes.now ≢ count_text count) }
{
    if bytes.is_empty() {
        return Some(1);
    }
    if bytes.len() < 2 {
        return None;
    }
    let (mark, digits) = bytes.split_at(2);
    if mark != b" x".as_slice() {
        return None;
    }
    let count = read_decimal(digits)?;
    if count < LEAST_COUNT {
        return None;
    }
    if count > MAX_FRAMES {
        return None;
    }
    Some(count)
}

/// The run that a line, without its newline, says; nothing where it says none.
fn read_run(line: &[u8]) -> Option<FrameRun>
    ensures some { IfSome result (IsRunLine line.now) }
    ensures none { IfNone result ((run : SaidRun) → IsRunLine line.now run → ⊥) }
{
    if line.len() < FRAME_TEXT_SIZE {
        return None;
    }
    let (letters, rest) = line.split_at(FRAME_TEXT_SIZE);
    let input = read_frame(letters)?;
    let count = read_count(rest)?;
    Some(FrameRun { input, count })
}

/// Whether the last of these inputs, if there is one, is this one.
fn is_repeated(before: &[Input], input: Input) -> bool
    ensures { result ≡ is_repeated (slice_get before.now (length before.now - 1)) input }
{
    before.last().is_some_and(|last| *last == input)
}

/// The run that a line says after the frames with these inputs, or what is wrong with it.
fn next_run(before: &[Input], line: &[u8]) -> Result<FrameRun, TextErrorKind>
    ensures said { IfOk result (IsRunLine line.now) }
    ensures other { IfOk result
        (λ run. is_repeated (slice_get before.now (length before.now - 1)) run.input ≡ false) }
    ensures few { IfOk result (λ run. length before.now + run.count ≤ most_inputs) }
    ensures fault { MatchResult result
        (λ _. run_fault before.now line.now ≡ None)
        (λ kind. run_fault before.now line.now ≡ Some kind) }
{
    if before.len() >= MAX_FRAMES {
        return Err(TextErrorKind::TooMany);
    }
    let room = MAX_FRAMES - before.len();
    let Some(run) = read_run(line) else {
        return Err(TextErrorKind::Frame);
    };
    if is_repeated(before, run.input) {
        return Err(TextErrorKind::Run);
    }
    if run.count > room {
        return Err(TextErrorKind::TooMany);
    }
    Ok(run)
}

/// Reads the runs' lines into an empty list with room for their frames.
pub(crate) fn read_runs<A: Allocator>(
    list: &mut Vec<Input, A>,
    bytes: &[u8],
) -> Result<(), TextError>
    requires empty { list.old.items ≡ [] }
    requires room { most_inputs ≤ vec_capacity list.old }
    ensures runs { OnOk result (bytes.now ≡ flat_map run_line (runs_of list.new.items)) }
    ensures fault { MatchResult result
        (λ _. fault_by (runs_fault 3 []) bytes.now ≡ None)
        (λ e. fault_by (runs_fault 3 []) bytes.now ≡ Some e) }
    ensures bound { vec_len list.new ≤ most_inputs }
    ensures capacity { vec_capacity list.old ≤ vec_capacity list.new }
{
    let mut rest = bytes;
    let mut number = 3;
    while !rest.is_empty() {
        let Some((line, after)) = split_line(rest) else {
            return Err(error_at(number, TextErrorKind::End));
        };
        let run = match next_run(list.as_slice(), line) {
            Ok(run) => run,
            Err(kind) => return Err(error_at(number, kind)),
        };
        let len = list.len();
        list.resize(len + run.count, run.input).unwrap();
        rest = after;
        number += 1;
    }
    Ok(())
}
