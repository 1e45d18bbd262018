//! `tas script`.
//!
//! No reply is checked as it comes: while a desk is open nothing that a caller can prove says that nobody else edits
//! it. So the contract of `answer_lines` speaks of a seat that sees its own edits alone (`SeesOwn`). Replies are
//! collected and written at the end: nothing may be written before all input is read, and the count of a failed write
//! is exact.

ghost use Rattle.std.specs.Prelude.{◌≡◌, ◌≤◌, [], length};
ghost use Rattle.tas_desk.specs.Seats.{name_of};
ghost use Rattle.tas_seat.specs.Turns.{standing_of};
ghost use Rattle.tas_tool.specs.Scripts.{standing_at_start, Answers, AnswersFrom, RunsScript, IsScriptRun};
ghost use Rattle.tas_tool.specs.Inside.Alone.{SeesOwn};

use crate::opening::open_alone;
use byte_text::split_once;
use std::alloc::Allocator;
use std::io::{Read, Write};
use std::marker::Brand;
use std::sync::Wait;
use tas_desk::{CloseOnDrop, Desk, Name, Seat, Unopened};
use tas_engines::{RunFault, ToolFault, read_input, write_all};
use tas_language::{parse_line, reply_line};
use tas_seat::reply_to_command;

/// Does what the lines ask for, and puts the replies into the empty text. `Memory` and `NoEntry` come only at a line that is understood,
/// and `Foreign` only where the seat has seen more than its own edits.
pub fn answer_lines<N: Name, W: CloseOnDrop, A: Allocator + Copy, R: Wait>(
    rt: &R,
    alloc: A,
    desk: &Desk<N, W, A>,
    seat: &mut Seat<N, A>,
    bytes: &[u8],
    text: &mut Vec<u8, A>,
) -> Result<(), RunFault>
    requires seen { seat.old.made ≤ length seat.old.front }
    requires empty { text.old.items ≡ [] }
    ensures number { seat.new.number ≡ seat.old.number }
    ensures answers { SeesOwn seat.new
        → SeesOwn seat.old
        × Answers (standing_of seat.old.front) bytes.now text.new.items result }
{
    let mut rest = bytes;
    let mut number = 1;
    while !rest.is_empty() {
        let Some((line, after)) = split_once(rest, b'\n') else {
            return Err(RunFault::Script { line: number });
        };
        let Some(command) = parse_line(line) else {
            return Err(RunFault::Script { line: number });
        };
        let reply = reply_to_command(rt, alloc, desk, seat, command)?;
        let words = reply_line(alloc, reply)?;
        text.extend_from_slice(words.as_slice())?;
        rest = after;
        number += 1;
    }
    Ok(())
}

/// Does what the lines ask for on a desk of one seat, puts the replies into the empty text, and closes the desk. That nobody
/// else made an edit is known once it is closed.
fn answer_script<N: Name, A: Allocator + Copy, R: Wait>(
    rt: &R,
    alloc: A,
    unopened: Unopened<A>,
    bytes: &[u8],
    text: &mut Vec<u8, A>,
) -> Result<(), RunFault>
    requires name { unopened ≡ name_of N.registry N.name N.parts }
    requires one { unopened.seats ≡ 1 }
    requires empty { text.old.items ≡ [] }
    ensures { AnswersFrom standing_at_start bytes.now text.new.items result }
{
    let (desk, mut seats) = open_alone::<N, A, R>(rt, alloc, unopened)?;
    let seat = &mut seats.as_mut_slice()[0];
    let end = answer_lines(rt, alloc, &desk, seat, bytes, text);
    drop(desk.close(rt, seats));
    end
}

/// Writes a reply for each line of a script.
fn run_script<A: Allocator + Copy, R: Wait, W: Write>(
    rt: &R,
    alloc: A,
    bytes: &[u8],
    output: &mut W,
) -> Result<(), RunFault>
    ensures { RunsScript bytes.now (W.contents output.old) (W.contents output.new) result }
{
    let Ok(unopened) = Unopened::new(alloc, 1) else {
        return Err(RunFault::Memory);
    };
    let mut text = Vec::new(alloc);
    let end = answer_script::<Brand, A, R>(rt, alloc, unopened, bytes, &mut text);
    write_all(output, text.as_slice())?;
    end
}

/// Reads a script and writes a reply for each of its lines, up to the first line that isn't understood. The script
/// runs on a desk of one seat.
///
/// Faults: those of [`read_input`] with nothing written; `NoPlace`, and `Memory` before the first line, with nothing written; `Script`
/// with the line's number, and `NoEntry` and `Memory` at a line that is understood, with the replies to the lines before written; `Write`
/// with the first bytes of the replies written, and how many. `Foreign` would report an edit that isn't the script's own, and never comes.
pub fn script_run<A: Allocator + Copy, T: Wait, R: Read, W: Write>(
    rt: &T,
    alloc: A,
    input: &mut R,
    output: &mut W,
) -> Result<(), ToolFault>
    // A script is read whole and answered line by line, up to the first line that isn't understood, whose number is
    // reported; the replies before it are written.
    // Refused: first_line_only_is_answered, fault_reports_the_line_before, last_line_without_its_newline_is_dropped*,
    // replies_before_a_fault_are_lost*, long_script_reported_as_a_line_not_understood*,
    // long_script_reported_as_out_of_memory*.
    // A script, over a movie or not, stops with `NoEntry`, and with `Memory` once a line is answered, only at a line
    // that is understood. `NoPlace` comes before the first line.
    // Refused: line_not_understood_is_given_as_memory.
    // Each reply is what a session of cartridge and inputs alone replies at the script's own edits so far.
    // Refused: none, tas_seat has them.
    // A script, over a movie or not, never ends with `Foreign`: its own edits are all that the desk has when it is
    // closed.
    // Refused: foreign_after_an_accepted_edit.
    ensures { IsScriptRun (R.remaining input.old) (R.remaining input.new) (W.contents output.old)
        (W.contents output.new) result }
{
    let bytes = read_input(alloc, input)?;
    Ok(run_script(rt, alloc, bytes.as_slice(), output)?)
}
