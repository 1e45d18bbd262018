//! A seat's conversation: its lines, one after the other.
//!
//! An answer is made whole before its first byte goes out, so `out of memory` never comes in a picture's middle; then
//! it is flushed. A flush that fails isn't reported: the next write may fail, and after the last answer there is none.
//! A write's fault counts the bytes of the whole conversation, as far as 64 bits can count.
//!
//! The loop has no end of its own (`forever`), since a reader that always gives bytes would never let it end; what is
//! promised is promised of where it returns. A fault can be `Read` wherever no whole line is unanswered, since no
//! contract sees whether a reader failed. Bytes after the last newline aren't a fault: a front-end may stop in the
//! middle of a line. `answer_part` takes seven arguments, what one turn of a conversation has.

ghost use Rattle.std.specs.Prelude.{◌≡◌, ◌+◌, ◌++◌, ℕ, List, length, min, IfOk, IfErr, OnOk, MatchResult};
ghost use Rattle.std.specs.Io.KnownBytes.{Appends};
ghost use Rattle.byte_text.specs.Splitting.{NoByte};
ghost use Rattle.tas_language.specs.Unheard.{unknown_text};
ghost use Rattle.tas_language.specs.Held.{HoldsLine};
ghost use Rattle.tas_seat.specs.Conversations.{talking};
ghost use Rattle.tas_seat.specs.Talk.{last_answer, most_counted, IsTalk};
ghost use Rattle.tas_seat.specs.Inside.Talking.{CutsOff, IsLineTurn, IsPartTurn};

use crate::Draft;
use crate::conversation::answer_talk;
use byte_text::{split_once, write_counted};
use std::alloc::Allocator;
use std::io::{Read, Write};
use std::sync::Wait;
use tas_desk::{CloseOnDrop, Desk, Name, Seat};
use tas_engines::{ReadFault, RunFault, ToolFault};
use tas_language::{Line, Unheard, unknown_line};

/// How many bytes one read asks for.
const CHUNK: usize = 4096;

/// Hands an answer out whole, and returns how many bytes have gone out with those before.
fn hand_out<W: Write>(output: &mut W, bytes: &[u8], before: usize) -> Result<usize, RunFault>
    ensures out { OnOk result (Appends (W.contents output.old) (W.contents output.new) bytes.now) }
    ensures count { IfOk result (λ n. n ≡ min (before + length bytes.now) most_counted) }
    ensures fault { IfErr result
        (CutsOff before bytes.now (W.contents output.old) (W.contents output.new)) }
{
    if let Err(fault) = write_counted(bytes, 0, output) {
        return Err(RunFault::Write {
            written: before.saturating_add(fault.written),
        });
    }
    // A flush that fails isn't reported: a writer that can't pass on what it holds may fail at its next write, and after the
    // last answer there is none.
    let _ = output.flush();
    Ok(before.saturating_add(bytes.len()))
}

/// Answers a line that isn't understood.
fn answer_unknown<W: Write>(output: &mut W, why: Unheard, before: usize) -> Result<usize, RunFault>
    ensures out { OnOk result
        (Appends (W.contents output.old) (W.contents output.new) (unknown_text why)) }
    ensures count { IfOk result (λ n. n ≡ min (before + length (unknown_text why)) most_counted) }
    ensures fault { IfErr result
        (CutsOff before (unknown_text why) (W.contents output.old) (W.contents output.new)) }
{
    hand_out(output, unknown_line(why), before)
}

/// Answers the line that is held, and returns how many bytes of answers have gone out then; `None` where it asks for the
/// end.
fn answer_line<N: Name, C: CloseOnDrop, A: Allocator + Copy, R: Wait, W: Write>(
    rt: &R,
    alloc: A,
    desk: &Desk<N, C, A>,
    seat: &mut Seat<N, A>,
    draft: &mut Option<Draft<A>>,
    written: usize,
    line: &Line<A>,
    output: &mut W,
) -> Result<Option<usize>, RunFault>
    ensures { (said : List ℕ) → HoldsLine said line.now.bytes.items line.now.long
        → NoByte 10 said
        → IsLineTurn (talking seat.old draft.old) (talking seat.new draft.new) said written
        (W.contents output.old) (W.contents output.new) result }
{
    let Some(request) = line.request() else {
        return Ok(Some(answer_unknown(output, line.unheard(), written)?));
    };
    let Some(bytes) = answer_talk(rt, alloc, desk, seat, draft, request)? else {
        return Ok(None);
    };
    Ok(Some(hand_out(output, bytes.as_slice(), written)?))
}

/// Answers each line that ends in a part of the input, the first of which may have begun before it, and holds what comes
/// after the last newline; `None` where a line asks for the end.
fn answer_part<N: Name, C: CloseOnDrop, A: Allocator + Copy, R: Wait, W: Write>(
    rt: &R,
    alloc: A,
    desk: &Desk<N, C, A>,
    seat: &mut Seat<N, A>,
    draft: &mut Option<Draft<A>>,
    before: usize,
    line: &mut Line<A>,
    part: &[u8],
    output: &mut W,
) -> Result<Option<usize>, RunFault>
    ensures { (said : List ℕ) → HoldsLine said line.old.bytes.items line.old.long
        → NoByte 10 said
        → IsPartTurn (talking seat.old draft.old) (talking seat.new draft.new) (said ++ part.now)
        before line.new.bytes.items line.new.long (W.contents output.old) (W.contents output.new)
        result }
{
    let mut rest = part;
    let mut written = before;
    while let Some((front, after)) = split_once(rest, b'\n') {
        line.add(front)?;
        let Some(next) = answer_line(rt, alloc, desk, seat, draft, written, line, output)? else {
            return Ok(None);
        };
        written = next;
        line.clear();
        rest = after;
    }
    line.add(rest)?;
    Ok(Some(written))
}

/// Answers what stands after the last newline.
fn answer_last<A: Allocator, W: Write>(
    line: &Line<A>,
    written: usize,
    output: &mut W,
) -> Result<(), RunFault>
    ensures { (said : List ℕ) → HoldsLine said line.now.bytes.items line.now.long
        → MatchResult result
        (λ _. Appends (W.contents output.old) (W.contents output.new) (last_answer said))
        (CutsOff written (last_answer said) (W.contents output.old) (W.contents output.new)) }
{
    if line.is_empty() {
        return Ok(());
    }
    answer_unknown(output, Unheard::End, written)?;
    Ok(())
}

/// Holds a seat's conversation: reads lines and answers each before it reads on, until one asks for the end or no more bytes come. A
/// draft that is open at the end is lost.
///
/// Faults: `Read` where a read failed, with each whole line answered; `Write`, with the first bytes of the answers written, and how
/// many; `NoEntry`, and `Memory` where it is refused for a line or for its reply, with the lines before answered; `Foreign` where
/// the history has another number of the seat's edits than it made.
pub fn converse<N: Name, C: CloseOnDrop, A: Allocator + Copy, T: Wait, R: Read, W: Write>(
    rt: &T,
    alloc: A,
    desk: &Desk<N, C, A>,
    seat: &mut Seat<N, A>,
    input: &mut R,
    output: &mut W,
) -> Result<(), ToolFault>
    // Refused: quit_ends_with_no_entry.
    // A conversation answers each line as the seat does, and `unknown` with the reason where it isn't understood, which
    // changes nothing.
    // Refused: unknown_is_answered_nothing, last_line_is_reported_as_without_a_word, part_of_a_line_is_dropped*.
    // What left the reader is the lines that were answered and the rest before which it ended: a `quit` line, or no
    // whole line where no more bytes come or a read failed; after a failed write one that begins with the line whose
    // answer was cut off, or no whole line; after `NoEntry` one that begins with a line that looks; after `Memory` any.
    // Refused: conversation_goes_on_after_quit, lines_after_quit_are_answered*,
    // last_line_without_a_newline_is_dropped*.
    // After a failed write the answers before it are out, and the first bytes of this one, fewer than all; the fault
    // reports how many these are together, up to 2^64 - 1. Where memory is refused for an answer, or its write fails,
    // the line may have been carried out, and its edit is the seat's; `history` and the movie have it.
    // Refused: answers_before_a_failed_write_are_not_counted, carried_out_line_is_answered_nothing*,
    // bytes_are_counted_from_the_last_answer*.
    // A conversation begins with no draft, each line is answered with the draft that the lines before it left, and one
    // that is open at the end is lost.
    // Refused: conversation_forgets_its_draft.
    ensures { IsTalk seat.old seat.new (R.remaining input.old) (R.remaining input.new)
        (W.contents output.old) (W.contents output.new) result }
{
    let Ok(mut line) = Line::new(alloc) else {
        return Err(ToolFault::Run(RunFault::Memory));
    };
    let mut draft = None;
    let mut written = 0;
    let mut buffer = [0; CHUNK];
    for _ in rt.forever() {
        let Ok(count) = input.read(&mut buffer) else {
            return Err(ToolFault::Read(ReadFault::Failed));
        };
        if count == 0 {
            return Ok(answer_last(&line, written, output)?);
        }
        let part = &buffer[..count];
        match answer_part(
            rt, alloc, desk, seat, &mut draft, written, &mut line, part, output,
        )? {
            Some(next) => written = next,
            None => return Ok(()),
        }
    }
    unreachable!()
}
