//! Conversations with a journal.
//!
//! The loop is that of `tas_seat`, with [`answer_noted`](crate::answer_noted) in place of its answer: there a fault of the journal has no name,
//! and a seat isn't shown more than its answers need. What a part of the input does is said of the whole conversation up to
//! there, so that no clause speaks of two conversations one after the other.

ghost use Rattle.std.specs.Prelude.{◌≡◌, ◌+◌, ◌++◌, ℕ, List, Option, None, Some, length, min, IfErr, IfOk, OnOk};
ghost use Rattle.std.specs.Io.KnownBytes.{Appends};
ghost use Rattle.byte_text.specs.CutOff.{IsCutOff};
ghost use Rattle.byte_text.specs.Splitting.{NoByte};
ghost use Rattle.tas_desk.specs.Seats.{SeatContent};
ghost use Rattle.tas_language.specs.Unheard.{unknown_text};
ghost use Rattle.tas_language.specs.Held.{HoldsLine};
ghost use Rattle.tas_seat.specs.Conversations.{talking};
ghost use Rattle.tas_seat.specs.Talk.{last_answer, most_counted};
ghost use Rattle.tas_journaling.specs.declared.answering.AnswerFault.TheVariants.{Write as AnswerCut};
ghost use Rattle.tas_journaling.specs.Talks.{WaysWith, IsTalkNotedBy};
ghost use Rattle.tas_journaling.specs.Inside.{counted_fault, IsNotedTurn, IsPartTurn, IsUnderway};

use crate::JournalFault;
use crate::answering::{AnswerFault, answer_noted, hand_out};
use crate::noting::Noting;
use byte_text::split_once;
use std::alloc::Allocator;
use std::io::{Read, Write};
use std::sync::Wait;
use tas_desk::{CloseOnDrop, Desk, Name, Seat};
use tas_engines::{ReadFault, RunFault, ToolFault};
use tas_language::{Line, Unheard, unknown_line};
use tas_seat::Draft;
use thiserror::Error;

/// How many bytes one read asks for.
const CHUNK: usize = 4096;

/// Why a conversation with a journal ended before its end.
#[derive(Clone, Copy, Debug, PartialEq, Eq, Error)]
pub enum TalkFault {
    /// As without a journal. Of an answer that isn't out whole because of a failed write, the journal has the edits.
    #[error("{0}")]
    Tool(ToolFault),
    /// The journal hasn't all edits of a line that is carried out. Nothing of its answer is written.
    #[error("fault: journal: {0}")]
    Journal(JournalFault),
}

/// The fault of an answer, as that of a conversation of which this many bytes were out before.
fn counted(fault: AnswerFault, before: usize) -> TalkFault
    ensures { result ≡ counted_fault fault before }
{
    match fault {
        AnswerFault::Talk(fault) => TalkFault::Tool(ToolFault::Run(fault)),
        AnswerFault::Journal(fault) => TalkFault::Journal(fault),
        AnswerFault::Write(sent) => TalkFault::Tool(ToolFault::Run(RunFault::Write {
            written: before.saturating_add(sent),
        })),
    }
}

/// Answers a line that isn't understood, and returns how many bytes have gone out with those before.
fn answer_unknown<W: Write>(
    output: &mut W,
    why: Unheard,
    before: usize,
) -> Result<Option<usize>, TalkFault>
    ensures out { OnOk result
        (Appends (W.contents output.old) (W.contents output.new) (unknown_text why)) }
    ensures count { IfOk result
        (λ written. written ≡ Some (min (before + length (unknown_text why)) most_counted)) }
    ensures fault { IfErr result (λ fault. (sent : ℕ)
        × IsCutOff (W.contents output.old) (W.contents output.new) (unknown_text why) sent
        × (fault ≡ counted_fault (AnswerCut sent) before)) }
{
    match hand_out(output, unknown_line(why)) {
        Ok(size) => Ok(Some(before.saturating_add(size))),
        Err(sent) => Err(counted(AnswerFault::Write(sent), before)),
    }
}

/// Answers the line that is held, and returns how many bytes of answers have gone out then; `None` where it asks for the
/// end.
fn answer_line<N: Name, C: CloseOnDrop, A: Allocator + Copy, R: Wait, W: Write, H: Noting<N, A>>(
    rt: &R,
    alloc: A,
    desk: &Desk<N, C, A>,
    seat: &mut Seat<N, A>,
    draft: &mut Option<Draft<A>>,
    journal: &mut H,
    written: usize,
    line: &Line<A>,
    output: &mut W,
) -> Result<Option<usize>, TalkFault>
    ensures first { H.first journal.new ≡ H.first journal.old }
    ensures turn { (said : List ℕ) → HoldsLine said line.now.bytes.items line.now.long
        → NoByte 10 said
        → IsNotedTurn H.facts (talking seat.old draft.old) (talking seat.new draft.new)
        journal.old journal.new said written
        (W.contents output.old) (W.contents output.new) result }
{
    let Some(request) = line.request() else {
        return answer_unknown(output, line.unheard(), written);
    };
    match answer_noted(rt, alloc, desk, seat, draft, request, journal, output) {
        Ok(Some(size)) => Ok(Some(written.saturating_add(size))),
        Ok(None) => Ok(None),
        Err(fault) => Err(counted(fault, written)),
    }
}

/// Answers each line that ends in a part of the input, the first of which may have begun before it, and holds what comes
/// after the last newline; `None` where a line asks for the end.
fn answer_part<N: Name, C: CloseOnDrop, A: Allocator + Copy, R: Wait, W: Write, H: Noting<N, A>>(
    rt: &R,
    alloc: A,
    desk: &Desk<N, C, A>,
    seat: &mut Seat<N, A>,
    draft: &mut Option<Draft<A>>,
    journal: &mut H,
    before: usize,
    line: &mut Line<A>,
    part: &[u8],
    output: &mut W,
) -> Result<Option<usize>, TalkFault>
    ensures first { H.first journal.new ≡ H.first journal.old }
    ensures turn { (start : SeatContent A) → (first : WaysWith H) → (input : Option (List ℕ))
        → (said : List ℕ) → HoldsLine said line.old.bytes.items line.old.long
        → NoByte 10 said
        → IsUnderway H.facts start first (talking seat.old draft.old) before
        (record { input = input; output = W.contents output.old; journal = journal.old })
        (said ++ part.now)
        → IsPartTurn H.facts start first (talking seat.new draft.new)
        (record { input = input; output = W.contents output.new; journal = journal.new })
        line.new.bytes.items line.new.long result }
{
    let mut rest = part;
    let mut written = before;
    while let Some((front, after)) = split_once(rest, b'\n') {
        let Ok(()) = line.add(front) else {
            return Err(TalkFault::Tool(ToolFault::Run(RunFault::Memory)));
        };
        match answer_line(rt, alloc, desk, seat, draft, journal, written, line, output) {
            Ok(Some(size)) => written = size,
            Ok(None) => return Ok(None),
            Err(fault) => return Err(fault),
        }
        line.clear();
        rest = after;
    }
    let Ok(()) = line.add(rest) else {
        return Err(TalkFault::Tool(ToolFault::Run(RunFault::Memory)));
    };
    Ok(Some(written))
}

/// Answers what stands after the last newline.
fn answer_last<A: Allocator, W: Write>(
    line: &Line<A>,
    written: usize,
    output: &mut W,
) -> Result<(), TalkFault>
    ensures out { (said : List ℕ) → HoldsLine said line.now.bytes.items line.now.long
        → OnOk result (Appends (W.contents output.old) (W.contents output.new) (last_answer said)) }
    ensures fault { (said : List ℕ) → HoldsLine said line.now.bytes.items line.now.long
        → IfErr result (λ fault. (sent : ℕ)
        × IsCutOff (W.contents output.old) (W.contents output.new) (last_answer said) sent
        × (fault ≡ counted_fault (AnswerCut sent) written)) }
{
    if line.is_empty() {
        return Ok(());
    }
    match answer_unknown(output, Unheard::End, written) {
        Ok(_) => Ok(()),
        Err(fault) => Err(fault),
    }
}

/// Holds a seat's conversation as [`converse`](tas_seat::converse) does, but an answer's first byte goes out only once the journal has the
/// seat's edits, and was brought to the disk ([`answer_noted`](crate::answer_noted)).
///
/// Faults: those of `converse`; and `Journal`, after a line that is carried out, of whose answer nothing is written then.
pub fn converse_noted<
    N: Name,
    C: CloseOnDrop,
    A: Allocator + Copy,
    T: Wait,
    R: Read,
    W: Write,
    H: Noting<N, A>,
>(
    rt: &T,
    alloc: A,
    desk: &Desk<N, C, A>,
    seat: &mut Seat<N, A>,
    journal: &mut H,
    input: &mut R,
    output: &mut W,
) -> Result<(), TalkFault>
    // A conversation with a journal answers each line as one without, at what the lines before it left, and ends as one
    // without, or where the journal fails. A seat may have seen more of the history after each answer.
    // Refused: noted_conversation_goes_on_after_quit, noted_conversation_forgets_its_draft,
    // noted_bytes_are_counted_from_the_last_answer.
    // Where the file of a journal of one caller had its head and the lines of all that the seat had seen, it has those of all
    // that the seat has seen in the end: each once, in order, and nothing else. Where a line isn't answered, it has those of
    // all that the seat had seen after the last answer; where the journal failed, after these perhaps some first bytes of
    // the next ones. As the writers of answers and journal may fail at each byte, so it is at each moment. A journal that is
    // shared and had the seat's edits has those of all lines whose answers are out, whole or in part.
    // Refused: noted_line_is_answered_without_its_journal, conversation_goes_on_after_a_failed_journal.
    ensures talk { IsTalkNotedBy H.facts seat.old seat.new
        (record {
          input = R.remaining input.old;
          output = W.contents output.old;
          journal = journal.old;
        })
        (record {
          input = R.remaining input.new;
          output = W.contents output.new;
          journal = journal.new;
        }) result }
    // The first line of the journal stays that of the same entry.
    // Refused: none, see `Journal::note`.
    ensures first { H.first journal.new ≡ H.first journal.old }
{
    let Ok(mut line) = Line::new(alloc) else {
        return Err(TalkFault::Tool(ToolFault::Run(RunFault::Memory)));
    };
    let mut draft = None;
    let mut written = 0;
    let mut buffer = [0; CHUNK];
    for _ in rt.forever() {
        let Ok(count) = input.read(&mut buffer) else {
            return Err(TalkFault::Tool(ToolFault::Read(ReadFault::Failed)));
        };
        if count == 0 {
            return answer_last(&line, written, output);
        }
        let part = &buffer[..count];
        match answer_part(
            rt, alloc, desk, seat, &mut draft, journal, written, &mut line, part, output,
        ) {
            Ok(Some(next)) => written = next,
            Ok(None) => return Ok(()),
            Err(fault) => return Err(fault),
        }
    }
    unreachable!()
}
