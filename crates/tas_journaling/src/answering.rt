//! Answers that wait for the journal.

ghost use Rattle.std.specs.Prelude.{◌≡◌, None, length, IfErr, IfOk, OnOk};
ghost use Rattle.std.specs.Io.KnownBytes.{Appends};
ghost use Rattle.byte_text.specs.CutOff.{IsCutOff};
ghost use Rattle.tas_engines.specs.declared.fault.RunFault.TheVariants.{NoEntry};
ghost use Rattle.tas_seat.specs.Conversations.{talking};
ghost use Rattle.tas_seat.specs.Outcomes.{IsLook};
ghost use Rattle.tas_journaling.specs.Answers.{IsKeptBefore, IsNotedAnswer};
ghost use Rattle.tas_journaling.specs.declared.answering.AnswerFault.TheVariants.{Talk as Unanswered};

use crate::JournalFault;
use crate::noting::{Noting, may_edit};
use byte_text::write_counted;
use std::alloc::Allocator;
use std::io::Write;
use std::sync::Wait;
use tas_desk::{CloseOnDrop, Desk, Name, Seat};
use tas_engines::RunFault;
use tas_language::Request;
use tas_seat::{Draft, answer_talk};
use thiserror::Error;

/// Why an answer isn't out whole.
#[derive(Clone, Copy, Debug, PartialEq, Eq, Error)]
pub enum AnswerFault {
    /// The request isn't answered. Nothing is written.
    #[error("{0}")]
    Talk(RunFault),
    /// The request is carried out, but the journal hasn't all edits. Nothing of the answer is written.
    #[error("journal: {0}")]
    Journal(JournalFault),
    /// The request is carried out, and the journal has its edits. This many bytes of the answer are written, fewer than all.
    #[error("write failed after {0} bytes")]
    Write(usize),
}

/// Hands an answer out whole, and returns how many bytes it has. After a failed write the error is how many went out, fewer than all.
pub(crate) fn hand_out<W: Write>(output: &mut W, bytes: &[u8]) -> Result<usize, usize>
    ensures out { OnOk result (Appends (W.contents output.old) (W.contents output.new) bytes.now) }
    ensures count { IfOk result (λ size. size ≡ length bytes.now) }
    ensures cut { IfErr result
        (λ sent. IsCutOff (W.contents output.old) (W.contents output.new) bytes.now sent) }
{
    if let Err(fault) = write_counted(bytes, 0, output) {
        return Err(fault.written);
    }
    // A flush that fails isn't reported, as in a conversation without a journal.
    let _ = output.flush();
    Ok(bytes.len())
}

/// Answers a request of a conversation as [`answer_talk`] does, writes the answer, and returns how many bytes it has; `None` where the
/// request asks for the end, which has no answer. Before the answer's first byte is written, the journal has the seat's edits
/// and was brought to the disk. A [`Journal`](crate::Journal) of one caller has all that the seat has seen of the history: the seat is shown the history for that, also by a request that only
/// looks. A journal that several conversations share ([`SharedNotes`](crate::SharedNotes)) isn't waited for by a request that can't have made an edit.
///
/// Faults: those of `answer_talk`; those of [`Journal::note`](crate::Journal::note) or [`SharedJournal::note`](crate::SharedJournal::note); and a write that failed. An edit that was made stays in the history.
pub fn answer_noted<
    N: Name,
    C: CloseOnDrop,
    A: Allocator + Copy,
    R: Wait,
    W: Write,
    H: Noting<N, A>,
>(
    rt: &R,
    alloc: A,
    desk: &Desk<N, C, A>,
    seat: &mut Seat<N, A>,
    draft: &mut Option<Draft<A>>,
    request: Request,
    journal: &mut H,
    output: &mut W,
) -> Result<Option<usize>, AnswerFault>
    // A request is answered as in a conversation without a journal. Where the file of a journal of one caller had its head and
    // the lines of a beginning of what the seat had seen, it has those of all that the seat has seen, its edits among
    // them, whenever the answer is out, whole or in part; each line is there once, in order, and nothing else is. Where
    // the journal fails, nothing of the answer is out, and the file has the old lines and some first bytes of the next
    // ones. As the writers of answers and journal may fail at each byte, so it is at each moment. Of a journal that is
    // shared, where it had the seat's edits, or the request may edit, it has the seat's edits whenever the answer is
    // out; where it fails, the receipt is the old one.
    // Refused: answer_goes_out_before_its_entry, refusal_of_the_journal_comes_after_the_first_byte,
    // commit_does_not_wait_for_a_shared_journal.
    ensures answer { IsNotedAnswer H.facts (talking seat.old draft.old)
        (talking seat.new draft.new) request
        journal.old journal.new (W.contents output.old) (W.contents output.new) result }
    // All that the file of a journal of one caller holds is on the disk before the answer's first byte is out.
    // Refused: none, see `Journal::note`.
    ensures kept { IsKeptBefore (H.kept journal.new) result }
    // The first line of such a journal stays that of the same entry.
    // Refused: none, see `Journal::note`.
    ensures first { H.first journal.new ≡ H.first journal.old }
    // Where it failed before, it stays as it is, and nothing of an answer goes out.
    // Refused: answer_goes_out_after_a_failed_journal.
    ensures failed { (fault : JournalFault) → H.failed journal.old fault
        → (journal.new ≡ journal.old) × (W.contents output.new ≡ W.contents output.old) }
    // `NoEntry` comes only of a request that looks, where no draft is open.
    // Refused: none, see `answer_talk`.
    ensures entry { IfErr result
        (λ fault. fault ≡ Unanswered NoEntry → IsLook request × (draft.old ≡ None)) }
{
    let edits = may_edit(draft.is_some(), request);
    let found = match answer_talk(rt, alloc, desk, seat, draft, request) {
        Ok(found) => found,
        Err(fault) => return Err(AnswerFault::Talk(fault)),
    };
    let Some(bytes) = found else {
        return Ok(None);
    };
    if let Err(fault) = journal.note_answer(rt, alloc, desk, seat, edits) {
        return Err(AnswerFault::Journal(fault));
    }
    match hand_out(output, bytes.as_slice()) {
        Ok(size) => Ok(Some(size)),
        Err(sent) => Err(AnswerFault::Write(sent)),
    }
}
