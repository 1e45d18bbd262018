//! The line `history` of a conversation: entries of the history, as lines of a script.

ghost use Rattle.std.specs.Prelude.{◌≡◌, ◌≢◌, ◌+◌, ◌<◌, ◌≤◌, ◌^◌, length, max, IfOk, IfErr, MatchResult};
ghost use Rattle.tas_engines.specs.declared.fault.RunFault.TheVariants.{NoEntry};
ghost use Rattle.tas_language.specs.declared.request.Request.TheVariants.{History as HistoryLine};
ghost use Rattle.tas_seat.specs.HistoryText.{entry_lines, history_reply_text};
ghost use Rattle.tas_seat.specs.Outcomes.{HasAnswer, HasNoAnswer};

use crate::requests::{answer_of_reply, answer_or_refusal};
use std::alloc::{AllocError, Allocator};
use std::sync::Wait;
use tas_desk::{CloseOnDrop, Desk, Entry, Name, Seat};
use tas_engines::RunFault;
use tas_language::{Reply, history_answer, push_entry};

/// The lines of some entries, the first of which has this number.
fn entry_lines<A: Allocator + Copy>(
    alloc: A,
    first: usize,
    entries: &[Entry<A>],
) -> Result<Vec<u8, A>, AllocError>
    requires { first + length entries.now < 2 ^ 64 }
    ensures { IfOk result (λ text. text.items ≡ entry_lines first entries.now) }
{
    let mut text = Vec::new(alloc);
    let mut number = first;
    for entry in entries {
        push_entry(alloc, &mut text, number, entry.seat, &entry.edit)?;
        number += 1;
    }
    Ok(text)
}

/// The answer to `history`, for these entries: the last one is within the history, which has `at` of them.
fn list_entries<A: Allocator + Copy>(
    alloc: A,
    at: u64,
    from: usize,
    entries: &[Entry<A>],
) -> Result<Vec<u8, A>, AllocError>
    requires { from + length entries.now ≤ max at from }
    ensures { IfOk result (λ bytes. bytes.items ≡ history_reply_text at from entries.now) }
{
    let lines = entry_lines(alloc, from, entries)?;
    history_answer(alloc, at, from, entries.len(), lines.as_slice())
}

/// A `history` line.
pub fn answer_history<N: Name, W: CloseOnDrop, A: Allocator + Copy, R: Wait>(
    rt: &R,
    alloc: A,
    desk: &Desk<N, W, A>,
    seat: &mut Seat<N, A>,
    from: usize,
) -> Result<Vec<u8, A>, RunFault>
    ensures answer { MatchResult result
        (λ bytes. HasAnswer A seat.old seat.new (HistoryLine from) bytes.items)
        (HasNoAnswer seat.old seat.new (HistoryLine from)) }
    ensures entry { IfErr result (λ fault. fault ≢ NoEntry) }
{
    let Ok(history) = desk.history_part(rt, alloc, seat, from) else {
        return answer_of_reply(alloc, Reply::OutOfMemory);
    };
    let bytes = list_entries(alloc, history.at, from, history.entries.as_slice());
    answer_or_refusal(alloc, bytes)
}
