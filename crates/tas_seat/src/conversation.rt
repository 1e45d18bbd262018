//! Answering a request of a conversation, in a draft or outside one.
//!
//! A commit is refused as `moved` where others have edited, and not merged: the draft was answered by a movie that is
//! no longer the desk's. It stays open, to be looked at. The history is looked at first, by a commit of no edits, so
//! `out of memory` never hides `moved` or `full`; the number of edits is counted without memory. Others may still edit
//! before the step, which is then refused as `moved` itself. `share` and `history` are about the desk, in a draft too,
//! since they are what others see.

ghost use Rattle.std.specs.Prelude.{◌≡◌, ◌≢◌, ◌≤◌, length, Some, None, Ok, IfOk, IfErr, MatchOption, MatchResult};
ghost use Rattle.tas_published.specs.History.{most_edits};
ghost use Rattle.tas_desk.specs.Seats.{SeatContent, KeepsZone};
ghost use Rattle.tas_desk.specs.Zones.{view_in};
ghost use Rattle.tas_engines.specs.declared.fault.RunFault.TheVariants.{NoEntry, Memory};
ghost use Rattle.tas_language.specs.Drafts.{draft_reply_text};
ghost use Rattle.tas_language.specs.declared.request.Request.TheVariants.{Begin as BeginLine, Commit as CommitLine, Drop as DropLine, Quit as QuitLine};
ghost use Rattle.tas_seat.specs.Conversations.{talking};
ghost use Rattle.tas_seat.specs.Drafts.{fresh_draft};
ghost use Rattle.tas_seat.specs.Subjects.{subject_of};
ghost use Rattle.tas_seat.specs.Inside.Conversing.{HasMoved, HasOutcome, HasNoOutcome};
ghost use Rattle.tas_seat.specs.declared.conversation.Subject.TheVariants.{Movie as AboutMovie};
ghost use Rattle.tas_seat.specs.Outcomes.{HasTalkAnswer, HasNoTalkAnswer, IsLook};

use crate::Draft;
use crate::edit_requests::refused_as;
use crate::requests::{answer_of_reply, answer_request};
use std::alloc::{AllocError, Allocator};
use std::sync::Wait;
use tas_desk::{CloseOnDrop, CommitError, Desk, MAX_EDITS, Name, Seat, Stroke};
use tas_engines::RunFault;
use tas_language::{DraftReply, Reply, Request, draft_reply_line};

/// What a request of a conversation is about.
#[derive(Clone, Copy)]
pub enum Subject {
    /// `begin`: a draft that isn't open yet.
    Begin,
    /// `commit`: the draft's change.
    Commit,
    /// `drop`: the draft itself.
    Drop,
    /// `share` and `history`: the desk.
    Desk,
    /// The movie: that of the draft where one is open, else the desk's.
    Movie,
    /// `quit`: the conversation's end.
    End,
}

/// The subject of a request.
fn request_subject(request: Request) -> Subject
    ensures { result ≡ subject_of request }
{
    match request {
        Request::Begin => Subject::Begin,
        Request::Commit => Subject::Commit,
        Request::Drop => Subject::Drop,
        Request::Quit => Subject::End,
        Request::Share => Subject::Desk,
        Request::History { from: _ } => Subject::Desk,
        _ => Subject::Movie,
    }
}

/// An answer about a draft.
fn answer_about_draft<A: Allocator>(alloc: A, reply: DraftReply) -> Result<Vec<u8, A>, RunFault>
    ensures { MatchResult result (λ bytes. bytes.items ≡ draft_reply_text reply)
        (λ fault. fault ≡ Memory) }
{
    Ok(draft_reply_line(alloc, reply)?)
}

/// A draft of the movie of a seat's greenzone, with a copy of its states and its window.
fn open_draft<N: Name, A: Allocator + Copy>(
    alloc: A,
    seat: &Seat<N, A>,
    at: u64,
) -> Result<Draft<A>, AllocError>
    requires { at ≤ most_edits }
    ensures { IfOk result (λ draft. draft ≡ fresh_draft at (view_in seat.now.zone)) }
{
    let base = seat.zone_movie().copy(alloc)?;
    let view = seat.view().copy(alloc)?;
    Ok(Draft::new(base, view, at))
}

/// A `begin` line.
fn answer_begin<N: Name, W: CloseOnDrop, A: Allocator + Copy, R: Wait>(
    rt: &R,
    alloc: A,
    desk: &Desk<N, W, A>,
    seat: &mut Seat<N, A>,
    draft: &mut Option<Draft<A>>,
) -> Result<Vec<u8, A>, RunFault>
    ensures answer { MatchResult result
        (λ bytes. HasTalkAnswer A (talking seat.old draft.old) (talking seat.new draft.new)
        BeginLine bytes.items)
        (HasNoTalkAnswer (talking seat.old draft.old) (talking seat.new draft.new) BeginLine) }
    ensures entry { IfErr result (λ fault. fault ≢ NoEntry) }
{
    if draft.is_some() {
        return answer_about_draft(alloc, DraftReply::InDraft);
    }
    let Ok(brought) = desk.bring(rt, seat) else {
        return answer_of_reply(alloc, Reply::OutOfMemory);
    };
    let Ok(opened) = open_draft(alloc, seat, brought.at) else {
        return answer_of_reply(alloc, Reply::OutOfMemory);
    };
    *draft = Some(opened);
    let len = seat.zone_movie().len();
    answer_about_draft(
        alloc,
        DraftReply::Began {
            at: brought.at,
            len,
        },
    )
}

/// What came of a `commit`, and its answer.
#[derive(Clone, Copy)]
enum Outcome {
    /// The draft's change was made.
    Made(DraftReply),
    /// Others have edited the movie.
    Moved(DraftReply),
    /// Nothing was made, as of an edit that is refused.
    Refused(Reply),
}

/// Whether the history has another number of edits than `at`: how many, where it has. A commit of no edits finds out; otherwise only
/// `Serial` refuses it, which is the fault `Foreign`.
fn moved_from<N: Name, W: CloseOnDrop, A: Allocator + Copy, R: Wait>(
    rt: &R,
    desk: &Desk<N, W, A>,
    seat: &mut Seat<N, A>,
    at: u64,
) -> Result<Option<u64>, RunFault>
    ensures { MatchResult result
        (λ moved. KeepsZone seat.old seat.new × HasMoved at (length seat.new.front) moved)
        (HasNoOutcome seat.old seat.new) }
{
    match desk.commit(rt, seat, at, Stroke::Nothing) {
        Ok(_) => Ok(None),
        Err(CommitError::Moved { at }) => Ok(Some(at)),
        Err(CommitError::Refused(error)) => {
            // Only `Serial` comes here; that `Full` doesn't is no clause of `commit`.
            refused_as(error)?;
            Ok(None)
        }
    }
}

/// Makes what an open draft comes to. The history is looked at before memory is asked for: where it has other edits than when the draft
/// began, or no room, that is the answer.
fn make_stroke<N: Name, W: CloseOnDrop, A: Allocator + Copy, R: Wait>(
    rt: &R,
    alloc: A,
    desk: &Desk<N, W, A>,
    seat: &mut Seat<N, A>,
    opened: &Draft<A>,
) -> Result<Outcome, RunFault>
    ensures { MatchResult result (HasOutcome A seat.old seat.new opened.now)
        (HasNoOutcome seat.old seat.new) }
{
    let at = opened.at();
    let count = opened.stroke_len();
    if let Some(at) = moved_from(rt, desk, seat, at)? {
        return Ok(Outcome::Moved(DraftReply::Moved { at }));
    }
    if at + count > MAX_EDITS {
        return Ok(Outcome::Refused(Reply::Full { at }));
    }
    let Ok(stroke) = opened.stroke(alloc) else {
        return Ok(Outcome::Refused(Reply::OutOfMemory));
    };
    match desk.commit(rt, seat, at, stroke) {
        Ok(receipt) => Ok(Outcome::Made(DraftReply::Committed {
            at: receipt.at,
            len: receipt.len,
        })),
        Err(CommitError::Moved { at }) => Ok(Outcome::Moved(DraftReply::Moved { at })),
        Err(CommitError::Refused(error)) => Ok(Outcome::Refused(refused_as(error)?)),
    }
}

/// A `commit` line.
fn answer_commit<N: Name, W: CloseOnDrop, A: Allocator + Copy, R: Wait>(
    rt: &R,
    alloc: A,
    desk: &Desk<N, W, A>,
    seat: &mut Seat<N, A>,
    draft: &mut Option<Draft<A>>,
) -> Result<Vec<u8, A>, RunFault>
    ensures answer { MatchResult result
        (λ bytes. HasTalkAnswer A (talking seat.old draft.old) (talking seat.new draft.new)
        CommitLine bytes.items)
        (HasNoTalkAnswer (talking seat.old draft.old) (talking seat.new draft.new) CommitLine) }
    ensures entry { IfErr result (λ fault. fault ≢ NoEntry) }
{
    let Some(opened) = draft else {
        return answer_about_draft(alloc, DraftReply::NoDraft);
    };
    match make_stroke(rt, alloc, desk, seat, opened)? {
        Outcome::Made(reply) => {
            *draft = None;
            answer_about_draft(alloc, reply)
        }
        Outcome::Moved(reply) => answer_about_draft(alloc, reply),
        Outcome::Refused(reply) => answer_of_reply(alloc, reply),
    }
}

/// A `drop` line.
fn answer_drop<A: Allocator>(alloc: A, draft: &mut Option<Draft<A>>) -> Result<Vec<u8, A>, RunFault>
    ensures answer { (seat : SeatContent A) → MatchResult result
        (λ bytes. HasTalkAnswer A (talking seat draft.old) (talking seat draft.new) DropLine
        bytes.items)
        (HasNoTalkAnswer (talking seat draft.old) (talking seat draft.new) DropLine) }
    ensures entry { IfErr result (λ fault. fault ≢ NoEntry) }
{
    if draft.take().is_none() {
        return answer_about_draft(alloc, DraftReply::NoDraft);
    }
    answer_about_draft(alloc, DraftReply::Dropped)
}

/// A line about the movie, in a draft.
fn answer_in_draft<A: Allocator + Copy>(
    alloc: A,
    opened: &mut Draft<A>,
    request: Request,
) -> Result<Option<Vec<u8, A>>, RunFault>
    requires { subject_of request ≡ AboutMovie }
    ensures answer { (seat : SeatContent A) → MatchResult result
        (λ found. MatchOption found ⊥
        (λ bytes. HasTalkAnswer A (talking seat (Some opened.old)) (talking seat (Some opened.new))
        request bytes.items))
        (HasNoTalkAnswer (talking seat (Some opened.old)) (talking seat (Some opened.new))
        request) }
    ensures entry { IfErr result (λ fault. fault ≢ NoEntry) }
{
    opened.answer(alloc, request)
}

/// Answers a request of a conversation. Where a draft is open, a line about the movie is answered at the draft; `quit` alone gets no
/// answer.
///
/// Faults: those of [`answer_request`](crate::answer_request), `NoEntry` only where no draft is open. `quit` has none.
pub fn answer_talk<N: Name, W: CloseOnDrop, A: Allocator + Copy, R: Wait>(
    rt: &R,
    alloc: A,
    desk: &Desk<N, W, A>,
    seat: &mut Seat<N, A>,
    draft: &mut Option<Draft<A>>,
    request: Request,
) -> Result<Option<Vec<u8, A>>, RunFault>
    // A line that isn't answered leaves an open draft as it was, or, of a strip, as its first pictures left it, fewer
    // than it asks for; or, where memory was refused, the line was carried out.
    // Refused: draft_is_lost_by_a_fault.
    // Where no draft is open, `begin` is answered at a history that begins with all that the seat had seen: it opens a
    // draft of that movie, with a copy of the states that the seat's greenzone then keeps of it and of its window, or
    // memory is refused and none is opened. `commit` and `drop` are answered `no draft` and change nothing; each other
    // line is answered as it is without drafts.
    // Refused: draft_begins_one_edit_early.
    // In a draft a line about a movie is answered at the draft, and the seat stays as it is; `share` and `history` are
    // answered at a history that begins with all that the seat had seen, and the draft stays as it is; `begin` is
    // answered `in draft`; `drop` gives the draft up and changes nothing else.
    // Refused: line_in_a_draft_is_answered_by_the_desk, drop_leaves_the_draft_open.
    // `commit` is answered at one such history. Where this has as many edits as when the draft began, room for those
    // that the draft comes to, and a movie that allows them, these stand next in it, all of them, with no other
    // between, and no draft is open then. Else nothing is made and the draft stays open; so it does where memory is
    // refused, which is answered only where the draft comes to an edit and the history has that number of edits and
    // that room. In a conversation the movie allows them: it is the one at which the draft began
    // (`commits_make_drafts`).
    // Refused: commit_is_made_where_others_have_edited, memory_is_asked_for_where_others_have_edited*,
    // memory_is_asked_for_where_there_is_no_room*, draft_is_lost_by_a_refused_commit.
    ensures answer { MatchResult result
        (λ found. MatchOption found
        ((request ≡ QuitLine) × (talking seat.new draft.new ≡ talking seat.old draft.old))
        (λ bytes. HasTalkAnswer A (talking seat.old draft.old) (talking seat.new draft.new) request
        bytes.items))
        (HasNoTalkAnswer (talking seat.old draft.old) (talking seat.new draft.new) request) }
    // `quit` gets no answer and no fault, however little memory there is.
    // Refused: quit_is_reported_as_out_of_memory.
    ensures quit { request ≡ QuitLine → result ≡ Ok None }
    // `NoEntry` comes only of a line of which `answer_request` has it, and of none in a draft.
    // Refused: none, see `answer_request` and `Draft::answer`.
    ensures entry { IfErr result
        (λ fault. fault ≡ NoEntry → IsLook request × (draft.old ≡ None)) }
{
    match request_subject(request) {
        Subject::End => Ok(None),
        Subject::Begin => Ok(Some(answer_begin(rt, alloc, desk, seat, draft)?)),
        Subject::Commit => Ok(Some(answer_commit(rt, alloc, desk, seat, draft)?)),
        Subject::Drop => Ok(Some(answer_drop(alloc, draft)?)),
        Subject::Desk => answer_request(rt, alloc, desk, seat, request),
        Subject::Movie => match draft {
            Some(opened) => answer_in_draft(alloc, opened, request),
            None => answer_request(rt, alloc, desk, seat, request),
        },
    }
}
