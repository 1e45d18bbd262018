//! Answering a request.
//!
//! `inputs`, `movie` and `states` first let the desk share its states: that cuts the seat's zone for the present movie, so the
//! frames listed are those of lawful states, and the movie is the zone's own copy. The answers of a strip go out
//! together, so a strip has one end: else a fault in its middle would have to say which answers had gone out. The price
//! is 100,839 bytes a frame. `picture` has a window and `shot` has none: the number after `ran` is a script's, too,
//! where it follows from the greenzone alone.

ghost use Rattle.std.specs.Prelude.{◌≡◌, ◌≢◌, ◌++◌, ◌∷◌, [], length, is_some, if◌then◌else◌, Ok, Err, None, IfOk, IfErr, OnOk, MatchOption, MatchResult, ◌⊎◌};
ghost use Rattle.vcs_machine.specs.Machine.{profile};
ghost use Rattle.tas_green.specs.Zone.{state_at};
ghost use Rattle.tas_engines.specs.declared.fault.RunFault.TheVariants.{NoEntry, Memory};
ghost use Rattle.tas_language.specs.declared.reply.Reply.TheVariants.{OutOfMemory};
ghost use Rattle.tas_language.specs.Answers.{states_text, version_text};
ghost use Rattle.tas_language.specs.Replies.{reply_text};
ghost use Rattle.tas_language.specs.declared.request.Request.TheVariants.{Do as ScriptLine, Retouch as RetouchLine, Picture as PictureLine, Pictures as PicturesLine, Digest as DigestLine, Inputs as InputsLine, Movie as MovieLine, States as StatesLine, Share as ShareLine};
ghost use Rattle.tas_seat.specs.Turns.{standing_at};
ghost use Rattle.tas_seat.specs.Requests.{inputs_found, kept_frames};
ghost use Rattle.tas_seat.specs.Subjects.{IsAboutTalk};
ghost use Rattle.tas_seat.specs.Outcomes.{unshown_as, HasAnswer, HasNoAnswer, IsLook};
ghost use Rattle.tas_seat.specs.Inside.Looking.{IsStateLook};

use crate::commands::{reply_to_command, unshown_as};
use crate::edit_requests::{EditRequest, make_edit};
use crate::histories::answer_history;
use crate::looks::{answer_digest, answer_drawn, answer_reached, frames_for};
use std::alloc::{AllocError, Allocator};
use std::sync::Wait;
use tas_desk::{CloseOnDrop, Desk, Name, Seat, ShotError};
use tas_engines::RunFault;
use tas_green::{View, stride};
use tas_language::{
    Command, Reply, Request, Retouch, inputs_answer, movie_answer, reply_line, share_answer,
    states_answer, version_answer,
};
use tas_movie::Movie;
use vcs_machine::PROFILE;

/// A reply as an answer.
pub fn answer_of_reply<A: Allocator>(alloc: A, reply: Reply) -> Result<Vec<u8, A>, RunFault>
    ensures { MatchResult result (λ bytes. bytes.items ≡ reply_text reply)
        (λ fault. fault ≡ Memory) }
{
    Ok(reply_line(alloc, reply)?)
}

/// An answer; where memory was refused for it, `out of memory`.
pub fn answer_or_refusal<A: Allocator>(
    alloc: A,
    answer: Result<Vec<u8, A>, AllocError>,
) -> Result<Vec<u8, A>, RunFault>
    ensures { MatchResult answer (λ bytes. result ≡ Ok bytes)
        (λ _. MatchResult result (λ bytes. bytes.items ≡ reply_text OutOfMemory)
        (λ fault. fault ≡ Memory)) }
{
    match answer {
        Ok(bytes) => Ok(bytes),
        Err(_) => answer_of_reply(alloc, Reply::OutOfMemory),
    }
}

/// The answer to a shot, or a look, that shows nothing.
pub fn unshown_answer<A: Allocator>(alloc: A, error: ShotError) -> Result<Vec<u8, A>, RunFault>
    ensures { MatchResult (unshown_as error)
        (λ reply. MatchResult result (λ bytes. bytes.items ≡ reply_text reply)
        (λ fault. fault ≡ Memory))
        (λ fault. result ≡ Err fault) }
{
    let reply = unshown_as(error)?;
    answer_of_reply(alloc, reply)
}

/// The answer to `version`, at a seat or at a draft: nothing changes.
pub fn answer_version<A: Allocator>(alloc: A) -> Result<Vec<u8, A>, RunFault>
    ensures { MatchResult result (λ bytes. bytes.items ≡ version_text profile)
        (λ fault. fault ≡ Memory) }
{
    Ok(version_answer(alloc, PROFILE)?)
}

/// A script's line.
fn answer_script_line<N: Name, W: CloseOnDrop, A: Allocator + Copy, R: Wait>(
    rt: &R,
    alloc: A,
    desk: &Desk<N, W, A>,
    seat: &mut Seat<N, A>,
    command: Command,
) -> Result<Vec<u8, A>, RunFault>
    ensures answer { MatchResult result
        (λ bytes. HasAnswer A seat.old seat.new (ScriptLine command) bytes.items)
        (HasNoAnswer seat.old seat.new (ScriptLine command)) }
    ensures entry { IfErr result (λ fault. fault ≡ NoEntry → IsLook (ScriptLine command)) }
{
    let reply = reply_to_command(rt, alloc, desk, seat, command)?;
    answer_of_reply(alloc, reply)
}

/// A `press`, `release`, `repeat` or `copy` line.
fn answer_retouch<N: Name, W: CloseOnDrop, A: Allocator + Copy, R: Wait>(
    rt: &R,
    alloc: A,
    desk: &Desk<N, W, A>,
    seat: &mut Seat<N, A>,
    retouch: Retouch,
) -> Result<Vec<u8, A>, RunFault>
    ensures answer { MatchResult result
        (λ bytes. HasAnswer A seat.old seat.new (RetouchLine retouch) bytes.items)
        (HasNoAnswer seat.old seat.new (RetouchLine retouch)) }
    ensures entry { IfErr result (λ fault. fault ≢ NoEntry) }
{
    let reply = make_edit(rt, desk, seat, EditRequest::Retouch(retouch))?;
    answer_of_reply(alloc, reply)
}

/// A `picture` line, from the seat's zone and its window.
fn answer_picture<N: Name, W: CloseOnDrop, A: Allocator + Copy>(
    alloc: A,
    desk: &Desk<N, W, A>,
    seat: &mut Seat<N, A>,
    frame: usize,
) -> Result<Vec<u8, A>, RunFault>
    ensures { MatchResult result
        (λ bytes. HasAnswer A seat.old seat.new (PictureLine frame) bytes.items)
        (HasNoAnswer seat.old seat.new (PictureLine frame)) }
{
    let drawn = desk.picture(alloc, seat, frame);
    answer_drawn(alloc, frame, drawn)
}

/// A `pictures` line: the answers that `picture` gives to the frames from one to the one before another, one after the other.
fn answer_pictures<N: Name, W: CloseOnDrop, A: Allocator + Copy>(
    alloc: A,
    desk: &Desk<N, W, A>,
    seat: &mut Seat<N, A>,
    from: usize,
    to: usize,
) -> Result<Vec<u8, A>, RunFault>
    ensures { MatchResult result
        (λ bytes. HasAnswer A seat.old seat.new (PicturesLine from to) bytes.items)
        (HasNoAnswer seat.old seat.new (PicturesLine from to)) }
{
    let mut bytes = Vec::new(alloc);
    for frame in from..to {
        let shown = answer_picture(alloc, desk, seat, frame)?;
        bytes.extend_from_slice(shown.as_slice())?;
    }
    Ok(bytes)
}

/// A `digest` line, from the seat's zone and its window, as a `picture` line.
fn answer_frame_digest<N: Name, W: CloseOnDrop, A: Allocator + Copy>(
    alloc: A,
    desk: &Desk<N, W, A>,
    seat: &mut Seat<N, A>,
    k: usize,
) -> Result<Vec<u8, A>, RunFault>
    ensures { MatchResult result
        (λ bytes. HasAnswer A seat.old seat.new (DigestLine k) bytes.items)
        (HasNoAnswer seat.old seat.new (DigestLine k)) }
{
    let drawn = desk.picture(alloc, seat, k);
    answer_digest(alloc, k, drawn, seat.view())
}

/// A `ram` or `lag` line, from the seat's zone and its window.
fn answer_look<N: Name, W: CloseOnDrop, A: Allocator + Copy>(
    alloc: A,
    desk: &Desk<N, W, A>,
    seat: &mut Seat<N, A>,
    look: Request,
) -> Result<Vec<u8, A>, RunFault>
    requires { IsStateLook look }
    ensures { MatchResult result (λ bytes. HasAnswer A seat.old seat.new look bytes.items)
        (HasNoAnswer seat.old seat.new look) }
{
    let (from, to) = frames_for(look);
    let reached = desk.state_for(seat, from, to);
    answer_reached(alloc, seat.zone_movie(), look, reached)
}

/// The answer to `inputs`, for a movie at some number of edits.
pub fn list_inputs<A: Allocator + Copy, B: Allocator>(
    alloc: A,
    at: u64,
    movie: &Movie<B>,
    from: usize,
    to: usize,
) -> Result<Vec<u8, A>, RunFault>
    ensures { MatchResult result
        (λ bytes. (bytes.items ≡ inputs_found (standing_at movie.now at) from to)
        ⊎ (bytes.items ≡ reply_text OutOfMemory))
        (λ fault. fault ≡ Memory) }
{
    let len = movie.len();
    if from > to || to > len {
        return answer_of_reply(alloc, Reply::NoFrame { at, len });
    }
    let bytes = inputs_answer(alloc, at, from, to, &movie.inputs()[from..to]);
    answer_or_refusal(alloc, bytes)
}

/// An `inputs` line.
fn answer_inputs<N: Name, W: CloseOnDrop, A: Allocator + Copy, R: Wait>(
    rt: &R,
    alloc: A,
    desk: &Desk<N, W, A>,
    seat: &mut Seat<N, A>,
    from: usize,
    to: usize,
) -> Result<Vec<u8, A>, RunFault>
    ensures answer { MatchResult result
        (λ bytes. HasAnswer A seat.old seat.new (InputsLine from to) bytes.items)
        (HasNoAnswer seat.old seat.new (InputsLine from to)) }
    ensures entry { IfErr result (λ fault. fault ≢ NoEntry) }
{
    let Ok(found) = desk.bring(rt, seat) else {
        return answer_of_reply(alloc, Reply::OutOfMemory);
    };
    list_inputs(alloc, found.at, seat.zone_movie(), from, to)
}

/// A `movie` line.
fn answer_movie<N: Name, W: CloseOnDrop, A: Allocator + Copy, R: Wait>(
    rt: &R,
    alloc: A,
    desk: &Desk<N, W, A>,
    seat: &mut Seat<N, A>,
) -> Result<Vec<u8, A>, RunFault>
    ensures answer { MatchResult result
        (λ bytes. HasAnswer A seat.old seat.new MovieLine bytes.items)
        (HasNoAnswer seat.old seat.new MovieLine) }
    ensures entry { IfErr result (λ fault. fault ≢ NoEntry) }
{
    let Ok(brought) = desk.bring(rt, seat) else {
        return answer_of_reply(alloc, Reply::OutOfMemory);
    };
    let bytes = movie_answer(alloc, brought.at, seat.zone_movie());
    answer_or_refusal(alloc, bytes)
}

/// Appends a frame, where a state is kept after it.
fn push_kept<A: Allocator, B: Allocator>(
    frames: &mut Vec<usize, B>,
    view: &View<A>,
    frame: usize,
) -> Result<(), AllocError>
    ensures { OnOk result
        (frames.new.items
        ≡ frames.old.items
        ++ (if is_some (state_at frame view.now.states) then frame ∷ [] else [])) }
{
    if !view.holds(frame) {
        return Ok(());
    }
    frames.push(frame)?;
    Ok(())
}

/// The frames from 1 to the movie's length at which a state of it is kept. Only places of the grid need a look, since no state is
/// kept elsewhere.
fn frames_kept<A: Allocator, B: Allocator>(
    alloc: B,
    view: &View<A>,
) -> Result<Vec<usize, B>, AllocError>
    ensures { IfOk result
        (λ frames. frames.items ≡ kept_frames (length view.now.movie.inputs) view.now.states) }
{
    let len = view.movie().len();
    let step = stride(len);
    let mut frames = Vec::new(alloc);
    for before in 0..len / step {
        push_kept(&mut frames, view, (before + 1) * step)?;
    }
    Ok(frames)
}

/// The answer to `states`, for a view.
pub fn list_states<A: Allocator, B: Allocator + Copy>(
    alloc: B,
    view: &View<A>,
    at: u64,
) -> Result<Vec<u8, B>, AllocError>
    ensures { IfOk result
        (λ bytes. bytes.items
        ≡ states_text at (kept_frames (length view.now.movie.inputs) view.now.states)) }
{
    let frames = frames_kept(alloc, view)?;
    states_answer(alloc, at, frames.as_slice())
}

/// A `states` line.
fn answer_states<N: Name, W: CloseOnDrop, A: Allocator + Copy, R: Wait>(
    rt: &R,
    alloc: A,
    desk: &Desk<N, W, A>,
    seat: &mut Seat<N, A>,
) -> Result<Vec<u8, A>, RunFault>
    ensures answer { MatchResult result
        (λ bytes. HasAnswer A seat.old seat.new StatesLine bytes.items)
        (HasNoAnswer seat.old seat.new StatesLine) }
    ensures entry { IfErr result (λ fault. fault ≢ NoEntry) }
{
    let Ok(shared) = desk.bring(rt, seat) else {
        return answer_of_reply(alloc, Reply::OutOfMemory);
    };
    let bytes = list_states(alloc, seat.view(), shared.at);
    answer_or_refusal(alloc, bytes)
}

/// A `share` line.
fn answer_share<N: Name, W: CloseOnDrop, A: Allocator + Copy, R: Wait>(
    rt: &R,
    alloc: A,
    desk: &Desk<N, W, A>,
    seat: &mut Seat<N, A>,
) -> Result<Vec<u8, A>, RunFault>
    ensures answer { MatchResult result
        (λ bytes. HasAnswer A seat.old seat.new ShareLine bytes.items)
        (HasNoAnswer seat.old seat.new ShareLine) }
    ensures entry { IfErr result (λ fault. fault ≢ NoEntry) }
{
    let Ok(shared) = desk.bring(rt, seat) else {
        return answer_of_reply(alloc, Reply::OutOfMemory);
    };
    Ok(share_answer(alloc, shared.at, shared.gained)?)
}

/// Does what a request asks for, and answers it: at some history that begins with what the seat had seen, and that it has seen
/// then. The pictures of a strip may be answered at several histories, each of which begins the next. `begin`, `commit`, `drop` and
/// `quit` are about a conversation, and get no answer here. Where memory is refused for a picture, a text or a list, the answer is
/// `out of memory`.
///
/// Faults: those of [`reply_to_command`](crate::reply_to_command), after which the first pictures of a strip may be drawn; `NoEntry` comes
/// of `picture`, `pictures`, `ram`, `digest` and `lag`, too. And `Memory`, where it is refused for an answer of one short line, once the
/// request is carried out, or for a strip.
pub fn answer_request<N: Name, W: CloseOnDrop, A: Allocator + Copy, R: Wait>(
    rt: &R,
    alloc: A,
    desk: &Desk<N, W, A>,
    seat: &mut Seat<N, A>,
    request: Request,
) -> Result<Option<Vec<u8, A>>, RunFault>
    // Each request that is no line of a script is answered at a history that begins with all that the seat had seen,
    // too: `picture` with the definition's pixmap, `ram`, `digest` and `lag` with what the movie's machine has, `inputs`
    // with the runs of the movie's inputs, `movie` with the movie's text, `states` with the frames of the states that
    // are kept then, `share` with how many states were gained; each of them names the number of this history's edits.
    // Refused: share_is_reported_to_have_gained_nothing*, digest_of_ram_before_the_frame,
    // movie_is_reported_at_one_edit_less, movie_before_is_reported_where_memory_is_refused*,
    // picture_line_shows_the_first_frame*, picture_is_reported_at_one_edit_less*,
    // states_are_reported_up_to_half_the_length*, state_after_the_last_frame_is_reported_as_no_frame*,
    // ram_is_reported_at_one_edit_less*, halted_digest_is_reported_as_out_of_memory*,
    // lag_is_played_from_another_frame*, lag_of_missing_frames_is_reported*, inputs_are_those_from_the_first_frame_on.
    // A picture, also one of a strip, is played from the seat's zone and window, and fills the window: it is the desk's
    // view. So is the frame of `digest`, which keeps what a picture of it keeps. So are the frames before the first one
    // that `ram` or `lag` looks at: it is the desk's state. Where the movie hasn't these frames, both are as they were;
    // where the answer is `out of memory`, they may be.
    // `press`, `release`, `repeat`, `copy` and `history` leave both as they were. `inputs`, `movie`, `states` and
    // `share` do so, too, or may change the kept states, and then cut the window for the movie and do no more to it.
    // Refused: window_is_lost_before_a_picture, window_is_lost_before_a_digest.
    // The pictures of a strip are answered one after the other, each at a history that begins with all that the seat
    // had seen.
    // Refused: strip_leaves_out_its_last_frame, first_answer_of_a_strip_alone*.
    // `history FROM` is answered with the part of a history that begins with its entry FROM, by the lines of a script
    // that make it; the history begins with all that the seat had seen.
    // Refused: history_begins_one_entry_later.
    // `press`, `release`, `repeat` and `copy` are each one edit of what this history's movie has, refused and made as a
    // script's edit is.
    // Refused: retouch_takes_half_of_its_frames, retouch_is_refused_by_half_the_length*.
    // `version` is answered by the numbers of program, profile and format, and changes nothing.
    // Refused: version_has_another_profile.
    // A line that isn't answered leaves the seat as it was; or, of a strip, as its first pictures left it, fewer than
    // it asks for; or, where memory was refused, the line was carried out. At `Foreign` alone the seat may have seen
    // more; it has made as many edits as before.
    // Refused: none, see `answer_talk`.
    ensures answer { MatchResult result
        (λ found. MatchOption found (IsAboutTalk request × (seat.new ≡ seat.old))
        (λ bytes. HasAnswer A seat.old seat.new request bytes.items))
        (HasNoAnswer seat.old seat.new request) }
    // `begin`, `commit`, `drop` and `quit` get no answer and no fault from a seat.
    // Refused: quit_is_out_of_memory_at_a_seat.
    ensures talk { IsAboutTalk request → result ≡ Ok None }
    // `NoEntry` comes only of a line that looks through the seat's reader: `len`, `input`, `shot`, `picture`,
    // `pictures`, `ram`, `digest` or `lag`.
    // Refused: copy_line_ends_with_no_entry.
    ensures entry { IfErr result (λ fault. fault ≡ NoEntry → IsLook request) }
{
    match request {
        Request::Do(command) => Ok(Some(answer_script_line(rt, alloc, desk, seat, command)?)),
        Request::Retouch(retouch) => Ok(Some(answer_retouch(rt, alloc, desk, seat, retouch)?)),
        Request::Picture { frame } => Ok(Some(answer_picture(alloc, desk, seat, frame)?)),
        Request::Pictures { from, to } => Ok(Some(answer_pictures(alloc, desk, seat, from, to)?)),
        Request::Digest { frame } => Ok(Some(answer_frame_digest(alloc, desk, seat, frame)?)),
        Request::Ram { .. } | Request::Lag { .. } => {
            Ok(Some(answer_look(alloc, desk, seat, request)?))
        }
        Request::Inputs { from, to } => Ok(Some(answer_inputs(rt, alloc, desk, seat, from, to)?)),
        Request::Movie => Ok(Some(answer_movie(rt, alloc, desk, seat)?)),
        Request::States => Ok(Some(answer_states(rt, alloc, desk, seat)?)),
        Request::Share => Ok(Some(answer_share(rt, alloc, desk, seat)?)),
        Request::History { from } => Ok(Some(answer_history(rt, alloc, desk, seat, from)?)),
        Request::Version => Ok(Some(answer_version(alloc)?)),
        Request::Begin | Request::Commit | Request::Drop | Request::Quit => Ok(None),
    }
}
