//! Answering a command.
//!
//! `work` shares the states that it filled with the seat, so that the shots after it start from them.

ghost use Rattle.std.specs.Prelude.{◌≡◌, IfErr, MatchResult};
ghost use Rattle.tas_language.specs.declared.command.Command.TheVariants.{Length as LengthLine, InputAt as InputLine, Shot as ShotLine, Work as WorkLine};
ghost use Rattle.tas_language.specs.declared.reply.Reply.TheVariants.{Worked as WorkedReply};
ghost use Rattle.tas_language.specs.declared.request.Request.TheVariants.{Do as ScriptLine};
ghost use Rattle.tas_engines.specs.declared.fault.RunFault.TheVariants.{NoEntry};
ghost use Rattle.tas_seat.specs.Turns.{halted_reply};
ghost use Rattle.tas_seat.specs.Seats.{IsAnswered};
ghost use Rattle.tas_seat.specs.Outcomes.{unshown_as, IsUnanswered, IsLook};

use crate::edit_requests::{EditRequest, make_edit};
use crate::looks::reply_to_shot;
use std::alloc::Allocator;
use std::sync::Wait;
use tas_desk::{CloseOnDrop, Desk, Gate, InputError, Name, Seat, ShotError, Worked};
use tas_engines::RunFault;
use tas_language::{Command, Reply};
use vcs_cpu::Halt;

/// A `len` line.
fn show_length<N: Name, W: CloseOnDrop, A: Allocator>(
    desk: &Desk<N, W, A>,
    seat: &mut Seat<N, A>,
) -> Result<Reply, RunFault>
    ensures { MatchResult result (IsAnswered A seat.old seat.new LengthLine)
        (IsUnanswered seat.old seat.new) }
{
    match desk.len(seat) {
        Ok((at, len)) => Ok(Reply::Measured { at, len }),
        Err(_) => Err(RunFault::NoEntry),
    }
}

/// An `input` line.
fn show_input<N: Name, W: CloseOnDrop, A: Allocator>(
    desk: &Desk<N, W, A>,
    seat: &mut Seat<N, A>,
    frame: usize,
) -> Result<Reply, RunFault>
    ensures { MatchResult result (IsAnswered A seat.old seat.new (InputLine frame))
        (IsUnanswered seat.old seat.new) }
{
    match desk.input(seat, frame) {
        Ok((at, input)) => Ok(Reply::Pressed { at, input }),
        Err(InputError::NoEntry) => Err(RunFault::NoEntry),
        Err(InputError::NoFrame { at, len }) => Ok(Reply::NoFrame { at, len }),
    }
}

/// The reply that reports a halt, at this many edits.
pub fn halted_reply(at: u64, halt: Halt) -> Reply
    ensures { result ≡ halted_reply at halt }
{
    let Halt::Undocumented {
        at: address,
        opcode,
    } = halt;
    Reply::Halted {
        at,
        address,
        opcode,
    }
}

/// The reply to a shot that has no picture.
pub fn unshown_as(error: ShotError) -> Result<Reply, RunFault>
    ensures { result ≡ unshown_as error }
{
    match error {
        ShotError::NoEntry => Err(RunFault::NoEntry),
        ShotError::NoFrame { at, len } => Ok(Reply::NoFrame { at, len }),
        ShotError::Memory => Ok(Reply::OutOfMemory),
        ShotError::Halted { at, halt } => Ok(halted_reply(at, halt)),
    }
}

/// A `shot` line.
fn draw<N: Name, W: CloseOnDrop, A: Allocator + Copy>(
    alloc: A,
    desk: &Desk<N, W, A>,
    seat: &mut Seat<N, A>,
    frame: usize,
) -> Result<Reply, RunFault>
    ensures { MatchResult result (IsAnswered A seat.old seat.new (ShotLine frame))
        (IsUnanswered seat.old seat.new) }
{
    let drawn = desk.shot(alloc, seat, frame);
    reply_to_shot(drawn)
}

/// A gate that stands open.
struct OpenGate;

impl Gate for OpenGate {
    fn pass(&self, _piece: usize) {}
}

/// The reply to a `work` line: what was done.
fn worked_reply(worked: Worked) -> Reply
    // A `work` line's reply has the numbers that the desk counted.
    // Refused: work_is_never_stale.
    ensures { result ≡ WorkedReply worked.jobs worked.kept worked.stale }
{
    Reply::Worked {
        jobs: worked.jobs,
        kept: worked.kept,
        stale: worked.stale,
    }
}

/// A `work` line: the states up to a frame are filled, and the seat's zone gains them.
fn work<N: Name, W: CloseOnDrop, A: Allocator + Copy, R: Wait>(
    rt: &R,
    alloc: A,
    desk: &Desk<N, W, A>,
    seat: &mut Seat<N, A>,
    frame: usize,
) -> Reply
    ensures { IsAnswered A seat.old seat.new (WorkLine frame) result }
{
    let Ok(worked) = desk.work(rt, alloc, seat, &[frame], &OpenGate) else {
        return Reply::OutOfMemory;
    };
    let Ok(_) = desk.share(rt, seat) else {
        return Reply::OutOfMemory;
    };
    worked_reply(worked)
}

/// Does what a command asks for, and answers it: at some history that begins with what the seat had seen. The seat has then
/// seen this history, and after it the edit that the command made. `OutOfMemory` changes nothing of the movie.
///
/// Faults: `NoEntry`, of `len`, `input` and `shot` alone, which leaves the seat as it was; `Foreign` where the history has another number
/// of the seat's edits than it made.
pub fn reply_to_command<N: Name, W: CloseOnDrop, A: Allocator + Copy, R: Wait>(
    rt: &R,
    alloc: A,
    desk: &Desk<N, W, A>,
    seat: &mut Seat<N, A>,
    command: Command,
) -> Result<Reply, RunFault>
    // Refused: edit_at_a_strange_history_is_answered, wrong_serial_is_reported_as_full*,
    // wrong_serial_is_reported_as_no_entry*.
    // A line of a script is answered at one history, which begins with all that the seat had seen, by the reply that
    // cartridge and inputs alone give at this history's movie and number of edits; the seat has then seen this history
    // and, after it, the edit that the line made.
    // Refused: input_line_shows_the_first_frame*, len_line_reports_half_the_length,
    // edit_is_reported_at_the_front_before*, loaded_cartridge_is_blank*, insert_line_replaces*,
    // half_of_the_copies_are_put_in*.
    // The numbers of a line `work K` are those of one job, for K frames or all: it gained 512 states at most, or it was
    // stale and gained none. Where nobody edited between, it gained a state for each place of the grid after the one that
    // it started from, up to its frames, at which a lawful list had none; else at most as many. Where memory is refused
    // for the job, its run or its states, the line is answered `out of memory`.
    // It is stale only where another cartridge is loaded after what the seat had seen.
    // Refused: work_outside_a_draft_reports_stale_states, work_outside_a_draft_fills_half,
    // refused_work_is_reported_as_nothing_kept.
    // Refusals are replies, and change nothing; each comes where it is due, `out of memory` only where no refusal of
    // the edit and no `no frame` is due; it may come in place of `halted`.
    // Refused: full_history_is_reported_as_out_of_memory, place_is_reported_as_too_long*,
    // memory_is_asked_for_before_the_place*, full_is_reported_at_one_edit_less*,
    // insertion_up_to_the_most_inputs_is_refused*.
    // A halted frame is reported as such; a shot reports the number of pixels that aren't black in the definition's
    // picture, and how many frames it played.
    // Refused: halted_frame_is_reported_before_all_edits, halted_frame_is_shown_with_nothing_lit*,
    // half_of_the_lit_pixels_are_reported*, half_of_the_played_frames_are_reported*.
    // `work` cuts the seat's kept states for the movie and lets them gain states of it.
    // Refused: work_does_not_share_its_states.
    // `len`, `input` and edits leave the zone and its window as they were. `shot` and `work` do so, too, or may change
    // the kept states, and then cut the window for the movie and do no more to it.
    // Refused: len_line_brings_the_zone.
    ensures answer { MatchResult result (IsAnswered A seat.old seat.new command)
        (IsUnanswered seat.old seat.new) }
    // `NoEntry` comes only of `len`, `input` or `shot`, which look through the seat's reader.
    // Refused: none, see `answer_request`.
    ensures entry { IfErr result (λ fault. fault ≡ NoEntry → IsLook (ScriptLine command)) }
{
    match command {
        Command::Load { image } => make_edit(rt, desk, seat, EditRequest::Load(image)),
        Command::Edit(change) => make_edit(rt, desk, seat, EditRequest::Change(change)),
        Command::Length => show_length(desk, seat),
        Command::InputAt { frame } => show_input(desk, seat, frame),
        Command::Shot { frame } => draw(alloc, desk, seat, frame),
        Command::Work { frames } => Ok(work(rt, alloc, desk, seat, frames)),
    }
}
