//! Calls of a desk, each in one place, and their answers without what takes memory.

ghost use Rattle.std.specs.Prelude.{◌≤◌};
ghost use Rattle.tas_film.specs.Runs.{most_workers};

use crate::changes::{Change, edit_of};
use crate::sums::{Sum, sum_of};
use std::alloc::Global;
use std::io;
use std::process::Abort;
use std::sync::Wait;
use std::thread::Threads;
use tas_desk::{
    CloseOnDrop, CommitError, Desk, EditError, ExportError, Gate, Name, OfferError, Offered,
    Receipt, Seat, Shot, ShotError, Stroke,
};
use tas_green::Batch;
use vcs_cpu::Halt;

/// What a shot shows.
#[derive(Clone, Copy)]
pub struct Shown {
    /// How many edits the history has.
    pub at: u64,
    pub frame: usize,
    /// How many frames were played.
    pub ran: u64,
    /// How many pixels are lit.
    pub lit: usize,
    /// How many bytes the image has, and the sum over them.
    pub sum: (usize, u64),
}

/// An offer's answer, without the batch that it may hand back.
#[derive(Clone, Copy, Debug, PartialEq, Eq)]
pub enum Answered {
    Taken(Offered),
    OtherCartridge(u64),
    OutOfMemory,
}

/// What an export tells, and what it has written: how many bytes, and the sum over them.
pub type Export = (Result<(u64, u64), Refused>, usize, u64);

/// Why frames weren't written, or not all.
#[derive(Clone, Copy, Debug, PartialEq, Eq)]
pub enum Refused {
    Range { at: u64, len: usize },
    Memory,
    Halted { at: u64, frame: usize, halt: Halt },
    Write { written: usize, is_full: bool },
}

/// An edit.
pub fn edit<N: Name, W: CloseOnDrop, R: Wait + Abort>(
    rt: &R,
    alloc: Global,
    desk: &Desk<N, W>,
    seat: &mut Seat<N>,
    change: Change,
) -> Result<Receipt, EditError> {
    desk.edit(rt, seat, edit_of(rt, alloc, change))
}

/// None, one or two edits as one step, where the history has this many.
pub fn commit<N: Name, W: CloseOnDrop, R: Wait + Abort>(
    rt: &R,
    alloc: Global,
    desk: &Desk<N, W>,
    seat: &mut Seat<N>,
    at: u64,
    changes: &[Change],
) -> Result<Receipt, CommitError> {
    let stroke = match changes {
        [change, next, ..] => {
            Stroke::Two(edit_of(rt, alloc, *change), edit_of(rt, alloc, *next))
        }
        [change] => Stroke::One(edit_of(rt, alloc, *change)),
        [] => Stroke::Nothing,
    };
    desk.commit(rt, seat, at, stroke)
}

/// What a shot's answer shows, or why nothing is shown.
fn shown_by(answer: Result<Shot, ShotError>) -> Result<Shown, ShotError> {
    match answer {
        Ok(shot) => Ok(Shown {
            at: shot.at,
            frame: shot.frame,
            ran: shot.ran,
            lit: shot.picture.lit(),
            sum: sum_of(&shot.picture),
        }),
        Err(error) => Err(error),
    }
}

/// A shot.
pub fn shoot<N: Name, W: CloseOnDrop>(
    alloc: Global,
    desk: &Desk<N, W>,
    seat: &mut Seat<N>,
    k: usize,
) -> Result<Shown, ShotError> {
    shown_by(desk.shot(alloc, seat, k))
}

/// A picture from the seat's zone and its window.
pub fn view<N: Name, W: CloseOnDrop>(
    alloc: Global,
    desk: &Desk<N, W>,
    seat: &mut Seat<N>,
    k: usize,
) -> Result<Shown, ShotError> {
    shown_by(desk.picture(alloc, seat, k))
}

/// An offer's answer.
pub fn answer_of(answer: Result<Offered, OfferError>) -> Answered {
    match answer {
        Ok(offered) => Answered::Taken(offered),
        Err(OfferError::Cartridge { at }) => Answered::OtherCartridge(at),
        Err(OfferError::Memory(_)) => Answered::OutOfMemory,
    }
}

/// An offer.
pub fn offer<N: Name, W: CloseOnDrop, R: Wait>(
    rt: &R,
    desk: &Desk<N, W>,
    seat: &mut Seat<N>,
    batch: Batch,
) -> Answered {
    answer_of(desk.offer(rt, seat, batch))
}

/// An error of an export, without what takes memory.
fn refusal_of(error: ExportError) -> Refused {
    match error {
        ExportError::Range { at, len } => Refused::Range { at, len },
        ExportError::Memory => Refused::Memory,
        ExportError::Halted { at, frame, halt } => Refused::Halted { at, frame, halt },
        ExportError::Write { written, error } => Refused::Write {
            written,
            is_full: error.kind() == io::ErrorKind::WriteZero,
        },
    }
}

/// An export of some frames into a writer with so much room.
pub fn export<N: Name, W: CloseOnDrop, G: Gate + Sync, R: Threads + Wait + Sync>(
    rt: &R,
    alloc: Global,
    desk: &Desk<N, W>,
    seat: &mut Seat<N>,
    range: (usize, usize),
    workers: usize,
    gate: &G,
    room: usize,
) -> Export
    requires { (1 ≤ workers) × (workers ≤ most_workers) }
{
    let (from, to) = range;
    let mut out = Sum::new(room);
    let told = match desk.export(rt, alloc, seat, from, to, workers, gate, &mut out) {
        Ok(exported) => Ok((exported.at, exported.played)),
        Err(error) => Err(refusal_of(error)),
    };
    let (bytes, sum) = out.told();
    (told, bytes, sum)
}
