//! Exports of pictures.
//!
//! An export copies movie and zone, cut for the movie (`moved`), and asks for the room of all pixmaps and for a picture
//! for each worker before the first frame. The seat's own zone isn't changed, so a later shot finds all that was kept.
//! A search for the nearest state that a cut would leave isn't there: `start_of` wants a zone that is lawful for the
//! movie. The copy is at most 512 states. All memory is the caller's, of an allocator that threads may share; it need
//! not be the desk's. That an export plays no more frames than `played` says is no clause. `ExportError` and
//! `ExportFault` hold a writer's error, so they are made without `thiserror`.

ghost use Rattle.std.specs.Prelude.{◌≡◌, ◌↔◌, ◌≤◌, IsTrue, IfOk, IfErr, length};
ghost use Rattle.tas_published.specs.History.{movie_of};
ghost use Rattle.tas_desk.specs.Seats.{KeepsZone};
ghost use Rattle.tas_film.specs.Runs.{most_workers, IsPlan};
ghost use Rattle.tas_desk.specs.Inside.Exporting.{end_at as end_of};
ghost use Rattle.tas_film.specs.Faults.{IsExportFault};
ghost use Rattle.tas_desk.specs.Exports.{IsInRange, IsExported, IsExport};

use crate::locked_session::CloseOnDrop;
use crate::seat_zone::SeatZone;
use crate::{Desk, Gate, Name, Seat};
use std::alloc::Allocator;
use std::io::{Error, Write};
use std::sync::Wait;
use std::thread::Threads;
use tas_film::{ExportFault, ExportPlan, export_frames};
use tas_movie::Movie;
use vcs_cpu::Halt;

/// How many frames one export has at most.
pub const MAX_EXPORT: usize = 1024;

/// Frames were written.
#[derive(Clone, Copy, Debug, PartialEq, Eq)]
pub struct Exported {
    /// How many edits the history has.
    pub at: u64,
    /// How many frames were played.
    pub played: u64,
}

/// Why frames weren't written, or not all.
#[derive(Drop)]
pub enum ExportError {
    /// The movie doesn't have these frames, or there are too many for one export. Nothing was written.
    Range {
        /// How many edits the history has.
        at: u64,
        /// The movie's length in frames.
        len: usize,
    },
    /// Memory was refused. Nothing was written.
    Memory,
    /// A frame is halted; this is the first one. Nothing was written.
    Halted {
        /// How many edits the history has.
        at: u64,
        /// The frame, counted from 0.
        frame: usize,
        /// Where and why it halted.
        halt: Halt,
    },
    /// A write failed, or took no byte, after this many bytes.
    Write {
        /// How many bytes had gone out: fewer than all.
        written: usize,
        /// The writer's error.
        error: Error,
    },
}

/// Whether a movie of this length has all frames from `from` to the one before `to`, and they are few enough for one export.
pub(crate) fn is_in_range(len: usize, from: usize, to: usize) -> bool
    ensures { IsTrue result ↔ IsInRange len from to }
{
    from <= to && to <= len && to - from <= MAX_EXPORT
}

impl<N: Name, W: CloseOnDrop, A: Allocator + Copy> Desk<N, W, A> {
    /// Writes the portable pixmaps of the frames from `from` to the one before `to`, one after the other. The movie is
    /// copied under the lock. The frames are split into `workers` runs in order, which are played and made into pixmaps
    /// outside it, each on a thread of its own, which passes the gate first; a run starts from the nearest state of the
    /// seat's zone that a cut for the movie would leave. A run whose thread can't be started passes its gate and is played by
    /// the calling thread, last. Nothing is written before all pixmaps are there: their room, 100,815
    /// bytes a frame and so 103 MB for 1,024, is asked for before the first frame is played, all of it from `alloc`. The seat's
    /// zone isn't changed, nor is the history.
    ///
    /// `workers` is 1 to [`MAX_WORKERS`](crate::MAX_WORKERS); the caller shows it. `Range` comes first, where the movie doesn't have
    /// these frames or they are more than [`MAX_EXPORT`]; then `Memory`, or `Halted` with the first halted frame. Nothing was written
    /// then. `Write` has the number of bytes that had gone out.
    pub fn export<
        B: Allocator + Copy + Send + Sync,
        G: Gate + Sync,
        O: Write,
        R: Wait + Threads + Sync,
    >(
        &self,
        rt: &R,
        alloc: B,
        seat: &mut Seat<N, A>,
        from: usize,
        to: usize,
        workers: usize,
        gate: &G,
        out: &mut O,
    ) -> Result<Exported, ExportError>
        requires { (1 ≤ workers) × (workers ≤ most_workers) }
        // `export` has written the pixmaps of the range, one after the other, of the front that `at` names, whatever
        // the number of workers; `played` is the sum over the runs of the frames after the nearest state that a cut
        // would leave. `Range` exactly where the range isn't the movie's or too long; `Halted` names the least halted
        // frame; after these and `Memory` nothing is written; after `Write` the first `written` bytes, and no frame is
        // halted.
        // Refused: export_plays_nothing, at_most_1023_frames*.
        ensures seat { KeepsZone seat.old seat.new }
        ensures reply { IsExport seat.old.zone (movie_of seat.new.front) (length seat.new.front)
            (record { from = from; to = to; workers = workers }) (O.contents out.old)
            (O.contents out.new) result }
    {
        let found = self.locked.lock(rt).copy(rt, alloc, seat, from, to);
        let (at, movie) = found?;
        let plan = ExportPlan { from, to, workers };
        let end = export_movie(rt, alloc, &movie, &seat.zone, plan, gate, out);
        end_at(at, end)
    }
}

/// Exports the frames of a plan, each run from the nearest of the states that a cut for the movie would leave in the zone.
fn export_movie<
    A: Allocator + Copy,
    B: Allocator + Copy + Send + Sync,
    R: Threads + Sync,
    G: Gate + Sync,
    O: Write,
>(
    rt: &R,
    alloc: B,
    movie: &Movie<B>,
    zone: &SeatZone<A>,
    plan: ExportPlan,
    gate: &G,
    out: &mut O,
) -> Result<u64, ExportFault>
    requires plan { IsPlan movie.now plan }
    requires range { IsInRange (length movie.now.inputs) plan.from plan.to }
    ensures ok { IfOk result
        (IsExported zone.now movie.now plan (O.contents out.old) (O.contents out.new)) }
    ensures fault { IfErr result
        (IsExportFault movie.now plan (O.contents out.old) (O.contents out.new)) }
{
    match zone.moved(alloc, movie) {
        Ok(left) => export_frames(rt, alloc, movie, &left, plan, gate, out),
        Err(_) => Err(ExportFault::Memory),
    }
}

/// How the export ends of a movie that this many edits made.
fn end_at(at: u64, end: Result<u64, ExportFault>) -> Result<Exported, ExportError>
    ensures { result ≡ end_of at end }
{
    match end {
        Ok(played) => Ok(Exported { at, played }),
        Err(ExportFault::Memory) => Err(ExportError::Memory),
        Err(ExportFault::Halted(halted)) => Err(ExportError::Halted {
            at,
            frame: halted.frame,
            halt: halted.halt,
        }),
        Err(ExportFault::Write { written, error }) => Err(ExportError::Write { written, error }),
    }
}
