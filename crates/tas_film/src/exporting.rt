//! Pictures written in order.

ghost use Rattle.std.specs.Prelude.{◌≡◌, ◌-◌, [], length, IfOk, IfErr, OnOk};
ghost use Rattle.std.specs.List.{All};
ghost use Rattle.std.specs.Io.KnownBytes.{Appends};
ghost use Rattle.tas_green.specs.Green.{IsLawful};
ghost use Rattle.tas_film.specs.Frames.{AllDrawn, pixmaps_of};
ghost use Rattle.tas_film.specs.Runs.{IsPlan, costs};
ghost use Rattle.tas_film.specs.Faults.{IsExportFault, IsRunsFault};

use crate::Gate;
use crate::pixmaps::{HaltedFrame, Stop};
use crate::runs::{ExportPlan, Run, play_runs};
use crate::writing::write_pixmaps;
use std::alloc::Allocator;
use std::io::{Error, Write};
use std::thread::Threads;
use tas_green::Green;
use tas_movie::Movie;

/// Why an export isn't whole.
#[derive(Drop)]
pub enum ExportFault {
    /// Memory was refused. Nothing was written.
    Memory,
    /// A frame is halted; this is the least one. Nothing was written.
    Halted(HaltedFrame),
    /// A write failed, or took no byte, after this many bytes.
    Write {
        /// How many bytes had gone out: fewer than all.
        written: usize,
        /// The writer's error.
        error: Error,
    },
}

/// Draws the frames of a plan, each run of them by a worker on a thread of its own, where one can be started. A worker passes the
/// gate first and makes the pixmaps of its frames too; all of these are written in order once they are there. A run
/// starts from the nearest kept state at its first frame or before it. Returns how many frames were played.
pub fn export_frames<
    A: Allocator + Copy + Send + Sync,
    R: Threads + Sync,
    G: Gate + Sync,
    W: Write,
>(
    rt: &R,
    alloc: A,
    movie: &Movie<A>,
    zone: &Green<A>,
    plan: ExportPlan,
    gate: &G,
    to: &mut W,
) -> Result<u64, ExportFault>
    requires lawful { IsLawful movie.now zone.now }
    requires plan { IsPlan movie.now plan }
    // The pixmaps of a plan's frames are written one after the other, whatever the number of workers, and none of the
    // frames is halted; the number that it returns is the sum over the runs of the frames after the nearest kept state.
    // After out of memory and after a halt, which is the least one, nothing is written; after a failed write the first
    // `written` bytes, and no frame is halted.
    // Refused: runs_drop_the_rest_of_a_division, each_run_plays_the_frames_of_the_first*,
    // only_the_first_run_is_played, run_starts_from_a_state_half_way, frames_of_the_last_run_alone_are_counted,
    // last_halted_frame_is_reported, halted_frames_are_written*, written_bytes_of_pictures_before_forgotten.
    ensures ok { OnOk result (Appends (W.contents to.old) (W.contents to.new)
        (pixmaps_of movie.now plan.from (plan.to - plan.from))) }
    ensures drawn { OnOk result (AllDrawn movie.now plan.from plan.to) }
    ensures played { IfOk result (λ played. played ≡ costs zone.now plan 0 plan.workers) }
    ensures fault { IfErr result
        (IsExportFault movie.now plan (W.contents to.old) (W.contents to.new)) }
{
    let Ok(mut runs) = plan.runs(alloc) else {
        return Err(ExportFault::Memory);
    };
    export_runs(rt, movie, zone, plan, gate, runs.as_mut_slice(), to)
}

/// Draws the runs of a plan and writes them, as [`export_frames`]; the room for their pixmaps is there.
fn export_runs<A: Allocator + Send + Sync, R: Threads + Sync, G: Gate + Sync, W: Write>(
    rt: &R,
    movie: &Movie<A>,
    zone: &Green<A>,
    plan: ExportPlan,
    gate: &G,
    runs: &mut [Run<A>],
    to: &mut W,
) -> Result<u64, ExportFault>
    requires lawful { IsLawful movie.now zone.now }
    requires plan { IsPlan movie.now plan }
    requires count { length runs.old ≡ plan.workers }
    requires empty { All (λ run. run.pixmaps ≡ []) runs.old }
    ensures ok { OnOk result (Appends (W.contents to.old) (W.contents to.new)
        (pixmaps_of movie.now plan.from (plan.to - plan.from))) }
    ensures drawn { OnOk result (AllDrawn movie.now plan.from plan.to) }
    ensures played { IfOk result (λ played. played ≡ costs zone.now plan 0 plan.workers) }
    // Once the room for the pixmaps is there, an export is out of memory only where it has a frame and its first one
    // isn't halted.
    // Refused: halt_is_reported_as_out_of_memory.
    ensures fault { IfErr result
        (IsRunsFault movie.now plan (W.contents to.old) (W.contents to.new)) }
{
    let end = play_runs(rt, movie, zone, gate, plan, runs);
    match end.stop {
        Some(Stop::Halted(halted)) => return Err(ExportFault::Halted(halted)),
        Some(Stop::Memory) => return Err(ExportFault::Memory),
        None => {}
    }
    match write_pixmaps(runs, to) {
        Ok(()) => Ok(end.played),
        Err(fault) => Err(ExportFault::Write {
            written: fault.written,
            error: fault.error,
        }),
    }
}
