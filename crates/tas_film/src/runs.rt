//! Frames split into runs, one for each worker.
//!
//! `play_run` has seven arguments: it takes the first frame and the place after the last one, so its contract speaks of
//! no plan.

ghost use Rattle.std.specs.Prelude.{◌≡◌, ℕ, ◌+◌, ◌^◌, ◌≤◌, ◌<◌, [], length, slice_index_or, vec_len, IfOk};
ghost use Rattle.std.specs.List.{All};
ghost use Rattle.tas_movie.specs.Content.{most_inputs};
ghost use Rattle.tas_green.specs.Green.{IsLawful};
ghost use Rattle.tas_green.specs.Zone.{first_of};
ghost use Rattle.tas_film.specs.Runs.{most_workers, first_of_run, IsPlan, IsRunEnd, pixmaps_in, AreRunsEnd};

use crate::Gate;
use crate::drawing::{draw_frames, play_up_to};
use crate::pixmaps::{Pixmaps, Stop};
use crate::threads::{Visitor, for_each_on_threads};
use std::alloc::{AllocError, Allocator};
use std::thread::Threads;
use tas_green::Green;
use tas_movie::Movie;
use vcs_machine::Meter;

/// How many workers one export has at most.
pub const MAX_WORKERS: usize = 16;

/// Which frames are drawn, from `from` to the one before `to`, and by how many workers.
#[derive(Clone, Copy)]
pub struct ExportPlan {
    /// The first frame, counted from 0.
    pub from: usize,
    /// The place after the last frame.
    pub to: usize,
    /// How many workers there are.
    pub workers: usize,
}

/// How runs ended.
#[derive(Clone, Copy)]
pub struct RunEnd {
    /// How many frames were played.
    pub played: u64,
    /// Why the first run stopped that wasn't drawn to its last frame, if there is one.
    pub stop: Option<Stop>,
}

/// A worker's frames: their pixmaps, and how their run ended.
#[derive(Drop)]
pub struct Run<A: Allocator> {
    /// The pixmaps.
    pub pixmaps: Pixmaps<A>,
    /// The end; [`NOTHING_PLAYED`] before it.
    pub end: RunEnd,
}

/// The end of a run without frames.
const NOTHING_PLAYED: RunEnd = RunEnd {
    played: 0,
    stop: None,
};

impl ExportPlan {
    /// The first frame of a run, by its number.
    fn first_of_run(&self, run: usize) -> usize
        requires some { 0 < self.now.workers }
        requires most { self.now.workers ≤ most_workers }
        requires order { self.now.from ≤ self.now.to }
        requires within { self.now.to ≤ most_inputs }
        requires run { run ≤ self.now.workers }
        ensures { result ≡ first_of_run self.now run }
    {
        self.from + run * (self.to - self.from) / self.workers
    }

    /// For each run no pixmap yet, and room for those of its frames.
    pub(crate) fn runs<A: Allocator + Copy>(&self, alloc: A) -> Result<Vec<Run<A>, A>, AllocError>
        requires some { 0 < self.now.workers }
        requires most { self.now.workers ≤ most_workers }
        requires order { self.now.from ≤ self.now.to }
        requires within { self.now.to ≤ most_inputs }
        ensures count { IfOk result (λ runs. vec_len runs ≡ self.now.workers) }
        ensures empty { IfOk result (λ runs. All (λ run. run.pixmaps ≡ []) runs.items) }
    {
        let mut runs = Vec::with_capacity(alloc, self.workers)?;
        for number in 0..self.workers {
            let frames = self.first_of_run(number + 1) - self.first_of_run(number);
            let pixmaps = Pixmaps::new(alloc, frames)?;
            runs.push(Run {
                pixmaps,
                end: NOTHING_PLAYED,
            })?;
        }
        Ok(runs)
    }
}

/// Passes the gate and draws a run's frames, from `first` to the one before `next`, from the nearest kept state on.
fn play_run<A: Allocator, G: Gate>(
    movie: &Movie<A>,
    zone: &Green<A>,
    gate: &G,
    run: usize,
    first: usize,
    next: usize,
    pixmaps: &mut Pixmaps<A>,
) -> RunEnd
    requires lawful { IsLawful movie.now zone.now }
    requires order { first ≤ next }
    requires within { next ≤ length movie.now.inputs }
    requires few { next ≤ most_inputs }
    requires empty { pixmaps.old ≡ [] }
    ensures { IsRunEnd movie.now zone.now first next pixmaps.new result }
{
    gate.pass(run);
    if first == next {
        return NOTHING_PLAYED;
    }
    let start = zone.start_of(movie, first);
    let mut meter = Meter::new();
    let mut state = play_up_to(movie, start, first, &mut meter);
    let stop = draw_frames(movie, first, next, &mut state, pixmaps, &mut meter);
    RunEnd {
        played: meter.count(),
        stop,
    }
}

/// What runs and the one after them did.
fn both(front: RunEnd, back: RunEnd) -> RunEnd
    requires { front.played + back.played < 2 ^ 64 }
    ensures played { result.played ≡ front.played + back.played }
    ensures stop { result.stop ≡ first_of front.stop back.stop }
{
    RunEnd {
        played: front.played + back.played,
        stop: front.stop.or(back.stop),
    }
}

/// What draws the runs of an export.
#[derive(Drop)]
struct Player<'a, A: Allocator, G: Gate> {
    movie: &'a Movie<A>,
    zone: &'a Green<A>,
    gate: &'a G,
    plan: ExportPlan,
}

impl<'a, A: Allocator, G: Gate> Visitor<Run<A>> for Player<'a, A, G> {
    ghost accepts = { λ it number run. IsPlan it.movie.now it.plan
        × IsLawful it.movie.now it.zone.now × (number < it.plan.workers) × (run.pixmaps ≡ []) };

    ghost changes = { λ it number _ run. IsRunEnd it.movie.now it.zone.now
        (first_of_run it.plan number) (first_of_run it.plan (number + 1)) run.pixmaps run.end };

    /// Passes the gate and draws the frames of the run with this number.
    fn visit(&self, number: usize, run: &mut Run<A>) {
        let first = self.plan.first_of_run(number);
        let next = self.plan.first_of_run(number + 1);
        let pixmaps = &mut run.pixmaps;
        run.end = play_run(
            self.movie, self.zone, self.gate, number, first, next, pixmaps,
        );
    }
}

/// Draws all runs, each on a thread of its own. This thread starts them one after the other, and plays last those whose thread
/// can't be started.
fn play_each<A: Allocator + Send + Sync, R: Threads + Sync, G: Gate + Sync>(
    rt: &R,
    movie: &Movie<A>,
    zone: &Green<A>,
    gate: &G,
    plan: ExportPlan,
    runs: &mut [Run<A>],
)
    requires plan { IsPlan movie.now plan }
    requires lawful { IsLawful movie.now zone.now }
    requires count { length runs.old ≡ plan.workers }
    requires empty { All (λ run. run.pixmaps ≡ []) runs.old }
    ensures { (i : ℕ) (d : _) → i < plan.workers
        → IsRunEnd movie.now zone.now (first_of_run plan i) (first_of_run plan (i + 1))
        (slice_index_or runs.new i d).pixmaps (slice_index_or runs.new i d).end }
{
    let player = Player {
        movie,
        zone,
        gate,
        plan,
    };
    for_each_on_threads(rt, runs, &player);
}

/// Draws all runs, each on a thread of its own where one can be started, and returns what they did.
pub fn play_runs<A: Allocator + Send + Sync, R: Threads + Sync, G: Gate + Sync>(
    rt: &R,
    movie: &Movie<A>,
    zone: &Green<A>,
    gate: &G,
    plan: ExportPlan,
    runs: &mut [Run<A>],
) -> RunEnd
    requires plan { IsPlan movie.now plan }
    requires lawful { IsLawful movie.now zone.now }
    requires count { length runs.old ≡ plan.workers }
    requires empty { All (λ run. run.pixmaps ≡ []) runs.old }
    // Refused: none, see `Pixmaps::append_frame`.
    ensures { AreRunsEnd movie.now zone.now plan plan.workers (pixmaps_in runs.new) result }
{
    play_each(rt, movie, zone, gate, plan, runs);
    let mut end = NOTHING_PLAYED;
    for run in runs.iter() {
        end = both(end, run.end);
    }
    end
}
