//! Work outside the lock.

ghost use Rattle.std.specs.Prelude.{◌≡◌, ◌≢◌, ◌+◌, ◌<◌, ◌≤◌, ◌^◌, length, None, Ok, IfOk, IfSome};
ghost use Rattle.tas_green.specs.Grid.{most_states};
ghost use Rattle.tas_desk.specs.Seats.{KeepsZone};
ghost use Rattle.tas_desk.specs.Work.{with_job, HasWorked, IsJobDone, IsTally, IsWorked, KeepsCart, stale_in};

use crate::locked_session::CloseOnDrop;
use crate::{Desk, Gate, Name, OfferError, Seat};
use std::alloc::{AllocError, Allocator};
use std::sync::Wait;
use thiserror::Error;

/// What was done for some targets.
#[derive(Clone, Copy, Debug, PartialEq, Eq)]
pub struct Worked {
    /// How many targets there were jobs for.
    pub jobs: usize,
    /// How many states were gained.
    pub kept: usize,
    /// How many jobs were of another cartridge than the movie's.
    pub stale: usize,
}

impl Worked {
    /// What was done with one job more, which gained this many states, or was of another cartridge than the movie's.
    fn and(self, gained: Option<usize>) -> Worked
        requires tally { IsTally self }
        requires room { self.jobs + 1 < 2 ^ 64 }
        requires few { IfSome gained (λ kept. kept ≤ most_states) }
        ensures exact { result ≡ with_job self gained }
        ensures tally { IsTally result }
        ensures jobs { result.jobs ≡ self.jobs + 1 }
    {
        let jobs = self.jobs + 1;
        match gained {
            Some(kept) => Worked {
                jobs,
                kept: self.kept.saturating_add(kept),
                stale: self.stale,
            },
            None => Worked {
                jobs,
                kept: self.kept,
                stale: self.stale + 1,
            },
        }
    }
}

/// Why the work ended before its last target.
#[derive(Clone, Copy, Debug, PartialEq, Eq, Error)]
pub enum WorkError {
    /// Memory was refused at the next target.
    #[error("out of memory")]
    Memory {
        /// What was done for the targets before it.
        done: Worked,
    },
}

impl<N: Name, W: CloseOnDrop, A: Allocator + Copy> Desk<N, W, A> {
    /// For each target, in order: takes a job for that many frames, passes the gate with the target's index, runs the job and
    /// offers what it made. The jobs run on this thread, outside the lock. A batch of another cartridge counts as stale.
    ///
    /// `Memory` has what was done for the targets before; their states stay.
    pub fn work<G: Gate, B: Allocator + Copy, R: Wait>(
        &self,
        rt: &R,
        alloc: B,
        seat: &mut Seat<N, A>,
        targets: &[usize],
        gate: &G,
    ) -> Result<Worked, WorkError>
        ensures seat { KeepsZone seat.old seat.new }
        // `reply`, `current`: `work` reports as many jobs as there are targets, or, after `Memory`, fewer. At most all
        // of these are stale, and none where no other cartridge was loaded since what the seat had seen before the
        // call. The others gained at most 512 states each on average.
        // Refused: stale_jobs_are_counted_twice, each_job_is_counted_as_stale*.
        ensures reply { IsWorked (length targets.now) result }
        // For each target there are two histories that the seat has seen since, a job that is one at the first of them for
        // that many frames of its movie, and what running it makes. The job is stale exactly where the two histories'
        // cartridges differ; else as many states are counted as some zone that is lawful at the second lacks of it.
        // Where nobody edited between, these are all places of the movie's grid after the job's start, up to its frames,
        // at which that zone has no state; else at most these.
        // After `Memory` this holds of the first targets, as many as are reported. No clause says which zone it is.
        // Refused: job_is_for_half_the_frames, gained_states_are_reported_as_none,
        // refused_offer_is_reported_as_nothing_gained.
        ensures jobs { HasWorked seat.old.front targets.now result seat.new.front }
        ensures current { KeepsCart seat.old.front seat.new.front → stale_in result ≡ 0 }
    {
        let mut done = Worked {
            jobs: 0,
            kept: 0,
            stale: 0,
        };
        for near in targets {
            match self.work_one(rt, alloc, seat, done.jobs, *near, gate) {
                Ok(gained) => done = done.and(gained),
                Err(_) => return Err(WorkError::Memory { done }),
            }
        }
        Ok(done)
    }

    /// Does the job of the target of this number, for this many frames. Returns how many states were gained, or `None` where the job was
    /// of another cartridge than the movie's.
    fn work_one<G: Gate, B: Allocator + Copy, R: Wait>(
        &self,
        rt: &R,
        alloc: B,
        seat: &mut Seat<N, A>,
        number: usize,
        near: usize,
        gate: &G,
    ) -> Result<Option<usize>, AllocError>
        ensures seat { KeepsZone seat.old seat.new }
        ensures few { IfOk result (λ gained. IfSome gained (λ kept. kept ≤ most_states)) }
        ensures done { IfOk result (IsJobDone seat.old.front seat.new.front near) }
        ensures current { KeepsCart seat.old.front seat.new.front → result ≢ Ok None }
    {
        let job = self.job(rt, alloc, seat, near)?;
        gate.pass(number);
        match self.offer(rt, seat, job.run()) {
            Ok(offered) => Ok(Some(offered.kept)),
            Err(OfferError::Cartridge { .. }) => Ok(None),
            Err(OfferError::Memory(_)) => Err(AllocError),
        }
    }
}
