//! Movies on threads.
//!
//! Some movies at a time: the workers get parts of them of the same length, the last one perhaps shorter, and their lines are written
//! before the next ones are begun. So memory is that of the manifest and of as many movies as there are workers.

ghost use Rattle.std.specs.Prelude.{◌≡◌, ℕ, ◌<◌, ◌≤◌, length, map, slice_index_or, vec_len, IfOk};
ghost use Rattle.tas_verify.specs.Manifest.{words_in};
ghost use Rattle.tas_verify.specs.Rows.{IsOutcome};
ghost use Rattle.tas_verify.specs.Lines.{end_of, AreOutcomes};

use crate::playing::judge_row;
use crate::{Outcome, Row, Shelf, Verified};
use std::alloc::{AllocError, Allocator};
use std::thread::{Threads, for_each_mut};

/// How many workers there are at most.
pub const MAX_WORKERS: usize = 16;

/// How many movies a worker gets at a time.
const MOVIES_AT_A_TIME: usize = 32;

/// How many movies are played at a time.
pub(crate) fn batch_size(workers: usize) -> usize
    ensures { 0 < result }
{
    MOVIES_AT_A_TIME * workers.clamp(1, MAX_WORKERS)
}

/// These movies, before they are played.
fn unplayed<'a, A: Allocator>(
    alloc: A,
    rows: &[Row<'a>],
) -> Result<Vec<Verified<'a>, A>, AllocError>
    ensures { IfOk result
        (λ verified. map (λ v. words_in v.row) verified.items ≡ map words_in rows.now) }
{
    let mut verified = Vec::with_capacity(alloc, rows.len())?;
    for row in rows {
        let outcome = Outcome::Memory; // until it is played
        verified.push(Verified {
            row: *row,
            outcome,
            frames: 0,
        })?;
    }
    Ok(verified)
}

/// Plays each of some movies by workers.
fn play_each<'a, R: Threads + Sync, A: Allocator + Copy + Send + Sync, S: Shelf + Sync>(
    rt: &R,
    alloc: A,
    workers: usize,
    shelf: &S,
    verified: &mut [Verified<'a>],
)
where
    S::File: Send,
    ensures { (k : ℕ) (d : _) → k < length verified.old
        → ((slice_index_or verified.new k d).row ≡ (slice_index_or verified.old k d).row)
        × IsOutcome (S.facts shelf.now) (words_in (slice_index_or verified.new k d).row)
        (slice_index_or verified.new k d).outcome }
{
    let play = |_at: usize, one: &mut Verified|
        ensures { (one.exit.now.row ≡ one.entry.now.row)
            × IsOutcome (S.facts shelf.entry.now) (words_in one.exit.now.row) one.exit.now.outcome }
    {
        let judged = judge_row(alloc, shelf, one.row);
        one.outcome = judged.outcome;
        one.frames = judged.frames;
    };
    for_each_mut(rt, verified, workers.clamp(1, MAX_WORKERS), &play);
}

/// What comes of some movies, each played by one of the workers.
pub(crate) fn verify_rows<
    'a,
    R: Threads + Sync,
    A: Allocator + Copy + Send + Sync,
    S: Shelf + Sync,
>(
    rt: &R,
    alloc: A,
    workers: usize,
    shelf: &S,
    rows: &[Row<'a>],
) -> Result<Vec<Verified<'a>, A>, AllocError>
where
    S::File: Send,
    ensures { IfOk result (λ verified.
        AreOutcomes (S.facts shelf.now) (map words_in rows.now) (map end_of verified.items)) }
{
    let mut verified = unplayed(alloc, rows)?;
    play_each(rt, alloc, workers, shelf, verified.as_mut_slice());
    Ok(verified)
}
