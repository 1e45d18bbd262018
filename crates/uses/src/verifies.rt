//! Movies, each compared with its digest.

use anyhow::Result;
use std::alloc::Global;
use std::io::{Write, sink};
use std::thread::Threads;
use std::time::Clock;
use tas_verify::{Shelf, verify_run};

/// Whether each movie of a manifest plays as its digest says. The lines go to a writer. `HostRuntime` is the shelf of the system's files.
pub fn are_same<R: Threads + Clock + Sync, S: Shelf + Sync, W: Write>(
    rt: &R,
    alloc: Global,
    shelf: &S,
    manifest: &[u8],
    out: &mut W,
) -> Result<bool>
where
    S::File: Send,
{
    let mut input = manifest;
    let tally = verify_run(rt, alloc, 4, shelf, &mut input, out, &mut sink())?; // 4 workers
    Ok(tally.same == tally.movies)
}
