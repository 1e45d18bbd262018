//! Kept states of a movie: a greenzone, a job for a worker, and a view.

ghost use Rattle.std.specs.Prelude.{◌≡◌, ◌<◌, length};

use anyhow::{Result, bail};
use std::alloc::Global;
use tas_green::{Green, Job, View};
use tas_movie::Movie;
use vcs_machine::Meter;
use vcs_tia::Picture;

/// Shows frame 70 of a movie, and plays up to frame 149 elsewhere: from which state on, and how many states that brought.
pub fn shot_and_job(alloc: Global, movie: &Movie) -> Result<(usize, usize)>
    requires { 150 < length movie.now.inputs }
{
    let mut green = Green::new(alloc);
    let (mut picture, mut meter) = (Picture::blank(alloc)?, Meter::new());
    let Ok(_) = green.shot(movie, 70, &mut picture, &mut meter) else {
        bail!("out of memory")
    }; // plays 71 frames, and keeps the state after 64
    let near = green.nearest(150); // 64

    let batch = Job::take(alloc, movie, &green, 150)?.run(); // elsewhere: frames 64 to 149
    let Ok(merged) = green.merge(movie, &batch) else {
        bail!("out of memory")
    };
    Ok((near, merged.kept)) // 1: the state after 128 frames
}

/// How many frames a view plays for frame 100, then for 101, then for 100 again.
pub fn steps(alloc: Global, movie: Movie) -> Result<[u64; 3]> {
    let mut picture = Picture::blank(alloc)?;
    let mut view = View::new(alloc, movie)?; // all the memory that it will take
    let mut ran = [0; 3];
    for (place, frame) in [100, 101, 100].iter().enumerate() {
        let Ok(shown) = view.picture(*frame, &mut picture) else {
            bail!("the movie has no frame {frame}")
        };
        ran[place] = shown.ran;
    }
    Ok(ran) // 101, 1, 1: no state was kept at first, and then those near are
}
