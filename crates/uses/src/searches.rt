//! The shortest sequence of inputs that reaches a goal.

use anyhow::{Context, Result};
use std::alloc::Global;
use std::io::sink;
use std::thread::Threads;
use std::time::Clock;
use tas_movie::Movie;
use tas_search::{Found, SearchRange, SpacePart, read_goal, read_names, search_movie};
use vcs_inputs::Input;

/// The shortest sequence of inputs, from a frame on, after which the byte at 80 is `value`: nothing, right or left in each frame.
pub fn shortest_to<R: Threads + Clock + Sync>(
    rt: &R,
    alloc: Global,
    movie: &Movie,
    frame: usize,
    value: u8,
) -> Result<Found<Global>> {
    let (mut right, mut left) = (Input::none(), Input::none());
    right.left.right = true;
    left.left.left = true;
    let choices = [Input::none(), right, left]; // in the order in which ties are settled

    let names = read_names(alloc, b"pins 80\n")
        .ok()
        .context("the names are wrong")?;
    let text = format!(in alloc; "reach pins == {value}")?;
    let goal = read_goal(alloc, names.as_slice(), text.as_bytes())
        .ok()
        .context("the text is no goal")?;
    // At most 60 choices, each for one frame, and 1,000,000 states after each of them.
    let range = SearchRange {
        from: frame,
        count: 60,
        hold: 1,
        states: 1_000_000,
        workers: 4,
        part: SpacePart::whole(),
    };
    // Beside it come the changes that write it into the movie. Nobody reads the report here.
    let (found, _) = search_movie(
        rt,
        alloc,
        movie,
        &choices,
        &goal,
        range,
        &mut sink(),
        &mut sink(),
    )
    .ok()
    .context("the search can't begin there")?;
    Ok(found)
}
