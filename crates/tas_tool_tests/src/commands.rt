//! The commands, each called in one place: what is proved of them is long, and would be looked up again wherever a test called one itself.

use crate::checks::check_same;
use crate::movies::Files;
use std::alloc::Global;
use std::io::{Read, Write};
use std::process::Abort;
use std::sync::Wait;
use std::thread::Threads;
use tas_tool::{
    ToolFault, cart_talk_run, export_run, film_run, movie_script_run, movie_talk_run, script_run,
    shot_run, talk_run,
};

/// A command that answers lines, from a blank cartridge on.
#[derive(Clone, Copy)]
pub enum LineCommand {
    Script,
    Talk,
}

/// Answers lines.
pub fn answer_lines<R: Wait, I: Read, W: Write>(
    rt: &R,
    alloc: Global,
    command: LineCommand,
    input: &mut I,
    output: &mut W,
) -> Result<(), ToolFault> {
    match command {
        LineCommand::Script => script_run(rt, alloc, input, output),
        LineCommand::Talk => talk_run(rt, alloc, input, output).end,
    }
}

/// A command that writes the pictures of a movie's frames.
#[derive(Clone, Copy, Debug)]
pub enum PictureCommand {
    /// From the first of these frames to the one before the second, where they are given.
    Film(Option<usize>, Option<usize>),
    /// From the first of these frames to the one before the second, by this many workers.
    Export(usize, usize, usize),
}

/// Writes pictures.
pub fn write_pictures<R: Wait + Threads + Sync, C: Read, I: Read, W: Write>(
    rt: &R,
    alloc: Global,
    command: PictureCommand,
    cart: &mut C,
    input: &mut I,
    output: &mut W,
) -> Result<(), ToolFault> {
    match command {
        PictureCommand::Film(from, to) => film_run(alloc, from, to, cart, input, output),
        PictureCommand::Export(from, to, workers) => {
            export_run(rt, alloc, from, to, workers, cart, input, output)
        }
    }
}

/// The pictures of a movie's frames, each by a shot of its own, which replays from power-on.
pub fn shots<R: Abort>(
    rt: &R,
    alloc: Global,
    (image, text): Files<'_>,
    (from, to): (usize, usize),
) -> Vec<u8> {
    let mut output = Vec::new(alloc);
    for frame in from..to {
        let mut cart = image;
        let mut input = text;
        let end = shot_run(alloc, frame, &mut cart, &mut input, &mut output);
        check_same(rt, ("shot", frame), end, Ok(()));
    }
    output
}

/// Answers a script over a movie.
pub fn answer_over_movie<R: Wait, W: Write>(
    rt: &R,
    alloc: Global,
    (cart, movie): Files<'_>,
    script: &[u8],
    output: &mut W,
) -> Result<(), ToolFault> {
    let mut cart = cart;
    let mut movie = movie;
    let mut input = script;
    movie_script_run(rt, alloc, &mut cart, &mut movie, &mut input, output)
}

/// Talks from a cartridge.
pub fn talk_from_cart<R: Wait, I: Read>(
    rt: &R,
    alloc: Global,
    cart: &[u8],
    input: &mut I,
    output: &mut Vec<u8>,
) -> Result<(), ToolFault> {
    let mut cart = cart;
    cart_talk_run(rt, alloc, &mut cart, input, output).end
}

/// Talks from a movie.
pub fn talk_from_movie<R: Wait, C: Read, M: Read, I: Read>(
    rt: &R,
    alloc: Global,
    cart: &mut C,
    movie: &mut M,
    input: &mut I,
    output: &mut Vec<u8>,
) -> Result<(), ToolFault> {
    movie_talk_run(rt, alloc, cart, movie, input, output).end
}
