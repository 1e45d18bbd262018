//! Stretches of lag frames, and `tas lag`.

ghost use Rattle.std.specs.Prelude.{◌≡◌, ◌+◌, ◌^◌, ◌<◌, ◌≤◌, [], ◌++◌, if◌then◌else◌, Ok, Err, length, OnOk, IfOk, IfErr};
ghost use Rattle.tas_green.specs.Run.{state_after};
ghost use Rattle.tas_engines.specs.Commands.{OfTwo};
ghost use Rattle.tas_engines.specs.Lag.{is_lag, lag_lines, lag_lines_between, stretch_or_none, LagFramesIgnoreInput, IsLagAnswer};

use crate::commands::{Text, bytes_of};
use crate::digest::push_number;
use crate::{RunFault, movie_of};
use std::alloc::{AllocError, Allocator};
use tas_movie::Movie;
use vcs_machine::{Meter, State, play_for_lag};

/// Plays a movie's frame `k` unseen, and returns whether it is a lag frame.
fn pass_for_lag<A: Allocator>(movie: &Movie<A>, k: usize, state: &mut State) -> bool
    requires within { k < length movie.now.inputs }
    requires start { state.old ≡ state_after movie.now k }
    ensures state { state.new ≡ state_after movie.now (k + 1) }
    ensures lag { result ≡ is_lag movie.now k }
{
    let mut meter = Meter::new();
    play_for_lag(movie.cart(), state, movie.inputs()[k], &mut meter)
}

/// Adds the line of the lag frames from `from` to `to` - 1, if there are any.
fn push_stretch<A: Allocator>(
    out: &mut Vec<u8, A>,
    from: usize,
    to: usize,
) -> Result<(), AllocError>
    ensures { OnOk result (out.new.items ≡ out.old.items ++ stretch_or_none from to) }
{
    if from == to {
        return Ok(());
    }
    push_number(out, from)?;
    out.push(b' ')?;
    push_number(out, to)?;
    out.push(b'\n')?;
    Ok(())
}

/// Where the stretch begins that may go on after frame `k`: at `from`, if frame `k` is a lag frame. Else at `k` + 1, and the line of the
/// frames from `from` to `k` - 1 is added, if there are any.
fn next_start<A: Allocator>(
    out: &mut Vec<u8, A>,
    is_lag: bool,
    from: usize,
    k: usize,
) -> Result<usize, AllocError>
    requires { k + 1 < 2 ^ 64 }
    ensures next { IfOk result (λ next. next ≡ (if is_lag then from else k + 1)) }
    ensures text { OnOk result
        (out.new.items ≡ out.old.items ++ (if is_lag then [] else stretch_or_none from k)) }
{
    if is_lag {
        return Ok(from);
    }
    push_stretch(out, from, k)?;
    Ok(k + 1)
}

/// The lines of the lag frames among a movie's frames `from` to `to` - 1, played from the state in which frame `from` begins: a
/// line `A B` for each longest stretch of them, cut at `from` and at `to`. `AllocError` where memory is refused.
pub fn lag_between<A: Allocator, B: Allocator>(
    alloc: B,
    movie: &Movie<A>,
    from: usize,
    to: usize,
    begin: State,
) -> Result<Vec<u8, B>, AllocError>
    requires order { from ≤ to }
    requires within { to ≤ length movie.now.inputs }
    requires begin { begin ≡ state_after movie.now from }
    // Refused: frame_that_reads_is_taken_for_lag, stretch_begins_at_power_on*.
    ensures lines { IfOk result (λ text. text.items ≡ lag_lines_between movie.now from to) }
    ensures law { OnOk result (LagFramesIgnoreInput movie.now) }
{
    let mut out = Vec::new(alloc);
    let mut state = begin;
    let mut start = from;
    for k in from..to {
        let is_lag = pass_for_lag(movie, k, &mut state);
        start = next_start(&mut out, is_lag, start, k)?;
    }
    push_stretch(&mut out, start, to)?;
    Ok(out)
}

/// The lines of a movie's lag frames.
fn lag_text<A: Allocator + Copy>(alloc: A, movie: &Movie<A>) -> Result<Vec<u8, A>, AllocError>
    ensures lines { IfOk result (λ text. text.items ≡ lag_lines movie.now) }
    ensures law { OnOk result (LagFramesIgnoreInput movie.now) }
{
    let begin = State::power_on(movie.cart());
    lag_between(alloc, movie, 0, movie.len(), begin)
}

/// The lines of the lag frames of the movie whose cartridge and text these are, or why there are none.
fn lag_answer<A: Allocator + Copy>(
    alloc: A,
    image: &[u8],
    bytes: &[u8],
) -> Result<Vec<u8, A>, RunFault>
    ensures text { IfOk result (λ text. IsLagAnswer image.now bytes.now (Ok text.items)) }
    ensures fault { IfErr result (λ fault. IsLagAnswer image.now bytes.now (Err fault)) }
{
    let movie = movie_of(alloc, image, bytes)?;
    Ok(lag_text(alloc, &movie)?)
}

/// `tas lag`: a line `A B` for each longest stretch of lag frames, those from A to B - 1, of a cartridge and a movie's text. A lag frame comes
/// to the same whatever its input. A halted machine reads nothing, so its frames are among them.
///
/// Faults: those of [`movie_of`]. `Memory` at any point.
#[derive(Clone, Copy)]
pub struct Lag;

impl Text for Lag {
    // `tas lag` reads cartridge and text whole, and writes the lines of the movie's stretches of lag frames, or ends
    // with a fault of the reading or of the movie and nothing written, or with `Write`.
    // Refused: last_stretch_is_left_out, stretch_of_no_frames_is_reported.
    ghost answers = { λ _. OfTwo IsLagAnswer };

    fn text<A: Allocator + Copy>(
        &self,
        alloc: A,
        inputs: &[Vec<u8, A>],
    ) -> Result<Vec<u8, A>, RunFault> {
        lag_answer(alloc, bytes_of(inputs, 0), bytes_of(inputs, 1))
    }
}
