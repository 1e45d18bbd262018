//! Playing a movie's frames one after the other.

ghost use Rattle.std.specs.Prelude.{◌≡◌, ◌+◌, ◌<◌, length, OnOk};
ghost use Rattle.vcs_tia.specs.Image.{ppm_bytes};
ghost use Rattle.tas_green.specs.Run.{state_after, picture_of, answer_of};

use std::alloc::{AllocError, Allocator};
use tas_movie::Movie;
use vcs_cpu::Halt;
use vcs_machine::{Meter, State, play, play_unseen};
use vcs_tia::{Picture, ppm};

/// Plays a movie's frame `k` unseen: the state after `k` frames becomes that after one more. Past the movie's end
/// it stays as it is.
pub(crate) fn pass_frame<A: Allocator>(movie: &Movie<A>, k: usize, state: &mut State)
    requires { state.old ≡ state_after movie.now k }
    ensures { state.new ≡ state_after movie.now (k + 1) }
{
    if k < movie.len() {
        let mut meter = Meter::new();
        // A halted machine stays as it is: its state has the halt.
        let _ = play_unseen(movie.cart(), state, movie.inputs()[k], &mut meter);
    }
}

/// The state after a movie's first `n` frames.
pub(crate) fn pass_frames<A: Allocator>(movie: &Movie<A>, n: usize) -> State
    ensures { result ≡ state_after movie.now n }
{
    let mut state = State::power_on(movie.cart());
    for k in 0..n {
        pass_frame(movie, k, &mut state);
    }
    state
}

/// Plays a movie's frame `k` and draws it, or returns its halt; nothing is said of the picture then.
pub(crate) fn draw_frame<A: Allocator, B: Allocator>(
    movie: &Movie<A>,
    k: usize,
    state: &mut State,
    picture: &mut Picture<B>,
) -> Result<(), Halt>
    requires within { k < length movie.now.inputs }
    requires start { state.old ≡ state_after movie.now k }
    ensures state { state.new ≡ state_after movie.now (k + 1) }
    ensures answer { result ≡ answer_of (state_after movie.now (k + 1)).halt }
    ensures picture { OnOk result (picture.new ≡ picture_of movie.now k) }
{
    let mut meter = Meter::new();
    play(movie.cart(), state, movie.inputs()[k], picture, &mut meter)
}

/// Makes a picture's pixmap in place of what the buffer has.
pub(crate) fn fill_pixmap<A: Allocator, B: Allocator>(
    picture: &Picture<A>,
    buffer: &mut Vec<u8, B>,
) -> Result<(), AllocError>
    ensures { OnOk result (buffer.new.items ≡ ppm_bytes picture.now) }
{
    buffer.clear();
    match ppm(picture, buffer) {
        Ok(()) => Ok(()),
        Err(_) => Err(AllocError),
    }
}
