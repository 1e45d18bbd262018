//! Frames one after the other.

ghost use Rattle.std.specs.Prelude.{◌≡◌, ◌+◌, ◌-◌, ◌^◌, ◌<◌, ◌≤◌, [], length, None};
ghost use Rattle.tas_green.specs.Run.{state_after};
ghost use Rattle.tas_film.specs.Frames.{Shows};

use crate::pixmaps::{Pixmaps, Stop};
use std::alloc::Allocator;
use tas_green::Savestate;
use tas_movie::Movie;
use vcs_machine::{Meter, State, play_unseen};

/// Plays the frames from a state's place to the one before `end`, without pictures.
pub fn play_up_to<A: Allocator>(
    movie: &Movie<A>,
    start: Savestate,
    end: usize,
    meter: &mut Meter,
) -> State
    requires order { start.frame ≤ end }
    requires within { end ≤ length movie.now.inputs }
    requires start { start.state ≡ state_after movie.now start.frame }
    requires meter { meter.old + (end - start.frame) < 2 ^ 64 }
    ensures state { result ≡ state_after movie.now end }
    ensures meter { meter.new ≡ meter.old + (end - start.frame) }
{
    let inputs = movie.inputs();
    let mut state = start.state.unpack();
    for frame in start.frame..end {
        // A halted machine stays as it is: its state has the halt.
        let _ = play_unseen(movie.cart(), &mut state, inputs[frame], meter);
    }
    state
}

/// Shoots the frames from `first` to the one before `end`, up to where it has to stop, and returns
/// why.
pub fn draw_frames<A: Allocator, B: Allocator>(
    movie: &Movie<A>,
    first: usize,
    end: usize,
    state: &mut State,
    pixmaps: &mut Pixmaps<B>,
    meter: &mut Meter,
) -> Option<Stop>
    requires order { first ≤ end }
    requires within { end ≤ length movie.now.inputs }
    requires start { state.old ≡ state_after movie.now first }
    requires empty { pixmaps.old ≡ [] }
    requires meter { meter.old + (end - first) < 2 ^ 64 }
    // Refused: none, see `Pixmaps::append_frame`.
    ensures shows { Shows movie.now first end pixmaps.new result }
    ensures meter { result ≡ None → meter.new ≡ meter.old + (end - first) }
    ensures most { meter.new ≤ meter.old + (end - first) }
{
    for frame in first..end {
        if let Err(stop) = pixmaps.append_frame(movie, frame, state, meter) {
            return Some(stop);
        }
    }
    None
}
