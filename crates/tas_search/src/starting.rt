//! Where a search of a movie starts.

ghost use Rattle.std.specs.Prelude.{◌≡◌, take};
ghost use Rattle.vcs_machine.specs.Machine.{after};

use std::alloc::Allocator;
use tas_movie::Movie;
use vcs_machine::{Meter, State, play_unseen};

/// The state after a movie's first `from` frames, from power-on, or after all of them where it has fewer.
pub fn state_at<A: Allocator>(movie: &Movie<A>, from: usize) -> State
    // A search of a movie starts from the machine after its first frames.
    // Refused: search_starts_one_frame_early.
    ensures { result ≡ after movie.now.cart (take from movie.now.inputs) }
{
    let inputs = movie.inputs();
    let count = from.min(inputs.len());
    let mut state = State::power_on(movie.cart());
    for k in 0..count {
        let mut meter = Meter::new();
        // A halted machine stays as it is: its state has the halt.
        let _ = play_unseen(movie.cart(), &mut state, inputs[k], &mut meter);
    }
    state
}
