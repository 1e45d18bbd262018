//! `tas new`.

ghost use Rattle.std.specs.Prelude.{◌≡◌, ◌≤◌, min, Ok, Err, IfOk, IfErr};
ghost use Rattle.tas_movie.specs.Content.{most_inputs};
ghost use Rattle.tas_engines.specs.Commands.{OfOne};
ghost use Rattle.tas_engines.specs.Starting.{quiet_movie, IsNewAnswer};

use crate::RunFault;
use crate::commands::{Text, bytes_of};
use std::alloc::{AllocError, Allocator};
use tas_movie::{Edit, Inputs, MAX_FRAMES, Movie, apply, print_text};
use vcs_machine::{Cart, Input};

/// The movie of a cartridge and so many frames in which nothing is pressed.
fn quiet_movie<A: Allocator + Copy>(
    alloc: A,
    cart: &Cart<A>,
    frames: usize,
) -> Result<Movie<A>, AllocError>
    requires { frames ≤ most_inputs }
    ensures { IfOk result (λ movie. movie ≡ quiet_movie cart.now frames) }
{
    let mut movie = Movie::new(alloc, cart)?;
    let inputs = Inputs::repeated(alloc, Input::none(), frames)?;
    apply(&mut movie, &Edit::Insert { at: 0, inputs });
    Ok(movie)
}

/// The text of the movie of this cartridge and so many frames in which nothing is pressed, or why there is none.
fn new_text<A: Allocator + Copy>(
    alloc: A,
    frames: usize,
    image: &[u8],
) -> Result<Vec<u8, A>, RunFault>
    requires { frames ≤ most_inputs }
    ensures text { IfOk result (λ text. IsNewAnswer frames image.now (Ok text.items)) }
    ensures fault { IfErr result (λ fault. IsNewAnswer frames image.now (Err fault)) }
{
    let cart = Cart::from_bytes(alloc, image)?;
    let movie = quiet_movie(alloc, &cart, frames)?;
    Ok(print_text(alloc, &movie)?)
}

/// `tas new`: the text of the movie in which nothing is pressed, of a cartridge.
///
/// Faults: `Size`. `Memory` at any point.
#[derive(Clone, Copy)]
pub struct New {
    /// How many frames it has, 0 to [`MAX_FRAMES`]; more count as so many.
    pub frames: usize,
}

impl Text for New {
    // `tas new` reads a cartridge whole and writes the text of the movie of it and so many frames in which nothing is
    // pressed, or ends with a fault whose cause holds and nothing written, or with `Write`.
    // Refused: new_movie_lacks_a_frame.
    ghost answers = { λ new. OfOne (IsNewAnswer (min new.frames most_inputs)) };

    fn text<A: Allocator + Copy>(
        &self,
        alloc: A,
        inputs: &[Vec<u8, A>],
    ) -> Result<Vec<u8, A>, RunFault> {
        new_text(alloc, self.frames.min(MAX_FRAMES), bytes_of(inputs, 0))
    }
}
