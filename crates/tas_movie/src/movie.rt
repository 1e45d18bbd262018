//! A movie: a cartridge and one input for each frame.
//!
//! An input is fifteen truth values, 15 bytes, in memory too, and a movie has room for all frames from its making on:
//! 3,936,256 bytes with its cartridge. Two bytes an input would do. But its fields are public, and `Movie::inputs`,
//! `Batch::inputs` and `Inputs::as_slice` lend slices, which no packed inputs can: each call would return a type of its
//! own, and each contract that speaks of inputs would speak of what that type unpacks to. Most of what would be saved
//! is reserved room that isn't touched.
//!
//! The limit of frames stands once in the definitions, as `most_inputs`, and `MAX_FRAMES` is proved equal to it.

ghost use Rattle.std.specs.Prelude.{◌≡◌, ◌≤◌, ◌<◌, ◌==◌, [], length, slice_get, Some, IfOk};
ghost use Rattle.tas_movie.specs.Content.{most_inputs, blank_movie};

use std::alloc::{AllocError, Allocator, Global};
use std::marker::Model;
use vcs_inputs::{Cart, Input};

/// How many inputs a movie has at most.
pub const MAX_FRAMES: usize = 262_144;

/// A cartridge and at most `MAX_FRAMES` inputs, one for each frame, with room reserved for all of
/// them.
#[derive(Drop)]
pub struct Movie<A: Allocator = Global> {
    pub(crate) cart: Cart<A>,
    pub(crate) list: Vec<Input, A>,
}

impl<A: Allocator> Model for Movie<A> {
    ghost use Rattle.std.specs.Prelude.{◌≤◌, vec_len, vec_capacity};
    ghost use Rattle.tas_movie.specs.Content.{MovieContent, most_inputs};

    ghost Value = { MovieContent };

    ghost view = { λ a. record { cart = a.cart; inputs = a.list.items } };

    // Each movie has at most 262,144 inputs, with room for that many and for a cartridge of 4,096 bytes.
    // Refused: none, see `Movie::blank`.
    ghost invariant = { λ a. (vec_len a.list ≤ most_inputs) × (most_inputs ≤ vec_capacity a.list) };
}

impl<A: Allocator + Copy> Movie<A> {
    /// The blank cartridge, all zeros, with no inputs. `AllocError` where memory is refused.
    pub fn blank(alloc: A) -> Result<Movie<A>, AllocError>
        // A blank movie has a blank cartridge and no inputs.
        // Refused: blank_movie_without_room.
        ensures { IfOk result (λ movie. movie ≡ blank_movie) }
    {
        Movie::with_cart(alloc, Cart::blank(alloc)?)
    }

    /// A copy of this cartridge, with no inputs. `AllocError` where memory is refused.
    pub fn new<B: Allocator>(alloc: A, cart: &Cart<B>) -> Result<Movie<A>, AllocError>
        // A new movie has the given cartridge and no inputs.
        // Refused: new_movie_has_a_blank_cartridge.
        ensures { IfOk result (λ movie. movie ≡ record { cart = cart.now; inputs = [] }) }
    {
        Movie::with_cart(alloc, cart.copy(alloc)?)
    }

    /// This cartridge, with no inputs and room for all.
    fn with_cart(alloc: A, cart: Cart<A>) -> Result<Movie<A>, AllocError>
        ensures { IfOk result (λ movie. movie ≡ record { cart = cart; inputs = [] }) }
    {
        let list = Vec::with_capacity(alloc, MAX_FRAMES)?;
        Ok(Movie { cart, list })
    }
}

impl<A: Allocator> Movie<A> {
    /// An equal movie, with room of its own for all inputs. `AllocError` where memory is refused.
    pub fn copy<B: Allocator + Copy>(&self, alloc: B) -> Result<Movie<B>, AllocError>
        // Copies of movies, lists of inputs and edits are equal to them.
        // Refused: movie_copied_without_inputs.
        ensures { IfOk result (λ movie. movie ≡ self.now) }
    {
        let cart = self.cart.copy(alloc)?;
        let mut list = Vec::with_capacity(alloc, MAX_FRAMES)?;
        list.extend_from_slice(self.inputs())?;
        Ok(Movie { cart, list })
    }

    /// The cartridge.
    pub fn cart(&self) -> &Cart<A>
        // Refused: none, its result's type leaves nothing else to return.
        ensures { result.now ≡ self.now.cart }
    {
        &self.cart
    }

    /// How many inputs there are: the movie's length in frames.
    pub fn len(&self) -> usize
        // Refused: length_counts_one_more.
        ensures len { result ≡ length self.now.inputs }
        ensures bound { result ≤ most_inputs }
    {
        self.list.len()
    }

    /// Whether there are no inputs.
    pub fn is_empty(&self) -> bool
        // Refused: movie_of_one_input_is_empty.
        ensures { result ≡ (length self.now.inputs == 0) }
    {
        self.list.is_empty()
    }

    /// The inputs, in order.
    pub fn inputs(&self) -> &[Input]
        // Refused: inputs_without_the_last.
        ensures inputs { result.now ≡ self.now.inputs }
        ensures bound { length self.now.inputs ≤ most_inputs }
    {
        self.list.as_slice()
    }

    /// The input of frame `k`, counted from 0; `len` says how many there are.
    pub fn input(&self, k: usize) -> Input
        requires { k < length self.now.inputs }
        // Refused: input_of_the_frame_before.
        ensures { slice_get self.now.inputs k ≡ Some result }
    {
        self.list[k]
    }
}
