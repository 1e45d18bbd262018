//! A movie that is edited, and its text.

use anyhow::Result;
use std::alloc::Global;
use tas_movie::{Edit, Inputs, Movie, apply, check, print_text, read_text};
use vcs_inputs::{Cart, Input};

/// A movie of 200 frames with nothing pressed.
pub fn two_hundred_frames(alloc: Global, cart: &Cart) -> Result<Movie> {
    let mut movie = Movie::new(alloc, cart)?;
    let inputs = Inputs::repeated(alloc, Input::none(), 200)?;
    let edit = Edit::Insert { at: 0, inputs };
    check(&movie, &edit)?; // an error where it is past the end, or the movie too long
    apply(&mut movie, &edit); // 200 frames; takes no memory
    Ok(movie)
}

/// Whether a movie that is written as a text and read again is the same.
pub fn text_is_read_back(alloc: Global, movie: &Movie) -> Result<bool> {
    let text = print_text(alloc, movie)?; // a26movie 2, cart .., ..... ..... ..... x200
    let same = read_text(alloc, text.as_slice(), movie.cart())?;
    Ok(same.inputs() == movie.inputs())
}
