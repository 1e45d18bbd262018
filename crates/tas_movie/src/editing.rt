//! Checking and making an edit.
//!
//! A load copies the cartridge's bytes in place (`Cart::copy_from`), so `apply` takes no memory.

ghost use Rattle.std.specs.Prelude.{◌≡◌, ◌+◌, ◌<◌, take};
ghost use Rattle.tas_movie.specs.Edit.{IsAllowed, refusal, insert_refusal, place_refusal, check_answer, edited, edited_place};

use crate::lists::{delete_at, insert_at, replace_at};
use crate::{Edit, EditRefusal, MAX_FRAMES, Movie};
use std::alloc::Allocator;

/// Whether the edit is allowed on this movie: `Place` where it reaches past the last input,
/// and then `Long` where the movie would have more than `MAX_FRAMES` inputs. Places and lengths are
/// compared as whole numbers.
pub fn check<A: Allocator, B: Allocator>(
    movie: &Movie<A>,
    edit: &Edit<B>,
) -> Result<(), EditRefusal>
    // An edit is refused exactly as its definition says: first its place, then the length; places and lengths are whole
    // numbers.
    // Refused: replace_past_the_end_is_allowed.
    ensures { result ≡ check_answer (refusal movie.now edit.now) }
{
    let len = movie.len();
    match edit {
        Edit::Load(_) => Ok(()),
        Edit::Insert { at, inputs } => check_insertion(len, *at, inputs.as_slice().len()),
        Edit::Replace { at, inputs } => check_place(len, *at, inputs.as_slice().len()),
        Edit::Delete { at, count } => check_place(len, *at, *count),
    }
}

/// Whether `count` inputs may be put in at the place `at` of a movie with `len` inputs: `Place`
/// where `at` is past the last one, and then `Long` where the movie would have more than `MAX_FRAMES`.
pub fn check_insertion(len: usize, at: usize, count: usize) -> Result<(), EditRefusal>
    // Refused: too_long_insert_is_allowed*, long_insert_puts_in_what_fits.
    ensures { result ≡ check_answer (insert_refusal len at count) }
{
    if at > len {
        return Err(EditRefusal::Place { at, len });
    }
    if len.saturating_add(count) > MAX_FRAMES {
        return Err(EditRefusal::Long { len });
    }
    Ok(())
}

/// Whether a movie with `len` inputs has the `count` inputs from the place `at` on: `Place` where
/// they reach past the last one.
pub fn check_place(len: usize, at: usize, count: usize) -> Result<(), EditRefusal>
    // Refused: stretch_past_the_end_is_allowed.
    ensures { result ≡ check_answer (place_refusal len at (at + count)) }
{
    if at > len || count > len - at {
        Err(EditRefusal::Place { at, len })
    } else {
        Ok(())
    }
}

/// Makes an edit that `check` allows, without memory.
pub fn apply<A: Allocator, B: Allocator>(movie: &mut Movie<A>, edit: &Edit<B>)
    requires { IsAllowed movie.old edit.now }
    // An allowed edit makes the edited movie, by cutting and joining lists; what is before the edited place stays.
    // Refused: delete_leaves_one, load_keeps_the_cartridge*, insert_goes_after_the_place*.
    ensures movie { movie.new ≡ edited movie.old edit.now }
    ensures before { take (edited_place edit.now) movie.new.inputs
        ≡ take (edited_place edit.now) movie.old.inputs }
    ensures cart { 0 < edited_place edit.now → movie.new.cart ≡ movie.old.cart }
{
    match edit {
        Edit::Load(cart) => movie.cart.copy_from(cart),
        Edit::Insert { at, inputs } => insert_at(&mut movie.list, *at, inputs.as_slice()),
        Edit::Replace { at, inputs } => replace_at(&mut movie.list, *at, inputs.as_slice()),
        Edit::Delete { at, count } => delete_at(&mut movie.list, *at, *count),
    }
}
