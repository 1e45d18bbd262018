//! Changes that depend on a movie's frames: the edits that they are.
//!
//! `press`, `release`, `repeat` and `copy` are a replacement or an insertion of frames that depend on the movie, so a
//! history has no further kind of entry. `repeat` is refused as `place` by the frames that it repeats, `copy` by the
//! frames that it copies and then by its place. Frames are copied before the edit is made, and only once nothing
//! refuses the line. A `repeat` of no frames takes TIMES turns of a loop that does nothing, ten million at most.

ghost use Rattle.std.specs.Prelude.{◌≡◌, ◌+◌, ◌<◌, ◌^◌, map, length, IfOk};
ghost use Rattle.vcs_inputs.specs.declared.input.Input.{Input};
ghost use Rattle.tas_movie.specs.Content.{MovieContent};
ghost use Rattle.tas_language.specs.declared.retouch.Retouch.TheVariants.{Repeat};
ghost use Rattle.tas_movie.specs.Edit.{check_answer};
ghost use Rattle.tas_engines.specs.Retouching.{
  each_way,
  is_either,
  is_first_alone,
  pressed_too,
  released,
  times_over,
  taken_from,
  taken_count,
  retouch_with,
  retouch_on,
  retouch_refusal,
  copy_refusal,
  IsAllowedOn,
};

use std::alloc::{AllocError, Allocator};
use tas_language::Retouch;
use tas_movie::{Edit, EditRefusal, Inputs, MAX_FRAMES, check_insertion, check_place};
use vcs_machine::{Input, Stick};

/// A stick on which all is pushed that either of two pushes.
fn stick_pressed_too(stick: Stick, more: Stick) -> Stick
    ensures { result ≡ each_way is_either stick more }
{
    Stick {
        right: stick.right || more.right,
        left: stick.left || more.left,
        down: stick.down || more.down,
        up: stick.up || more.up,
        fire: stick.fire || more.fire,
    }
}

/// A stick on which all is released that another one pushes.
fn stick_released(stick: Stick, less: Stick) -> Stick
    ensures { result ≡ each_way is_first_alone stick less }
{
    Stick {
        right: stick.right && !less.right,
        left: stick.left && !less.left,
        down: stick.down && !less.down,
        up: stick.up && !less.up,
        fire: stick.fire && !less.fire,
    }
}

/// The input with all pressed that another one has pressed; the rest stays.
pub fn pressed_too(input: Input, more: Input) -> Input
    // Refused: left_stick_is_pressed_by_the_right_one.
    ensures { result ≡ pressed_too input more }
{
    Input {
        left: stick_pressed_too(input.left, more.left),
        right: stick_pressed_too(input.right, more.right),
        reset: input.reset || more.reset,
        select: input.select || more.select,
        mono: input.mono || more.mono,
        left_a: input.left_a || more.left_a,
        right_a: input.right_a || more.right_a,
    }
}

/// The input with all released that another one has pressed; the rest stays.
pub fn released(input: Input, less: Input) -> Input
    // Refused: none, see `retouch_edit`.
    ensures { result ≡ released input less }
{
    Input {
        left: stick_released(input.left, less.left),
        right: stick_released(input.right, less.right),
        reset: input.reset && !less.reset,
        select: input.select && !less.select,
        mono: input.mono && !less.mono,
        left_a: input.left_a && !less.left_a,
        right_a: input.right_a && !less.right_a,
    }
}

/// Whether the `count` frames from the frame `from` on, of a movie of `have` frames, may be put in at the place `at` of a movie of `len`
/// frames: `Place` where the first movie doesn't have them all; else as any insertion is refused.
pub(crate) fn check_copy(
    have: usize,
    from: usize,
    count: usize,
    len: usize,
    at: usize,
) -> Result<(), EditRefusal>
    ensures { result ≡ check_answer (copy_refusal have from count len at) }
{
    check_place(have, from, count)?;
    check_insertion(len, at, count)
}

/// Whether some frames may be put in again after themselves: `Place` where a movie of `len` frames doesn't have them, and then
/// `Long` where it would have more than `MAX_FRAMES`.
fn check_repeat(len: usize, at: usize, count: usize, times: usize) -> Result<(), EditRefusal>
    ensures { (movie : MovieContent) → length movie.inputs ≡ len
        → result ≡ check_answer (retouch_refusal movie (Repeat at count times)) }
{
    check_place(len, at, count)?;
    if len.saturating_add(count.saturating_mul(times)) > MAX_FRAMES {
        return Err(EditRefusal::Long { len });
    }
    Ok(())
}

/// Whether a retouch is allowed on a movie of `len` frames: `Place` where the frames that it takes, or its place, are past
/// the last one, and then `Long` where the movie would have more than `MAX_FRAMES`.
pub fn check_retouch(len: usize, retouch: Retouch) -> Result<(), EditRefusal>
    // `press`, `release`, `repeat` and `copy` are refused exactly where the frames that they take aren't there, where a
    // copy's place isn't, or else where the movie would be too long; by the movie's length alone.
    // Refused: repeat_is_as_long_as_one_time*, frames_past_the_end_are_copied.
    ensures { (movie : MovieContent) → length movie.inputs ≡ len
        → result ≡ check_answer (retouch_refusal movie retouch) }
{
    match retouch {
        Retouch::Press { at, count, .. } | Retouch::Release { at, count, .. } => {
            check_place(len, at, count)
        }
        Retouch::Repeat { at, count, times } => check_repeat(len, at, count, times),
        Retouch::Copy { from, count, at } => check_copy(len, from, count, len, at),
    }
}

/// The frames that a retouch takes from a movie: the first one, and how many.
fn taken_frames(retouch: Retouch) -> (usize, usize)
    ensures from { result.0 ≡ taken_from retouch }
    ensures count { result.1 ≡ taken_count retouch }
{
    match retouch {
        Retouch::Press { at, count, .. }
        | Retouch::Release { at, count, .. }
        | Retouch::Repeat { at, count, .. } => (at, count),
        Retouch::Copy { from, count, .. } => (from, count),
    }
}

/// The frames, each changed alike.
fn each_changed<A: Allocator, F: Fn(Input) -> Input>(
    alloc: A,
    frames: &[Input],
    change: F,
) -> Result<Inputs<A>, AllocError>
    requires { F.IsAlwaysCallable change }
    ensures { (f : Input → Input) → ((frame new : Input) → F.post change frame new → new ≡ f frame)
        → IfOk result (λ inputs. inputs ≡ map f frames.now) }
{
    let mut list = Vec::with_capacity(alloc, frames.len())?;
    for frame in frames {
        list.push(change(*frame))?;
    }
    Ok(Inputs::from_vec(list))
}

/// The frames this many times, one after the other.
fn repeated<A: Allocator>(alloc: A, frames: &[Input], times: usize) -> Result<Inputs<A>, AllocError>
    ensures { IfOk result (λ inputs. inputs ≡ times_over times frames.now) }
{
    let mut list = Vec::with_capacity(alloc, frames.len().saturating_mul(times))?;
    for _done in 0..times {
        list.extend_from_slice(frames)?;
    }
    Ok(Inputs::from_vec(list))
}

/// The edit that a retouch is, by the frames that it takes. `AllocError` where memory is refused.
fn edit_with<A: Allocator>(
    alloc: A,
    taken: &[Input],
    retouch: Retouch,
) -> Result<Edit<A>, AllocError>
    requires { taken_from retouch + taken_count retouch < 2 ^ 64 }
    ensures { IfOk result (λ edit. edit ≡ retouch_with A taken.now retouch) }
{
    match retouch {
        Retouch::Press { at, input, .. } => {
            let inputs = each_changed(alloc, taken, |frame| pressed_too(frame, input))?;
            Ok(Edit::Replace { at, inputs })
        }
        Retouch::Release { at, input, .. } => {
            let inputs = each_changed(alloc, taken, |frame| released(frame, input))?;
            Ok(Edit::Replace { at, inputs })
        }
        Retouch::Repeat { at, count, times } => {
            let inputs = repeated(alloc, taken, times)?;
            Ok(Edit::Insert {
                at: at + count,
                inputs,
            })
        }
        Retouch::Copy { at, .. } => {
            let inputs = Inputs::from_vec(Vec::from_slice(alloc, taken)?);
            Ok(Edit::Insert { at, inputs })
        }
    }
}

/// The edit that a retouch is on a movie with these inputs. `AllocError` where memory is refused.
pub fn retouch_edit<A: Allocator>(
    alloc: A,
    inputs: &[Input],
    retouch: Retouch,
) -> Result<Edit<A>, AllocError>
    requires { IsAllowedOn inputs.now retouch }
    // `press` and `release` change the switches of FRAME in each of their frames, and no other; `repeat` puts its
    // frames in again after themselves, TIMES times; `copy` puts a copy of its frames in.
    // Refused: press_writes_over_the_other_letters, repeat_repeats_once_less, release_releases_all*,
    // fire_is_not_released*, copy_takes_from_its_own_place*.
    ensures { IfOk result (λ edit. edit ≡ retouch_on A inputs.now retouch) }
{
    let (from, count) = taken_frames(retouch);
    edit_with(alloc, &inputs[from..from + count], retouch)
}
