//! `tas compare`.
//!
//! It never ends with `halted`, since it is used to find where an edit made a movie halt: a halted frame shows nothing,
//! so two of them don't differ. Pictures are compared as their files are: two colour bytes of one red, green and blue
//! are equal. Both texts name the cartridge, so movies of two are a fault of `digest`.

ghost use Rattle.std.specs.Prelude.{◌≡◌, ◌≢◌, ◌+◌, ◌≤◌, ◌<◌, ◌++◌, length, codes, IsTrue, None, Ok, Err, IfOk, IfErr, OnOk};
ghost use Rattle.tas_green.specs.Run.{state_after};
ghost use Rattle.tas_movie.specs.Front.{IsCommonFront};
ghost use Rattle.tas_engines.specs.Commands.{OfThree};
ghost use Rattle.tas_engines.specs.Comparing.{
  pixmap_of,
  first_of,
  AreFirstUpTo,
  AreDifferences,
  place_text,
  differences_text,
  IsCompareAnswer,
};

use crate::RunFault;
use crate::commands::{Text, bytes_of};
use crate::movies::movies_of;
use crate::passing::{draw_frame, fill_pixmap, pass_frames};
use itoa::Buffer;
use std::alloc::{AllocError, Allocator};
use tas_movie::{Movie, common_front};
use vcs_machine::State;
use vcs_tia::{PIXMAP_SIZE, Picture};

/// A movie's machine on its way, with what the last frame showed: its pixmap, or nothing where it was halted.
#[derive(Drop)]
struct Side<A: Allocator> {
    state: State,
    picture: Picture<A>,
    pixmap: Vec<u8, A>,
}

/// A machine that has shown nothing yet.
fn new_side<A: Allocator + Copy>(alloc: A, state: State) -> Result<Side<A>, AllocError>
    ensures { IfOk result (λ side. side.state ≡ state) }
{
    let picture = Picture::blank(alloc)?;
    let pixmap = Vec::with_capacity(alloc, PIXMAP_SIZE)?;
    Ok(Side {
        state,
        picture,
        pixmap,
    })
}

/// Plays a movie's frame `k`.
fn play_side<A: Allocator, B: Allocator>(
    movie: &Movie<A>,
    k: usize,
    side: &mut Side<B>,
) -> Result<(), AllocError>
    requires within { k < length movie.now.inputs }
    requires start { side.old.state ≡ state_after movie.now k }
    ensures state { OnOk result (side.new.state ≡ state_after movie.now (k + 1)) }
    ensures pixmap { OnOk result (side.new.pixmap.items ≡ pixmap_of movie.now k) }
{
    match draw_frame(movie, k, &mut side.state, &mut side.picture) {
        Ok(()) => fill_pixmap(&side.picture, &mut side.pixmap),
        Err(_) => {
            side.pixmap.clear();
            Ok(())
        }
    }
}

/// The first frames at which two movies differ, as far as they are known.
#[derive(Clone, Copy)]
struct Places {
    ram: Option<usize>,
    picture: Option<usize>,
}

/// The first frames at which two movies differ in each of the three, if they do.
#[derive(Clone, Copy)]
struct Differences {
    input: Option<usize>,
    ram: Option<usize>,
    picture: Option<usize>,
}

/// The first frame at which something differs: the one that was found before, or else frame `k`, if it isn't the same there.
fn first_of(found: Option<usize>, is_same: bool, k: usize) -> Option<usize>
    ensures { result ≡ first_of found is_same k }
{
    match found {
        Some(place) => Some(place),
        None if is_same => None,
        None => Some(k),
    }
}

/// Whether both are known.
fn is_found(found: Places) -> bool
    ensures { IsTrue result → (found.ram ≢ None) × (found.picture ≢ None) }
{
    found.ram.is_some() && found.picture.is_some()
}

/// Plays frame `k` of two movies, and compares what it left and showed.
fn compare_frame<A: Allocator, B: Allocator>(
    old: &Movie<A>,
    new: &Movie<A>,
    k: usize,
    old_side: &mut Side<B>,
    new_side: &mut Side<B>,
    found: Places,
) -> Result<Places, AllocError>
    requires old { (k < length old.now.inputs) × (old_side.old.state ≡ state_after old.now k) }
    requires new { (k < length new.now.inputs) × (new_side.old.state ≡ state_after new.now k) }
    requires found { AreFirstUpTo old.now new.now k found }
    ensures old { OnOk result (old_side.new.state ≡ state_after old.now (k + 1)) }
    ensures new { OnOk result (new_side.new.state ≡ state_after new.now (k + 1)) }
    ensures found { IfOk result (AreFirstUpTo old.now new.now (k + 1)) }
{
    play_side(old, k, old_side)?;
    play_side(new, k, new_side)?;
    let same_ram = old_side.state.ram() == new_side.state.ram();
    let same_picture = old_side.pixmap.as_slice() == new_side.pixmap.as_slice();
    Ok(Places {
        ram: first_of(found.ram, same_ram, k),
        picture: first_of(found.picture, same_picture, k),
    })
}

/// Plays two movies as one up to the end of their common front, and then each for itself, up to the end of the shorter one or until all
/// is found.
fn compare_frames<A: Allocator, B: Allocator + Copy>(
    alloc: B,
    old: &Movie<A>,
    new: &Movie<A>,
    front: usize,
    end: usize,
) -> Result<Places, AllocError>
    requires carts { new.now.cart ≡ old.now.cart }
    requires front { IsCommonFront old.now.inputs new.now.inputs front }
    requires end { (end ≤ length old.now.inputs) × (end ≤ length new.now.inputs) }
    requires order { front ≤ end }
    ensures { IfOk result (AreFirstUpTo old.now new.now end) }
{
    let state = pass_frames(old, front);
    let mut old_side = new_side(alloc, state)?;
    let mut new_side = new_side(alloc, state)?;
    let mut found = Places {
        ram: None,
        picture: None,
    };
    let mut k = front;
    while k < end && !is_found(found) {
        found = compare_frame(old, new, k, &mut old_side, &mut new_side, found)?;
        k += 1;
    }
    Ok(found)
}

/// The first frames at which two movies with the same cartridge differ.
fn find_differences<A: Allocator, B: Allocator + Copy>(
    alloc: B,
    old: &Movie<A>,
    new: &Movie<A>,
) -> Result<Differences, AllocError>
    requires { new.now.cart ≡ old.now.cart }
    ensures { IfOk result (AreDifferences old.now new.now) }
{
    let front = common_front(old.inputs(), new.inputs());
    let (old_len, new_len) = (old.len(), new.len());
    let end = old_len.min(new_len);
    let found = compare_frames(alloc, old, new, front, end)?;
    let is_same = old_len == new_len;
    Ok(Differences {
        input: first_of(None, front == old_len.max(new_len), front),
        ram: first_of(found.ram, is_same, end),
        picture: first_of(found.picture, is_same, end),
    })
}

/// Adds a frame's number, or `none`, and a newline.
fn push_place<A: Allocator>(out: &mut Vec<u8, A>, place: Option<usize>) -> Result<(), AllocError>
    ensures { OnOk result (out.new.items ≡ out.old.items ++ place_text place ++ codes "\n") }
{
    match place {
        Some(k) => {
            let mut buffer = Buffer::new();
            out.extend_from_slice(buffer.format(k).as_bytes())?;
        }
        None => out.extend_from_slice(b"none")?,
    }
    out.push(b'\n')?;
    Ok(())
}

/// The three lines.
fn differences_text<A: Allocator>(alloc: A, found: Differences) -> Result<Vec<u8, A>, AllocError>
    ensures { IfOk result (λ text. text.items ≡ differences_text found) }
{
    let mut out = Vec::new(alloc);
    out.extend_from_slice(b"input ")?;
    push_place(&mut out, found.input)?;
    out.extend_from_slice(b"ram ")?;
    push_place(&mut out, found.ram)?;
    out.extend_from_slice(b"picture ")?;
    push_place(&mut out, found.picture)?;
    Ok(out)
}

/// The lines of the two movies with this cartridge whose texts these are, or why there are none.
fn compare_answer<A: Allocator + Copy>(
    alloc: A,
    image: &[u8],
    before: &[u8],
    after: &[u8],
) -> Result<Vec<u8, A>, RunFault>
    ensures text { IfOk result
        (λ text. IsCompareAnswer image.now before.now after.now (Ok text.items)) }
    ensures fault { IfErr result
        (λ fault. IsCompareAnswer image.now before.now after.now (Err fault)) }
{
    let (old, new) = movies_of(alloc, image, before, after)?;
    let found = find_differences(alloc, &old, &new)?;
    Ok(differences_text(alloc, found)?)
}

/// `tas compare`: the first frames at which the inputs of two movies, RAM after the frame and the pictures differ: lines `input I`, `ram R`
/// and `picture P`, each with a frame counted from 0, or `none`; of a cartridge, the old movie's text and the new one's. A movie that ends
/// sooner differs at its end. A halted frame shows no picture, and a halted machine keeps its RAM.
///
/// Faults, in order: `Size`, then `Text` of the old text and of the new one. `Memory` at any point.
#[derive(Clone, Copy)]
pub struct Compare;

impl Text for Compare {
    // `tas compare` writes the first frames at which the two movies' inputs, RAM after the frame and pictures differ:
    // at each frame before they are the same, and at `none` at every frame; a movie that has ended has nothing there,
    // and a halted frame shows nothing.
    // Refused: shorter_movie_has_no_difference, places_are_counted_from_the_front*,
    // halted_frame_shows_the_picture_before*, first_difference_is_the_last*.
    ghost answers = { λ _. OfThree IsCompareAnswer };

    fn text<A: Allocator + Copy>(
        &self,
        alloc: A,
        inputs: &[Vec<u8, A>],
    ) -> Result<Vec<u8, A>, RunFault> {
        compare_answer(
            alloc,
            bytes_of(inputs, 0),
            bytes_of(inputs, 1),
            bytes_of(inputs, 2),
        )
    }
}
