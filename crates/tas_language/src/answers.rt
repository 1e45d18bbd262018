//! The answers that only a conversation has. Each is a line, and the bytes that the line announces, if it does.

ghost use Rattle.std.specs.Prelude.{◌≡◌, ◌++◌, length, IfOk, OnOk};
ghost use Rattle.std.specs.List.{flat_map};
ghost use Rattle.vcs_tia.specs.Image.{ppm_bytes};
ghost use Rattle.tas_movie.specs.Text.{text2};
ghost use Rattle.tas_language.specs.Answers.{picture_text, movie_text, states_text, share_text, version_text, frame_word};

use itoa::Buffer;
use std::alloc::{AllocError, Allocator};
use tas_movie::{Movie, print_text};
use vcs_tia::{PIXMAP_SIZE, Picture, ppm};

/// The answer to `version`, where the machine has this profile: `version PROGRAM profile N format N bytes WORD ..`. PROGRAM is the
/// program's version, as `tas --version` prints it. The number of the format grows where an answer that exists changes, and not where
/// lines or answers are added. The words are the first ones of the answers that have bytes after their line, as many as the line's
/// last word says. `AllocError` where memory is refused.
pub fn version_answer<A: Allocator>(alloc: A, profile: usize) -> Result<Vec<u8, A>, AllocError>
    // `version` is answered by the program's version, the profile of the machine, the format of conversations and the
    // words after which bytes follow.
    // Refused: format_is_reported_as_the_profile.
    ensures { IfOk result (λ bytes. bytes.items ≡ version_text profile) }
{
    let text = format!(in alloc;
        "version 0.3.0 profile {profile} format 1 bytes picture lag inputs movie history\n"
    )?;
    Ok(text.into_bytes())
}

/// Appends the pixmap of a picture. Room for it is made first, so that a write of [`ppm`] asks for no more memory; no clause of a
/// writer says so.
pub fn push_pixmap<A: Allocator, B: Allocator>(
    bytes: &mut Vec<u8, A>,
    picture: &Picture<B>,
) -> Result<(), AllocError>
    ensures all { OnOk result (bytes.new.items ≡ bytes.old.items ++ ppm_bytes picture.now) }
    ensures size { OnOk result (length (ppm_bytes picture.now) ≡ PIXMAP_SIZE) }
{
    bytes.reserve_exact(PIXMAP_SIZE)?;
    match ppm(picture, bytes) {
        Ok(()) => Ok(()),
        Err(_) => Err(AllocError),
    }
}

/// The answer to `picture K`: `picture AT K BYTES`, a newline, and the picture as a binary portable pixmap of this many bytes.
/// `AllocError` where memory is refused.
pub fn picture_answer<A: Allocator + Copy, B: Allocator>(
    alloc: A,
    at: u64,
    frame: usize,
    picture: &Picture<B>,
) -> Result<Vec<u8, A>, AllocError>
    // Answers are the definitions' texts: a line that says how many bytes follow, and these; frames of states.
    // Refused: half_of_the_pictures_bytes_are_reported.
    ensures { IfOk result (λ bytes. bytes.items ≡ picture_text at frame (ppm_bytes picture.now)) }
{
    let mut bytes = format!(in alloc; "picture {at} {frame} {PIXMAP_SIZE}\n")?.into_bytes();
    push_pixmap(&mut bytes, picture)?;
    Ok(bytes)
}

/// The answer to `movie`: `movie AT BYTES`, a newline, and the movie's text of this many bytes, with a line for each run of equal
/// frames. `AllocError` where memory is refused.
pub fn movie_answer<A: Allocator + Copy, B: Allocator>(
    alloc: A,
    at: u64,
    movie: &Movie<B>,
) -> Result<Vec<u8, A>, AllocError>
    // Refused: half_of_the_movies_text_is_reported.
    ensures { IfOk result (λ bytes. bytes.items ≡ movie_text at (text2 movie.now)) }
{
    let text = print_text(alloc, movie)?;
    let count = text.len();
    let mut bytes = format!(in alloc; "movie {at} {count}\n")?.into_bytes();
    bytes.extend_from_slice(text.as_slice())?;
    Ok(bytes)
}

/// Appends a space and a frame's number.
fn push_frame<A: Allocator>(bytes: &mut Vec<u8, A>, frame: usize) -> Result<(), AllocError>
    ensures { OnOk result (bytes.new.items ≡ bytes.old.items ++ frame_word frame) }
{
    let mut buffer = Buffer::new();
    bytes.push(b' ')?;
    bytes.extend_from_slice(buffer.format(frame).as_bytes())
}

/// Appends frames' numbers, a space before each.
fn push_frames<A: Allocator>(bytes: &mut Vec<u8, A>, frames: &[usize]) -> Result<(), AllocError>
    ensures { OnOk result (bytes.new.items ≡ bytes.old.items ++ flat_map frame_word frames.now) }
{
    for frame in frames {
        push_frame(bytes, *frame)?;
    }
    Ok(())
}

/// The answer to `states`: `states AT N` and the N frames, in the order in which they are given. `AllocError` where memory
/// is refused.
pub fn states_answer<A: Allocator>(
    alloc: A,
    at: u64,
    frames: &[usize],
) -> Result<Vec<u8, A>, AllocError>
    // Refused: half_of_the_states_are_reported.
    ensures { IfOk result (λ bytes. bytes.items ≡ states_text at frames.now) }
{
    let count = frames.len();
    let mut bytes = format!(in alloc; "states {at} {count}")?.into_bytes();
    push_frames(&mut bytes, frames)?;
    bytes.push(b'\n')?;
    Ok(bytes)
}

/// The answer to `share`: `share AT N`, with the number of states that the greenzone gained. `AllocError` where memory is
/// refused.
pub fn share_answer<A: Allocator>(
    alloc: A,
    at: u64,
    gained: usize,
) -> Result<Vec<u8, A>, AllocError>
    // `share` and `history FROM` are answered by the definitions' texts: how many states were gained; a line that says
    // how many edits and how many bytes follow, and these.
    // Refused: gained_states_are_reported_as_the_edits.
    ensures { IfOk result (λ bytes. bytes.items ≡ share_text at gained) }
{
    Ok(format!(in alloc; "share {at} {gained}\n")?.into_bytes())
}
