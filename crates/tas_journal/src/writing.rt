//! Writing a journal.
//!
//! An edit has one line, so that it is there whole or not at all, wherever a file is cut. `history` reports an edit of several
//! runs of frames by as many lines; here the runs follow each other in one. So a line that has one run is that of `history`.
//! The numbers count the journal's own lines: a history that goes on from a journal begins at 0 again.
//!
//! The movie's text names the cartridge by its digest, so the head has no line of its own for it.

ghost use Rattle.std.specs.Prelude.{◌≡◌, ◌++◌, IfOk, OnOk, OnErr, decimal};
ghost use Rattle.tas_movie.specs.Text.{line};
ghost use Rattle.tas_language.specs.History.{LoadsCartridge};
ghost use Rattle.tas_journal.specs.Text.{entry_front, entry_text, format_line, frames_words, head_text, profile_line, movie_line, run_words};

use itoa::Buffer;
use sha2::{Digest, Sha256};
use std::alloc::{AllocError, Allocator};
use tas_language::push_edit_lines;
use tas_movie::{Edit, FrameRun, Movie, print_frame, print_text, run_length};
use vcs_inputs::Input;
use vcs_machine::PROFILE;

/// The third line of a head, with its newline: that of a movie's text.
pub(crate) fn movie_line<A: Allocator + Copy>(
    alloc: A,
    text: &[u8],
) -> Result<Vec<u8, A>, AllocError>
    ensures { IfOk result (λ bytes. bytes.items ≡ movie_line text.now) }
{
    let count = text.len();
    let digest = hex::encode(alloc, Sha256::digest(text))?;
    Ok(format!(in alloc; "movie {count} {digest}\n")?.into_bytes())
}

/// The first two lines of a head.
fn head_front<A: Allocator>(alloc: A) -> Result<Vec<u8, A>, AllocError>
    ensures { IfOk result (λ front. front.items ≡ format_line ++ profile_line) }
{
    Ok(format!(in alloc; "a26journal 1\nprofile {PROFILE}\n")?.into_bytes())
}

/// The head of a journal that begins with this movie: the format, the machine's profile, and the movie's text with its length in
/// bytes and its SHA-256. `AllocError` where memory is refused.
pub fn write_head<A: Allocator + Copy, B: Allocator>(
    alloc: A,
    movie: &Movie<B>,
) -> Result<Vec<u8, A>, AllocError>
    // A journal begins with the definition's head: format, profile, and the text of the movie with its length and digest.
    // Refused: head_of_another_profile.
    ensures { IfOk result (λ bytes. bytes.items ≡ head_text movie.now) }
{
    let text = print_text(alloc, movie)?;
    let line = movie_line(alloc, text.as_slice())?;
    let mut bytes = head_front(alloc)?;
    bytes.extend_from_slice(line.as_slice())?;
    bytes.extend_from_slice(text.as_slice())?;
    Ok(bytes)
}

/// Appends a run: how many frames, and the frame, each after a space.
fn push_run<A: Allocator>(text: &mut Vec<u8, A>, run: FrameRun) -> Result<(), AllocError>
    ensures { OnOk result (text.new.items ≡ text.old.items ++ run_words run) }
{
    let mut buffer = Buffer::new();
    text.push(b' ')?;
    text.extend_from_slice(buffer.format(run.count).as_bytes())?;
    text.push(b' ')?;
    text.extend_from_slice(&print_frame(run.input))?;
    Ok(())
}

/// Appends each run of equal inputs, as long as it can be, and a run of no frames where there are no inputs.
fn push_frames<A: Allocator>(text: &mut Vec<u8, A>, inputs: &[Input]) -> Result<(), AllocError>
    ensures { OnOk result (text.new.items ≡ text.old.items ++ frames_words inputs.now) }
{
    if inputs.is_empty() {
        let input = Input::none();
        return push_run(text, FrameRun { input, count: 0 });
    }
    let mut done = 0;
    while done < inputs.len() {
        let input = inputs[done];
        let count = run_length(&inputs[done..], input);
        push_run(text, FrameRun { input, count })?;
        done += count;
    }
    Ok(())
}

/// Appends a line of frames at a place.
fn push_line<A: Allocator>(
    text: &mut Vec<u8, A>,
    front: &[u8],
    word: &[u8],
    at: usize,
    inputs: &[Input],
) -> Result<(), AllocError>
    ensures { OnOk result
        (text.new.items
        ≡ text.old.items
        ++ line (front.now ++ (word.now ++ (decimal at ++ frames_words inputs.now)))) }
{
    let mut buffer = Buffer::new();
    text.extend_from_slice(front)?;
    text.extend_from_slice(word)?;
    text.extend_from_slice(buffer.format(at).as_bytes())?;
    push_frames(text, inputs)?;
    text.push(b'\n')?;
    Ok(())
}

/// What stands before an edit in its line.
fn entry_front<A: Allocator>(alloc: A, number: usize, seat: u32) -> Result<Vec<u8, A>, AllocError>
    ensures { IfOk result (λ bytes. bytes.items ≡ entry_front number seat) }
{
    Ok(format!(in alloc; "{number} {seat} ")?.into_bytes())
}

/// The line of an entry, with its newline.
pub(crate) fn entry_line<A: Allocator + Copy, B: Allocator>(
    alloc: A,
    number: usize,
    seat: u32,
    edit: &Edit<B>,
) -> Result<Vec<u8, A>, AllocError>
    ensures text { IfOk result (λ bytes. bytes.items ≡ line (entry_text number seat edit.now)) }
    ensures cartridge { OnOk result (LoadsCartridge edit.now) }
{
    let front = entry_front(alloc, number, seat)?;
    let mut text = Vec::new(alloc);
    match edit {
        Edit::Insert { at, inputs } => {
            push_line(
                &mut text,
                front.as_slice(),
                b"insert ",
                *at,
                inputs.as_slice(),
            )?;
        }
        Edit::Replace { at, inputs } => {
            push_line(
                &mut text,
                front.as_slice(),
                b"replace ",
                *at,
                inputs.as_slice(),
            )?;
        }
        _ => push_edit_lines(&mut text, front.as_slice(), edit)?,
    }
    Ok(text)
}

/// Appends the line of an accepted edit: its number in the journal, counted from 0, the number of the seat that made it, and the
/// edit in the words of `history`. After `AllocError` the text is as before.
pub fn push_entry<A: Allocator + Copy, B: Allocator>(
    alloc: A,
    text: &mut Vec<u8, A>,
    number: usize,
    seat: u32,
    edit: &Edit<B>,
) -> Result<(), AllocError>
    // An edit has one line in a journal: its number, its seat, and the edit with all runs of its frames. What it loads is a
    // cartridge's image. Where memory is refused nothing is added.
    // Refused: entry_has_its_number_and_seat_swapped, replacement_is_journaled_as_an_insertion,
    // runs_of_an_entry_after_the_first_are_left_out, entry_is_written_twice.
    ensures text { OnOk result
        (text.new.items ≡ text.old.items ++ line (entry_text number seat edit.now)) }
    ensures cartridge { OnOk result (LoadsCartridge edit.now) }
    ensures refused { OnErr result (text.new.items ≡ text.old.items) }
{
    let line = entry_line(alloc, number, seat, edit)?;
    text.extend_from_slice(line.as_slice())
}
