//! Reading an entry.
//!
//! A line is an entry where it is the text of one: number, seat and edit are read, written again and compared. So leading zeros,
//! runs that could be longer and an image in several parts are refused without a grammar.

ghost use Rattle.std.specs.Prelude.{◌≡◌, ◌≢◌, ◌++◌, ◌∷◌, [], ◌≤◌, ℕ, List, codes, decimal, length, true, IfOk, OnOk, IfErr, IfSome, IfNone, Some};
ghost use Rattle.vcs_inputs.specs.declared.input.Input.{Input as Pressed};
ghost use Rattle.tas_movie.specs.Content.{most_inputs};
ghost use Rattle.tas_movie.specs.declared.edit.Edit.{Edit as Asked};
ghost use Rattle.tas_movie.specs.declared.run.FrameRun.{FrameRun as Repeated};
ghost use Rattle.tas_movie.specs.declared.edit.Edit.TheVariants.{Load, Delete};
ghost use Rattle.tas_language.specs.Commands.{IsNumber, image_bytes, pair_text};
ghost use Rattle.tas_language.specs.History.{image_of, load_text, IsCartridge, LoadsCartridge};
ghost use Rattle.tas_journal.specs.Text.{edit_text, entry_text, edit_of_command, frames_words, run_words, Fits, FitsInLine, IsSeat};
ghost use Rattle.tas_journal.specs.Recovery.{IsEntry, IsLineError, IsNoEntry};

use crate::JournalErrorKind;
use crate::writing::entry_line;
use byte_text::{read_decimal, split_once};
use std::alloc::{AllocError, Allocator};
use tas_language::{Change, Command, Image, after_prefix, number, parse_line};
use tas_movie::{Edit, FRAME_TEXT_SIZE, FrameRun, Inputs, MAX_FRAMES, read_frame};
use vcs_inputs::Cart;

/// Why a line makes no edit.
#[derive(Clone, Copy)]
pub(crate) enum LineError {
    /// Memory was refused.
    Memory,
    /// What is wrong with the line.
    Wrong(JournalErrorKind),
}

/// The greatest number of a seat.
const MAX_SEAT: usize = 4_294_967_295;

/// The run that stands first in a text, and what follows it.
fn read_run(text: &[u8]) -> Option<(FrameRun, &[u8])>
    ensures some { IfSome result
        (λ found. (text.entry.now ≡ run_words found.0 ++ found.1.now) × IsNumber found.0.count) }
    ensures none { IfNone result
        ((run : Repeated) (rest : List ℕ) → IsNumber run.count
        → text.entry.now ≢ run_words run ++ rest) }
{
    let words = after_prefix(text, b" ")?;
    let (word, letters) = split_once(words, b' ')?;
    let count = number(word)?;
    if letters.len() < FRAME_TEXT_SIZE {
        return None;
    }
    let (frame, rest) = letters.split_at(FRAME_TEXT_SIZE);
    let input = read_frame(frame)?;
    Some((FrameRun { input, count }, rest))
}

/// The frames whose runs a text has; nothing where it has none, or more frames than a movie has at most.
fn read_frames<A: Allocator>(alloc: A, text: &[u8]) -> Result<Option<Inputs<A>>, AllocError>
    ensures fits { IfOk result
        (λ found. IfSome found (λ inputs. length inputs ≤ most_inputs)) }
    ensures all { IfOk result (λ found. (inputs : List Pressed) → length inputs ≤ most_inputs
        → text.now ≡ frames_words inputs → found ≡ Some inputs) }
{
    let mut list = Vec::new(alloc);
    let mut rest = text;
    while !rest.is_empty() {
        let Some((run, after)) = read_run(rest) else {
            return Ok(None);
        };
        let len = list.len();
        let room = MAX_FRAMES - len;
        if run.count > room {
            return Ok(None);
        }
        list.resize(len + run.count, run.input)?;
        rest = after;
    }
    Ok(Some(Inputs::from_vec(list)))
}

/// A place and the frames after it.
fn read_placed<A: Allocator>(
    alloc: A,
    text: &[u8],
) -> Result<Option<(usize, Inputs<A>)>, AllocError>
    ensures fits { IfOk result
        (λ found. IfSome found (λ placed. IsNumber placed.0 × (length placed.1 ≤ most_inputs))) }
    ensures all { IfOk result (λ found. (at : ℕ) (inputs : List Pressed) → IsNumber at
        → length inputs ≤ most_inputs → text.now ≡ decimal at ++ frames_words inputs
        → found ≡ Some (record { 0 = at; 1 = inputs })) }
{
    let Some((word, _)) = split_once(text, b' ') else {
        return Ok(None);
    };
    let Some(at) = number(word) else {
        return Ok(None);
    };
    let (_, runs) = text.split_at(word.len());
    match read_frames(alloc, runs)? {
        Some(inputs) => Ok(Some((at, inputs))),
        None => Ok(None),
    }
}

/// A cartridge with an image's bytes.
fn cart_of<A: Allocator>(alloc: A, image: &Image) -> Result<Cart<A>, AllocError>
    ensures { IfOk result (λ cart. cart ≡ image_bytes image.now) }
{
    match Cart::from_bytes(alloc, image.bytes()) {
        Ok(cart) => Ok(cart),
        Err(_) => Err(AllocError),
    }
}

/// The edit of a command that loads a cartridge or deletes frames; nothing for another one.
fn edit_of<A: Allocator>(alloc: A, command: Command) -> Result<Option<Edit<A>>, AllocError>
    ensures { IfOk result (λ found. found ≡ edit_of_command A command) }
{
    match command {
        Command::Load { image } => Ok(Some(Edit::Load(cart_of(alloc, &image)?))),
        Command::Edit(Change::Delete { at, count }) => Ok(Some(Edit::Delete { at, count })),
        Command::Edit(Change::Insert { .. })
        | Command::Edit(Change::Replace { .. })
        | Command::Length
        | Command::InputAt { .. }
        | Command::Shot { .. }
        | Command::Work { .. } => Ok(None),
    }
}

/// The cartridge or the deletion that a text says; nothing where it says none.
fn read_other<A: Allocator>(alloc: A, text: &[u8]) -> Result<Option<Edit<A>>, AllocError>
    ensures fits { IfOk result (λ found. IfSome found FitsInLine) }
    ensures load { IfOk result (λ found. (cart : List ℕ) → IsCartridge cart
        → text.now ≡ load_text (image_of cart) → found ≡ Some (Load cart)) }
    ensures delete { IfOk result (λ found. (at count : ℕ) → IsNumber at → IsNumber count
        → text.now ≡ codes "delete " ++ pair_text at count → found ≡ Some (Delete at count)) }
{
    match parse_line(text) {
        Some(command) => edit_of(alloc, command),
        None => Ok(None),
    }
}

/// The edit that a text says, where it is that of one; else nothing, or an edit whose text it isn't.
fn read_edit<A: Allocator>(alloc: A, text: &[u8]) -> Result<Option<Edit<A>>, AllocError>
    ensures fits { IfOk result (λ found. IfSome found FitsInLine) }
    ensures all { IfOk result (λ found. (edit : Asked A) → Fits edit
        → text.now ≡ edit_text edit → found ≡ Some edit) }
{
    if let Some(rest) = after_prefix(text, b"insert ") {
        return match read_placed(alloc, rest)? {
            Some((at, inputs)) => Ok(Some(Edit::Insert { at, inputs })),
            None => Ok(None),
        };
    }
    if let Some(rest) = after_prefix(text, b"replace ") {
        return match read_placed(alloc, rest)? {
            Some((at, inputs)) => Ok(Some(Edit::Replace { at, inputs })),
            None => Ok(None),
        };
    }
    read_other(alloc, text)
}

/// The seat's number that these digits write.
fn read_seat(word: &[u8]) -> Option<u32>
    ensures some { IfSome result (λ seat. word.now ≡ decimal seat) }
    ensures none { IfNone result ((seat : ℕ) → IsSeat seat → word.now ≢ decimal seat) }
{
    let seat = read_decimal(word)?;
    if seat > MAX_SEAT {
        return None;
    }
    Some(seat as u32)
}

/// Whether a line is the entry of this number, seat and edit.
fn is_entry<A: Allocator + Copy>(
    alloc: A,
    number: usize,
    seat: u32,
    edit: &Edit<A>,
    said: &[u8],
) -> Result<bool, AllocError>
    ensures same { IfOk result (λ same. same ≡ true → said.now ≡ entry_text number seat edit.now) }
    ensures all { IfOk result (λ same. said.now ≡ entry_text number seat edit.now → same ≡ true) }
    ensures cartridge { OnOk result (LoadsCartridge edit.now) }
{
    let line = entry_line(alloc, number, seat, edit)?;
    match after_prefix(line.as_slice(), said) {
        Some(newline) => Ok(newline.len() == 1),
        None => Ok(false),
    }
}

/// The edit that was found, where a line is the entry of it.
fn keep_entry<A: Allocator + Copy>(
    alloc: A,
    number: usize,
    seat: u32,
    found: Option<Edit<A>>,
    said: &[u8],
) -> Result<Option<Edit<A>>, AllocError>
    requires { IfSome found FitsInLine }
    ensures some { IfOk result (λ kept. IfSome kept
        (λ edit. (said.now ≡ entry_text number seat edit) × Fits edit)) }
    ensures all { IfOk result (λ kept. (edit : Asked A) → found ≡ Some edit
        → said.now ≡ entry_text number seat edit → kept ≡ Some edit) }
{
    match found {
        Some(edit) => {
            let same = is_entry(alloc, number, seat, &edit, said)?;
            if same { Ok(Some(edit)) } else { Ok(None) }
        }
        None => Ok(None),
    }
}

/// The edit of a line whose number is right.
fn read_seated<A: Allocator + Copy>(
    alloc: A,
    number: usize,
    said: &[u8],
    rest: &[u8],
) -> Result<Option<Edit<A>>, AllocError>
    requires { said.now ≡ decimal number ++ 32 ∷ rest.now }
    ensures some { IfOk result (λ found. IfSome found (λ edit. IsEntry number said.now edit)) }
    ensures none { IfOk result
        (λ found. IfNone found ((edit : Asked A) → IsEntry number said.now edit → ⊥)) }
{
    let Some((word, text)) = split_once(rest, b' ') else {
        return Ok(None);
    };
    let Some(seat) = read_seat(word) else {
        return Ok(None);
    };
    let found = read_edit(alloc, text)?;
    keep_entry(alloc, number, seat, found, said)
}

/// The number of an entry and a space.
fn number_front<A: Allocator>(alloc: A, number: usize) -> Result<Vec<u8, A>, AllocError>
    ensures { IfOk result (λ front. front.items ≡ decimal number ++ 32 ∷ []) }
{
    Ok(format!(in alloc; "{number} ")?.into_bytes())
}

/// The edit of a line, without its newline, that is the entry of this number.
pub(crate) fn read_entry<A: Allocator + Copy>(
    alloc: A,
    number: usize,
    said: &[u8],
) -> Result<Edit<A>, LineError>
    // A line is read as the edit whose entry it is, whoever made it; another line is at fault by its number or by what follows.
    // Refused: entry_of_another_number_is_read, entry_of_another_seat_is_left_out.
    ensures some { IfOk result (λ edit. IsEntry number said.now edit) }
    ensures none { IfErr result (IsLineError (IsNoEntry A number said.now)) }
{
    let Ok(front) = number_front(alloc, number) else {
        return Err(LineError::Memory);
    };
    let Some(rest) = after_prefix(said, front.as_slice()) else {
        return Err(LineError::Wrong(JournalErrorKind::Number));
    };
    match read_seated(alloc, number, said, rest) {
        Ok(Some(edit)) => Ok(edit),
        Ok(None) => Err(LineError::Wrong(JournalErrorKind::Edit)),
        Err(_) => Err(LineError::Memory),
    }
}
