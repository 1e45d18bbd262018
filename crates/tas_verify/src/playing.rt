//! One movie: its files are opened and read, and it is played.

ghost use Rattle.std.specs.Prelude.{◌≡◌, ◌≤◌, ℕ, List, [], ◌∷◌, map, length, IsTrue, ◌↔◌, IfOk, IfErr, OnOk};
ghost use Rattle.tas_engines.specs.Input.{most_input_bytes};
ghost use Rattle.tas_engines.specs.Digests.{digest_of};
ghost use Rattle.tas_verify.specs.declared.outcome.Role.{Role as RoleOf};
ghost use Rattle.tas_verify.specs.Manifest.{words_in};
ghost use Rattle.tas_verify.specs.Rows.{
  is_sha256,
  cart_finds,
  cart_held,
  cart_lacks,
  outcome_of,
  IsRead,
  IsMissed,
  IsAnother,
  IsPlayed,
  IsOutcome,
  IsThereOr,
  JudgesCart,
  Opens,
};
ghost use Rattle.tas_verify.specs.Inside.Playing.{IsFileMissed, IsFileRead};

use crate::judging::{compare, stretch_of};
use crate::progress::frames_of;
use crate::{Outcome, Role, Row, Shelf};
use sha2::{Digest as Hashing, Sha256};
use std::alloc::{AllocError, Allocator};
use std::io::Read;
use tas_engines::commands::{Digest, Text};
use tas_engines::{RunFault, read_input};

/// How many hexadecimal digits a SHA-256 has.
pub(crate) const DIGITS: usize = 64;

/// Reads what was opened, if it was.
fn read_opened<A: Allocator, F: Read + Drop>(
    alloc: A,
    file: Option<F>,
    role: Role,
) -> Result<Vec<u8, A>, Outcome>
    ensures read { IfOk result (λ bytes. IsFileRead F.remaining file bytes.items) }
    ensures fault { IfErr result (IsFileMissed F.remaining file role) }
{
    let Some(mut file) = file else {
        return Err(Outcome::NotFound(role));
    };
    match read_input(alloc, &mut file) {
        Ok(bytes) => Ok(bytes),
        Err(fault) => Err(Outcome::Unread(role, fault)),
    }
}

/// Reads the file of this name.
fn read_named<A: Allocator, S: Shelf>(
    alloc: A,
    shelf: &S,
    name: &[u8],
    role: Role,
) -> Result<Vec<u8, A>, Outcome>
    ensures read { IfOk result
        (λ bytes. IsRead ((S.facts shelf.now).held name.now) bytes.items) }
    ensures fault { IfErr result
        (IsMissed ((S.facts shelf.now).lacks name.now) ((S.facts shelf.now).held name.now) role) }
{
    read_opened(alloc, shelf.open(name), role)
}

/// Reads the cartridge that was found by this SHA-256.
fn read_found<A: Allocator, S: Shelf>(
    alloc: A,
    shelf: &S,
    digits: &[u8],
) -> Result<Vec<u8, A>, Outcome>
    ensures read { IfOk result
        (λ bytes. IsRead ((S.facts shelf.now).found digits.now) bytes.items) }
    ensures finds { OnOk result ((S.facts shelf.now).finds digits.now) }
    ensures fault { IfErr result (IsMissed ((S.facts shelf.now).misses digits.now)
        ((S.facts shelf.now).found digits.now) RoleOf.Cartridge) }
    ensures there { IfErr result (IsThereOr ((S.facts shelf.now).finds digits.now)) }
{
    read_opened(alloc, shelf.find(digits), Role::Cartridge)
}

/// Whether the word is a SHA-256.
fn is_sha256(word: &[u8]) -> bool
    ensures { result ≡ is_sha256 word.now }
{
    if word.len() != DIGITS {
        return false;
    }
    for byte in word {
        if !matches!(*byte, b'0'..=b'9' | b'a'..=b'f') {
            return false;
        }
    }
    true
}

/// The SHA-256 of a cartridge's image, as a manifest has it.
pub fn sha256_of(image: &[u8]) -> [u8; DIGITS]
    // The SHA-256 in lower case hexadecimal digits.
    // Refused: cartridge_has_the_digits_of_nothing.
    ensures { result ≡ digest_of image.now }
{
    let mut digits = [0; DIGITS];
    hex::encode_to_slice(Sha256::digest(image), &mut digits).unwrap();
    digits
}

/// Whether these are the digits of an image's SHA-256.
fn is_digest_of(image: &[u8], word: &[u8]) -> bool
    ensures { IsTrue result ↔ (digest_of image.now ≡ word.now) }
{
    sha256_of(image).as_slice() == word
}

/// Whether what was found by a SHA-256 has another one.
fn is_another(word: &[u8], image: &[u8]) -> bool
    ensures { IsTrue result ↔ IsAnother word.now image.now }
{
    is_sha256(word) && !is_digest_of(image, word)
}

/// Reads a cartridge: the one that is found by its SHA-256, or the file of this name.
fn read_cart<A: Allocator, S: Shelf>(
    alloc: A,
    shelf: &S,
    word: &[u8],
) -> Result<Vec<u8, A>, Outcome>
    ensures read { IfOk result
        (λ bytes. IsRead (cart_held (S.facts shelf.now) word.now) bytes.items) }
    ensures finds { OnOk result (cart_finds (S.facts shelf.now) word.now) }
    ensures fault { IfErr result (IsMissed (cart_lacks (S.facts shelf.now) word.now)
        (cart_held (S.facts shelf.now) word.now) RoleOf.Cartridge) }
    ensures there { IfErr result (IsThereOr (cart_finds (S.facts shelf.now) word.now)) }
{
    if is_sha256(word) {
        read_found(alloc, shelf, word)
    } else {
        read_named(alloc, shelf, word, Role::Cartridge)
    }
}

/// Why a movie has no digest, as it is reported.
fn outcome_of(fault: RunFault) -> Outcome
    ensures { result ≡ outcome_of fault }
{
    match fault {
        RunFault::Size(len) => Outcome::Size(len),
        RunFault::Text(error) => Outcome::Text(error),
        RunFault::Halted { at, opcode } => Outcome::Halted { at, opcode },
        // `Memory`: a digest has no other fault.
        _ => Outcome::Memory,
    }
}

/// A cartridge and a movie's text as `tas digest` reads them.
fn in_a_list<A: Allocator + Copy>(
    alloc: A,
    image: Vec<u8, A>,
    text: Vec<u8, A>,
) -> Result<Vec<Vec<u8, A>, A>, AllocError>
    ensures { IfOk result (λ inputs. map (λ bytes. bytes.items) inputs.items
        ≡ image.items ∷ text.items ∷ []) }
{
    let mut inputs = Vec::new(alloc);
    inputs.push(image)?;
    inputs.push(text)?;
    Ok(inputs)
}

/// What came of a movie, and how many frames were played for it.
#[derive(Clone, Copy)]
pub(crate) struct Judged {
    pub(crate) outcome: Outcome,
    /// As many as its digest says; 0 where it has none. Contracts don't speak of it.
    pub(crate) frames: usize,
}

/// Plays a movie, and compares its digest with the stored one.
fn play<A: Allocator + Copy>(alloc: A, inputs: &[Vec<u8, A>], stored: &[u8]) -> Judged
    requires { length stored.now ≤ most_input_bytes }
    ensures { (image text : List ℕ) → map (λ bytes. bytes.items) inputs.now ≡ image ∷ text ∷ []
        → IsPlayed text image stored.now result.outcome }
{
    let every = stretch_of(stored);
    match (Digest { every }).text(alloc, inputs) {
        Ok(now) => Judged {
            outcome: compare(every, now.as_slice(), stored),
            frames: frames_of(now.as_slice()),
        },
        Err(fault) => Judged {
            outcome: outcome_of(fault),
            frames: 0,
        },
    }
}

/// Reads the digest of a movie whose other files are read, and plays it.
fn judge_digest<A: Allocator + Copy, S: Shelf>(
    alloc: A,
    shelf: &S,
    name: &[u8],
    inputs: &[Vec<u8, A>],
) -> Judged
    ensures { (image text : List ℕ) → map (λ bytes. bytes.items) inputs.now ≡ image ∷ text ∷ []
        → Opens ((S.facts shelf.now).lacks name.now) ((S.facts shelf.now).held name.now) RoleOf.Digest
        (IsPlayed text image) result.outcome }
{
    match read_named(alloc, shelf, name, Role::Digest) {
        Ok(stored) => play(alloc, inputs, stored.as_slice()),
        Err(outcome) => Judged { outcome, frames: 0 },
    }
}

/// Opens and reads the cartridge of a movie whose text is read, and goes on with the digest.
fn judge_cart<A: Allocator + Copy, S: Shelf>(
    alloc: A,
    shelf: &S,
    row: Row<'_>,
    text: Vec<u8, A>,
) -> Judged
    ensures { JudgesCart (S.facts shelf.now) (words_in row.entry) text.items result.outcome }
{
    let image = match read_cart(alloc, shelf, row.cart) {
        Ok(image) => image,
        Err(outcome) => return Judged { outcome, frames: 0 },
    };
    if is_another(row.cart, image.as_slice()) {
        let outcome = Outcome::NotFound(Role::Cartridge);
        return Judged { outcome, frames: 0 };
    }
    match in_a_list(alloc, image, text) {
        Ok(inputs) => judge_digest(alloc, shelf, row.digest, inputs.as_slice()),
        Err(_) => {
            let outcome = Outcome::Memory;
            Judged { outcome, frames: 0 }
        }
    }
}

/// What comes of the movie whose line has these words, and how many frames were played for it.
pub(crate) fn judge_row<A: Allocator + Copy, S: Shelf>(alloc: A, shelf: &S, row: Row<'_>) -> Judged
    ensures { IsOutcome (S.facts shelf.now) (words_in row.entry) result.outcome }
{
    match read_named(alloc, shelf, row.movie, Role::Movie) {
        Ok(text) => judge_cart(alloc, shelf, row, text),
        Err(outcome) => Judged { outcome, frames: 0 },
    }
}

/// What comes of the movie whose line has these words: its files are opened and read in their order; then it is played, and its digest of now is
/// compared with the one that was stored, in stretches of as many frames as that has.
pub fn verify_row<A: Allocator + Copy, S: Shelf>(alloc: A, shelf: &S, row: Row<'_>) -> Outcome
    // A movie is the same only where the stored digest is the one that `tas digest` answers to it; else the first line that
    // differs is reported, and a fault is that of `tas digest`. A file that can't be opened or read comes before that, the first of
    // the three. A cartridge that was found has the SHA-256 that was asked for; where the shelf finds none, it isn't found.
    // Refused: movie_that_differs_is_the_same, first_stretch_is_the_second, stretches_are_600_frames_whatever_is_said,
    // halted_movie_is_the_same, other_cartridge_is_taken, cartridge_is_opened_by_its_digits,
    // movie_is_read_for_its_digest, capital_digits_are_a_sha256.
    ensures { IsOutcome (S.facts shelf.now) (words_in row.entry) result }
{
    judge_row(alloc, shelf, row).outcome
}
