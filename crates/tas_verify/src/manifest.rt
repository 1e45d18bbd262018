//! Manifests.
//!
//! A tab between words, where a line has one: file names of cartridges often have spaces. The whole manifest is read, and a line at
//! fault reported, before a movie is played.

ghost use Rattle.std.specs.Prelude.{◌≡◌, ◌↔◌, IsTrue, map, Some, None, Option, option_map, option_to_list, OnOk, ◌++◌, IfOk, IfErr, IfSome, IfNone};
ghost use Rattle.tas_engines.specs.Remarks.{trimmed, words_of};
ghost use Rattle.tas_verify.specs.declared.manifest.ManifestError.TheVariants.{Memory as Refused};
ghost use Rattle.tas_verify.specs.Inside.Words.{AreWords};
ghost use Rattle.tas_verify.specs.Manifest.{mark_of, words_in, RowWords, IsSplit, Means, IsManifest, IsManifestError};

use byte_text::split_once;
use std::alloc::{AllocFailed, Allocator};
use thiserror::Error;

/// The three words of a movie's line.
#[derive(Clone, Copy)]
pub struct Row<'a> {
    /// The name of the movie's file.
    pub movie: &'a [u8],
    /// The name of the cartridge's file, or the SHA-256 of the cartridge as 64 lower case hexadecimal digits.
    pub cart: &'a [u8],
    /// The name of the digest's file.
    pub digest: &'a [u8],
}

/// Why no manifest was read.
#[derive(Clone, Copy, Debug, PartialEq, Eq, Error)]
pub enum ManifestError {
    /// Out of memory.
    #[error("out of memory")]
    Memory,
    /// The first line at fault, counted from 1: it has other than three words, or no newline ends it.
    #[error("manifest line {0}")]
    Line(usize),
}

impl<T: Drop> From<AllocFailed<T>> for ManifestError {
    ghost from_gives = { λ _ fault. fault ≡ Refused };

    fn from(_error: AllocFailed<T>) -> ManifestError {
        ManifestError::Memory
    }
}

/// These bytes without the spaces at their end.
fn trimmed(bytes: &[u8]) -> &[u8]
    ensures { result.now ≡ trimmed bytes.now }
{
    let mut rest = bytes;
    while let Some((last, front)) = rest.split_last() {
        if *last != b' ' {
            return rest;
        }
        rest = front;
    }
    rest
}

/// The words of a line: it without its remark, the first `#` and all after it, and without the spaces before that.
fn words_of(line: &[u8]) -> &[u8]
    ensures { result.now ≡ words_of line.now }
{
    match split_once(line, b'#') {
        Some((front, _)) => trimmed(front),
        None => line,
    }
}

/// What is between a line's words: a tab where it has one, else a space.
fn mark_of(bytes: &[u8]) -> u8
    ensures { result ≡ mark_of bytes.now }
{
    for byte in bytes {
        if *byte == b'\t' {
            return b'\t';
        }
    }
    b' '
}

/// Whether these can be the words between marks: none is empty, and the last one has no mark.
fn are_words(mark: u8, movie: &[u8], cart: &[u8], digest: &[u8]) -> bool
    ensures { IsTrue result ↔ AreWords mark movie.now cart.now digest.now }
{
    if movie.is_empty() || cart.is_empty() || digest.is_empty() {
        return false;
    }
    match split_once(digest, mark) {
        Some((_, _)) => false,
        None => true,
    }
}

/// The three words between which such marks are.
fn split_words(mark: u8, bytes: &[u8]) -> Option<Row<'_>>
    ensures some { IfSome result (λ row. IsSplit mark bytes.now (words_in row)) }
    ensures none { IfNone result ((row : RowWords) → IsSplit mark bytes.now row → ⊥) }
{
    let Some((movie, rest)) = split_once(bytes, mark) else {
        return None;
    };
    let Some((cart, digest)) = split_once(rest, mark) else {
        return None;
    };
    if !are_words(mark, movie, cart, digest) {
        return None;
    }
    Some(Row {
        movie,
        cart,
        digest,
    })
}

/// What a line, without its newline, says: `Some(None)` where it has no words, its remark aside, and `None` where it is at fault.
fn read_line(line: &[u8]) -> Option<Option<Row<'_>>>
    ensures some { IfSome result (λ row. Means line.now (option_map words_in row)) }
    ensures none { IfNone result ((row : Option RowWords) → Means line.now row → ⊥) }
{
    let words = words_of(line);
    if words.is_empty() {
        return Some(None);
    }
    match split_words(mark_of(words), words) {
        Some(row) => Some(Some(row)),
        None => None,
    }
}

/// Adds a movie where there is one.
fn push_row<'a, A: Allocator>(
    rows: &mut Vec<Row<'a>, A>,
    row: Option<Row<'a>>,
) -> Result<(), ManifestError>
    ensures rows { OnOk result (map words_in rows.new.items
        ≡ map words_in rows.old.items ++ option_to_list (option_map words_in row.entry)) }
    ensures fault { IfErr result (λ fault. fault ≡ Refused) }
{
    if let Some(row) = row {
        rows.push(row)?;
    }
    Ok(())
}

/// Reads a manifest: a line for each movie, of three words: the movie's file, the cartridge's file or its SHA-256, and the digest's file. A `#`, all
/// after it and the spaces before it are a remark. Between the words are tabs where a line has one before its remark, else spaces. A line that is
/// empty, or has only spaces before its remark, names no movie.
///
/// Errors: the first line at fault; `Memory` at any point.
pub fn read_manifest<A: Allocator>(alloc: A, bytes: &[u8]) -> Result<Vec<Row<'_>, A>, ManifestError>
    // A manifest is read as the movies that its lines name, in order, or its first line at fault is reported.
    // Refused: line_after_the_first_one_is_left_out, fault_of_a_manifest_is_in_line_1, digest_word_may_be_empty,
    // fourth_word_is_part_of_the_third, remark_is_part_of_a_line, tab_is_no_mark.
    ensures read { IfOk result (λ rows. IsManifest bytes.now (map words_in rows.items)) }
    ensures fault { IfErr result (IsManifestError bytes.now) }
{
    let mut rows = Vec::new(alloc);
    let mut rest = bytes;
    let mut number = 1;
    while !rest.is_empty() {
        let Some((line, after)) = split_once(rest, b'\n') else {
            return Err(ManifestError::Line(number));
        };
        let Some(row) = read_line(line) else {
            return Err(ManifestError::Line(number));
        };
        push_row(&mut rows, row)?;
        rest = after;
        number += 1;
    }
    Ok(rows)
}
