//! Names files.
//!
//! A name looks like no other word of a goal: it has letters, digits and `_` alone and begins with no digit, and is neither a word
//! of goals nor an address. So no line changes the meaning of a word, and each name means its byte, whatever names follow;
//! `tas_search` proves it of its words. One file serves all commands that read names.

ghost use Rattle.std.specs.Prelude.{◌≡◌, IfOk, IfErr};
ghost use Rattle.std.specs.List.{list_all};
ghost use Rattle.tas_engines.specs.declared.names.NamesError.TheVariants.{Memory as Refused};
ghost use Rattle.tas_engines.specs.Names.{names_of};
ghost use Rattle.tas_engines.specs.NamesFile.{AreNames, IsNamesError, is_identifier, is_name, is_name_byte, is_reserved};
ghost use Rattle.tas_engines.specs.Inside.NameLines.{Gives, IsWrongLine};

use crate::name::{Name, address_of, named};
use byte_text::split_once;
use std::alloc::{AllocError, AllocFailed, Allocator};
use thiserror::Error;

/// What is wrong with a line of a names file.
#[derive(Clone, Copy, Debug, PartialEq, Eq, Error)]
pub enum NamesFaultKind {
    /// No newline ends the line.
    #[error("end")]
    End,
    /// There is no space in the line.
    #[error("space")]
    Space,
    /// After the space stands no address of RAM: two upper case hexadecimal digits, 80 to FF.
    #[error("address")]
    Address,
    /// Before the space stands no name: something other than letters, digits and `_`, a digit first, nothing, a word of goals,
    /// an address or a name of an earlier line.
    #[error("name")]
    Name,
}

/// Why no names were read.
#[derive(Clone, Copy, Debug, PartialEq, Eq, Error)]
pub enum NamesError {
    /// Out of memory.
    #[error("out of memory")]
    Memory,
    /// The first line at fault.
    #[error("names line {line}: {kind}")]
    Line {
        /// The line's number, counted from 1.
        line: usize,
        /// What is wrong with it.
        kind: NamesFaultKind,
    },
}

impl From<AllocError> for NamesError {
    ghost from_gives = { λ _ fault. fault ≡ Refused };

    fn from(_error: AllocError) -> NamesError {
        NamesError::Memory
    }
}

impl<T: Drop> From<AllocFailed<T>> for NamesError {
    ghost from_gives = { λ _ fault. fault ≡ Refused };

    fn from(_error: AllocFailed<T>) -> NamesError {
        NamesError::Memory
    }
}

/// Whether the bytes are letters, digits and `_`.
fn are_name_bytes(bytes: &[u8]) -> bool
    ensures { result ≡ list_all is_name_byte bytes.now }
{
    for byte in bytes {
        if !byte.is_ascii_alphanumeric() && *byte != b'_' {
            return false;
        }
    }
    true
}

/// Whether the bytes are one or more of them, the first of which is no digit.
fn is_identifier(bytes: &[u8]) -> bool
    ensures { result ≡ is_identifier bytes.now }
{
    let Some((first, _)) = bytes.split_first() else {
        return false;
    };
    !first.is_ascii_digit() && are_name_bytes(bytes)
}

/// Whether the bytes are one of the words of goals that look like names.
fn is_reserved(bytes: &[u8]) -> bool
    ensures { result ≡ is_reserved bytes.now }
{
    bytes == b"not".as_slice() || bytes == b"and".as_slice() || bytes == b"or".as_slice()
}

/// Whether the bytes can be a name after these: they are no word of goals, no address and none of these names.
fn is_name<A: Allocator>(names: &[Name<A>], bytes: &[u8]) -> bool
    ensures { result ≡ is_name (names_of names.now) bytes.now }
{
    is_identifier(bytes)
        && !is_reserved(bytes)
        && address_of(bytes).is_none()
        && named(names, bytes).is_none()
}

/// The name and the address that line `number`, without its newline, gives after these names.
fn split_name<'a, A: Allocator>(
    names: &[Name<A>],
    number: usize,
    line: &'a [u8],
) -> Result<(&'a [u8], u8), NamesError>
    ensures name { IfOk result
        (λ r. Gives (names_of names.now) line.entry.now r.0.now r.1) }
    ensures fault { IfErr result (IsWrongLine (names_of names.now) number line.entry.now) }
{
    let Some((name, digits)) = split_once(line, b' ') else {
        return Err(NamesError::Line {
            line: number,
            kind: NamesFaultKind::Space,
        });
    };
    let Some(address) = address_of(digits) else {
        return Err(NamesError::Line {
            line: number,
            kind: NamesFaultKind::Address,
        });
    };
    if !is_name(names, name) {
        return Err(NamesError::Line {
            line: number,
            kind: NamesFaultKind::Name,
        });
    }
    Ok((name, address))
}

/// Reads a names file: a line for each name, with its address.
pub fn read_names<A: Allocator + Copy>(alloc: A, text: &[u8]) -> Result<Vec<Name<A>, A>, NamesError>
    // A names file is read as the names whose text it is, or its first line at fault is reported.
    // Refused: names_fault_is_one_line_early, name_may_begin_with_a_digit, colon_is_allowed_in_a_name,
    // address_is_accepted_as_a_name, name_is_given_twice, word_of_goals_is_accepted_as_a_name.
    ensures read { IfOk result (λ names. AreNames text.now (names_of names.items)) }
    ensures fault { IfErr result (IsNamesError text.now) }
{
    let mut names = Vec::new(alloc);
    let mut rest = text;
    while !rest.is_empty() {
        let number = names.len() + 1;
        let Some((line, after)) = split_once(rest, b'\n') else {
            return Err(NamesError::Line {
                line: number,
                kind: NamesFaultKind::End,
            });
        };
        let (name, address) = split_name(names.as_slice(), number, line)?;
        let text = Vec::from_slice(alloc, name)?;
        names.push(Name { text, address })?;
        rest = after;
    }
    Ok(names)
}
