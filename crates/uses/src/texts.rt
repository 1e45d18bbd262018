//! Lines that are read and written.

use anyhow::Result;
use byte_text::{hex_digits, read_decimal, split_once};
use std::alloc::Global;
use tas_language::{
    Command, EditLine, Reply, Request, parse_line, parse_request, read_edit_line, reply_line,
};

/// Two hexadecimal digits, as bytes.
pub fn digits_of_30() -> [u8; 2] {
    hex_digits(0x1e) // "1E"
}

/// A number, and one that isn't written as numbers are.
pub fn numbers() -> [Option<usize>; 2] {
    [read_decimal(b"120"), read_decimal(b"012")] // 120, and None
}

/// The lengths of a line's first word and of the rest.
pub fn word_and_rest() -> Option<(usize, usize)> {
    let (word, rest) = split_once(b"shot 99", b' ')?;
    Some((word.len(), rest.len())) // 4 and 2
}

/// A line of a script, and one with a zero too many.
pub fn commands() -> [Option<Command>; 2] {
    [parse_line(b"shot 60"), parse_line(b"shot 060")] // Command::Shot { frame: 60 }, and None
}

/// A line of a conversation.
pub fn request() -> Option<Request> {
    parse_request(b"picture 60") // Request::Picture { frame: 60 }
}

/// A line of the scripts of `edit`.
pub fn edit_line() -> Option<EditLine> {
    read_edit_line(b"copy other 0 60 30") // EditLine::CopyOther { from: 0, count: 60, at: 30 }
}

/// What an edit is answered.
pub fn reply(alloc: Global) -> Result<Vec<u8>> {
    Ok(reply_line(alloc, Reply::Edited { at: 1, len: 200 })?) // "edit 1 len 200\n"
}
