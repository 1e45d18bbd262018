//! Edits and movies, and what they read as.

use crate::checks::expect_ok;
use crate::fixtures::{BRIEF, FOLDING, PLAYFIELD, image, make, right};
use std::alloc::{AllocError, Allocator, Global};
use std::process::Abort;
use std::str;
use tas_desk::Entry;
use tas_movie::{Edit, Inputs, Movie, print_text};
use vcs_machine::{Cart, Input};

/// An edit in short.
#[derive(Clone, Copy)]
pub enum Change {
    /// The cartridge of brief frames.
    Load,
    /// The playfield's cartridge.
    LoadPlayfield,
    /// The cartridge that adds up inputs, unless nothing is pressed.
    LoadFolding,
    /// This many inputs with nothing pressed, at a place.
    Insert(usize, usize),
    /// This many inputs with the left stick pushed right, at a place.
    InsertRight(usize, usize),
    /// One input with the left stick pushed up, at a place.
    InsertUp(usize),
    /// This many inputs with the left stick pushed right over those from a place on.
    ReplaceRight(usize, usize),
    /// This many inputs taken out at a place.
    Delete(usize, usize),
}

impl Change {
    /// The length of a movie after it.
    pub fn len_after(self, len: usize) -> usize {
        match self {
            Change::Load | Change::LoadPlayfield | Change::LoadFolding | Change::ReplaceRight(..) =>
                len,
            Change::Insert(_, count) | Change::InsertRight(_, count) => len.saturating_add(count),
            Change::InsertUp(_) => len.saturating_add(1),
            Change::Delete(_, count) => len.saturating_sub(count),
        }
    }
}

/// The edit that loads a program's cartridge.
fn load_of<A: Allocator>(alloc: A, program: &[u8]) -> Result<Edit<A>, AllocError> {
    match Cart::from_bytes(alloc, &image(program)) {
        Ok(cart) => Ok(Edit::Load(cart)),
        Err(_) => Err(AllocError),
    }
}

/// The edit that puts in this many of an input.
fn insert_of<A: Allocator>(
    alloc: A,
    at: usize,
    input: Input,
    count: usize,
) -> Result<Edit<A>, AllocError> {
    let inputs = Inputs::repeated(alloc, input, count)?;
    Ok(Edit::Insert { at, inputs })
}

/// The left stick pushed up.
fn up() -> Input {
    let mut input = Input::none();
    input.left.up = true;
    input
}

/// The edit.
pub fn edit_of<A: Allocator>(alloc: A, change: Change) -> Result<Edit<A>, AllocError> {
    match change {
        Change::Load => load_of(alloc, BRIEF),
        Change::LoadPlayfield => load_of(alloc, PLAYFIELD),
        Change::LoadFolding => load_of(alloc, FOLDING),
        Change::Insert(at, count) => insert_of(alloc, at, Input::none(), count),
        Change::InsertRight(at, count) => insert_of(alloc, at, right(), count),
        Change::InsertUp(at) => insert_of(alloc, at, up(), 1),
        Change::ReplaceRight(at, count) => {
            let inputs = Inputs::repeated(alloc, right(), count)?;
            Ok(Edit::Replace { at, inputs })
        }
        Change::Delete(at, count) => Ok(Edit::Delete { at, count }),
    }
}

/// Four edits, which make 400 brief frames.
pub static BRIEF_OF_400: [Change; 4] = [
    Change::Load,
    Change::Insert(0, 200),
    Change::Insert(200, 200),
    Change::Delete(0, 0),
];

/// Three edits, which make 72 frames that add up inputs, the last eight of them with the left stick pushed right.
pub static FOLDING_OF_72: [Change; 3] = [
    Change::LoadFolding,
    Change::Insert(0, 64),
    Change::InsertRight(64, 8),
];

/// Makes these edits of a movie.
pub fn make_all<R: Abort>(rt: &R, alloc: Global, movie: &mut Movie, changes: &[Change]) {
    for change in changes {
        make(rt, movie, &expect_ok(rt, edit_of(alloc, *change)));
    }
}

/// An edit's name, its place and how many inputs it has or takes out; nothing for another cartridge.
fn change_of<A: Allocator>(edit: &Edit<A>) -> Option<(&'static str, usize, usize)> {
    match edit {
        Edit::Load(_) => None,
        Edit::Insert { at, inputs } => Some(("insert", *at, inputs.as_slice().len())),
        Edit::Replace { at, inputs } => Some(("replace", *at, inputs.as_slice().len())),
        Edit::Delete { at, count } => Some(("delete", *at, *count)),
    }
}

fn entry_line<A: Allocator>(alloc: Global, entry: &Entry<A>) -> Result<String, AllocError> {
    let (seat, serial) = (entry.seat, entry.serial);
    match change_of(&entry.edit) {
        Some((name, at, count)) => format!(in alloc; "{seat} {serial} {name} {at} {count}\n"),
        None => format!(in alloc; "{seat} {serial} load\n"),
    }
}

/// A history, an entry a line.
pub fn history<A: Allocator, R: Abort>(rt: &R, alloc: Global, journal: &[Entry<A>]) -> String {
    let mut text = String::new(alloc);
    for entry in journal {
        let line = expect_ok(rt, entry_line(alloc, entry));
        expect_ok(rt, text.push_str(line.as_str()));
    }
    text
}

/// A movie's text.
pub fn movie_text<A: Allocator, R: Abort>(rt: &R, alloc: Global, movie: &Movie<A>) -> String {
    let bytes = expect_ok(rt, print_text(alloc, movie));
    let text = expect_ok(rt, str::from_utf8(bytes.as_slice()));
    expect_ok(rt, String::from_str(alloc, text))
}
