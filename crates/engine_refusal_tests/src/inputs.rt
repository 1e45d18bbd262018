//! What the engines read.

use crate::checks::expect_ok;
use crate::movies::{brief_image, brief_movie, right};
use std::alloc::Global;
use std::process::Abort;
use tas_movie::print_text;
use vcs_machine::Input;

/// The bytes of a cartridge, of the texts of three movies of it, of changes of the first, without and with the second, of names, of a script of edits and
/// looks, and of a conversation that has these lines and others; and none.
#[derive(Drop)]
pub struct Bytes {
    pub cart: Vec<u8>,
    pub old: Vec<u8>,
    /// It differs from the first by a deletion and an insertion.
    pub new: Vec<u8>,
    /// It differs from the first by a replacement.
    pub replaced: Vec<u8>,
    pub changes: Vec<u8>,
    pub changes_with: Vec<u8>,
    pub names: Vec<u8>,
    pub script: Vec<u8>,
    pub talk: Vec<u8>,
    pub none: Vec<u8>,
}

/// Each kind of change.
const CHANGES: &[u8] = b"delete 0 1\ninsert 0 3 R.... ..... .....\nreplace 1 2 .L... ..... .....\n";

/// Three changes, of which one takes frames from a second movie.
const CHANGES_WITH: &[u8] = b"delete 0 1\ncopy other 0 2 1\npress 0 1 ....F ..... .....\n";

/// Names of two bytes.
const NAMES: &[u8] = b"x 80\ny 81\n";

/// Nine lines on a movie, each kind of edit among them.
const SCRIPT: &[u8] =
    b"load 000=A9028500A90085004C00F0 FFC=00F0\ninsert 0 3 R.... ..... .....\nreplace 1 1 .L... ..... .....\nlen\ninput 1\nshot 2\ndelete 0 1\nwork 1\nlen\n";

/// The same lines, and those that a script doesn't have.
const TALK: &[u8] =
    b"load 000=A9028500A90085004C00F0 FFC=00F0\ninsert 0 3 R.... ..... .....\nreplace 1 1 .L... ..... .....\nlen\ninput 1\nshot 2\ndelete 0 1\nwork 1\nlen\npicture 1\nmovie\nstates\nwhat\n";

/// The text of a movie with this many frames of one input.
fn text_of<R: Abort>(rt: &R, alloc: Global, input: Input, count: usize) -> Vec<u8> {
    let movie = brief_movie(rt, alloc, input, count);
    expect_ok(rt, print_text(alloc, &movie))
}

fn copy_of<R: Abort>(rt: &R, alloc: Global, bytes: &[u8]) -> Vec<u8> {
    expect_ok(rt, Vec::from_slice(alloc, bytes))
}

/// All inputs.
pub fn make_inputs<R: Abort>(rt: &R, alloc: Global) -> Bytes {
    Bytes {
        old: text_of(rt, alloc, Input::none(), 3),
        new: text_of(rt, alloc, right(), 2),
        replaced: text_of(rt, alloc, right(), 3),
        cart: copy_of(rt, alloc, &brief_image()),
        changes: copy_of(rt, alloc, CHANGES),
        changes_with: copy_of(rt, alloc, CHANGES_WITH),
        names: copy_of(rt, alloc, NAMES),
        script: copy_of(rt, alloc, SCRIPT),
        talk: copy_of(rt, alloc, TALK),
        none: Vec::new(alloc),
    }
}
