//! Changes that depend on what the movie has, and their lines.
//!
//! A line that depends on the movie's frames is a type of its own and no variant of `Change`: a difference has changes
//! alone, and `tas script` keeps its language.

ghost use Rattle.std.specs.Prelude.{IfSome, IfNone};
ghost use Rattle.tas_language.specs.declared.retouch.Retouch.{Retouch as Asked};
ghost use Rattle.tas_language.specs.Retouches.{IsRetouchLine};

use crate::words::{after_prefix, place_count_frame, triple};
use vcs_inputs::Input;

/// A change that depends on the movie's frames, as one line says it.
#[derive(Clone, Copy, Debug, PartialEq, Eq)]
pub enum Retouch {
    /// `press PLACE COUNT FRAME`: the switches of an input are pressed in some frames, whatever else is pressed there.
    Press {
        /// The first frame, counted from 0.
        at: usize,
        /// How many frames.
        count: usize,
        /// The switches.
        input: Input,
    },
    /// `release PLACE COUNT FRAME`: the switches of an input are released in some frames; all others stay.
    Release {
        /// The first frame, counted from 0.
        at: usize,
        /// How many frames.
        count: usize,
        /// The switches.
        input: Input,
    },
    /// `repeat PLACE COUNT TIMES`: some frames are put in again, directly after themselves.
    Repeat {
        /// The first frame, counted from 0.
        at: usize,
        /// How many frames.
        count: usize,
        /// How many times more.
        times: usize,
    },
    /// `copy FROM COUNT PLACE`: a copy of some frames is put in.
    Copy {
        /// The first frame, counted from 0.
        from: usize,
        /// How many frames.
        count: usize,
        /// The place at which the copy is put in.
        at: usize,
    },
}

/// The retouch that a line, without its newline, says; nothing where it says none. Takes no memory.
pub fn read_retouch(line: &[u8]) -> Option<Retouch>
    // A line that depends on the movie's frames, and a line of `tas edit`, are understood exactly where they are the
    // text of what they say.
    // Refused: press_line_is_read_as_a_release, copy_line_has_its_places_swapped.
    ensures some { IfSome result (IsRetouchLine line.now) }
    ensures none { IfNone result ((retouch : Asked) → IsRetouchLine line.now retouch → ⊥) }
{
    if let Some(rest) = after_prefix(line, b"press ") {
        let (at, count, input) = place_count_frame(rest)?;
        return Some(Retouch::Press { at, count, input });
    }
    if let Some(rest) = after_prefix(line, b"release ") {
        let (at, count, input) = place_count_frame(rest)?;
        return Some(Retouch::Release { at, count, input });
    }
    if let Some(rest) = after_prefix(line, b"repeat ") {
        let (at, count, times) = triple(rest)?;
        return Some(Retouch::Repeat { at, count, times });
    }
    let rest = after_prefix(line, b"copy ")?;
    let (from, count, at) = triple(rest)?;
    Some(Retouch::Copy { from, count, at })
}
