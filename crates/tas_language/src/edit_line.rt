//! A line of `tas edit`.

ghost use Rattle.std.specs.Prelude.{IfSome, IfNone};
ghost use Rattle.tas_language.specs.declared.edit_line.EditLine.{EditLine as Asked};
ghost use Rattle.tas_language.specs.Retouches.{IsEditLine};

use crate::words::{after_prefix, triple};
use crate::{Change, Retouch, read_change, read_retouch};

/// A line of `tas edit`.
#[derive(Clone, Copy, Debug, PartialEq, Eq)]
pub enum EditLine {
    /// A line of a script that changes the inputs.
    Change(Change),
    /// A change that depends on the movie's frames.
    Retouch(Retouch),
    /// `copy other FROM COUNT PLACE`: a copy of some frames of a second movie is put in.
    CopyOther {
        /// The first frame in the second movie, counted from 0.
        from: usize,
        /// How many frames.
        count: usize,
        /// The place at which the copy is put in.
        at: usize,
    },
}

/// What a line of `tas edit`, without its newline, says; nothing where it isn't understood. Takes no memory.
pub fn read_edit_line(line: &[u8]) -> Option<EditLine>
    // Refused: copy_other_line_is_read_as_a_copy.
    ensures some { IfSome result (IsEditLine line.now) }
    ensures none { IfNone result ((said : Asked) → IsEditLine line.now said → ⊥) }
{
    if let Some(change) = read_change(line) {
        return Some(EditLine::Change(change));
    }
    if let Some(retouch) = read_retouch(line) {
        return Some(EditLine::Retouch(retouch));
    }
    let rest = after_prefix(line, b"copy other ")?;
    let (from, count, at) = triple(rest)?;
    Some(EditLine::CopyOther { from, count, at })
}
