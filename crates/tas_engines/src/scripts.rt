//! Scripts of `tas edit`, and the scripts of changes that `tas diff` writes.
//!
//! A script of `tas edit` has no `load` and no looks: a movie's text names its cartridge, so `load` would make the text
//! of another game, and looks have no output to go to. `copy other` without a second movie isn't understood, as a line
//! of another command isn't; it isn't refused as `place`, since there is no movie to be too short.

ghost use Rattle.std.specs.Prelude.{◌≡◌, ◌++◌, ◌↔◌, Err, Option, IsTrue, IfOk, OnOk, IfSome, IfNone};
ghost use Rattle.std.specs.List.{flat_map};
ghost use Rattle.tas_engines.specs.Scripts.{change_line, fault_at, BringsFrames, IsClear, IsUnderstood, MakesAll, MakesSaid, Means};
ghost use Rattle.tas_language.specs.declared.edit_line.EditLine.{EditLine as Asked};

use crate::remarks::words_of;
use crate::{ChangeError, make_line};
use byte_text::split_once;
use std::alloc::{AllocError, Allocator};
use tas_language::{Change, EditLine, change_line, one_edit_line_per_line, read_edit_line};
use tas_movie::{EditRefusal, Movie};

/// Why a script wasn't carried out to its end. Lines are counted from 1.
#[derive(Clone, Copy, Debug, PartialEq, Eq)]
pub enum ScriptFault {
    /// The line isn't understood, or no newline ends it.
    Line(usize),
    /// The line reaches past the last input.
    Place(usize),
    /// The line would make the movie too long.
    Long(usize),
    /// Memory was refused.
    Memory,
}

/// The fault of a line that isn't made.
fn fault_at(line: usize, error: ChangeError) -> ScriptFault
    ensures { result ≡ fault_at line error }
{
    match error {
        ChangeError::Refused(EditRefusal::Place { .. }) => ScriptFault::Place(line),
        ChangeError::Refused(EditRefusal::Long { .. }) => ScriptFault::Long(line),
        ChangeError::Memory => ScriptFault::Memory,
    }
}

/// Whether a line may be asked for: one that copies from a second movie only where there is one.
fn is_clear<A: Allocator>(other: &Option<Movie<A>>, asked: EditLine) -> bool
    ensures { IsTrue result ↔ IsClear other.now asked }
{
    match asked {
        EditLine::CopyOther { .. } => other.is_some(),
        EditLine::Change(_) | EditLine::Retouch(_) => true,
    }
}

/// What these words ask for; nothing where they aren't understood.
fn read_words<A: Allocator>(words: &[u8], other: &Option<Movie<A>>) -> Option<EditLine>
    ensures some { IfSome result (IsUnderstood other.now words.now) }
    ensures none { IfNone result ((asked : Asked) → IsUnderstood other.now words.now asked → ⊥) }
{
    let asked = read_edit_line(words)?;
    // Called for its law: the line asks for nothing else.
    one_edit_line_per_line();
    if is_clear(other, asked) {
        Some(asked)
    } else {
        None
    }
}

/// What a line of a script, without its newline, asks for: `Some(None)` where it has no words, its remark aside, and `None` where it
/// isn't understood.
fn read_line<A: Allocator>(line: &[u8], other: &Option<Movie<A>>) -> Option<Option<EditLine>>
    ensures some { IfSome result (Means other.now line.now) }
    ensures none { IfNone result ((asked : Option Asked) → Means other.now line.now asked → ⊥) }
{
    let words = words_of(line);
    if words.is_empty() {
        return Some(None);
    }
    Some(Some(read_words(words, other)?))
}

/// Makes what a line asks for, as [`make_line`] does, or nothing.
fn make_said<A: Allocator, B: Allocator, C: Allocator>(
    alloc: C,
    movie: &mut Movie<A>,
    other: &Option<Movie<B>>,
    asked: Option<EditLine>,
) -> Result<(), ChangeError>
    ensures made { MakesSaid other.now movie.old asked result movie.new }
    ensures memory { result ≡ Err ChangeError.Memory → IfSome asked BringsFrames }
{
    match asked {
        Some(asked) => make_line(alloc, movie, other, asked),
        None => Ok(()),
    }
}

/// Makes the lines of a script of `tas edit`, one by one, on a movie beside which there may be a second one. The first
/// line that isn't understood or is refused ends it with its fault, and so does one for which memory is refused (`Memory`);
/// the lines before it are made then. A `#` and all after it is a remark, and a line without words asks for nothing.
pub fn edit_movie<A: Allocator, B: Allocator, C: Allocator + Copy>(
    alloc: C,
    movie: &mut Movie<A>,
    other: &Option<Movie<B>>,
    bytes: &[u8],
) -> Result<(), ScriptFault>
    // A script's lines are all made, in order, up to its first line at fault, whose number is reported, or up to a line
    // that is out of memory, which is allowed and brings frames, possibly none: so a first line that is at fault or
    // deletes is never out of memory. What a line asks for is what its words say: it without its remark, which is the
    // first `#` and all after it, and without the spaces before that; a line without words asks for nothing, and
    // counts. A line `copy other` is understood only beside a second movie.
    // Refused: remark_begins_at_a_line_only, spaces_before_a_remark_stay*, line_without_words_is_unclear*,
    // second_line_is_left_out*, second_line_is_made_first*, refused_line_is_skipped*, fault_reports_the_line_before*,
    // copy_other_is_understood_alone.
    ensures { MakesAll other.now movie.old bytes.now movie.new result }
{
    let mut rest = bytes;
    let mut number = 1;
    while !rest.is_empty() {
        let Some((line, after)) = split_once(rest, b'\n') else {
            return Err(ScriptFault::Line(number));
        };
        let Some(asked) = read_line(line, other) else {
            return Err(ScriptFault::Line(number));
        };
        if let Err(error) = make_said(alloc, movie, other, asked) {
            return Err(fault_at(number, error));
        }
        rest = after;
        number += 1;
    }
    Ok(())
}

/// Appends the line of a change.
fn push_change<A: Allocator + Copy>(
    alloc: A,
    bytes: &mut Vec<u8, A>,
    change: Change,
) -> Result<(), AllocError>
    ensures { OnOk result (bytes.new.items ≡ bytes.old.items ++ change_line change) }
{
    let line = change_line(alloc, change)?;
    bytes.extend_from_slice(line.as_slice())
}

/// The script of some changes, a line each. `AllocError` where memory is refused.
pub fn print_changes<A: Allocator + Copy>(
    alloc: A,
    changes: &[Change],
) -> Result<Vec<u8, A>, AllocError>
    // A script of changes is the definition's text of each, in order.
    // Refused: no_change_is_printed, first_change_is_printed_on_each_line*, lines_are_printed_in_the_wrong_order*.
    ensures { IfOk result (λ bytes. bytes.items ≡ flat_map change_line changes.now) }
{
    let mut bytes = Vec::new(alloc);
    for change in changes {
        push_change(alloc, &mut bytes, *change)?;
    }
    Ok(bytes)
}
