//! Texts of goals.
//!
//! Each further operator has its parentheses, and no operator binds closer than another: so no reader has to know an order
//! of operators, and the word at fault is the first that can't continue any expression. `not` is no operator and takes the
//! one operand after it: `not x == 3` compares `not x`. The outermost parentheses may be left out, since most goals are a
//! single comparison. At most 64 parentheses and `not` are nested, as an expression is read, evaluated and dropped by
//! recursion.
//!
//! A word of the grammar has its meaning by itself, whatever stands beside it: the address is a part of the word
//! (`bcd:82`), since `82` is the number 82 elsewhere. A parenthesis is a word, too, as in `find` and `test`.

ghost use Rattle.std.specs.Prelude.{◌≡◌, ◌∷◌, ◌++◌, List, ℕ, IfOk, IfErr, IfSome, IfNone};
ghost use Rattle.tas_engines.specs.Names.{names_of};
ghost use Rattle.tas_search.specs.GoalText.{IsGoalText, IsGoalFault, kind_word};
ghost use Rattle.tas_search.specs.declared.goal.GoalKind.{GoalKind as Kind};
ghost use Rattle.tas_search.specs.declared.goal.GoalFault.TheVariants.{Memory as Refused};

use crate::formula::Formula;
use crate::operands::{ReadFault, read_expression};
use crate::reading_words::words_in;
use crate::word::Wanted;
use byte_text::split_once;
use std::alloc::{AllocError, Allocator, Global};
use tas_engines::Name;
use thiserror::Error;

/// What a goal asks for.
#[derive(Clone, Copy, Debug, PartialEq, Eq)]
pub enum GoalKind {
    /// `reach`: the least number of choices after which the expression isn't 0.
    Reach,
    /// `most`: the greatest value after exactly as many choices as the search is given.
    Most,
    /// `least`: the least value after exactly as many choices as the search is given.
    Least,
}

/// A goal: what is asked for, and of which expression.
#[derive(Drop)]
pub struct Goal<A: Allocator = Global> {
    /// What is asked for.
    pub kind: GoalKind,
    /// The expression.
    pub formula: Formula<A>,
}

/// Why a text is no goal.
#[derive(Clone, Copy, Debug, PartialEq, Eq, Error)]
pub enum GoalFault {
    /// Out of memory.
    #[error("out of memory")]
    Memory,
    /// The text begins with none of `reach`, `most` and `least` and a space.
    #[error("goal word 1: reach, most or least expected")]
    Kind,
    /// The words are no expression.
    #[error("goal word {word}: {wanted}")]
    Word {
        /// The first word at fault, counted from 1, of which `reach` is the first; one past the last where words are missing.
        word: usize,
        /// What is wanted there.
        wanted: Wanted,
    },
    /// The expression is too large: its weight is 2 to the power of 63 or more.
    #[error("goal: too large")]
    Great,
}

impl From<AllocError> for GoalFault {
    ghost from_gives = { λ _ fault. fault ≡ Refused };

    fn from(_error: AllocError) -> GoalFault {
        GoalFault::Memory
    }
}

/// What a goal asks for by its first word, and the text after it.
fn split_kind(text: &[u8]) -> Option<(GoalKind, &[u8])>
    ensures some { IfSome result (λ r. text.now ≡ kind_word r.0 ++ 32 ∷ r.1.now) }
    ensures none { IfNone result
        ((kind : Kind) (said : List ℕ) → text.now ≡ kind_word kind ++ 32 ∷ said → ⊥) }
{
    let (first, said) = split_once(text, b' ')?;
    if first == b"reach".as_slice() {
        return Some((GoalKind::Reach, said));
    }
    if first == b"most".as_slice() {
        return Some((GoalKind::Most, said));
    }
    if first == b"least".as_slice() {
        return Some((GoalKind::Least, said));
    }
    None
}

/// Reads the text of a goal, with these names.
pub fn read_goal<A: Allocator + Copy, N: Allocator>(
    alloc: A,
    names: &[Name<N>],
    text: &[u8],
) -> Result<Goal<A>, GoalFault>
    // What is read as a goal is a goal's text, and the goal is what it says. A text is reported by `Kind` where it
    // begins with no goal's word, by the word at fault where no expression follows, and by `Great` where it is that of
    // an expression whose weight is at the limit or above. `Memory` says nothing of the text.
    // Refused: bcd_word_is_a_byte, at_most_has_its_sign_last,
    // greatest_number_is_no_number, last_word_is_the_whole_text,
    // goal_fault_names_the_word_before, goal_fault_always_expects_the_end, most_asks_for_the_least,
    // great_goal_is_reported_as_its_kind.
    ensures read { IfOk result
        (λ goal. IsGoalText (names_of names.now) text.now goal.kind goal.formula) }
    ensures fault { IfErr result (IsGoalFault (names_of names.now) text.now) }
{
    let Some((kind, said)) = split_kind(text) else {
        return Err(GoalFault::Kind);
    };
    let words = words_in(alloc, names, said)?;
    match read_expression(alloc, words.as_slice()) {
        Err(ReadFault::Memory) => Err(GoalFault::Memory),
        Err(ReadFault::At(left, wanted)) => Err(GoalFault::Word {
            word: words.len() - left + 2,
            wanted,
        }),
        Ok(expression) => match Formula::new(expression) {
            Some(formula) => Ok(Goal { kind, formula }),
            None => Err(GoalFault::Great),
        },
    }
}
