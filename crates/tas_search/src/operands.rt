//! Reading expressions from words.

ghost use Rattle.std.specs.Prelude.{◌≡◌, ◌≤◌, ◌∷◌, ◌++◌, IfOk, IfErr, IfSome, IfNone};
ghost use Rattle.tas_search.specs.declared.word.Word.TheVariants as word;
ghost use Rattle.tas_search.specs.declared.operands.ReadFault.TheVariants.{Memory as Refused};
ghost use Rattle.tas_search.specs.Grammar.{tree_of, negated, joined, words_of, depth, Spells, IsFault};
ghost use Rattle.tas_search.specs.Inside.Operands.{NoOperand, NoOperator, NoClose, IsReadFault};

use crate::expression::{Expression, Operator};
use crate::word::{Wanted, Word};
use std::alloc::{AllocError, AllocFailed, Allocator};

/// How deep parentheses and `not` may stand in one another: an expression is read, evaluated and dropped by recursion.
pub(crate) const MOST_DEPTH: usize = 64;

/// Why no expression was read from words.
#[derive(Clone, Copy, Debug, PartialEq, Eq)]
pub(crate) enum ReadFault {
    /// Out of memory.
    Memory,
    /// The words are no expression: how many are left from the one at fault on, and what was wanted there.
    At(usize, Wanted),
}

impl From<AllocError> for ReadFault {
    ghost from_gives = { λ _ fault. fault ≡ Refused };

    fn from(_error: AllocError) -> ReadFault {
        ReadFault::Memory
    }
}

impl<T: Drop> From<AllocFailed<T>> for ReadFault {
    ghost from_gives = { λ _ fault. fault ≡ Refused };

    fn from(_error: AllocFailed<T>) -> ReadFault {
        ReadFault::Memory
    }
}

/// The operator with which the words begin, and the words after it.
fn split_operator(words: &[Word]) -> Option<(Operator, &[Word])>
    ensures some { IfSome result (λ r. words.now ≡ word.Operator r.0 ∷ r.1.now) }
    ensures none { IfNone result (NoOperator words.now) }
{
    let (first, rest) = words.split_first()?;
    match *first {
        Word::Operator(operator) => Some((operator, rest)),
        _ => None,
    }
}

/// The words after the closing parenthesis with which they begin.
fn after_close(words: &[Word]) -> Option<&[Word]>
    ensures some { IfSome result (λ rest. words.now ≡ word.Close ∷ rest.now) }
    ensures none { IfNone result (NoClose words.now) }
{
    let (first, rest) = words.split_first()?;
    match *first {
        Word::Close => Some(rest),
        _ => None,
    }
}

/// The negation of an expression.
fn negate<A: Allocator>(alloc: A, e: Expression<A>) -> Result<Expression<A>, AllocError>
    ensures { IfOk result (λ r. tree_of r ≡ negated (tree_of e)) }
{
    let boxed = Box::new(alloc, e)?;
    Ok(Expression::Not(boxed))
}

/// Two expressions, joined by an operator.
fn join<A: Allocator + Copy>(
    alloc: A,
    operator: Operator,
    a: Expression<A>,
    b: Expression<A>,
) -> Result<Expression<A>, AllocError>
    ensures { IfOk result (λ r. tree_of r ≡ joined operator (tree_of a) (tree_of b)) }
{
    let left = Box::new(alloc, a)?;
    let right = Box::new(alloc, b)?;
    Ok(Expression::Both(operator, left, right))
}

/// The operand with which the words begin, at most this many levels deep, and the words after it.
fn operand<A: Allocator + Copy>(
    alloc: A,
    words: &[Word],
    levels: usize,
) -> Result<(Expression<A>, &[Word]), ReadFault>
    ensures read { IfOk result (λ r. words.now ≡ words_of (tree_of r.0) ++ r.1.now) }
    ensures within { IfOk result (λ r. depth (tree_of r.0) ≤ levels) }
    ensures fault { IfErr result (IsReadFault (NoOperand levels words.now)) }
{
    let Some((first, rest)) = words.split_first() else {
        return Err(ReadFault::At(0, Wanted::Operand));
    };
    match *first {
        Word::Number(n) => Ok((Expression::Number(n), rest)),
        Word::Byte(at) => Ok((Expression::Byte(at), rest)),
        Word::Bcd(at) => Ok((Expression::Bcd(at), rest)),
        Word::Pair(at) => Ok((Expression::Pair(at), rest)),
        Word::Not => {
            if levels == 0 {
                return Err(ReadFault::At(words.len(), Wanted::Depth));
            }
            let (e, after) = operand(alloc, rest, levels - 1)?;
            Ok((negate(alloc, e)?, after))
        }
        Word::Open => {
            if levels == 0 {
                return Err(ReadFault::At(words.len(), Wanted::Depth));
            }
            let (a, more) = operand(alloc, rest, levels - 1)?;
            let Some((operator, right)) = split_operator(more) else {
                return Err(ReadFault::At(more.len(), Wanted::Operator));
            };
            let (b, last) = operand(alloc, right, levels - 1)?;
            let Some(after) = after_close(last) else {
                return Err(ReadFault::At(last.len(), Wanted::Close));
            };
            Ok((join(alloc, operator, a, b)?, after))
        }
        Word::Close => Err(ReadFault::At(words.len(), Wanted::Operand)),
        Word::Operator(_) => Err(ReadFault::At(words.len(), Wanted::Operand)),
        Word::Other => Err(ReadFault::At(words.len(), Wanted::Operand)),
    }
}

/// Reads an expression from all of these words: an operand, or two with an operator between them.
pub(crate) fn read_expression<A: Allocator + Copy>(
    alloc: A,
    words: &[Word],
) -> Result<Expression<A>, ReadFault>
    // Of words exactly those are read as an expression that the grammar has for one, and the expression is the one that
    // they say. Else the first word is reported with which no expression begins any more, or the end where the words
    // end too early, with what could stand there.
    // Refused: closing_parenthesis_is_wanted_for_an_operand, missing_parenthesis_is_reported_as_an_end,
    // operands_are_swapped, operator_is_wanted_after_a_whole_expression, end_is_expected_for_an_operator,
    // words_after_an_expression_are_left_out, depth_limit_is_63.
    ensures read { IfOk result (λ e. Spells words.now (tree_of e)) }
    ensures fault { IfErr result (IsReadFault (IsFault words.now)) }
{
    let (a, rest) = operand(alloc, words, MOST_DEPTH)?;
    if rest.is_empty() {
        return Ok(a);
    }
    let Some((operator, right)) = split_operator(rest) else {
        return Err(ReadFault::At(rest.len(), Wanted::Operator));
    };
    let (b, last) = operand(alloc, right, MOST_DEPTH)?;
    if !last.is_empty() {
        return Err(ReadFault::At(last.len(), Wanted::End));
    }
    Ok(join(alloc, operator, a, b)?)
}
