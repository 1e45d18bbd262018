//! The words of an expression.

use crate::expression::Operator;
use thiserror::Error;

/// A word of an expression.
#[derive(Clone, Copy, Debug, PartialEq, Eq)]
pub(crate) enum Word {
    /// `(`
    Open,
    /// `)`
    Close,
    /// `not`
    Not,
    /// An operator.
    Operator(Operator),
    /// A number.
    Number(u32),
    /// The byte at an address.
    Byte(u8),
    /// The byte at an address as two decimal digits.
    Bcd(u8),
    /// The pair of bytes at an address and the next one.
    Pair(u8),
    /// What is no word of an expression.
    Other,
}

/// What is wanted where words are no expression.
#[derive(Clone, Copy, Debug, PartialEq, Eq, Error)]
pub enum Wanted {
    /// An operand: a number, a byte, a pair, `not` or `(`.
    #[error("operand expected")]
    Operand,
    /// An operator.
    #[error("operator expected")]
    Operator,
    /// `)`
    #[error(") expected")]
    Close,
    /// The end: the words before are an expression that nothing can follow.
    #[error("end expected")]
    End,
    /// An operand without `not` and parentheses: 64 of them stand in one another here.
    #[error("too deep")]
    Depth,
}
