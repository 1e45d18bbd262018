//! Expressions over RAM.
//!
//! Values have 64 bits, and an expression whose weight, an upper bound of its values, is 2 to the power of 63 or more
//! is refused beforehand: some that never overflow are, too, and none overflows during a search. Every number but 0
//! counts as true, and a comparison is 1 or 0: so the sum of some conditions is an expression, too.

ghost use Rattle.std.specs.Prelude.{◌≡◌, ◌^◌, ◌<◌, ◌≤◌, unsigned_abs, FitsSigned, MatchOption};
ghost use mir.Syntax.{w64};
ghost use Rattle.tas_search.specs.Expression.{applied, bcd, byte_at, joined_weight, truth, value_of, weight};
ghost use Rattle.tas_search.specs.Goal.{is_true};
ghost use Rattle.tas_search.specs.Grammar.{tree_of};

use std::alloc::{Allocator, Global};

/// An operator of two numbers. A comparison is 1 where it is true, and else 0, and so are `Or` and `And`, which take
/// every number but 0 as true.
#[derive(Clone, Copy, Debug, PartialEq, Eq)]
pub enum Operator {
    /// `or`
    Or,
    /// `and`
    And,
    /// `==`
    Equal,
    /// `!=`
    Unequal,
    /// `<`
    Less,
    /// `<=`
    AtMost,
    /// `>`
    Greater,
    /// `>=`
    AtLeast,
    /// `+`
    Plus,
    /// `-`
    Minus,
    /// `*`
    Times,
}

/// An expression over the 128 bytes of RAM. An address is one of 80 to FF; of others the low seven bits count.
/// Nothing limits its depth, and [`value`](Expression::value), [`weight`](Expression::weight) and its drop recurse: a
/// caller that builds one from text must limit it.
#[derive(Drop)]
pub enum Expression<A: Allocator = Global> {
    /// A number.
    Number(u32),
    /// The byte at an address.
    Byte(u8),
    /// The byte at an address as two decimal digits, the high half first.
    Bcd(u8),
    /// The byte at an address, and 256 times the one at the next address. The next one of FF is 80.
    Pair(u8),
    /// 1 where a number is 0, and else 0.
    Not(Box<Expression<A>, A>),
    /// An operator and its two operands, the left one first.
    Both(Operator, Box<Expression<A>, A>, Box<Expression<A>, A>),
}

/// The byte at an address.
fn byte_at(ram: &[u8; 128], address: u8) -> u8
    ensures { result ≡ byte_at ram.now address }
{
    ram[(address % 128) as usize]
}

/// 1 for true and 0 for false.
fn truth(holds: bool) -> i64
    ensures { result ≡ truth holds }
{
    if holds { 1 } else { 0 }
}

/// The two decimal digits that a byte has, the high half first, as a number.
fn bcd(byte: u8) -> i64
    ensures { result ≡ bcd byte }
{
    ((byte / 16) as i64) * 10 + (byte % 16) as i64
}

/// The operator's number of two others, where it fits.
fn apply(operator: Operator, a: i64, b: i64) -> i64
    requires { FitsSigned w64 (applied operator a b) }
    ensures { result ≡ applied operator a b }
{
    match operator {
        Operator::Or => truth(a != 0 || b != 0),
        Operator::And => truth(a != 0 && b != 0),
        Operator::Equal => truth(a == b),
        Operator::Unequal => truth(a != b),
        Operator::Less => truth(a < b),
        Operator::AtMost => truth(a <= b),
        Operator::Greater => truth(a > b),
        Operator::AtLeast => truth(a >= b),
        Operator::Plus => a + b,
        Operator::Minus => a - b,
        Operator::Times => a * b,
    }
}

/// A weight below the limit, which is 2 to the power of 63.
fn below_limit(weight: u64) -> Option<u64>
    ensures { MatchOption result (2 ^ 63 ≤ weight) (λ n. (n ≡ weight) × (n < 2 ^ 63)) }
{
    if weight < 1 << 63 { Some(weight) } else { None }
}

/// The weight of an operator with operands of these weights, where it is below the limit.
fn joined_weight(operator: Operator, a: u64, b: u64) -> Option<u64>
    requires a { a < 2 ^ 63 }
    requires b { b < 2 ^ 63 }
    ensures { MatchOption result (2 ^ 63 ≤ joined_weight operator a b)
        (λ n. (n ≡ joined_weight operator a b) × (n < 2 ^ 63)) }
{
    match operator {
        Operator::Times => match a.checked_mul(b) {
            Some(product) => below_limit(product),
            None => None,
        },
        _ => below_limit(a + b),
    }
}

impl<A: Allocator> Expression<A> {
    /// Called for its law: every expression has a weight of 1 or more.
    fn weigh_something(&self)
        ensures { 1 ≤ weight (tree_of self.now) }
    {}

    /// The number that the expression makes of RAM. Its weight must be below 2 to the power of 63, so that nothing
    /// overflows; a [`Formula`](crate::Formula) has such a weight.
    pub fn value(&self, ram: &[u8; 128]) -> i64
        requires { weight (tree_of self.now) < 2 ^ 63 }
        // What an expression makes of RAM is its meaning, a whole number without a limit, where its weight is below 2
        // to the power of 63. A formula is an expression of such a weight, and there is none of any other.
        // Refused: bcd_has_sixteen_to_a_digit, at_most_is_less, pair_has_its_high_byte_first.
        ensures value { result ≡ value_of (tree_of self.now) ram.now }
        ensures below { unsigned_abs result < weight (tree_of self.now) }
    {
        match self {
            Expression::Number(n) => i64::from(*n),
            Expression::Byte(at) => i64::from(byte_at(ram, *at)),
            Expression::Bcd(at) => bcd(byte_at(ram, *at)),
            Expression::Pair(at) => {
                let low = byte_at(ram, *at);
                let high = byte_at(ram, at.wrapping_add(1));
                i64::from(low) + 256 * i64::from(high)
            }
            Expression::Not(e) => truth(e.value(ram) == 0),
            Expression::Both(operator, a, b) => {
                b.weigh_something();
                apply(*operator, a.value(ram), b.value(ram))
            }
        }
    }

    /// The weight, an upper bound: it is greater than the absolute value of any number that the expression or a part of
    /// it makes, whatever is in RAM. `None` where it is 2 to the power of 63 or more. That of a product is the product
    /// of the operands' weights, that of any other operator their sum, also of a comparison.
    pub fn weight(&self) -> Option<u64>
        // The weight of an expression is the definition's, or at least 2 to the power of 63 where there is none.
        // Refused: weight_of_a_product_is_a_sum.
        ensures { MatchOption result (2 ^ 63 ≤ weight (tree_of self.now))
            (λ n. (n ≡ weight (tree_of self.now)) × (n < 2 ^ 63)) }
    {
        match self {
            Expression::Number(n) => Some(u64::from(*n) + 1),
            Expression::Byte(_) | Expression::Bcd(_) => Some(256),
            Expression::Pair(_) => Some(65536),
            Expression::Not(e) => below_limit(e.weight()? + 1),
            Expression::Both(operator, a, b) => joined_weight(*operator, a.weight()?, b.weight()?),
        }
    }
}
