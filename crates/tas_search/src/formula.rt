//! Expressions whose numbers fit in 64 bits.

ghost use Rattle.std.specs.Prelude.{◌≡◌, ◌^◌, ◌<◌, ◌≤◌, MatchOption};
ghost use Rattle.tas_search.specs.Expression.{weight};
ghost use Rattle.tas_search.specs.Grammar.{tree_of};

use crate::expression::Expression;
use crate::measure::Measure;
use std::alloc::{Allocator, Global};
use std::marker::Model;

/// An expression whose weight is below 2 to the power of 63. So neither its number nor that of any part of it
/// overflows an `i64`, whatever is in RAM.
#[derive(Drop)]
pub struct Formula<A: Allocator = Global> {
    expression: Expression<A>,
    ghost fits: { weight (tree_of expression) < 2 ^ 63 },
}

// Contracts see a formula as the tree of its expression, whichever allocator its memory is from.
impl<A: Allocator> Model for Formula<A> {
    ghost use Rattle.std.specs.Prelude.{List};
    ghost use Rattle.std.specs.Coded.{code_by, codes};
    ghost use Rattle.tas_search.specs.declared.word.Word.{Word};
    ghost use Rattle.tas_search.specs.Grammar.{Tree, tree_of};
    ghost use Rattle.tas_search.specs.Inside.TreeCode.{stored, made, made_again};

    ghost Value = { Tree };

    ghost coded = { code_by (List Word) (Prim.hlevel codes) stored made made_again };

    ghost view = { λ f. tree_of f.expression };
}

impl<A: Allocator> Formula<A> {
    /// The expression as a formula; `None` where its weight, an upper bound of all its values, is 2 to the power of 63
    /// or more. See [`Expression::weight`].
    pub fn new(expression: Expression<A>) -> Option<Self>
        // Refused: formula_of_a_number_is_refused.
        ensures { MatchOption result (2 ^ 63 ≤ weight (tree_of expression))
            (λ formula. formula ≡ tree_of expression) }
    {
        if expression.weight().is_some() {
            Some(Formula { expression })
        } else {
            None
        }
    }
}

impl<A: Allocator> Measure for Formula<A> {
    ghost use Rattle.tas_search.specs.Expression.{value_of};

    ghost value = { λ f ram. value_of f ram };

    fn value(&self, ram: &[u8; 128]) -> i64 {
        self.expression.value(ram)
    }
}
