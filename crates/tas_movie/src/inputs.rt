//! A list of inputs that an edit holds.

ghost use Rattle.std.specs.Prelude.{◌≡◌, IfOk, replicate};

use std::alloc::{AllocError, Allocator, Global};
use std::marker::Model;
use vcs_inputs::Input;

/// A list of inputs, one for each frame. It is made from a `Vec` and gives it back, without
/// memory.
#[derive(Drop)]
pub struct Inputs<A: Allocator = Global> {
    list: Vec<Input, A>,
}

impl<A: Allocator> Model for Inputs<A> {
    ghost use Rattle.std.specs.Prelude.{List};
    ghost use Rattle.vcs_inputs.specs.declared.input.Input.{Input};

    ghost Value = { List Input };

    ghost view = { λ a. a.list.items };
}

impl<A: Allocator> Inputs<A> {
    /// The inputs of this list, in its order.
    pub fn from_vec(list: Vec<Input, A>) -> Inputs<A>
        // A list of inputs is made of a `Vec` and gives it back.
        // Refused: list_taken_shortened.
        ensures { result ≡ list.items }
    {
        Self { list }
    }

    /// This many equal inputs. `AllocError` where memory is refused.
    pub fn repeated(alloc: A, input: Input, count: usize) -> Result<Inputs<A>, AllocError>
        // A list of equal inputs has the length that was asked for.
        // Refused: half_of_the_inputs_are_repeated.
        ensures { IfOk result (λ inputs. inputs ≡ replicate count input) }
    {
        let list = vec![in alloc; input; count]?;
        Ok(Inputs::from_vec(list))
    }

    /// The list that holds the inputs.
    pub fn into_vec(self) -> Vec<Input, A>
        // Refused: list_given_back_shortened.
        ensures { result.items ≡ self }
    {
        let Inputs { list } = self;
        list
    }

    /// The inputs, in order.
    pub fn as_slice(&self) -> &[Input]
        // Refused: slice_without_the_first_input.
        ensures { result.now ≡ self.now }
    {
        self.list.as_slice()
    }

    /// An equal list. `AllocError` where memory is refused.
    pub fn copy<B: Allocator>(&self, alloc: B) -> Result<Inputs<B>, AllocError>
        // Refused: inputs_copied_without_the_first.
        ensures { IfOk result (λ inputs. inputs ≡ self.now) }
    {
        let list = Vec::from_slice(alloc, self.as_slice())?;
        Ok(Inputs::from_vec(list))
    }
}
