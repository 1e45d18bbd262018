//! An edit that depends on the movie in which it is made.

ghost use Rattle.std.specs.Prelude.{length, replicate};
ghost use Rattle.tas_movie.specs.declared.edit.Edit.TheVariants.{Insert};
ghost use Rattle.tas_movie.specs.Edit.{insert_refusal};

use std::alloc::{AllocError, Allocator};
use tas_desk::Plan;
use tas_movie::{Edit, EditRefusal, Inputs, Movie, check_insertion};
use vcs_machine::Input;

/// This many equal inputs, after the movie's last one.
#[derive(Clone, Copy)]
pub struct Append {
    /// Each of them.
    pub input: Input,
    /// How many they are.
    pub count: usize,
}

impl<A: Allocator> Plan<A> for Append {
    ghost refusal_in = { λ plan movie.
        insert_refusal (length movie.inputs) (length movie.inputs) plan.count };

    ghost edit_in = { λ plan movie.
        Insert (length movie.inputs) (replicate plan.count plan.input) };

    fn check(&self, len: usize) -> Result<(), EditRefusal> {
        check_insertion(len, len, self.count)
    }

    fn edit(&self, alloc: A, movie: &Movie<A>) -> Result<Edit<A>, AllocError> {
        Ok(Edit::Insert {
            at: movie.len(),
            inputs: Inputs::repeated(alloc, self.input, self.count)?,
        })
    }
}
