//! Edits that depend on the movie in which they are made.

ghost use Rattle.std.specs.Prelude.{◌≡◌, ◌+◌, length, take, replicate};
ghost use Rattle.tas_movie.specs.declared.edit.Edit.TheVariants.{Insert, Replace};
ghost use Rattle.tas_movie.specs.Edit.{place_refusal, insert_refusal};

use std::alloc::{AllocError, Global};
use tas_desk::Plan;
use tas_movie::{Edit, EditRefusal, Inputs, Movie, check_insertion, check_place};
use vcs_machine::Input;

/// The movie's first input, written over that of a frame.
#[derive(Clone, Copy)]
pub struct FirstOver {
    /// The frame, counted from 0.
    pub place: usize,
}

impl Plan<Global> for FirstOver {
    ghost refusal_in = { λ plan movie.
        place_refusal (length movie.inputs) plan.place (plan.place + 1) };

    ghost edit_in = { λ plan movie. Replace plan.place (take 1 movie.inputs) };

    fn check(&self, len: usize) -> Result<(), EditRefusal> {
        check_place(len, self.place, 1)
    }

    fn edit(&self, alloc: Global, movie: &Movie) -> Result<Edit, AllocError> {
        let first = Vec::from_slice(alloc, &movie.inputs()[..1])?;
        Ok(Edit::Replace {
            at: self.place,
            inputs: Inputs::from_vec(first),
        })
    }
}

/// This many equal inputs, after the movie's last one.
#[derive(Clone, Copy)]
pub struct Append {
    /// Each of them.
    pub input: Input,
    /// How many they are.
    pub count: usize,
}

impl Plan<Global> for Append {
    ghost refusal_in = { λ plan movie.
        insert_refusal (length movie.inputs) (length movie.inputs) plan.count };

    ghost edit_in = { λ plan movie.
        Insert (length movie.inputs) (replicate plan.count plan.input) };

    fn check(&self, len: usize) -> Result<(), EditRefusal> {
        check_insertion(len, len, self.count)
    }

    fn edit(&self, alloc: Global, movie: &Movie) -> Result<Edit, AllocError> {
        Ok(Edit::Insert {
            at: movie.len(),
            inputs: Inputs::repeated(alloc, self.input, self.count)?,
        })
    }
}
