//! Edits of a movie, and why one is refused.
//!
//! `Edit::copy` keeps the allocator's type: two edits of different allocators have different types in a clause, and `≡`
//! speaks of one type.

ghost use Rattle.std.specs.Prelude.{◌≡◌, IfOk};

use crate::Inputs;
use std::alloc::{AllocError, Allocator, Global};
use thiserror::Error;
use vcs_inputs::Cart;

/// A change of a movie.
#[derive(Drop)]
pub enum Edit<A: Allocator = Global> {
    /// Another cartridge; the inputs stay.
    Load(Cart<A>),
    /// The inputs are put before the input at the place `at`, or after the last one where
    /// `at` is the movie's length.
    Insert {
        /// A place in the movie's inputs, counted from 0.
        at: usize,
        /// The further inputs.
        inputs: Inputs<A>,
    },
    /// The inputs are written over as many from the place `at` on.
    Replace {
        /// A place in the movie's inputs, counted from 0.
        at: usize,
        /// The inputs that are written.
        inputs: Inputs<A>,
    },
    /// The inputs from the place `at` on are taken out.
    Delete {
        /// A place in the movie's inputs, counted from 0.
        at: usize,
        /// How many inputs are taken out.
        count: usize,
    },
}

/// Why an edit is refused.
#[derive(Clone, Copy, Debug, PartialEq, Eq, Error)]
pub enum EditRefusal {
    /// The edit reaches past the movie's last input.
    #[error("place {at} of {len}")]
    Place {
        /// The edit's place in the movie's inputs.
        at: usize,
        /// How many inputs the movie has.
        len: usize,
    },
    /// The movie would have more than `MAX_FRAMES` inputs.
    #[error("too long at {len}")]
    Long {
        /// How many inputs the movie has.
        len: usize,
    },
}

impl<A: Allocator> Edit<A> {
    ghost use Rattle.tas_movie.specs.Edit.{edited_place};

    /// An equal edit, on an allocator of the same type. `AllocError` where memory is refused.
    pub fn copy(&self, alloc: A) -> Result<Edit<A>, AllocError>
        // Refused: deletion_copied_with_one_less.
        ensures { IfOk result (λ edit. edit ≡ self.now) }
    {
        match self {
            Edit::Load(cart) => Ok(Edit::Load(cart.copy(alloc)?)),
            Edit::Insert { at, inputs } => Ok(Edit::Insert {
                at: *at,
                inputs: inputs.copy(alloc)?,
            }),
            Edit::Replace { at, inputs } => Ok(Edit::Replace {
                at: *at,
                inputs: inputs.copy(alloc)?,
            }),
            Edit::Delete { at, count } => Ok(Edit::Delete {
                at: *at,
                count: *count,
            }),
        }
    }

    /// The edited place: the inputs before it stay as they are. For another cartridge it is 0.
    pub fn place(&self) -> usize
        // Refused: place_of_delete_is_its_count.
        ensures { result ≡ edited_place self.now }
    {
        match self {
            Edit::Load(_) => 0,
            Edit::Insert { at, .. } | Edit::Replace { at, .. } | Edit::Delete { at, .. } => *at,
        }
    }
}
