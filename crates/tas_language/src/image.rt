//! The image that a line loads.
//!
//! `load` and `load2` are one command, since they make one edit: which of the two words a line has is the image's size.
//! The image is an array of that size, so understanding a line takes no memory.

ghost use Rattle.std.specs.Prelude.{◌≡◌};

use vcs_inputs::{CART_SIZE, SMALL_CART_SIZE};

/// A cartridge's bytes, as a line of a script writes them.
#[derive(Clone, Copy, Debug, PartialEq, Eq)]
pub enum Image {
    /// Those of a cartridge that is no small one.
    Large([u8; CART_SIZE]),
    /// Those of a small cartridge.
    Small([u8; SMALL_CART_SIZE]),
}

impl Image {
    ghost use Rattle.tas_language.specs.Commands.{image_bytes};

    /// The bytes, as many as the cartridge has.
    pub fn bytes(&self) -> &[u8]
        // The bytes of an image of either size are those that it holds.
        // Refused: small_image_without_its_first_byte.
        ensures { result.now ≡ image_bytes self.now }
    {
        match self {
            Image::Large(bytes) => bytes,
            Image::Small(bytes) => bytes,
        }
    }
}
