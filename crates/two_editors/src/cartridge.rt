//! A cartridge of 4,096 bytes whose picture has a playfield.

use std::alloc::Global;
use vcs_machine::{Cart, CartError};

/// The program at its first byte: it sets a playfield and its colour, and then jumps to itself for ever.
static PROGRAM: [u8; 11] = [
    0xA9, 0x10, // LDA #$10
    0x85, 0x0D, // STA PF0
    0xA9, 0x1E, // LDA #$1E
    0x85, 0x08, // STA COLUPF
    0x4C, 0x08, 0xF0, // JMP $F008
];

/// Where the address of the first instruction stands: F000, low byte first.
const RESET_VECTOR: usize = 0xFFC;

/// The cartridge. `Memory` where memory is refused.
pub fn playfield_cart(alloc: Global) -> Result<Cart, CartError> {
    let mut image = [0u8; 4096];
    for (place, byte) in PROGRAM.iter().enumerate() {
        image[place] = *byte;
    }
    image[RESET_VECTOR] = 0x00;
    image[RESET_VECTOR + 1] = 0xF0;
    Cart::from_bytes(alloc, &image)
}
