//! The machine: a cartridge, the inputs of a frame, and what is drawn.

use anyhow::{Result, bail};
use std::alloc::Global;
use vcs_cpu::Halt;
use vcs_inputs::{Cart, Input};
use vcs_machine::{Meter, State, play, trace};
use vcs_riot::Pins;
use vcs_tia::Picture;

/// Whether a copy of a cartridge is the same.
pub fn copy_is_same(alloc: Global, image: &[u8]) -> Result<bool> {
    let cart = Cart::from_bytes(alloc, image)?; // 4,096 or 2,048 bytes; else CartError::Size
    let mut other = Cart::blank(alloc)?; // 4,096 zeros
    other.copy_from(&cart);
    Ok(other == cart) // true
}

/// What the RIOT's ports show of an input.
pub fn pins_of_fire_and_up() -> Pins {
    let mut input = Input::none();
    input.left.fire = true;
    input.right.up = true;
    input.pins() // a = 0xfe, b = 0x3f
}

/// How many pixels of the first frame are lit, or how the processor halted in it.
pub fn lit_in_first_frame(alloc: Global, image: &[u8]) -> Result<std::result::Result<usize, Halt>> {
    let cart = Cart::from_bytes(alloc, image)?;
    let mut state = State::power_on(&cart);
    let mut picture = Picture::blank(alloc)?;
    let mut meter = Meter::new();
    let played = play(&cart, &mut state, Input::none(), &mut picture, &mut meter);
    Ok(played.map(|()| picture.lit()))
}

/// The first three instructions, as text.
pub fn first_instructions(alloc: Global, image: &[u8]) -> Result<Vec<u8>> {
    let cart = Cart::from_bytes(alloc, image)?;
    let mut lines = Vec::new(alloc);
    if let Err((written, error)) = trace(&cart, 3, &mut lines) {
        bail!("{written} bytes were written: {error}")
    }
    Ok(lines) // three lines of 25 bytes, from power-on
}
