//! What a frame is played from: a cartridge, and what is pressed and set. [`Cart`]'s constructors and `copy` alone take memory.
#![tactic(auto)]

mod cart;
mod input;

pub use cart::{CART_SIZE, Cart, CartError, SMALL_CART_SIZE};
pub use input::{Input, Stick};
