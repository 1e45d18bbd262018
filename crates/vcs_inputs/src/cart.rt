//! A cartridge.
//!
//! A cartridge has room for 4,096 bytes, however many it has, so a movie can take the bytes of any other one without
//! memory. The number of its bytes is one of two by its type. The place of an address in it is the address's low lines,
//! since both are powers of two. `==` compares cartridges of one allocator type; others are compared by their bytes.
#![tactic(auto)]

ghost use Rattle.std.specs.Prelude.{
  ◌≡◌,
  ◌↔◌,
  List,
  ℕ,
  length,
  replicate,
  IfOk,
  MatchResult,
  IsTrue,
  true,
};
ghost use Rattle.std.specs.Prelude.{nat_eq};
ghost use Rattle.std.specs.Cmp.Lexicographic.{pointwise};
ghost use Rattle.vcs_inputs.specs.Cart.{cart_size, is_cart_size, IsRightCartError};

use std::alloc::{AllocError, Allocator, Global};
use std::marker::Model;
use thiserror::Error;

/// How many bytes a cartridge has that isn't small (Stella Programmer's Guide, "The 2600 Programming Environment").
pub const CART_SIZE: usize = 4096;

/// How many bytes a small cartridge has (Stella Programmer's Guide, "The 2600 Programming Environment").
pub const SMALL_CART_SIZE: usize = 2048;

/// A cartridge: 2,048 or 4,096 bytes of ROM, which contracts see as their list. In memory it has room
/// for 4,096, so that it can take another one's bytes.
/// (Stella Programmer's Guide, "The 2600 Programming Environment")
#[derive(Drop)]
pub struct Cart<A: Allocator = Global> {
    bytes: Vec<u8, A>,
}

impl<A: Allocator> Model for Cart<A> {
    ghost use Rattle.std.specs.Prelude.{◌≡◌, ◌≤◌, List, ℕ, length, true, vec_capacity};
    ghost use Rattle.vcs_inputs.specs.Cart.{cart_size, is_cart_size};

    ghost Value = { List ℕ };

    ghost view = { λ c. c.bytes.items };

    ghost invariant = { λ c. (is_cart_size (length c.bytes.items) ≡ true)
        × (cart_size ≤ vec_capacity c.bytes) };
}

/// Why no cartridge was made.
#[derive(Clone, Copy, Debug, PartialEq, Eq, Error)]
pub enum CartError {
    /// There were this many bytes, and not 2,048 or 4,096.
    #[error("cartridge has {0} bytes")]
    Size(usize),
    /// There was no memory for the copy.
    #[error("out of memory")]
    Memory,
}

/// Whether a cartridge has this many bytes.
fn is_cart_size(size: usize) -> bool
    ensures { result ≡ is_cart_size size }
{
    size == SMALL_CART_SIZE || size == CART_SIZE
}

impl<A: Allocator> Cart<A> {
    /// A cartridge with a copy of these bytes, as many as they are. [`CartError::Size`] comes exactly
    /// where there are neither 2,048 nor 4,096 of them, and it comes first.
    pub fn from_bytes(alloc: A, bytes: &[u8]) -> Result<Cart<A>, CartError>
        // A cartridge is made of 2,048 or 4,096 bytes exactly, as they are given, and `Size` comes exactly for another
        // number, which it has.
        // Refused: short_cartridges_taken, small_cartridges_refused*, small_image_doubled*, size_is_always_4096*.
        ensures { MatchResult result (λ cart. cart ≡ bytes.now) (IsRightCartError bytes.now) }
    {
        if !is_cart_size(bytes.len()) {
            return Err(CartError::Size(bytes.len()));
        }
        Cart::copy_of(alloc, bytes).map_err(|_| CartError::Memory)
    }

    /// A cartridge with a copy of these bytes, or the allocator's refusal.
    fn copy_of(alloc: A, bytes: &[u8]) -> Result<Cart<A>, AllocError>
        requires { is_cart_size (length bytes.now) ≡ true }
        ensures { IfOk result (λ cart. cart ≡ bytes.now) }
    {
        let mut copy = Vec::with_capacity(alloc, CART_SIZE)?;
        copy.extend_from_slice(bytes)?;
        Ok(Cart { bytes: copy })
    }

    /// A cartridge of 4,096 zeros, or the allocator's refusal.
    pub fn blank(alloc: A) -> Result<Cart<A>, AllocError>
        // A blank cartridge is 4,096 zeros. Copies, bytes and equality are those of the list of bytes.
        // Refused: blank_cartridge_of_ones.
        ensures { IfOk result (λ cart. cart ≡ replicate cart_size 0) }
    {
        let bytes = vec![in alloc; 0; CART_SIZE]?;
        Ok(Cart { bytes })
    }

    /// The 2,048 or 4,096 bytes.
    pub fn bytes(&self) -> &[u8]
        // Refused: bytes_without_the_first.
        ensures value { result.now ≡ self.now }
        ensures size { is_cart_size (length result.now) ≡ true }
    {
        &self.bytes
    }

    /// Takes another cartridge's bytes, as many as they are, without memory.
    pub fn copy_from<B: Allocator>(&mut self, other: &Cart<B>)
        // Refused: bytes_not_reused.
        ensures { self.new ≡ other.now }
    {
        let bytes = other.bytes();
        self.bytes.clear();
        self.bytes.extend_from_slice(bytes).unwrap();
    }

    /// An equal cartridge in memory of its own, or the allocator's refusal.
    pub fn copy<B: Allocator>(&self, alloc: B) -> Result<Cart<B>, AllocError>
        // Refused: copy_of_zeros.
        ensures { IfOk result (λ cart. cart ≡ self.now) }
    {
        Cart::copy_of(alloc, self.bytes())
    }
}

impl<A: Allocator> PartialEq for Cart<A> {
    ghost use Rattle.std.specs.Prelude.{nat_eq};
    ghost use Rattle.std.specs.Cmp.{partial_equiv_from_equiv};
    ghost use Rattle.std.specs.Cmp.Lexicographic.{pointwise};
    ghost use Rattle.std.proofs.lemmas.Cmp.{nat_list_eq_equiv};

    ghost eq = { pointwise nat_eq };

    ghost laws = { partial_equiv_from_equiv nat_list_eq_equiv };

    /// Whether the two have the same bytes.
    fn eq(&self, other: &Cart<A>) -> bool
        // Refused: equal_by_the_first_byte.
        ensures value { result ≡ pointwise nat_eq self.now other.now }
        ensures same { IsTrue result ↔ (self.now ≡ other.now) }
    {
        self.bytes.as_slice() == other.bytes.as_slice()
    }
}

impl<A: Allocator> Eq for Cart<A> {
    ghost use Rattle.std.proofs.lemmas.Cmp.{nat_list_eq_equiv};

    ghost laws = { nat_list_eq_equiv };
}
