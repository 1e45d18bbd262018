//! A line that comes in pieces.
//!
//! A line may have 16,384 bytes: a whole cartridge is a `load` line of 8,201. Of a longer line only the fact that it is
//! too long is kept, so no line takes more memory.

ghost use Rattle.std.specs.Prelude.{◌≡◌, ◌<◌, ◌++◌, ℕ, [], List, length, true, false, IfOk, OnOk, OnErr};
ghost use Rattle.tas_language.specs.Requests.{IsHeard};
ghost use Rattle.tas_language.specs.Held.{HoldsLine};
ghost use Rattle.tas_language.specs.Unheard.{why_unheard};

use crate::unheard::why_short_unheard;
use crate::{Request, Unheard, parse_request};
use std::alloc::{AllocError, Allocator, Global};

/// The longest line that is understood, in bytes without its newline.
pub const MAX_LINE: usize = 16_384;

/// The bytes of a line so far. Of one that is longer than [`MAX_LINE`] only this is known, so it never takes more memory
/// (no clause says so).
#[derive(Drop)]
pub struct Line<A: Allocator = Global> {
    /// The bytes so far; none of a line that is too long.
    pub bytes: Vec<u8, A>,
    /// Whether the line is too long.
    pub long: bool,
}

impl<A: Allocator> Line<A> {
    /// No bytes yet, and room for the longest line that is understood. `AllocError` where that room is refused.
    pub fn new(alloc: A) -> Result<Line<A>, AllocError>
        // A line that comes in pieces is held as it is up to 16,384 bytes, and a longer one is known to be longer; when
        // out of memory it is as before.
        // Refused: new_line_is_too_long.
        ensures { IfOk result (λ line. HoldsLine [] line.bytes.items line.long) }
    {
        let bytes = Vec::with_capacity(alloc, MAX_LINE)?;
        Ok(Line { bytes, long: false })
    }

    /// Takes the line's next bytes. After `AllocError` the line is as before.
    pub fn add(&mut self, more: &[u8]) -> Result<(), AllocError>
        // Refused: line_of_16384_bytes_is_too_long*, long_line_is_held_as_an_empty_one.
        ensures added { OnOk result
            ((said : List ℕ) → HoldsLine said self.old.bytes.items self.old.long
            → HoldsLine (said ++ more.now) self.new.bytes.items self.new.long) }
        ensures err { OnErr result
            ((self.new.bytes.items ≡ self.old.bytes.items) × (self.new.long ≡ self.old.long)) }
    {
        if self.long {
            return Ok(());
        }
        if self.bytes.len().saturating_add(more.len()) > MAX_LINE {
            self.bytes.clear();
            self.long = true;
            return Ok(());
        }
        self.bytes.extend_from_slice(more)
    }

    /// Begins the next line.
    pub fn clear(&mut self)
        // Refused: line_after_a_long_one_is_too_long.
        ensures { HoldsLine [] self.new.bytes.items self.new.long }
    {
        self.bytes.clear();
        self.long = false;
    }

    /// Whether there are no bytes.
    pub fn is_empty(&self) -> bool
        // Refused: last_line_is_reported_as_none.
        ensures none { result ≡ true → (said : List ℕ)
            → HoldsLine said self.now.bytes.items self.now.long → said ≡ [] }
        ensures some { result ≡ false → (said : List ℕ)
            → HoldsLine said self.now.bytes.items self.now.long → 0 < length said }
    {
        if self.long {
            return false;
        }
        self.bytes.is_empty()
    }

    /// What the line asks for; nothing where it isn't understood or is too long.
    pub fn request(&self) -> Option<Request>
        // What is held asks for what the line says, and for nothing where it is too long.
        // Refused: half_of_a_line_is_heard.
        ensures { (said : List ℕ) → HoldsLine said self.now.bytes.items self.now.long
            → IsHeard said result }
    {
        if self.long {
            return None;
        }
        parse_request(self.bytes.as_slice())
    }

    /// Why the line isn't understood, where it isn't and a newline ends it.
    pub fn unheard(&self) -> Unheard
        // Why a line isn't understood follows from what was said, however much of it is held.
        // Refused: long_line_is_reported_as_without_a_word.
        ensures { (said : List ℕ) → HoldsLine said self.now.bytes.items self.now.long
            → result ≡ why_unheard said }
    {
        if self.long {
            return Unheard::Long;
        }
        why_short_unheard(self.bytes.as_slice())
    }
}
