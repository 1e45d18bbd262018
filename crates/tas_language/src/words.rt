//! The words of a line.
//!
//! A number is the word that `itoa` prints for it: a word of digits is read, printed again and compared. So signs and
//! leading zeros are refused without a grammar and without memory.

ghost use Rattle.std.specs.Prelude.{◌≡◌, ◌≢◌, ◌++◌, ◌∷◌, ℕ, List, decimal, IfSome, IfNone};
ghost use Rattle.vcs_inputs.specs.declared.input.Input.{Input as Pressed};
ghost use Rattle.tas_movie.specs.Text.{frame_text};
ghost use Rattle.tas_language.specs.Commands.{IsNumber, pair_text, triple_text, frames_text};

use byte_text::{read_decimal, split_once};
use tas_movie::read_frame;
use vcs_inputs::Input;

/// The greatest number of a script: seven digits.
pub const MAX_NUMBER: usize = 9_999_999;

/// The bytes of `line` after `front`; nothing where the line doesn't begin with it.
pub fn after_prefix<'a>(line: &'a [u8], front: &[u8]) -> Option<&'a [u8]>
    // A line's beginning is taken off where it is there.
    // Refused: beginning_is_left_on_a_line.
    ensures some { IfSome result (λ rest. line.entry.now ≡ front.now ++ rest.now) }
    ensures none { IfNone result ((rest : List ℕ) → line.entry.now ≢ front.now ++ rest) }
{
    line.strip_prefix(front)
}

/// The number of one to seven digits without leading zeros that these bytes write; nothing where they
/// write none.
pub fn number(word: &[u8]) -> Option<usize>
    // A number is read exactly where its decimal digits are there, up to 9,999,999.
    // Refused: greatest_number_is_not_read.
    ensures some { IfSome result (λ n. (word.now ≡ decimal n) × IsNumber n) }
    ensures none { IfNone result ((n : ℕ) → IsNumber n → word.now ≢ decimal n) }
{
    let n = read_decimal(word)?;
    if n > MAX_NUMBER {
        return None;
    }
    Some(n)
}

/// Two numbers with one space between.
pub fn pair(bytes: &[u8]) -> Option<(usize, usize)>
    ensures some { IfSome result
        (λ found. (bytes.now ≡ pair_text found.0 found.1) × IsNumber found.0 × IsNumber found.1) }
    ensures none { IfNone result ((a b : ℕ) → IsNumber a → IsNumber b → bytes.now ≢ pair_text a b) }
{
    let (first, second) = split_once(bytes, b' ')?;
    let a = number(first)?;
    let b = number(second)?;
    Some((a, b))
}

/// Three numbers with one space between.
pub fn triple(bytes: &[u8]) -> Option<(usize, usize, usize)>
    ensures some { IfSome result
        (λ found. (bytes.now ≡ triple_text found.0 found.1 found.2) × IsNumber found.0
        × IsNumber found.1 × IsNumber found.2) }
    ensures none { IfNone result
        ((a b c : ℕ) → IsNumber a → IsNumber b → IsNumber c → bytes.now ≢ triple_text a b c) }
{
    let (first, rest) = split_once(bytes, b' ')?;
    let a = number(first)?;
    let (b, c) = pair(rest)?;
    Some((a, b, c))
}

/// A number and a frame with one space between.
fn count_and_frame(bytes: &[u8]) -> Option<(usize, Input)>
    ensures some { IfSome result
        (λ found. (bytes.now ≡ decimal found.0 ++ 32 ∷ frame_text found.1) × IsNumber found.0) }
    ensures none { IfNone result
        ((count : ℕ) (input : Pressed) → IsNumber count
        → bytes.now ≢ decimal count ++ 32 ∷ frame_text input) }
{
    let (first, second) = split_once(bytes, b' ')?;
    let count = number(first)?;
    let input = read_frame(second)?;
    Some((count, input))
}

/// A place, a count and a frame with one space between.
pub fn place_count_frame(bytes: &[u8]) -> Option<(usize, usize, Input)>
    ensures some { IfSome result
        (λ found. (bytes.now ≡ frames_text found.0 found.1 found.2) × IsNumber found.0
        × IsNumber found.1) }
    ensures none { IfNone result
        ((at count : ℕ) (input : Pressed) → IsNumber at → IsNumber count
        → bytes.now ≢ frames_text at count input) }
{
    let (first, second) = split_once(bytes, b' ')?;
    let at = number(first)?;
    let (count, input) = count_and_frame(second)?;
    Some((at, count, input))
}
