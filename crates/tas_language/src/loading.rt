//! The parts of a `load` or `load2` line.
//!
//! A digit is the trace's, of `byte_text`, in definitions and code; an image is as long as a cartridge.

ghost use Rattle.std.specs.Prelude.{◌≡◌, ◌≢◌, ◌<◌, ◌≤◌, ◌*◌, ◌++◌, ◌∷◌, [], ℕ, List, length, IfSome, IfNone, true, false};
ghost use Rattle.byte_text.specs.Splitting.{NoByte};
ghost use Rattle.byte_text.specs.Digits.{digit_of};
ghost use Rattle.std.specs.List.{flat_map};
ghost use Rattle.tas_language.specs.Parts.{Part, IsPart, AreParts, IsBytes, IsWordEnd, IsImageOf, AreWritten, hex_text, offset_text, word_text, part_text, overwritten};

use byte_text::split_once;
use vcs_inputs::CART_SIZE;

/// The value of an upper case hexadecimal digit.
fn digit(byte: u8) -> Option<u8>
    ensures some { IfSome result (λ n. (n < 16) × (byte ≡ digit_of n)) }
    ensures none { IfNone result ((n : ℕ) → n < 16 → byte ≢ digit_of n) }
{
    match byte {
        b'0'..=b'9' => Some(byte - b'0'),
        b'A'..=b'F' => Some(byte - b'A' + 10),
        _ => None,
    }
}

/// The byte of two digits, the high four bits first.
fn byte_of(first: u8, second: u8) -> Option<u8>
    ensures some { IfSome result (λ byte. hex_text (byte ∷ []) ≡ first ∷ second ∷ []) }
    ensures none { IfNone result
        ((byte : ℕ) → byte < 256 → hex_text (byte ∷ []) ≢ first ∷ second ∷ []) }
{
    let high = digit(first)?;
    let low = digit(second)?;
    Some(high * 16 + low)
}

/// The offset of three digits.
fn offset_of(first: u8, second: u8, third: u8) -> Option<usize>
    ensures some { IfSome result
        (λ offset. (offset < CART_SIZE) × (offset_text offset ≡ first ∷ second ∷ third ∷ [])) }
    ensures none { IfNone result
        ((offset : ℕ) → offset < CART_SIZE → offset_text offset ≢ first ∷ second ∷ third ∷ []) }
{
    let high = digit(first)?;
    let middle = digit(second)?;
    let low = digit(third)?;
    Some(usize::from(high) * 256 + usize::from(middle) * 16 + usize::from(low))
}

/// Writes the bytes of these digits; `None` where one of them isn't a digit.
fn write_bytes(digits: &[u8], buffer: &mut [u8]) -> Option<()>
    requires { length digits.now ≡ 2 * length buffer.old }
    ensures len { length buffer.new ≡ length buffer.old }
    ensures bytes { IsBytes buffer.new }
    ensures written { IfSome result (λ _. digits.now ≡ hex_text buffer.new) }
    ensures other { IfNone result ((bytes : List ℕ) → IsBytes bytes → digits.now ≢ hex_text bytes) }
{
    for k in 0..buffer.len() {
        let byte = byte_of(digits[2 * k], digits[2 * k + 1])?;
        buffer[k] = byte;
    }
    Some(())
}

/// Writes the bytes of a word OFF=HEX into the image; `None` where it is no such word.
fn write_part(word: &[u8], image: &mut [u8]) -> Option<()>
    requires { length image.old ≤ CART_SIZE }
    ensures written { IfSome result
        (λ _. (part : Part) × IsPart (length image.old) part × (word.now ≡ word_text part)
        × (image.new ≡ overwritten part image.old)) }
    ensures other { IfNone result
        ((part : Part) → IsPart (length image.old) part → word.now ≢ word_text part) }
{
    if word.len() < 6 {
        return None;
    }
    if word[3] != b'=' {
        return None;
    }
    let offset = offset_of(word[0], word[1], word[2])?;
    let (_front, digits) = word.split_at(4);
    if digits.len() % 2 != 0 {
        return None;
    }
    let end = offset + digits.len() / 2;
    if end > image.len() {
        return None;
    }
    write_bytes(digits, &mut image[offset..end])
}

/// The bytes before the first space, and the rest from there on.
fn first_word(bytes: &[u8]) -> (&[u8], &[u8])
    ensures bytes { bytes.now ≡ result.0.now ++ result.1.now }
    ensures word { NoByte 32 result.0.now }
    ensures end { IsWordEnd result.1.now }
{
    match split_once(bytes, b' ') {
        Some((word, _)) => bytes.split_at(word.len()),
        None => bytes.split_at(bytes.len()),
    }
}

/// Writes the first part of the text into the image, and returns what follows it.
fn read_part<'a>(text: &'a [u8], image: &mut [u8]) -> Option<&'a [u8]>
    requires { length image.old ≤ CART_SIZE }
    ensures some { IfSome result
        (λ rest. (part : Part) × IsPart (length image.old) part × IsWordEnd rest.now
        × (text.entry.now ≡ part_text part ++ rest.now)
        × (image.new ≡ overwritten part image.old)) }
    ensures none { IfNone result
        ((part : Part) (rest : List ℕ) → IsPart (length image.old) part → IsWordEnd rest
        → text.entry.now ≢ part_text part ++ rest) }
{
    let (&first, words) = text.split_first()?;
    if first != b' ' {
        return None;
    }
    let (word, rest) = first_word(words);
    write_part(word, image)?;
    Some(rest)
}

/// Writes the bytes of a text's parts into the image, later ones over earlier ones; `None` where the text names no
/// parts.
fn write_parts(text: &[u8], image: &mut [u8]) -> Option<()>
    requires { length image.old ≤ CART_SIZE }
    ensures written { IfSome result (λ _. AreWritten text.now image.old image.new) }
    ensures other { IfNone result
        ((parts : List Part) → 0 < length parts → AreParts (length image.old) parts
        → text.now ≢ flat_map part_text parts) }
{
    if text.is_empty() {
        return None;
    }
    let mut rest = text;
    while !rest.is_empty() {
        rest = read_part(rest, image)?;
    }
    Some(())
}

/// The image of this many bytes that the parts of a `load` or `load2` line give, over zeros; nothing where the text names no parts.
pub fn load_image<const SIZE: usize>(text: &[u8]) -> Option<[u8; SIZE]>
    requires { SIZE ≤ CART_SIZE }
    ensures some { IfSome result (IsImageOf SIZE text.now) }
    ensures none { IfNone result ((image : List ℕ) → IsImageOf SIZE text.now image → ⊥) }
{
    let mut image = [0; SIZE];
    write_parts(text, &mut image)?;
    Some(image)
}
