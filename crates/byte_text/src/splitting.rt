//! The parts of a line.

ghost use Rattle.std.specs.Prelude.{◌≡◌, ◌∷◌, ◌++◌, IfSome, IfNone};
ghost use Rattle.byte_text.specs.Splitting.{NoByte};

/// The bytes before the first `mark` and those after it; `None` where there is no `mark`.
pub fn split_once(bytes: &[u8], mark: u8) -> Option<(&[u8], &[u8])>
    // Bytes are split at the first byte of a kind.
    // Refused: newline_is_left_to_the_next_line.
    ensures some { IfSome result
        (λ parts. (bytes.now ≡ parts.0.now ++ mark ∷ parts.1.now) × NoByte mark parts.0.now) }
    ensures none { IfNone result (NoByte mark bytes.now) }
{
    for at in 0..bytes.len() {
        if bytes[at] == mark {
            return Some((&bytes[..at], &bytes[at + 1..]));
        }
    }
    None
}
