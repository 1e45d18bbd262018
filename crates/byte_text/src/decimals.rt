//! Numbers in decimal digits.

ghost use Rattle.std.specs.Prelude.{◌≡◌, ◌≢◌, ◌<◌, ◌^◌, ℕ, decimal, IfSome, IfNone};

use itoa::Buffer;
use std::str;

/// The number that these decimal digits write without leading zeros; `None` where they write none
/// below 2^64.
pub fn read_decimal(word: &[u8]) -> Option<usize>
    // Decimal digits without leading zeros are read as their number, where it is below 2^64, and nothing else is.
    // Refused: number_with_a_leading_zero_is_read.
    ensures some { IfSome result (λ n. word.now ≡ decimal n) }
    ensures none { IfNone result ((n : ℕ) → n < 2 ^ 64 → word.now ≢ decimal n) }
{
    let text = str::from_utf8(word).ok()?;
    let n = text.parse::<usize>().ok()?;
    let mut buffer = Buffer::new();
    if buffer.format(n).as_bytes() == word {
        Some(n)
    } else {
        None
    }
}
