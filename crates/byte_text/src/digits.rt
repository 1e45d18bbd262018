//! Hexadecimal digits.

ghost use Rattle.std.specs.Prelude.{◌≡◌, ◌<◌, ◌/◌, ◌%◌};
ghost use Rattle.byte_text.specs.Digits.{digit_of, hex_byte};

/// An upper case hexadecimal digit.
fn digit(n: u8) -> u8
    requires { n < 16 }
    ensures { result ≡ digit_of n }
{
    if n < 10 { b'0' + n } else { b'A' + (n - 10) }
}

/// The digit of a byte's high four bits.
pub fn high_digit(byte: u8) -> u8
    // Refused: none, see `hex_digits`.
    ensures { result ≡ digit_of (byte / 16) }
{
    digit(byte >> 4)
}

/// The digit of a byte's low four bits.
pub fn low_digit(byte: u8) -> u8
    // Refused: none, see `hex_digits`.
    ensures { result ≡ digit_of (byte % 16) }
{
    digit(byte & 15)
}

/// A byte as two upper case hexadecimal digits, the high four bits first.
pub fn hex_digits(byte: u8) -> [u8; 2]
    // A byte's two hexadecimal digits, and each of them.
    // Refused: digits_in_lower_case*, digits_of_a_byte_are_swapped.
    ensures { result ≡ hex_byte byte }
{
    [high_digit(byte), low_digit(byte)]
}
