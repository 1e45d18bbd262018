//! Names of bytes of RAM, and addresses.

ghost use Rattle.std.specs.Prelude.{◌≡◌};
ghost use Rattle.tas_engines.specs.Names.{address_of, hex_value, named, names_of};

use byte_text::hex_digits;
use std::alloc::{Allocator, Global};

/// A name, and the address of the byte that has it.
#[derive(Drop)]
pub struct Name<A: Allocator = Global> {
    /// The name.
    pub text: Vec<u8, A>,
    /// The address, 80 to FF.
    pub address: u8,
}

/// The value of an upper case hexadecimal digit; of another byte some number below 256.
fn hex_value(byte: u8) -> u8
    ensures { result ≡ hex_value byte }
{
    if byte < 58 {
        byte.saturating_sub(48)
    } else {
        byte - 55
    }
}

/// The address of RAM, 80 to FF, that two upper case hexadecimal digits write.
pub fn address_of(bytes: &[u8]) -> Option<u8>
    // Two upper case hexadecimal digits are read as their address, 80 to FF, and nothing else is.
    // Refused: address_below_80_is_accepted.
    ensures { result ≡ address_of bytes.now }
{
    let high = hex_value(bytes.first().copied().unwrap_or(0));
    let low = hex_value(bytes.get(1).copied().unwrap_or(0));
    let at = 16 * u16::from(high) + u16::from(low);
    if at < 128 || at >= 256 {
        return None;
    }
    let address = at as u8;
    if bytes == hex_digits(address).as_slice() {
        Some(address)
    } else {
        None
    }
}

/// The address that has a name; that of the first of these, if there are several.
pub fn named<A: Allocator>(names: &[Name<A>], bytes: &[u8]) -> Option<u8>
    // A name's address is that of the first one that is the same.
    // Refused: first_name_is_not_found.
    ensures { result ≡ named (names_of names.now) bytes.now }
{
    for k in 0..names.len() {
        if names[k].text.as_slice() == bytes {
            return Some(names[k].address);
        }
    }
    None
}
