//! Cartridges that are found by their SHA-256.

ghost use Rattle.std.specs.Prelude.{◌≡◌, option_map};
ghost use Rattle.tas_verify.specs.Carts.{name_of};

/// A cartridge's file.
#[derive(Clone, Copy)]
pub struct Cart<'a> {
    /// The SHA-256 of its bytes, in 64 lower case hexadecimal digits.
    pub digits: [u8; 64],
    /// The file's name.
    pub name: &'a str,
}

/// The name of the file of the first of some cartridges with this SHA-256; nothing where none has it.
pub fn name_of<'a>(carts: &[Cart<'a>], digits: &[u8]) -> Option<&'a str>
    // The name is that of the first cartridge with these digits.
    // Refused: first_cartridge_has_each_sha256.
    ensures { option_map (λ name. name.now) result ≡ name_of carts.now digits.now }
{
    for k in 0..carts.len() {
        if carts[k].digits.as_slice() == digits {
            return Some(carts[k].name);
        }
    }
    None
}
