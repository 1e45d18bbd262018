//! The address map: which part of the console an address selects.
//!
//! `selected` alone decodes the address map, in code and in definitions. Only whether several bytes of code are the
//! cartridge's is asked by comparisons of their own (`fetch`, `is_in_cartridge`).
#![tactic(auto)]

ghost use Rattle.std.specs.Prelude.{◌≡◌};
ghost use Rattle.vcs_machine.specs.Address.{selected, is_ram};

use vcs_riot::is_high;

/// A region of the address map (Stella Programmer's Guide, "The 2600 Programming Environment", "The PIA (6532)").
#[derive(Clone, Copy)]
pub(crate) enum Region {
    /// The cartridge: A12 is high.
    Cartridge,
    /// The RIOT's RAM: A12 and A9 are low, A7 is high.
    Ram,
    /// The RIOT's ports and its timer: A12 is low, A9 and A7 are high.
    PortsAndTimer,
    /// The TIA: A12 and A7 are low.
    Tia,
}

/// The region that an address selects.
#[inline(always)]
pub(crate) fn selected(address: u16) -> Region
    ensures { result ≡ selected address }
{
    if is_high(12, address) {
        Region::Cartridge
    } else if is_high(7, address) {
        if is_high(9, address) {
            Region::PortsAndTimer
        } else {
            Region::Ram
        }
    } else {
        Region::Tia
    }
}

/// Whether an address selects RAM.
#[inline(always)]
pub(crate) fn is_ram(address: u16) -> bool
    ensures { result ≡ is_ram (selected address) }
{
    matches!(selected(address), Region::Ram)
}
