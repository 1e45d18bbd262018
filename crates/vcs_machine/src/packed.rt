//! A state in fewer bytes, for where many states are kept.
//!
//! A state has 1,371 bits. The RIOT has 1,079: RAM 1,024, the ports 32, and the timer 23 (count 8, cycles left 11, interval 2,
//! and two truth values). The TIA has 213 beside its line, which is 0 in every state. The registers are 54, and the halt 25:
//! an address, an opcode, and whether there is one. That is 172 bytes. Here most fields have bytes of their own, and what the
//! TIA keeps beside its registers is left out: 200 bytes for the 364 of a [`State`].
#![tactic(auto)]

ghost use Rattle.std.specs.Prelude.{◌≡◌, ◌↔◌, IsTrue};
ghost use Rattle.vcs_machine.specs.Equality.{are_same_machines};
ghost use Rattle.vcs_tia.specs.Tia.{places_of};

use crate::state::State;
use std::fmt::{self, Debug, Formatter, Write};
use std::marker::Model;
use std::mem::size_of;
use vcs_cpu::{Halt, Regs};
use vcs_riot::Riot;
use vcs_tia::PackedTia;

const _: () = prove!(size_of::<PackedState>() <= 200);

/// A [`State`] in 200 bytes. It is plain, too, and contracts see the same record of registers, RIOT, TIA and halt.
#[derive(Clone, Copy)]
pub struct PackedState {
    regs: Regs,
    riot: Riot,
    tia: PackedTia,
    halt: Option<Halt>,
}

impl Model for PackedState {
    ghost use Rattle.std.specs.Prelude.{◌≡◌, ◌%◌};
    ghost use Rattle.vcs_machine.specs.Machine.{Machine};
    ghost use Rattle.vcs_tia.specs.Tia.{line_of, clock_of};

    ghost Value = { Machine };

    ghost view = { λ s. record { regs = s.regs; riot = s.riot; tia = s.tia; halt = s.halt } };

    ghost invariant = { λ s. (line_of s.tia ≡ 0) × (clock_of s.tia % 3 ≡ 0) };

    ghost inverse = { λ m. record { regs = m.regs; riot = m.riot; tia = m.tia; halt = m.halt } };
}

impl State {
    /// The same state in fewer bytes.
    pub fn pack(&self) -> PackedState
        // A packed state is the state that was packed.
        // Refused: tia_is_new_when_packed.
        ensures { result ≡ self.now }
    {
        PackedState {
            regs: self.regs,
            riot: self.riot,
            tia: self.tia.pack(),
            halt: self.halt,
        }
    }
}

impl PackedState {
    /// The state that was packed.
    pub fn unpack(&self) -> State
        // What is unpacked is the state that was packed.
        // Refused: tia_is_new_when_unpacked.
        ensures { result ≡ self.now }
    {
        State {
            regs: self.regs,
            riot: self.riot,
            tia: self.tia.unpack(),
            halt: self.halt,
        }
    }

    /// The 128 bytes of RAM, from the one at address 80 on.
    /// (Stella Programmer's Guide, "The PIA (6532)", "RAM")
    pub fn ram(&self) -> [u8; 128]
        // Refused: packed_ram_is_blank.
        ensures { result ≡ self.now.riot.ram }
    {
        *self.riot.ram()
    }

    /// The places of the TIA's players 0 and 1, of its missiles 0 and 1, and of its ball, as pixels.
    /// (Stella Programmer's Guide, "Horizontal Positioning")
    pub fn places(&self) -> [u8; 5]
        // The five places are those of the state's TIA.
        // Refused: packed_places_are_0.
        ensures { result ≡ places_of self.now.tia }
    {
        self.tia.places()
    }
}

impl PartialEq for PackedState {
    ghost use Rattle.std.specs.Cmp.{partial_equiv_from_equiv};
    ghost use Rattle.vcs_machine.specs.Equality.{are_same_machines, machines_equivalence};

    ghost eq = { are_same_machines };

    ghost laws = { partial_equiv_from_equiv machines_equivalence };

    /// Whether registers, chips and halt are all alike.
    fn eq(&self, other: &PackedState) -> bool
        ensures value { result ≡ are_same_machines self.now other.now }
        // Two packed states are equal if and only if the states are.
        // Refused: packed_states_of_any_tia_are_equal.
        ensures same { IsTrue result ↔ (self.now ≡ other.now) }
    {
        self.regs == other.regs
            && self.riot == other.riot
            && self.tia == other.tia
            && self.halt == other.halt
    }
}

impl Eq for PackedState {
    ghost use Rattle.vcs_machine.specs.Equality.{machines_equivalence};

    ghost laws = { machines_equivalence };
}

impl Debug for PackedState {
    /// Shows the state.
    fn fmt<W: Write>(&self, f: &mut Formatter<W>) -> fmt::Result {
        self.unpack().fmt(f)
    }
}
