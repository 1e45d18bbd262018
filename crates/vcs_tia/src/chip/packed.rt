//! A TIA without the masks of its objects, for where many states are kept.
//!
//! The masks are those of the settings, so they are made again when the TIA is unpacked. The 15 latches are the bits of one
//! word, the 24 other truth values those of another; each other field has a byte of its own, and the line two. That is 39
//! bytes, and one that is unused.
//!
//! A TIA has 229 bits: the players 66 (for each a place of 8, copies 3, two graphics 16, a motion 4, two truth values),
//! the missiles 38 (8, 3, a width of 2, 4, two), the ball 17 (8, 2, 4, three), the playfield 27 (24, three), the colours 32,
//! the beam 25 (line 16, clock 8, one), the latches 15, and VBLANK, VSYNC and the fire buttons 9.

ghost use Rattle.std.specs.Prelude.{◌≡◌, ◌↔◌, IsTrue};
ghost use Rattle.vcs_tia.specs.Inside.PackedEquality.{are_same_tias};
ghost use Rattle.vcs_tia.specs.Tia.{places_of};

use super::flags::{flag, latch_flags, latches_of, setting_flags, word_of};
use super::{Button, Colours, Fire, Sync, Tia};
use crate::beam::Beam;
use crate::masked::Masked;
use crate::objects::{Ball, Missile, Player};
use crate::playfield::Playfield;
use crate::units::{Clock, Copies, Nibble, Place, Width};
use std::marker::Model;
use std::mem::size_of;

/// A player without its truth values.
#[derive(Clone, Copy, PartialEq, Eq)]
struct PackedPlayer {
    place: Place,
    copies: Copies,
    graphics: u8,
    old_graphics: u8,
    motion: Nibble,
}

/// A missile without its truth values.
#[derive(Clone, Copy, PartialEq, Eq)]
struct PackedMissile {
    place: Place,
    copies: Copies,
    width: Width,
    motion: Nibble,
}

/// The ball without its truth values.
#[derive(Clone, Copy, PartialEq, Eq)]
struct PackedBall {
    place: Place,
    width: Width,
    motion: Nibble,
}

/// The playfield without its truth values.
#[derive(Clone, Copy, PartialEq, Eq)]
struct PackedPlayfield {
    pf0: u8,
    pf1: u8,
    pf2: u8,
}

/// What is kept of a TIA.
#[derive(Clone, Copy, PartialEq, Eq)]
struct Parts {
    flags: u32,
    latches: u32,
    player0: PackedPlayer,
    player1: PackedPlayer,
    missile0: PackedMissile,
    missile1: PackedMissile,
    ball: PackedBall,
    playfield: PackedPlayfield,
    colours: Colours,
    clock: Clock,
    line: u16,
}

/// A TIA in 40 bytes. It is plain, too, and contracts see the value of the [`Tia`] that was packed.
#[derive(Clone, Copy)]
pub struct PackedTia {
    parts: Parts,
}

const _: () = prove!(size_of::<PackedTia>() <= 40);

impl Model for PackedTia {
    ghost use Rattle.vcs_tia.specs.declared.chip.Tia.{Tia};

    ghost Value = { Tia };

    ghost use Rattle.vcs_tia.specs.Inside.Packing.{AreWords, tia_of, parts_of, parts_of-tia_of};

    ghost view = { λ s. tia_of s.parts };

    ghost invariant = { λ s. AreWords s.parts.flags s.parts.latches };

    ghost use Rattle.std.proofs.Common.{ap};

    ghost inverse = { λ t. record { parts = parts_of t } };

    ghost inverse_ok = { λ s words. ap
        (λ p. record { parts = p })
        (parts_of-tia_of s.parts words) };
}

impl PackedPlayer {
    fn of(player: Player) -> Self
        ensures { result ≡ record {
          place = player.place;
          copies = player.copies;
          graphics = player.graphics;
          old_graphics = player.old_graphics;
          motion = player.motion;
        } }
    {
        PackedPlayer {
            place: player.place,
            copies: player.copies,
            graphics: player.graphics,
            old_graphics: player.old_graphics,
            motion: player.motion,
        }
    }

    fn player(self, reflected: bool, delayed: bool) -> Player
        ensures { result ≡ record {
          place = self.place;
          copies = self.copies;
          graphics = self.graphics;
          old_graphics = self.old_graphics;
          reflected = reflected;
          delayed = delayed;
          motion = self.motion;
        } }
    {
        Player {
            place: self.place,
            copies: self.copies,
            graphics: self.graphics,
            old_graphics: self.old_graphics,
            reflected,
            delayed,
            motion: self.motion,
        }
    }
}

impl PackedMissile {
    fn of(missile: Missile) -> Self
        ensures { result ≡ record {
          place = missile.place;
          copies = missile.copies;
          width = missile.width;
          motion = missile.motion;
        } }
    {
        PackedMissile {
            place: missile.place,
            copies: missile.copies,
            width: missile.width,
            motion: missile.motion,
        }
    }

    fn missile(self, enabled: bool, hidden: bool) -> Missile
        ensures { result ≡ record {
          place = self.place;
          copies = self.copies;
          width = self.width;
          enabled = enabled;
          hidden = hidden;
          motion = self.motion;
        } }
    {
        Missile {
            place: self.place,
            copies: self.copies,
            width: self.width,
            enabled,
            hidden,
            motion: self.motion,
        }
    }
}

impl PackedBall {
    fn of(ball: Ball) -> Self
        ensures { result
            ≡ record { place = ball.place; width = ball.width; motion = ball.motion } }
    {
        PackedBall {
            place: ball.place,
            width: ball.width,
            motion: ball.motion,
        }
    }

    fn ball(self, enabled: bool, old_enabled: bool, delayed: bool) -> Ball
        ensures { result ≡ record {
          place = self.place;
          width = self.width;
          enabled = enabled;
          old_enabled = old_enabled;
          delayed = delayed;
          motion = self.motion;
        } }
    {
        Ball {
            place: self.place,
            width: self.width,
            enabled,
            old_enabled,
            delayed,
            motion: self.motion,
        }
    }
}

impl PackedPlayfield {
    fn of(playfield: Playfield) -> Self
        ensures { result
            ≡ record { pf0 = playfield.pf0; pf1 = playfield.pf1; pf2 = playfield.pf2 } }
    {
        PackedPlayfield {
            pf0: playfield.pf0,
            pf1: playfield.pf1,
            pf2: playfield.pf2,
        }
    }

    fn playfield(self, mirrored: bool, score: bool, priority: bool) -> Playfield
        ensures { result ≡ record {
          pf0 = self.pf0;
          pf1 = self.pf1;
          pf2 = self.pf2;
          mirrored = mirrored;
          score = score;
          priority = priority;
        } }
    {
        Playfield {
            pf0: self.pf0,
            pf1: self.pf1,
            pf2: self.pf2,
            mirrored,
            score,
            priority,
        }
    }
}

impl Tia {
    /// The same TIA in 40 bytes.
    pub fn pack(&self) -> PackedTia
        // A packed TIA has every register, place and latch of the TIA that was packed.
        // Refused: packed_line_is_0, packed_right_button_is_the_left_one.
        ensures { result ≡ self.now }
    {
        PackedTia {
            parts: Parts {
                flags: word_of(&setting_flags(self)),
                latches: word_of(&latch_flags(&self.latches)),
                player0: PackedPlayer::of(self.player0.settings()),
                player1: PackedPlayer::of(self.player1.settings()),
                missile0: PackedMissile::of(self.missile0.settings()),
                missile1: PackedMissile::of(self.missile1.settings()),
                ball: PackedBall::of(self.ball.settings()),
                playfield: PackedPlayfield::of(self.playfield.settings()),
                colours: self.colours,
                clock: self.beam.clock,
                line: self.beam.line,
            },
        }
    }
}

impl PackedTia {
    /// The TIA that was packed. Its masks are made anew.
    pub fn unpack(&self) -> Tia
        // What is unpacked is the TIA that was packed, each object with the mask of its own settings.
        // Refused: missile_1_has_the_copies_of_missile_0.
        ensures { result ≡ self.now }
    {
        let parts = self.parts;
        let flags = parts.flags;
        Tia {
            player0: Masked::new(parts.player0.player(flag(flags, 0), flag(flags, 1))),
            player1: Masked::new(parts.player1.player(flag(flags, 2), flag(flags, 3))),
            missile0: Masked::new(parts.missile0.missile(flag(flags, 4), flag(flags, 5))),
            missile1: Masked::new(parts.missile1.missile(flag(flags, 6), flag(flags, 7))),
            ball: Masked::new(
                parts
                    .ball
                    .ball(flag(flags, 8), flag(flags, 9), flag(flags, 10)),
            ),
            playfield: Masked::new(
                parts
                    .playfield
                    .playfield(flag(flags, 11), flag(flags, 12), flag(flags, 13)),
            ),
            colours: parts.colours,
            blank: flag(flags, 14),
            beam: Beam {
                line: parts.line,
                clock: parts.clock,
                hmove_blank: flag(flags, 15),
            },
            latches: latches_of(parts.latches),
            sync: Sync {
                vsync: flag(flags, 16),
                rose: flag(flags, 17),
                wait_owed: flag(flags, 18),
            },
            fire: Fire {
                latching: flag(flags, 19),
                left: Button {
                    pressed: flag(flags, 20),
                    latched: flag(flags, 21),
                },
                right: Button {
                    pressed: flag(flags, 22),
                    latched: flag(flags, 23),
                },
            },
        }
    }

    /// The places of players 0 and 1, of missiles 0 and 1, and of the ball, in pixels from the left.
    /// (Stella Programmer's Guide, "Horizontal Positioning")
    pub fn places(&self) -> [u8; 5]
        // The five places are those of the TIA that was packed.
        // Refused: packed_missile_1_is_where_missile_0_is.
        ensures { result ≡ places_of self.now }
    {
        let parts = self.parts;
        [
            parts.player0.place.pixel(),
            parts.player1.place.pixel(),
            parts.missile0.place.pixel(),
            parts.missile1.place.pixel(),
            parts.ball.place.pixel(),
        ]
    }
}

impl PartialEq for PackedTia {
    ghost use Rattle.vcs_tia.specs.Inside.PackedEquality.{are_same_tias, same_tias_laws};

    ghost eq = { are_same_tias };

    ghost laws = { same_tias_laws };

    /// Whether all is alike that is kept, and so the TIAs that were packed.
    fn eq(&self, other: &PackedTia) -> bool
        ensures value { result ≡ are_same_tias self.now other.now }
        // Two packed TIAs are equal if and only if the TIAs are.
        // Refused: packed_tia_is_compared_with_itself.
        ensures same { IsTrue result ↔ (self.now ≡ other.now) }
    {
        self.parts == other.parts
    }
}

impl Eq for PackedTia {
    ghost use Rattle.vcs_tia.specs.Inside.PackedEquality.{same_tias_equivalence};

    ghost laws = { same_tias_equivalence };
}
