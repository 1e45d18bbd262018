//! The truth values of a TIA as the bits of words.

ghost use Rattle.std.specs.Prelude.{◌≡◌, ◌≤◌, ◌<◌, length};
ghost use Rattle.vcs_tia.specs.Units.{has_bit};
ghost use Rattle.vcs_tia.specs.Inside.Flags.{word_of, latch_flags, latches_of, setting_flags};

use super::Tia;
use crate::beam::Latches;

/// The word whose bits these are, the first as bit 0.
pub(super) fn word_of(flags: &[bool]) -> u32
    requires { length flags.now ≤ 32 }
    ensures { result ≡ word_of flags.now }
{
    let mut word = 0;
    for i in 0..flags.len() {
        if flags[i] {
            word += 1 << i;
        }
    }
    word
}

/// Whether a bit of a word is 1.
pub(super) fn flag(word: u32, number: u32) -> bool
    requires { number < 32 }
    ensures { result ≡ has_bit word number }
{
    (word >> number) & 1 == 1
}

/// The fifteen latches.
pub(super) fn latch_flags(latches: &Latches) -> [bool; 15]
    ensures { result ≡ latch_flags latches.now }
{
    [
        latches.player0_player1,
        latches.player0_missile0,
        latches.player0_missile1,
        latches.player0_ball,
        latches.player0_playfield,
        latches.player1_missile0,
        latches.player1_missile1,
        latches.player1_ball,
        latches.player1_playfield,
        latches.missile0_missile1,
        latches.missile0_ball,
        latches.missile0_playfield,
        latches.missile1_ball,
        latches.missile1_playfield,
        latches.ball_playfield,
    ]
}

/// The latches that are the bits of a word.
pub(super) fn latches_of(word: u32) -> Latches
    ensures { result ≡ latches_of word }
{
    Latches {
        player0_player1: flag(word, 0),
        player0_missile0: flag(word, 1),
        player0_missile1: flag(word, 2),
        player0_ball: flag(word, 3),
        player0_playfield: flag(word, 4),
        player1_missile0: flag(word, 5),
        player1_missile1: flag(word, 6),
        player1_ball: flag(word, 7),
        player1_playfield: flag(word, 8),
        missile0_missile1: flag(word, 9),
        missile0_ball: flag(word, 10),
        missile0_playfield: flag(word, 11),
        missile1_ball: flag(word, 12),
        missile1_playfield: flag(word, 13),
        ball_playfield: flag(word, 14),
    }
}

/// All truth values but the latches.
pub(super) fn setting_flags(tia: &Tia) -> [bool; 24]
    ensures { result ≡ setting_flags tia.now }
{
    let (player0, player1) = (tia.player0.settings(), tia.player1.settings());
    let (missile0, missile1) = (tia.missile0.settings(), tia.missile1.settings());
    let (ball, playfield) = (tia.ball.settings(), tia.playfield.settings());
    let fire = tia.fire;
    [
        player0.reflected,
        player0.delayed,
        player1.reflected,
        player1.delayed,
        missile0.enabled,
        missile0.hidden,
        missile1.enabled,
        missile1.hidden,
        ball.enabled,
        ball.old_enabled,
        ball.delayed,
        playfield.mirrored,
        playfield.score,
        playfield.priority,
        tia.blank,
        tia.beam.hmove_blank,
        tia.sync.vsync,
        tia.sync.rose,
        tia.sync.wait_owed,
        fire.latching,
        fire.left.pressed,
        fire.left.latched,
        fire.right.pressed,
        fire.right.latched,
    ]
}
