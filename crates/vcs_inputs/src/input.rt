//! What is pressed and set during a frame.
#![tactic(auto)]

ghost use Rattle.std.specs.Prelude.{◌≡◌, ◌≤◌, ◌↔◌, IsTrue, if◌then◌else◌};
ghost use Rattle.vcs_inputs.specs.Input.{no_stick, no_input, are_same_inputs, switches_of, pins_of};
ghost use Rattle.vcs_inputs.specs.Inside.PinBits.{pin_bits};

use vcs_riot::Pins;

/// A joystick: which ways its stick is pushed, and its fire button.
/// (Stella Programmer's Guide, "Port A - Hand Controllers")
#[derive(Clone, Copy, Debug, PartialEq, Eq)]
pub struct Stick {
    /// Pushed to the right.
    pub right: bool,
    /// Pushed to the left.
    pub left: bool,
    /// Pushed down.
    pub down: bool,
    /// Pushed up.
    pub up: bool,
    /// The fire button is pressed.
    pub fire: bool,
}

/// All that is pressed and set during one frame: both joysticks and the console's switches.
/// (Stella Programmer's Guide, "Port B - Console Switches", "Port A - Hand Controllers")
#[derive(Clone, Copy, Debug)]
pub struct Input {
    /// The left joystick.
    pub left: Stick,
    /// The right joystick.
    pub right: Stick,
    /// Game reset is pressed.
    pub reset: bool,
    /// Game select is pressed.
    pub select: bool,
    /// The colour switch stands at black and white.
    pub mono: bool,
    /// The left difficulty switch stands at A.
    pub left_a: bool,
    /// The right difficulty switch stands at A.
    pub right_a: bool,
}

impl Stick {
    /// Nothing is pushed or pressed.
    fn none() -> Self
        ensures { result ≡ no_stick }
    {
        Stick {
            right: false,
            left: false,
            down: false,
            up: false,
            fire: false,
        }
    }

    /// What the stick's four pins show, from the highest down.
    fn pins(self) -> u8
        ensures value { result ≡ pin_bits self }
        ensures most { result ≤ 15 }
    {
        weight(!self.right, 8) + weight(!self.left, 4) + weight(!self.down, 2) + weight(!self.up, 1)
    }
}

impl Input {
    /// Nothing is pressed, the colour switch stands at colour and both difficulty switches at B.
    pub fn none() -> Self
        // `Input::none` has nothing pressed, the colour switch at colour and both difficulty switches at B.
        // Refused: none_is_black_and_white.
        ensures { result ≡ no_input }
    {
        Input {
            left: Stick::none(),
            right: Stick::none(),
            reset: false,
            select: false,
            mono: false,
            left_a: false,
            right_a: false,
        }
    }

    /// What the pins of the RIOT's two ports show.
    pub fn pins(&self) -> Pins
        // What the pins of the RIOT's two ports show: a pin of a joystick or of select and reset is 0 where it is
        // pushed or pressed, the colour switch is 1 at colour, a difficulty switch 1 at A, and what nothing drives is
        // 1.
        // Refused: sticks_swapped, select_and_reset_swapped*, pressed_reads_1*.
        ensures { result ≡ pins_of self.now }
    {
        Pins {
            a: 16 * self.left.pins() + self.right.pins(),
            b: self.console_pins(),
        }
    }

    /// All fifteen switches.
    fn switches(&self) -> [bool; 15]
        ensures { result ≡ switches_of self.now }
    {
        let (left, right) = (self.left, self.right);
        [
            left.right,
            left.left,
            left.down,
            left.up,
            left.fire,
            right.right,
            right.left,
            right.down,
            right.up,
            right.fire,
            self.reset,
            self.select,
            self.mono,
            self.left_a,
            self.right_a,
        ]
    }

    /// What the pins of the console switches show, from D7 down.
    fn console_pins(&self) -> u8
        ensures { result ≡ (pins_of self.now).b }
    {
        let difficulties = weight(self.right_a, 128) + weight(self.left_a, 64);
        let released = weight(!self.mono, 8) + weight(!self.select, 2) + weight(!self.reset, 1);
        // D5, D4 and D2, which nothing drives, read 1 (own).
        difficulties + 32 + 16 + released + 4
    }
}

impl PartialEq for Input {
    ghost use Rattle.std.specs.Cmp.{bool_eq_equiv, on_per, partial_equiv_from_equiv};
    ghost use Rattle.std.specs.Cmp.Lexicographic.{lists_equiv};
    ghost use Rattle.vcs_inputs.specs.Input.{switches_of, are_same_inputs};

    ghost eq = { are_same_inputs };

    ghost laws = { on_per switches_of (partial_equiv_from_equiv (lists_equiv bool_eq_equiv)) };

    /// Whether all is pressed and set alike.
    fn eq(&self, other: &Input) -> bool
        ensures value { result ≡ are_same_inputs self.now other.now }
        // Two inputs are equal if and only if all fifteen switches are.
        // Refused: equality_ignores_fire.
        ensures same { IsTrue result ↔ (self.now ≡ other.now) }
    {
        self.switches() == other.switches()
    }
}

impl Eq for Input {
    ghost use Rattle.std.specs.Cmp.{bool_eq_equiv, on_equiv};
    ghost use Rattle.std.specs.Cmp.Lexicographic.{lists_equiv};
    ghost use Rattle.vcs_inputs.specs.Input.{switches_of};

    ghost laws = { on_equiv switches_of (lists_equiv bool_eq_equiv) };
}

/// What a bit adds to a byte.
fn weight(bit: bool, power: u8) -> u8
    ensures value { result ≡ (if bit then power else 0) }
    ensures most { result ≤ power }
{
    if bit { power } else { 0 }
}
