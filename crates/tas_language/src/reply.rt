//! What is answered to a line of a script.

use vcs_inputs::Input;

/// What is answered to a line of a script. `at` is the number of edits that were made before the reply, an
/// accepted edit of this line included.
#[derive(Clone, Copy, Debug)]
pub enum Reply {
    /// `edit AT len N`: the edit was made.
    Edited {
        /// How many edits were made, this one included.
        at: u64,
        /// The movie's length in frames afterwards.
        len: usize,
    },
    /// `place AT len N`: the edit reaches past the movie's last input.
    Place {
        /// How many edits were made before.
        at: u64,
        /// The movie's length in frames.
        len: usize,
    },
    /// `long AT len N`: the movie would have too many inputs.
    Long {
        /// How many edits were made before.
        at: u64,
        /// The movie's length in frames.
        len: usize,
    },
    /// `full AT`: the history has as many edits as it may have.
    Full {
        /// How many edits were made before.
        at: u64,
    },
    /// `len AT N`: the movie's length.
    Measured {
        /// How many edits were made before.
        at: u64,
        /// The movie's length in frames.
        len: usize,
    },
    /// `input AT FRAME`: the input of the frame.
    Pressed {
        /// How many edits were made before.
        at: u64,
        /// The input.
        input: Input,
    },
    /// `no frame AT len N`: the movie has no such frame.
    NoFrame {
        /// How many edits were made before.
        at: u64,
        /// The movie's length in frames.
        len: usize,
    },
    /// `shot AT K ran R lit N`: the frame was drawn.
    Drawn {
        /// How many edits were made before.
        at: u64,
        /// The frame, counted from 0.
        frame: usize,
        /// How many frames were played for it.
        ran: u64,
        /// How many pixels of its picture aren't black.
        lit: usize,
    },
    /// `halted AT F00D 02`: the machine has halted in the frame or before it.
    Halted {
        /// How many edits were made before.
        at: u64,
        /// The address of the undocumented opcode.
        address: u16,
        /// The undocumented opcode.
        opcode: u8,
    },
    /// `work jobs J kept N stale S`: states were filled.
    Worked {
        /// How many jobs were run.
        jobs: usize,
        /// How many states were gained.
        kept: usize,
        /// How many jobs were of another cartridge than the movie's.
        stale: usize,
    },
    /// `out of memory`: memory was refused; the movie is as it was.
    OutOfMemory,
}
