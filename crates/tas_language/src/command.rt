//! What a line of a script asks for.

use crate::{Change, Image};

/// What a line of a script asks for. Numbers are at most [`MAX_NUMBER`](crate::MAX_NUMBER).
#[derive(Clone, Copy, Debug, PartialEq, Eq)]
pub enum Command {
    /// `load OFF=HEX ..`, or `load2 OFF=HEX ..` for a small cartridge: another cartridge.
    Load {
        /// The cartridge's bytes.
        image: Image,
    },
    /// `insert`, `replace` or `delete`: the movie's inputs change.
    Edit(Change),
    /// `len`: the movie's length.
    Length,
    /// `input K`: the input of one frame.
    InputAt {
        /// The frame, counted from 0.
        frame: usize,
    },
    /// `shot K`: the picture of one frame.
    Shot {
        /// The frame, counted from 0.
        frame: usize,
    },
    /// `work K`: the states up to a frame are filled.
    Work {
        /// The number of frames from power-on; it may be more than the movie has.
        frames: usize,
    },
}
