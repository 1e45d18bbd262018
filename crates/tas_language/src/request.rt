//! What a line of a conversation asks for.

use crate::{Command, Retouch};

/// What a line of a conversation asks for.
#[derive(Clone, Copy)]
pub enum Request {
    /// A line of a script.
    Do(Command),
    /// A change that depends on the movie's frames.
    Retouch(Retouch),
    /// `picture K`: the pixmap of one frame.
    Picture {
        /// The frame, counted from 0.
        frame: usize,
    },
    /// `pictures FROM TO`: the pixmaps of the frames from one to the one before another.
    Pictures {
        /// The first frame, counted from 0.
        from: usize,
        /// The place after the last one.
        to: usize,
    },
    /// `ram K`: RAM after this many frames.
    Ram {
        /// The number of frames from power-on.
        frames: usize,
    },
    /// `digest K`: the digests of RAM after one frame and of its pixmap.
    Digest {
        /// The frame, counted from 0.
        frame: usize,
    },
    /// `lag A B`: the lag frames from one frame to the one before another.
    Lag {
        /// The first frame, counted from 0.
        from: usize,
        /// The place after the last one.
        to: usize,
    },
    /// `inputs FROM TO`: the runs of equal inputs from one frame to the one before another.
    Inputs {
        /// The first frame, counted from 0.
        from: usize,
        /// The place after the last one.
        to: usize,
    },
    /// `movie`: the movie's text.
    Movie,
    /// `states`: the frames of the kept states.
    States,
    /// `share`: the greenzone is brought up to the movie, and gains the states that are kept for all.
    Share,
    /// `history FROM`: the entries of the history from one on.
    History {
        /// The number of the first entry, counted from 0.
        from: usize,
    },
    /// `version`: the program's version, the machine's profile, and the format of conversations.
    Version,
    /// `begin`: a draft of the movie is opened.
    Begin,
    /// `commit`: the draft's change is made.
    Commit,
    /// `drop`: the draft is given up.
    Drop,
    /// `quit`: the conversation's end.
    Quit,
}
