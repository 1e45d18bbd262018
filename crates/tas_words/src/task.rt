//! What the program can be asked to do.
//!
//! `HasWords` is one table of what the words of a command ask for: name, words, the ranges of numbers, a row for each
//! task. The commands as clap takes them are another one (`command_line`), since clap's definitions of what words reach
//! are over it. An EVERY of 0 counts as 1 where a task is made without words; words can't say 0.

use tas_language::MAX_NUMBER;

/// The most frames of a movie.
pub const MAX_FRAMES: u32 = tas_movie::MAX_FRAMES as u32;

/// The most instructions of one trace.
pub const MAX_INSTRUCTIONS: u32 = 1_000_000;

/// The greatest number of a frame, which is that of a script's numbers.
pub const MAX_FRAME_NUMBER: u32 = MAX_NUMBER as u32;

/// The most frames of one stretch of a digest.
pub const MAX_EVERY: u32 = 262_144;

/// The default of EVERY: how many frames a line of a digest is for.
pub const DEFAULT_EVERY: u32 = 600;

/// The most workers of one export.
pub const MAX_WORKERS: u32 = tas_film::MAX_WORKERS as u32;

/// The most states of a layer that a search can be asked to keep.
pub const MAX_STATES: u32 = MAX_FRAME_NUMBER;

/// The default of STATES: how many states of a layer a search keeps at most.
pub const DEFAULT_STATES: u32 = 100_000;

/// The default of N of a search: for how many frames a choice is held.
pub const DEFAULT_HOLD: u32 = 1;

/// The most parts of a search's space.
pub const MAX_PARTS: usize = 1_000_000;

/// The greatest number of a line of a journal that can be named.
pub const MAX_LINE: u32 = u32::MAX;

/// The default of WORKERS of a search and of a verification.
pub const DEFAULT_WORKERS: u32 = 1;

/// The names of a movie's two files.
#[derive(Clone, Copy)]
pub struct MovieFiles<'a> {
    /// The name of the cartridge's file.
    pub cart: &'a str,
    /// The name of the file with the movie's text.
    pub movie: &'a str,
}

/// A part of a search's space: which one of how many.
#[derive(Clone, Copy)]
pub struct PartWords {
    /// Which one, counted from 1, up to `of`.
    pub number: usize,
    /// How many parts the space has, 1 to [`MAX_PARTS`].
    pub of: usize,
}

/// The words of a search.
#[derive(Clone, Copy)]
pub struct SearchWords<'a> {
    /// The name of the cartridge's file.
    pub cart: &'a str,
    /// The first frame that a choice is made for, counted from 0, up to 9,999,999.
    pub from: usize,
    /// How many frames a sequence has, or at most has, 0 to [`MAX_FRAMES`].
    pub frames: usize,
    /// The text of the goal.
    pub goal: &'a str,
    /// The name of the file with the choices; those of the left stick if not given.
    pub choices: Option<&'a str>,
    /// The name of the file with the names of addresses; there are none if not given.
    pub names: Option<&'a str>,
    /// For how many frames a choice is held, 1 to [`MAX_FRAMES`].
    pub hold: usize,
    /// The part of the space that is searched; the only one of one, which is all of it, if not given.
    pub part: PartWords,
    /// How many states of a layer are kept at most, 1 to [`MAX_STATES`].
    pub states: usize,
    /// How many workers play a layer, 1 to [`MAX_WORKERS`].
    pub workers: usize,
    /// The name of the new file that the report goes to, beside standard error; none if not given.
    pub report: Option<&'a str>,
}

/// The words of a recovery.
#[derive(Clone, Copy)]
pub struct RecoveryWords<'a> {
    /// The name of the file of the cartridge that the journal began with.
    pub cart: &'a str,
    /// The first line that is left out, counted from 1, up to [`MAX_LINE`]; none is if not given.
    pub until: Option<u32>,
    /// The name of the file that is replaced by the cartridge of the movie that is recovered; none is if not given.
    pub image: Option<&'a str>,
}

/// The words of a verification.
#[derive(Clone, Copy)]
pub struct VerifyWords<'a> {
    /// The name of the directory in which cartridges are found by their SHA-256; none are if not given.
    pub carts: Option<&'a str>,
    /// How many workers play the movies, 1 to [`MAX_WORKERS`].
    pub workers: usize,
}

/// What a conversation starts from.
#[derive(Clone, Copy)]
pub enum Start<'a> {
    /// A blank cartridge with no frames.
    Blank,
    /// A cartridge with no frames.
    Cart {
        /// The name of the cartridge's file.
        cart: &'a str,
    },
    /// A movie.
    Movie(MovieFiles<'a>),
}

/// The words of a conversation.
#[derive(Clone, Copy)]
pub struct TalkWords<'a> {
    /// What it starts from.
    pub start: Start<'a>,
    /// The name of the new file that its journal goes to; it has none if not given.
    pub journal: Option<&'a str>,
}

/// The names of the two files of one of a desk's conversations.
#[derive(Clone, Copy)]
pub struct Pair<'a> {
    /// The name of the file that its lines are read from.
    pub input: &'a str,
    /// The name of the file that its answers are written to.
    pub output: &'a str,
}

/// One to eight pairs, in order.
#[derive(Clone, Copy)]
pub struct Pairs<'a> {
    /// The first pair.
    pub first: Pair<'a>,
    /// The second one.
    pub second: Option<Pair<'a>>,
    /// The third one.
    pub third: Option<Pair<'a>>,
    /// The fourth one.
    pub fourth: Option<Pair<'a>>,
    /// The fifth one.
    pub fifth: Option<Pair<'a>>,
    /// The sixth one.
    pub sixth: Option<Pair<'a>>,
    /// The seventh one.
    pub seventh: Option<Pair<'a>>,
    /// The eighth one.
    pub eighth: Option<Pair<'a>>,
}

/// The words of a desk.
#[derive(Clone, Copy)]
pub struct DeskWords<'a> {
    /// The name of the cartridge's file of the movie to start from.
    pub cart: &'a str,
    /// The name of the file with this movie's text.
    pub movie: &'a str,
    /// The files of lines and of answers.
    pub pairs: Pairs<'a>,
    /// The name of the new file that its journal goes to; it has none if not given.
    pub journal: Option<&'a str>,
}

/// A command with its words.
#[derive(Clone, Copy)]
pub enum Task<'a> {
    /// Trace the first instructions of the cartridge on standard input.
    Trace {
        /// How many, 0 to 1,000,000.
        instructions: u32,
    },
    /// Report the length of the movie on standard input.
    Check {
        /// The name of the cartridge's file.
        cart: &'a str,
    },
    /// Write the text of runs of the movie on standard input.
    Migrate {
        /// The name of the cartridge's file.
        cart: &'a str,
    },
    /// Write the text of a movie in which nothing is pressed.
    New {
        /// The name of the cartridge's file.
        cart: &'a str,
        /// How many frames it has, 0 to [`MAX_FRAMES`]; more count as so many.
        frames: usize,
    },
    /// Write the text of the movie that the journal on standard input makes.
    Recover(RecoveryWords<'a>),
    /// Search for the best inputs of some frames of the movie on standard input, and write the script that makes them.
    Search(SearchWords<'a>),
    /// Play the movies of the manifest on standard input, and compare each with its digest.
    Verify(VerifyWords<'a>),
    /// Draw a frame of the movie on standard input.
    Shot {
        /// The name of the cartridge's file.
        cart: &'a str,
        /// The frame, counted from 0, up to 9,999,999.
        frame: usize,
    },
    /// Draw frames of the movie on standard input, any number of them, as they are played.
    Film {
        /// The name of the cartridge's file.
        cart: &'a str,
        /// The first frame, counted from 0, up to 9,999,999; the movie's first one if not given.
        from: Option<usize>,
        /// The frame after the last one, up to 9,999,999; that after the movie's last one if not given.
        to: Option<usize>,
    },
    /// Draw some frames of the movie on standard input.
    Export {
        /// The name of the cartridge's file.
        cart: &'a str,
        /// The first frame, counted from 0, up to 9,999,999.
        from: usize,
        /// The frame after the last one, up to 9,999,999.
        to: usize,
        /// How many workers play them, 1 to [`MAX_WORKERS`].
        workers: usize,
    },
    /// Write the RAM after some numbers of frames of the movie on standard input.
    Ram {
        /// The name of the cartridge's file.
        cart: &'a str,
        /// The first number of frames, up to 9,999,999.
        from: usize,
        /// The number after the last one, up to 9,999,999.
        to: usize,
        /// The name of the file with the names of addresses, for a table of their bytes; all bytes are written if not given.
        names: Option<&'a str>,
    },
    /// Write the digest of what the movie on standard input plays.
    Digest {
        /// The name of the cartridge's file.
        cart: &'a str,
        /// How many frames a stretch has, 1 to [`MAX_EVERY`]; 0 counts as 1.
        every: usize,
    },
    /// Write where the movie on standard input first differs from an older one.
    Compare {
        /// The name of the cartridge's file.
        cart: &'a str,
        /// The name of the file with the older movie's text.
        old: &'a str,
    },
    /// Write the frames of the movie on standard input whose input nothing reads.
    Lag {
        /// The name of the cartridge's file.
        cart: &'a str,
    },
    /// Make the edits of a script on the movie on standard input.
    Edit {
        /// The name of the cartridge's file.
        cart: &'a str,
        /// The name of the script's file.
        script: &'a str,
        /// The name of the file with the text of a second movie, from which lines may copy.
        other: Option<&'a str>,
    },
    /// Write the text of some frames of the movie on standard input.
    Cut {
        /// The name of the cartridge's file.
        cart: &'a str,
        /// The first frame, counted from 0, up to 9,999,999.
        from: usize,
        /// The frame after the last one, up to 9,999,999.
        to: usize,
    },
    /// Write the script that makes the movie on standard input of an older one.
    Diff {
        /// The name of the cartridge's file.
        cart: &'a str,
        /// The name of the file with the older movie's text.
        old: &'a str,
    },
    /// Run the script on standard input, from a blank cartridge with no frames, or from this movie on.
    Script(Option<MovieFiles<'a>>),
    /// Answer the lines on standard input, each before the next one is read.
    Talk(TalkWords<'a>),
    /// Answer the lines of several files at once, all on one movie, and write the text of the movie that they make.
    Desk(DeskWords<'a>),
}

/// A task, and where its output goes.
#[derive(Clone, Copy)]
pub struct Order<'a> {
    /// The task.
    pub task: Task<'a>,
    /// The name of the file that is replaced by its output, for [`Task::Talk`] by the movie that it leaves; `None` where none is.
    pub output: Option<&'a str>,
}
