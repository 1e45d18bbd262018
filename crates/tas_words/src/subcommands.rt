//! The commands, with their help and their words.

ghost use Rattle.std.specs.List.{list_all};
ghost use Rattle.std.specs.Prelude.{◌≡◌, map, true};
ghost use Rattle.tas_words.specs.CommandLine.{empty_line, first_line, last_line, later_line, next_line, with_commands};
ghost use Rattle.tas_words.specs.Guides.{first_guides, guide_of, has_its_words, last_guides, later_guides, next_guides};

use crate::helps::{
    ANSWERS, CHECK_HELP, COMPARE_HELP, CUT_HELP, DESK_HELP, DIFF_HELP, DIGEST_HELP, EDIT_HELP,
    EXPORT_HELP, FILM_HELP, LAG_HELP, LINES, MIGRATE_HELP, NEW_HELP, RAM_HELP, RECOVER_HELP,
    SCRIPT_HELP, SEARCH_HELP, SHOT_HELP, TALK_HELP, TRACE_HELP, VERIFY_HELP,
};
use crate::{
    MAX_EVERY, MAX_FRAME_NUMBER, MAX_FRAMES, MAX_INSTRUCTIONS, MAX_LINE, MAX_STATES, MAX_WORKERS,
};

/// What a word of a command is.
#[derive(Clone, Copy)]
pub(crate) enum WordKind {
    /// The name of a file, or another text.
    File,
    /// The name of a file that may be left out.
    OptionalFile,
    /// The name of a file that may be left out, together with another one.
    PairedFile {
        other: &'static str,
    },
    /// The name of a file after a flag, which goes with another one.
    Flag {
        flag: &'static str,
        other: &'static str,
    },
    /// The name of a file after a flag, which goes with no other one.
    LoneFlag {
        flag: &'static str,
    },
    /// The name of a file after `-o` or `--output`.
    Output,
    /// A number from the least to the most.
    Number {
        least: u32,
        most: u32,
    },
    /// A number from the least to the most that may be left out.
    OptionalNumber {
        least: u32,
        most: u32,
    },
    /// The same after a flag.
    NumberFlag {
        flag: &'static str,
        least: u32,
        most: u32,
    },
}

/// A word of a command.
#[derive(Clone, Copy)]
pub(crate) struct Word {
    pub(crate) name: &'static str,
    pub(crate) help: &'static str,
    pub(crate) kind: WordKind,
}

/// A command, what it does in a line and in a text, how it is called, and its words.
#[derive(Clone, Copy)]
pub(crate) struct Subcommand {
    pub(crate) name: &'static str,
    /// Its call, with what its standard input is.
    pub(crate) usage: &'static str,
    /// What its standard input is, with a call of it, for those who take it for a word; `None` where it reads none.
    pub(crate) tip: Option<&'static str>,
    pub(crate) about: &'static str,
    pub(crate) help: &'static str,
    pub(crate) words: &'static [Word],
}

const CARTRIDGE: Word = Word {
    name: "CART",
    help: "The cartridge's file: its image of 4096 or 2048 bytes",
    kind: WordKind::File,
};

const FRAME: WordKind = WordKind::Number {
    least: 0,
    most: MAX_FRAME_NUMBER,
};

const OPTIONAL_FRAME: WordKind = WordKind::OptionalNumber {
    least: 0,
    most: MAX_FRAME_NUMBER,
};

const FROM: Word = Word {
    name: "FROM",
    help: "The first frame, counted from 0",
    kind: FRAME,
};

const TO: Word = Word {
    name: "TO",
    help: "The frame after the last one",
    kind: FRAME,
};

const OLD: Word = Word {
    name: "OLD",
    help: "The file with the older movie's text",
    kind: WordKind::File,
};

const OUTPUT: Word = Word {
    name: "FILE",
    help: "Replaces FILE with the output once that is whole; standard output stays empty",
    kind: WordKind::Output,
};

const LEFT: Word = Word {
    name: "FILE",
    help: "Replaces FILE with the movie that the conversation leaves, at its end",
    kind: WordKind::Output,
};

const JOURNAL: Word = Word {
    name: "JOURNAL",
    help: "A new file that gets each edit before it is answered, for 'tas recover'",
    kind: WordKind::LoneFlag { flag: "journal" },
};

/// The first of the four lists of commands: a proof over one list of all is too large.
static FIRST_SUBCOMMANDS: [Subcommand; 10] = [
    Subcommand {
        name: "trace",
        usage: "tas trace <N> < CART",
        tip: Some("the cartridge is read from standard input: tas trace 3 < game.bin"),
        about: "Writes the first instructions of a cartridge, a line for each",
        help: TRACE_HELP,
        words: &[Word {
            name: "N",
            help: "How many instructions, 0 to 1000000",
            kind: WordKind::Number {
                least: 0,
                most: MAX_INSTRUCTIONS,
            },
        }],
    },
    Subcommand {
        name: "check",
        usage: "tas check <CART> < MOVIE",
        tip: Some("the movie is read from standard input: tas check game.bin < game.movie"),
        about: "Checks a movie text and prints its length",
        help: CHECK_HELP,
        words: &[CARTRIDGE],
    },
    Subcommand {
        name: "migrate",
        usage: "tas migrate [OPTIONS] <CART> < MOVIE",
        tip: Some(
            "the movie is read from standard input: tas migrate game.bin -o new.movie < old.movie",
        ),
        about: "Writes a movie text, older ones too, as a text of runs ('a26movie 2')",
        help: MIGRATE_HELP,
        words: &[CARTRIDGE, OUTPUT],
    },
    Subcommand {
        name: "shot",
        usage: "tas shot <CART> <K> < MOVIE",
        tip: Some(
            "the movie is read from standard input: tas shot game.bin 60 < game.movie > frame60.ppm",
        ),
        about: "Writes the picture of one frame of a movie",
        help: SHOT_HELP,
        words: &[
            CARTRIDGE,
            Word {
                name: "K",
                help: "The frame, counted from 0",
                kind: FRAME,
            },
        ],
    },
    Subcommand {
        name: "film",
        usage: "tas film <CART> [FROM] [TO] < MOVIE",
        tip: Some(
            "the movie is read from standard input: tas film game.bin 0 600 < game.movie > film.ppm",
        ),
        about: "Writes the pictures of a movie's frames as they are played, any number of them",
        help: FILM_HELP,
        words: &[
            CARTRIDGE,
            Word {
                name: "FROM",
                help: "The first frame, counted from 0: 0 if not given",
                kind: OPTIONAL_FRAME,
            },
            Word {
                name: "TO",
                help: "The frame after the last one: the movie's length if not given",
                kind: OPTIONAL_FRAME,
            },
        ],
    },
    Subcommand {
        name: "export",
        usage: "tas export <CART> <FROM> <TO> <WORKERS> < MOVIE",
        tip: Some(
            "the movie is read from standard input: tas export game.bin 0 600 4 < game.movie > film.ppm",
        ),
        about: "Writes the pictures of some frames of a movie, one after the other",
        help: EXPORT_HELP,
        words: &[
            CARTRIDGE,
            FROM,
            TO,
            Word {
                name: "WORKERS",
                help: "How many threads play them, 1 to 16",
                kind: WordKind::Number {
                    least: 1,
                    most: MAX_WORKERS,
                },
            },
        ],
    },
    Subcommand {
        name: "ram",
        usage: "tas ram [OPTIONS] <CART> <FROM> <TO> < MOVIE",
        tip: Some("the movie is read from standard input: tas ram game.bin 1 61 < game.movie"),
        about: "Writes the RAM after some numbers of frames of a movie, a line for each",
        help: RAM_HELP,
        words: &[
            CARTRIDGE,
            Word {
                name: "FROM",
                help: "The first number of frames; 0 is power-on",
                kind: FRAME,
            },
            Word {
                name: "TO",
                help: "The number after the last one",
                kind: FRAME,
            },
            Word {
                name: "NAMES",
                help: "The file with names of addresses, for a table of their bytes",
                kind: WordKind::Flag {
                    flag: "names",
                    other: "TO",
                },
            },
        ],
    },
    Subcommand {
        name: "digest",
        usage: "tas digest <CART> [EVERY] < MOVIE",
        tip: Some("the movie is read from standard input: tas digest game.bin 600 < game.movie"),
        about: "Plays a movie and writes digests of its RAM and pictures",
        help: DIGEST_HELP,
        words: &[
            CARTRIDGE,
            Word {
                name: "EVERY",
                help: "How many frames a line is for, 1 to 262144: 600 if not given",
                kind: WordKind::OptionalNumber {
                    least: 1,
                    most: MAX_EVERY,
                },
            },
        ],
    },
    Subcommand {
        name: "compare",
        usage: "tas compare <CART> <OLD> < MOVIE",
        tip: Some(
            "the newer movie is read from standard input: tas compare game.bin old.movie < new.movie",
        ),
        about: "Writes the first frames at which two movies differ",
        help: COMPARE_HELP,
        words: &[CARTRIDGE, OLD],
    },
    Subcommand {
        name: "lag",
        usage: "tas lag <CART> < MOVIE",
        tip: Some("the movie is read from standard input: tas lag game.bin < game.movie"),
        about: "Writes the frames of a movie whose input nothing reads",
        help: LAG_HELP,
        words: &[CARTRIDGE],
    },
];

/// Those after them.
static NEXT_SUBCOMMANDS: [Subcommand; 4] = [
    Subcommand {
        name: "new",
        usage: "tas new [OPTIONS] <CART> <FRAMES>",
        tip: None,
        about: "Writes the text of a movie in which nothing is pressed",
        help: NEW_HELP,
        words: &[
            CARTRIDGE,
            Word {
                name: "FRAMES",
                help: "How many frames it has, 0 to 262144",
                kind: WordKind::Number {
                    least: 0,
                    most: MAX_FRAMES,
                },
            },
            OUTPUT,
        ],
    },
    Subcommand {
        name: "recover",
        usage: "tas recover [OPTIONS] <CART> < JOURNAL",
        tip: Some(
            "the journal is read from standard input: tas recover game.bin -o game.movie < game.journal",
        ),
        about: "Writes the text of the movie that a journal makes",
        help: RECOVER_HELP,
        words: &[
            CARTRIDGE,
            Word {
                name: "IMAGE",
                help: "Replaces IMAGE with the cartridge of that movie, once its text is written",
                kind: WordKind::LoneFlag { flag: "cart" },
            },
            Word {
                name: "LINE",
                help: "Makes the edits of the lines before line LINE alone",
                kind: WordKind::NumberFlag {
                    flag: "until",
                    least: 1,
                    most: MAX_LINE,
                },
            },
            OUTPUT,
        ],
    },
    Subcommand {
        name: "search",
        usage: "tas search [OPTIONS] <CART> <FROM> <FRAMES> <GOAL> < MOVIE",
        tip: Some(
            "the movie is read from standard input: tas search game.bin 60 12 'reach byte:80 == 85' < game.movie",
        ),
        about: "Searches for the best inputs of some frames and writes the script that makes them",
        help: SEARCH_HELP,
        words: &[
            CARTRIDGE,
            Word {
                name: "FROM",
                help: "The first frame to choose an input for, counted from 0",
                kind: FRAME,
            },
            Word {
                name: "FRAMES",
                help: "How many frames to choose inputs for, 0 to 262144",
                kind: WordKind::Number {
                    least: 0,
                    most: MAX_FRAMES,
                },
            },
            Word {
                name: "GOAL",
                help: "What is sought, one word: 'reach E', 'most E' or 'least E'",
                kind: WordKind::File,
            },
            Word {
                name: "CHOICES",
                help: "The file with the inputs to choose from: the left stick's if not given",
                kind: WordKind::Flag {
                    flag: "choices",
                    other: "GOAL",
                },
            },
            Word {
                name: "NAMES",
                help: "The file with names of addresses, for the goal",
                kind: WordKind::Flag {
                    flag: "names",
                    other: "GOAL",
                },
            },
            Word {
                name: "N",
                help: "For how many frames a choice is held, 1 to 262144: 1 if not given",
                kind: WordKind::NumberFlag {
                    flag: "hold",
                    least: 1,
                    most: MAX_FRAMES,
                },
            },
            Word {
                name: "K/N",
                help: "Searches part K of N alone, N up to 1000000: all if not given",
                kind: WordKind::Flag {
                    flag: "first",
                    other: "GOAL",
                },
            },
            Word {
                name: "STATES",
                help: "How many states a layer may have, 1 to 9999999: 100000 if not given",
                kind: WordKind::NumberFlag {
                    flag: "most",
                    least: 1,
                    most: MAX_STATES,
                },
            },
            Word {
                name: "WORKERS",
                help: "How many threads share the work, 1 to 16: 1 if not given",
                kind: WordKind::NumberFlag {
                    flag: "workers",
                    least: 1,
                    most: MAX_WORKERS,
                },
            },
            Word {
                name: "REPORT",
                help: "A new file for the lines that standard error gets",
                kind: WordKind::Flag {
                    flag: "report",
                    other: "GOAL",
                },
            },
        ],
    },
    Subcommand {
        name: "verify",
        usage: "tas verify [OPTIONS] < MANIFEST",
        tip: Some(
            "the manifest is read from standard input: tas verify --carts roms < movies.manifest",
        ),
        about: "Plays many movies and says which of them still play as their digests say",
        help: VERIFY_HELP,
        words: &[
            Word {
                name: "DIR",
                help: "The directory in which cartridges are found by their SHA-256",
                kind: WordKind::LoneFlag { flag: "carts" },
            },
            Word {
                name: "WORKERS",
                help: "How many threads play the movies, 1 to 16: 1 if not given",
                kind: WordKind::NumberFlag {
                    flag: "workers",
                    least: 1,
                    most: MAX_WORKERS,
                },
            },
        ],
    },
];

/// Those after these.
static LATER_SUBCOMMANDS: [Subcommand; 5] = [
    Subcommand {
        name: "edit",
        usage: "tas edit [OPTIONS] <CART> <SCRIPT> < MOVIE",
        tip: Some(
            "the movie is read from standard input: tas edit game.bin fix.script -o new.movie < game.movie",
        ),
        about: "Makes the edits of a script on a movie and writes its text",
        help: EDIT_HELP,
        words: &[
            CARTRIDGE,
            Word {
                name: "SCRIPT",
                help: "The script's file: an edit a line",
                kind: WordKind::File,
            },
            Word {
                name: "OTHER",
                help: "The file with the text of a second movie, for 'copy other'",
                kind: WordKind::Flag {
                    flag: "with",
                    other: "SCRIPT",
                },
            },
            OUTPUT,
        ],
    },
    Subcommand {
        name: "cut",
        usage: "tas cut [OPTIONS] <CART> <FROM> <TO> < MOVIE",
        tip: Some(
            "the movie is read from standard input: tas cut game.bin 60 120 -o new.movie < game.movie",
        ),
        about: "Writes the text of the movie of some frames of a movie alone",
        help: CUT_HELP,
        words: &[CARTRIDGE, FROM, TO, OUTPUT],
    },
    Subcommand {
        name: "diff",
        usage: "tas diff [OPTIONS] <CART> <OLD> < MOVIE",
        tip: Some(
            "the newer movie is read from standard input: tas diff game.bin old.movie < new.movie",
        ),
        about: "Writes the script that turns one movie into another",
        help: DIFF_HELP,
        words: &[CARTRIDGE, OLD, OUTPUT],
    },
    Subcommand {
        name: "script",
        usage: "tas script [OPTIONS] < SCRIPT",
        tip: Some("the script is read from standard input: tas script < game.script"),
        about: "Edits a movie by a script and writes the replies",
        help: SCRIPT_HELP,
        words: &[
            Word {
                name: "CART",
                help: "The cartridge's file of a movie to start from",
                kind: WordKind::Flag {
                    flag: "cart",
                    other: "MOVIE",
                },
            },
            Word {
                name: "MOVIE",
                help: "The file with this movie's text",
                kind: WordKind::Flag {
                    flag: "movie",
                    other: "CART",
                },
            },
        ],
    },
    Subcommand {
        name: "talk",
        usage: "tas talk [OPTIONS] [CART] [MOVIE] < LINES",
        tip: Some(
            "the conversation is read from standard input: tas talk game.bin game.movie < lines",
        ),
        about: "Answers lines, each before the next one is read",
        help: TALK_HELP,
        words: &[
            Word {
                name: "CART",
                help: "The file of a cartridge to start from",
                kind: WordKind::OptionalFile,
            },
            Word {
                name: "MOVIE",
                help: "The file with the text of a movie to start from",
                kind: WordKind::OptionalFile,
            },
            JOURNAL,
            LEFT,
        ],
    },
];

/// The last one.
static LAST_SUBCOMMANDS: [Subcommand; 1] = [Subcommand {
    name: "desk",
    usage: "tas desk [OPTIONS] <CART> <MOVIE> <IN0> <OUT0> [IN1 OUT1] .. [IN7 OUT7]",
    tip: None,
    about: "Answers the lines of several programs at once, which edit one movie",
    help: DESK_HELP,
    words: &[
        CARTRIDGE,
        Word {
            name: "MOVIE",
            help: "The file with the text of the movie to start from",
            kind: WordKind::File,
        },
        JOURNAL,
        Word {
            name: "IN0",
            help: "The file that the first program's lines are read from",
            kind: WordKind::File,
        },
        Word {
            name: "OUT0",
            help: "The file that their answers are written to",
            kind: WordKind::File,
        },
        Word {
            name: "IN1",
            help: LINES,
            kind: WordKind::PairedFile { other: "OUT1" },
        },
        Word {
            name: "OUT1",
            help: ANSWERS,
            kind: WordKind::PairedFile { other: "IN1" },
        },
        Word {
            name: "IN2",
            help: LINES,
            kind: WordKind::PairedFile { other: "OUT2" },
        },
        Word {
            name: "OUT2",
            help: ANSWERS,
            kind: WordKind::PairedFile { other: "IN2" },
        },
        Word {
            name: "IN3",
            help: LINES,
            kind: WordKind::PairedFile { other: "OUT3" },
        },
        Word {
            name: "OUT3",
            help: ANSWERS,
            kind: WordKind::PairedFile { other: "IN3" },
        },
        Word {
            name: "IN4",
            help: LINES,
            kind: WordKind::PairedFile { other: "OUT4" },
        },
        Word {
            name: "OUT4",
            help: ANSWERS,
            kind: WordKind::PairedFile { other: "IN4" },
        },
        Word {
            name: "IN5",
            help: LINES,
            kind: WordKind::PairedFile { other: "OUT5" },
        },
        Word {
            name: "OUT5",
            help: ANSWERS,
            kind: WordKind::PairedFile { other: "IN5" },
        },
        Word {
            name: "IN6",
            help: LINES,
            kind: WordKind::PairedFile { other: "OUT6" },
        },
        Word {
            name: "OUT6",
            help: ANSWERS,
            kind: WordKind::PairedFile { other: "IN6" },
        },
        Word {
            name: "IN7",
            help: LINES,
            kind: WordKind::PairedFile { other: "OUT7" },
        },
        Word {
            name: "OUT7",
            help: ANSWERS,
            kind: WordKind::PairedFile { other: "IN7" },
        },
    ],
}];

/// The program's first commands, which make the first part of its command line.
pub(crate) fn first_subcommands() -> &'static [Subcommand]
    ensures line { with_commands empty_line result.now ≡ first_line }
    // `guides`, `usages`: each command has the usage of a table beside the code, which ends with what it reads from
    // standard input, where it reads it. Each but that of `desk` begins with the command's name, whether it has flags,
    // and each of its words in order, as `<X>` where it is required and `[X]` where it may be left out.
    // Refused: usage_of_a_shot_hides_the_movie.
    ensures guides { map guide_of result.now ≡ first_guides }
    ensures usages { list_all has_its_words result.now ≡ true }
{
    &FIRST_SUBCOMMANDS
}

/// Those after them, which make the next part.
pub(crate) fn next_subcommands() -> &'static [Subcommand]
    ensures line { with_commands first_line result.now ≡ next_line }
    ensures guides { map guide_of result.now ≡ next_guides }
    ensures usages { list_all has_its_words result.now ≡ true }
{
    &NEXT_SUBCOMMANDS
}

/// Those after these, which make the part after it.
pub(crate) fn later_subcommands() -> &'static [Subcommand]
    ensures line { with_commands next_line result.now ≡ later_line }
    ensures guides { map guide_of result.now ≡ later_guides }
    ensures usages { list_all has_its_words result.now ≡ true }
{
    &LATER_SUBCOMMANDS
}

/// The last one, which makes the rest of it.
pub(crate) fn last_subcommands() -> &'static [Subcommand]
    ensures line { with_commands later_line result.now ≡ last_line }
    ensures guides { map guide_of result.now ≡ last_guides }
{
    &LAST_SUBCOMMANDS
}
