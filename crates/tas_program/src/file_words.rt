//! The words that name files: which of them a desk or a conversation refuses before it opens any.
//!
//! What the folder shows decides before any file is opened, in the order of the words: a fault names one word. Two
//! words of a desk that are only read count, too: each is most likely a slip, and a copy of the file serves whoever
//! means it. Pipes and devices lose nothing and may stand for several words. Standard streams are looked at by their
//! names in /dev, so that a folder in memory shows them, too. A JOURNAL must be new: it would go over the bytes
//! of a file that is there, and what somebody else's edits left in it would be taken for its own. A recovery's words
//! are looked at where IMAGE is among them, which is replaced beside the output.
//!
//! No contract can say that a file wasn't opened, since opening leaves a folder as it was. So `open_to_write` takes a
//! `Permit`, which only `check_words` makes. It is bound to no task: that `run_task` asks for its own task's is seen by
//! reading.

ghost use Rattle.std.specs.Prelude.{◌≡◌, option_map};
ghost use Rattle.tas_program.specs.FileWords.{AreSeen, IsSeen, WordsEnd, are_same, cart_name, desk_name, first_fault, first_named, first_same, has_text};
ghost use Rattle.tas_program.specs.FileWords.{has_bytes, is_pair_output, journal_fault, kept_name, movie_name, name_of, pair_at, pair_words, seat_fault, talk_name, there_fault, word_fault};

use crate::{Folder, OrdinaryFile};
use std::fmt;
use std::fmt::{Display, Formatter, Write};
use tas_words::{DeskWords, Pair, Pairs, RecoveryWords, Start, TalkWords, Task};
use thiserror::Error;

/// A word that names a file, or a standard stream. Its text is the word's name in the help.
#[derive(Clone, Copy, Debug, PartialEq, Eq)]
pub enum FileWord {
    /// The cartridge.
    Cart,
    /// The movie.
    Movie,
    /// The script of edits.
    Script,
    /// The second movie.
    Other,
    /// The older movie.
    Old,
    /// The file that the output replaces.
    File,
    /// The lines of the pair of this number, counted from 0.
    In(usize),
    /// The answers to the pair of this number.
    Out(usize),
    /// The new file of the journal.
    Journal,
    /// Standard input.
    Input,
    /// Standard output.
    Output,
    /// The file that a recovery's cartridge replaces.
    Image,
}

impl Display for FileWord {
    fn fmt<W: Write>(&self, f: &mut Formatter<W>) -> fmt::Result {
        match self {
            FileWord::Cart => f.write_str("CART"),
            FileWord::Movie => f.write_str("MOVIE"),
            FileWord::Script => f.write_str("SCRIPT"),
            FileWord::Other => f.write_str("OTHER"),
            FileWord::Old => f.write_str("OLD"),
            FileWord::File => f.write_str("FILE"),
            FileWord::In(pair) => write!(f, "IN{pair}"),
            FileWord::Out(pair) => write!(f, "OUT{pair}"),
            FileWord::Journal => f.write_str("JOURNAL"),
            FileWord::Input => f.write_str("standard input"),
            FileWord::Output => f.write_str("standard output"),
            FileWord::Image => f.write_str("IMAGE"),
        }
    }
}

/// Why a task isn't begun. Its text is the line, without the newline, that the program writes to standard error; the program's status is
/// then 2. No file is opened.
#[derive(Clone, Copy, Debug, PartialEq, Eq, Error)]
pub enum WordFault {
    /// Two words stand for one ordinary file.
    #[error("fault: {word}: same file as {other}")]
    SameFile {
        /// The later one.
        word: FileWord,
        /// The first one of that file.
        other: FileWord,
    },
    /// The answers would go over the bytes of an ordinary file.
    #[error("fault: {word}: not empty")]
    NotEmpty {
        /// The word of that file.
        word: FileWord,
    },
    /// An ordinary file is there where a new one is to be made.
    #[error("fault: {word}: file exists")]
    Exists {
        /// The word of that file.
        word: FileWord,
    },
    /// A desk has an eighth pair and a journal, which would take its seat.
    #[error("fault: JOURNAL: takes the seat of IN7 and OUT7")]
    NoSeat,
}

/// The permit to open files for writing. [`check_words`] makes one where no word of a task is at fault, and nothing else does; that a desk's
/// journal takes the seat of a pair, or has the name of its file, is looked at after that ([`journal_fault`]).
/// [`check_output`](crate::check_output) passes it on. It is bound to no task: whoever opens files by it must have asked for the task that
/// names them.
#[derive(Clone, Copy)]
pub struct Permit {
    _given: (),
}

/// A word, with the ordinary file that it was seen to stand for.
#[derive(Clone, Copy)]
pub(crate) struct SeenWord {
    /// The word.
    pub(crate) word: FileWord,
    /// Its file; none where the task hasn't the word, or where it stands for no ordinary file.
    pub(crate) file: Option<OrdinaryFile>,
}

/// How many words there are.
const WORDS: usize = 22;

/// All words, as they stand on the command line, then the streams, and last the file that a cartridge replaces.
static ALL: [FileWord; WORDS] = [
    FileWord::Cart,
    FileWord::Movie,
    FileWord::In(0),
    FileWord::Out(0),
    FileWord::In(1),
    FileWord::Out(1),
    FileWord::In(2),
    FileWord::Out(2),
    FileWord::In(3),
    FileWord::Out(3),
    FileWord::In(4),
    FileWord::Out(4),
    FileWord::In(5),
    FileWord::Out(5),
    FileWord::In(6),
    FileWord::Out(6),
    FileWord::In(7),
    FileWord::Out(7),
    FileWord::Journal,
    FileWord::Input,
    FileWord::Output,
    FileWord::Image,
];

/// The words of a desk's pairs, in order.
static PAIR_WORDS: [FileWord; 16] = [
    FileWord::In(0),
    FileWord::Out(0),
    FileWord::In(1),
    FileWord::Out(1),
    FileWord::In(2),
    FileWord::Out(2),
    FileWord::In(3),
    FileWord::Out(3),
    FileWord::In(4),
    FileWord::Out(4),
    FileWord::In(5),
    FileWord::Out(5),
    FileWord::In(6),
    FileWord::Out(6),
    FileWord::In(7),
    FileWord::Out(7),
];

/// The pair of this number.
fn pair_of(pairs: Pairs<'_>, number: usize) -> Option<Pair<'_>>
    ensures { result ≡ pair_at pairs.entry number }
{
    let places = [
        Some(pairs.first),
        pairs.second,
        pairs.third,
        pairs.fourth,
        pairs.fifth,
        pairs.sixth,
        pairs.seventh,
        pairs.eighth,
    ];
    places.get(number).copied().flatten()
}

/// The cartridge's name of a conversation.
pub(crate) fn cart_of(start: Start<'_>) -> Option<&str>
    ensures { option_map (λ name. name.now) result ≡ cart_name start.entry }
{
    match start {
        Start::Blank => None,
        Start::Cart { cart } => Some(cart),
        Start::Movie(files) => Some(files.cart),
    }
}

/// The movie's name of a conversation.
fn movie_of(start: Start<'_>) -> Option<&str>
    ensures { option_map (λ name. name.now) result ≡ movie_name start.entry }
{
    match start {
        Start::Blank => None,
        Start::Cart { cart: _ } => None,
        Start::Movie(files) => Some(files.movie),
    }
}

/// What a word of a conversation stands for.
fn in_talk(words: TalkWords<'_>, word: FileWord) -> Option<&str>
    ensures { option_map (λ name. name.now) result ≡ talk_name words.entry word }
{
    match word {
        FileWord::Cart => cart_of(words.start),
        FileWord::Movie => movie_of(words.start),
        FileWord::Journal => words.journal,
        FileWord::Input => Some("/dev/stdin"), // its lines
        FileWord::Output => Some("/dev/stdout"),
        _ => None,
    }
}

/// What a word of a desk stands for.
fn in_desk<'a>(desk: DeskWords<'a>, word: FileWord) -> Option<&'a str>
    ensures { option_map (λ name. name.now) result ≡ desk_name desk.entry word }
{
    match word {
        FileWord::Cart => Some(desk.cart),
        FileWord::Movie => Some(desk.movie),
        FileWord::In(number) => match pair_of(desk.pairs, number) {
            Some(pair) => Some(pair.input),
            None => None,
        },
        FileWord::Out(number) => match pair_of(desk.pairs, number) {
            Some(pair) => Some(pair.output),
            None => None,
        },
        FileWord::Journal => desk.journal,
        FileWord::Output => Some("/dev/stdout"),
        _ => None,
    }
}

/// What a word of a recovery stands for, whose cartridge replaces a file of this name.
fn in_recovery<'a>(words: RecoveryWords<'a>, image: &'a str, word: FileWord) -> Option<&'a str>
    ensures { option_map (λ name. name.now) result ≡ kept_name words.entry image.now word }
{
    match word {
        FileWord::Cart => Some(words.cart),
        FileWord::Input => Some("/dev/stdin"),
        FileWord::Output => Some("/dev/stdout"),
        FileWord::Image => Some(image),
        _ => None,
    }
}

/// What a word of a task stands for, where it is looked at.
fn name_in<'a>(task: Task<'a>, word: FileWord) -> Option<&'a str>
    ensures { option_map (λ name. name.now) result ≡ name_of task.entry word }
{
    match task {
        Task::Talk(words) => in_talk(words, word),
        Task::Desk(words) => in_desk(words, word),
        Task::Recover(words) => match words.image {
            Some(image) => in_recovery(words, image, word),
            None => None,
        },
        _ => None,
    }
}

/// A word of a task as the folder shows it.
fn see<F: Folder>(folder: &F, task: Task<'_>, word: FileWord) -> SeenWord
    ensures word { result.word ≡ word }
    ensures file { IsSeen (F.shown folder.now) (name_of task.entry word) result.file }
{
    let file = match name_in(task, word) {
        Some(name) => folder.look(name),
        None => None,
    };
    SeenWord { word, file }
}

/// All words of a task as the folder shows them.
fn see_all<F: Folder>(folder: &F, task: Task<'_>) -> [SeenWord; WORDS]
    ensures { AreSeen (F.shown folder.now) task.entry result }
{
    let nothing = SeenWord {
        word: FileWord::Cart,
        file: None,
    };
    let mut seen = [nothing; WORDS];
    for i in 0..WORDS {
        seen[i] = see(folder, task, ALL[i]);
    }
    seen
}

/// Whether two words stand for one ordinary file.
fn is_same(one: SeenWord, other: SeenWord) -> bool
    ensures { result ≡ are_same one other }
{
    match one.file {
        None => false,
        Some(one) => match other.file {
            None => false,
            Some(other) => one.device == other.device && one.number == other.number,
        },
    }
}

/// The first of these words that stands for the same file as another one.
pub(crate) fn same_among(others: &[SeenWord], word: SeenWord) -> Option<FileWord>
    ensures { result ≡ first_same others.now word }
{
    for other in others {
        if is_same(*other, word) {
            return Some(other.word);
        }
    }
    None
}

/// Whether a word is the output of a pair.
fn is_output(word: FileWord) -> bool
    ensures { result ≡ is_pair_output word }
{
    match word {
        FileWord::Out(_) => true,
        _ => false,
    }
}

/// Whether a word is an OUT whose ordinary file has bytes.
fn has_content(word: SeenWord) -> bool
    ensures { result ≡ has_bytes word }
{
    match word.file {
        None => false,
        Some(file) => is_output(word.word) && file.len > 0,
    }
}

/// What is wrong with a word for a new file.
fn there_fault(word: SeenWord) -> Option<WordFault>
    ensures { result ≡ there_fault word.word word.file }
{
    match word.word {
        FileWord::Journal => match word.file {
            Some(_) => Some(WordFault::Exists {
                word: FileWord::Journal,
            }),
            None => None,
        },
        _ => None,
    }
}

/// What is wrong with a word after others.
fn fault_after(others: &[SeenWord], word: SeenWord) -> Option<WordFault>
    ensures { result ≡ word_fault others.now word }
{
    match same_among(others, word) {
        Some(other) => Some(WordFault::SameFile {
            word: word.word,
            other,
        }),
        None => {
            if has_content(word) {
                Some(WordFault::NotEmpty { word: word.word })
            } else {
                there_fault(word)
            }
        }
    }
}

/// What is wrong with the first of these words that is at fault.
fn fault_among(seen: &[SeenWord; WORDS]) -> Option<WordFault>
    ensures { result ≡ first_fault seen.now }
{
    for i in 0..WORDS {
        if let Some(fault) = fault_after(&seen[..i], seen[i]) {
            return Some(fault);
        }
    }
    None
}

/// Looks at the files that a task's words name, before any is opened. Reports the first word that names the ordinary file of an earlier
/// word, or that is an OUT and names an ordinary file with bytes, or is a JOURNAL and names one that is there. Standard input and output count as words after those of the command
/// line. Only the words of [`Task::Talk`] and [`Task::Desk`] are looked at, and those of a [`Task::Recover`] whose cartridge replaces a file: other
/// tasks read their inputs whole before they write, and the report of a search goes to a new file.
pub fn check_words<F: Folder>(folder: &F, task: Task<'_>) -> Result<Permit, WordFault>
    // A permit to open files for writing is given where no word is at fault.
    // Refused: words_at_fault_are_run, right_words_are_at_fault.
    ensures { WordsEnd (F.shown folder.now) task.entry result }
{
    match fault_among(&see_all(folder, task)) {
        Some(fault) => Err(fault),
        None => Ok(Permit { _given: () }),
    }
}

/// Whether a word stands for a file of this name.
fn has_text(said: Option<&str>, name: &str) -> bool
    ensures { result ≡ has_text (option_map (λ text. text.now) said.entry) name.now }
{
    match said {
        Some(said) => said == name,
        None => false,
    }
}

/// The first of these words of a desk that stands for a file of this name.
fn named_among(words: DeskWords<'_>, others: &[FileWord], name: &str) -> Option<FileWord>
    ensures { result ≡ first_named words.entry name.now others.now }
{
    for other in others {
        if has_text(in_desk(words, *other), name) {
            return Some(*other);
        }
    }
    None
}

/// Why a journal has no seat.
fn seat_fault(eighth: Option<Pair<'_>>) -> Option<WordFault>
    ensures { result ≡ seat_fault eighth.entry }
{
    match eighth {
        Some(_) => Some(WordFault::NoSeat),
        None => None,
    }
}

/// What is wrong with the words of a desk whose journal has this name: an eighth pair is there, or a pair's file has the name, too. It must
/// have been looked at ([`check_words`]) whether an ordinary file of this name is there.
pub(crate) fn journal_fault(words: DeskWords<'_>, name: &str) -> Option<WordFault>
    ensures { result ≡ journal_fault words.entry name.now }
{
    if let Some(fault) = seat_fault(words.pairs.eighth) {
        return Some(fault);
    }
    match named_among(words, &PAIR_WORDS, name) {
        Some(other) => Some(WordFault::SameFile {
            word: FileWord::Journal,
            other,
        }),
        None => None,
    }
}
