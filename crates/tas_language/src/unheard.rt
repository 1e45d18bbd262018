//! Why a line of a conversation isn't understood.
//!
//! A client that compares an answer's first word sees `unknown`; the second one is for whoever writes the client. The
//! first of several reasons is reported, in the order of [`Unheard`].

ghost use Rattle.std.specs.Prelude.{◌≡◌};
ghost use Rattle.tas_language.specs.Unheard.{ends_in_return, first_word, is_line_word, unknown_text, why_short_unheard};

use byte_text::split_once;

/// Why a line of a conversation isn't understood.
#[derive(Clone, Copy)]
pub enum Unheard {
    /// No newline ends it.
    End,
    /// It is longer than [`MAX_LINE`](crate::MAX_LINE).
    Long,
    /// A carriage return is before its newline.
    Return,
    /// Its first word is that of a line, but what follows isn't as that line has it.
    Rest,
    /// Its first word is that of no line.
    Word,
}

/// The words with which lines begin.
static LINE_WORDS: [&[u8]; 28] = [
    b"load",
    b"load2",
    b"insert",
    b"replace",
    b"delete",
    b"len",
    b"input",
    b"shot",
    b"work",
    b"press",
    b"release",
    b"repeat",
    b"copy",
    b"picture",
    b"pictures",
    b"ram",
    b"digest",
    b"lag",
    b"inputs",
    b"movie",
    b"states",
    b"share",
    b"history",
    b"version",
    b"begin",
    b"commit",
    b"drop",
    b"quit",
];

/// The bytes before the first space, or all of them.
fn first_word(line: &[u8]) -> &[u8]
    ensures { result.now ≡ first_word line.now }
{
    match split_once(line, b' ') {
        Some((word, _)) => word,
        None => line,
    }
}

/// Whether lines begin with this word.
fn is_line_word(word: &[u8]) -> bool
    ensures { result ≡ is_line_word word.now }
{
    LINE_WORDS.contains(&word)
}

/// Whether the last byte is a carriage return.
fn ends_in_return(line: &[u8]) -> bool
    ensures { result ≡ ends_in_return line.now }
{
    match line.last() {
        Some(byte) => *byte == b'\r',
        None => false,
    }
}

/// Why a line that isn't too long, and ends with a newline, isn't understood, where it isn't.
pub fn why_short_unheard(line: &[u8]) -> Unheard
    ensures { result ≡ why_short_unheard line.now }
{
    if ends_in_return(line) {
        return Unheard::Return;
    }
    if is_line_word(first_word(line)) {
        return Unheard::Rest;
    }
    Unheard::Word
}

/// The answer to a line that isn't understood: `unknown` and why, with a newline.
pub fn unknown_line(why: Unheard) -> &'static [u8]
    // A line that isn't understood is answered `unknown`, and a word that says why.
    // Refused: word_of_no_line_is_reported_as_a_line_s.
    ensures { result.now ≡ unknown_text why }
{
    match why {
        Unheard::End => b"unknown end\n",
        Unheard::Long => b"unknown long\n",
        Unheard::Return => b"unknown return\n",
        Unheard::Rest => b"unknown rest\n",
        Unheard::Word => b"unknown word\n",
    }
}
