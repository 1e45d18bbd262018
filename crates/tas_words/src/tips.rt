//! Tips for those who take a command's standard input for one of its words.
//!
//! A tip is one line with made-up names: a call made of the given words would guess which of them is the movie. Its flags are those that
//! were given, since none of them can be the movie. Words with a flag that isn't the command's, or lacks its value, get none, since it may
//! be what is wrong; nor do those with a flag that a shell would take in quotes alone, as its line would lack them.

ghost use Rattle.std.specs.Prelude.{◌≡◌, IfOk, OnOk, find, map, option_map, string_bytes};
ghost use Rattle.std.specs.List.{list_all, list_any};
ghost use Rattle.std.specs.Str.{bytes_eq};
ghost use Rattle.clap.specs.Lexer.{strip_byte};
ghost use Rattle.tas_words.specs.Guides.{fits, flags_of, given_by, given_of, guide_named, guide_of, has_stray, is_bare_byte, is_flag, is_named, is_number_byte, is_one_of, is_tipped, kind_flag, kind_number, long_name, numbers_of, tip_for, tip_of, with_flags, with_text};

use crate::subcommands::{
    Subcommand, Word, WordKind, first_subcommands, last_subcommands, later_subcommands,
    next_subcommands,
};
use std::alloc::{AllocError, Allocator};

/// What was given after a command's name.
#[derive(Drop)]
pub(crate) struct GivenWords<'a, A: Allocator> {
    /// The words.
    pub(crate) words: Vec<&'a str, A>,
    /// The flags with their values, a space after each.
    pub(crate) flags: String<A>,
    /// Whether the next text is the value of the last flag.
    pub(crate) awaits: bool,
    /// Whether each flag is one of the command's, each value after one is a value, and none of them needs quotes.
    pub(crate) is_known: bool,
}

/// Whether a text may be a number: it has digits and plus signs alone.
fn may_be_number(text: &str) -> bool
    ensures { result ≡ list_all is_number_byte text.now }
{
    for byte in text.as_bytes() {
        if !byte.is_ascii_digit() && *byte != b'+' {
            return false;
        }
    }
    true
}

/// Whether a text is a flag.
fn is_flag(text: &str) -> bool
    ensures { result ≡ is_flag text.now }
{
    match text.as_bytes().split_first() {
        Some((first, rest)) => *first == b'-' && !rest.is_empty(),
        None => false,
    }
}

/// Whether a text needs no quotes in a shell.
fn is_bare(text: &str) -> bool
    ensures { result ≡ list_all is_bare_byte text.now }
{
    for byte in text.as_bytes() {
        if !byte.is_ascii_alphanumeric() && !b"+,-./:=@_".contains(byte) {
            return false;
        }
    }
    true
}

/// Whether a word of this kind is a number; nothing of one after a flag.
fn number_kind(kind: WordKind) -> Option<bool>
    ensures { result ≡ kind_number kind }
{
    match kind {
        WordKind::File | WordKind::OptionalFile | WordKind::PairedFile { .. } => Some(false),
        WordKind::Flag { .. } | WordKind::LoneFlag { .. } => None,
        WordKind::Output | WordKind::NumberFlag { .. } => None,
        WordKind::Number { .. } | WordKind::OptionalNumber { .. } => Some(true),
    }
}

/// The long name of the flag that a word of this kind stands after.
fn kind_flag(kind: WordKind) -> Option<&'static str>
    ensures { option_map (λ flag. flag.now) result ≡ kind_flag kind }
{
    match kind {
        WordKind::File | WordKind::OptionalFile | WordKind::PairedFile { .. } => None,
        WordKind::Flag { flag, .. } => Some(flag),
        WordKind::LoneFlag { flag } => Some(flag),
        WordKind::Output => Some("output"),
        WordKind::Number { .. } | WordKind::OptionalNumber { .. } => None,
        WordKind::NumberFlag { flag, .. } => Some(flag),
    }
}

/// Whether one of a command's flags has this long name.
fn has_flag(words: &[Word], name: &str) -> bool
    ensures { result ≡ list_any (λ flag. bytes_eq flag name.now) (flags_of words.now) }
{
    let Some((word, others)) = words.split_first() else {
        return false;
    };
    let Some(flag) = kind_flag(word.kind) else {
        return has_flag(others, name);
    };
    flag == name || has_flag(others, name)
}

/// What follows a first dash.
fn strip_dash(text: &str) -> Option<&str>
    ensures { option_map (λ rest. rest.now) result ≡ strip_byte 45 text.now }
{
    text.strip_prefix('-')
}

/// The long name of a flag, that of `-o`, too.
fn long_name(flag: &str) -> Option<&str>
    ensures { option_map (λ name. name.now) result ≡ long_name flag.now }
{
    if flag == "-o" {
        Some("output")
    } else {
        strip_dash(strip_dash(flag)?)
    }
}

/// Whether a text is one of a command's flags, alone or with its value.
fn is_one_of(words: &[Word], text: &str) -> bool
    ensures { result ≡ is_one_of (flags_of words.now) text.now }
{
    let (flag, _) = text.split_once('=').unwrap_or((text, ""));
    match long_name(flag) {
        Some(name) => has_flag(words, name),
        None => false,
    }
}

/// Whether a command's flags are known still with this text, which is one of them, or the value of the last one.
fn fits(words: &[Word], is_known: bool, awaits: bool, text: &str) -> bool
    ensures { result ≡ fits (flags_of words.now) is_known awaits text.now }
{
    if !is_known {
        return false;
    }
    if !is_bare(text) {
        return false;
    }
    if awaits {
        return !is_flag(text) && !text.is_empty();
    }
    is_one_of(words, text)
}

/// Adds a text: a word, a flag, or the value of one.
fn push_text<'a, A: Allocator>(
    words: &[Word],
    text: &'a str,
    given: &mut GivenWords<'a, A>,
) -> Result<(), AllocError>
    ensures { OnOk result
        (given_of given.new ≡ with_text (flags_of words.now) (given_of given.old) text.now) }
{
    if !given.awaits && !is_flag(text) {
        given.words.push(text)?;
        return Ok(());
    }
    given.is_known = fits(words, given.is_known, given.awaits, text);
    given.awaits = !given.awaits && !text.as_bytes().contains(&b'=');
    given.flags.push_str(text)?;
    given.flags.push_str(" ")?;
    Ok(())
}

/// What these texts give a command of these words.
fn given_words<'a, A: Allocator + Copy>(
    alloc: A,
    words: &[Word],
    texts: &'a [String<A>],
) -> Result<GivenWords<'a, A>, AllocError>
    ensures { IfOk result (λ given. given_of given
        ≡ given_by (flags_of words.now) (map string_bytes texts.entry.now)) }
{
    let found = Vec::new(alloc);
    let flags = String::new(alloc);
    let mut given = GivenWords {
        words: found,
        flags,
        awaits: false,
        is_known: true,
    };
    for text in texts {
        push_text(words, text.as_str(), &mut given)?;
    }
    Ok(given)
}

/// Whether one of the texts stands where the command has no word left, or can't be the number that it wants there.
fn has_stray(words: &[Word], texts: &[&str]) -> bool
    ensures { result ≡ has_stray (numbers_of words.now) (map (λ text. text.now) texts.now) }
{
    let Some((word, after)) = words.split_first() else {
        return !texts.is_empty();
    };
    let Some(is_number) = number_kind(word.kind) else {
        return has_stray(after, texts);
    };
    match texts.split_first() {
        Some((text, others)) => (is_number && !may_be_number(*text)) || has_stray(after, others),
        None => false,
    }
}

/// The command of this name among these.
fn named(commands: &[Subcommand], name: &str) -> Option<Subcommand>
    ensures { option_map guide_of result ≡ find (is_named name.now) (map guide_of commands.now) }
{
    let (command, others) = commands.split_first()?;
    if command.name == name {
        Some(*command)
    } else {
        named(others, name)
    }
}

/// The command of this name.
pub(crate) fn command_named(name: &str) -> Option<Subcommand>
    ensures { option_map guide_of result ≡ guide_named name.now }
{
    if let Some(command) = named(first_subcommands(), name) {
        return Some(command);
    }
    if let Some(command) = named(next_subcommands(), name) {
        return Some(command);
    }
    if let Some(command) = named(later_subcommands(), name) {
        return Some(command);
    }
    named(last_subcommands(), name)
}

/// Whether what was given gets the tip of a command of these words.
fn is_tipped<A: Allocator>(words: &[Word], given: &GivenWords<'_, A>) -> bool
    ensures { result ≡ is_tipped (numbers_of words.now) (given_of given.now) }
{
    given.is_known && !given.awaits && has_stray(words, given.words.as_slice())
}

/// A tip whose call has these flags, where there are some, in the place of its own.
fn with_flags<A: Allocator>(alloc: A, tip: &str, flags: &str) -> Result<String<A>, AllocError>
    ensures { IfOk result (λ new. string_bytes new ≡ with_flags flags.now tip.now) }
{
    if flags.is_empty() {
        return String::from_str(alloc, tip);
    }
    let (before, input) = tip.split_once('<').unwrap_or((tip, ""));
    let (call, _) = before.split_once('-').unwrap_or((before, ""));
    let new = format!(in alloc; "{call}{flags}<{input}")?;
    Ok(new)
}

/// The tip of a command for the texts after its name.
fn tip_for<A: Allocator + Copy>(
    alloc: A,
    command: Subcommand,
    texts: &[String<A>],
) -> Result<Option<String<A>>, AllocError>
    ensures { IfOk result (λ tip. option_map string_bytes tip
        ≡ tip_for (map string_bytes texts.now) (guide_of command)) }
{
    let given = given_words(alloc, command.words, texts)?;
    if !is_tipped(command.words, &given) {
        return Ok(None);
    }
    match command.tip {
        Some(tip) => {
            let new = with_flags(alloc, tip, given.flags.as_str())?;
            Ok(Some(new))
        }
        None => Ok(None),
    }
}

/// The tip for refused words, the first of which is the program's name: where one of them stands in the place of a number, or is one too
/// many, and the command that they name reads standard input. Its call has the flags that they have.
pub(crate) fn tip_of<A: Allocator + Copy>(
    alloc: A,
    words: &[String<A>],
) -> Result<Option<String<A>>, AllocError>
    ensures { IfOk result
        (λ tip. option_map string_bytes tip ≡ tip_of (map string_bytes words.now)) }
{
    let [_, name, texts @ ..] = words else {
        return Ok(None);
    };
    match command_named(name.as_str()) {
        Some(command) => tip_for(alloc, command, texts),
        None => Ok(None),
    }
}
