//! What the words ask for.

ghost use Rattle.std.specs.Prelude.{◌≡◌, IfOk, IfErr, map, string_bytes};
ghost use Rattle.tas_words.specs.Invocations.{AreGiven, IsInvocation, IsNoTask, IsRefusalWith, with_tip};

use crate::tips::tip_of;
use crate::{Task, read_words};
use clap::Error;
use clap::error::ErrorKind;
use std::alloc::{AllocError, Allocator, Global};
use std::env::Args;
use std::io;

/// What the words on the command line ask for.
#[derive(Drop)]
pub enum Invocation<'a, A: Allocator = Global> {
    /// A command.
    Do(Task<'a>),
    /// A command whose output replaces a file; that of [`Task::Talk`] goes to standard output, and the movie that it leaves to the file.
    Save {
        /// The command.
        task: Task<'a>,
        /// The name of the file.
        file: &'a str,
    },
    /// This text on standard output: help, or the version.
    Show(String<A>),
    /// The words aren't understood; this text on standard error says why.
    Refuse(String<A>),
    /// Memory was refused while the words were read.
    NoMemory,
}

/// A refusal's text with a tip between its first line and the rest.
fn with_tip<A: Allocator>(alloc: A, text: &str, tip: &str) -> Result<String<A>, AllocError>
    ensures { IfOk result (λ new. string_bytes new ≡ with_tip tip.now text.now) }
{
    let (first, rest) = text.split_once('\n').unwrap_or((text, ""));
    let new = format!(in alloc; "{first}\n\n  tip: {tip}\n{rest}")?;
    Ok(new)
}

/// Why the words aren't understood: this text, with the tip for them.
fn refusal_of<'a, A: Allocator + Copy>(
    alloc: A,
    text: String<A>,
    words: &[String<A>],
) -> Invocation<'a, A>
    // Refused: refusal_has_no_tip, refusal_with_a_tip_loses_its_text.
    ensures { IsRefusalWith (map string_bytes words.now) (string_bytes text) result }
{
    let Ok(tip) = tip_of(alloc, words) else {
        return Invocation::NoMemory;
    };
    match tip {
        Some(tip) => match with_tip(alloc, text.as_str(), tip.as_str()) {
            Ok(text) => Invocation::Refuse(text),
            Err(_) => Invocation::NoMemory,
        },
        None => Invocation::Refuse(text),
    }
}

/// The text that was asked for, or why the words aren't understood.
fn invocation_of<'a, A: Allocator + Copy>(
    alloc: A,
    error: &Error,
    words: &[String<A>],
) -> Invocation<'a, A>
    ensures tip { IsInvocation (map string_bytes words.now) result }
    ensures none { IsNoTask result }
{
    if error.kind() == ErrorKind::OutOfMemory {
        return Invocation::NoMemory;
    }
    match error.to_string(alloc) {
        Ok(text) if error.use_stderr() => refusal_of(alloc, text, words),
        Ok(text) => Invocation::Show(text),
        Err(_) => Invocation::NoMemory,
    }
}

/// What the words ask for; the first of them is the program's name. A task is that of the command that they name. A refusal of words that
/// have a word too many, or one in a number's place, has the command's tip, with the flags that they have. clap takes its memory from
/// `global` alone, a text its from `alloc`.
pub fn read_invocation<'a, A: Allocator + Copy>(
    global: Global,
    alloc: A,
    words: &'a [String<A>],
) -> Invocation<'a, A>
    // Refused: every_task_is_a_trace_of_nothing, output_goes_to_standard_output.
    // A refusal of words with one too many, or with one in a number's place that can't be a number, flags and their
    // values aside, has the tip of the command that they name, which says what is read from standard input and shows a
    // call. The call has the flags with their values in the order of the words, before its `<`, in the place of those
    // that it shows where the words have none. Words with a flag that isn't the command's, or lacks its value, and those
    // with a flag or a value that needs quotes in a shell, get no tip. The tip stands between the first line of a text
    // and its rest, both whole; any other refusal is the text that was to be told.
    // Refused: flag_is_a_word_too_many, dash_alone_is_a_flag, value_of_a_flag_is_a_word_too_many,
    // value_after_an_equals_sign_is_awaited, flag_of_another_command_gets_a_tip, flag_is_the_value_of_a_flag,
    // last_flag_needs_no_value, short_flag_is_unknown, space_needs_no_quotes, tip_has_no_flags,
    // tip_shows_its_own_flags_too, word_too_many_gets_no_tip, number_out_of_range_gets_a_tip,
    // number_with_a_plus_gets_a_tip, tip_comes_after_the_whole_text, empty_text_needs_no_quotes*,
    // flags_come_after_the_input*, second_flag_of_a_command_is_unknown*.
    ensures { IsInvocation (map string_bytes words.entry.now) result }
{
    match read_words(global, words) {
        Ok(order) => match order.output {
            Some(file) => Invocation::Save {
                task: order.task,
                file,
            },
            None => Invocation::Do(order.task),
        },
        Err(error) => invocation_of(alloc, &error, words),
    }
}

/// The words, as the system gave them. Where it gave none, memory was refused, or a word isn't UTF-8.
pub fn collect_words<A: Allocator>(
    alloc: A,
    words: io::Result<Args<A>>,
) -> Result<Vec<String<A>, A>, Invocation<'static, A>>
    // The words are those that the system gave, in order; where it gave none, nothing is asked for.
    // Refused: last_word_is_dropped.
    ensures words { IfOk result (λ list. AreGiven words (map string_bytes list.items)) }
    ensures none { IfErr result IsNoTask }
{
    match words {
        Ok(words) => match words.collect(alloc) {
            Ok(words) => Ok(words),
            Err(_) => Err(Invocation::NoMemory),
        },
        Err(error) if error.kind() == io::ErrorKind::OutOfMemory => Err(Invocation::NoMemory),
        Err(_) => match String::from_str(alloc, "error: the words aren't all text\n") {
            Ok(text) => Err(Invocation::Refuse(text)),
            Err(_) => Err(Invocation::NoMemory),
        },
    }
}
