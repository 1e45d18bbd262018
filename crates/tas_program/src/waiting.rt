//! What somebody at a terminal is told before a task reads standard input.
//!
//! Both standard input and standard error must be a terminal: only then does whoever may type the input read the line.
//! Another program, or a log, gets the fault line alone. Nothing is said in a conversation, whose lines somebody may well
//! type. The line comes once the task's words were looked at, so a word at fault has its own line alone. At the first read
//! would be later still: a reader that tells holds the caller's, and what becomes of that isn't known behind a type
//! parameter. A `Folder` is asked for the terminal, since the program sees the system through it; one in memory has none,
//! unless it says so. Where memory is refused for the line, or a write fails, it is left out.

ghost use Rattle.std.specs.Prelude.{◌≡◌, IfErr, OnOk, Some, option_map};
ghost use Rattle.tas_program.specs.Waiting.{StopsTelling, Tells, line_before, waiting_line};

use std::alloc::Allocator;
use std::io::Write;
use tas_tool::{RunFault, write_all};
use tas_words::{Task, waits_for};

/// What the line before a task reads is about, where it has one.
fn awaited(at_terminal: bool, task: Task<'_>) -> Option<&'static str>
    ensures { option_map (λ text. waiting_line text.now) result
        ≡ line_before at_terminal task.entry }
{
    if !at_terminal {
        return None;
    }
    waits_for(task)
}

/// Writes the line for what is waited for.
fn write_waiting<A: Allocator, E: Write>(
    alloc: A,
    text: &str,
    errors: &mut E,
) -> Result<(), RunFault>
    ensures ok { OnOk result (Tells (Some (waiting_line text.now))
        (E.contents errors.old) (E.contents errors.new)) }
    ensures fault { IfErr result (StopsTelling (Some (waiting_line text.now))
        (E.contents errors.old) (E.contents errors.new)) }
{
    let line = format!(in alloc; "waiting: {text}\n")?;
    write_all(errors, line.as_bytes())
}

/// Tells somebody at a terminal what a task waits for: one line for a task that reads standard input whole, with a call of its
/// command. Nothing is written for any other task, or where nobody is at a terminal. An error where memory was refused for the
/// line, or a write failed.
pub fn tell_waiting<A: Allocator, E: Write>(
    alloc: A,
    at_terminal: bool,
    task: Task<'_>,
    errors: &mut E,
) -> Result<(), RunFault>
    // Refused: line_is_written_where_no_terminal_is, line_of_waiting_has_no_newline.
    ensures ok { OnOk result (Tells (line_before at_terminal task.entry)
        (E.contents errors.old) (E.contents errors.new)) }
    ensures fault { IfErr result (StopsTelling (line_before at_terminal task.entry)
        (E.contents errors.old) (E.contents errors.new)) }
{
    match awaited(at_terminal, task) {
        Some(text) => write_waiting(alloc, text, errors),
        None => Ok(()),
    }
}
