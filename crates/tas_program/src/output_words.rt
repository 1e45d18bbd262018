//! The words that a file of an output may not name.
//!
//! The file may be that of standard input where the output is a movie made of it, and none that a word names: a movie is
//! edited in place on purpose, and a cartridge replaced by a movie by mistake. The output of `diff` is a script, so it
//! doesn't replace the newer movie; that of `new` is a blank movie, so it replaces nothing. A conversation edits MOVIE in
//! place, but its movie replaces neither its lines nor its answers; one without MOVIE begins a movie, as `new` does. Nor does it
//! replace its journal: no file is there yet by which the two could be seen to be one, so their names are compared. A
//! recovery's movie doesn't replace its cartridge's file, and its name is compared, too. What isn't an ordinary file is
//! refused at the rename, since root could replace a device.

ghost use Rattle.std.specs.Prelude.{◌≡◌, Some, option_map};
ghost use Rattle.tas_program.specs.FileWords.{IsSeen};
ghost use Rattle.tas_program.specs.OutputWords.{AreInputsSeen, OutputEnds, answers_input, cart_input, has_some, image_input, is_image, is_journal, old_input, other_input};
ghost use Rattle.tas_program.specs.OutputWords.{name_fault, output_fault, script_input, starts_movie, stream_input};

use crate::file_words::{SeenWord, cart_of as cart_of_talk, same_among};
use crate::{FileWord, Folder, OrdinaryFile, Permit, WordFault, check_words};
use tas_words::{Start, Task};

/// The name of the cartridge's file of a task whose output may replace a file.
fn cart_of<'a>(task: Task<'a>) -> Option<&'a str>
    ensures { option_map (λ name. name.now) result ≡ cart_input task.entry }
{
    match task {
        Task::Migrate { cart } => Some(cart),
        Task::New { cart, frames: _ } => Some(cart),
        Task::Recover(words) => Some(words.cart),
        Task::Cut { cart, .. } => Some(cart),
        Task::Edit { cart, .. } => Some(cart),
        Task::Diff { cart, old: _ } => Some(cart),
        Task::Talk(words) => cart_of_talk(words.start),
        _ => None,
    }
}

/// The name of a script's file.
fn script_of<'a>(task: Task<'a>) -> Option<&'a str>
    ensures { option_map (λ name. name.now) result ≡ script_input task.entry }
{
    match task {
        Task::Edit { script, .. } => Some(script),
        _ => None,
    }
}

/// The name of a second movie's file.
fn other_of<'a>(task: Task<'a>) -> Option<&'a str>
    ensures { option_map (λ name. name.now) result ≡ other_input task.entry }
{
    match task {
        Task::Edit { other, .. } => other,
        _ => None,
    }
}

/// The name of an older movie's file.
fn old_of<'a>(task: Task<'a>) -> Option<&'a str>
    ensures { option_map (λ name. name.now) result ≡ old_input task.entry }
{
    match task {
        Task::Diff { cart: _, old } => Some(old),
        _ => None,
    }
}

/// The name of standard input, where it may not be replaced.
fn stream_of(task: Task<'_>) -> Option<&'static str>
    ensures { option_map (λ name. name.now) result ≡ stream_input task.entry }
{
    match task {
        Task::Diff { .. } | Task::Recover(_) | Task::Talk(_) => Some("/dev/stdin"),
        _ => None,
    }
}

/// The name of standard output, where something else than the file's bytes goes there.
fn answers_of(task: Task<'_>) -> Option<&'static str>
    ensures { option_map (λ name. name.now) result ≡ answers_input task.entry }
{
    match task {
        Task::Talk(_) => Some("/dev/stdout"),
        _ => None,
    }
}

/// The name of the file that a recovery's cartridge replaces.
fn image_of<'a>(task: Task<'a>) -> Option<&'a str>
    ensures { option_map (λ name. name.now) result ≡ image_input task.entry }
{
    match task {
        Task::Recover(words) => words.image,
        _ => None,
    }
}

/// A word as the folder shows its file.
fn see<F: Folder>(folder: &F, word: FileWord, name: Option<&str>) -> SeenWord
    ensures word { result.word ≡ word }
    ensures file { IsSeen (F.shown folder.now) (option_map (λ text. text.now) name.entry) result.file }
{
    let file = match name {
        Some(name) => folder.look(name),
        None => None,
    };
    SeenWord { word, file }
}

/// The files of a task's other words, as the folder shows them.
fn see_inputs<F: Folder>(folder: &F, task: Task<'_>) -> [SeenWord; 7]
    ensures { AreInputsSeen (F.shown folder.now) task.entry result }
{
    [
        see(folder, FileWord::Cart, cart_of(task)),
        see(folder, FileWord::Script, script_of(task)),
        see(folder, FileWord::Other, other_of(task)),
        see(folder, FileWord::Old, old_of(task)),
        see(folder, FileWord::Input, stream_of(task)),
        see(folder, FileWord::Output, answers_of(task)),
        see(folder, FileWord::Image, image_of(task)),
    ]
}

/// Whether a task makes a movie from none.
fn starts_movie(task: Task<'_>) -> bool
    ensures { result ≡ starts_movie task.entry }
{
    match task {
        Task::New { .. } => true,
        Task::Talk(words) => match words.start {
            Start::Blank | Start::Cart { .. } => true,
            Start::Movie(_) => false,
        },
        _ => false,
    }
}

/// Whether an ordinary file has bytes.
fn has_some(file: Option<OrdinaryFile>) -> bool
    ensures { result ≡ has_some file }
{
    match file {
        Some(file) => file.len > 0,
        None => false,
    }
}

/// Whether a task has a journal of this name.
fn is_journal(task: Task<'_>, name: &str) -> bool
    ensures { result ≡ is_journal task.entry name.now }
{
    match task {
        Task::Talk(words) => match words.journal {
            Some(journal) => journal == name,
            None => false,
        },
        _ => false,
    }
}

/// Whether a task's cartridge replaces a file of this name.
fn is_image(task: Task<'_>, name: &str) -> bool
    ensures { result ≡ is_image task.entry name.now }
{
    match task {
        Task::Recover(words) => match words.image {
            Some(image) => image == name,
            None => false,
        },
        _ => false,
    }
}

/// What is wrong with the name of the file that an output replaces.
fn name_fault(task: Task<'_>, name: &str) -> Option<WordFault>
    ensures { result ≡ name_fault task.entry name.now }
{
    if is_journal(task, name) {
        Some(WordFault::SameFile {
            word: FileWord::File,
            other: FileWord::Journal,
        })
    } else if is_image(task, name) {
        Some(WordFault::SameFile {
            word: FileWord::File,
            other: FileWord::Image,
        })
    } else {
        None
    }
}

/// What is wrong with the file that an output replaces.
fn output_fault(
    task: Task<'_>,
    inputs: &[SeenWord],
    name: &str,
    file: SeenWord,
) -> Option<WordFault>
    requires { file.word ≡ FileWord.File }
    ensures { result ≡ output_fault task.entry inputs.now name.now file.file }
{
    match same_among(inputs, file) {
        Some(other) => Some(WordFault::SameFile {
            word: FileWord::File,
            other,
        }),
        None => {
            if starts_movie(task) && has_some(file.file) {
                Some(WordFault::NotEmpty {
                    word: FileWord::File,
                })
            } else {
                name_fault(task, name)
            }
        }
    }
}

/// Looks at the files that a task's words name, before any is opened: first as [`check_words`] does for a task whose output replaces no
/// file. Then it is an error where the file that the output replaces is the ordinary file of another word, or for [`Task::New`] an ordinary
/// file with bytes. Standard input may be this file, since it is read whole before, but not for [`Task::Diff`] and [`Task::Recover`]. For
/// [`Task::Recover`] it may not be the file that the cartridge replaces, nor have its name. For [`Task::Talk`] the file
/// may be the movie's, but not that of standard input or output, it may have bytes only where the conversation starts from a movie, and its
/// name may not be that of the journal.
pub fn check_output<F: Folder>(folder: &F, task: Task<'_>, file: &str) -> Result<Permit, WordFault>
    // Where a word of the task is at fault, the task ends with this fault, and no stream is read or written. So it does where
    // the file is the ordinary file of CART, SCRIPT, OTHER, OLD or IMAGE, or for `diff` and `recover` that of standard input, for `talk`
    // that of standard input or output, or for `new`, and for `talk` without MOVIE, has bytes, by what the folder showed, or where it
    // has the name of the journal or of IMAGE. Else it is saved.
    // Refused: movie_may_replace_the_journal_beside_it, answers_may_be_replaced, movie_begun_in_a_conversation_may_replace_one, script_may_be_replaced, output_may_replace_any_file, script_may_replace_the_newer_movie,
    // movie_may_replace_its_journal, movie_may_replace_its_cartridge, movie_may_replace_the_cartridge_beside_it,
    // blank_movie_may_replace_a_movie, words_at_fault_are_saved.
    ensures { OutputEnds (F.shown folder.now) task.entry file.now result }
{
    let inputs = see_inputs(folder, task);
    let output = see(folder, FileWord::File, Some(file));
    match check_words(folder, task) {
        Ok(permit) => match output_fault(task, &inputs, file, output) {
            Some(fault) => Err(fault),
            None => Ok(permit),
        },
        Err(fault) => Err(fault),
    }
}
