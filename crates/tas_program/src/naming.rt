//! Commands whose faults name their input.
//!
//! `trace`, `check`, `migrate`, `shot`, `script` and `export` keep their lines, which name none, since programs read them; `new` reads one input
//! alone. A command of this module reads its inputs one after the other, so that it knows which of them isn't read whole. Where a movie's text
//! is at fault and there are two movies, the one that was read first is read once more, to see whether it is that: so the commands know nothing
//! of names, and a run without a fault costs nothing more.

ghost use Rattle.std.specs.Prelude.{◌≡◌, length, map, IfOk, OnOk, IfErr};
ghost use Rattle.tas_engines.specs.Commands.{bytes_of};
ghost use Rattle.tas_engines.specs.Input.{AreReadWhole, IsReadOnto, StopsReading};
ghost use Rattle.tas_program.specs.Naming.{
  EndsNamed,
  IsNamedBy,
  IsNamedEnd,
  IsNamedFault,
  IsNamedRun,
  IsNamedText,
  IsUnopened,
  IsUnread,
  StopsAt,
  text_of,
};
ghost use Rattle.tas_program.specs.Roles.{role_of, unread_fault};

use crate::roles::{role_of, second_of, unread_fault};
use crate::running::open;
use crate::{Folder, Role, Roles, TaskFault};
use std::alloc::Allocator;
use std::io::{Read, Write};
use tas_engines::{Command, movie_of, read_input};
use tas_movie::TextError;
use tas_tool::{ReadFault, RunFault, ToolFault};

/// The bytes of the input at this place, counted from 0: none where there is no such input.
fn bytes_of<A: Allocator>(inputs: &[Vec<u8, A>], place: usize) -> &[u8]
    ensures { result.now ≡ bytes_of (map (λ bytes. bytes.items) inputs.now) place }
{
    if place < inputs.len() {
        inputs[place].as_slice()
    } else {
        &[]
    }
}

/// Reads an input as [`read_input`] does, and puts its bytes after those of others.
fn read_onto<A: Allocator + Copy, R: Read>(
    alloc: A,
    inputs: &mut Vec<Vec<u8, A>, A>,
    reader: &mut R,
) -> Result<(), ReadFault>
    ensures whole { OnOk result (IsReadOnto (R.remaining reader.old) (R.remaining reader.new)
        (map (λ bytes. bytes.items) inputs.old.items)
        (map (λ bytes. bytes.items) inputs.new.items)) }
    ensures fault { IfErr result (StopsReading (R.remaining reader.old) (R.remaining reader.new)) }
{
    let bytes = read_input(alloc, reader)?;
    let Ok(()) = inputs.push(bytes) else {
        return Err(ReadFault::Memory);
    };
    Ok(())
}

/// The same of the input at this place, counted from 0, whose fault names it.
fn read_at<A: Allocator + Copy, R: Read>(
    alloc: A,
    roles: Roles,
    place: usize,
    inputs: &mut Vec<Vec<u8, A>, A>,
    reader: &mut R,
) -> Result<(), TaskFault>
    ensures whole { OnOk result (IsReadOnto (R.remaining reader.old) (R.remaining reader.new)
        (map (λ bytes. bytes.items) inputs.old.items)
        (map (λ bytes. bytes.items) inputs.new.items)) }
    ensures fault { IfErr result
        (IsUnread (role_of roles place) (R.remaining reader.old) (R.remaining reader.new)) }
{
    let role = role_of(roles, place);
    match read_onto(alloc, inputs, reader) {
        Ok(()) => Ok(()),
        Err(fault) => Err(unread_fault(role, fault)),
    }
}

/// Reads the files of a command, one after the other. Where reading one fails, those after it are left untouched.
fn read_files<A: Allocator + Copy, R: Read>(
    alloc: A,
    roles: Roles,
    readers: &mut [R],
) -> Result<Vec<Vec<u8, A>, A>, TaskFault>
    ensures whole { IfOk result (λ inputs. AreReadWhole (map R.remaining readers.old)
        (map R.remaining readers.new) (map (λ bytes. bytes.items) inputs.items)) }
    ensures fault { IfErr result
        (StopsAt roles (map R.remaining readers.old) (map R.remaining readers.new)) }
{
    let mut inputs = Vec::new(alloc);
    for k in 0..readers.len() {
        read_at(alloc, roles, k, &mut inputs, &mut readers[k])?;
    }
    Ok(inputs)
}

/// What is wrong with a text, where the fault is that.
fn text_of(fault: RunFault) -> Option<TextError>
    ensures { result ≡ text_of fault }
{
    match fault {
        RunFault::Text(error) => Some(error),
        _ => None,
    }
}

/// The fault of a command that ended with this error of a movie's text: that of the movie of this role, whose text this is, where it is its own.
fn name_error<A: Allocator + Copy>(
    alloc: A,
    role: Role,
    image: &[u8],
    text: &[u8],
    error: TextError,
) -> TaskFault
    ensures { IsNamedText role image.now text.now error result }
{
    match movie_of(alloc, image, text) {
        Ok(movie) => {
            drop(movie);
            TaskFault::Tool(ToolFault::Run(RunFault::Text(error)))
        }
        Err(why) => match text_of(why) {
            Some(own) => TaskFault::NotMovie { role, error: own },
            // Out of memory: the command has made a cartridge of the image.
            None => TaskFault::Tool(ToolFault::Run(why)),
        },
    }
}

/// The same of any fault: one that isn't of a text stays as it is.
fn name_text<A: Allocator + Copy>(
    alloc: A,
    role: Role,
    image: &[u8],
    text: &[u8],
    fault: RunFault,
) -> TaskFault
    ensures { IsNamedBy (text_of fault) role image.now text.now fault result }
{
    match text_of(fault) {
        Some(error) => name_error(alloc, role, image, text, error),
        None => TaskFault::Tool(ToolFault::Run(fault)),
    }
}

/// The fault of a command that has read these inputs, and names the one that it is of.
fn name_fault<A: Allocator + Copy>(
    alloc: A,
    roles: Roles,
    inputs: &[Vec<u8, A>],
    fault: RunFault,
) -> TaskFault
    ensures { IsNamedFault roles (map (λ bytes. bytes.items) inputs.now) fault result }
{
    match second_of(roles) {
        Some(place) => {
            let role = role_of(roles, place);
            let image = bytes_of(inputs, 0);
            let text = bytes_of(inputs, place);
            name_text(alloc, role, image, text, fault)
        }
        None => TaskFault::Tool(ToolFault::Run(fault)),
    }
}

/// The end of a command that has read these inputs.
fn name_end<A: Allocator + Copy>(
    alloc: A,
    roles: Roles,
    inputs: &[Vec<u8, A>],
    done: Result<(), RunFault>,
) -> Result<(), TaskFault>
    ensures { IsNamedEnd roles (map (λ bytes. bytes.items) inputs.now) done result }
{
    match done {
        Ok(()) => Ok(()),
        Err(fault) => Err(name_fault(alloc, roles, inputs, fault)),
    }
}

/// Reads the files and then the input, each as [`read_input`] does, and answers them, as `run` of `tas_engines` does; but the fault names its
/// input.
///
/// Faults, in order: `Unread` of the first input that isn't read whole, and those after it are left untouched; `NotMovie` of the second movie
/// where its text is at fault; `Tool` with the others of the command. Out of memory, also `Tool`, at any point.
pub fn named_run<C: Command, A: Allocator + Copy, F: Read, R: Read, W: Write>(
    alloc: A,
    command: &C,
    roles: Roles,
    files: &mut [F],
    input: &mut R,
    output: &mut W,
) -> Result<(), TaskFault>
    // A fault names the input of which it is: the first one that isn't read whole, those before it being read whole and those after it
    // untouched; or the second movie, where its text is at fault. A movie's text that is at fault and isn't named is that on
    // standard input, or there is no second movie.
    // Refused: each_input_is_the_cartridge, movie_on_standard_input_is_the_old_one, failed_read_is_reported_as_too_long,
    // text_at_fault_is_always_the_second_movies, text_at_fault_is_never_the_second_movies,
    // script_is_read_for_the_second_movie, other_movie_is_named_as_the_script.
    ensures { IsNamedRun roles (C.answers command.now) (map F.remaining files.old)
        (map F.remaining files.new) (R.remaining input.old) (R.remaining input.new)
        (W.contents output.old) (W.contents output.new) result }
{
    let last = files.len();
    let mut inputs = read_files(alloc, roles, files)?;
    read_at(alloc, roles, last, &mut inputs, input)?;
    let bytes = inputs.as_slice();
    let done = command.answer(alloc, bytes, output);
    name_end(alloc, roles, bytes, done)
}

/// Opens the file of this name, which is the input at this place.
fn open_at<F: Folder>(
    folder: &F,
    roles: Roles,
    place: usize,
    name: &str,
) -> Result<F::File, TaskFault>
    ensures file { IfOk result (λ file. F.File.remaining file ≡ F.bytes_of folder.now name.now) }
    ensures fault { IfErr result
        (λ named. named ≡ unread_fault (role_of roles place) ReadFault.Failed) }
{
    let role = role_of(roles, place);
    match open(folder, name) {
        Ok(file) => Ok(file),
        Err(_) => Err(unread_fault(role, ReadFault::Failed)),
    }
}

/// Opens the files of these names, in order.
fn open_named<A: Allocator, F: Folder>(
    alloc: A,
    folder: &F,
    roles: Roles,
    names: &[&str],
) -> Result<Vec<F::File, A>, TaskFault>
    ensures files { IfOk result (λ files. map F.File.remaining files.items
        ≡ map (λ name. F.bytes_of folder.now name.now) names.now) }
    ensures fault { IfErr result (IsUnopened roles (length names.now)) }
{
    let mut files = Vec::new(alloc);
    for k in 0..names.len() {
        let file = open_at(folder, roles, k, names[k])?;
        let Ok(()) = files.push(file) else {
            return Err(TaskFault::Tool(ToolFault::Read(ReadFault::Memory)));
        };
    }
    Ok(files)
}

/// Runs a command over the files of these names and the input, and names the input of which a fault is.
pub(crate) fn run_named<C: Command, A: Allocator + Copy, F: Folder, R: Read, W: Write>(
    alloc: A,
    command: &C,
    roles: Roles,
    names: &[&str],
    folder: &F,
    input: &mut R,
    output: &mut W,
) -> Result<(), TaskFault>
    ensures { EndsNamed roles (map (λ name. F.bytes_of folder.now name.now) names.now)
        (C.answers command.now)
        (record { input = R.remaining input.old; output = W.contents output.old })
        (record { input = R.remaining input.new; output = W.contents output.new }) result }
{
    let mut files = open_named(alloc, folder, roles, names)?;
    named_run(alloc, command, roles, files.as_mut_slice(), input, output)
}
