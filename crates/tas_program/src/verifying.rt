//! Many movies in one call: where their files come from, and how a verification ends.
//!
//! The directory of cartridges is listed once, before a movie is played: each of its files that is as long as a cartridge is read, and its
//! SHA-256 kept. So names don't matter there, and a cartridge is found however many there are. A file that can't be read is left out, and what
//! changes in the directory later isn't seen, but for a file that has other bytes when it is opened for a movie: that isn't taken. How far it is goes to
//! standard error, if that is a terminal.

ghost use Rattle.std.specs.Prelude.{◌≡◌, ◌↔◌, ◌++◌, ◌∷◌, ℕ, List, All, IsTrue, string_bytes, OnOk, IfOk, IfErr};
ghost use Rattle.byte_text.specs.Splitting.{NoByte};
ghost use Rattle.tas_program.specs.Verifying.{AreIn, IsIn, IsMore, IsUnlisted, VerifiesBy, VerifiesIn, VerifyEnds, shelf_by, verified_end};

use crate::{Folder, TaskFault};
use byte_text::split_once;
use std::alloc::{AllocError, Global};
use std::io::{Read, Write, sink};
use std::thread::Threads;
use std::time::Clock;
use tas_engines::read_input;
use tas_verify::{Cart, Shelf, Tally, VerifyFault, name_of, sha256_of, verify_run};
use tas_words::VerifyWords;

/// The files of a folder, by their names, and some of them by their SHA-256.
#[derive(Drop)]
struct Library<'a, F> {
    folder: &'a F,
    carts: &'a [Cart<'a>],
}

impl<F: Folder> Shelf for Library<'_, F> {
    type File = F::File;

    ghost facts = { λ library. shelf_by (F.bytes_of library.folder.now) library.carts.now };

    // A file is opened by its name.
    // Refused: each_file_of_an_archive_is_the_same.
    fn open(&self, name: &[u8]) -> Option<F::File> {
        match str::from_utf8(name) {
            Ok(name) => self.folder.open(name).ok(),
            Err(_) => None,
        }
    }

    // A cartridge is opened by the name of the first file with its SHA-256.
    // Refused: each_cartridge_of_an_archive_is_the_same, cartridge_is_there_without_its_sha256.
    fn find(&self, digits: &[u8]) -> Option<F::File> {
        match name_of(self.carts, digits) {
            Some(name) => self.folder.open(name).ok(),
            None => None,
        }
    }
}

/// Whether this can be the name of a file right in a directory: it has no slash.
fn is_file_name(name: &str) -> bool
    ensures { IsTrue result ↔ NoByte 47 name.now }
{
    match split_once(name.as_bytes(), b'/') {
        Some(_) => false,
        None => true,
    }
}

/// The name of a file in a directory.
fn path_of(alloc: Global, dir: &str, name: &str) -> Result<String, AllocError>
    ensures { IfOk result (λ path. string_bytes path ≡ dir.now ++ 47 ∷ name.now) }
{
    let path = format!(in alloc; "{dir}/{name}")?;
    Ok(path)
}

/// Adds the name of a file in a directory, with the directory's; nothing where it has a slash, which no file's name has.
fn push_path(alloc: Global, dir: &str, name: &str, paths: &mut Vec<String>) -> Result<(), TaskFault>
    ensures paths { OnOk result (All (λ path. IsIn dir.now (string_bytes path)) paths.old.items
        → All (λ path. IsIn dir.now (string_bytes path)) paths.new.items) }
    ensures fault { IfErr result IsUnlisted }
{
    if !is_file_name(name) {
        return Ok(());
    }
    let Ok(path) = path_of(alloc, dir, name) else {
        return Err(TaskFault::Verify(VerifyFault::Memory));
    };
    let Ok(()) = paths.push(path) else {
        return Err(TaskFault::Verify(VerifyFault::Memory));
    };
    Ok(())
}

/// The names of what is in a directory, each with the directory's.
fn paths_in<F: Folder>(alloc: Global, folder: &F, dir: &str) -> Result<Vec<String>, TaskFault>
    ensures paths { IfOk result (λ paths. All (λ path. IsIn dir.now (string_bytes path)) paths.items) }
    ensures fault { IfErr result IsUnlisted }
{
    let Ok(names) = folder.list(alloc, dir) else {
        return Err(TaskFault::NoCarts);
    };
    let mut paths = Vec::new(alloc);
    for name in names.as_slice() {
        push_path(alloc, dir, name.as_str(), &mut paths)?;
    }
    Ok(paths)
}

/// The SHA-256 of the file with this name; nothing where it isn't as long as a cartridge, or can't be read.
fn cart_digits<F: Folder>(alloc: Global, folder: &F, name: &str) -> Option<[u8; 64]> {
    let found = folder.look(name)?;
    if found.len != 2048 && found.len != 4096 {
        return None;
    }
    let mut file = folder.open(name).ok()?;
    let bytes = read_input(alloc, &mut file).ok()?;
    Some(sha256_of(bytes.as_slice()))
}

/// Adds a file's cartridge, where it is one.
fn push_cart<'a, F: Folder>(
    alloc: Global,
    folder: &F,
    name: &'a str,
    carts: &mut Vec<Cart<'a>>,
) -> Result<(), TaskFault>
    ensures cart { OnOk result (IsMore name.now carts.old.items carts.new.items) }
    ensures fault { IfErr result IsUnlisted }
{
    let Some(digits) = cart_digits(alloc, folder, name) else {
        return Ok(());
    };
    match carts.push(Cart { digits, name }) {
        Ok(()) => Ok(()),
        Err(_) => Err(TaskFault::Verify(VerifyFault::Memory)),
    }
}

/// The cartridges among the files of these names.
fn carts_among<'a, F: Folder>(
    alloc: Global,
    folder: &F,
    paths: &'a [String],
) -> Result<Vec<Cart<'a>>, TaskFault>
    ensures carts { IfOk result (λ carts. (dir : List ℕ)
        → All (λ path. IsIn dir (string_bytes path)) paths.now → AreIn dir carts.items) }
    ensures fault { IfErr result IsUnlisted }
{
    let mut carts = Vec::new(alloc);
    for path in paths {
        push_cart(alloc, folder, path.as_str(), &mut carts)?;
    }
    Ok(carts)
}

/// The end of a verification.
fn verified_end(end: Result<Tally, VerifyFault>) -> Result<(), TaskFault>
    ensures { result ≡ verified_end end }
{
    match end {
        Ok(tally) if tally.same == tally.movies => Ok(()),
        Ok(_) => Err(TaskFault::NotAll),
        Err(fault) => Err(TaskFault::Verify(fault)),
    }
}

/// Verifies with these cartridges.
fn verify_over<T: Threads + Clock + Sync, F: Folder + Sync, R: Read, W: Write, E: Write>(
    rt: &T,
    alloc: Global,
    workers: usize,
    carts: &[Cart<'_>],
    folder: &F,
    input: &mut R,
    output: &mut W,
    errors: &mut E,
) -> Result<(), TaskFault>
    ensures { VerifiesBy (shelf_by (F.bytes_of folder.now) carts.now)
        (record { input = R.remaining input.old; output = W.contents output.old })
        (record { input = R.remaining input.new; output = W.contents output.new }) result }
{
    let library = Library { folder, carts };
    let end = if folder.has_progress() {
        verify_run(rt, alloc, workers, &library, input, output, errors)
    } else {
        let mut nowhere = sink();
        verify_run(rt, alloc, workers, &library, input, output, &mut nowhere)
    };
    verified_end(end)
}

/// Verifies with the cartridges of a directory.
fn verify_in<T: Threads + Clock + Sync, F: Folder + Sync, R: Read, W: Write, E: Write>(
    rt: &T,
    alloc: Global,
    workers: usize,
    dir: &str,
    folder: &F,
    input: &mut R,
    output: &mut W,
    errors: &mut E,
) -> Result<(), TaskFault>
    ensures { VerifiesIn (F.bytes_of folder.now) dir.now
        (record { input = R.remaining input.old; output = W.contents output.old })
        (record { input = R.remaining input.new; output = W.contents output.new }) result }
{
    let paths = match paths_in(alloc, folder, dir) {
        Ok(paths) => paths,
        Err(fault) => return Err(fault),
    };
    let carts = match carts_among(alloc, folder, paths.as_slice()) {
        Ok(carts) => carts,
        Err(fault) => return Err(fault),
    };
    verify_over(
        rt,
        alloc,
        workers,
        carts.as_slice(),
        folder,
        input,
        output,
        errors,
    )
}

/// Does a verification: lists the directory of cartridges, where the words name one, reads the manifest on the input, plays its movies by as
/// many workers as the words say, and writes a line for each movie and a last line to the output.
///
/// Faults: `NoCarts` where the directory can't be listed, or memory is refused for that; `Verify` of the verification, and its `Memory` where
/// memory is refused for the list of names or of cartridges: the manifest isn't read then; `NotAll` where all lines are written and not all movies
/// are the same. A file for whose bytes memory is refused is left out, like one that can't be read.
pub fn run_verify<T: Threads + Clock + Sync, F: Folder + Sync, R: Read, W: Write, E: Write>(
    rt: &T,
    alloc: Global,
    words: VerifyWords<'_>,
    folder: &F,
    input: &mut R,
    output: &mut W,
    errors: &mut E,
) -> Result<(), TaskFault>
    // A verification is done by `verify_run`, over the folder's files, the manifest on the input and the output. A cartridge that
    // is named by its SHA-256 is a file right in the directory that the words name, and none is found where they name none. It is
    // done only where all movies are the same.
    // Refused: verification_with_a_difference_is_a_good_end, verification_without_an_answer_is_a_good_end,
    // cartridge_is_outside_the_directory, file_of_a_directory_may_have_a_slash.
    ensures { VerifyEnds (F.bytes_of folder.now) words.entry
        (record { input = R.remaining input.old; output = W.contents output.old })
        (record { input = R.remaining input.new; output = W.contents output.new }) result }
{
    match words.carts {
        None => verify_over(rt, alloc, words.workers, &[], folder, input, output, errors),
        Some(dir) => verify_in(rt, alloc, words.workers, dir, folder, input, output, errors),
    }
}
