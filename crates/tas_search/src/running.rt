//! A search of a movie, over readers and writers.
//!
//! Conversations have no line for it. A search reads its movie whole and returns the changes that an edit makes, so over a seat's view it would be
//! `search_movie` on the view's movie, with the reply of an edit for each change; but a seat's lines are answered one after the other, and this one
//! would take minutes. It would need a thread of its own beside the conversation, and a line to ask how far it is and to stop it.

ghost use Rattle.std.specs.Prelude.{◌≡◌, map};
ghost use Rattle.tas_search.specs.SearchText.{inputs_of};
ghost use Rattle.tas_search.specs.Logs.{log_bytes};
ghost use Rattle.tas_search.specs.SearchRun.{Ends, IsSearchRun, given_bytes, movie_place, names_place, read_inputs};

use crate::answering::{SearchBytes, SearchText, search_text};
use crate::reading::{bytes_of, read_all, read_onto};
use crate::search_error::SearchError;
use crate::search_request::Search;
use std::alloc::Allocator;
use std::io::{Read, Write};
use std::thread::Threads;
use std::time::Clock;
use tas_engines::write_all;

/// The place of the names among the inputs.
fn names_place(search: &Search<'_>) -> usize
    ensures { result ≡ names_place search.now }
{
    if search.has_choices { 2 } else { 1 }
}

/// The place of the movie's text.
fn movie_place(search: &Search<'_>) -> usize
    ensures { result ≡ movie_place search.now }
{
    let place = names_place(search);
    if search.has_names { place + 1 } else { place }
}

/// The bytes of the input at a place, if it is given.
fn given_bytes<A: Allocator>(inputs: &[Vec<u8, A>], given: bool, place: usize) -> &[u8]
    ensures { result.now ≡ given_bytes (map (λ bytes. bytes.items) inputs.now) given place }
{
    if given { bytes_of(inputs, place) } else { &[] }
}

/// The bytes that a search reads, of its inputs in order.
fn search_bytes<'a, A: Allocator>(search: &Search<'_>, inputs: &'a [Vec<u8, A>]) -> SearchBytes<'a>
    ensures { inputs_of search.now result
        ≡ read_inputs search.now (map (λ bytes. bytes.items) inputs.now) }
{
    let image = bytes_of(inputs, 0);
    let choices = given_bytes(inputs, search.has_choices, 1);
    let names = given_bytes(inputs, search.has_names, names_place(search));
    let movie = bytes_of(inputs, movie_place(search));
    SearchBytes {
        image,
        choices,
        names,
        movie,
    }
}

/// Searches by these inputs, writes the script and returns the verdict.
fn answer<
    R: Threads + Clock + Sync,
    A: Allocator + Copy + Send + Sync,
    W: Write,
    E: Write,
    P: Write,
>(
    rt: &R,
    alloc: A,
    search: &Search<'_>,
    inputs: &[Vec<u8, A>],
    output: &mut W,
    errors: &mut E,
    report: &mut P,
) -> Result<Vec<u8, A>, SearchError>
    ensures { Ends (λ verdict. verdict.items)
        (read_inputs search.now (map (λ bytes. bytes.items) inputs.now)) (W.contents output.old)
        (W.contents output.new) (log_bytes (E.contents errors.old) (P.contents report.old))
        (log_bytes (E.contents errors.new) (P.contents report.new)) result }
{
    let bytes = search_bytes(search, inputs);
    match search_text(rt, alloc, search, &bytes, errors, report) {
        Err(error) => Err(error),
        Ok(SearchText { script, verdict }) => match write_all(output, script.as_slice()) {
            Err(fault) => Err(SearchError::Run(fault)),
            Ok(()) => Ok(verdict),
        },
    }
}

/// Reads the files, which are the cartridge, the choices where they are those of a file, and the names where they are, and then the movie's
/// text; searches, with a line for each layer to both logs, writes the script and returns the verdict.
///
/// Faults, in order: `Read` of the first input that isn't read whole, and those after it are left untouched; then those of
/// [`search_text`](crate::search_text), and nothing is written but lines of layers; `Run` of a write of the script that failed.
pub fn search_run<
    T: Threads + Clock + Sync,
    A: Allocator + Copy + Send + Sync,
    F: Read,
    R: Read,
    W: Write,
    E: Write,
    P: Write,
>(
    rt: &T,
    alloc: A,
    search: &Search<'_>,
    files: &mut [F],
    input: &mut R,
    output: &mut W,
    errors: &mut E,
    report: &mut P,
) -> Result<Vec<u8, A>, SearchError>
    // A search reads its inputs whole, in order, writes the lines of its layers and then the script that `search_text` makes of their bytes, and
    // returns its verdict; or reports the fault with no script written. After a write of the script that failed its first bytes are out, as many
    // as it reports.
    // Refused: last_byte_of_the_script_is_left_out, verdict_of_a_search_is_its_script,
    // names_are_read_from_the_choices_file.
    ensures { IsSearchRun (λ verdict. verdict.items) search.now (map F.remaining files.old) (map F.remaining files.new)
        (R.remaining input.old) (R.remaining input.new) (W.contents output.old)
        (W.contents output.new) (log_bytes (E.contents errors.old) (P.contents report.old))
        (log_bytes (E.contents errors.new) (P.contents report.new)) result }
{
    let mut inputs = read_all(alloc, files)?;
    read_onto(alloc, &mut inputs, input)?;
    answer(rt, alloc, search, inputs.as_slice(), output, errors, report)
}
