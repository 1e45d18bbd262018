//! `tas ram --names`.
//!
//! A table is for spreadsheets and plots: a head line, decimal numbers, commas between the columns. The head of its first column is two
//! words, which no name is, so no two columns have the same head. A table is written line by line, as RAM's other lines are.

ghost use Rattle.std.specs.Prelude.{◌≡◌, ◌+◌, ◌*◌, ◌≤◌, Err, length, IfOk, IfErr};
ghost use Rattle.tas_engines.specs.Commands.{OfThree};
ghost use Rattle.tas_engines.specs.Names.{names_of};
ghost use Rattle.tas_engines.specs.NamesFile.{AreNames};
ghost use Rattle.tas_engines.specs.Movies.{IsMovieOf};
ghost use Rattle.tas_engines.specs.Output.{Ends};
ghost use Rattle.tas_engines.specs.Ram.{IsRamRange};
ghost use Rattle.tas_engines.specs.RamTable.{table_head, IsTableAnswer};

use crate::commands::{Command, bytes_of};
use crate::name::Name;
use crate::ram::{Lines, MOST_BYTES, check_lines, write_ram_lines};
use crate::{RunFault, movie_of, read_names};
use byte_text::write_counted;
use std::alloc::{AllocError, Allocator};
use std::io::Write;
use tas_movie::Movie;

/// How many bytes a line has at most beside those of its names: its number's digits and the newline.
const PLAIN_SIZE: usize = 21;

/// How many bytes of a line each name makes at most: a comma and three digits.
const VALUE_SIZE: usize = 4;

/// The head line of the table of these names.
fn head_of<A: Allocator + Copy, B: Allocator>(
    alloc: A,
    names: &[Name<B>],
) -> Result<Vec<u8, A>, AllocError>
    ensures { IfOk result (λ head. head.items ≡ table_head (names_of names.now)) }
{
    let mut head = Vec::from_slice(alloc, b"frames played")?;
    for k in 0..names.len() {
        head.extend_from_slice(b",")?;
        head.extend_from_slice(names[k].text.as_slice())?;
    }
    head.extend_from_slice(b"\n")?;
    Ok(head)
}

/// Room for the longest line of a table of so many names. Out of memory where it would have more than [`MOST_BYTES`] bytes.
fn room_for<A: Allocator + Copy>(alloc: A, names: usize) -> Result<Vec<u8, A>, AllocError>
    ensures size { IfOk result (λ room. length room.items ≡ 21 + 4 * names) }
    ensures most { IfOk result (λ room. length room.items ≤ MOST_BYTES) }
{
    if names > (MOST_BYTES - PLAIN_SIZE) / VALUE_SIZE {
        return Err(AllocError);
    }
    Vec::from_elem(alloc, 0, PLAIN_SIZE + VALUE_SIZE * names)
}

/// What a table is written of.
#[derive(Drop)]
struct Table<A: Allocator> {
    /// The movie.
    movie: Movie<A>,
    /// The names of its columns.
    names: Vec<Name<A>, A>,
    /// Its head line.
    head: Vec<u8, A>,
    /// Room for a line.
    room: Vec<u8, A>,
}

/// What the table of these inputs is written of, or why there is none.
fn table_of<A: Allocator + Copy>(
    alloc: A,
    from: usize,
    to: usize,
    image: &[u8],
    text: &[u8],
    bytes: &[u8],
) -> Result<Table<A>, RunFault>
    ensures movie { IfOk result (λ table. IsMovieOf image.now bytes.now table.movie) }
    ensures names { IfOk result (λ table. AreNames text.now (names_of table.names.items)) }
    ensures range { IfOk result (λ table. IsRamRange table.movie from to) }
    ensures head { IfOk result
        (λ table. table.head.items ≡ table_head (names_of table.names.items)) }
    ensures short { IfOk result (λ table. length table.head.items ≤ MOST_BYTES) }
    ensures size { IfOk result
        (λ table. length table.room.items ≡ 21 + 4 * length table.names.items) }
    ensures most { IfOk result (λ table. length table.room.items ≤ MOST_BYTES) }
    ensures fault { IfErr result
        (λ fault. IsTableAnswer from to image.now text.now bytes.now (Err fault)) }
{
    let movie = movie_of(alloc, image, bytes)?;
    let names = read_names(alloc, text)?;
    check_lines(&movie, from, to)?;
    let head = head_of(alloc, names.as_slice())?;
    if head.len() > MOST_BYTES {
        return Err(RunFault::Memory);
    }
    let room = room_for(alloc, names.len())?;
    Ok(Table {
        movie,
        names,
        head,
        room,
    })
}

/// Writes the table of these inputs.
fn show_table<A: Allocator + Copy, W: Write>(
    alloc: A,
    range: RamTable,
    image: &[u8],
    text: &[u8],
    bytes: &[u8],
    output: &mut W,
) -> Result<(), RunFault>
    ensures { Ends (IsTableAnswer range.from range.to image.now text.now bytes.now)
        (W.contents output.old) (W.contents output.new) result }
{
    let mut table = table_of(alloc, range.from, range.to, image, text, bytes)?;
    let lines = Lines {
        names: Some(table.names.as_slice()),
        from: range.from,
        to: range.to,
    };
    let written = write_counted(table.head.as_slice(), 0, output)?;
    let room = table.room.as_mut_slice();
    Ok(write_ram_lines(&table.movie, &lines, room, written, output)?)
}

/// `tas ram --names`: a table of the bytes of RAM that have names, of a cartridge, the text of a names file and a movie's text: a head line, and
/// then for each K from `from` to `to` - 1 a line of K and the bytes' values after K frames, in decimal digits with commas between, in the order
/// of the names; each is written before the next frame is played. K and `to` are those of [`Ram`](crate::commands::Ram).
///
/// Faults, in order: those of [`movie_of`], `Names`, `Range`. `Memory` before anything is written.
#[derive(Clone, Copy)]
pub struct RamTable {
    /// The first number of frames.
    pub from: usize,
    /// The number after the last one.
    pub to: usize,
}

impl Command for RamTable {
    // `tas ram --names` writes the head line and, for each K from FROM to TO - 1, the line of the bytes that have names,
    // after K frames from power-on, halted or not; `Names` only for the names file's first line at fault, `Range` only
    // where FROM is past TO or TO past the length and one, and the names are read. With one of these or `Memory`
    // nothing is written. After `Write` the first bytes are out, as many as it reports.
    // Refused: head_of_a_table_has_no_first_column, each_column_is_that_of_the_byte_before,
    // columns_are_apart_by_semicolons, first_name_has_no_column, names_are_read_from_the_movie,
    // range_is_looked_at_before_the_names.
    ghost answers = { λ table. OfThree (IsTableAnswer table.from table.to) };

    fn answer<A: Allocator + Copy, W: Write>(
        &self,
        alloc: A,
        inputs: &[Vec<u8, A>],
        output: &mut W,
    ) -> Result<(), RunFault> {
        show_table(
            alloc,
            *self,
            bytes_of(inputs, 0),
            bytes_of(inputs, 1),
            bytes_of(inputs, 2),
            output,
        )
    }
}
