//! `tas ram`.
//!
//! The place is a number of frames, not a frame, so power-on has a line. A range may be empty, and it may be longer
//! than an export's, since each line is written before the next frame is played. A line of a table is made from its end
//! to its front, in a buffer that the longest one fills. So no line asks for memory, and once lines go out only a write can fail.

ghost use Rattle.std.specs.Prelude.{◌≡◌, ◌+◌, ◌-◌, ◌*◌, ◌≤◌, ◌<◌, ◌^◌, ◌∷◌, ◌++◌, Ok, Err, None, length, drop, slice_index, decimal, IfOk, IfErr, OnOk};
ghost use Rattle.std.specs.List.{flat_map};
ghost use Rattle.std.specs.Io.KnownBytes.{Appends};
ghost use Rattle.byte_text.specs.CutOff.{IsCutOff};
ghost use Rattle.byte_text.specs.Digits.{hex_byte};
ghost use Rattle.tas_movie.specs.Content.{most_inputs};
ghost use Rattle.tas_engines.specs.Commands.{OfTwo};
ghost use Rattle.tas_engines.specs.Inside.RamLines.{line_size, told_names};
ghost use Rattle.tas_engines.specs.Names.{names_of};
ghost use Rattle.tas_engines.specs.Output.{Ends};
ghost use Rattle.tas_engines.specs.Ram.{bytes_line, numbered_bytes, numbered_values, ram_lines, IsRamRange, IsRamFault, IsRamAnswer};

use crate::commands::{Command, bytes_of};
use crate::name::Name;
use crate::passing::{pass_frame, pass_frames};
use crate::{RunFault, movie_of};
use byte_text::{WriteFault, hex_digits, write_counted};
use itoa::write_digits;
use std::alloc::Allocator;
use std::io::Write;
use tas_movie::Movie;

/// How many bytes of RAM there are.
const RAM_SIZE: usize = 128;

/// The most bytes that a line may have, and that may be written before the lines. The greatest names file that is read makes fewer.
pub(crate) const MOST_BYTES: usize = 4_294_967_296;

/// How many digits the greatest number has.
const MOST_DIGITS: usize = 20;

/// Where RAM's digits begin in a line whose number has the most digits.
const RAM_PLACE: usize = MOST_DIGITS + 1;

/// How many bytes the longest line of all bytes has.
const LINE_SIZE: usize = RAM_PLACE + 2 * RAM_SIZE + 1;

/// RAM as two upper case hexadecimal digits for each byte.
fn ram_digits(ram: &[u8; RAM_SIZE]) -> [u8; 2 * RAM_SIZE]
    ensures { result ≡ flat_map hex_byte ram.now }
{
    let mut digits = [0; 2 * RAM_SIZE];
    for (i, byte) in ram.iter().enumerate() {
        digits[2 * i..2 * i + 2].copy_from_slice(&hex_digits(*byte));
    }
    digits
}

/// Writes the line of all bytes of RAM after `k` frames, and returns how many bytes have gone out with those before it.
fn write_ram_line<W: Write>(
    k: usize,
    ram: &[u8; RAM_SIZE],
    before: usize,
    output: &mut W,
) -> Result<usize, WriteFault>
    requires { before + LINE_SIZE < 2 ^ 64 }
    ensures count { IfOk result (λ n. n ≡ before + length (numbered_bytes k ram.now)) }
    ensures most { IfOk result (λ n. n ≤ before + LINE_SIZE) }
    ensures all { OnOk result
        (Appends (W.contents output.old) (W.contents output.new) (numbered_bytes k ram.now)) }
    ensures cut { IfErr result
        (λ f. IsCutOff (W.contents output.old) (W.contents output.new) (numbered_bytes k ram.now)
        (f.written - before)) }
    ensures from { IfErr result (λ f. before ≤ f.written) }
{
    let mut line = [b'\n'; LINE_SIZE];
    line[MOST_DIGITS] = b' ';
    line[RAM_PLACE..LINE_SIZE - 1].copy_from_slice(&ram_digits(ram));
    let start = write_digits(k as u64, &mut line, MOST_DIGITS);
    write_counted(&line[start..], before, output)
}

/// Puts a comma and the value of the byte that has a name before place `end` of a buffer, and returns where the comma is.
fn put_value<A: Allocator>(
    name: &Name<A>,
    ram: &[u8; RAM_SIZE],
    buffer: &mut [u8],
    end: usize,
) -> usize
    requires room { 4 ≤ end }
    requires end { end ≤ length buffer.old }
    ensures start { end ≤ result + 4 }
    ensures value { drop result buffer.new
        ≡ 44 ∷ decimal (slice_index ram.now (name.now.address - 128)) ++ drop end buffer.old }
    ensures len { length buffer.new ≡ length buffer.old }
{
    let value = ram[usize::from(name.address.saturating_sub(128))];
    let start = write_digits(u64::from(value), buffer, end) - 1;
    buffer[start] = b',';
    start
}

/// Puts the line of the bytes that have names, after `k` frames, at the end of a buffer that the longest such line fills, and returns where it
/// begins.
fn put_values<A: Allocator>(
    k: usize,
    names: &[Name<A>],
    ram: &[u8; RAM_SIZE],
    buffer: &mut [u8],
) -> usize
    requires { length buffer.old ≡ 21 + 4 * length names.now }
    ensures start { result ≤ length buffer.new }
    ensures line { drop result buffer.new ≡ numbered_values (names_of names.now) k ram.now }
    ensures len { length buffer.new ≡ length buffer.old }
{
    let mut at = buffer.len() - 1;
    buffer[at] = b'\n';
    let mut left = names.len();
    while left > 0 {
        left -= 1;
        at = put_value(&names[left], ram, buffer, at);
    }
    write_digits(k as u64, buffer, at)
}

/// Writes the line of the bytes that have names, after `k` frames, by such a buffer, and returns how many bytes have gone out with those before
/// it.
fn write_values_line<A: Allocator, W: Write>(
    k: usize,
    names: &[Name<A>],
    ram: &[u8; RAM_SIZE],
    buffer: &mut [u8],
    before: usize,
    output: &mut W,
) -> Result<usize, WriteFault>
    requires size { length buffer.old ≡ 21 + 4 * length names.now }
    requires room { before + length buffer.old < 2 ^ 64 }
    ensures count { IfOk result
        (λ n. n ≡ before + length (numbered_values (names_of names.now) k ram.now)) }
    ensures most { IfOk result (λ n. n ≤ before + length buffer.old) }
    ensures all { OnOk result (Appends (W.contents output.old) (W.contents output.new)
        (numbered_values (names_of names.now) k ram.now)) }
    ensures cut { IfErr result (λ f. IsCutOff (W.contents output.old) (W.contents output.new)
        (numbered_values (names_of names.now) k ram.now) (f.written - before)) }
    ensures from { IfErr result (λ f. before ≤ f.written) }
    ensures len { length buffer.new ≡ length buffer.old }
{
    let start = put_values(k, names, ram, buffer);
    write_counted(&buffer[start..], before, output)
}

/// Writes the line of RAM after `k` frames, of all bytes or of those that have names, and returns how many bytes have gone out with those before
/// it.
fn write_line<A: Allocator, W: Write>(
    k: usize,
    names: Option<&[Name<A>]>,
    ram: &[u8; RAM_SIZE],
    buffer: &mut [u8],
    before: usize,
    output: &mut W,
) -> Result<usize, WriteFault>
    requires size { length buffer.old ≡ line_size names }
    requires most { length buffer.old ≤ MOST_BYTES }
    requires room { before + MOST_BYTES < 2 ^ 64 }
    ensures count { IfOk result
        (λ n. n ≡ before + length (bytes_line (told_names names.entry) k ram.now)) }
    ensures longest { IfOk result (λ n. n ≤ before + MOST_BYTES) }
    ensures all { OnOk result (Appends (W.contents output.old) (W.contents output.new)
        (bytes_line (told_names names.entry) k ram.now)) }
    ensures cut { IfErr result (λ f. IsCutOff (W.contents output.old) (W.contents output.new)
        (bytes_line (told_names names.entry) k ram.now) (f.written - before)) }
    ensures from { IfErr result (λ f. before ≤ f.written) }
    ensures len { length buffer.new ≡ length buffer.old }
{
    match names {
        None => write_ram_line(k, ram, before, output),
        Some(names) => write_values_line(k, names, ram, buffer, before, output),
    }
}

/// Which lines of RAM are written.
#[derive(Drop)]
pub(crate) struct Lines<'a, A: Allocator> {
    /// The names whose bytes are written; all bytes are where there are none.
    pub(crate) names: Option<&'a [Name<A>]>,
    /// The first number of frames.
    pub(crate) from: usize,
    /// The number after the last one.
    pub(crate) to: usize,
}

/// Writes the lines of RAM after `from` to `to` - 1 frames of a movie, each before the next frame is played, after `before` bytes that have
/// gone out. The buffer has room for the longest line of names; it is empty where all bytes are written.
pub(crate) fn write_ram_lines<A: Allocator, B: Allocator, W: Write>(
    movie: &Movie<A>,
    lines: &Lines<'_, B>,
    buffer: &mut [u8],
    before: usize,
    output: &mut W,
) -> Result<(), WriteFault>
    requires range { IsRamRange movie.now lines.now.from lines.now.to }
    requires most { length movie.now.inputs ≤ most_inputs }
    requires size { length buffer.old ≡ line_size lines.now.names }
    requires longest { length buffer.old ≤ MOST_BYTES }
    requires before { before ≤ MOST_BYTES }
    ensures all { OnOk result (Appends (W.contents output.old) (W.contents output.new)
        (ram_lines (told_names lines.now.names) movie.now lines.now.from lines.now.to)) }
    ensures cut { IfErr result (λ f. IsCutOff (W.contents output.old) (W.contents output.new)
        (ram_lines (told_names lines.now.names) movie.now lines.now.from lines.now.to)
        (f.written - before)) }
    ensures from { IfErr result (λ f. before ≤ f.written) }
{
    let mut state = pass_frames(movie, lines.from);
    let mut written = before;
    for k in lines.from..lines.to {
        written = write_line(k, lines.names, &state.ram(), buffer, written, output)?;
        pass_frame(movie, k, &mut state);
    }
    Ok(())
}

/// Whether the movie has the lines that are asked for; `Range` where it hasn't.
pub(crate) fn check_lines<A: Allocator>(
    movie: &Movie<A>,
    from: usize,
    to: usize,
) -> Result<(), RunFault>
    requires { length movie.now.inputs ≤ most_inputs }
    ensures range { OnOk result (IsRamRange movie.now from to) }
    ensures fault { IfErr result (IsRamFault from to movie.now) }
{
    let len = movie.len();
    if from <= to && to <= len + 1 {
        Ok(())
    } else {
        Err(RunFault::Range { from, to, len })
    }
}

/// The movie whose cartridge and text these are, where it has the lines that are asked for, or why there is none.
fn movie_with_lines<A: Allocator + Copy>(
    alloc: A,
    from: usize,
    to: usize,
    image: &[u8],
    bytes: &[u8],
) -> Result<Movie<A>, RunFault>
    ensures lines { IfOk result (λ movie. IsRamAnswer from to image.now bytes.now
        (Ok (ram_lines None movie from to))) }
    ensures range { IfOk result (λ movie. IsRamRange movie from to) }
    ensures most { IfOk result (λ movie. length movie.inputs ≤ most_inputs) }
    ensures fault { IfErr result (λ fault. IsRamAnswer from to image.now bytes.now (Err fault)) }
{
    let movie = movie_of(alloc, image, bytes)?;
    check_lines(&movie, from, to)?;
    Ok(movie)
}

/// Writes the lines of RAM of the movie whose cartridge and text these are.
fn show_ram<A: Allocator + Copy, W: Write>(
    alloc: A,
    from: usize,
    to: usize,
    image: &[u8],
    bytes: &[u8],
    output: &mut W,
) -> Result<(), RunFault>
    ensures { Ends (IsRamAnswer from to image.now bytes.now) (W.contents output.old)
        (W.contents output.new) result }
{
    let movie = movie_with_lines(alloc, from, to, image, bytes)?;
    let lines = Lines::<A> {
        names: None,
        from,
        to,
    };
    let mut unneeded: [u8; 0] = [];
    Ok(write_ram_lines(&movie, &lines, &mut unneeded, 0, output)?)
}

/// `tas ram`: RAM after K frames of the movie for each K from `from` to `to` - 1, of a cartridge and a movie's text: a line `K DIGITS` with
/// 256 upper case hexadecimal digits, written before the next frame is played. K is a number of frames, so 0 is power-on, and `to` is at
/// most one more than the movie's length. A halted machine keeps its RAM.
///
/// Faults, in order: those of [`movie_of`], then `Range`. `Memory` before anything is written.
#[derive(Clone, Copy)]
pub struct Ram {
    /// The first number of frames.
    pub from: usize,
    /// The number after the last one.
    pub to: usize,
}

impl Command for Ram {
    // `tas ram` writes the line of RAM after K frames from power-on for each K from FROM to TO - 1, halted or
    // not; `Range` only where FROM is past TO or TO past the length and one, where it is this fault or `Memory`, with
    // nothing written. After `Write` the first bytes are out, as many as it reports.
    // Refused: ram_lines_begin_at_power_on, ram_of_the_frame_before*, digits_of_ram_are_lower_case*,
    // ram_line_has_no_newline*, last_line_of_ram_is_out_of_range*.
    ghost answers = { λ ram. OfTwo (IsRamAnswer ram.from ram.to) };

    fn answer<A: Allocator + Copy, W: Write>(
        &self,
        alloc: A,
        inputs: &[Vec<u8, A>],
        output: &mut W,
    ) -> Result<(), RunFault> {
        show_ram(
            alloc,
            self.from,
            self.to,
            bytes_of(inputs, 0),
            bytes_of(inputs, 1),
            output,
        )
    }
}
