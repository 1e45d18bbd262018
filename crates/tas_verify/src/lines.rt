//! The lines that are written.

ghost use Rattle.std.specs.Prelude.{◌≡◌, ◌++◌, ◌≤◌, map, length, codes, decimal, count_by, OnOk, IfOk};
ghost use Rattle.byte_text.specs.Digits.{hex_byte, hex_word};
ghost use Rattle.tas_verify.specs.Lines.{role_text, read_text, kind_text, outcome_text, end_of, end_line, end_lines, is_same, tally_line};

use crate::{Outcome, Role, Row};
use byte_text::hex_digits;
use itoa::Buffer;
use std::alloc::{AllocError, Allocator};
use tas_engines::ReadFault;
use tas_movie::TextErrorKind;

/// A movie, and what came of it.
#[derive(Clone, Copy)]
pub struct Verified<'a> {
    /// The words of its line in the manifest.
    pub row: Row<'a>,
    /// What came of it.
    pub outcome: Outcome,
    /// How many frames were played for it; 0 where it has no digest. No contract speaks of it.
    pub frames: usize,
}

/// How many movies there were.
#[derive(Clone, Copy, Debug, PartialEq, Eq)]
pub struct Tally {
    /// All of them.
    pub movies: usize,
    /// Those whose digests are the stored ones.
    pub same: usize,
}

/// A role's name.
fn role_text(role: Role) -> &'static [u8]
    ensures { result.now ≡ role_text role }
{
    match role {
        Role::Movie => b"movie",
        Role::Cartridge => b"cartridge",
        Role::Digest => b"digest",
    }
}

/// Why a file wasn't read whole.
fn read_text(fault: ReadFault) -> &'static [u8]
    ensures { result.now ≡ read_text fault }
{
    match fault {
        ReadFault::TooLong => b"input is too long",
        ReadFault::Failed => b"read failed",
        ReadFault::Memory => b"out of memory",
    }
}

/// What is wrong with a line of a movie's text.
fn kind_text(kind: TextErrorKind) -> &'static [u8]
    ensures { result.now ≡ kind_text kind }
{
    match kind {
        TextErrorKind::Head => b"head",
        TextErrorKind::Digest => b"digest",
        TextErrorKind::Frame => b"frame",
        TextErrorKind::End => b"end",
        TextErrorKind::TooMany => b"too many",
        TextErrorKind::Run => b"run",
    }
}

/// Adds some bytes, a number in decimal digits, and some bytes.
fn push_number<A: Allocator>(
    out: &mut Vec<u8, A>,
    before: &[u8],
    n: usize,
    after: &[u8],
) -> Result<(), AllocError>
    ensures { OnOk result
        (out.new.items ≡ out.old.items ++ (before.now ++ decimal n ++ after.now)) }
{
    let mut buffer = Buffer::new();
    out.extend_from_slice(before)?;
    out.extend_from_slice(buffer.format(n).as_bytes())?;
    out.extend_from_slice(after)
}

/// Adds two texts.
fn push_two<A: Allocator>(
    out: &mut Vec<u8, A>,
    first: &[u8],
    second: &[u8],
) -> Result<(), AllocError>
    ensures { OnOk result (out.new.items ≡ out.old.items ++ (first.now ++ second.now)) }
{
    out.extend_from_slice(first)?;
    out.extend_from_slice(second)
}

/// An address as four upper case hexadecimal digits.
fn address_digits(address: u16) -> [u8; 4]
    ensures { result ≡ hex_word address }
{
    let [a, b] = hex_digits((address / 256) as u8);
    let [c, d] = hex_digits((address % 256) as u8);
    [a, b, c, d]
}

/// Adds what is said of a halt.
fn push_halt<A: Allocator>(out: &mut Vec<u8, A>, at: u16, opcode: u8) -> Result<(), AllocError>
    ensures { OnOk result (out.new.items
        ≡ out.old.items ++ (codes "halted at " ++ hex_word at ++ codes " by " ++ hex_byte opcode)) }
{
    out.extend_from_slice(b"halted at ")?;
    out.extend_from_slice(&address_digits(at))?;
    out.extend_from_slice(b" by ")?;
    out.extend_from_slice(&hex_digits(opcode))
}

/// Adds what came of a movie.
fn push_outcome<A: Allocator>(out: &mut Vec<u8, A>, outcome: Outcome) -> Result<(), AllocError>
    ensures { OnOk result (out.new.items ≡ out.old.items ++ outcome_text outcome) }
{
    match outcome {
        Outcome::Same => out.extend_from_slice(b"ok"),
        Outcome::DiffersAt(frame) => push_number(out, b"differs at ", frame, b""),
        Outcome::DiffersInLine(line) => push_number(out, b"differs in line ", line, b""),
        Outcome::NotFound(role) => push_two(out, role_text(role), b" not found"),
        Outcome::Unread(role, fault) => {
            push_two(out, role_text(role), b": ")?;
            out.extend_from_slice(read_text(fault))
        }
        Outcome::Size(len) => push_number(out, b"cartridge has ", len, b" bytes"),
        Outcome::Text(error) => {
            push_number(out, b"movie line ", error.line, b": ")?;
            out.extend_from_slice(kind_text(error.kind))
        }
        Outcome::Halted { at, opcode } => push_halt(out, at, opcode),
        Outcome::Memory => out.extend_from_slice(b"out of memory"),
    }
}

/// Adds a movie's line.
fn push_line<A: Allocator>(out: &mut Vec<u8, A>, verified: &Verified<'_>) -> Result<(), AllocError>
    ensures { OnOk result (out.new.items ≡ out.old.items ++ end_line (end_of verified.now)) }
{
    push_two(out, verified.row.movie, b": ")?;
    push_outcome(out, verified.outcome)?;
    out.push(b'\n')?;
    Ok(())
}

/// The lines of some movies, in order.
pub(crate) fn lines_text<A: Allocator>(
    alloc: A,
    verified: &[Verified<'_>],
) -> Result<Vec<u8, A>, AllocError>
    ensures { IfOk result (λ text. text.items ≡ end_lines (map end_of verified.now)) }
{
    let mut text = Vec::new(alloc);
    for one in verified {
        push_line(&mut text, one)?;
    }
    Ok(text)
}

/// How many of some movies are the same.
pub(crate) fn count_same(verified: &[Verified<'_>]) -> usize
    ensures count { result ≡ count_by (λ end. is_same end.outcome) (map end_of verified.now) }
    ensures most { result ≤ length verified.now }
{
    let mut count = 0;
    for one in verified {
        if one.outcome == Outcome::Same {
            count += 1;
        }
    }
    count
}

/// The last line.
pub(crate) fn tally_text<A: Allocator>(alloc: A, tally: Tally) -> Result<Vec<u8, A>, AllocError>
    ensures { IfOk result (λ text. text.items ≡ tally_line tally) }
{
    let mut text = Vec::new(alloc);
    push_number(&mut text, b"", tally.same, b" of ")?;
    push_number(&mut text, b"", tally.movies, b" ok\n")?;
    Ok(text)
}
