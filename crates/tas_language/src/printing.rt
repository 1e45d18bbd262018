//! Printing a reply.

ghost use Rattle.std.specs.Prelude.{◌≡◌, ◌++◌, codes, decimal, IfOk};
ghost use Rattle.tas_language.specs.declared.reply.Reply.TheVariants.{Full, Measured, Pressed, Drawn, Halted, Worked, OutOfMemory};
ghost use Rattle.tas_language.specs.Replies.{reply_text};
ghost use Rattle.byte_text.specs.Digits.{hex_word};

use crate::Reply;
use byte_text::hex_digits;
use std::alloc::{AllocError, Allocator};
use tas_movie::print_frame;
use vcs_inputs::Input;

/// An address as four upper case hexadecimal digits.
fn address_digits(address: u16) -> [u8; 4]
    ensures { result ≡ hex_word address }
{
    let [a, b] = hex_digits((address / 256) as u8);
    let [c, d] = hex_digits((address % 256) as u8);
    [a, b, c, d]
}

/// The line of a reply with a word, a number of edits and the movie's length.
fn len_line<A: Allocator>(
    alloc: A,
    word: &str,
    at: u64,
    len: usize,
) -> Result<Vec<u8, A>, AllocError>
    ensures { IfOk result (λ bytes. bytes.items
        ≡ word.now ++ codes " " ++ decimal at ++ codes " len " ++ decimal len ++ codes "\n") }
{
    Ok(format!(in alloc; "{word} {at} len {len}\n")?.into_bytes())
}

fn full_line<A: Allocator>(alloc: A, at: u64) -> Result<Vec<u8, A>, AllocError>
    ensures { IfOk result (λ bytes. bytes.items ≡ reply_text (Full at)) }
{
    Ok(format!(in alloc; "full {at}\n")?.into_bytes())
}

fn measured_line<A: Allocator>(alloc: A, at: u64, len: usize) -> Result<Vec<u8, A>, AllocError>
    ensures { IfOk result (λ bytes. bytes.items ≡ reply_text (Measured at len)) }
{
    Ok(format!(in alloc; "len {at} {len}\n")?.into_bytes())
}

fn pressed_line<A: Allocator>(alloc: A, at: u64, input: Input) -> Result<Vec<u8, A>, AllocError>
    ensures { IfOk result (λ bytes. bytes.items ≡ reply_text (Pressed at input)) }
{
    let mut bytes = format!(in alloc; "input {at} ")?.into_bytes();
    bytes.extend_from_slice(&print_frame(input))?;
    bytes.push(b'\n')?;
    Ok(bytes)
}

fn drawn_line<A: Allocator>(
    alloc: A,
    at: u64,
    frame: usize,
    ran: u64,
    lit: usize,
) -> Result<Vec<u8, A>, AllocError>
    ensures { IfOk result (λ bytes. bytes.items ≡ reply_text (Drawn at frame ran lit)) }
{
    Ok(format!(in alloc; "shot {at} {frame} ran {ran} lit {lit}\n")?.into_bytes())
}

fn halted_line<A: Allocator>(
    alloc: A,
    at: u64,
    address: u16,
    opcode: u8,
) -> Result<Vec<u8, A>, AllocError>
    ensures { IfOk result (λ bytes. bytes.items ≡ reply_text (Halted at address opcode)) }
{
    let mut bytes = format!(in alloc; "halted {at} ")?.into_bytes();
    bytes.extend_from_slice(&address_digits(address))?;
    bytes.push(b' ')?;
    bytes.extend_from_slice(&hex_digits(opcode))?;
    bytes.push(b'\n')?;
    Ok(bytes)
}

fn worked_line<A: Allocator>(
    alloc: A,
    jobs: usize,
    kept: usize,
    stale: usize,
) -> Result<Vec<u8, A>, AllocError>
    ensures { IfOk result (λ bytes. bytes.items ≡ reply_text (Worked jobs kept stale)) }
{
    Ok(format!(in alloc; "work jobs {jobs} kept {kept} stale {stale}\n")?.into_bytes())
}

fn out_of_memory_line<A: Allocator>(alloc: A) -> Result<Vec<u8, A>, AllocError>
    ensures { IfOk result (λ bytes. bytes.items ≡ reply_text (OutOfMemory)) }
{
    Vec::from_slice(alloc, b"out of memory\n")
}

/// The line of a reply, with its newline. `AllocError` where memory is refused.
pub fn reply_line<A: Allocator>(alloc: A, reply: Reply) -> Result<Vec<u8, A>, AllocError>
    // A reply's line is the definition's text of it.
    // Refused: halt_is_reported_at_another_address, shot_reply_with_its_numbers_swapped*.
    ensures { IfOk result (λ bytes. bytes.items ≡ reply_text reply) }
{
    match reply {
        Reply::Edited { at, len } => len_line(alloc, "edit", at, len),
        Reply::Place { at, len } => len_line(alloc, "place", at, len),
        Reply::Long { at, len } => len_line(alloc, "long", at, len),
        Reply::Full { at } => full_line(alloc, at),
        Reply::Measured { at, len } => measured_line(alloc, at, len),
        Reply::Pressed { at, input } => pressed_line(alloc, at, input),
        Reply::NoFrame { at, len } => len_line(alloc, "no frame", at, len),
        Reply::Drawn {
            at,
            frame,
            ran,
            lit,
        } => drawn_line(alloc, at, frame, ran, lit),
        Reply::Halted {
            at,
            address,
            opcode,
        } => halted_line(alloc, at, address, opcode),
        Reply::Worked { jobs, kept, stale } => worked_line(alloc, jobs, kept, stale),
        Reply::OutOfMemory => out_of_memory_line(alloc),
    }
}
