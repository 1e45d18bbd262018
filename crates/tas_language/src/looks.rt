//! The answers to `ram K`, `digest K`, `lag A B` and `inputs FROM TO`.

ghost use Rattle.std.specs.Prelude.{◌≡◌, ◌++◌, IfOk, OnOk};
ghost use Rattle.std.specs.List.{flat_map};
ghost use Rattle.byte_text.specs.Digits.{hex_byte};
ghost use Rattle.vcs_tia.specs.Image.{ppm_bytes};
ghost use Rattle.tas_language.specs.Answers.{ram_text, frame_digest_text, lag_head, lag_text, inputs_head, inputs_lines, inputs_text};

use crate::answers::push_pixmap;
use crate::history::push_inputs;
use byte_text::hex_digits;
use sha2::{Digest, Sha256};
use std::alloc::{AllocError, Allocator};
use vcs_inputs::Input;
use vcs_tia::Picture;

/// Appends each byte as two upper case hexadecimal digits.
pub fn push_digits<A: Allocator>(out: &mut Vec<u8, A>, bytes: &[u8]) -> Result<(), AllocError>
    ensures { OnOk result (out.new.items ≡ out.old.items ++ flat_map hex_byte bytes.now) }
{
    for byte in bytes {
        out.extend_from_slice(&hex_digits(*byte))?;
    }
    Ok(())
}

/// The answer to `ram K`: `ram AT K` and two upper case hexadecimal digits for each byte of RAM. `AllocError` where memory is
/// refused.
pub fn ram_answer<A: Allocator>(
    alloc: A,
    at: u64,
    frames: usize,
    ram: &[u8],
) -> Result<Vec<u8, A>, AllocError>
    // RAM is reported by two upper case digits for each byte, and a frame's digests are the SHA-256 of these bytes and
    // of the pixmap; lag frames by a line that says how many bytes follow, and their lines.
    // Refused: half_of_ram_is_reported.
    ensures { IfOk result (λ bytes. bytes.items ≡ ram_text at frames ram.now) }
{
    let mut bytes = format!(in alloc; "ram {at} {frames} ")?.into_bytes();
    push_digits(&mut bytes, ram)?;
    bytes.push(b'\n')?;
    Ok(bytes)
}

/// The answer to `digest K`: `digest AT K ram HEX picture HEX`, with the SHA-256 of RAM after the frame, and that of the picture's
/// binary portable pixmap. `AllocError` where memory is refused.
pub fn digest_answer<A: Allocator + Copy, B: Allocator>(
    alloc: A,
    at: u64,
    frame: usize,
    ram: &[u8],
    picture: &Picture<B>,
) -> Result<Vec<u8, A>, AllocError>
    // Refused: digest_of_ram_is_the_pictures.
    ensures { IfOk result
        (λ bytes. bytes.items ≡ frame_digest_text at frame ram.now (ppm_bytes picture.now)) }
{
    let mut pixmap = Vec::new(alloc);
    push_pixmap(&mut pixmap, picture)?;
    let ram = hex::encode(alloc, Sha256::digest(ram))?;
    let picture = hex::encode(alloc, Sha256::digest(pixmap.as_slice()))?;
    Ok(format!(in alloc; "digest {at} {frame} ram {ram} picture {picture}\n")?.into_bytes())
}

/// The first line of the answer to `lag A B`.
fn lag_head<A: Allocator>(
    alloc: A,
    at: u64,
    from: usize,
    to: usize,
    count: usize,
) -> Result<Vec<u8, A>, AllocError>
    ensures { IfOk result (λ bytes. bytes.items ≡ lag_head at from to count) }
{
    Ok(format!(in alloc; "lag {at} {from} {to} {count}\n")?.into_bytes())
}

/// The answer to `lag A B`: `lag AT A B BYTES`, a newline, and this many bytes: the lines of the stretches of lag frames.
/// `AllocError` where memory is refused.
pub fn lag_answer<A: Allocator>(
    alloc: A,
    at: u64,
    from: usize,
    to: usize,
    lines: &[u8],
) -> Result<Vec<u8, A>, AllocError>
    // Refused: half_of_the_lag_lines_are_reported.
    ensures { IfOk result (λ bytes. bytes.items ≡ lag_text at from to lines.now) }
{
    let mut bytes = lag_head(alloc, at, from, to, lines.len())?;
    bytes.extend_from_slice(lines)?;
    Ok(bytes)
}

/// The first line of the answer to `inputs FROM TO`.
fn inputs_head<A: Allocator>(
    alloc: A,
    at: u64,
    from: usize,
    to: usize,
    count: usize,
) -> Result<Vec<u8, A>, AllocError>
    ensures { IfOk result (λ bytes. bytes.items ≡ inputs_head at from to count) }
{
    Ok(format!(in alloc; "inputs {at} {from} {to} {count}\n")?.into_bytes())
}

/// A line for each run of the inputs of the frames from one on.
fn inputs_lines<A: Allocator>(
    alloc: A,
    from: usize,
    inputs: &[Input],
) -> Result<Vec<u8, A>, AllocError>
    ensures { IfOk result (λ lines. lines.items ≡ inputs_lines from inputs.now) }
{
    let mut lines = Vec::new(alloc);
    push_inputs(&mut lines, b"", b"", from, inputs)?;
    Ok(lines)
}

/// The answer to `inputs FROM TO`, where these are the inputs of the frames: `inputs AT FROM TO BYTES`, a newline, and this many bytes, a line
/// `PLACE COUNT FRAME` for each run of equal inputs. `AllocError` where memory is refused.
pub fn inputs_answer<A: Allocator + Copy>(
    alloc: A,
    at: u64,
    from: usize,
    to: usize,
    inputs: &[Input],
) -> Result<Vec<u8, A>, AllocError>
    // The inputs of some frames are reported by a line that says how many bytes follow, and a line for each run.
    // Refused: half_of_the_inputs_lines_are_reported.
    ensures { IfOk result (λ bytes. bytes.items ≡ inputs_text at from to inputs.now) }
{
    let lines = inputs_lines(alloc, from, inputs)?;
    let mut bytes = inputs_head(alloc, at, from, to, lines.len())?;
    bytes.extend_from_slice(lines.as_slice())?;
    Ok(bytes)
}
