//! A recovery over readers and a writer.
//!
//! Here and not in `tas_engines`, since that crate knows no journals, and neither scripts nor the commands without a desk need to. What was
//! recovered is returned: the program reports it to standard error, which no engine knows, and may keep the movie's cartridge.

ghost use Rattle.std.specs.Prelude.{◌≡◌, true, length, IfOk, IfErr};
ghost use Rattle.vcs_inputs.specs.Cart.{is_cart_size};
ghost use Rattle.tas_engines.specs.Tracing.{IsImageFault};
ghost use Rattle.tas_journal.specs.RecoveryRun.{Ends, IsRecoveredText, IsRecoveryFault, IsRecoveryRun};

use crate::reading::read_journal;
use crate::{RecoverError, Recovered, RecoveryFault, recover};
use std::alloc::{Allocator, Global};
use std::io::{Read, Write};
use tas_engines::{RunFault, read_input, write_all};
use tas_movie::print_text;
use vcs_inputs::Cart;

/// The text of a movie that was recovered, and the movie.
#[derive(Drop)]
struct RecoveredText<A: Allocator = Global> {
    /// The movie's text.
    text: Vec<u8, A>,
    /// What was recovered.
    found: Recovered<A>,
}

/// The cartridge of an image.
fn cart_of<A: Allocator>(alloc: A, image: &[u8]) -> Result<Cart<A>, RunFault>
    ensures size { IfOk result (λ cart. is_cart_size (length image.now) ≡ true) }
    ensures image { IfOk result (λ cart. cart ≡ image.now) }
    ensures fault { IfErr result (IsImageFault image.now) }
{
    Ok(Cart::from_bytes(alloc, image)?)
}

/// What a recovery answers to the bytes of its inputs.
fn recovered_text<A: Allocator + Copy>(
    alloc: A,
    until: usize,
    image: &[u8],
    bytes: &[u8],
) -> Result<RecoveredText<A>, RecoveryFault>
    ensures text { IfOk result
        (λ made. IsRecoveredText A until image.now bytes.now made.text.items made.found) }
    ensures fault { IfErr result (IsRecoveryFault A until image.now bytes.now) }
{
    let cart = match cart_of(alloc, image) {
        Ok(cart) => cart,
        Err(fault) => return Err(RecoveryFault::Run(fault)),
    };
    match recover(alloc, bytes, &cart, until) {
        Ok(found) => match print_text(alloc, &found.movie) {
            Ok(text) => Ok(RecoveredText { text, found }),
            Err(_) => Err(RecoveryFault::Run(RunFault::Memory)),
        },
        Err(RecoverError::Journal(error)) => Err(RecoveryFault::Journal(error)),
        Err(RecoverError::Memory) => Err(RecoveryFault::Run(RunFault::Memory)),
    }
}

/// Recovers by these inputs, writes the movie's text and returns what was recovered.
fn answer<A: Allocator + Copy, W: Write>(
    alloc: A,
    until: usize,
    image: &[u8],
    bytes: &[u8],
    output: &mut W,
) -> Result<Recovered<A>, RecoveryFault>
    ensures { Ends A until image.now bytes.now (W.contents output.old) (W.contents output.new) result }
{
    match recovered_text(alloc, until, image, bytes) {
        Err(fault) => Err(fault),
        Ok(RecoveredText { text, found }) => match write_all(output, text.as_slice()) {
            Err(fault) => Err(RecoveryFault::Run(fault)),
            Ok(()) => Ok(found),
        },
    }
}

/// Reads a cartridge and then a journal that began with it, and writes the text of the movie that the journal's lines before the line
/// `until` make, as [`recover`] does; `usize::MAX` asks for all. Returns what was recovered.
///
/// Faults, in order: `Read` of the cartridge, and the journal is left untouched; `Read` of the journal; `Size` of the cartridge; `Journal`.
/// Memory may be refused at any point. Nothing is written then. Last comes a write that failed.
pub fn recover_run<A: Allocator + Copy, C: Read, R: Read, W: Write>(
    alloc: A,
    until: usize,
    cart: &mut C,
    input: &mut R,
    output: &mut W,
) -> Result<Recovered<A>, RecoveryFault>
    // A recovery reads cartridge and journal whole and writes the text of the movie that `recover` makes of their bytes, and returns this movie,
    // how many edits it has and whether a last line was cut; or it ends with the first fault and nothing written. After a write that failed the first bytes of the
    // text are out, as many as the fault reports.
    // Refused: recovery_reports_no_edits, recovery_reports_no_cut_line, recovered_text_is_not_written,
    // fault_of_a_journal_is_in_its_first_line.
    ensures { IsRecoveryRun A until (C.remaining cart.old) (C.remaining cart.new)
        (R.remaining input.old) (R.remaining input.new) (W.contents output.old)
        (W.contents output.new) result }
{
    let image = match read_input(alloc, cart) {
        Ok(image) => image,
        Err(fault) => return Err(RecoveryFault::Read(fault)),
    };
    match read_journal(alloc, input) {
        Ok(bytes) => answer(alloc, until, image.as_slice(), bytes.as_slice(), output),
        Err(fault) => Err(RecoveryFault::Read(fault)),
    }
}
