//! The text of a movie, written or printed into memory.
//!
//! The room for a text in memory is asked for at once, 18 bytes for each frame, also where few lines come of it: one growth, and
//! pages that are never touched cost nothing.

ghost use Rattle.std.specs.Prelude.{◌≡◌, ◌+◌, ◌≤◌, ◌++◌, codes, length, IfOk, IfErr, OnOk};
ghost use Rattle.std.specs.Io.KnownBytes.{Appends};
ghost use Rattle.byte_text.specs.CutOff.{IsCutOff};
ghost use Rattle.byte_text.specs.Sending.{most_waiting, buffered};
ghost use Rattle.tas_movie.specs.Content.{most_inputs};
ghost use Rattle.tas_movie.specs.Text.{mark, frame_text, count_text, run_line, digest_text, text2};

use crate::Movie;
use crate::run::{FrameRun, run_length};
use byte_text::{WriteBuffer, WriteFault};
use itoa::Buffer;
use sha2::{Digest, Sha256};
use std::alloc::{AllocError, Allocator};
use std::io::Write;
use vcs_inputs::{Cart, Input};

/// How many characters a frame has.
pub const FRAME_TEXT_SIZE: usize = 17;

/// How many bytes stand before the digest in the line that names a cartridge: `cart ` has this many.
const DIGEST_PLACE: usize = 5;

/// How many bytes the line that names a cartridge has, without its newline.
const DIGEST_LINE_SIZE: usize = 69;

/// How many bytes the first two lines of a text have.
const HEAD_SIZE: usize = 81;

/// How many bytes the line of one frame has. That of a run has no more than this for each frame.
const FRAME_LINE_SIZE: usize = FRAME_TEXT_SIZE + 1;

/// How many bytes stand between a run's frame and its newline at most: ` x` and the digits of the most frames.
const LONGEST_COUNT: usize = 8;

/// How many bytes the longest line of a run has.
const LONGEST_LINE: usize = FRAME_LINE_SIZE + LONGEST_COUNT;

fn mark(letter: u8, pressed: bool) -> u8
    ensures { result ≡ mark letter pressed }
{
    if pressed { letter } else { b'.' }
}

/// The 17 characters of a frame, as `RLDUF RLDUF rsbAB`: left stick, right stick, switches.
pub fn print_frame(input: Input) -> [u8; FRAME_TEXT_SIZE]
    // 17 characters show one input.
    // Refused: frame_printed_with_sticks_swapped.
    ensures { result ≡ frame_text input }
{
    let left = input.left;
    let right = input.right;
    [
        mark(b'R', left.right),
        mark(b'L', left.left),
        mark(b'D', left.down),
        mark(b'U', left.up),
        mark(b'F', left.fire),
        b' ',
        mark(b'R', right.right),
        mark(b'L', right.left),
        mark(b'D', right.down),
        mark(b'U', right.up),
        mark(b'F', right.fire),
        b' ',
        mark(b'r', input.reset),
        mark(b's', input.select),
        mark(b'b', input.mono),
        mark(b'A', input.left_a),
        mark(b'B', input.right_a),
    ]
}

/// The line that names a cartridge by its digest, without its newline.
pub fn print_digest<A: Allocator>(cart: &Cart<A>) -> [u8; DIGEST_LINE_SIZE]
    ensures { result ≡ digest_text cart.now }
{
    let digest = Sha256::digest(cart.bytes());
    let mut text = [0; DIGEST_LINE_SIZE];
    text[..DIGEST_PLACE].copy_from_slice(b"cart ");
    hex::encode_to_slice(digest, &mut text[DIGEST_PLACE..]).unwrap();
    text
}

/// How often a frame comes, where it comes more than once: ` x` and the number.
fn push_count(out: &mut WriteBuffer, count: usize)
    requires few { count ≤ most_inputs }
    requires room { length out.old.waiting + LONGEST_COUNT ≤ most_waiting }
    ensures waits { out.new ≡ buffered out.old.written (out.old.waiting ++ count_text count) }
    ensures short { length (count_text count) ≤ LONGEST_COUNT }
{
    if count == 1 {
        return;
    }
    let mut digits = Buffer::new();
    out.push(b" x");
    out.push(digits.format(count).as_bytes());
}

/// The line of a run.
fn push_run(out: &mut WriteBuffer, run: FrameRun)
    requires few { run.count ≤ most_inputs }
    requires room { length out.old.waiting + LONGEST_LINE ≤ most_waiting }
    ensures waits { out.new ≡ buffered out.old.written (out.old.waiting ++ run_line run) }
    ensures short { length (run_line run) ≤ LONGEST_LINE }
{
    out.push(&print_frame(run.input));
    push_count(out, run.count);
    out.push(b"\n");
}

/// The first two lines of a text.
fn push_head<A: Allocator>(out: &mut WriteBuffer, cart: &Cart<A>)
    requires { length out.old.waiting + HEAD_SIZE ≤ most_waiting }
    ensures { out.new ≡ buffered out.old.written
        (out.old.waiting ++ ((codes "a26movie 2\n" ++ digest_text cart.now) ++ codes "\n")) }
{
    out.push(b"a26movie 2\n");
    out.push(&print_digest(cart));
    out.push(b"\n");
}

/// Writes the text of a movie: of the two texts the one with a line for each run of equal frames. It takes no memory: its lines wait
/// in a [`WriteBuffer`].
///
/// An error of the writer, of any kind, or an `Ok(0)` ends the call; the bytes that have gone out are then the text's first.
pub fn write_text<A: Allocator, W: Write>(movie: &Movie<A>, to: &mut W) -> Result<(), WriteFault>
    // `write_text` writes the text of the movie's runs, and no other text; or after a writer's fault its first bytes,
    // fewer than all, and reports how many.
    // Refused: text_without_its_last_frame*, runs_are_printed_without_their_counts, each_frame_is_a_run_of_its_own*,
    // count_of_a_run_is_not_printed*, image_doubled_before_its_digest*, text_that_is_cut_off_counts_half.
    ensures all { OnOk result (Appends (W.contents to.old) (W.contents to.new) (text2 movie.now)) }
    ensures cut { IfErr result
        (λ f. IsCutOff (W.contents to.old) (W.contents to.new) (text2 movie.now) f.written) }
{
    let mut out = WriteBuffer::new();
    push_head(&mut out, movie.cart());
    let mut rest = movie.inputs();
    // A line for each run of equal inputs, as long as it can be.
    while !rest.is_empty() {
        if let Err(error) = out.make_room(LONGEST_LINE, to) {
            return Err(WriteFault {
                written: out.written(),
                error,
            });
        }
        let input = rest[0];
        let count = run_length(rest, input);
        push_run(&mut out, FrameRun { input, count });
        rest = &rest[count..];
    }
    out.finish(to)
}

/// The text of a movie, as [`write_text`] writes it.
/// `AllocError` where memory is refused.
pub fn print_text<A: Allocator, B: Allocator>(
    alloc: B,
    movie: &Movie<A>,
) -> Result<Vec<u8, B>, AllocError>
    // Refused: printed_text_is_empty.
    ensures { IfOk result (λ bytes. bytes.items ≡ text2 movie.now) }
{
    let mut out = Vec::with_capacity(alloc, HEAD_SIZE + FRAME_LINE_SIZE * movie.len())?;
    match write_text(movie, &mut out) {
        Ok(()) => Ok(out),
        Err(_) => Err(AllocError),
    }
}
