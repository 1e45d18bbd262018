//! Cartridges and movies of the tests. The digests come from another program.

use crate::checks::expect_ok;
use std::alloc::Global;
use std::process::Abort;

/// LDA #42, STA 80, JMP F000.
pub static STORES: &[u8] = b"\xa9\x42\x85\x80\x4c\x00\xf0";

/// A playfield at the left edge of each half, drawn for ever: PF0 is 10 and COLUPF 1E.
pub static PLAYFIELD: &[u8] = b"\xa9\x10\x85\x0d\xa9\x1e\x85\x08\x4c\x08\xf0";

/// The SHA-256 of its cartridge.
pub static PLAYFIELD_DIGEST: &str =
    "820c64e9933496de683a000c5e11f0510fb7b1699b2ce86471295236b284906d";

/// The text of a movie of its cartridge and one frame with nothing pressed.
pub const PLAYFIELD_MOVIE: &[u8] =
    b"a26movie 2\ncart 820c64e9933496de683a000c5e11f0510fb7b1699b2ce86471295236b284906d\n..... ..... .....\n";

/// Ends three frames by vertical sync, and halts at F00D in the fourth.
pub const HALTING: &[u8] = b"\xa2\x03\xa9\x02\x85\x00\xa9\x00\x85\x00\xca\xd0\xf5\x02";

/// The SHA-256 of its cartridge.
pub const HALTING_DIGEST: &str = "c914dfbc057cd1e5dd9cefcba07cec773cc85a8be3a04676377b60ded704d22d";

/// The text of a movie of its cartridge and one frame with nothing pressed.
pub const HALTING_MOVIE: &[u8] =
    b"a26movie 2\ncart c914dfbc057cd1e5dd9cefcba07cec773cc85a8be3a04676377b60ded704d22d\n..... ..... .....\n";

/// A cartridge of zeros.
pub static BLANK: [u8; 4096] = [0; 4096];

/// Its SHA-256.
pub static BLANK_DIGEST: &str = "ad7facb2586fc6e966c004d7d1d16b024f5805ff7cb47c7a85dabd8b48892ca7";

/// The text of a movie of the blank cartridge without frames.
pub const NO_FRAMES: &[u8] =
    b"a26movie 2\ncart ad7facb2586fc6e966c004d7d1d16b024f5805ff7cb47c7a85dabd8b48892ca7\n";

/// The text of a movie of the blank cartridge and two frames, the first with the left stick to the right.
pub const TWO_FRAMES: &[u8] =
    b"a26movie 2\ncart ad7facb2586fc6e966c004d7d1d16b024f5805ff7cb47c7a85dabd8b48892ca7\nR.... ..... .....\n..... ..... .....\n";

/// The same without its first frame.
pub const LAST_FRAME: &[u8] =
    b"a26movie 2\ncart ad7facb2586fc6e966c004d7d1d16b024f5805ff7cb47c7a85dabd8b48892ca7\n..... ..... .....\n";

/// A movie text that is cut off after its first line.
pub const CUT_OFF: &[u8] = b"a26movie 2\n";

/// The cartridge with a program at F000, where execution starts too; all other bytes are 0.
pub fn image_of<R: Abort>(rt: &R, alloc: Global, program: &[u8]) -> Vec<u8> {
    let mut bytes = expect_ok(rt, vec![in alloc; 0u8; 4096]);
    for (place, byte) in program.iter().enumerate() {
        if let Some(cell) = bytes.get_mut(place) {
            *cell = *byte;
        }
    }
    if let Some(cell) = bytes.get_mut(0xffd) {
        *cell = 0xf0;
    }
    bytes
}

/// The frame that a letter stands for: 'R' the left stick to the right, 'F' its fire button, '.' nothing.
pub fn frame_of(letter: u8) -> &'static [u8] {
    match letter {
        b'R' => b"R.... ..... .....",
        b'F' => b"....F ..... .....",
        _ => b"..... ..... .....",
    }
}

/// The head of a movie text, of one version or the other.
fn head_of<R: Abort>(rt: &R, alloc: Global, version: u8, digest: &str) -> Vec<u8> {
    let head = expect_ok(rt, format!(in alloc; "a26movie {version}\ncart {digest}\n"));
    expect_ok(rt, Vec::from_slice(alloc, head.as_bytes()))
}

/// Writes the line of a run of frames at a text's end.
fn push_run<R: Abort>(rt: &R, alloc: Global, text: &mut Vec<u8>, letter: u8, count: usize) {
    expect_ok(rt, text.extend_from_slice(frame_of(letter)));
    if count > 1 {
        let times = expect_ok(rt, format!(in alloc; " x{count}"));
        expect_ok(rt, text.extend_from_slice(times.as_bytes()));
    }
    expect_ok(rt, text.push(b'\n'));
}

/// The text of a movie for the cartridge with this SHA-256, a letter for each frame, with a line for each run of
/// equal ones.
pub fn text_of<R: Abort>(rt: &R, alloc: Global, digest: &str, letters: &[u8]) -> Vec<u8> {
    let mut text = head_of(rt, alloc, 2, digest);
    let mut count = 0usize;
    for (place, letter) in letters.iter().enumerate() {
        count = count.wrapping_add(1);
        if letters.get(place.wrapping_add(1)) != Some(letter) {
            push_run(rt, alloc, &mut text, *letter, count);
            count = 0;
        }
    }
    text
}

/// The older text of the movie, with a line for each frame.
pub fn older_text_of<R: Abort>(rt: &R, alloc: Global, digest: &str, letters: &[u8]) -> Vec<u8> {
    let mut text = head_of(rt, alloc, 1, digest);
    for letter in letters {
        push_run(rt, alloc, &mut text, *letter, 1);
    }
    text
}
