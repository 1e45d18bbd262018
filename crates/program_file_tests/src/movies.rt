//! Cartridges and movies of the tests. `tas_tool_tests`, `tas_program_tests` and `program_file_tests` have this file, letter by letter: checks.rt
//! says why.

use crate::checks::expect_ok;
use std::alloc::Global;
use std::process::Abort;

/// A program at F000, and the SHA-256 of its cartridge by another program.
#[derive(Clone, Copy)]
pub struct Program {
    pub bytes: &'static [u8],
    pub digest: &'static str,
}

/// `000=A910850DA91E85084C08F0 FFC=00F0`: a playfield at the left edge of each half, drawn for ever.
pub const PLAYFIELD: Program = Program {
    bytes: b"\xA9\x10\x85\x0D\xA9\x1E\x85\x08\x4C\x08\xF0",
    digest: "820c64e9933496de683a000c5e11f0510fb7b1699b2ce86471295236b284906d",
};

/// The same program in a small cartridge: `000=A910850DA91E85084C08F0 7FC=00F0`.
pub const SMALL_PLAYFIELD: Program = Program {
    digest: "b5fe266be72b749b56221450f897d39d577232bbd24bd6ff58aa186cb39c84d7",
    ..PLAYFIELD
};

/// `000=A203A9028500A9008500CAD0F502 FFC=00F0`: three frames, then the undocumented opcode 02 at F00D.
pub const HALTING: Program = Program {
    bytes: b"\xA2\x03\xA9\x02\x85\x00\xA9\x00\x85\x00\xCA\xD0\xF5\x02",
    digest: "c914dfbc057cd1e5dd9cefcba07cec773cc85a8be3a04676377b60ded704d22d",
};

/// `000=AD80026580858085094C00F0 FFC=00F0`: folds what the joysticks show into the background's colour, so
/// that a picture depends on all inputs up to it.
pub const FOLDING: Program = Program {
    bytes: b"\xAD\x80\x02\x65\x80\x85\x80\x85\x09\x4C\x00\xF0",
    digest: "01cd4f43e4064c0915ec1dde6c9364a0d994bc18d980d88e45a83ec89a41c425",
};

/// `000=A94285804C00F0 FFC=00F0`: LDA #42, STA 80, JMP F000.
pub const STORING: Program = Program {
    bytes: b"\xA9\x42\x85\x80\x4C\x00\xF0",
    digest: "af8b7369a82edda82776f158a41a6d44532e5dd90b590bc81f44cbfc39590b35",
};

/// Nothing pressed.
pub const IDLE: &str = "..... ..... .....";

/// The left stick pushed right.
pub const RIGHT: &str = "R.... ..... .....";

/// The cartridge with a program at F000, where execution starts too; all other bytes are 0.
pub fn image_of<R: Abort>(rt: &R, alloc: Global, program: &[u8]) -> Vec<u8> {
    let mut image = expect_ok(rt, vec![in alloc; 0u8; 4096]);
    for (at, byte) in program.iter().enumerate() {
        if let Some(cell) = image.get_mut(at) {
            *cell = *byte;
        }
    }
    if let Some(cell) = image.get_mut(0xFFD) {
        *cell = 0xF0;
    }
    image
}

/// The small cartridge with a program at F000, where execution starts too; all other bytes are 0.
pub fn small_image_of<R: Abort>(rt: &R, alloc: Global, program: &[u8]) -> Vec<u8> {
    let mut image = image_of(rt, alloc, program);
    image.truncate(2048);
    if let Some(cell) = image.get_mut(0x7FD) {
        *cell = 0xF0;
    }
    image
}

/// Frame 1, 4, 7 and so on is `third`, any other one has nothing pressed.
fn frame_of<'a>(frame: usize, third: &'a str) -> &'a str {
    if frame % 3 == 1 { third } else { IDLE }
}

/// Writes the line of a run of frames at a text's end.
fn push_run<R: Abort>(rt: &R, alloc: Global, text: &mut String, line: &str, count: usize) {
    let run = if count == 1 {
        expect_ok(rt, format!(in alloc; "{line}\n"))
    } else {
        expect_ok(rt, format!(in alloc; "{line} x{count}\n"))
    };
    expect_ok(rt, text.push_str(run.as_str()));
}

/// The text of a movie of this many frames, as [`frame_of`] has them, with a line for each run of equal ones.
pub fn text_of<R: Abort>(
    rt: &R,
    alloc: Global,
    program: Program,
    frames: usize,
    third: &str,
) -> String {
    let digest = program.digest;
    let mut text = expect_ok(rt, format!(in alloc; "a26movie 2\ncart {digest}\n"));
    let mut count = 0usize;
    for frame in 0..frames {
        count = count.wrapping_add(1);
        let line = frame_of(frame, third);
        let next = frame.wrapping_add(1);
        if next == frames || frame_of(next, third) != line {
            push_run(rt, alloc, &mut text, line, count);
            count = 0;
        }
    }
    text
}

/// A cartridge and the text of a movie.
pub type Files<'a> = (&'a [u8], &'a [u8]);

/// A cartridge, and the text of a movie of it.
#[derive(Drop)]
pub struct Recording {
    image: Vec<u8>,
    text: String,
}

impl Recording {
    /// Both files.
    pub fn files(&self) -> Files<'_> {
        (self.image.as_slice(), self.text.as_bytes())
    }
}

/// The cartridge with this program, and a movie of this many frames, as [`frame_of`] has them.
pub fn recording_of<R: Abort>(
    rt: &R,
    alloc: Global,
    program: Program,
    frames: usize,
    third: &str,
) -> Recording {
    Recording {
        image: image_of(rt, alloc, program.bytes),
        text: text_of(rt, alloc, program, frames, third),
    }
}

/// How many bytes the pixmap of a picture has.
pub const PICTURE: usize = 100_815;

/// The picture of the playfield: pixels 0 to 3 and 80 to 83 of each row have the colour 1E, all others 00.
pub fn playfield_picture<R: Abort>(rt: &R, alloc: Global) -> Vec<u8> {
    let mut bytes = joined(rt, alloc, &[b"P6\n160 210\n255\n"]);
    for place in 0..33_600u32 {
        let colour: &[u8] = if place % 80 < 4 {
            b"\xd2\xc8\x8c"
        } else {
            b"\0\0\0"
        };
        expect_ok(rt, bytes.extend_from_slice(colour));
    }
    bytes
}

/// Bytes one after the other.
pub fn joined<R: Abort>(rt: &R, alloc: Global, parts: &[&[u8]]) -> Vec<u8> {
    let mut bytes = Vec::new(alloc);
    for part in parts {
        expect_ok(rt, bytes.extend_from_slice(part));
    }
    bytes
}

/// Some bytes and then this many copies of others.
pub fn repeated<R: Abort>(
    rt: &R,
    alloc: Global,
    front: &[u8],
    copy: &[u8],
    count: usize,
) -> Vec<u8> {
    let room = copy.len().saturating_mul(count).saturating_add(front.len());
    let mut bytes = expect_ok(rt, Vec::with_capacity(alloc, room));
    expect_ok(rt, bytes.extend_from_slice(front));
    for _ in 0..count {
        expect_ok(rt, bytes.extend_from_slice(copy));
    }
    bytes
}
