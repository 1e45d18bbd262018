//! Lines and replies.

use crate::checks::{check_same, check_that, expect_ok};
use std::alloc::Global;
use std::process::Abort;
use tas_language::{Change, Command, Image, Reply, parse_line, reply_line};
use vcs_machine::{CART_SIZE, Input, SMALL_CART_SIZE, Stick};

/// A stick at rest.
const REST: Stick = Stick {
    right: false,
    left: false,
    down: false,
    up: false,
    fire: false,
};

/// Nothing is pressed.
const NONE: Input = Input {
    left: REST,
    right: REST,
    reset: false,
    select: false,
    mono: false,
    left_a: false,
    right_a: false,
};

/// The left stick is pushed to the right.
const RIGHT: Input = Input {
    left: Stick {
        right: true,
        ..REST
    },
    ..NONE
};

/// An image of one size or the other, of zeros but for one byte.
fn image(is_small: bool, offset: usize, byte: u8) -> Image {
    let mut large = [0; CART_SIZE];
    let mut small = [0; SMALL_CART_SIZE];
    if is_small {
        small[offset % SMALL_CART_SIZE] = byte;
        Image::Small(small)
    } else {
        large[offset % CART_SIZE] = byte;
        Image::Large(large)
    }
}

/// Lines, whether the image of each is a small one, and its byte.
static LOADS: [(&[u8], bool, usize, u8); 6] = [
    (b"load 00A=FF", false, 10, 0xff),
    (b"load FFF=01", false, 4095, 1),
    (b"load 00A=FF00 00B=1C 00B=00", false, 10, 0xff),
    (b"load2 00A=FF", true, 10, 0xff),
    (b"load2 7FF=01", true, 2047, 1),
    (b"load2 7FE=FF01 7FE=00", true, 2047, 1),
];

#[test]
fn a_load_has_its_image(rt: HostRuntime) {
    for (line, is_small, offset, byte) in LOADS.iter() {
        let image = image(*is_small, *offset, *byte);
        let command = Command::Load { image };
        check_same(&rt, *line, parse_line(*line), Some(command));
    }
}

/// Lines, and the command of each.
static COMMANDS: [(&[u8], Command); 11] = [
    (
        b"insert 0 200 ..... ..... .....",
        Command::Edit(Change::Insert {
            at: 0,
            count: 200,
            input: NONE,
        }),
    ),
    (
        b"insert 9999999 0 R.... ..... .....",
        Command::Edit(Change::Insert {
            at: 9_999_999,
            count: 0,
            input: RIGHT,
        }),
    ),
    (
        b"replace 64 1 R.... ..... .....",
        Command::Edit(Change::Replace {
            at: 64,
            count: 1,
            input: RIGHT,
        }),
    ),
    (
        b"delete 10 191",
        Command::Edit(Change::Delete { at: 10, count: 191 }),
    ),
    (b"len", Command::Length),
    (b"input 0", Command::InputAt { frame: 0 }),
    (b"input 9999999", Command::InputAt { frame: 9_999_999 }),
    (b"shot 191", Command::Shot { frame: 191 }),
    (b"shot 10", Command::Shot { frame: 10 }),
    (b"work 0", Command::Work { frames: 0 }),
    (b"work 9999999", Command::Work { frames: 9_999_999 }),
];

#[test]
fn each_other_line_is_its_command(rt: HostRuntime) {
    for (line, command) in COMMANDS.iter() {
        check_same(&rt, *line, parse_line(*line), Some(*command));
    }
}

/// Lines that are no command.
static NO_COMMANDS: [&[u8]; 52] = [
    // Those that would load.
    b"load",
    b"load ",
    b"load 000=",
    b"load 000=A",
    b"load 000=a9",
    b"load 00=A9",
    b"load 000 A9",
    b"load FFF=A9FF",
    b"load 000=A9 ",
    b"load2",
    b"load2 ",
    b"load2 000=",
    b"load2 7FF=A9FF",
    b"load2 800=A9",
    b"load2 000=A9 ",
    b"load2000=A9",
    b"load3 000=A9",
    // Other lines.
    b"",
    b" ",
    b"len ",
    b" len",
    b"Len",
    b"lenx",
    b"len 0",
    b"work",
    b"shot",
    b"shot ",
    b"shot 01",
    b"shot 00",
    b"shot -1",
    b"shot +1",
    b"shot 1 ",
    b"shot  1",
    b"shot 1 1",
    b"shot 1\r",
    b"shot\t1",
    b"shot 10000000",
    b"shot 99999999999999999999",
    b"shot \xff",
    b"input",
    b"input 1x",
    b"delete 1",
    b"delete 1  1",
    b"delete 1 1 1",
    b"delete 1,1",
    b"insert 0 1",
    b"insert 0 1 ",
    b"insert 0 1 r.... ..... .....",
    b"insert 0 1 R.... ..... ..... ",
    b"insert 0  1 R.... ..... .....",
    b"insert 0 1 R....  ..... .....",
    b"replace 1 R.... ..... .....",
];

#[test]
fn no_other_line_is_understood(rt: HostRuntime) {
    for (number, line) in NO_COMMANDS.iter().enumerate() {
        check_that(&rt, ("line", number), parse_line(line).is_none());
    }
}

/// Fails where one of these replies has another line than this.
fn check_replies<R: Abort>(rt: &R, alloc: Global, replies: &[(Reply, &[u8])]) {
    for (reply, line) in replies {
        let text = expect_ok(rt, reply_line(alloc, *reply));
        check_same(rt, *reply, text.as_slice(), *line);
    }
}

/// Replies to edits and looks, and the line of each.
static REPLIES: [(Reply, &[u8]); 8] = [
    (Reply::OutOfMemory, b"out of memory\n"),
    (Reply::Edited { at: 1, len: 0 }, b"edit 1 len 0\n"),
    (Reply::Place { at: 5, len: 9 }, b"place 5 len 9\n"),
    (Reply::Long { at: 2, len: 262144 }, b"long 2 len 262144\n"),
    (Reply::Full { at: 1_000_000 }, b"full 1000000\n"),
    (Reply::Measured { at: 0, len: 0 }, b"len 0 0\n"),
    (Reply::NoFrame { at: 4, len: 0 }, b"no frame 4 len 0\n"),
    (
        Reply::Pressed {
            at: 3,
            input: RIGHT,
        },
        b"input 3 R.... ..... .....\n",
    ),
];

#[test]
fn replies_to_edits_and_looks(rt: HostRuntime) {
    check_replies(&rt, rt.alloc(), REPLIES.as_slice());
}

/// Replies of what was played, and the line of each.
static PLAYED: [(Reply, &[u8]); 4] = [
    (
        Reply::Drawn {
            at: 2,
            frame: 191,
            ran: 192,
            lit: 1680,
        },
        b"shot 2 191 ran 192 lit 1680\n",
    ),
    (
        Reply::Halted {
            at: 2,
            address: 0xf00d,
            opcode: 2,
        },
        b"halted 2 F00D 02\n",
    ),
    (
        Reply::Halted {
            at: 2,
            address: 0x00ab,
            opcode: 0xef,
        },
        b"halted 2 00AB EF\n",
    ),
    (
        Reply::Worked {
            jobs: 1,
            kept: 3,
            stale: 0,
        },
        b"work jobs 1 kept 3 stale 0\n",
    ),
];

#[test]
fn replies_of_what_was_played(rt: HostRuntime) {
    check_replies(&rt, rt.alloc(), PLAYED.as_slice());
}
