//! The lines `ram` and `digest` of a conversation. The numbers come from the second machine in oracle/, and the digests from Python's hashlib.

use crate::checks::expect_ok;
use crate::talks::{STARTED, Turn, check_said, check_turns};
use std::alloc::Global;
use std::process::Abort;

/// `000=A9AB85FFE680A9028500A90085004C00F0 FFC=00F0`: each frame adds 1 to the byte at 80 and puts AB at FF; and 200 frames of it.
pub const COUNTING: &[u8] =
    b"load 000=A9AB85FFE680A9028500A90085004C00F0 FFC=00F0\ninsert 0 200 ..... ..... .....\n";

/// The answer to `ram K` where the bytes between the first and the last one are 0.
fn ram<R: Abort>(rt: &R, alloc: Global, head: &str, first: &str, last: &str) -> Vec<u8> {
    let zeros =
        "000000000000000000000000000000000000000000000000000000000000000000000000000000000000000000000000000000000000000000000000000000";
    let text = format!(in alloc; "{head} {first}{zeros}{zeros}{last}\n");
    expect_ok(rt, text).into_bytes()
}

#[test]
fn ram_is_told_after_so_many_frames(rt: HostRuntime) {
    let alloc = rt.alloc();
    let (none, one) = (
        ram(&rt, alloc, "ram 2 0", "00", "00"),
        ram(&rt, alloc, "ram 2 1", "01", "AB"),
    );
    let (late, last) = (
        ram(&rt, alloc, "ram 2 130", "82", "AB"),
        ram(&rt, alloc, "ram 2 200", "C8", "AB"),
    );
    let turns: [Turn; 7] = [
        (COUNTING, STARTED),
        (b"ram 0\n", none.as_slice()),
        (b"ram 1\n", one.as_slice()),
        (b"ram 130\n", late.as_slice()),
        (b"states\n", b"states 2 2 64 128\n"),
        (b"ram 200\n", last.as_slice()),
        (
            b"ram 201\nram 9999999\nstates\n",
            b"no frame 2 len 200\nno frame 2 len 200\nstates 2 3 64 128 192\n",
        ),
    ];
    check_turns(&rt, alloc, "RAM", turns.as_slice());
}

/// An edit takes its states away; the answers are the new movie's.
#[test]
fn ram_is_the_edited_movies(rt: HostRuntime) {
    let alloc = rt.alloc();
    let last = ram(&rt, alloc, "ram 2 200", "C8", "AB");
    let less = ram(&rt, alloc, "ram 3 100", "64", "AB");
    let turns: [Turn; 5] = [
        (COUNTING, STARTED),
        (b"ram 200\n", last.as_slice()),
        (b"delete 100 100\n", b"edit 3 len 100\n"),
        (b"ram 100\n", less.as_slice()),
        (b"states\nram 101\n", b"states 3 1 64\nno frame 3 len 100\n"),
    ];
    check_turns(&rt, alloc, "RAM", turns.as_slice());
}

/// Three frames, then a halt: RAM is told after it, too. Without frames there is RAM at power-on alone.
#[test]
fn ram_of_a_halted_machine_is_told(rt: HostRuntime) {
    let alloc = rt.alloc();
    let (start, halted) = (
        ram(&rt, alloc, "ram 0 0", "00", "00"),
        ram(&rt, alloc, "ram 2 9", "00", "00"),
    );
    let turns: [Turn; 6] = [
        (b"ram 0\n", start.as_slice()),
        (
            b"ram 1\ndigest 0\n",
            b"no frame 0 len 0\nno frame 0 len 0\n",
        ),
        (
            b"load 000=A203A9028500A9008500CAD0F502 FFC=00F0\ninsert 0 9 ..... ..... .....\n",
            b"edit 1 len 0\nedit 2 len 9\n",
        ),
        (b"ram 9\n", halted.as_slice()),
        (
            b"digest 2\n",
            b"digest 2 2 ram 38723a2e5e8a17aa7950dc008209944e898f69a7bd10a23c839d341e935fd5ca picture 589dd6620bac6e3bae3f75930faca7ea0a59bbd5c610a3536e12d4ba0ff71123\n",
        ),
        (
            b"digest 3\ndigest 8\ndigest 9\n",
            b"halted 2 F00D 02\nhalted 2 F00D 02\nno frame 2 len 9\n",
        ),
    ];
    check_turns(&rt, alloc, "RAM", turns.as_slice());
}

/// Lines that are nearly these.
#[test]
fn other_lines_are_unknown(rt: HostRuntime) {
    check_said(
        &rt,
        rt.alloc(),
        b"ram\nram \nram 01\nram 1 \nram 10000000\nRAM 0\ndigest\ndigest 0 1\ndigest +1\nrams 0\n",
        b"unknown rest\nunknown rest\nunknown rest\nunknown rest\nunknown rest\nunknown word\nunknown rest\nunknown rest\nunknown rest\nunknown word\n",
    );
}
