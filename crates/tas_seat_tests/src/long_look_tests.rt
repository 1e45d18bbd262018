//! Looks at the longest movie: that many frames is no reason to be out of memory.

use crate::turns::{Turn, check_lengths, play};

/// The blank cartridge halts in its first frame, before it reads an input. Of all frames none does.
static HALTED: [Turn; 5] = [
    (
        1,
        "insert 0 262144 ..... ..... .....",
        "edit 1 len 262144\n",
    ),
    (0, "lag 0 262144", "lag 1 0 262144 9\n0 262144\n"),
    (
        1,
        "lag 100000 200001",
        "lag 1 100000 200001 14\n100000 200001\n",
    ),
    (1, "begin", "begin 1 262144\n"),
    (1, "lag 0 262144", "lag 1 0 262144 9\n0 262144\n"),
];

/// Reads the sticks in each frame: LDA 280, LDA #2, STA VSYNC, LDA #0, STA VSYNC, JMP F000. So no frame is a lag frame.
static READ: [Turn; 5] = [
    (
        0,
        "load 000=AD8002A9028500A90085004C00F0 FFC=00F0",
        "edit 1 len 0\n",
    ),
    (
        0,
        "insert 0 262144 ..... ..... .....",
        "edit 2 len 262144\n",
    ),
    (0, "lag 0 262144", "lag 2 0 262144 0\n"),
    (1, "lag 0 100001", "lag 2 0 100001 0\n"),
    (1, "lag 0 262145", "no frame 2 len 262144\n"),
];

/// `lag` of all 262,144 frames, halted and not, outside a draft and in one.
#[test]
fn lag_frames_of_the_longest_movie(rt: HostRuntime) {
    let closed = play(&rt, rt.alloc(), &HALTED);
    check_lengths(&rt, &closed, 1, 262_144);
    let closed = play(&rt, rt.alloc(), &READ);
    check_lengths(&rt, &closed, 2, 262_144);
}
