//! The engines that look at a played movie: RAM, digests, and where two movies begin to differ. Their numbers were found
//! by the oracle (`oracle/look`), a machine of its own.

use crate::checks::{check_same, expect_ok};
use crate::movies::{BLANK, BLANK_DIGEST, HALTING, HALTING_DIGEST, NO_FRAMES, image_of, text_of};
use crate::ran::{
    Engine, FileEngine, OTHER_DIGEST, check_fault, check_filled, check_ran, run_beside_on, run_on,
    run_to,
};
use std::alloc::Global;
use std::process::Abort;
use tas_engines::{RunFault, ToolFault};
use tas_movie::{TextError, TextErrorKind};
use test_streams::{Failure, Room, Taker};

/// Counts in RAM, and keeps the sticks' pins there and in the background's colour: INC 80, LDA 280, STA 81, STA COLUBK, JMP F000.
pub const COUNTS: &[u8] = b"\xe6\x80\xad\x80\x02\x85\x81\x85\x09\x4c\x00\xf0";

/// The SHA-256 of its cartridge.
pub const COUNTS_DIGEST: &str = "6707df007cd9f49721b2a8942c02ead96586dd0aa6e2c8ad328dbe2deba4e585";

/// Shows the sticks' pins as the background's colour, and writes no RAM: LDA 280, STA COLUBK, JMP F000.
const PAINTS: &[u8] = b"\xad\x80\x02\x85\x09\x4c\x00\xf0";

/// The SHA-256 of its cartridge.
const PAINTS_DIGEST: &str = "964b3b4c8f2dd3a81081d624b60c17394f36b80f5d2e98a96425d2928c9e33b6";

/// Counts in RAM, and halts at F007 where the left stick is held right: INC 80, LDA 280, BMI F008, 02, JMP F000.
pub const STOPS: &[u8] = b"\xe6\x80\xad\x80\x02\x30\x01\x02\x4c\x00\xf0";

/// The SHA-256 of its cartridge.
pub const STOPS_DIGEST: &str = "d6e713bc50ccd20c6a27ef22630c568c760c7b130a7c788917dfd741c815fee0";

/// A cartridge and the digest of its image.
type Game = (&'static [u8], &'static str);

/// Lines of RAM of which only the first bytes aren't 0: of each row of a number and of these bytes' digits, where the number is one from
/// `from` to `to` - 1.
fn ram_lines<R: Abort>(
    rt: &R,
    alloc: Global,
    rows: &[(usize, &'static str)],
    from: usize,
    to: usize,
) -> Vec<u8> {
    let mut lines = Vec::new(alloc);
    for (number, digits) in rows {
        if from <= *number && *number < to {
            let line = expect_ok(rt, format!(in alloc; "{number} {digits:0<256}\n"));
            expect_ok(rt, lines.extend_from_slice(line.as_bytes()));
        }
    }
    lines
}

/// RAM of the counting cartridge after 0 to 5 frames, of which the third and the fourth hold the stick right.
static COUNTED: [(usize, &'static str); 6] = [
    (0, "0"),
    (1, "48FF"),
    (2, "8FFF"),
    (3, "D67F"),
    (4, "1D7F"),
    (5, "64FF"),
];

#[test]
fn ram_is_shown_from_power_on(rt: HostRuntime) {
    let alloc = rt.alloc();
    let cart = image_of(&rt, alloc, COUNTS);
    let text = text_of(&rt, alloc, COUNTS_DIGEST, b"..RR.");
    for (from, to) in [(0usize, 6usize), (0, 1), (2, 4), (5, 6), (3, 3), (6, 6)] {
        let lines = ram_lines(&rt, alloc, &COUNTED, from, to);
        let ran = run_on(
            alloc,
            Engine::Ram(from, to),
            cart.as_slice(),
            text.as_slice(),
        );
        check_ran(&rt, (from, to), ran, lines.as_slice());
    }
}

#[test]
fn ram_past_the_end_is_out_of_range(rt: HostRuntime) {
    let alloc = rt.alloc();
    let cart = image_of(&rt, alloc, COUNTS);
    let text = text_of(&rt, alloc, COUNTS_DIGEST, b"..RR.");
    for (from, to) in [(0usize, 7usize), (3, 2), (7, 7)] {
        let ran = run_on(
            alloc,
            Engine::Ram(from, to),
            cart.as_slice(),
            text.as_slice(),
        );
        check_fault(
            &rt,
            (from, to),
            ran,
            ToolFault::Run(RunFault::Range { from, to, len: 5 }),
        );
    }
}

#[test]
fn a_halted_machine_keeps_its_ram(rt: HostRuntime) {
    let alloc = rt.alloc();
    let cart = image_of(&rt, alloc, STOPS);
    let text = text_of(&rt, alloc, STOPS_DIGEST, b"..R.");
    let rows = [(2, "AB"), (3, "AC"), (4, "AC")];
    let lines = ram_lines(&rt, alloc, &rows, 2, 5);
    let ran = run_on(alloc, Engine::Ram(2, 5), cart.as_slice(), text.as_slice());
    check_ran(&rt, "RAM", ran, lines.as_slice());
}

#[test]
fn cut_lines_of_ram_are_told_by_their_bytes(rt: HostRuntime) {
    let alloc = rt.alloc();
    let image = image_of(&rt, alloc, COUNTS);
    let movie = text_of(&rt, alloc, COUNTS_DIGEST, b"..RR.");
    let engine = Engine::Ram(0, 6);
    let (whole, end) = run_on(alloc, engine, image.as_slice(), movie.as_slice());
    check_same(&rt, "whole", end, Ok(()));
    for room in [0, 1, 258, 259, 260, 700, 1553] {
        let mut lines = Taker::new(alloc, 100, Room::Bytes(room), Failure::Error);
        let mut cart = [image.as_slice()];
        let mut text = movie.as_slice();
        let end = run_to(alloc, engine, &mut cart, &mut text, &mut lines);
        check_filled(&rt, &lines, end, whole.as_slice(), room);
    }
}

/// The digests of the same movie, in stretches of this many frames.
static DIGESTS: [(usize, &[u8]); 4] = [
    (
        1,
        b"a26digest 1\nprofile 2\ncart 6707df007cd9f49721b2a8942c02ead96586dd0aa6e2c8ad328dbe2deba4e585\nmovie 7ccef0a68f7bd828c5037dccdcc28f0404e563be775edb36f428af8a4b20e595\nframes 0 to 1 ram 8f1e9821b617fc018fc8a90130c6b7deae8b2aa57d645f334002fd65f55ccebb picture dc81d7ece5e97d788ca7f4491073f7db6c85b1ebdd91a4d53115ddcaa02fcaa5\nframes 1 to 2 ram 5fb2803a9be4a8fbd1b97761b9219d029bcba9cc2ac619fae669ca753453262a picture dc81d7ece5e97d788ca7f4491073f7db6c85b1ebdd91a4d53115ddcaa02fcaa5\nframes 2 to 3 ram ac0fefe4f7d44c3470656dfcbce92b3c7db18a4f4e3ca76f7925efdc04433c41 picture 2c1ce94c5d3fd6113926bf21d3e404069052bf2963a65b2d1746ed7ff4d130b4\nframes 3 to 4 ram c0a1d0f9043a7c2aec05b9e2282ba8026e06deeb9cab3a7876e889fd5ed69106 picture 2c1ce94c5d3fd6113926bf21d3e404069052bf2963a65b2d1746ed7ff4d130b4\nframes 4 to 5 ram c786fa6cecfd2eb2f44c812bb40112b371e1df05f5f3855476f48d75a5800549 picture dc81d7ece5e97d788ca7f4491073f7db6c85b1ebdd91a4d53115ddcaa02fcaa5\nend 5 frames\n",
    ),
    (
        2,
        b"a26digest 1\nprofile 2\ncart 6707df007cd9f49721b2a8942c02ead96586dd0aa6e2c8ad328dbe2deba4e585\nmovie 7ccef0a68f7bd828c5037dccdcc28f0404e563be775edb36f428af8a4b20e595\nframes 0 to 2 ram 234bf39ad71717602aa863bf8dad70b44aebaed039ba53efc5b4425333cd9687 picture dc81d7ece5e97d788ca7f4491073f7db6c85b1ebdd91a4d53115ddcaa02fcaa5\nframes 2 to 4 ram 1b7ce1fd2bb32222120b0fd40386d60c0580ceb1b387c6e5164ac078d6b53a7f picture 2c1ce94c5d3fd6113926bf21d3e404069052bf2963a65b2d1746ed7ff4d130b4\nframes 4 to 5 ram c786fa6cecfd2eb2f44c812bb40112b371e1df05f5f3855476f48d75a5800549 picture dc81d7ece5e97d788ca7f4491073f7db6c85b1ebdd91a4d53115ddcaa02fcaa5\nend 5 frames\n",
    ),
    (
        3,
        b"a26digest 1\nprofile 2\ncart 6707df007cd9f49721b2a8942c02ead96586dd0aa6e2c8ad328dbe2deba4e585\nmovie 7ccef0a68f7bd828c5037dccdcc28f0404e563be775edb36f428af8a4b20e595\nframes 0 to 3 ram 0183f847f3656eb7f273f486605876f39187d26c083398556515e7c42ea393da picture 2c1ce94c5d3fd6113926bf21d3e404069052bf2963a65b2d1746ed7ff4d130b4\nframes 3 to 5 ram edc9e7b09cec4ed4e34f25892c8bfaae5fcc37131bbef0ce14fd6efa71fd3b71 picture dc81d7ece5e97d788ca7f4491073f7db6c85b1ebdd91a4d53115ddcaa02fcaa5\nend 5 frames\n",
    ),
    (
        600,
        b"a26digest 1\nprofile 2\ncart 6707df007cd9f49721b2a8942c02ead96586dd0aa6e2c8ad328dbe2deba4e585\nmovie 7ccef0a68f7bd828c5037dccdcc28f0404e563be775edb36f428af8a4b20e595\nframes 0 to 5 ram 1b1299fcd27755c53157b413b09c9031385cc6369cac0017d5e4918568be87a5 picture dc81d7ece5e97d788ca7f4491073f7db6c85b1ebdd91a4d53115ddcaa02fcaa5\nend 5 frames\n",
    ),
];

#[test]
fn a_digest_has_a_line_for_each_stretch(rt: HostRuntime) {
    let alloc = rt.alloc();
    let cart = image_of(&rt, alloc, COUNTS);
    let text = text_of(&rt, alloc, COUNTS_DIGEST, b"..RR.");
    for (every, wanted) in DIGESTS.iter() {
        let ran = run_on(
            alloc,
            Engine::Digest(*every),
            cart.as_slice(),
            text.as_slice(),
        );
        check_ran(&rt, *every, ran, wanted);
    }
}

/// The digest of the movie of the blank cartridge without frames.
static NO_FRAMES_DIGEST: &[u8] =
    b"a26digest 1\nprofile 2\ncart ad7facb2586fc6e966c004d7d1d16b024f5805ff7cb47c7a85dabd8b48892ca7\nmovie 28a712194b8e9737b187764449c5d5d97c62e6f7f4c5c55bccef3f5aed831e72\nend 0 frames\n";

#[test]
fn a_movie_without_frames_has_a_digest(rt: HostRuntime) {
    let ran = run_on(rt.alloc(), Engine::Digest(600), &BLANK, NO_FRAMES);
    check_ran(&rt, BLANK_DIGEST, ran, NO_FRAMES_DIGEST);
}

#[test]
fn a_movie_that_halts_has_no_digest(rt: HostRuntime) {
    let alloc = rt.alloc();
    let cart = image_of(&rt, alloc, STOPS);
    let text = text_of(&rt, alloc, STOPS_DIGEST, b"..R.");
    let fault = ToolFault::Run(RunFault::Halted {
        at: 0xf007,
        opcode: 2,
    });
    for every in [1, 3, 4, 600] {
        let ran = run_on(
            alloc,
            Engine::Digest(every),
            cart.as_slice(),
            text.as_slice(),
        );
        check_fault(&rt, every, ran, fault);
    }
}

/// Cartridges, the frames of two movies, and what is written of them.
static COMPARISONS: [(Game, &[u8], &[u8], &[u8]); 11] = [
    (
        (COUNTS, COUNTS_DIGEST),
        b"..R..",
        b".RR..",
        b"input 1\nram 1\npicture 1\n",
    ),
    (
        (COUNTS, COUNTS_DIGEST),
        b"..R..",
        b"..R..",
        b"input none\nram none\npicture none\n",
    ),
    (
        (COUNTS, COUNTS_DIGEST),
        b"..RR",
        b"..",
        b"input 2\nram 2\npicture 2\n",
    ),
    (
        (COUNTS, COUNTS_DIGEST),
        b"..",
        b"..RR",
        b"input 2\nram 2\npicture 2\n",
    ),
    (
        (COUNTS, COUNTS_DIGEST),
        b"",
        b".",
        b"input 0\nram 0\npicture 0\n",
    ),
    (
        (COUNTS, COUNTS_DIGEST),
        b"R.F.",
        b"R...",
        b"input 2\nram none\npicture none\n",
    ),
    (
        (PAINTS, PAINTS_DIGEST),
        b"..R.",
        b".RR.",
        b"input 1\nram none\npicture 1\n",
    ),
    (
        (STOPS, STOPS_DIGEST),
        b"..R.",
        b"....",
        b"input 2\nram 2\npicture 2\n",
    ),
    (
        (STOPS, STOPS_DIGEST),
        b"..R.",
        b"..RR",
        b"input 3\nram none\npicture none\n",
    ),
    (
        (STOPS, STOPS_DIGEST),
        b".R..",
        b"..R.",
        b"input 1\nram 1\npicture 1\n",
    ),
    (
        (HALTING, HALTING_DIGEST),
        b"......",
        b"....RR",
        b"input 4\nram none\npicture none\n",
    ),
];

#[test]
fn two_movies_differ_first_where_they_do(rt: HostRuntime) {
    let alloc = rt.alloc();
    for ((program, digest), old, new, wanted) in COMPARISONS.iter() {
        let cart = image_of(&rt, alloc, program);
        let before = text_of(&rt, alloc, digest, old);
        let after = text_of(&rt, alloc, digest, new);
        let ran = run_beside_on(
            alloc,
            FileEngine::Compare,
            cart.as_slice(),
            before.as_slice(),
            after.as_slice(),
        );
        check_ran(&rt, (*old, *new), ran, wanted);
    }
}

#[test]
fn the_older_movie_of_two_is_at_fault_first(rt: HostRuntime) {
    let alloc = rt.alloc();
    let cart = image_of(&rt, alloc, COUNTS);
    let text = text_of(&rt, alloc, COUNTS_DIGEST, b"..RR.");
    let head = ToolFault::Run(RunFault::Text(TextError {
        line: 1,
        kind: TextErrorKind::Head,
    }));
    let ran = run_beside_on(
        alloc,
        FileEngine::Compare,
        cart.as_slice(),
        b"a\n",
        NO_FRAMES,
    );
    check_fault(&rt, "both", ran, head);
    let ran = run_beside_on(
        alloc,
        FileEngine::Compare,
        cart.as_slice(),
        text.as_slice(),
        NO_FRAMES,
    );
    check_fault(&rt, "the new one", ran, ToolFault::Run(OTHER_DIGEST));
}
