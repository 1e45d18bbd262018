//! The commands that play frames and write more than one picture, through the whole program.

use crate::movies::{
    HALTING, IDLE, PLAYFIELD, STORING, image_of, joined, playfield_picture, recording_of, repeated,
};
use crate::programs::{ONE_FRAME, TWO_FRAMES};
use crate::two_files::{TwoFiles, check_run, only_game};

/// A movie of the playfield's cartridge with two frames of nothing pressed.
const TWO_IDLE_FRAMES: &[u8] =
    b"a26movie 2\ncart 820c64e9933496de683a000c5e11f0510fb7b1699b2ce86471295236b284906d\n..... ..... ..... x2\n";

/// Words of films of a movie of two frames, and how many pictures they have.
static FILMS: [(&[&str], usize); 6] = [
    (&["film", "game.bin"], 2),
    (&["film", "game.bin", "0"], 2),
    (&["film", "game.bin", "1"], 1),
    (&["film", "game.bin", "2"], 0),
    (&["film", "game.bin", "0", "1"], 1),
    (&["film", "game.bin", "1", "1"], 0),
];

#[test]
fn films_have_their_frames(rt: HostRuntime) {
    let alloc = rt.alloc();
    let game = image_of(&rt, alloc, PLAYFIELD.bytes);
    let picture = playfield_picture(&rt, alloc);
    for row in FILMS.iter() {
        let (words, count) = *row;
        let wanted = repeated(&rt, alloc, b"", picture.as_slice(), count);
        let end = (0, wanted.as_slice(), b"".as_slice());
        let folder = only_game(game.as_slice());
        check_run(&rt, alloc, words, folder, TWO_FRAMES, end);
    }
}

/// The RAM of the first line is power-on's, and that of the second one is after a frame.
#[test]
fn ram_has_a_line_for_each_number_of_frames(rt: HostRuntime) {
    let alloc = rt.alloc();
    let movie = recording_of(&rt, alloc, STORING, 1, IDLE);
    let (game, text) = movie.files();
    let first = repeated(&rt, alloc, b"0 ", b"00", 128);
    let second = repeated(&rt, alloc, b"\n1 42", b"00", 127);
    let lines = joined(&rt, alloc, &[first.as_slice(), second.as_slice(), b"\n"]);
    let end = (0, lines.as_slice(), b"".as_slice());
    let words = ["ram", "game.bin", "0", "2"];
    check_run(&rt, alloc, &words, only_game(game), text, end);
}

/// Names of the byte that the cartridge stores, and of one that it leaves alone.
const NAMES: &[u8] = b"stored 80\nrest FF\n";

/// The table's rows are power-on's and those after one frame and two.
#[test]
fn a_table_of_ram_has_a_column_for_each_name(rt: HostRuntime) {
    let alloc = rt.alloc();
    let movie = recording_of(&rt, alloc, STORING, 2, IDLE);
    let (game, text) = movie.files();
    let table = b"frames played,stored,rest\n0,0,0\n1,66,0\n2,66,0\n";
    let folder = TwoFiles { game, other: NAMES };
    let words = ["ram", "game.bin", "0", "3", "--names", "other"];
    check_run(&rt, alloc, &words, folder, text, (0, table, b""));
}

/// Words of tables over a movie of one frame, the file `other`, and the line of the fault.
static TABLE_FAULTS: [(&[&str], &[u8], &[u8]); 6] = [
    (
        &["ram", "game.bin", "0", "1", "--names", "nothing"],
        b"",
        b"fault: names: read failed\n",
    ),
    (
        &["ram", "game.bin", "0", "1", "--names", "other"],
        b"stored 80",
        b"fault: names line 1: end\n",
    ),
    (
        &["ram", "game.bin", "0", "1", "--names", "other"],
        b"stored 80\nrest\n",
        b"fault: names line 2: space\n",
    ),
    (
        &["ram", "game.bin", "0", "1", "--names", "other"],
        b"stored 7F\n",
        b"fault: names line 1: address\n",
    ),
    (
        &["ram", "game.bin", "0", "9", "--names", "other"],
        b"stored 80\nrest FF\nstored 81\n",
        b"fault: names line 3: name\n",
    ),
    (
        &["ram", "game.bin", "0", "9", "--names", "other"],
        NAMES,
        b"fault: range 0 to 9 of 1\n",
    ),
];

#[test]
fn faults_of_tables_write_nothing(rt: HostRuntime) {
    let alloc = rt.alloc();
    let movie = recording_of(&rt, alloc, STORING, 1, IDLE);
    let (game, text) = movie.files();
    for row in TABLE_FAULTS.iter() {
        let (words, other, line) = *row;
        let end = (1, b"".as_slice(), line);
        check_run(&rt, alloc, words, TwoFiles { game, other }, text, end);
    }
}

/// The digests come from another program: of the image, of the movie's text, of 128 and of 256 zeros, and of the playfield's picture.
pub const BY_FRAME: &[u8] = b"a26digest 1
profile 2
cart 820c64e9933496de683a000c5e11f0510fb7b1699b2ce86471295236b284906d
movie caf5bdb8fe9e228d8bf98c2d45b125cf280b57a0375b4729c5f3d295e5d56bde
frames 0 to 1 ram 38723a2e5e8a17aa7950dc008209944e898f69a7bd10a23c839d341e935fd5ca picture 6ed57dfa7a73ebd28c562c1f4c1b542b3fe5b2a3a1f36aa7054cd7427dd07108
frames 1 to 2 ram 38723a2e5e8a17aa7950dc008209944e898f69a7bd10a23c839d341e935fd5ca picture 6ed57dfa7a73ebd28c562c1f4c1b542b3fe5b2a3a1f36aa7054cd7427dd07108
end 2 frames
";

/// The same in one stretch.
pub const BY_STRETCH: &[u8] = b"a26digest 1
profile 2
cart 820c64e9933496de683a000c5e11f0510fb7b1699b2ce86471295236b284906d
movie caf5bdb8fe9e228d8bf98c2d45b125cf280b57a0375b4729c5f3d295e5d56bde
frames 0 to 2 ram 5341e6b2646979a70e57653007a1f310169421ec9bdd9f1a5648f75ade005af1 picture 6ed57dfa7a73ebd28c562c1f4c1b542b3fe5b2a3a1f36aa7054cd7427dd07108
end 2 frames
";

/// Commands over the playfield's cartridge and a movie of two frames: the words, the file `other`, and what they write.
static ANSWERS: [(&[&str], &[u8], &[u8]); 7] = [
    (&["digest", "game.bin", "1"], b"", BY_FRAME),
    (&["digest", "game.bin", "2"], b"", BY_STRETCH),
    (&["digest", "game.bin"], b"", BY_STRETCH),
    (
        &["compare", "game.bin", "other"],
        TWO_FRAMES,
        b"input none\nram none\npicture none\n",
    ),
    (
        &["compare", "game.bin", "other"],
        ONE_FRAME,
        b"input 1\nram 1\npicture 1\n",
    ),
    (
        &["compare", "game.bin", "other"],
        TWO_IDLE_FRAMES,
        b"input 1\nram none\npicture none\n",
    ),
    (&["lag", "game.bin"], b"", b"0 2\n"),
];

#[test]
fn digests_and_differences_are_written(rt: HostRuntime) {
    let alloc = rt.alloc();
    let game = image_of(&rt, alloc, PLAYFIELD.bytes);
    for row in ANSWERS.iter() {
        let (words, other, text) = *row;
        let end = (0, text, b"".as_slice());
        let folder = TwoFiles {
            game: game.as_slice(),
            other,
        };
        check_run(&rt, alloc, words, folder, TWO_FRAMES, end);
    }
}

/// Words over a cartridge that halts in frame 3 of five, and the line of the fault.
static FAULTS: [(&[&str], &[u8]); 8] = [
    (
        &["film", "game.bin", "3"],
        b"fault: frame 3 halted at F00D by 02\n",
    ),
    (
        &["film", "game.bin", "3", "6"],
        b"fault: range 3 to 6 of 5\n",
    ),
    (&["film", "game.bin", "6"], b"fault: range 6 to 5 of 5\n"),
    (&["film", "nothing"], b"fault: read failed\n"),
    (
        &["ram", "game.bin", "0", "7"],
        b"fault: range 0 to 7 of 5\n",
    ),
    (
        &["ram", "nothing", "0", "1"],
        b"fault: cartridge: read failed\n",
    ),
    (&["digest", "game.bin"], b"fault: halted at F00D by 02\n"),
    (
        &["compare", "game.bin", "nothing"],
        b"fault: old movie: read failed\n",
    ),
];

#[test]
fn faults_of_played_frames_end_with_status_1(rt: HostRuntime) {
    let alloc = rt.alloc();
    let movie = recording_of(&rt, alloc, HALTING, 5, IDLE);
    let (game, text) = movie.files();
    for row in FAULTS.iter() {
        let (words, line) = *row;
        let end = (1, b"".as_slice(), line);
        check_run(&rt, alloc, words, only_game(game), text, end);
    }
}
