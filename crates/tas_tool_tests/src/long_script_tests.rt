//! A long script of edits and looks, with replies that were worked out apart from the program.
//!
//! A small model made the replies, without an emulator: what a frame shows by a rule for each cartridge, found by hand in its
//! source and docs/MACHINE.md, and the number of played frames by the places of the states that the seat's zone keeps: a shot
//! first cuts it at the common beginning of the inputs of the shot before and the present ones, and empties it where the
//! cartridge's bytes differ.
//!
//! - `examples/tally.hex`: a number starts at 1. Each frame turns its eight bits left by one and flips those of what is
//!   pressed: of the left stick right 80, left 40, down 20, up 10, fire 80, of the right stick 08, 04, 02, 01 and fire
//!   40; select 02, reset 01, black and white 08, difficulty A left 40 and right 80. `lit` is 160 pixels for each line,
//!   as many as the number modulo 128. Where reset and select are pressed together it halts at F023.
//! - `examples/joystick.hex`: frame 0 ends before it draws anything; then lines 40 to 231 have a background, so `lit` is
//!   30,720, wherever the player stands.
//! - `examples/counter.hex` writes to no register of the TIA, so `lit` is 0.
//! - `000=A910850DA91E85084C08F0 FFC=00F0` draws four pixels in each half of each line, so `lit` is 1,680.
//! - `000=A203A9028500A9008500CAD0F502 FFC=00F0` ends three frames at once, and halts at F00D in its fourth.

use crate::checks::{check_same, check_that, expect_ok, expect_some};
use crate::commands::LineCommand;
use crate::talks::answers_of;
use byte_text::split_once;
use std::alloc::Global;
use std::process::Abort;

/// Each line, a bar, and its reply.
static TURNS: &str = "\
len|len 0 0
input 0|no frame 0 len 0
shot 0|no frame 0 len 0
delete 0 1|place 0 len 0
replace 0 1 ..... ..... .....|place 0 len 0
insert 1 1 ..... ..... .....|place 0 len 0
insert 0 262145 ..... ..... .....|long 0 len 0
insert 1 262145 ..... ..... .....|place 0 len 0
delete 0 0|edit 1 len 0
insert 0 0 R.... ..... .....|edit 2 len 0
replace 0 0 ..... ..... rs...|edit 3 len 0
len|len 3 0
load 000=A9018580A5800A69004D80024D8202450C8580A50D4A458085808502AD82022903D00102A2218502CAD0FBA580297FAAF009A90E85098502CAD0FBA9008509A9028500A90085004C04F0 FFC=00F000F0|edit 4 len 0
insert 0 2 ..... ..... .....|edit 5 len 2
insert 2 1 R.... ..... .....|edit 6 len 3
shot 2|shot 6 2 ran 3 lit 1280
insert 3 1 .L... ..... .....|edit 7 len 4
shot 3|shot 7 3 ran 4 lit 12960
insert 4 1 ..D.. ..... .....|edit 8 len 5
shot 4|shot 8 4 ran 5 lit 320
insert 5 1 ...U. ..... .....|edit 9 len 6
shot 5|shot 9 5 ran 6 lit 3360
insert 6 1 ....F ..... .....|edit 10 len 7
shot 6|shot 10 6 ran 7 lit 6720
insert 7 1 ..... R.... .....|edit 11 len 8
shot 7|shot 11 7 ran 8 lit 14880
insert 8 1 ..... .L... .....|edit 12 len 9
shot 8|shot 12 8 ran 9 lit 9920
insert 9 1 ..... ..D.. .....|edit 13 len 10
shot 9|shot 13 9 ran 10 lit 20320
insert 10 1 ..... ...U. .....|edit 14 len 11
shot 10|shot 14 10 ran 11 lit 20320
insert 11 1 ..... ....F .....|edit 15 len 12
shot 11|shot 15 11 ran 12 lit 10080
insert 12 1 ..... ..... r....|edit 16 len 13
shot 12|shot 16 12 ran 13 lit 20160
insert 13 1 ..... ..... .s...|edit 17 len 14
shot 13|shot 17 13 ran 14 lit 20160
insert 14 1 ..... ..... ..b..|edit 18 len 15
shot 14|shot 18 14 ran 15 lit 18720
insert 15 1 ..... ..... ...A.|edit 19 len 16
shot 15|shot 19 15 ran 16 lit 6880
insert 16 1 ..... ..... ....B|edit 20 len 17
shot 16|shot 20 16 ran 17 lit 13920
input 0|input 20 ..... ..... .....
input 5|input 20 ...U. ..... .....
input 11|input 20 ..... ....F .....
input 16|input 20 ..... ..... ....B
len|len 20 17
insert 17 183 ..... ..... .....|edit 21 len 200
shot 199|shot 21 199 ran 200 lit 17120
shot 150|shot 21 150 ran 23 lit 18720
shot 63|shot 21 63 ran 64 lit 17120
shot 64|shot 21 64 ran 1 lit 13920
shot 200|no frame 21 len 200
input 22|input 21 ..... ..... .....
shot 106|shot 21 106 ran 43 lit 15200
insert 171 44 RL... ..... ..b..|edit 22 len 244
insert 165 31 ...UF ..D.. .....|edit 23 len 275
insert 259 6 .L... R.... r...B|edit 24 len 281
shot 50|shot 24 50 ran 51 lit 15200
len|len 24 281
shot 282|no frame 24 len 281
input 15|input 24 ..... ..... ...A.
replace 281 1 ....F ..... .....|place 24 len 281
delete 85 12|edit 25 len 269
replace 23 6 ..... ..... ..b..|edit 26 len 269
shot 93|shot 26 93 ran 94 lit 1440
delete 4 28|edit 27 len 241
shot 17|shot 27 17 ran 18 lit 13440
replace 24 8 ..... R..U. r....|edit 28 len 241
shot 199|shot 28 199 ran 200 lit 13920
replace 13 13 ..... ..D.F .s...|edit 29 len 241
insert 96 11 ..... ..D.. ...A.|edit 30 len 252
input 15|input 30 ..... ..D.F .s...
replace 162 14 .LDU. R.... .sb..|edit 31 len 252
replace 152 12 .LD.F ..... .....|edit 32 len 252
replace 49 23 ..... R.... .....|edit 33 len 252
insert 127 37 .L..F RL.UF r....|edit 34 len 289
shot 206|shot 34 206 ran 207 lit 4320
delete 266 13|edit 35 len 276
shot 216|shot 35 216 ran 25 lit 1600
replace 127 7 ..... ....F .sbA.|edit 36 len 276
delete 225 15|edit 37 len 261
shot 101|shot 37 101 ran 38 lit 19040
replace 234 25 ..... ...U. ...A.|edit 38 len 261
shot 184|shot 38 184 ran 121 lit 13280
input 125|input 38 ..... ..... .....
delete 31 27|edit 39 len 234
insert 150 43 ..... ..... .sb.B|edit 40 len 277
delete 244 0|edit 41 len 277
replace 75 28 ....F ..D.. ...A.|edit 42 len 277
input 8|input 42 ..... ..... .....
insert 110 47 ..... ..D.. .....|edit 43 len 324
insert 138 46 .L... ..... r...B|edit 44 len 370
replace 369 1 RL... ..... .....|edit 45 len 370
insert 75 48 ..... R...F r....|edit 46 len 418
shot 378|shot 46 378 ran 379 lit 800
insert 309 49 ..... ....F ...A.|edit 47 len 467
shot 386|shot 47 386 ran 131 lit 14880
input 91|input 47 ..... R...F r....
input 136|input 47 ....F ..D.. ...A.
shot 399|shot 47 399 ran 16 lit 20320
insert 290 54 ..D.. ....F .....|edit 48 len 521
shot 477|shot 48 477 ran 222 lit 7840
replace 499 5 ...U. .LDU. ...A.|edit 49 len 521
insert 155 56 .L... ...U. ..b..|edit 50 len 577
insert 458 33 R.... R..U. ..b.B|edit 51 len 610
shot 168|shot 51 168 ran 41 lit 5120
shot 400|shot 51 400 ran 273 lit 8960
input 52|input 51 ..... ..... .....
shot 223|shot 51 223 ran 32 lit 18400
insert 5 15 ..... .LD.. ..b..|edit 52 len 625
shot 261|shot 52 261 ran 262 lit 9760
shot 581|shot 52 581 ran 326 lit 7840
replace 576 4 R.D.F ..... .sb..|edit 53 len 625
insert 260 5 .L.U. RL... .....|edit 54 len 630
shot 191|shot 54 191 ran 64 lit 2560
replace 367 5 RL... ....F ..b.B|edit 55 len 630
shot 407|shot 55 407 ran 152 lit 4640
input 67|input 55 ..... ..... .....
insert 76 23 ..... R...F ..bA.|edit 56 len 653
replace 494 21 R.... R.... ..bA.|edit 57 len 653
insert 207 21 ...U. .L.U. .....|edit 58 len 674
insert 271 55 .L... ...U. r....|edit 59 len 729
replace 364 1 ..... ..... rs...|edit 60 len 729
shot 363|shot 60 363 ran 300 lit 10560
shot 364|halted 60 F023 02
shot 728|halted 60 F023 02
shot 365|halted 60 F023 02
shot 727|halted 60 F023 02
shot 363|shot 60 363 ran 44 lit 10560
replace 364 1 ..... ..... r....|edit 61 len 729
shot 728|shot 61 728 ran 409 lit 1280
shot 364|shot 61 364 ran 45 lit 800
load 000=A9C68509A95085808502A208CAD0FD8510A90285018500A203208EF0A9008500A2002C80023002A2F07002A2108620A480AD80022910D005C001F00188AD80022920D005C0AEF001C88480A20EA50C3002A24686068502852AA224208EF0A9008501A680208EF0A0088502B993F0851B850288D0F48502841BA9AF38E580AA208EF0A9028501A21E208EF04C11F08502CAD0FB603C4299A581A5423C FFC=00F000F0|edit 62 len 729
shot 0|shot 62 0 ran 1 lit 0
shot 1|shot 62 1 ran 2 lit 30720
shot 3|shot 62 3 ran 4 lit 30720
shot 100|shot 62 100 ran 101 lit 30720
shot 728|shot 62 728 ran 665 lit 30720
shot 64|shot 62 64 ran 1 lit 30720
load 000=A200E886804C02F0 FFC=00F0|edit 63 len 729
shot 0|shot 63 0 ran 1 lit 0
shot 1|shot 63 1 ran 2 lit 0
shot 3|shot 63 3 ran 4 lit 0
shot 100|shot 63 100 ran 101 lit 0
shot 130|shot 63 130 ran 67 lit 0
shot 64|shot 63 64 ran 1 lit 0
load 000=A203A9028500A9008500CAD0F502 FFC=00F0|edit 64 len 729
shot 0|shot 64 0 ran 1 lit 0
shot 1|shot 64 1 ran 2 lit 0
shot 3|halted 64 F00D 02
shot 100|halted 64 F00D 02
shot 728|halted 64 F00D 02
shot 64|halted 64 F00D 02
load 000=A910850DA91E85084C08F0 FFC=00F0|edit 65 len 729
shot 0|shot 65 0 ran 1 lit 1680
shot 1|shot 65 1 ran 2 lit 1680
shot 3|shot 65 3 ran 4 lit 1680
shot 100|shot 65 100 ran 101 lit 1680
shot 130|shot 65 130 ran 67 lit 1680
shot 64|shot 65 64 ran 1 lit 1680
load FFC=00F0 000=FF10850DA91E 006=85084C08F0 000=A9|edit 66 len 729
shot 0|shot 66 0 ran 1 lit 1680
shot 1|shot 66 1 ran 2 lit 1680
shot 3|shot 66 3 ran 4 lit 1680
shot 100|shot 66 100 ran 37 lit 1680
shot 130|shot 66 130 ran 3 lit 1680
shot 64|shot 66 64 ran 1 lit 1680
input 364|input 66 ..... ..... r....
load 000=A9018580A5800A69004D80024D8202450C8580A50D4A458085808502AD82022903D00102A2218502CAD0FBA580297FAAF009A90E85098502CAD0FBA9008509A9028500A90085004C04F0 FFC=00F000F0|edit 67 len 729
shot 199|shot 67 199 ran 200 lit 16480
insert 729 32102 ....F ..... .....|edit 68 len 32831
shot 150|shot 68 150 ran 23 lit 3840
shot 70|shot 68 70 ran 7 lit 20000
insert 32831 1 .L... ...U. ...A.|edit 69 len 32832
shot 150|shot 69 150 ran 23 lit 3840
shot 70|shot 69 70 ran 71 lit 20000
shot 127|shot 69 127 ran 128 lit 960
input 32831|input 69 .L... ...U. ...A.
shot 32832|no frame 69 len 32832
insert 32832 32704 ..... ..... .....|edit 70 len 65536
len|len 70 65536
insert 65536 196609 ..... ..... .....|long 70 len 65536
insert 0 196609 ..... ..... .....|long 70 len 65536
insert 65537 1 ..... ..... .....|place 70 len 65536
replace 65535 1 .L... ..... .....|edit 71 len 65536
replace 65535 2 ..... ..... .....|place 71 len 65536
input 65535|input 71 .L... ..... .....
shot 65536|no frame 71 len 65536
shot 140|shot 71 140 ran 13 lit 2400
delete 130 65406|edit 72 len 130
shot 129|shot 72 129 ran 2 lit 10400
shot 60|shot 72 60 ran 61 lit 15200
shot 129|shot 72 129 ran 2 lit 10400
delete 0 130|edit 73 len 0
shot 0|no frame 73 len 0
len|len 73 0
";

/// The first of these turns, as its line and its reply, and those after it.
fn next_turn<'a, R: Abort>(rt: &R, turns: &'a [u8]) -> (&'a [u8], &'a [u8], &'a [u8]) {
    let (turn, later) = expect_some(rt, split_once(turns, b'\n'));
    let (line, reply) = expect_some(rt, split_once(turn, b'|'));
    (line, reply, later)
}

/// Fails at the first line that differs.
fn compare<R: Abort>(rt: &R, alloc: Global, text: &[u8]) {
    let mut turns = TURNS.as_bytes();
    let mut rest = text;
    for number in 1..200u32 {
        let (line, reply, later) = next_turn(rt, turns);
        let (told, after) = expect_some(rt, split_once(rest, b'\n'));
        let line = expect_ok(rt, String::from_utf8_lossy(alloc, line));
        check_same(rt, ("line", number, line.as_str()), told, reply);
        turns = later;
        rest = after;
    }
    check_that(rt, "turns", turns.is_empty());
    check_that(rt, "rest", rest.is_empty());
}

/// The lines without their replies.
fn script<R: Abort>(rt: &R, alloc: Global) -> Vec<u8> {
    let mut script = Vec::new(alloc);
    let mut turns = TURNS.as_bytes();
    for _ in 1..200u32 {
        let (line, _reply, later) = next_turn(rt, turns);
        expect_ok(rt, script.extend_from_slice(line));
        expect_ok(rt, script.push(b'\n'));
        turns = later;
    }
    script
}

#[test]
fn a_long_script_is_answered_as_worked_out_apart(rt: HostRuntime) {
    let alloc = rt.alloc();
    let script = script(&rt, alloc);
    let output = answers_of(&rt, alloc, LineCommand::Script, script.as_slice());
    compare(&rt, alloc, output.as_slice());
}
