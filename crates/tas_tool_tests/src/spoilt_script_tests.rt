//! Scripts that are cut off or have one wrong byte.

use crate::checks::{check_same, check_that, expect_ok, expect_some};
use crate::commands::{LineCommand, answer_lines};
use crate::plain_editor::answer_plainly;
use std::alloc::Global;
use std::process::Abort;
use std::sync::Wait;
use tas_tool::{RunFault, ToolFault};

/// Ten lines. The cartridge colours a frame by what port A shows, turned round, so that it is black where nothing is pressed;
/// then it waits for 36 lines, of which two are on the picture, and ends the frame by vertical sync.
static SCRIPT: &[u8] = b"len\n\
    load 000=AD800249FF8509A2248502CAD0FBA902850086004C00F0 FFC=00F0\n\
    insert 0 2 R.... ..... .....\n\
    input 1\n\
    delete 0 1\n\
    replace 0 1 ..... ..... .....\n\
    len\n\
    insert 1 1 .L..F ...U. rsbAB\n\
    work 2\n\
    shot 1\n";

/// Its replies by hand.
static REPLIES: &[u8] =
    b"len 0 0\nedit 1 len 0\nedit 2 len 2\ninput 2 R.... ..... .....\nedit 3 len 1\n\
    edit 4 len 1\nlen 4 1\nedit 5 len 2\nwork jobs 1 kept 0 stale 0\nshot 5 1 ran 2 lit 320\n";

/// Three lines with the same program in a small cartridge, the last byte of which is given too.
static SMALL: &[u8] = b"load2 000=AD800249FF8509A2248502CAD0FBA902850086004C00F0 7FC=00F01234\n\
    insert 0 1 R.... ..... .....\n\
    shot 0\n";

/// Whether a script is answered as the second reader answers it.
fn is_alike<R: Wait + Abort>(rt: &R, alloc: Global, script: &[u8]) -> bool {
    let mut replies = Vec::new(alloc);
    let mut input = script;
    let end = answer_lines(rt, alloc, LineCommand::Script, &mut input, &mut replies);
    let (wanted, fault) = answer_plainly(rt, alloc, script);
    let wanted_end = match fault {
        Some(line) => Err(ToolFault::Run(RunFault::Script { line })),
        None => Ok(()),
    };
    end == wanted_end && replies == wanted
}

/// Fails where the second reader answers a script in another way than by hand, or one that is cut off anywhere in another way
/// than the program.
fn check_cuts<R: Wait + Abort>(rt: &R, alloc: Global, script: &[u8], by_hand: &[u8]) {
    let (replies, fault) = answer_plainly(rt, alloc, script);
    check_same(rt, "replies", replies.as_slice(), by_hand);
    check_same(rt, "fault", fault, None);
    for count in 0..=script.len() {
        let front = expect_some(rt, script.get(..count));
        check_that(rt, ("bytes", count), is_alike(rt, alloc, front));
    }
}

#[test]
fn scripts_are_cut_off_anywhere(rt: HostRuntime) {
    check_cuts(&rt, rt.alloc(), SCRIPT, REPLIES);
}

/// Puts a byte at a place of a script, and then the one that was there.
fn change_one<R: Wait + Abort>(
    rt: &R,
    alloc: Global,
    script: &mut Vec<u8>,
    place: usize,
    byte: u8,
) {
    let before = put(rt, script, place, byte);
    let is_alike = is_alike(rt, alloc, script.as_slice());
    check_that(rt, ("byte at", place, byte), is_alike);
    put(rt, script, place, before);
}

/// Puts a byte at a place of a script: the one that was there.
fn put<R: Abort>(rt: &R, script: &mut Vec<u8>, place: usize, byte: u8) -> u8 {
    let at = expect_some(rt, script.get_mut(place));
    let before = *at;
    *at = byte;
    before
}

/// Puts each byte in turn at each of these places of a script.
fn change_each<R: Wait + Abort>(rt: &R, alloc: Global, right: &[u8], from: usize, to: usize) {
    let mut script = expect_ok(rt, Vec::from_slice(alloc, right));
    for place in from..to {
        for byte in 0..=255u8 {
            change_one(rt, alloc, &mut script, place, byte);
        }
    }
}

#[test]
fn each_byte_of_the_load_line_may_be_wrong(rt: HostRuntime) {
    change_each(&rt, rt.alloc(), SCRIPT, 0, 69);
}

#[test]
fn each_byte_up_to_the_deletion_may_be_wrong(rt: HostRuntime) {
    change_each(&rt, rt.alloc(), SCRIPT, 69, 117);
}

#[test]
fn each_byte_of_the_replacement_may_be_wrong(rt: HostRuntime) {
    change_each(&rt, rt.alloc(), SCRIPT, 117, 151);
}

#[test]
fn each_byte_of_the_last_lines_may_be_wrong(rt: HostRuntime) {
    change_each(&rt, rt.alloc(), SCRIPT, 151, SCRIPT.len());
}

/// The replies to [`SMALL`] by hand.
static SMALL_REPLIES: &[u8] = b"edit 1 len 0\nedit 2 len 1\nshot 2 0 ran 1 lit 320\n";

#[test]
fn small_cartridges_are_cut_off_anywhere(rt: HostRuntime) {
    check_cuts(&rt, rt.alloc(), SMALL, SMALL_REPLIES);
}

#[test]
fn each_byte_of_the_line_of_a_small_cartridge_may_be_wrong(rt: HostRuntime) {
    change_each(&rt, rt.alloc(), SMALL, 0, 70);
}
