//! The pixmap of a picture, written whole and into writers that get full.

use super::{at_clock, playfield_frame, run};
use crate::checks::{check_same, check_that, expect_ok};
use std::alloc::Global;
use std::io::ErrorKind;
use std::process::Abort;
use test_streams::{Failure, Room, Taker};
use vcs_tia::{Picture, ppm};

/// How a pixmap ends that is refused: how many bytes it says were written, how many came, how many writes failed, and whether
/// it tells the writer's fault.
type Refused = Option<(usize, usize, usize, bool)>;

/// How a pixmap ends whose writer takes this many bytes a call, for this many calls, and then fails so.
fn refused_pixmap(
    alloc: Global,
    picture: &Picture,
    a_call: usize,
    calls: usize,
    failure: Failure,
) -> Refused {
    let kind = match failure {
        Failure::Error => ErrorKind::BrokenPipe,
        Failure::Interrupted => ErrorKind::Interrupted,
        Failure::Nothing => ErrorKind::WriteZero,
    };
    let mut some = Taker::new(alloc, a_call, Room::Writes(calls), failure);
    let fault = ppm(picture, &mut some).err()?;
    let is_told = fault.error.kind() == kind;
    Some((fault.written, some.taken.len(), some.failed, is_told))
}

/// A writer that has taken a picture's pixmap, which is as long as its pixels.
fn whole_pixmap<R: Abort>(rt: &R, alloc: Global, picture: &Picture) -> Taker {
    let mut all = Taker::new(alloc, 1000, Room::Writes(1000000), Failure::Error);
    check_that(rt, "written", ppm(picture, &mut all).is_ok());
    check_same(rt, "bytes", all.taken.len(), 100815);
    all
}

/// How many bytes a writer takes a call, for how many calls, how it fails then, and how the pixmap ends, where it is refused.
/// Each call offers a row of pixels or more. A failed write is the last one, of whatever kind.
static REFUSED: [(usize, usize, Failure, Refused); 6] = [
    (1000, 210, Failure::Error, None),
    (20, 1, Failure::Error, Some((20, 20, 1, true))),
    (7, 3, Failure::Error, Some((21, 21, 1, true))),
    (7, 3, Failure::Interrupted, Some((21, 21, 1, true))),
    (7, 3, Failure::Nothing, Some((21, 21, 1, true))),
    (100, 0, Failure::Error, Some((0, 0, 1, true))),
];

#[test]
fn pixmap_of_a_picture(rt: HostRuntime) {
    let mut picture = expect_ok(&rt, Picture::blank(rt.alloc()));
    playfield_frame(0x00, &mut picture);
    let all = whole_pixmap(&rt, rt.alloc(), &picture);
    let head = b"P6\n160 210\n255\n\xd2\xc8\x8c\xd2\xc8";
    check_that(&rt, "head", all.taken.starts_with(head));
    for (a_call, calls, failure, wanted) in REFUSED.iter() {
        let told = refused_pixmap(rt.alloc(), &picture, *a_call, *calls, *failure);
        check_same(&rt, (*a_call, *calls), told, *wanted);
    }
}

/// Red, green and blue of each hue's darkest shade, and how much brighter each of its further shades is.
static HUES: [([u8; 3], u8); 16] = [
    ([0, 0, 0], 36),
    ([70, 60, 0], 20),
    ([100, 45, 0], 20),
    ([110, 30, 10], 20),
    ([115, 15, 30], 20),
    ([105, 10, 70], 20),
    ([85, 10, 105], 20),
    ([50, 15, 115], 20),
    ([20, 25, 115], 20),
    ([0, 40, 110], 20),
    ([0, 55, 85], 20),
    ([0, 65, 45], 20),
    ([5, 70, 5], 20),
    ([30, 65, 0], 20),
    ([55, 55, 0], 20),
    ([85, 45, 0], 20),
];

/// Red, green and blue of the shade of this number: there are 128, eight of each hue.
fn shade(number: usize) -> [u8; 3] {
    let ([red, green, blue], step) = HUES[number / 8 % 16];
    let more = step.wrapping_mul((number % 8) as u8);
    [
        red.wrapping_add(more),
        green.wrapping_add(more),
        blue.wrapping_add(more),
    ]
}

/// Each row of a picture has a shade of its own, until all were shown and they begin anew.
fn draw_shades(picture: &mut Picture) {
    let mut tia = at_clock(228, picture);
    for row in 0..210u8 {
        tia.write(0x09, row % 128 * 2);
        run(&mut tia, 228, picture);
    }
}

#[test]
fn each_shade_of_a_pixmap(rt: HostRuntime) {
    let mut picture = expect_ok(&rt, Picture::blank(rt.alloc()));
    draw_shades(&mut picture);
    let all = whole_pixmap(&rt, rt.alloc(), &picture);
    let pixels = all.taken.get(15..).unwrap_or(&[]);
    for (place, pixel) in pixels.chunks(3).enumerate() {
        let row = place / 160;
        check_same(&rt, ("pixel", place), pixel, shade(row).as_slice());
    }
}
