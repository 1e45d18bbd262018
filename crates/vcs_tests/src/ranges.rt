//! Pixels of a picture on some ranges of its columns.

ghost use Rattle.std.specs.Prelude.{◌≤◌};

use crate::checks::check_same;
use std::process::Abort;
use vcs_tia::Picture;

/// The first pixel of some, and the one after them.
pub type Range = (usize, usize);

/// Whether a column is in one of these ranges.
pub fn is_inside(x: usize, ranges: &[Range]) -> bool {
    let mut inside = false;
    for (from, to) in ranges {
        inside = inside || (*from <= x && x < *to);
    }
    inside
}

/// The row, column and byte of a pixel in the first rows that hasn't this byte on these ranges, or not 0 beside them, if there is
/// one.
fn odd_pixel(
    picture: &Picture,
    rows: usize,
    ranges: &[Range],
    byte: u8,
) -> Option<(usize, usize, u8)>
    requires { rows ≤ 210 }
{
    let mut odd = None;
    for row in 0..rows {
        for x in 0..160 {
            let wanted = if is_inside(x, ranges) { byte } else { 0 };
            let found = picture.pixel(row, x);
            if found != wanted {
                odd = Some((row, x, found));
            }
        }
    }
    odd
}

/// Fails where one of the 210 rows hasn't this byte on these ranges, or not 0 beside them.
pub fn check_pixels<R: Abort>(rt: &R, picture: &Picture, ranges: &[Range], byte: u8) {
    check_same(rt, "a pixel", odd_pixel(picture, 210, ranges, byte), None);
}

/// Fails where row 0 hasn't this byte on these ranges, or not 0 beside them.
pub fn check_first_row<R: Abort>(rt: &R, picture: &Picture, ranges: &[Range], byte: u8) {
    check_same(
        rt,
        "a pixel of row 0",
        odd_pixel(picture, 1, ranges, byte),
        None,
    );
}
