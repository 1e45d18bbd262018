//! Cartridges, choices and goals of the tests.

use crate::checks::{expect_ok, expect_some};
use std::alloc::Global;
use std::process::Abort;
use tas_movie::{Edit, Inputs, Movie, apply, check};
use tas_search::{Expression, Formula, Limits, Operator};
use vcs_machine::{Cart, Input};

/// Each frame but the first counts the byte at 80 up if the left stick is to the right, and down if it is to the left. Every frame takes one
/// line, so that other ways to a number lead to the same state.
pub const COUNTER: &[u8] =
    b"\x18\xa9\x02\x85\x00\xa9\x00\x85\x00\xad\x80\x02\x0a\xb0\x02\xe6\x80\x0a\xb0\x02\xc6\x80\x85\x02\x4c\x00\xf0";

/// The same, but it halts where the number gets 2.
pub const TRAP: &[u8] =
    b"\x18\xa9\x02\x85\x00\xa9\x00\x85\x00\xad\x80\x02\x0a\xb0\x02\xe6\x80\x0a\xb0\x02\xc6\x80\xa5\x80\xc9\x02\xf0\x05\x85\x02\x4c\x00\xf0\x02";

/// The counter, but in register X: all its states have the same RAM.
pub const HIDDEN: &[u8] =
    b"\x18\xa9\x02\x85\x00\xa9\x00\x85\x00\xad\x80\x02\x0a\xb0\x01\xe8\x0a\xb0\x01\xca\x85\x02\x4c\x00\xf0";

/// The cartridge with a program at F000, where execution starts too; all other bytes are 0.
pub fn cart_of<R: Abort>(rt: &R, alloc: Global, program: &[u8]) -> Cart {
    let mut image = [0u8; 4096];
    for (at, byte) in program.iter().enumerate() {
        if at < 4096 {
            image[at] = *byte;
        }
    }
    image[4093] = 0xF0;
    expect_ok(rt, Cart::from_bytes(alloc, &image))
}

/// Nothing, the left stick to the right, and to the left.
pub fn three_choices() -> [Input; 3] {
    let mut choices = [Input::none(), Input::none(), Input::none()];
    choices[1].left.right = true;
    choices[2].left.left = true;
    choices
}

/// A movie of the cartridge with a program and of so many frames in which nothing is pressed.
pub fn still<R: Abort>(rt: &R, alloc: Global, program: &[u8], len: usize) -> Movie {
    let mut movie = expect_ok(rt, Movie::new(alloc, &cart_of(rt, alloc, program)));
    let frames = expect_ok(rt, Inputs::repeated(alloc, Input::none(), len));
    let insert = Edit::Insert {
        at: 0,
        inputs: frames,
    };
    expect_ok(rt, check(&movie, &insert));
    apply(&mut movie, &insert);
    movie
}

/// The byte at 80.
pub fn counter<R: Abort>(rt: &R) -> Formula {
    expect_some(rt, Formula::new(Expression::Byte(0x80)))
}

/// Two expressions, joined by an operator.
pub fn joined<R: Abort>(
    rt: &R,
    alloc: Global,
    operator: Operator,
    a: Expression,
    b: Expression,
) -> Expression {
    let left = expect_ok(rt, Box::new(alloc, a));
    let right = expect_ok(rt, Box::new(alloc, b));
    Expression::Both(operator, left, right)
}

/// Whether the byte at 80 is a number.
pub fn counter_is<R: Abort>(rt: &R, alloc: Global, number: u32) -> Formula {
    let byte = Expression::Byte(0x80);
    let wanted = Expression::Number(number);
    expect_some(
        rt,
        Formula::new(joined(rt, alloc, Operator::Equal, byte, wanted)),
    )
}

/// A search of this many choices, that keeps this many states of each number of choices, by two workers.
pub fn limits(count: usize, states: usize) -> Limits {
    Limits {
        count,
        states,
        workers: 2,
    }
}
