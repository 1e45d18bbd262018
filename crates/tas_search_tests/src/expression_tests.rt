//! What expressions make of RAM.

use crate::checks::{check_same, check_that, expect_ok, expect_some};
use crate::goals::joined;
use std::process::Abort;
use tas_search::{Expression, Formula, Measure, Operator};

/// RAM with 12, 34 and 00 at its beginning and 99 at its end.
fn ram() -> [u8; 128] {
    let mut ram = [0u8; 128];
    ram[0] = 0x12;
    ram[1] = 0x34;
    ram[127] = 0x99;
    ram
}

/// The number that an expression makes of this RAM.
fn number<R: Abort>(rt: &R, expression: Expression) -> i64 {
    expect_some(rt, Formula::new(expression)).value(&ram())
}

#[test]
fn bytes_digits_and_pairs(rt: HostRuntime) {
    check_same(&rt, "number", number(&rt, Expression::Number(7)), 7);
    for (at, byte, digits, pair) in [
        (0x80u8, 0x12i64, 12i64, 0x3412i64),
        (0x81, 0x34, 34, 0x34),
        (0x82, 0, 0, 0),
        (0xff, 0x99, 99, 0x1299),
        (0x00, 0x12, 12, 0x3412),
    ] {
        check_same(&rt, at, number(&rt, Expression::Byte(at)), byte);
        check_same(&rt, at, number(&rt, Expression::Bcd(at)), digits);
        check_same(&rt, at, number(&rt, Expression::Pair(at)), pair);
    }
}

#[test]
fn not_is_one_of_zero(rt: HostRuntime) {
    let alloc = rt.alloc();
    for (at, wanted) in [(0x80u8, 0i64), (0x82, 1)] {
        let byte = expect_ok(&rt, Box::new(alloc, Expression::Byte(at)));
        check_same(&rt, at, number(&rt, Expression::Not(byte)), wanted);
    }
}

#[test]
fn operators(rt: HostRuntime) {
    let alloc = rt.alloc();
    // Of 12 and 34, of 12 twice, of 12 and 0, of 0 twice, all hexadecimal.
    for (operator, wanted) in [
        (Operator::Or, [1i64, 1, 1, 0]),
        (Operator::And, [1, 1, 0, 0]),
        (Operator::Equal, [0, 1, 0, 1]),
        (Operator::Unequal, [1, 0, 1, 0]),
        (Operator::Less, [1, 0, 0, 0]),
        (Operator::AtMost, [1, 1, 0, 1]),
        (Operator::Greater, [0, 0, 1, 0]),
        (Operator::AtLeast, [0, 1, 1, 1]),
        (Operator::Plus, [70, 36, 18, 0]),
        (Operator::Minus, [-34, 0, 18, 0]),
        (Operator::Times, [936, 324, 0, 0]),
    ] {
        for (i, (a, b)) in [(0x80u8, 0x81u8), (0x80, 0x80), (0x80, 0x82), (0x82, 0x82)]
            .iter()
            .enumerate()
        {
            let both = joined(
                &rt,
                alloc,
                operator,
                Expression::Byte(*a),
                Expression::Byte(*b),
            );
            check_same(
                &rt,
                (operator, i),
                Some(number(&rt, both)),
                wanted.get(i).copied(),
            );
        }
    }
}

#[test]
fn a_formula_has_a_weight_below_the_limit(rt: HostRuntime) {
    let alloc = rt.alloc();
    // The weight of a number is one more than it, and that of a product is their product; the limit is 2 to the power of 63.
    for (a, is_formula) in [
        (0x7fff_fffeu32, true),
        (0x7fff_ffff, false),
        (0xffff_ffff, false),
    ] {
        let product = joined(
            &rt,
            alloc,
            Operator::Times,
            Expression::Number(a),
            Expression::Number(0xffff_ffff),
        );
        check_that(&rt, a, Formula::new(product).is_some() == is_formula);
    }
}
