//! Searches in parts: each part against a plain search of it, and the best of the parts against a search of the whole.

use crate::checks::{check_that, expect_ok, expect_some};
use crate::goals::{COUNTER, TRAP, cart_of, counter, counter_is, limits, three_choices};
use crate::plain::{ALL, counter_after, extreme, shortest};
use crate::search_tests::is_same;
use std::alloc::Global;
use std::io::sink;
use std::process::Abort;
use std::thread::Threads;
use std::time::Clock;
use tas_search::{Aim, Found, Space, SpacePart, find_extreme, find_shortest};
use vcs_machine::{Cart, Input, State};

/// Of three choices, those with which the sequences of each part begin.
static FIRSTS: [&[&[usize]]; 6] = [
    &[ALL],
    &[&[0], &[1, 2]],
    &[&[0], &[1], &[2]],
    &[&[], &[0], &[1], &[2]],
    &[&[], &[0], &[], &[1], &[2]],
    &[&[], &[], &[0], &[], &[1], &[], &[2]],
];

/// A part of the space of sequences from power-on.
fn part_of<'a, R: Abort>(
    rt: &R,
    cart: &'a Cart,
    inputs: &'a [Input; 3],
    number: usize,
    of: usize,
) -> Space<'a, Global> {
    let space = Space::new(cart, State::power_on(cart), inputs, 1);
    expect_some(rt, space.in_part(SpacePart { number, of }))
}

/// The first of the shortest sequences of a part after which the byte at 80 is a number.
fn found<R: Abort + Threads + Clock + Sync>(
    rt: &R,
    alloc: Global,
    space: &Space<'_, Global>,
    number: u8,
) -> Found {
    let goal = counter_is(rt, alloc, u32::from(number));
    let limits = limits(5, 100);
    let found = find_shortest(rt, alloc, space, &goal, limits, &mut sink(), &mut sink());
    expect_ok(rt, found)
}

/// The first of the sequences of a part after which the byte at 80 is greatest, or least.
fn found_best<R: Abort + Threads + Clock + Sync>(
    rt: &R,
    alloc: Global,
    space: &Space<'_, Global>,
    aim: Aim,
) -> Found {
    let value = counter(rt);
    let limits = limits(5, 100);
    let found = find_extreme(
        rt,
        alloc,
        space,
        aim,
        &value,
        limits,
        &mut sink(),
        &mut sink(),
    );
    expect_ok(rt, found)
}

/// Compares each part's shortest sequence with that of a plain search, and that of the first part whose one has the fewest choices with that
/// of the whole.
fn check_shortest<R: Abort + Threads + Clock + Sync>(
    rt: &R,
    alloc: Global,
    cart: &Cart,
    number: u8,
) {
    let inputs = three_choices();
    let whole = shortest(rt, alloc, cart, &inputs, 1, number, ALL);
    for parts in FIRSTS.iter() {
        let mut best: Option<Vec<usize>> = None;
        for (before, firsts) in parts.iter().enumerate() {
            let part = part_of(rt, cart, &inputs, before.saturating_add(1), parts.len());
            let found = found(rt, alloc, &part, number);
            let wanted = shortest(rt, alloc, cart, &inputs, 1, number, firsts);
            check_that(rt, (parts.len(), before), is_same(&found, &wanted));
            if let Found::Best(choices) = found {
                let is_first = match &best {
                    Some(known) => choices.len() < known.len(),
                    None => true,
                };
                if is_first {
                    best = Some(choices);
                }
            }
        }
        check_that(rt, (parts.len(), number), best == whole);
    }
}

#[test]
fn the_best_part_has_the_shortest(rt: HostRuntime) {
    let alloc = rt.alloc();
    for program in [COUNTER, TRAP] {
        let cart = cart_of(&rt, alloc, program);
        for number in [0u8, 1, 2, 4, 253, 7] {
            check_shortest(&rt, alloc, &cart, number);
        }
    }
}

/// Compares each part's best sequence with that of a plain search, and that of the first part whose value is best with that of the whole.
fn check_best<R: Abort + Threads + Clock + Sync>(rt: &R, alloc: Global, cart: &Cart, aim: Aim) {
    let inputs = three_choices();
    let whole = extreme(rt, alloc, cart, &inputs, 1, aim, ALL);
    for parts in FIRSTS.iter() {
        let mut best: Option<(u8, Vec<usize>)> = None;
        for (before, firsts) in parts.iter().enumerate() {
            let part = part_of(rt, cart, &inputs, before.saturating_add(1), parts.len());
            let found = found_best(rt, alloc, &part, aim);
            let wanted = extreme(rt, alloc, cart, &inputs, 1, aim, firsts);
            check_that(rt, (parts.len(), before), is_same(&found, &wanted));
            if let Found::Best(choices) = found {
                let value = expect_some(rt, counter_after(cart, &inputs, 1, &choices));
                let is_better = match (&best, aim) {
                    (None, _) => true,
                    (Some((known, _)), Aim::Most) => value > *known,
                    (Some((known, _)), Aim::Least) => value < *known,
                };
                if is_better {
                    best = Some((value, choices));
                }
            }
        }
        let best = best.map(|(_, choices)| choices);
        check_that(rt, parts.len(), best == whole);
    }
}

#[test]
fn the_best_part_has_the_greatest_and_the_least(rt: HostRuntime) {
    let alloc = rt.alloc();
    for program in [COUNTER, TRAP] {
        let cart = cart_of(&rt, alloc, program);
        for aim in [Aim::Most, Aim::Least] {
            check_best(&rt, alloc, &cart, aim);
        }
    }
}

#[test]
fn there_is_no_part_but_these(rt: HostRuntime) {
    let alloc = rt.alloc();
    let cart = cart_of(&rt, alloc, COUNTER);
    let inputs = three_choices();
    for (number, of, is_part) in [
        (0usize, 0usize, false),
        (0, 1, false),
        (1, 0, false),
        (1, 1, true),
        (2, 1, false),
        (3, 3, true),
        (4, 3, false),
        (usize::MAX, usize::MAX, true),
    ] {
        let space = Space::new(&cart, State::power_on(&cart), &inputs, 1);
        let part = space.in_part(SpacePart { number, of });
        check_that(&rt, (number, of), part.is_some() == is_part);
    }
}
