//! Searches against plain ones.

use crate::checks::{check_same, check_that, expect_ok};
use crate::goals::{COUNTER, HIDDEN, TRAP, cart_of, counter, counter_is, limits, three_choices};
use crate::plain::{ALL, extreme, shortest};
use std::alloc::Global;
use std::io::sink;
use std::process::Abort;
use std::thread::Threads;
use std::time::Clock;
use tas_movie::{Edit, Inputs, Movie, apply, check};
use tas_search::{Aim, Found, Space, find_extreme, find_shortest, state_at};
use vcs_machine::{Cart, State};

/// The choices of an answer, where it is a best one.
fn choices_of(found: &Found) -> Option<&[usize]> {
    match found {
        Found::Best(choices) => Some(choices.as_slice()),
        _ => None,
    }
}

/// Whether two answers have the same choices, or none.
pub fn is_same(found: &Found, wanted: &Option<Vec<usize>>) -> bool {
    match wanted {
        Some(choices) => choices_of(found) == Some(choices.as_slice()),
        None => matches!(found, Found::Nothing),
    }
}

/// Searches for each number, each choice held for `hold` frames, and compares with the plain search.
fn check_numbers<R: Abort + Threads + Clock + Sync>(
    rt: &R,
    alloc: Global,
    cart: &Cart,
    hold: usize,
) {
    let inputs = three_choices();
    let space = Space::new(cart, State::power_on(cart), &inputs, hold);
    for number in [0u8, 1, 2, 3, 4, 5, 252, 253, 255] {
        let goal = counter_is(rt, alloc, u32::from(number));
        let found = expect_ok(
            rt,
            find_shortest(
                rt,
                alloc,
                &space,
                &goal,
                limits(5, 100),
                &mut sink(),
                &mut sink(),
            ),
        );
        let wanted = shortest(rt, alloc, cart, &inputs, hold, number, ALL);
        check_that(rt, number, is_same(&found, &wanted));
    }
}

#[test]
fn the_shortest_is_that_of_the_plain_search(rt: HostRuntime) {
    let alloc = rt.alloc();
    for hold in [1, 2] {
        check_numbers(&rt, alloc, &cart_of(&rt, alloc, COUNTER), hold);
    }
}

#[test]
fn a_halt_ends_a_sequence(rt: HostRuntime) {
    let alloc = rt.alloc();
    for hold in [1, 2] {
        check_numbers(&rt, alloc, &cart_of(&rt, alloc, TRAP), hold);
    }
}

#[test]
fn the_greatest_is_that_of_the_plain_search(rt: HostRuntime) {
    let alloc = rt.alloc();
    for program in [COUNTER, TRAP] {
        let cart = cart_of(&rt, alloc, program);
        let inputs = three_choices();
        let space = Space::new(&cart, State::power_on(&cart), &inputs, 1);
        let found = expect_ok(
            &rt,
            find_extreme(
                &rt,
                alloc,
                &space,
                Aim::Most,
                &counter(&rt),
                limits(5, 100),
                &mut sink(),
                &mut sink(),
            ),
        );
        check_that(
            &rt,
            program.len(),
            is_same(
                &found,
                &extreme(&rt, alloc, &cart, &inputs, 1, Aim::Most, ALL),
            ),
        );
    }
}

#[test]
fn a_search_stops_where_there_are_too_many_states(rt: HostRuntime) {
    let alloc = rt.alloc();
    let cart = cart_of(&rt, alloc, COUNTER);
    let inputs = three_choices();
    let space = Space::new(&cart, State::power_on(&cart), &inputs, 1);
    let goal = counter_is(&rt, alloc, 4);
    // The first frame is a lag frame; after two there are three numbers, and two more after each further one.
    for (states, layer) in [(2, 2), (3, 3), (4, 3), (5, 4), (7, 5)] {
        let found = expect_ok(
            &rt,
            find_shortest(
                &rt,
                alloc,
                &space,
                &goal,
                limits(5, states),
                &mut sink(),
                &mut sink(),
            ),
        );
        check_that(
            &rt,
            states,
            matches!(found, Found::Stopped(at) if at == layer),
        );
    }
    let found = expect_ok(
        &rt,
        find_shortest(
            &rt,
            alloc,
            &space,
            &goal,
            limits(5, 9),
            &mut sink(),
            &mut sink(),
        ),
    );
    check_same(
        &rt,
        9,
        choices_of(&found).map(|choices| choices.len()),
        Some(5),
    );
}

#[test]
fn the_least_is_the_first_of_its_equals(rt: HostRuntime) {
    let alloc = rt.alloc();
    let cart = cart_of(&rt, alloc, COUNTER);
    let inputs = three_choices();
    let space = Space::new(&cart, State::power_on(&cart), &inputs, 1);
    let found = expect_ok(
        &rt,
        find_extreme(
            &rt,
            alloc,
            &space,
            Aim::Least,
            &counter(&rt),
            limits(3, 100),
            &mut sink(),
            &mut sink(),
        ),
    );
    check_that(
        &rt,
        "least",
        choices_of(&found) == Some([0, 0, 0].as_slice()),
    );
}

#[test]
fn a_choice_is_held(rt: HostRuntime) {
    let alloc = rt.alloc();
    let cart = cart_of(&rt, alloc, COUNTER);
    let inputs = three_choices();
    let space = Space::new(&cart, State::power_on(&cart), &inputs, 3);
    // Two of the first three frames count, as the first one is a lag frame, and then three of each three.
    for (number, wanted) in [
        (2, [1].as_slice()),
        (5, &[1, 1]),
        (254, &[2]),
        (255, &[1, 2]),
    ] {
        let goal = counter_is(&rt, alloc, number);
        let found = expect_ok(
            &rt,
            find_shortest(
                &rt,
                alloc,
                &space,
                &goal,
                limits(4, 100),
                &mut sink(),
                &mut sink(),
            ),
        );
        check_that(&rt, number, choices_of(&found) == Some(wanted));
    }
    let never = expect_ok(
        &rt,
        find_shortest(
            &rt,
            alloc,
            &space,
            &counter_is(&rt, alloc, 1),
            limits(1, 100),
            &mut sink(),
            &mut sink(),
        ),
    );
    check_that(&rt, 1, matches!(never, Found::Nothing));
}

#[test]
fn a_search_starts_in_a_movie(rt: HostRuntime) {
    let alloc = rt.alloc();
    let cart = cart_of(&rt, alloc, COUNTER);
    let inputs = three_choices();
    let mut movie = expect_ok(&rt, Movie::new(alloc, &cart));
    let right = expect_ok(&rt, Inputs::repeated(alloc, inputs[1], 3));
    let insert = Edit::Insert {
        at: 0,
        inputs: right,
    };
    expect_ok(&rt, check(&movie, &insert));
    apply(&mut movie, &insert);
    for (from, number) in [(0, 0u8), (1, 0), (2, 1), (3, 2), (9, 2)] {
        check_same(&rt, from, state_at(&movie, from).ram()[0], number);
    }
    let space = Space::new(movie.cart(), state_at(&movie, 3), &inputs, 1);
    let found = expect_ok(
        &rt,
        find_shortest(
            &rt,
            alloc,
            &space,
            &counter_is(&rt, alloc, 4),
            limits(5, 100),
            &mut sink(),
            &mut sink(),
        ),
    );
    check_that(&rt, 4, choices_of(&found) == Some([1, 1].as_slice()));
}

#[test]
fn states_of_equal_ram_are_told_apart(rt: HostRuntime) {
    let alloc = rt.alloc();
    let cart = cart_of(&rt, alloc, HIDDEN);
    let inputs = three_choices();
    let space = Space::new(&cart, State::power_on(&cart), &inputs, 1);
    let goal = counter_is(&rt, alloc, 77);
    // As many states as there are numbers of the counter in RAM.
    for (states, layer) in [(2, 2), (4, 3), (6, 4), (8, 5)] {
        let found = expect_ok(
            &rt,
            find_shortest(
                &rt,
                alloc,
                &space,
                &goal,
                limits(5, states),
                &mut sink(),
                &mut sink(),
            ),
        );
        check_that(
            &rt,
            states,
            matches!(found, Found::Stopped(at) if at == layer),
        );
    }
    let found = expect_ok(
        &rt,
        find_shortest(
            &rt,
            alloc,
            &space,
            &goal,
            limits(5, 9),
            &mut sink(),
            &mut sink(),
        ),
    );
    check_that(&rt, 9, matches!(found, Found::Nothing));
}

#[test]
fn a_search_for_the_greatest_stops_too(rt: HostRuntime) {
    let alloc = rt.alloc();
    let cart = cart_of(&rt, alloc, COUNTER);
    let inputs = three_choices();
    let space = Space::new(&cart, State::power_on(&cart), &inputs, 1);
    for (states, layer) in [(0, 1), (2, 2), (4, 3), (8, 5)] {
        let found = expect_ok(
            &rt,
            find_extreme(
                &rt,
                alloc,
                &space,
                Aim::Most,
                &counter(&rt),
                limits(5, states),
                &mut sink(),
                &mut sink(),
            ),
        );
        check_that(
            &rt,
            states,
            matches!(found, Found::Stopped(at) if at == layer),
        );
    }
    let found = expect_ok(
        &rt,
        find_extreme(
            &rt,
            alloc,
            &space,
            Aim::Most,
            &counter(&rt),
            limits(5, 9),
            &mut sink(),
            &mut sink(),
        ),
    );
    // 255, which is one less than 0.
    check_that(
        &rt,
        9,
        choices_of(&found) == Some([0, 0, 0, 0, 2].as_slice()),
    );
}

#[test]
fn an_empty_layer_ends_a_search(rt: HostRuntime) {
    let alloc = rt.alloc();
    let cart = cart_of(&rt, alloc, TRAP);
    let inputs = three_choices();
    // To the right alone: the number is 2 after three frames, and there it halts.
    let right = Space::new(&cart, State::power_on(&cart), &inputs[1..2], 1);
    let none = Space::new(&cart, State::power_on(&cart), &[], 1);
    let last = expect_ok(
        &rt,
        find_extreme(
            &rt,
            alloc,
            &right,
            Aim::Least,
            &counter(&rt),
            limits(3, 1),
            &mut sink(),
            &mut sink(),
        ),
    );
    check_that(&rt, 3, choices_of(&last) == Some([0, 0, 0].as_slice()));
    for count in [4, usize::MAX] {
        for space in [&right, &none] {
            let best = expect_ok(
                &rt,
                find_extreme(
                    &rt,
                    alloc,
                    space,
                    Aim::Least,
                    &counter(&rt),
                    limits(count, 1),
                    &mut sink(),
                    &mut sink(),
                ),
            );
            check_that(&rt, count, matches!(best, Found::Nothing));
            let goal = counter_is(&rt, alloc, 9);
            let found = expect_ok(
                &rt,
                find_shortest(
                    &rt,
                    alloc,
                    space,
                    &goal,
                    limits(count, 1),
                    &mut sink(),
                    &mut sink(),
                ),
            );
            check_that(&rt, count, matches!(found, Found::Nothing));
        }
    }
}

/// The eight bytes of the next number of a linear congruential generator.
fn next_bytes(seed: &mut u64) -> [u8; 8] {
    *seed = seed
        .wrapping_mul(6_364_136_223_846_793_005)
        .wrapping_add(1_442_695_040_888_963_407);
    seed.to_le_bytes()
}

/// The counter's program, with two bytes changed.
fn changed_program<R: Abort>(rt: &R, alloc: Global, seed: &mut u64) -> Vec<u8> {
    let mut program = expect_ok(rt, Vec::from_slice(alloc, COUNTER));
    for _ in 0..2 {
        let bytes = next_bytes(seed);
        if let Some(byte) = program.get_mut(usize::from(bytes[7] % 32)) {
            *byte = bytes[6];
        }
    }
    program
}

#[test]
fn changed_programs(rt: HostRuntime) {
    let alloc = rt.alloc();
    let inputs = three_choices();
    let mut seed = 1u64;
    let mut chosen = 0u32;
    for case in 0..4u32 {
        let program = changed_program(&rt, alloc, &mut seed);
        let cart = cart_of(&rt, alloc, program.as_slice());
        let hold = 1 + (case % 2) as usize;
        let space = Space::new(&cart, State::power_on(&cart), &inputs, hold);
        let number = next_bytes(&mut seed)[5] % 4;
        let goal = counter_is(&rt, alloc, u32::from(number));
        let found = expect_ok(
            &rt,
            find_shortest(
                &rt,
                alloc,
                &space,
                &goal,
                limits(5, 1_000),
                &mut sink(),
                &mut sink(),
            ),
        );
        let wanted = shortest(&rt, alloc, &cart, &inputs, hold, number, ALL);
        check_that(&rt, case, is_same(&found, &wanted));
        for aim in [Aim::Most, Aim::Least] {
            let best = expect_ok(
                &rt,
                find_extreme(
                    &rt,
                    alloc,
                    &space,
                    aim,
                    &counter(&rt),
                    limits(5, 1_000),
                    &mut sink(),
                    &mut sink(),
                ),
            );
            let wanted = extreme(&rt, alloc, &cart, &inputs, hold, aim, ALL);
            check_that(&rt, case, is_same(&best, &wanted));
            if choices_of(&best).is_some_and(|choices| choices.iter().any(|k| *k > 0)) {
                chosen = chosen.saturating_add(1);
            }
        }
    }
    // Not every answer is that of programs which make nothing of their choices.
    check_that(&rt, chosen, chosen >= 1);
}
