//! A plain search: every sequence is played from its beginning, and nothing is merged.

use crate::checks::expect_ok;
use std::alloc::Global;
use std::process::Abort;
use tas_search::Aim;
use vcs_machine::{Cart, Input, Meter, State, play_unseen};

/// How many sequences of three choices there are of each length.
pub const SIZES: [usize; 6] = [1, 3, 9, 27, 81, 243];

/// Number `number` of the sequences of `count` choices, in order.
pub fn sequence<R: Abort>(rt: &R, alloc: Global, number: usize, count: usize) -> Vec<usize> {
    let mut choices = Vec::new(alloc);
    let mut left = number;
    for _ in 0..count {
        expect_ok(rt, choices.push(left % 3));
        left /= 3;
    }
    choices.reverse();
    choices
}

/// The byte at 80 after a sequence of choices that are held for `hold` frames, where nothing halts before its last one.
pub fn counter_after(
    cart: &Cart,
    inputs: &[Input; 3],
    hold: usize,
    choices: &[usize],
) -> Option<u8> {
    let mut state = State::power_on(cart);
    for choice in choices {
        if state.halted().is_some() {
            return None;
        }
        for _ in 0..hold {
            let mut meter = Meter::new();
            let _ = play_unseen(cart, &mut state, inputs[*choice % 3], &mut meter);
        }
    }
    Some(state.ram()[0])
}

/// The numbers of all three choices.
pub const ALL: &[usize] = &[0, 1, 2];

/// Whether a sequence begins with one of these choices, or with none.
fn begins(choices: &[usize], firsts: &[usize]) -> bool {
    match choices.first() {
        Some(first) => firsts.iter().any(|one| one == first),
        None => true,
    }
}

/// The first of the shortest sequences after which the byte at 80 is a number, of those that begin with one of some choices and the empty
/// one.
pub fn shortest<R: Abort>(
    rt: &R,
    alloc: Global,
    cart: &Cart,
    inputs: &[Input; 3],
    hold: usize,
    number: u8,
    firsts: &[usize],
) -> Option<Vec<usize>> {
    for (count, size) in SIZES.iter().enumerate() {
        for k in 0..*size {
            let choices = sequence(rt, alloc, k, count);
            if begins(&choices, firsts)
                && counter_after(cart, inputs, hold, &choices) == Some(number)
            {
                return Some(choices);
            }
        }
    }
    None
}

/// The first of the sequences of five choices after which the byte at 80 is greatest, or least, of those that begin with one of some choices.
pub fn extreme<R: Abort>(
    rt: &R,
    alloc: Global,
    cart: &Cart,
    inputs: &[Input; 3],
    hold: usize,
    aim: Aim,
    firsts: &[usize],
) -> Option<Vec<usize>> {
    let mut best = None;
    let mut value: Option<u8> = None;
    for k in 0..243 {
        let choices = sequence(rt, alloc, k, 5);
        if !begins(&choices, firsts) {
            continue;
        }
        let Some(other) = counter_after(cart, inputs, hold, &choices) else {
            continue;
        };
        let is_better = match (value, aim) {
            (None, _) => true,
            (Some(known), Aim::Most) => other > known,
            (Some(known), Aim::Least) => other < known,
        };
        if is_better {
            value = Some(other);
            best = Some(choices);
        }
    }
    best
}
