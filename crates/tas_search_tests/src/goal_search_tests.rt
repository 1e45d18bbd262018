//! Searches for goals by their texts, and the changes that write what was found into a movie.

use crate::checks::{check_same, check_that, expect_ok, expect_some};
use crate::goals::{COUNTER, cart_of, limits, still, three_choices};
use std::alloc::Global;
use std::io::sink;
use std::process::Abort;
use std::thread::Threads;
use std::time::Clock;
use tas_language::{Change, change_line, read_change};
use tas_movie::{Edit, Inputs, Movie, apply, check, print_frame};
use tas_search::{
    Found, SearchFault, SearchRange, Space, SpacePart, find_goal, read_goal, read_names,
    search_movie, state_at, stick_choices,
};
use vcs_machine::{Input, State};

/// The choices of the best sequence, where there is one.
fn found<R: Abort + Threads + Clock + Sync>(
    rt: &R,
    alloc: Global,
    space: &Space<'_, Global>,
    text: &[u8],
) -> Option<Vec<usize>> {
    let names = expect_ok(rt, read_names(alloc, b"n 80\n"));
    let goal = expect_ok(rt, read_goal(alloc, names.as_slice(), text));
    match expect_ok(
        rt,
        find_goal(
            rt,
            alloc,
            space,
            &goal,
            limits(4, 100),
            &mut sink(),
            &mut sink(),
        ),
    ) {
        Found::Best(choices) => Some(choices),
        _ => None,
    }
}

#[test]
fn goals_are_searched_for(rt: HostRuntime) {
    let alloc = rt.alloc();
    let cart = cart_of(&rt, alloc, COUNTER);
    let inputs = three_choices();
    let space = Space::new(&cart, State::power_on(&cart), &inputs, 1);
    // The first frame is a lag frame.
    for (case, (text, wanted)) in [
        (b"reach n == 2".as_slice(), Some([0, 1, 1].as_slice())),
        (b"reach ( n == 2 ) or ( n == 255 )", Some(&[0, 2])),
        (b"reach n == 9", None),
        (b"most n", Some(&[0, 0, 0, 2])),
        (b"most ( n < 100 ) * n", Some(&[0, 1, 1, 1])),
        (b"least ( n > 100 ) * n", Some(&[0, 0, 0, 0])),
    ]
    .iter()
    .enumerate()
    {
        let choices = found(&rt, alloc, &space, text);
        check_that(&rt, case, choices.as_ref().map(|c| c.as_slice()) == *wanted);
    }
}

/// The edit that a change asks for.
fn edit_of<R: Abort>(rt: &R, alloc: Global, change: Change) -> Edit {
    match change {
        Change::Insert { at, count, input } => {
            let inputs = expect_ok(rt, Inputs::repeated(alloc, input, count));
            Edit::Insert { at, inputs }
        }
        Change::Replace { at, count, input } => {
            let inputs = expect_ok(rt, Inputs::repeated(alloc, input, count));
            Edit::Replace { at, inputs }
        }
        Change::Delete { at, count } => Edit::Delete { at, count },
    }
}

/// Makes changes, each one that its line says.
fn make<R: Abort>(rt: &R, alloc: Global, movie: &mut Movie, changes: &[Change]) {
    for change in changes {
        let line = expect_ok(rt, change_line(alloc, *change));
        let said = expect_some(rt, line.as_slice().strip_suffix(b"\n".as_slice()));
        let edit = edit_of(rt, alloc, expect_some(rt, read_change(said)));
        expect_ok(rt, check(movie, &edit));
        apply(movie, &edit);
    }
}

/// Searches a movie of `len` frames from frame 3 on for what a text asks, writes what was found into it, and plays it to the end of that:
/// the number at 80 then.
fn played<R: Abort + Threads + Clock + Sync>(
    rt: &R,
    alloc: Global,
    len: usize,
    text: &[u8],
    hold: usize,
) -> u8 {
    let mut movie = still(rt, alloc, COUNTER, len);
    let names = expect_ok(rt, read_names(alloc, b"n 80\n"));
    let goal = expect_ok(rt, read_goal(alloc, names.as_slice(), text));
    let range = SearchRange {
        from: 3,
        count: 3,
        hold,
        states: 100,
        workers: 3,
        part: SpacePart::whole(),
    };
    let (found, changes) = expect_ok(
        rt,
        search_movie(
            rt,
            alloc,
            &movie,
            &three_choices(),
            &goal,
            range,
            &mut sink(),
            &mut sink(),
        ),
    );
    let count = match &found {
        Found::Best(choices) => choices.len(),
        _ => 0,
    };
    make(rt, alloc, &mut movie, changes.as_slice());
    let end = count.saturating_mul(hold).saturating_add(3);
    check_same(rt, len, movie.len(), len.max(end));
    for input in movie.inputs().iter().skip(end) {
        check_that(rt, len, *input == Input::none());
    }
    state_at(&movie, end).ram()[0]
}

#[test]
fn what_was_found_is_written_into_a_movie(rt: HostRuntime) {
    let alloc = rt.alloc();
    for (case, (text, hold, wanted)) in [
        (b"reach n == 4".as_slice(), 2usize, 4u8),
        (b"reach n == 254", 1, 254),
        (b"reach ( n > 1 ) and ( n < 200 )", 1, 2),
        (b"most ( n < 100 ) * n", 2, 6),
        (b"most ( n > 100 ) * ( 256 - n )", 2, 250),
        (b"least n + ( 256 * ( n < 100 ) )", 1, 253),
    ]
    .iter()
    .enumerate()
    {
        for len in [3usize, 5, 7, 20] {
            check_same(
                &rt,
                (case, len),
                played(&rt, alloc, len, text, *hold),
                *wanted,
            );
        }
    }
}

/// How the search for `n == 4` over a movie of five frames ends: how many choices were found and how many changes, or the fault.
fn searched<R: Abort + Threads + Clock + Sync>(
    rt: &R,
    alloc: Global,
    from: usize,
    count: usize,
    hold: usize,
    part: SpacePart,
) -> Result<(Option<usize>, usize), SearchFault> {
    let movie = still(rt, alloc, COUNTER, 5);
    let names = expect_ok(rt, read_names(alloc, b"n 80\n"));
    let goal = expect_ok(rt, read_goal(alloc, names.as_slice(), b"reach n == 4"));
    let range = SearchRange {
        from,
        count,
        hold,
        states: 100,
        workers: 3,
        part,
    };
    let (found, changes) = search_movie(
        rt,
        alloc,
        &movie,
        &three_choices(),
        &goal,
        range,
        &mut sink(),
        &mut sink(),
    )?;
    let count = match &found {
        Found::Best(choices) => Some(choices.len()),
        _ => None,
    };
    Ok((count, changes.len()))
}

#[test]
fn a_movie_is_searched(rt: HostRuntime) {
    let alloc = rt.alloc();
    for (case, (from, count, hold, wanted)) in [
        (5usize, 4usize, 1usize, Ok((Some(4usize), 5usize))),
        (1, 4, 1, Ok((Some(4), 4))),
        (2, 4, 2, Ok((Some(2), 3))),
        (5, 3, 1, Ok((None, 0))),
        (6, 3, 1, Err(SearchFault::Short(5))),
        (6, 3, 0, Err(SearchFault::Short(5))),
        (5, 262_140, 1, Err(SearchFault::Long)),
        (5, usize::MAX, 2, Err(SearchFault::Long)),
        (0, 100, 0, Err(SearchFault::Hold)),
        (5, usize::MAX, 0, Err(SearchFault::Hold)),
    ]
    .iter()
    .enumerate()
    {
        let found = searched(&rt, alloc, *from, *count, *hold, SpacePart::whole());
        check_that(&rt, case, found == *wanted);
    }
}

#[test]
fn a_part_of_a_movie_s_space_is_searched(rt: HostRuntime) {
    let alloc = rt.alloc();
    // With three parts of three choices the second one begins with the stick to the right, and the third one with it to the left.
    for (case, (from, count, hold, (number, of), wanted)) in [
        (
            1usize,
            4usize,
            1usize,
            (2usize, 3usize),
            Ok((Some(4usize), 4usize)),
        ),
        (1, 4, 1, (1, 3), Ok((None, 0))),
        (1, 6, 1, (3, 3), Ok((Some(6), 7))),
        (1, 4, 1, (1, 4), Ok((None, 0))),
        (1, 4, 1, (3, 4), Ok((Some(4), 4))),
        (1, 4, 1, (0, 3), Err(SearchFault::Part)),
        (1, 4, 1, (4, 3), Err(SearchFault::Part)),
        (1, 4, 1, (0, 0), Err(SearchFault::Part)),
        (1, 4, 1, (1, 0), Err(SearchFault::Part)),
        (5, usize::MAX, 1, (2, 1), Err(SearchFault::Part)),
        (5, usize::MAX, 0, (2, 1), Err(SearchFault::Hold)),
        (6, usize::MAX, 0, (2, 1), Err(SearchFault::Short(5))),
        (
            5,
            usize::MAX,
            1,
            (usize::MAX, usize::MAX),
            Err(SearchFault::Long),
        ),
    ]
    .iter()
    .enumerate()
    {
        let part = SpacePart {
            number: *number,
            of: *of,
        };
        let found = searched(&rt, alloc, *from, *count, *hold, part);
        check_that(&rt, case, found == *wanted);
    }
}

#[test]
fn choices_of_the_stick(rt: HostRuntime) {
    let choices = stick_choices();
    for (k, wanted) in [
        b"..... ..... .....",
        b"R.... ..... .....",
        b".L... ..... .....",
        b"..D.. ..... .....",
        b"...U. ..... .....",
        b"R.D.. ..... .....",
        b"R..U. ..... .....",
        b".LD.. ..... .....",
        b".L.U. ..... .....",
        b"....F ..... .....",
        b"R...F ..... .....",
        b".L..F ..... .....",
        b"..D.F ..... .....",
        b"...UF ..... .....",
        b"R.D.F ..... .....",
        b"R..UF ..... .....",
        b".LD.F ..... .....",
        b".L.UF ..... .....",
    ]
    .iter()
    .enumerate()
    {
        let found = choices.get(k).map(|choice| print_frame(*choice));
        check_that(&rt, k, found == Some(**wanted));
    }
    check_same(&rt, "count", choices.len(), 18);
}
