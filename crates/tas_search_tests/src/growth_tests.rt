//! Searches to which each growth of their memory is refused in turn: what is read of names, choices and goals, layers, lists of workers, links,
//! the answer and its changes, and the lines of the report.

use crate::checks::{check_same, check_that, expect_ok};
use crate::goals::{COUNTER, cart_of};
use crate::report_tests::timeless;
use refusals::Refusing;
use std::alloc::Global;
use std::process::Abort;
use std::thread::Threads;
use std::time::Clock;
use tas_movie::Movie;
use tas_search::{
    ChoicesError, Found, GoalFault, NamesError, SearchFault, SearchRange, SpacePart, read_choices,
    read_goal, read_names, search_movie,
};
use vcs_machine::Cart;

/// The allocator of a search.
type Heap = Refusing<Global>;

/// No growth of a search here has this number.
const NEVER: u64 = 1_000_000_000;

/// No search here grows so often.
const MOST: u64 = 1_000;

/// Nothing, right and left, in a choices file.
const CHOICES: &[u8] = b"..... ..... .....\nR.... ..... .....\n.L... ..... .....\n";

/// What a search is asked for: its goal, for how many frames a choice is held, how many workers it has and which part it is.
#[derive(Clone, Copy, Debug)]
struct Asked<'a> {
    goal: &'a [u8],
    hold: usize,
    workers: usize,
    part: SpacePart,
}

/// How a search ended: the choices of the best sequence, if it wasn't refused memory, and what it reported.
#[derive(Drop)]
struct End {
    found: Option<Vec<usize>>,
    report: Vec<u8>,
}

/// The numbers of a sequence that was found, or none.
fn numbers_of<R: Abort>(rt: &R, alloc: Global, found: &Found<&Heap>) -> Vec<usize> {
    match found {
        Found::Best(choices) => expect_ok(rt, Vec::from_slice(alloc, choices.as_slice())),
        _ => Vec::new(alloc),
    }
}

/// The choices of the best sequence of a search with memory of this heap; nothing where that was refused.
fn found<'h, R: Abort + Threads + Clock + Sync>(
    rt: &R,
    alloc: Global,
    heap: &'h Heap,
    movie: &Movie<&'h Heap>,
    asked: Asked<'_>,
    report: &mut Vec<u8>,
) -> Option<Vec<usize>> {
    let names = match read_names(heap, b"n 80\n") {
        Ok(names) => names,
        Err(error) => {
            check_that(rt, "names", matches!(error, NamesError::Memory));
            return None;
        }
    };
    let choices = match read_choices(heap, CHOICES) {
        Ok(choices) => choices,
        Err(error) => {
            check_that(rt, "choices", matches!(error, ChoicesError::Memory));
            return None;
        }
    };
    let goal = match read_goal(heap, names.as_slice(), asked.goal) {
        Ok(goal) => goal,
        Err(fault) => {
            check_that(rt, "goal", matches!(fault, GoalFault::Memory));
            return None;
        }
    };
    let range = SearchRange {
        from: 0,
        count: 4,
        hold: asked.hold,
        states: 100,
        workers: asked.workers,
        part: asked.part,
    };
    let mut shown = Vec::new(alloc);
    let end = search_movie(
        rt,
        heap,
        movie,
        choices.as_slice(),
        &goal,
        range,
        &mut shown,
        report,
    );
    match end {
        Ok((found, _)) => Some(numbers_of(rt, alloc, &found)),
        Err(fault) => {
            check_that(rt, "search", fault == SearchFault::Memory);
            None
        }
    }
}

/// How a search ends to which the growth with this number is refused, and whether it came to that.
fn run_refused<R: Abort + Threads + Clock + Sync>(
    rt: &R,
    alloc: Global,
    cart: &Cart,
    asked: Asked<'_>,
    number: u64,
) -> (End, bool) {
    let heap = Refusing::new(alloc, NEVER);
    let image = cart.bytes();
    let cart = expect_ok(rt, Cart::from_bytes(&heap, image));
    let movie = expect_ok(rt, Movie::new(&heap, &cart));
    heap.refuse(number.max(1));
    let mut report = Vec::new(alloc);
    let found = found(rt, alloc, &heap, &movie, asked, &mut report);
    let report = timeless(rt, alloc, report.as_slice());
    (End { found, report }, heap.has_refused())
}

/// Refuses a search its growths in turn, until it grows no more: how many of them there are. After each it has no answer, and the first lines
/// of its report, or ends as ever.
fn count_refused<R: Abort + Threads + Clock + Sync>(
    rt: &R,
    alloc: Global,
    cart: &Cart,
    asked: Asked<'_>,
) -> u64 {
    let (whole, _) = run_refused(rt, alloc, cart, asked, NEVER);
    check_that(rt, asked, whole.found.is_some());
    for number in 1..MOST {
        let (end, has_refused) = run_refused(rt, alloc, cart, asked, number);
        if !has_refused {
            check_that(rt, (asked, number), end.found == whole.found);
            check_that(rt, (asked, number), end.report == whole.report);
            return number.saturating_sub(1);
        }
        let is_beginning = whole.report.starts_with(end.report.as_slice());
        check_that(rt, (asked, number), is_beginning);
        check_that(
            rt,
            (asked, number),
            end.found.is_none() || end.found == whole.found,
        );
    }
    MOST
}

#[test]
fn each_growth_of_a_search(rt: HostRuntime) {
    let alloc = rt.alloc();
    let cart = cart_of(&rt, alloc, COUNTER);
    let whole = SpacePart::whole();
    let part = SpacePart { number: 2, of: 3 };
    for (goal, hold, workers, part) in [
        (b"reach n == 1".as_slice(), 1usize, 1usize, whole),
        (b"reach n == 2", 1, 2, whole),
        (b"reach n == 9", 1, 2, whole),
        (b"most n", 2, 1, whole),
        (b"least n", 1, 2, whole),
        (b"most n", 1, 2, part),
    ] {
        let asked = Asked {
            goal,
            hold,
            workers,
            part,
        };
        let growths = count_refused(&rt, alloc, &cart, asked);
        check_same(&rt, asked, growths > 10 && growths < MOST, true);
    }
}
