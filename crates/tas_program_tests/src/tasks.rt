//! Tasks as plain values, which tests compare and show: a `Task` has no `==` and no `Debug`.

use crate::checks::{check_same, expect_some};
use crate::programs::words_of;
use std::alloc::Global;
use std::process::Abort;
use tas_program::{Order, Pair, Start, TalkWords, Task, read_words};

/// The names of a pair's two files.
pub type Names<'a> = (&'a str, &'a str);

/// A task's numbers; those of a search are the most.
type Numbers = [Option<usize>; 6];

/// A task's command, the names of its files and its numbers, each in the order of its words, a desk's pairs, and the file that its output
/// replaces. The goal of a search is among its files, and a conversation or a desk with a journal has the number 1. Different tasks have different parts.
type Parts<'a> = (
    &'a str,
    [Option<&'a str>; 4],
    Numbers,
    [Option<Names<'a>>; 8],
    Option<&'a str>,
);

/// Up to three numbers.
fn three(first: Option<usize>, second: Option<usize>, third: Option<usize>) -> Numbers {
    [first, second, third, None, None, None]
}

/// One number.
fn one(number: usize) -> Numbers {
    three(Some(number), None, None)
}

/// Two numbers.
fn two(first: usize, second: usize) -> Numbers {
    three(Some(first), Some(second), None)
}

/// The names of a movie's files.
fn movie<'a>(cart: &'a str, movie: &'a str) -> [Option<&'a str>; 4] {
    [Some(cart), Some(movie), None, None]
}

/// The names of a pair's files, where there is a pair.
fn names<'a>(pair: Option<Pair<'a>>) -> Option<Names<'a>> {
    match pair {
        Some(pair) => Some((pair.input, pair.output)),
        None => None,
    }
}

/// A desk's pairs.
fn pairs<'a>(task: Task<'a>) -> [Option<Names<'a>>; 8] {
    match task {
        Task::Desk(words) => [
            names(Some(words.pairs.first)),
            names(words.pairs.second),
            names(words.pairs.third),
            names(words.pairs.fourth),
            names(words.pairs.fifth),
            names(words.pairs.sixth),
            names(words.pairs.seventh),
            names(words.pairs.eighth),
        ],
        _ => [None; 8],
    }
}

/// A conversation's files, the last of them its journal, and the number 1 where it has one.
fn talk<'a>(words: TalkWords<'a>) -> ([Option<&'a str>; 4], Numbers) {
    let files = match words.start {
        Start::Blank => [words.journal, None, None, None],
        Start::Cart { cart } => [Some(cart), words.journal, None, None],
        Start::Movie(files) => [Some(files.cart), Some(files.movie), words.journal, None],
    };
    match words.journal {
        Some(_) => (files, one(1)),
        None => (files, [None; 6]),
    }
}

/// The parts of a task and its output.
fn parts<'a>(order: Order<'a>) -> Parts<'a> {
    let task = order.task;
    let (command, files, numbers) = match task {
        Task::Trace { instructions } => ("trace", [None; 4], one(instructions as usize)),
        Task::Check { cart } => ("check", [Some(cart), None, None, None], [None; 6]),
        Task::Migrate { cart } => ("migrate", [Some(cart), None, None, None], [None; 6]),
        Task::New { cart, frames } => ("new", [Some(cart), None, None, None], one(frames)),
        Task::Recover(words) => {
            let until = words.until.map(|line| line as usize);
            let files = [Some(words.cart), words.image, None, None];
            ("recover", files, three(until, None, None))
        }
        Task::Search(words) => (
            "search",
            [
                Some(words.cart),
                Some(words.goal),
                words.choices,
                words.names,
            ],
            [
                Some(words.from),
                Some(words.frames),
                Some(words.hold),
                Some(words.part.number),
                Some(words.part.of),
                Some(words.states),
            ],
        ),
        Task::Verify(words) => (
            "verify",
            [words.carts, None, None, None],
            one(words.workers),
        ),
        Task::Shot { cart, frame } => ("shot", [Some(cart), None, None, None], one(frame)),
        Task::Film { cart, from, to } => (
            "film",
            [Some(cart), None, None, None],
            three(from, to, None),
        ),
        Task::Export {
            cart,
            from,
            to,
            workers,
        } => {
            let numbers = three(Some(from), Some(to), Some(workers));
            ("export", [Some(cart), None, None, None], numbers)
        }
        Task::Ram {
            cart,
            from,
            to,
            names,
        } => ("ram", [Some(cart), names, None, None], two(from, to)),
        Task::Digest { cart, every } => ("digest", [Some(cart), None, None, None], one(every)),
        Task::Compare { cart, old } => ("compare", [Some(cart), Some(old), None, None], [None; 6]),
        Task::Lag { cart } => ("lag", [Some(cart), None, None, None], [None; 6]),
        Task::Edit {
            cart,
            script,
            other,
        } => ("edit", [Some(cart), Some(script), other, None], [None; 6]),
        Task::Cut { cart, from, to } => ("cut", [Some(cart), None, None, None], two(from, to)),
        Task::Diff { cart, old } => ("diff", [Some(cart), Some(old), None, None], [None; 6]),
        Task::Script(None) => ("script", [None; 4], [None; 6]),
        Task::Script(Some(files)) => ("script", movie(files.cart, files.movie), [None; 6]),
        Task::Talk(words) => {
            let (files, numbers) = talk(words);
            ("talk", files, numbers)
        }
        Task::Desk(words) => (
            "desk",
            [Some(words.cart), Some(words.movie), words.journal, None],
            if words.journal.is_some() {
                one(1)
            } else {
                [None; 6]
            },
        ),
    };
    (command, files, numbers, pairs(task), order.output)
}

/// These items, and none after them.
fn padded<T: Copy, const N: usize>(items: &[T]) -> [Option<T>; N] {
    let mut all = [None; N];
    for (place, item) in all.iter_mut().zip(items) {
        *place = Some(*item);
    }
    all
}

/// Fails where these words, the first of which is a command, aren't read as a task with it and with just these files, numbers and pairs,
/// and this file for its output.
pub fn check_order<R: Abort>(
    rt: &R,
    alloc: Global,
    number: usize,
    words: &[&str],
    (files, numbers, pairs): (&[&str], &[usize], &[Names<'_>]),
    output: Option<&str>,
) {
    let command = *expect_some(rt, words.first());
    let wanted: Parts<'_> = (
        command,
        padded(files),
        padded(numbers),
        padded(pairs),
        output,
    );
    let words = words_of(rt, alloc, words);
    let read = match read_words(alloc, words.as_slice()) {
        Ok(order) => Some(parts(order)),
        Err(_) => None,
    };
    check_same(rt, ("words", number), read, Some(wanted));
}

/// The same with standard output for the output.
pub fn check_task<R: Abort>(
    rt: &R,
    alloc: Global,
    number: usize,
    words: &[&str],
    parts: (&[&str], &[usize], &[Names<'_>]),
) {
    check_order(rt, alloc, number, words, parts, None);
}
