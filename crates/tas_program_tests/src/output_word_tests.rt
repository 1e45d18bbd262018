//! The words of a file that the output replaces.

use crate::checks::check_same;
use crate::programs::words_of;
use crate::tasks::check_order;
use std::alloc::Alloc;
use tas_program::read_words;

/// The words, the names of files and the numbers in them, and the file of the output, by hand.
type Row<'a> = (&'a [&'a str], &'a [&'a str], &'a [usize], Option<&'a str>);

static ROWS: [Row<'static>; 20] = [
    (&["migrate", "a", "-o", "b"], &["a"], &[], Some("b")),
    (&["migrate", "-o", "b", "a"], &["a"], &[], Some("b")),
    (&["migrate", "--output", "b", "a"], &["a"], &[], Some("b")),
    (&["migrate", "--output=b", "a"], &["a"], &[], Some("b")),
    (&["migrate", "-ob", "a"], &["a"], &[], Some("b")),
    (&["migrate", "a"], &["a"], &[], None),
    (&["new", "a", "9", "-o", "b"], &["a"], &[9], Some("b")),
    (&["recover", "a", "-o", "b"], &["a"], &[], Some("b")),
    (
        &["recover", "-o", "b", "--until", "9", "a"],
        &["a"],
        &[9],
        Some("b"),
    ),
    (
        &["recover", "a", "--cart", "c", "-o", "b"],
        &["a", "c"],
        &[],
        Some("b"),
    ),
    (
        &["cut", "a", "-o", "b", "1", "2"],
        &["a"],
        &[1, 2],
        Some("b"),
    ),
    (&["diff", "a", "b", "-o", "c"], &["a", "b"], &[], Some("c")),
    (&["diff", "a", "b"], &["a", "b"], &[], None),
    (&["edit", "a", "b", "-o", "c"], &["a", "b"], &[], Some("c")),
    (
        &["edit", "a", "b", "--with", "d", "-o", "c"],
        &["a", "b", "d"],
        &[],
        Some("c"),
    ),
    (
        &["edit", "-o", "c", "--with=d", "a", "b"],
        &["a", "b", "d"],
        &[],
        Some("c"),
    ),
    (&["edit", "a", "b", "-o", "a"], &["a", "b"], &[], Some("a")),
    (&["talk", "-o", "a"], &[], &[], Some("a")),
    (&["talk", "a", "--output=b"], &["a"], &[], Some("b")),
    (&["talk", "a", "b", "-o", "b"], &["a", "b"], &[], Some("b")),
];

#[test]
fn words_name_the_file_of_the_output(rt: HostRuntime) {
    for (number, (words, files, numbers, output)) in ROWS.iter().enumerate() {
        check_order(
            &rt,
            rt.alloc(),
            number,
            words,
            (files, numbers, &[]),
            *output,
        );
    }
}

/// Words that aren't understood: a flag without its file, twice, or of a command that has none.
static REFUSED: [&[&str]; 9] = [
    &["migrate", "a", "-o"],
    &["migrate", "a", "--output"],
    &["migrate", "a", "-o", "b", "-o", "c"],
    &["migrate", "-o", "a"],
    &["check", "a", "-o", "b"],
    &["shot", "a", "1", "-o", "b"],
    &["trace", "1", "--output", "b"],
    &["desk", "a", "b", "c", "d", "-o", "e"],
    &["script", "-o", "b"],
];

#[test]
fn other_words_of_an_output_are_refused(rt: HostRuntime) {
    for (number, words) in REFUSED.iter().enumerate() {
        let words = words_of(&rt, rt.alloc(), words);
        let is_read = read_words(rt.alloc(), words.as_slice()).is_ok();
        check_same(&rt, number, is_read, false);
    }
}
