//! The word of a conversation's journal.

use crate::checks::check_same;
use crate::programs::words_of;
use crate::tasks::check_order;
use std::alloc::Alloc;
use tas_program::read_words;

/// The words, the names of files in them, the journal last, and the file of the output, by hand.
type Row<'a> = (&'a [&'a str], &'a [&'a str], Option<&'a str>);

static ROWS: [Row<'static>; 5] = [
    (&["talk", "--journal", "j"], &["j"], None),
    (&["talk", "--journal=j", "a"], &["a", "j"], None),
    (
        &["talk", "a", "b", "--journal", "j"],
        &["a", "b", "j"],
        None,
    ),
    (
        &["talk", "a", "--journal", "j", "b", "-o", "c"],
        &["a", "b", "j"],
        Some("c"),
    ),
    (
        &["talk", "-o", "c", "--journal", "a", "a"],
        &["a", "a"],
        Some("c"),
    ),
];

#[test]
fn words_name_the_journal(rt: HostRuntime) {
    for (number, (words, files, output)) in ROWS.iter().enumerate() {
        let parts = (*files, [1].as_slice(), [].as_slice());
        check_order(&rt, rt.alloc(), number, words, parts, *output);
    }
}

/// Words that aren't understood: the flag without its file, twice, of another command, or with a word too many beside it.
static REFUSED: [&[&str]; 7] = [
    &["talk", "--journal"],
    &["talk", "a", "b", "--journal"],
    &["talk", "--journal", "j", "--journal", "k"],
    &["talk", "--journal", "j", "a", "b", "c"],
    &["edit", "a", "b", "--journal", "j"],
    &["script", "--journal", "j"],
    &["recover", "a", "--journal", "j"],
];

#[test]
fn other_words_of_a_journal_are_refused(rt: HostRuntime) {
    for (number, words) in REFUSED.iter().enumerate() {
        let words = words_of(&rt, rt.alloc(), words);
        let is_read = read_words(rt.alloc(), words.as_slice()).is_ok();
        check_same(&rt, number, is_read, false);
    }
}
