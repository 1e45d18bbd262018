//! Words of `tas desk`, and others.

use crate::programs::ONE_FRAME;
use crate::tasks::{Names, check_task};
use crate::word_tests::{Shown, check_shown};

/// Words that name a desk, and its pairs.
static DESKS: [(&[&str], &[Names<'static>]); 3] = [
    (&["desk", "a.bin", "b", "c", "d"], &[("c", "d")]),
    (
        &["desk", "a.bin", "b", "c", "d", "e", "f"],
        &[("c", "d"), ("e", "f")],
    ),
    (
        &[
            "desk", "a.bin", "b", "c", "d", "1i", "1o", "2i", "2o", "3i", "3o", "4i", "4o", "5i",
            "5o", "6i", "6o", "7i", "7o",
        ],
        &[
            ("c", "d"),
            ("1i", "1o"),
            ("2i", "2o"),
            ("3i", "3o"),
            ("4i", "4o"),
            ("5i", "5o"),
            ("6i", "6o"),
            ("7i", "7o"),
        ],
    ),
];

#[test]
fn one_to_eight_pairs_are_a_desk(rt: HostRuntime) {
    for (number, (words, pairs)) in DESKS.iter().enumerate() {
        check_task(
            &rt,
            rt.alloc(),
            number,
            words,
            (&["a.bin", "b"], &[], pairs),
        );
    }
}

/// Words that name a desk and its journal, wherever the flag stands.
static NOTED: [(&[&str], &[Names<'static>]); 4] = [
    (
        &["desk", "a.bin", "b", "c", "d", "--journal", "j"],
        &[("c", "d")],
    ),
    (
        &["desk", "--journal=j", "a.bin", "b", "c", "d", "e", "f"],
        &[("c", "d"), ("e", "f")],
    ),
    (
        &["desk", "a.bin", "b", "c", "--journal", "j", "d"],
        &[("c", "d")],
    ),
    (
        &[
            "desk",
            "a.bin",
            "b",
            "c",
            "d",
            "1i",
            "1o",
            "2i",
            "2o",
            "3i",
            "3o",
            "4i",
            "4o",
            "5i",
            "5o",
            "6i",
            "6o",
            "--journal",
            "j",
        ],
        &[
            ("c", "d"),
            ("1i", "1o"),
            ("2i", "2o"),
            ("3i", "3o"),
            ("4i", "4o"),
            ("5i", "5o"),
            ("6i", "6o"),
        ],
    ),
];

#[test]
fn pairs_and_a_journal_are_a_desk(rt: HostRuntime) {
    for (number, (words, pairs)) in NOTED.iter().enumerate() {
        check_task(
            &rt,
            rt.alloc(),
            number,
            words,
            (&["a.bin", "b", "j"], &[1], pairs),
        );
    }
}

/// Words that are no desk, and the beginning of the text, which names what is missing.
static NO_DESKS: [Shown<'static>; 12] = [
    (
        &["desk"],
        b"error: the following required arguments were not provided:\n  <CART>\n  <MOVIE>\n  <IN0>\n  <OUT0>\n",
    ),
    (
        &["desk", "game.bin"],
        b"error: the following required arguments were not provided:\n  <MOVIE>\n  <IN0>\n  <OUT0>\n",
    ),
    (
        &["desk", "game.bin", "other"],
        b"error: the following required arguments were not provided:\n  <IN0>\n  <OUT0>\n",
    ),
    (
        &["desk", "game.bin", "other", "in"],
        b"error: the following required arguments were not provided:\n  <OUT0>\n",
    ),
    (
        &["desk", "game.bin", "other", "in", "out", "in"],
        b"error: the following required arguments were not provided:\n  <OUT1>\n",
    ),
    (
        &[
            "desk", "game.bin", "other", "0", "1", "2", "3", "4", "5", "6", "7", "8", "9", "a",
            "b", "c", "d", "e",
        ],
        b"error: the following required arguments were not provided:\n  <OUT7>\n",
    ),
    (
        &[
            "desk", "game.bin", "other", "0", "1", "2", "3", "4", "5", "6", "7", "8", "9", "a",
            "b", "c", "d", "e", "f", "g",
        ],
        b"error: unexpected argument 'g' found\n",
    ),
    (
        &[
            "desk", "game.bin", "other", "0", "1", "2", "3", "4", "5", "6", "7", "8", "9", "a",
            "b", "c", "d", "e", "f", "g", "h",
        ],
        b"error: unexpected argument 'g' found\n",
    ),
    (
        &["desk", "--cart", "game.bin", "other", "in", "out"],
        b"error: unexpected argument '--cart' found\n",
    ),
    (
        &["desk", "game.bin", "other", "in", "out", "--journal"],
        b"error: a value is required for '--journal <JOURNAL>' but none was supplied\n",
    ),
    (
        &["desk", "game.bin", "--journal", "day"],
        b"error: the following required arguments were not provided:\n  <MOVIE>\n  <IN0>\n  <OUT0>\n",
    ),
    (
        &[
            "desk",
            "game.bin",
            "other",
            "in",
            "out",
            "--journal",
            "day",
            "--journal",
            "day",
        ],
        b"error: the argument '--journal <JOURNAL>' cannot be used multiple times\n",
    ),
];

#[test]
fn other_pairs_end_with_status_2(rt: HostRuntime) {
    check_shown(&rt, rt.alloc(), 2, ONE_FRAME, NO_DESKS.as_slice());
}

#[test]
fn help_of_a_desk_is_shown(rt: HostRuntime) {
    let text =
        b"Answers the lines of several programs at once, which edit one movie\n\nUsage: tas desk [OPTIONS] <CART> <MOVIE> <IN0> <OUT0> [IN1 OUT1] .. [IN7 OUT7]\n".as_slice();
    check_shown(&rt, rt.alloc(), 0, b"", &[(&["desk", "--help"], text)]);
}
