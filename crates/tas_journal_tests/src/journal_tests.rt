//! A journal's bytes, what its lines make, and what it makes where it was cut.

use crate::checks::{check_same, check_that, expect_ok};
use crate::journals::{
    FORMAT_SIZE, HEAD, JOURNAL, PROFILE_SIZE, fault_of, first_movie, inputs_of, joined, recovered,
    text_after,
};
use std::alloc::Global;
use std::process::Abort;
use tas_journal::{JournalError, JournalErrorKind, RecoverError, push_entry, recover, write_head};
use tas_movie::{Edit, Inputs, Movie, read_frame};
use vcs_machine::Cart;

/// Appends the line of an edit.
fn push<R: Abort>(
    rt: &R,
    alloc: Global,
    text: &mut Vec<u8>,
    (number, seat): (usize, u32),
    edit: &Edit,
) {
    expect_ok(rt, push_entry(alloc, text, number, seat, edit));
}

#[test]
fn a_journal_is_written_byte_by_byte(rt: HostRuntime) {
    let alloc = rt.alloc();
    let movie = first_movie(&rt, alloc);
    let mut text = expect_ok(&rt, write_head(alloc, &movie));
    check_that(&rt, "head", text.as_slice() == HEAD);
    let right: &[u8] = b"R.... ..... .....";
    let fire: &[u8] = b"....F ..... .....";
    let reset: &[u8] = b".L... ..... r....";
    let inputs = inputs_of(&rt, alloc, &[right, right]);
    let edit = Edit::Replace { at: 1, inputs };
    push(&rt, alloc, &mut text, (0, 0), &edit);
    let inputs = inputs_of(&rt, alloc, &[fire, reset, reset]);
    let edit = Edit::Insert { at: 4, inputs };
    push(&rt, alloc, &mut text, (1, 4_294_967_295), &edit);
    let edit = Edit::Delete { at: 0, count: 2 };
    push(&rt, alloc, &mut text, (2, 7), &edit);
    let inputs = inputs_of(&rt, alloc, &[]);
    let edit = Edit::Insert { at: 0, inputs };
    push(&rt, alloc, &mut text, (3, 0), &edit);
    check_that(&rt, "journal", text.as_slice() == JOURNAL);
}

/// Fails where a journal doesn't make the movie of the first `edits` edits up to a line, or doesn't say so.
fn check_made<R: Abort>(
    rt: &R,
    alloc: Global,
    journal: &[u8],
    until: usize,
    (edits, cut): (usize, bool),
) {
    let (text, found, told) = recovered(rt, alloc, journal, until);
    check_same(rt, (journal.len(), until), (found, told), (edits, cut));
    let wanted = text_after(rt, alloc, edits);
    check_that(rt, (journal.len(), until), text == wanted);
}

/// A line up to which the journal is read, and how many edits there are before it: the first one is on line 7.
static UNTILS: [(usize, usize); 9] = [
    (0, 0),
    (1, 0),
    (6, 0),
    (7, 0),
    (8, 1),
    (9, 2),
    (10, 3),
    (11, 4),
    (usize::MAX, 4),
];

#[test]
fn the_lines_before_one_are_made(rt: HostRuntime) {
    let alloc = rt.alloc();
    for row in UNTILS.iter() {
        let (until, edits) = *row;
        check_made(&rt, alloc, JOURNAL, until, (edits, false));
    }
}

#[test]
fn a_cut_line_is_reported_where_it_is_reached(rt: HostRuntime) {
    let alloc = rt.alloc();
    let journal = joined(&rt, alloc, JOURNAL, b"4 0 delete 0 1");
    check_made(&rt, alloc, journal.as_slice(), 10, (3, false));
    check_made(&rt, alloc, journal.as_slice(), 11, (4, false));
    check_made(&rt, alloc, journal.as_slice(), 12, (4, true));
    check_made(&rt, alloc, journal.as_slice(), usize::MAX, (4, true));
}

#[test]
fn a_line_at_fault_is_no_fault_of_those_before_it(rt: HostRuntime) {
    let alloc = rt.alloc();
    let journal = joined(&rt, alloc, JOURNAL, b"what\n");
    check_made(&rt, alloc, journal.as_slice(), 11, (4, false));
    let error = RecoverError::Journal(JournalError {
        line: 11,
        kind: JournalErrorKind::Number,
    });
    let found = fault_of(&rt, alloc, journal.as_slice(), 12);
    check_same(&rt, "until the next line", found, Some(error));
    let found = fault_of(&rt, alloc, journal.as_slice(), usize::MAX);
    check_same(&rt, "all", found, Some(error));
}

/// What is wrong with the first bytes of the journal, where they end before the head does.
fn head_fault(size: usize) -> Option<RecoverError> {
    let (line, kind) = if size < FORMAT_SIZE {
        (1, JournalErrorKind::Head)
    } else if size < PROFILE_SIZE {
        (2, JournalErrorKind::Profile)
    } else if size < HEAD.len() {
        (3, JournalErrorKind::Movie)
    } else {
        return None;
    };
    Some(RecoverError::Journal(JournalError { line, kind }))
}

/// How many newlines some bytes have.
fn count_lines(bytes: &[u8]) -> usize {
    let mut lines = 0usize;
    for byte in bytes {
        if *byte == b'\n' {
            lines = lines.saturating_add(1);
        }
    }
    lines
}

/// A journal that ends after any of its bytes has a fault of its head, or the edits whose lines are whole.
#[test]
fn a_journal_is_cut_at_each_byte(rt: HostRuntime) {
    let alloc = rt.alloc();
    for size in 0..JOURNAL.len().saturating_add(1) {
        let journal = JOURNAL.get(..size).unwrap_or(b"");
        if head_fault(size).is_some() {
            let found = fault_of(&rt, alloc, journal, usize::MAX);
            check_same(&rt, size, found, head_fault(size));
        } else {
            let lines = journal.get(HEAD.len()..).unwrap_or(b"");
            let cut = !lines.is_empty() && !lines.ends_with(b"\n");
            let edits = count_lines(lines);
            check_made(&rt, alloc, journal, usize::MAX, (edits, cut));
        }
    }
}

/// Inputs of which no two neighbours are equal.
fn alternating<R: Abort>(rt: &R, alloc: Global, count: usize) -> Inputs {
    let mut list = Vec::new(alloc);
    for k in 0..count {
        let frame: &[u8] = if k % 2 == 0 {
            b"R.... ..... ....."
        } else {
            b"..... ..... ....."
        };
        if let Some(input) = read_frame(frame) {
            expect_ok(rt, list.push(input));
        }
    }
    Inputs::from_vec(list)
}

/// A line of 262,144 runs, and one of a run more.
#[test]
fn the_longest_line(rt: HostRuntime) {
    let alloc = rt.alloc();
    let movie = expect_ok(&rt, Movie::blank(alloc));
    let head = expect_ok(&rt, write_head(alloc, &movie));
    let mut text = expect_ok(&rt, Vec::from_slice(alloc, head.as_slice()));
    let inputs = alternating(&rt, alloc, 262_144);
    let edit = Edit::Insert { at: 0, inputs };
    push(&rt, alloc, &mut text, (0, 0), &edit);
    let cart = expect_ok(&rt, Cart::blank(alloc));
    let found = expect_ok(&rt, recover(alloc, text.as_slice(), &cart, usize::MAX));
    check_same(&rt, "edits", (found.edits, found.cut), (1, false));
    let inputs = alternating(&rt, alloc, 262_144);
    check_that(&rt, "inputs", found.movie.inputs() == inputs.as_slice());
    let mut long = head;
    let inputs = alternating(&rt, alloc, 262_145);
    let edit = Edit::Insert { at: 0, inputs };
    push(&rt, alloc, &mut long, (0, 0), &edit);
    let error = RecoverError::Journal(JournalError {
        line: 6,
        kind: JournalErrorKind::Edit,
    });
    let found = fault_of(&rt, alloc, long.as_slice(), usize::MAX);
    check_same(&rt, "a run more", found, Some(error));
}
