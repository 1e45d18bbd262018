//! What is wrong with bytes that are no journal: the first line at fault, and its kind.

use crate::checks::{check_same, expect_ok};
use crate::journals::{HEAD, fault_of, joined};
use std::alloc::Global;
use std::process::Abort;
use tas_journal::{JournalError, JournalErrorKind, RecoverError};
use tas_movie::{EditRefusal, TextErrorKind};

/// Bytes, the first line at fault, and what is wrong with it.
type Row = (&'static [u8], usize, JournalErrorKind);

/// Fails where the bytes have another fault.
fn check_fault<R: Abort>(rt: &R, alloc: Global, case: usize, bytes: &[u8], row: Row) {
    let (_, line, kind) = row;
    let error = RecoverError::Journal(JournalError { line, kind });
    let found = fault_of(rt, alloc, bytes, usize::MAX);
    check_same(rt, case, found, Some(error));
}

/// Bytes whose first three lines aren't those of a head, or are no text's that follows whole.
static HEADS: [Row; 17] = [
    (b"", 1, JournalErrorKind::Head),
    (b"\n", 1, JournalErrorKind::Head),
    (b"a26journal 1", 1, JournalErrorKind::Head),
    (b"a26journal 1\r\nprofile 2\r\n", 1, JournalErrorKind::Head),
    (b"a26journal 2\nprofile 2\n", 1, JournalErrorKind::Head),
    (
        b"a26movie 2\ncart ad7facb2586fc6e966c004d7d1d16b024f5805ff7cb47c7a85dabd8b48892ca7\n",
        1,
        JournalErrorKind::Head,
    ),
    (b"a26journal 1\n", 2, JournalErrorKind::Profile),
    (b"a26journal 1\nprofile 2", 2, JournalErrorKind::Profile),
    (b"a26journal 1\nprofile 1\n", 2, JournalErrorKind::Profile),
    (b"a26journal 1\nprofile 02\n", 2, JournalErrorKind::Profile),
    (b"a26journal 1\nprofile 2\n", 3, JournalErrorKind::Movie),
    // The text is missing.
    (
        b"a26journal 1\nprofile 2\nmovie 81 28a712194b8e9737b187764449c5d5d97c62e6f7f4c5c55bccef3f5aed831e72\n",
        3,
        JournalErrorKind::Movie,
    ),
    // Its last byte is missing.
    (
        b"a26journal 1\nprofile 2\nmovie 81 28a712194b8e9737b187764449c5d5d97c62e6f7f4c5c55bccef3f5aed831e72\na26movie 2\ncart ad7facb2586fc6e966c004d7d1d16b024f5805ff7cb47c7a85dabd8b48892ca7",
        3,
        JournalErrorKind::Movie,
    ),
    // Its size is one less.
    (
        b"a26journal 1\nprofile 2\nmovie 80 28a712194b8e9737b187764449c5d5d97c62e6f7f4c5c55bccef3f5aed831e72\na26movie 2\ncart ad7facb2586fc6e966c004d7d1d16b024f5805ff7cb47c7a85dabd8b48892ca7\n",
        3,
        JournalErrorKind::Movie,
    ),
    // Its size has a leading zero.
    (
        b"a26journal 1\nprofile 2\nmovie 081 28a712194b8e9737b187764449c5d5d97c62e6f7f4c5c55bccef3f5aed831e72\na26movie 2\ncart ad7facb2586fc6e966c004d7d1d16b024f5805ff7cb47c7a85dabd8b48892ca7\n",
        3,
        JournalErrorKind::Movie,
    ),
    // The last digit of its digest is another one.
    (
        b"a26journal 1\nprofile 2\nmovie 81 28a712194b8e9737b187764449c5d5d97c62e6f7f4c5c55bccef3f5aed831e73\na26movie 2\ncart ad7facb2586fc6e966c004d7d1d16b024f5805ff7cb47c7a85dabd8b48892ca7\n",
        3,
        JournalErrorKind::Movie,
    ),
    // The digits of its digest are upper case.
    (
        b"a26journal 1\nprofile 2\nmovie 81 28A712194B8E9737B187764449C5D5D97C62E6F7F4C5C55BCCEF3F5AED831E72\na26movie 2\ncart ad7facb2586fc6e966c004d7d1d16b024f5805ff7cb47c7a85dabd8b48892ca7\n",
        3,
        JournalErrorKind::Movie,
    ),
];

/// Bytes whose third line is that of the text which follows, and the text is at fault.
static TEXTS: [Row; 7] = [
    // The older text.
    (
        b"a26journal 1\nprofile 2\nmovie 99 3bc76c835d2879a84091f17499b0e6dada80e17c0de3f32bb4f435cac9023f0f\na26movie 1\ncart ad7facb2586fc6e966c004d7d1d16b024f5805ff7cb47c7a85dabd8b48892ca7\n..... ..... .....\n",
        4,
        JournalErrorKind::Text(TextErrorKind::Head),
    ),
    // No bytes.
    (
        b"a26journal 1\nprofile 2\nmovie 0 e3b0c44298fc1c149afbf4c8996fb92427ae41e4649b934ca495991b7852b855\n",
        4,
        JournalErrorKind::Text(TextErrorKind::Head),
    ),
    // Another cartridge.
    (
        b"a26journal 1\nprofile 2\nmovie 99 a1ca090e446f626d5db5253eb1e9fbe96e54cc24cfad52f15d02d7a58a607432\na26movie 2\ncart 820c64e9933496de683a000c5e11f0510fb7b1699b2ce86471295236b284906d\n..... ..... .....\n",
        5,
        JournalErrorKind::Text(TextErrorKind::Digest),
    ),
    (
        b"a26journal 1\nprofile 2\nmovie 104 5a3534b4e857568fda57c10bbe4efdf99c21f5c24830c2f678382cafeed1cf07\na26movie 2\ncart ad7facb2586fc6e966c004d7d1d16b024f5805ff7cb47c7a85dabd8b48892ca7\n..... ..... ..... x4\nR\n",
        7,
        JournalErrorKind::Text(TextErrorKind::Frame),
    ),
    (
        b"a26journal 1\nprofile 2\nmovie 120 17edfa48c62bd11d468f7d6e31e0f0f04d0d00794b6a5b4cc2fa549e6504770c\na26movie 2\ncart ad7facb2586fc6e966c004d7d1d16b024f5805ff7cb47c7a85dabd8b48892ca7\n..... ..... ..... x4\n..... ..... .....\n",
        7,
        JournalErrorKind::Text(TextErrorKind::Run),
    ),
    // No newline ends the text, whatever follows it.
    (
        b"a26journal 1\nprofile 2\nmovie 101 3750093a21813d5101b2abecb7c9f9679917d8cd57b5a6c248a735d36fd49053\na26movie 2\ncart ad7facb2586fc6e966c004d7d1d16b024f5805ff7cb47c7a85dabd8b48892ca7\n..... ..... ..... x4\n0 0 delete 0 1\n",
        6,
        JournalErrorKind::Text(TextErrorKind::End),
    ),
    (
        b"a26journal 1\nprofile 2\nmovie 128 5b9e089f5d31a2df7b276b7daf24ee2aa23b2bc3b95a7db203c9f6c3c45285b9\na26movie 2\ncart ad7facb2586fc6e966c004d7d1d16b024f5805ff7cb47c7a85dabd8b48892ca7\n..... ..... ..... x4\nR.... ..... ..... x262141\n",
        7,
        JournalErrorKind::Text(TextErrorKind::TooMany),
    ),
];

#[test]
fn heads_at_fault(rt: HostRuntime) {
    let alloc = rt.alloc();
    for (case, row) in HEADS.iter().enumerate() {
        check_fault(&rt, alloc, case, row.0, *row);
    }
    for (case, row) in TEXTS.iter().enumerate() {
        check_fault(&rt, alloc, case, row.0, *row);
    }
}

/// Lines after a head of six lines, of a movie of four frames, that don't begin with their number and a space.
static NUMBERS: [Row; 8] = [
    (b"1 0 delete 0 1\n", 7, JournalErrorKind::Number),
    (b"00 0 delete 0 1\n", 7, JournalErrorKind::Number),
    (b" 0 0 delete 0 1\n", 7, JournalErrorKind::Number),
    (b"\n", 7, JournalErrorKind::Number),
    (b"0\n", 7, JournalErrorKind::Number),
    (b"+0 0 delete 0 1\n", 7, JournalErrorKind::Number),
    (
        b"0 0 delete 0 1\n0 0 delete 0 1\n",
        8,
        JournalErrorKind::Number,
    ),
    (
        b"0 0 delete 0 1\n2 0 delete 0 1\n",
        8,
        JournalErrorKind::Number,
    ),
];

/// The same of which what follows the number isn't the text of a seat and an edit.
static EDITS: [Row; 28] = [
    (b"0 \n", 7, JournalErrorKind::Edit),
    (b"0 0\n", 7, JournalErrorKind::Edit),
    (b"0 0 \n", 7, JournalErrorKind::Edit),
    (b"0 delete 0 1\n", 7, JournalErrorKind::Edit),
    (b"0 4294967296 delete 0 1\n", 7, JournalErrorKind::Edit),
    (b"0 00 delete 0 1\n", 7, JournalErrorKind::Edit),
    (b"0 0  delete 0 1\n", 7, JournalErrorKind::Edit),
    (b"0 0 Delete 0 1\n", 7, JournalErrorKind::Edit),
    (b"0 0 delete 0 01\n", 7, JournalErrorKind::Edit),
    (b"0 0 delete 0 1 \n", 7, JournalErrorKind::Edit),
    (b"0 0 delete 0 1\r\n", 7, JournalErrorKind::Edit),
    (b"0 0 delete 0\n", 7, JournalErrorKind::Edit),
    (b"0 0 delete 10000000 0\n", 7, JournalErrorKind::Edit),
    (b"0 0 len\n", 7, JournalErrorKind::Edit),
    (
        b"0 0 press 0 1 R.... ..... .....\n",
        7,
        JournalErrorKind::Edit,
    ),
    (b"0 0 insert 0\n", 7, JournalErrorKind::Edit),
    (b"0 0 insert 0 \n", 7, JournalErrorKind::Edit),
    (b"0 0 insert 0 1\n", 7, JournalErrorKind::Edit),
    (
        b"0 0 insert 0 1 r.... ..... .....\n",
        7,
        JournalErrorKind::Edit,
    ),
    (
        b"0 0 insert 0 01 R.... ..... .....\n",
        7,
        JournalErrorKind::Edit,
    ),
    (
        b"0 0 replace 00 1 R.... ..... .....\n",
        7,
        JournalErrorKind::Edit,
    ),
    (
        b"0 0 insert 0 1 R.... ..... ..... \n",
        7,
        JournalErrorKind::Edit,
    ),
    // Two runs that are one.
    (
        b"0 0 insert 0 1 R.... ..... ..... 1 R.... ..... .....\n",
        7,
        JournalErrorKind::Edit,
    ),
    // A run of no frames after others, and no frames with something pressed.
    (
        b"0 0 insert 0 1 R.... ..... ..... 0 ..... ..... .....\n",
        7,
        JournalErrorKind::Edit,
    ),
    (
        b"0 0 insert 0 0 R.... ..... .....\n",
        7,
        JournalErrorKind::Edit,
    ),
    (
        b"0 0 insert 0 262145 R.... ..... .....\n",
        7,
        JournalErrorKind::Edit,
    ),
    // A part of an image.
    (b"0 0 load 000=00\n", 7, JournalErrorKind::Edit),
    (b"0 0 load\n", 7, JournalErrorKind::Edit),
];

/// The same whose edits the movie refuses that the lines before them make.
static REFUSED: [Row; 7] = [
    (
        b"0 0 delete 3 2\n",
        7,
        JournalErrorKind::Refused(EditRefusal::Place { at: 3, len: 4 }),
    ),
    (
        b"0 0 replace 4 1 R.... ..... .....\n",
        7,
        JournalErrorKind::Refused(EditRefusal::Place { at: 4, len: 4 }),
    ),
    (
        b"0 0 insert 5 1 R.... ..... .....\n",
        7,
        JournalErrorKind::Refused(EditRefusal::Place { at: 5, len: 4 }),
    ),
    (
        b"0 0 insert 5 262144 R.... ..... .....\n",
        7,
        JournalErrorKind::Refused(EditRefusal::Place { at: 5, len: 4 }),
    ),
    (
        b"0 0 insert 4 262141 R.... ..... .....\n",
        7,
        JournalErrorKind::Refused(EditRefusal::Long { len: 4 }),
    ),
    (
        b"0 0 insert 4 262140 R.... ..... .....\n1 0 insert 0 1 R.... ..... .....\n",
        8,
        JournalErrorKind::Refused(EditRefusal::Long { len: 262_144 }),
    ),
    (
        b"0 0 delete 0 4\n1 0 delete 0 0\n2 0 delete 0 1\n",
        9,
        JournalErrorKind::Refused(EditRefusal::Place { at: 0, len: 0 }),
    ),
];

/// Fails where a line after the head has another fault.
fn check_lines<R: Abort>(rt: &R, alloc: Global, rows: &[Row]) {
    for (case, row) in rows.iter().enumerate() {
        let journal = joined(rt, alloc, HEAD, row.0);
        check_fault(rt, alloc, case, journal.as_slice(), *row);
    }
}

#[test]
fn lines_at_fault(rt: HostRuntime) {
    let alloc = rt.alloc();
    check_lines(&rt, alloc, NUMBERS.as_slice());
    check_lines(&rt, alloc, EDITS.as_slice());
    check_lines(&rt, alloc, REFUSED.as_slice());
}

/// What is wrong with a line, and the text that says so.
static KINDS: [(JournalErrorKind, &str); 13] = [
    (JournalErrorKind::Head, "journal line 8: head"),
    (JournalErrorKind::Profile, "journal line 8: profile"),
    (JournalErrorKind::Movie, "journal line 8: movie"),
    (
        JournalErrorKind::Text(TextErrorKind::Head),
        "journal line 8: head",
    ),
    (
        JournalErrorKind::Text(TextErrorKind::Digest),
        "journal line 8: digest",
    ),
    (
        JournalErrorKind::Text(TextErrorKind::Frame),
        "journal line 8: frame",
    ),
    (
        JournalErrorKind::Text(TextErrorKind::End),
        "journal line 8: end",
    ),
    (
        JournalErrorKind::Text(TextErrorKind::TooMany),
        "journal line 8: too many",
    ),
    (
        JournalErrorKind::Text(TextErrorKind::Run),
        "journal line 8: run",
    ),
    (JournalErrorKind::Number, "journal line 8: number"),
    (JournalErrorKind::Edit, "journal line 8: edit"),
    (
        JournalErrorKind::Refused(EditRefusal::Place { at: 3, len: 2 }),
        "journal line 8: place 3 of 2",
    ),
    (
        JournalErrorKind::Refused(EditRefusal::Long { len: 2 }),
        "journal line 8: too long at 2",
    ),
];

#[test]
fn faults_have_their_words(rt: HostRuntime) {
    let alloc = rt.alloc();
    for row in KINDS.iter() {
        let (kind, wanted) = *row;
        let error = RecoverError::Journal(JournalError { line: 8, kind });
        let line = expect_ok(&rt, format!(in alloc; "{error}"));
        check_same(&rt, wanted, line.as_str(), wanted);
    }
    let memory = RecoverError::Memory;
    let line = expect_ok(&rt, format!(in alloc; "{memory}"));
    check_same(&rt, "memory", line.as_str(), "out of memory");
}
