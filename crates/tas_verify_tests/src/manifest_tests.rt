//! Manifests: remarks, lines without words, and lines at fault.

use crate::checks::{check_same, check_that, expect_ok};
use crate::files::{COUNTS, COUNTS_MOVIE, DIGEST_BY_1, image_of};
use crate::row_tests::run_on;
use crate::shelves::{Books, Held};
use std::io::sink;
use tas_engines::ReadFault;
use tas_verify::{ManifestError, VerifyFault, verify_run};

/// Manifests, and what is written of them.
static MANIFESTS: [(&[u8], &[u8]); 9] = [
    (b"", b"0 of 0 ok\n"),
    (b"\n# nothing\n   # nothing\n", b"0 of 0 ok\n"),
    (b"a c 1\n", b"a: ok\n1 of 1 ok\n"),
    (
        b"a c 1   # as ever\n\na c 1#\n",
        b"a: ok\na: ok\n2 of 2 ok\n",
    ),
    (b"a\tc\t1  # as ever\n", b"a: ok\n1 of 1 ok\n"),
    (b"a c 1 #\tas ever\n", b"a: ok\n1 of 1 ok\n"),
    (b"#a c 1\na c b\n", b"a: digest not found\n0 of 1 ok\n"),
    (b"a c 1\r\n", b"a: digest not found\n0 of 1 ok\n"),
    (b"a c\xff 1\n", b"a: cartridge not found\n0 of 1 ok\n"),
];

/// Manifests, and the first line at fault.
static FAULTS: [(&[u8], usize); 16] = [
    (b"a c 1", 1),
    (b"a c 1\n# the end", 2),
    (b"a\n", 1),
    (b"a c\n", 1),
    (b"a c \n", 1),
    (b" a c 1\n", 1),
    (b"a  c 1\n", 1),
    (b"a c 1 \n", 1),
    (b"a c 1 2\n", 1),
    (b"a\tc 1\n", 1),
    (b"a\t\t1\n", 1),
    (b" \n", 1),
    (b"a\tc\t1\t# as ever\n", 1),
    (b"\t# nothing\n", 1),
    (b"a c 1\n\n# x\na c # 1\nb\n", 4),
    (b"a c 1\na c\tb\n", 2),
];

#[test]
fn manifests_are_read_line_by_line(rt: HostRuntime) {
    let alloc = rt.alloc();
    let counts = image_of(&rt, alloc, COUNTS);
    let files: [Held<'_>; 3] = [
        (b"a", COUNTS_MOVIE),
        (b"c", counts.as_slice()),
        (b"1", DIGEST_BY_1),
    ];
    let books = Books {
        files: &files,
        failing: b"",
        fails_at: 0,
    };
    for (case, (manifest, wanted)) in MANIFESTS.iter().enumerate() {
        let (out, _) = run_on(&rt, alloc, 2, &books, manifest);
        check_same(&rt, case, out.as_slice(), *wanted);
    }
    for (case, (manifest, line)) in FAULTS.iter().enumerate() {
        let mut out = Vec::new(alloc);
        let mut input = *manifest;
        let end = verify_run(&rt, alloc, 2, &books, &mut input, &mut out, &mut sink());
        check_that(&rt, case, end == Err(VerifyFault::Manifest(*line)));
        check_that(&rt, case, out.is_empty());
    }
}

#[test]
fn faults_have_their_lines(rt: HostRuntime) {
    let alloc = rt.alloc();
    for (case, (fault, wanted)) in [
        (VerifyFault::Manifest(3), "fault: manifest line 3"),
        (VerifyFault::Memory, "fault: out of memory"),
        (
            VerifyFault::Write { written: 5 },
            "fault: write failed after 5 bytes",
        ),
        (
            VerifyFault::Read(ReadFault::TooLong),
            "fault: manifest: input is too long",
        ),
        (
            VerifyFault::Read(ReadFault::Failed),
            "fault: manifest: read failed",
        ),
        (
            VerifyFault::Read(ReadFault::Memory),
            "fault: manifest: out of memory",
        ),
    ]
    .iter()
    .enumerate()
    {
        let line = expect_ok(&rt, format!(in alloc; "{fault}"));
        check_same(&rt, case, line.as_str(), *wanted);
    }
}

#[test]
fn faults_of_a_manifest_have_their_texts(rt: HostRuntime) {
    let alloc = rt.alloc();
    for (case, (fault, wanted)) in [
        (ManifestError::Line(3), "manifest line 3"),
        (ManifestError::Memory, "out of memory"),
    ]
    .iter()
    .enumerate()
    {
        let text = expect_ok(&rt, format!(in alloc; "{fault}"));
        check_same(&rt, case, text.as_str(), *wanted);
    }
}
