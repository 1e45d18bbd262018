//! Searches over readers and a writer: the scripts and reports that they make of inputs' bytes, and their faults.

use crate::checks::{check_same, check_that, expect_ok};
use crate::goals::{COUNTER, TRAP, cart_of, three_choices};
use crate::plain::{ALL, shortest};
use crate::requests::{CHOICES, image_of, search, text_of};
use std::alloc::Global;
use std::io::sink;
use std::process::Abort;
use std::thread::Threads;
use std::time::Clock;
use tas_engines::RunFault;
use tas_language::{Change, change_line};
use tas_search::{
    ChoicesError, ChoicesFaultKind, GoalFault, NamesError, NamesFaultKind, Search, SearchError,
    SearchFault, SpacePart, Wanted, search_run,
};
use vcs_machine::Input;

/// What a search writes and reports: the script, and after it the report.
fn said<R: Abort + Threads + Clock + Sync>(
    rt: &R,
    alloc: Global,
    search: &Search<'_>,
    files: &mut [&[u8]],
    movie: &[u8],
) -> Vec<u8> {
    let mut out = Vec::new(alloc);
    let report = expect_ok(
        rt,
        search_run(
            rt,
            alloc,
            search,
            files,
            &mut { movie },
            &mut out,
            &mut sink(),
            &mut sink(),
        ),
    );
    expect_ok(rt, out.extend_from_slice(report.as_slice()));
    out
}

#[test]
fn scripts_and_reports(rt: HostRuntime) {
    let alloc = rt.alloc();
    let image = image_of(&rt, alloc, COUNTER);
    let movie = text_of(&rt, alloc, COUNTER, 5);
    for (case, (frames, hold, states, goal, wanted)) in [
        (
            4usize,
            1usize,
            100usize,
            b"reach n == 2".as_slice(),
            b"replace 3 1 R.... ..... .....\nreplace 4 1 R.... ..... .....\nbest of all 81 sequences\n".as_slice(),
        ),
        (
            4,
            2,
            100,
            b"reach n == 4",
            b"insert 5 2 ..... ..... .....\nreplace 3 2 R.... ..... .....\nreplace 5 2 R.... ..... .....\nbest of all 9 sequences\n",
        ),
        (4, 1, 100, b"reach n == 0", b"best of all 81 sequences\n"),
        (0, 1, 100, b"most n", b"best of all 1 sequences\n"),
        (
            60,
            1,
            1000,
            b"reach n == 254",
            b"replace 3 1 .L... ..... .....\nreplace 4 1 .L... ..... .....\nbest of all 42391158275216203514294433201 sequences\n",
        ),
        (
            4,
            1,
            100,
            b"reach n == 9",
            b"none: not one of all 81 sequences reaches it\n",
        ),
        (
            4,
            1,
            2,
            b"reach n == 9",
            b"stopped: more than 2 states in layer 1: none of up to 0 frames reaches it\n",
        ),
        (
            4,
            2,
            4,
            b"reach n == 9",
            b"stopped: more than 4 states in layer 2: none of up to 2 frames reaches it\n",
        ),
        (
            3,
            1,
            4,
            b"least n",
            b"stopped: more than 4 states in layer 2\n",
        ),
        (
            3,
            1,
            100,
            b"most ( n < 100 ) * n",
            b"insert 5 1 ..... ..... .....\nreplace 3 1 R.... ..... .....\nreplace 4 1 R.... ..... .....\nreplace 5 1 R.... ..... .....\nbest of all 27 sequences\n",
        ),
    ]
    .iter()
    .enumerate()
    {
        let search = search(*frames, *hold, *states, goal);
        let out = said(
            &rt,
            alloc,
            &search,
            &mut [image.as_slice(), CHOICES, b"n 80\n"],
            movie.as_slice(),
        );
        check_same(&rt, case, out.as_slice(), *wanted);
    }
}

/// Parts of a space of three choices, and what a search of each for two frames more to the right than to the left, in up to four frames,
/// writes and reports.
static PARTS: [(usize, usize, &[u8]); 12] = [
    (
        1,
        1,
        b"replace 3 1 R.... ..... .....\nreplace 4 1 R.... ..... .....\nbest of all 81 sequences\n",
    ),
    (
        1,
        2,
        b"insert 5 1 ..... ..... .....\nreplace 3 1 ..... ..... .....\nreplace 4 1 R.... ..... .....\nreplace 5 1 R.... ..... .....\npart 1 of 2: best of all 27 sequences\n",
    ),
    (
        2,
        2,
        b"replace 3 1 R.... ..... .....\nreplace 4 1 R.... ..... .....\npart 2 of 2: best of all 54 sequences\n",
    ),
    (
        2,
        3,
        b"replace 3 1 R.... ..... .....\nreplace 4 1 R.... ..... .....\npart 2 of 3: best of all 27 sequences\n",
    ),
    (
        3,
        3,
        b"insert 5 2 ..... ..... .....\nreplace 3 1 .L... ..... .....\nreplace 4 1 R.... ..... .....\nreplace 5 1 R.... ..... .....\nreplace 6 1 R.... ..... .....\npart 3 of 3: best of all 27 sequences\n",
    ),
    (
        1,
        4,
        b"part 1 of 4: none: not one of all 0 sequences reaches it\n",
    ),
    (
        2,
        4,
        b"insert 5 1 ..... ..... .....\nreplace 3 1 ..... ..... .....\nreplace 4 1 R.... ..... .....\nreplace 5 1 R.... ..... .....\npart 2 of 4: best of all 27 sequences\n",
    ),
    (
        4,
        7,
        b"part 4 of 7: none: not one of all 0 sequences reaches it\n",
    ),
    (
        5,
        7,
        b"replace 3 1 R.... ..... .....\nreplace 4 1 R.... ..... .....\npart 5 of 7: best of all 27 sequences\n",
    ),
    (
        666_667,
        1_000_000,
        b"replace 3 1 R.... ..... .....\nreplace 4 1 R.... ..... .....\npart 666667 of 1000000: best of all 27 sequences\n",
    ),
    (
        666_668,
        1_000_000,
        b"part 666668 of 1000000: none: not one of all 0 sequences reaches it\n",
    ),
    (
        usize::MAX,
        usize::MAX,
        b"insert 5 2 ..... ..... .....\nreplace 3 1 .L... ..... .....\nreplace 4 1 R.... ..... .....\nreplace 5 1 R.... ..... .....\nreplace 6 1 R.... ..... .....\npart 18446744073709551615 of 18446744073709551615: best of all 27 sequences\n",
    ),
];

#[test]
fn parts_are_searched_alone(rt: HostRuntime) {
    let alloc = rt.alloc();
    let image = image_of(&rt, alloc, COUNTER);
    let movie = text_of(&rt, alloc, COUNTER, 5);
    for (case, (number, of, wanted)) in PARTS.iter().enumerate() {
        let mut search = search(4, 1, 100, b"reach n == 2");
        search.part = SpacePart {
            number: *number,
            of: *of,
        };
        let out = said(
            &rt,
            alloc,
            &search,
            &mut [image.as_slice(), CHOICES, b"n 80\n"],
            movie.as_slice(),
        );
        check_same(&rt, case, out.as_slice(), *wanted);
    }
}

#[test]
fn files_that_are_not_given(rt: HostRuntime) {
    let alloc = rt.alloc();
    let image = image_of(&rt, alloc, COUNTER);
    let movie = text_of(&rt, alloc, COUNTER, 5);
    let mut search = search(1, 1, 100, b"reach byte:80 == 1");
    let by_choices = b"replace 3 1 R.... ..... .....\nbest of all 3 sequences\n";
    let by_stick = b"replace 3 1 R.... ..... .....\nbest of all 18 sequences\n";
    search.has_names = false;
    let out = said(
        &rt,
        alloc,
        &search,
        &mut [image.as_slice(), CHOICES],
        movie.as_slice(),
    );
    check_same(&rt, "choices", out.as_slice(), by_choices.as_slice());
    search.has_choices = false;
    let out = said(
        &rt,
        alloc,
        &search,
        &mut [image.as_slice()],
        movie.as_slice(),
    );
    check_same(&rt, "none", out.as_slice(), by_stick.as_slice());
    let long = Search {
        frames: 60,
        ..search
    };
    let out = said(&rt, alloc, &long, &mut [image.as_slice()], movie.as_slice());
    let by_more =
        b"replace 3 1 R.... ..... .....\nbest of all 2071811818771347368758029389259935314935292017955688951108952216561701093376 sequences\n";
    check_same(&rt, "long", out.as_slice(), by_more.as_slice());
    search.has_names = true;
    let out = said(
        &rt,
        alloc,
        &search,
        &mut [image.as_slice(), b"n 80\n"],
        movie.as_slice(),
    );
    check_same(&rt, "names", out.as_slice(), by_stick.as_slice());
}

#[test]
fn all_sequences_halt(rt: HostRuntime) {
    let alloc = rt.alloc();
    let image = image_of(&rt, alloc, TRAP);
    let movie = text_of(&rt, alloc, TRAP, 3);
    let out = said(
        &rt,
        alloc,
        &search(4, 1, 100, b"most n"),
        &mut [image.as_slice(), b"R.... ..... .....\n", b"n 80\n"],
        movie.as_slice(),
    );
    check_same(
        &rt,
        "all halt",
        out.as_slice(),
        b"none: each of all 1 sequences halts before its end\n".as_slice(),
    );
}

/// The script of a sequence from power-on in a movie without frames, and its report.
fn script_of<R: Abort>(
    rt: &R,
    alloc: Global,
    inputs: &[Input; 3],
    hold: usize,
    found: Option<Vec<usize>>,
) -> Vec<u8> {
    let mut out = Vec::new(alloc);
    let Some(choices) = found else {
        expect_ok(
            rt,
            out.extend_from_slice(b"none: not one of all 243 sequences reaches it\n"),
        );
        return out;
    };
    let end = choices.len().saturating_mul(hold);
    if end > 0 {
        let line = expect_ok(
            rt,
            change_line(
                alloc,
                Change::Insert {
                    at: 0,
                    count: end,
                    input: Input::none(),
                },
            ),
        );
        expect_ok(rt, out.extend_from_slice(line.as_slice()));
    }
    for (k, choice) in choices.iter().enumerate() {
        let change = Change::Replace {
            at: k.saturating_mul(hold),
            count: hold,
            input: inputs[*choice % 3],
        };
        let line = expect_ok(rt, change_line(alloc, change));
        expect_ok(rt, out.extend_from_slice(line.as_slice()));
    }
    expect_ok(rt, out.extend_from_slice(b"best of all 243 sequences\n"));
    out
}

#[test]
fn a_plain_search_finds_the_same(rt: HostRuntime) {
    let alloc = rt.alloc();
    let cart = cart_of(&rt, alloc, COUNTER);
    let image = image_of(&rt, alloc, COUNTER);
    let movie = text_of(&rt, alloc, COUNTER, 0);
    let inputs = three_choices();
    for hold in [1usize, 2] {
        for number in [0u8, 1, 2, 3, 7, 9, 11, 200, 250, 254, 255] {
            let goal = expect_ok(&rt, format!(in alloc; "reach n == {number}"));
            let mut search = search(hold.saturating_mul(5), hold, 1000, goal.as_bytes());
            search.from = 0;
            let out = said(
                &rt,
                alloc,
                &search,
                &mut [image.as_slice(), CHOICES, b"n 80\n"],
                movie.as_slice(),
            );
            let found = shortest(&rt, alloc, &cart, &inputs, hold, number, ALL);
            let wanted = script_of(&rt, alloc, &inputs, hold, found);
            check_same(&rt, (hold, number), out.as_slice(), wanted.as_slice());
        }
    }
}

/// How a search of a movie of five frames ends that has a fault; nothing is written.
fn fault<R: Abort + Threads + Clock + Sync>(
    rt: &R,
    alloc: Global,
    search: &Search<'_>,
    files: &mut [&[u8]],
    movie: &[u8],
) -> Option<SearchError> {
    let mut out = Vec::new(alloc);
    let end = search_run(
        rt,
        alloc,
        search,
        files,
        &mut { movie },
        &mut out,
        &mut sink(),
        &mut sink(),
    );
    check_same(rt, "nothing is written", out.len(), 0);
    end.err()
}

#[test]
fn each_input_at_fault(rt: HostRuntime) {
    let alloc = rt.alloc();
    let image = image_of(&rt, alloc, COUNTER);
    let movie = text_of(&rt, alloc, COUNTER, 5);
    let short = expect_ok(&rt, Vec::from_slice(alloc, b"short"));
    let no_frame = SearchError::Choices(ChoicesError::Line {
        line: 2,
        kind: ChoicesFaultKind::Frame,
    });
    let no_choice = SearchError::Choices(ChoicesError::Line {
        line: 1,
        kind: ChoicesFaultKind::End,
    });
    let no_address = SearchError::Names(NamesError::Line {
        line: 1,
        kind: NamesFaultKind::Address,
    });
    let no_operand = SearchError::Goal(GoalFault::Word {
        word: 3,
        wanted: Wanted::Operand,
    });
    let found = fault(
        &rt,
        alloc,
        &search(3, 0, 100, b""),
        &mut [image.as_slice(), b"..... ..... .....\nR\n", b"n 7F\n"],
        movie.as_slice(),
    );
    check_same(&rt, "no frame", found, Some(no_frame));
    let found = fault(
        &rt,
        alloc,
        &search(3, 0, 100, b""),
        &mut [image.as_slice(), b"", b"n 7F\n"],
        movie.as_slice(),
    );
    check_same(&rt, "no choice", found, Some(no_choice));
    let found = fault(
        &rt,
        alloc,
        &search(3, 0, 100, b""),
        &mut [image.as_slice(), CHOICES, b"n 7F\n"],
        movie.as_slice(),
    );
    check_same(&rt, "no address", found, Some(no_address));
    let found = fault(
        &rt,
        alloc,
        &search(3, 0, 100, b"find n"),
        &mut [image.as_slice(), CHOICES, b"n 80\n"],
        movie.as_slice(),
    );
    check_same(
        &rt,
        "no kind",
        found,
        Some(SearchError::Goal(GoalFault::Kind)),
    );
    let found = fault(
        &rt,
        alloc,
        &search(3, 0, 100, b"reach ( =="),
        &mut [image.as_slice(), CHOICES, b"n 80\n"],
        movie.as_slice(),
    );
    check_same(&rt, "no operand", found, Some(no_operand));
    let found = fault(
        &rt,
        alloc,
        &search(3, 0, 100, b"reach n"),
        &mut [image.as_slice(), CHOICES, b"n 80\n"],
        movie.as_slice(),
    );
    check_same(&rt, "no hold", found, Some(SearchError::Frames));
    let found = fault(
        &rt,
        alloc,
        &search(3, 2, 100, b"reach n"),
        &mut [image.as_slice(), CHOICES, b"n 80\n"],
        movie.as_slice(),
    );
    check_same(&rt, "a frame left", found, Some(SearchError::Frames));
    let found = fault(
        &rt,
        alloc,
        &search(262_142, 1, 100, b"reach n"),
        &mut [image.as_slice(), CHOICES, b"n 80\n"],
        movie.as_slice(),
    );
    check_same(
        &rt,
        "too long",
        found,
        Some(SearchError::Search(SearchFault::Long)),
    );
    // The movie comes first.
    let found = fault(
        &rt,
        alloc,
        &search(3, 0, 100, b""),
        &mut [short.as_slice(), b"..... ..... .....\nR\n", b"n 7F\n"],
        movie.as_slice(),
    );
    check_same(
        &rt,
        "short",
        found,
        Some(SearchError::Run(RunFault::Size(5))),
    );
    let mut late = search(3, 1, 100, b"reach n");
    late.from = 6;
    let found = fault(
        &rt,
        alloc,
        &late,
        &mut [image.as_slice(), CHOICES, b"n 80\n"],
        movie.as_slice(),
    );
    check_same(
        &rt,
        "late",
        found,
        Some(SearchError::Search(SearchFault::Short(5))),
    );
    let found = fault(
        &rt,
        alloc,
        &late,
        &mut [image.as_slice(), CHOICES, b"n 80\n"],
        b"no movie",
    );
    check_that(
        &rt,
        "no movie",
        matches!(found, Some(SearchError::Run(RunFault::Text(_)))),
    );
}
