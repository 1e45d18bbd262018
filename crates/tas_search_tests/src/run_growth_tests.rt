//! Goals and whole searches to which each growth of their memory is refused in turn, each with the fault of what it is taken for.

use crate::checks::{check_same, check_that, expect_ok, expect_some};
use crate::goals::COUNTER;
use crate::report_tests::timeless;
use crate::requests::{CHOICES, image_of, search, text_of};
use refusals::Refusing;
use std::alloc::Global;
use std::process::Abort;
use std::thread::Threads;
use std::time::Clock;
use tas_engines::{ReadFault, RunFault};
use tas_search::{
    ChoicesError, GoalFault, Measure, NamesError, Search, SearchBytes, SearchError, SearchFault,
    read_goal, read_names, search_run, search_text,
};

/// The allocator of a goal or of a search.
type Heap = Refusing<Global>;

/// No growth here has this number.
const NEVER: u64 = 1_000_000_000;

/// No call here grows so often.
const MOST: u64 = 1_000;

/// What a growth of a search is taken for, in order.
#[derive(Clone, Copy, Debug, PartialEq, Eq)]
enum Step {
    Inputs,
    Movie,
    Choices,
    Names,
    Goal,
    Layers,
    Texts,
}

/// The steps of a search over bytes.
const OF_BYTES: &[Step] = &[
    Step::Movie,
    Step::Choices,
    Step::Names,
    Step::Goal,
    Step::Layers,
    Step::Texts,
];

/// The steps of a search over readers.
const OF_READERS: &[Step] = &[
    Step::Inputs,
    Step::Movie,
    Step::Choices,
    Step::Names,
    Step::Goal,
    Step::Layers,
    Step::Texts,
];

/// The step to which memory was refused, by the fault; none of any other fault.
fn step_of(error: SearchError) -> Option<Step> {
    match error {
        SearchError::Read(ReadFault::Memory) => Some(Step::Inputs),
        SearchError::Run(RunFault::Memory) => Some(Step::Movie),
        SearchError::Choices(ChoicesError::Memory) => Some(Step::Choices),
        SearchError::Names(NamesError::Memory) => Some(Step::Names),
        SearchError::Goal(GoalFault::Memory) => Some(Step::Goal),
        SearchError::Search(SearchFault::Memory) => Some(Step::Layers),
        SearchError::Memory => Some(Step::Texts),
        _ => None,
    }
}

/// Refuses the reader of a goal its growths in turn, until it grows no more: how many of them there are. Each is reported as out of
/// memory.
fn count_of_goal<R: Abort>(rt: &R, alloc: Global, text: &[u8]) -> u64 {
    let names = expect_ok(rt, read_names(alloc, b"n 80\n"));
    let whole = expect_ok(rt, read_goal(alloc, names.as_slice(), text));
    for number in 1..MOST {
        let heap = Refusing::new(alloc, number);
        match read_goal(&heap, names.as_slice(), text) {
            Ok(goal) => {
                check_that(rt, (text, number), !heap.has_refused());
                check_same(rt, (text, number), goal.kind, whole.kind);
                for byte in [0u8, 7, 0x93] {
                    let ram = [byte; 128];
                    let value = whole.formula.value(&ram);
                    check_same(rt, (text, byte), goal.formula.value(&ram), value);
                }
                return number.saturating_sub(1);
            }
            Err(fault) => {
                check_that(rt, (text, number), heap.has_refused());
                check_same(rt, (text, number), fault, GoalFault::Memory);
            }
        }
    }
    MOST
}

#[test]
fn each_growth_of_a_goal(rt: HostRuntime) {
    let alloc = rt.alloc();
    // A goal takes memory for the list of its words, with room for 4, 8 and then 16 of them, for the operand of each `not`, and for both of each
    // operator.
    for (text, growths) in [
        (b"reach n".as_slice(), 1u64),
        (b"most not n", 2),
        (b"reach n == 1", 3),
        (b"least ( n + 1 ) * ( bcd:n - not pair:80 )", 10),
    ] {
        check_same(&rt, text, count_of_goal(&rt, alloc, text), growths);
    }
}

/// What a search answers, the script and after it the verdict, or why it doesn't; and its report.
#[derive(Drop)]
struct Reply {
    answer: Result<Vec<u8>, SearchError>,
    report: Vec<u8>,
}

/// The reply of a search over bytes.
fn reply_of_bytes<R: Abort + Threads + Clock + Sync>(
    rt: &R,
    alloc: Global,
    heap: &Heap,
    search: &Search<'_>,
    bytes: &SearchBytes<'_>,
) -> Reply {
    let (mut shown, mut report) = (Vec::new(alloc), Vec::new(alloc));
    let answer = match search_text(rt, heap, search, bytes, &mut shown, &mut report) {
        Err(error) => Err(error),
        Ok(text) => {
            let mut said = expect_ok(rt, Vec::from_slice(alloc, text.script.as_slice()));
            expect_ok(rt, said.extend_from_slice(text.verdict.as_slice()));
            Ok(said)
        }
    };
    check_same(rt, "both reports", shown.as_slice(), report.as_slice());
    let report = timeless(rt, alloc, report.as_slice());
    Reply { answer, report }
}

/// The reply of a search over readers. Where there is no answer, nothing is written.
fn reply_of_readers<R: Abort + Threads + Clock + Sync>(
    rt: &R,
    alloc: Global,
    heap: &Heap,
    search: &Search<'_>,
    bytes: &SearchBytes<'_>,
) -> Reply {
    let (mut shown, mut report) = (Vec::new(alloc), Vec::new(alloc));
    let mut out = Vec::new(alloc);
    let end = search_run(
        rt,
        heap,
        search,
        &mut [bytes.image, bytes.choices, bytes.names],
        &mut { bytes.movie },
        &mut out,
        &mut shown,
        &mut report,
    );
    let answer = match end {
        Err(error) => {
            check_same(rt, "nothing is written", out.len(), 0);
            Err(error)
        }
        Ok(verdict) => {
            expect_ok(rt, out.extend_from_slice(verdict.as_slice()));
            Ok(out)
        }
    };
    check_same(rt, "both reports", shown.as_slice(), report.as_slice());
    let report = timeless(rt, alloc, report.as_slice());
    Reply { answer, report }
}

/// The reply of a search to which the growth with this number is refused, and whether it came to that.
fn refused_reply<R: Abort + Threads + Clock + Sync>(
    rt: &R,
    alloc: Global,
    search: &Search<'_>,
    bytes: &SearchBytes<'_>,
    has_readers: bool,
    number: u64,
) -> (Reply, bool) {
    let heap = Refusing::new(alloc, number.max(1));
    let reply = if has_readers {
        reply_of_readers(rt, alloc, &heap, search, bytes)
    } else {
        reply_of_bytes(rt, alloc, &heap, search, bytes)
    };
    (reply, heap.has_refused())
}

/// Refuses a search its growths in turn, until it grows no more: the steps to which they belong, one for each growth without which there is
/// no answer. After each growth that was refused it has no answer, and the first lines of its report, or ends as ever.
fn steps_refused<R: Abort + Threads + Clock + Sync>(
    rt: &R,
    alloc: Global,
    search: &Search<'_>,
    bytes: &SearchBytes<'_>,
    has_readers: bool,
) -> Vec<Step> {
    let (whole, _) = refused_reply(rt, alloc, search, bytes, has_readers, NEVER);
    check_that(rt, "whole", whole.answer.is_ok());
    let mut steps = Vec::new(alloc);
    for number in 1..MOST {
        let (end, has_refused) = refused_reply(rt, alloc, search, bytes, has_readers, number);
        let Reply { answer, report } = end;
        match answer {
            Err(error) => {
                check_that(rt, number, has_refused);
                expect_ok(rt, steps.push(expect_some(rt, step_of(error))));
                let is_beginning = whole.report.starts_with(report.as_slice());
                check_that(rt, number, is_beginning);
            }
            Ok(said) => {
                check_that(rt, number, whole.answer == Ok(said));
                check_that(rt, number, report == whole.report);
                if !has_refused {
                    return steps;
                }
            }
        }
    }
    check_that(rt, "it grows no more", false);
    steps
}

/// How many of the steps are this one.
fn count_of(steps: &[Step], wanted: Step) -> u64 {
    let mut count = 0u64;
    for step in steps {
        if *step == wanted {
            count = count.saturating_add(1);
        }
    }
    count
}

/// Fails where a search's steps, each once where it comes several times in a row, are others, or where one that reads a file or the goal
/// comes more or less often than what it reads takes memory.
fn check_steps<R: Abort>(rt: &R, alloc: Global, goal: &[u8], steps: &[Step], wanted: &[Step]) {
    let mut order = Vec::new(alloc);
    for step in steps {
        if order.last().copied() != Some(*step) {
            expect_ok(rt, order.push(*step));
        }
    }
    check_same(rt, goal, order.as_slice(), wanted);
    // The choices are one list. The names are one, with one name's text.
    check_same(rt, goal, count_of(steps, Step::Choices), 1);
    check_same(rt, goal, count_of(steps, Step::Names), 2);
    let growths = count_of_goal(rt, alloc, goal);
    check_same(rt, goal, count_of(steps, Step::Goal), growths);
}

#[test]
fn each_growth_of_a_whole_search(rt: HostRuntime) {
    let alloc = rt.alloc();
    let image = image_of(&rt, alloc, COUNTER);
    let movie = text_of(&rt, alloc, COUNTER, 5);
    let bytes = SearchBytes {
        image: image.as_slice(),
        choices: CHOICES,
        names: b"n 80\n",
        movie: movie.as_slice(),
    };
    for goal in [
        b"reach n == 1".as_slice(),
        b"reach n == 9",
        b"most ( n + 1 ) * 2",
    ] {
        let mut asked = search(4, 1, 100, goal);
        // With one worker the growths come in one order.
        asked.workers = 1;
        let steps = steps_refused(&rt, alloc, &asked, &bytes, false);
        check_steps(&rt, alloc, goal, steps.as_slice(), OF_BYTES);
        let steps = steps_refused(&rt, alloc, &asked, &bytes, true);
        check_steps(&rt, alloc, goal, steps.as_slice(), OF_READERS);
    }
}

#[test]
fn the_sticks_choices_are_refused(rt: HostRuntime) {
    let alloc = rt.alloc();
    let image = image_of(&rt, alloc, COUNTER);
    let movie = text_of(&rt, alloc, COUNTER, 5);
    let bytes = SearchBytes {
        image: image.as_slice(),
        choices: b"",
        names: b"n 80\n",
        movie: movie.as_slice(),
    };
    let mut asked = search(1, 1, 100, b"reach n == 1");
    asked.workers = 1;
    asked.has_choices = false;
    let steps = steps_refused(&rt, alloc, &asked, &bytes, false);
    check_steps(&rt, alloc, asked.goal, steps.as_slice(), OF_BYTES);
}
