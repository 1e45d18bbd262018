//! Conversations of which one growth is refused, each growth in turn, and what may come of each of their lines.

use crate::checks::{check_same, check_that, expect_ok};
use refusals::Refusing;
use std::alloc::Global;
use std::process::Abort;
use std::sync::Wait;
use tas_tool::{RunFault, ToolFault, talk_run};

/// No conversation grows so often here.
pub const MOST: u64 = 1000;

/// What comes of a line whose memory is refused.
#[derive(Clone, Copy, Debug)]
pub enum Refusal {
    /// It is answered `out of memory`, and those after it as if it weren't there.
    Undone,
    /// It is answered `out of memory`, and those after it as if it were answered.
    Done,
    /// It isn't answered: the conversation ends with the fault `out of memory`.
    Ended,
}

/// A line, and each way in which it is refused, where those of the whole conversation differ in an answer or in the end.
pub type Row = (&'static [u8], &'static [Refusal]);

/// A conversation that is about one of its lines.
#[derive(Clone, Copy)]
pub struct Conversation<'a> {
    /// The lines before it.
    pub before: &'a [Row],
    /// The line; of a strip the lines for its pictures, whose answers are the strip's.
    pub about: &'a [Row],
    /// The lines after it.
    pub after: &'a [Row],
    /// The last answer, where memory is there.
    pub last: &'a [u8],
}

/// How a conversation ended, and its answers.
#[derive(Drop)]
pub struct Talk {
    end: Result<(), ToolFault>,
    answers: Vec<u8>,
}

/// What is answered to lines, where memory is there.
pub fn answers<T: Wait + Abort>(rt: &T, alloc: Global, lines: &[u8]) -> Vec<u8> {
    let mut input = lines;
    let mut output = Vec::new(alloc);
    let end = talk_run(rt, alloc, &mut input, &mut output).end;
    check_same(rt, "end", end, Ok(()));
    output
}

/// Appends the lines of some rows.
fn push_lines<R: Abort>(rt: &R, lines: &mut Vec<u8>, rows: &[Row]) {
    for (line, _ways) in rows {
        expect_ok(rt, lines.extend_from_slice(line));
    }
}

/// What is answered to the lines of some rows and then of others, where memory is there.
fn answers_to<T: Wait + Abort>(rt: &T, alloc: Global, first: &[Row], then: &[Row]) -> Vec<u8> {
    let mut lines = Vec::new(alloc);
    push_lines(rt, &mut lines, first);
    push_lines(rt, &mut lines, then);
    answers(rt, alloc, lines.as_slice())
}

/// How many of the rows count as answered where the line at a place is refused in one way; `None` where the conversation ends there.
fn count_made(way: Refusal, place: usize) -> Option<usize> {
    match way {
        Refusal::Undone => Some(place),
        Refusal::Done => Some(place.saturating_add(1)),
        Refusal::Ended => None,
    }
}

/// Appends `out of memory`, and what is answered to the lines after a place once the first `made` rows are answered.
fn push_refused<T: Wait + Abort>(
    rt: &T,
    alloc: Global,
    told: &mut Vec<u8>,
    rows: &[Row],
    place: usize,
    made: usize,
) {
    let first = rows.get(..made).unwrap_or(&[]);
    let then = rows.get(place.saturating_add(1)..).unwrap_or(&[]);
    let start = answers_to(rt, alloc, first, &[]);
    let whole = answers_to(rt, alloc, first, then);
    let rest = whole.as_slice().get(start.len()..).unwrap_or(&[]);
    expect_ok(rt, told.extend_from_slice(b"out of memory\n"));
    expect_ok(rt, told.extend_from_slice(rest));
}

/// How a conversation goes where the line at a place is refused in one way.
fn wanted_talk<T: Wait + Abort>(
    rt: &T,
    alloc: Global,
    rows: &[Row],
    place: usize,
    way: Refusal,
) -> Talk {
    let before = rows.get(..place).unwrap_or(&[]);
    let mut told = answers_to(rt, alloc, before, &[]);
    let Some(made) = count_made(way, place) else {
        let end = Err(ToolFault::Run(RunFault::Memory));
        return Talk { end, answers: told };
    };
    push_refused(rt, alloc, &mut told, rows, place, made);
    Talk {
        end: Ok(()),
        answers: told,
    }
}

/// The conversations of these lines of which one growth is refused, each growth in turn.
fn refused_talks<T: Wait + Abort>(rt: &T, alloc: Global, lines: &[u8]) -> Vec<Talk> {
    let mut talks = Vec::new(alloc);
    for number in 1..MOST {
        let heap = Refusing::new(alloc, number);
        let mut input = lines;
        let mut answers = Vec::new(alloc);
        let end = talk_run(rt, &heap, &mut input, &mut answers).end;
        if !heap.has_refused() {
            break;
        }
        expect_ok(rt, talks.push(Talk { end, answers }));
    }
    talks
}

/// How many of the conversations went so.
fn times_gone(talks: &[Talk], wanted: &Talk) -> usize {
    talks
        .iter()
        .filter(|talk| {
            talk.end == wanted.end && talk.answers.as_slice() == wanted.answers.as_slice()
        })
        .count()
}

/// In how many of the conversations the line at a place is refused, in one of these ways. Fails where one of them never comes.
fn times_refused<T: Wait + Abort>(
    rt: &T,
    alloc: Global,
    talks: &[Talk],
    rows: &[Row],
    place: usize,
    ways: &[Refusal],
) -> usize {
    let mut times = 0usize;
    for way in ways {
        let wanted = wanted_talk(rt, alloc, rows, place, *way);
        let here = times_gone(talks, &wanted);
        check_that(rt, (place, *way), here > 0);
        times = times.saturating_add(here);
    }
    times
}

/// Fails where a conversation goes otherwise than by a refusal of one of the rows, or one of these never comes. Two that would look alike
/// are counted twice, and fail, too.
fn check_talks<T: Wait + Abort>(rt: &T, alloc: Global, talks: &[Talk], rows: &[Row]) {
    let mut times = 0usize;
    for (place, (_line, ways)) in rows.iter().enumerate() {
        let here = times_refused(rt, alloc, talks, rows, place, ways);
        times = times.saturating_add(here);
    }
    check_same(rt, "all refusals", times, talks.len());
}

impl<'a> Conversation<'a> {
    /// All its lines, with this one for those that it is about.
    fn lines<R: Abort>(&self, rt: &R, alloc: Global, line: &[u8]) -> Vec<u8> {
        let mut lines = Vec::new(alloc);
        push_lines(rt, &mut lines, self.before);
        expect_ok(rt, lines.extend_from_slice(line));
        push_lines(rt, &mut lines, self.after);
        lines
    }

    /// All its rows.
    fn rows<R: Abort>(&self, rt: &R, alloc: Global) -> Vec<Row> {
        let mut rows = Vec::new(alloc);
        expect_ok(rt, rows.extend_from_slice(self.before));
        expect_ok(rt, rows.extend_from_slice(self.about));
        expect_ok(rt, rows.extend_from_slice(self.after));
        rows
    }

    /// The line that it is about.
    fn line<R: Abort>(&self, rt: &R, alloc: Global) -> Vec<u8> {
        let mut line = Vec::new(alloc);
        push_lines(rt, &mut line, self.about);
        line
    }

    /// Refuses each growth in turn, where this strip stands for its pictures. Fails where a line is refused in another way than its row
    /// says, or one of its ways never comes.
    pub fn check_strip<T: Wait + Abort>(&self, rt: &T, alloc: Global, strip: &[u8]) {
        let lines = self.lines(rt, alloc, strip);
        let rows = self.rows(rt, alloc);
        let whole = answers(rt, alloc, lines.as_slice());
        let parts = answers_to(rt, alloc, rows.as_slice(), &[]);
        check_that(rt, "whole", whole.as_slice() == parts.as_slice());
        check_that(rt, "last", whole.as_slice().ends_with(self.last));
        let talks = refused_talks(rt, alloc, lines.as_slice());
        check_talks(rt, alloc, talks.as_slice(), rows.as_slice());
    }

    /// As [`Conversation::check_strip`], of a line that is no strip.
    pub fn check<T: Wait + Abort>(&self, rt: &T, alloc: Global) {
        let line = self.line(rt, alloc);
        self.check_strip(rt, alloc, line.as_slice());
    }

    /// How many of its growths, refused, leave the line undone.
    pub fn times_undone<T: Wait + Abort>(&self, rt: &T, alloc: Global) -> usize {
        let line = self.line(rt, alloc);
        let lines = self.lines(rt, alloc, line.as_slice());
        let rows = self.rows(rt, alloc);
        let talks = refused_talks(rt, alloc, lines.as_slice());
        let place = self.before.len();
        let wanted = wanted_talk(rt, alloc, rows.as_slice(), place, Refusal::Undone);
        times_gone(talks.as_slice(), &wanted)
    }
}
