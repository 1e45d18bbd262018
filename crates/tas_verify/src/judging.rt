//! A digest that was stored, compared with the movie's digest of now.

ghost use Rattle.std.specs.Prelude.{◌≡◌, ◌+◌, ◌*◌, ◌-◌, ◌≤◌, ℕ, length, IfSome, IfNone};
ghost use Rattle.tas_movie.specs.Content.{most_inputs};
ghost use Rattle.tas_engines.specs.Input.{most_input_bytes};
ghost use Rattle.tas_verify.specs.Rows.{after_line, first_stretch, differing, SaysFrames, HasStretches, DifferInLine, IsCompared};

use crate::Outcome;
use byte_text::{read_decimal, split_once};
use tas_language::after_prefix;
use tas_movie::MAX_FRAMES;

/// How many frames a stretch has where a digest doesn't say it: as many as where `tas digest` isn't told.
const USUAL_STRETCH: usize = 600;

/// How many lines a digest's head has.
const HEAD_LINES: usize = 4;

/// The bytes after the first newline; none where there is none.
fn after_line(bytes: &[u8]) -> &[u8]
    ensures { result.now ≡ after_line bytes.now }
{
    match split_once(bytes, b'\n') {
        Some((_, after)) => after,
        None => &[],
    }
}

/// How many frames the first stretch has, where its line says it.
fn said_frames(line: &[u8]) -> Option<usize>
    ensures some { IfSome result (SaysFrames line.now) }
    ensures none { IfNone result ((n : ℕ) → SaysFrames line.now n → ⊥) }
{
    let Some(rest) = after_prefix(line, b"frames 0 to ") else {
        return None;
    };
    let Some((word, _)) = split_once(rest, b' ') else {
        return None;
    };
    let Some(every) = read_decimal(word) else {
        return None;
    };
    if every == 0 || MAX_FRAMES < every {
        return None;
    }
    Some(every)
}

/// How many frames the stretches of a digest have.
pub(crate) fn stretch_of(digest: &[u8]) -> usize
    ensures has { HasStretches digest.now result }
    ensures some { 1 ≤ result }
    ensures most { result ≤ most_inputs }
{
    let rest = after_line(after_line(after_line(after_line(digest))));
    match said_frames(rest) {
        Some(every) => every,
        None => USUAL_STRETCH,
    }
}

/// The first line in which two texts differ, counted from 1; nothing where they are the same.
fn differing_line(now: &[u8], stored: &[u8]) -> Option<usize>
    ensures some { IfSome result (DifferInLine now.now stored.now) }
    ensures none { IfNone result (now.now ≡ stored.now) }
    ensures most { IfSome result (λ line. line ≤ length stored.now + 1) }
{
    let mut line = 1;
    let end = now.len().min(stored.len());
    for at in 0..end {
        if now[at] != stored[at] {
            return Some(line);
        }
        if now[at] == b'\n' {
            line += 1;
        }
    }
    if now.len() == stored.len() {
        None
    } else {
        Some(line)
    }
}

/// The outcome of a first line that differs.
fn differing(every: usize, line: usize) -> Outcome
    requires every { every ≤ most_inputs }
    requires line { line ≤ most_input_bytes + 1 }
    ensures { result ≡ differing every line }
{
    if line <= HEAD_LINES {
        Outcome::DiffersInLine(line)
    } else {
        Outcome::DiffersAt((line - HEAD_LINES - 1) * every)
    }
}

/// What came of a movie with this digest now, where another was stored.
pub(crate) fn compare(every: usize, now: &[u8], stored: &[u8]) -> Outcome
    requires every { every ≤ most_inputs }
    requires stored { length stored.now ≤ most_input_bytes }
    ensures { IsCompared every now.now stored.now result }
{
    match differing_line(now, stored) {
        Some(line) => differing(every, line),
        None => Outcome::Same,
    }
}
