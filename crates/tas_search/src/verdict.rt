//! The verdict of a search.

ghost use Rattle.std.specs.Prelude.{◌≡◌, ◌*◌, ◌<◌, ◌≤◌, ◌^◌, codes, IfOk};
ghost use Rattle.tas_search.specs.Parts.{IsPart};
ghost use Rattle.tas_search.specs.Power.{IsDecimal};
ghost use Rattle.tas_search.specs.Outcome.{outcome_of};
ghost use Rattle.tas_search.specs.Verdict.{
  IsVerdict,
  IsAnswerLine,
  IsCounted,
  IsNone,
  count_of,
  part_front,
  plain_stop,
  stop_text,
};
ghost use Rattle.tas_search.specs.Inside.Stops.{HasFrames};

use crate::goal::GoalKind;
use crate::movie_search::SearchRange;
use crate::power::product_text;
use crate::searching::Found;
use crate::space_part::{SpacePart, first_count};
use std::alloc::{AllocError, Allocator};

/// How many sequences of `range.count` choices the part has, of this many choices.
fn count_text<A: Allocator + Copy>(
    alloc: A,
    range: SearchRange,
    choices: usize,
) -> Result<Vec<u8, A>, AllocError>
    requires part { IsPart range.part.number range.part.of }
    requires low { 0 < choices }
    requires high { choices ≤ 2 ^ 60 }
    ensures { IfOk result (λ text. IsDecimal text.items (count_of range choices)) }
{
    if range.count == 0 {
        let one = Vec::from_slice(alloc, b"1")?;
        return Ok(one);
    }
    let first = first_count(range.part, choices);
    let text = product_text(alloc, first, choices, range.count - 1)?;
    Ok(text)
}

/// A text that has the number of the part's sequences between two others.
fn counted<A: Allocator + Copy>(
    alloc: A,
    front: &[u8],
    range: SearchRange,
    choices: usize,
    back: &[u8],
) -> Result<Vec<u8, A>, AllocError>
    requires part { IsPart range.part.number range.part.of }
    requires low { 0 < choices }
    requires high { choices ≤ 2 ^ 60 }
    ensures { IfOk result
        (λ text. IsCounted front.now (count_of range choices) back.now text.items) }
{
    let number = count_text(alloc, range, choices)?;
    let mut text = Vec::from_slice(alloc, front)?;
    text.extend_from_slice(number.as_slice())?;
    text.extend_from_slice(back)?;
    Ok(text)
}

/// The line of a search for a value that stopped.
fn plain_stop<A: Allocator>(alloc: A, states: usize, layer: usize) -> Result<Vec<u8, A>, AllocError>
    ensures { IfOk result (λ text. text.items ≡ plain_stop states layer) }
{
    Ok(format!(in alloc; "stopped: more than {states} states in layer {layer}\n")?.into_bytes())
}

/// The line of a search that stopped.
fn stop_line<A: Allocator>(
    alloc: A,
    kind: GoalKind,
    range: SearchRange,
    layer: usize,
) -> Result<Vec<u8, A>, AllocError>
    requires some { 1 ≤ layer }
    requires frames { layer * range.hold < 2 ^ 64 }
    ensures { IfOk result (λ text. text.items ≡ stop_text kind range layer) }
{
    let states = range.states;
    match kind {
        GoalKind::Reach => {
            let frames = (layer - 1) * range.hold;
            let text = format!(in alloc;
                "stopped: more than {states} states in layer {layer}: none of up to {frames} frames reaches it\n"
            )?;
            Ok(text.into_bytes())
        }
        GoalKind::Most => plain_stop(alloc, states, layer),
        GoalKind::Least => plain_stop(alloc, states, layer),
    }
}

/// The line of a search that found nothing.
fn none_line<A: Allocator + Copy>(
    alloc: A,
    kind: GoalKind,
    range: SearchRange,
    choices: usize,
) -> Result<Vec<u8, A>, AllocError>
    requires part { IsPart range.part.number range.part.of }
    requires low { 0 < choices }
    requires high { choices ≤ 2 ^ 60 }
    ensures { IfOk result (λ text. IsNone kind (count_of range choices) text.items) }
{
    match kind {
        GoalKind::Reach => counted(
            alloc,
            b"none: not one of all ",
            range,
            choices,
            b" sequences reaches it\n",
        ),
        GoalKind::Most => all_halt(alloc, range, choices),
        GoalKind::Least => all_halt(alloc, range, choices),
    }
}

/// The line of a search for a value where each sequence halts before its end.
fn all_halt<A: Allocator + Copy>(
    alloc: A,
    range: SearchRange,
    choices: usize,
) -> Result<Vec<u8, A>, AllocError>
    requires part { IsPart range.part.number range.part.of }
    requires low { 0 < choices }
    requires high { choices ≤ 2 ^ 60 }
    ensures { IfOk result
        (λ text. IsCounted (codes "none: each of all ") (count_of range choices)
        (codes " sequences halts before its end\n") text.items) }
{
    counted(
        alloc,
        b"none: each of all ",
        range,
        choices,
        b" sequences halts before its end\n",
    )
}

/// What was found, where there are this many choices.
fn answer_line<A: Allocator + Copy, F: Allocator>(
    alloc: A,
    kind: GoalKind,
    range: SearchRange,
    choices: usize,
    found: &Found<F>,
) -> Result<Vec<u8, A>, AllocError>
    requires part { IsPart range.part.number range.part.of }
    requires low { 0 < choices }
    requires high { choices ≤ 2 ^ 60 }
    requires frames { HasFrames range.hold (outcome_of found.now) }
    ensures { IfOk result
        (λ text. IsAnswerLine kind range choices (outcome_of found.now) text.items) }
{
    match found {
        Found::Best(_) => counted(alloc, b"best of all ", range, choices, b" sequences\n"),
        Found::Nothing => none_line(alloc, kind, range, choices),
        Found::Stopped(layer) => stop_line(alloc, kind, range, *layer),
    }
}

/// What the verdict on a part begins with; nothing where it is the whole.
fn part_text<A: Allocator>(alloc: A, part: SpacePart) -> Result<Vec<u8, A>, AllocError>
    ensures { IfOk result (λ text. text.items ≡ part_front part) }
{
    if part.of == 1 {
        return Ok(Vec::new(alloc));
    }
    let (number, of) = (part.number, part.of);
    Ok(format!(in alloc; "part {number} of {of}: ")?.into_bytes())
}

/// The line that says what was found in which part, where there are this many choices.
pub(crate) fn verdict<A: Allocator + Copy, F: Allocator>(
    alloc: A,
    kind: GoalKind,
    range: SearchRange,
    choices: usize,
    found: &Found<F>,
) -> Result<Vec<u8, A>, AllocError>
    requires part { IsPart range.part.number range.part.of }
    requires low { 0 < choices }
    requires high { choices ≤ 2 ^ 60 }
    requires frames { HasFrames range.hold (outcome_of found.now) }
    // The verdict says which part was searched, unless it is the whole, and how many sequences it has, as a whole number; or at which
    // number of choices the search stopped.
    // Refused: best_of_one_sequence_less, none_is_reported_as_best, stop_reports_the_frames_of_its_layer, part_has_no_number_in_the_verdict,
    // sequences_of_the_whole_are_counted.
    ensures { IfOk result
        (λ text. IsVerdict kind range choices (outcome_of found.now) text.items) }
{
    let line = answer_line(alloc, kind, range, choices, found)?;
    let mut text = part_text(alloc, range.part)?;
    text.extend_from_slice(line.as_slice())?;
    Ok(text)
}
