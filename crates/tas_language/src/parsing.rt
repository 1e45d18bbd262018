//! Parsing a line.
//!
//! The numbers of `pictures FROM TO` are checked here: a strip of no frames would be a line without an answer, so it
//! isn't understood, and neither is one of more than 1,024. Those of `inputs FROM TO` are as many.

ghost use Rattle.std.specs.Prelude.{◌≡◌, ◌≢◌, ◌++◌, ℕ, codes, decimal, IfSome, IfNone};
ghost use Rattle.tas_language.specs.declared.command.Command.{Command as Asked};
ghost use Rattle.tas_language.specs.Commands.{IsNumber, Says, pair_text};
ghost use Rattle.tas_language.specs.declared.request.Request.{Request as AskedFor};
ghost use Rattle.tas_language.specs.Requests.{Asks, IsOneWord, IsStrip};

use crate::loading::load_image;
use crate::words::{after_prefix, number, pair, place_count_frame};
use crate::{Change, Command, Image, Request, read_retouch};

/// What a line, without its newline, asks for; nothing where it isn't understood. Takes no memory.
pub fn parse_line(line: &[u8]) -> Option<Command>
    // A script's line is understood exactly where it is a text of a command; the definitions have no grammar.
    // Refused: greatest_number_has_six_digits, part_up_to_the_images_end_is_refused, letter_g_is_a_digit*,
    // delete_line_with_its_numbers_swapped*, work_line_is_read_as_a_shot*,
    // bytes_of_a_part_go_to_the_image_with_nibbles_swapped*.
    ensures some { IfSome result (Says line.now) }
    ensures none { IfNone result ((command : Asked) → Says line.now command → ⊥) }
{
    if line == b"len".as_slice() {
        return Some(Command::Length);
    }
    if let Some(rest) = after_prefix(line, b"load2") {
        let image = Image::Small(load_image(rest)?);
        return Some(Command::Load { image });
    }
    if let Some(rest) = after_prefix(line, b"load") {
        let image = Image::Large(load_image(rest)?);
        return Some(Command::Load { image });
    }
    if let Some(rest) = after_prefix(line, b"insert ") {
        let (at, count, input) = place_count_frame(rest)?;
        return Some(Command::Edit(Change::Insert { at, count, input }));
    }
    if let Some(rest) = after_prefix(line, b"replace ") {
        let (at, count, input) = place_count_frame(rest)?;
        return Some(Command::Edit(Change::Replace { at, count, input }));
    }
    if let Some(rest) = after_prefix(line, b"delete ") {
        let (at, count) = pair(rest)?;
        return Some(Command::Edit(Change::Delete { at, count }));
    }
    if let Some(frame) = numbered(line, b"input ") {
        return Some(Command::InputAt { frame });
    }
    if let Some(frame) = numbered(line, b"shot ") {
        return Some(Command::Shot { frame });
    }
    let frames = numbered(line, b"work ")?;
    Some(Command::Work { frames })
}

/// The number at the end of a line that begins with `front`.
fn numbered(line: &[u8], front: &[u8]) -> Option<usize>
    ensures some { IfSome result (λ n. (line.now ≡ front.now ++ decimal n) × IsNumber n) }
    ensures none { IfNone result ((n : ℕ) → IsNumber n → line.now ≢ front.now ++ decimal n) }
{
    let rest = after_prefix(line, front)?;
    number(rest)
}

/// How many pictures, or inputs, one line asks for at most.
pub const MAX_PICTURES: usize = 1024;

/// The frames at the end of a line that begins with `front`, as one line may ask for them.
fn strip_frames(line: &[u8], front: &[u8]) -> Option<(usize, usize)>
    ensures some { IfSome result
        (λ found. (line.now ≡ front.now ++ pair_text found.0 found.1) × IsNumber found.0
        × IsNumber found.1 × IsStrip found.0 found.1) }
    ensures none { IfNone result ((from to : ℕ) → IsNumber from → IsNumber to → IsStrip from to
        → line.now ≢ front.now ++ pair_text from to) }
{
    let rest = after_prefix(line, front)?;
    let (from, to) = pair(rest)?;
    if from >= to || to - from > MAX_PICTURES {
        return None;
    }
    Some((from, to))
}

/// The two numbers at the end of a `lag` line.
fn lag_frames(line: &[u8]) -> Option<(usize, usize)>
    ensures some { IfSome result (λ found. (line.now ≡ codes "lag " ++ pair_text found.0 found.1)
        × IsNumber found.0 × IsNumber found.1) }
    ensures none { IfNone result ((from to : ℕ) → IsNumber from → IsNumber to
        → line.now ≢ codes "lag " ++ pair_text from to) }
{
    let rest = after_prefix(line, b"lag ")?;
    pair(rest)
}

/// The request of one word that a line is, but `len`, which is a script's.
fn one_word(line: &[u8]) -> Option<Request>
    ensures some { IfSome result (λ request. Asks line.now request × IsOneWord request) }
    ensures none { IfNone result
        ((request : AskedFor) → IsOneWord request → Asks line.now request → ⊥) }
{
    if line == b"movie".as_slice() {
        return Some(Request::Movie);
    }
    if line == b"states".as_slice() {
        return Some(Request::States);
    }
    if line == b"share".as_slice() {
        return Some(Request::Share);
    }
    if line == b"version".as_slice() {
        return Some(Request::Version);
    }
    if line == b"begin".as_slice() {
        return Some(Request::Begin);
    }
    if line == b"commit".as_slice() {
        return Some(Request::Commit);
    }
    if line == b"drop".as_slice() {
        return Some(Request::Drop);
    }
    if line == b"quit".as_slice() {
        return Some(Request::Quit);
    }
    None
}

/// What a line of any length, without its newline, asks for; nothing where it isn't understood. Takes no memory.
pub fn parse_request(line: &[u8]) -> Option<Request>
    // A conversation's line is understood exactly where it is the text of a request: a command, or one of what only
    // conversations have; the definitions have no grammar.
    // Refused: picture_line_asks_for_another_frame*, movie_line_asks_for_the_states, lag_line_has_its_numbers_swapped*,
    // history_line_asks_for_half_its_number*, share_line_asks_for_the_states*, version_line_asks_for_the_movie,
    // inputs_line_has_its_numbers_swapped.
    // A strip has one frame at least and 1,024 at most.
    // Refused: strip_of_1023_pictures, strip_line_with_its_numbers_swapped*.
    ensures some { IfSome result (Asks line.now) }
    ensures none { IfNone result ((request : AskedFor) → Asks line.now request → ⊥) }
{
    if let Some(request) = one_word(line) {
        return Some(request);
    }
    if let Some(frame) = numbered(line, b"picture ") {
        return Some(Request::Picture { frame });
    }
    if let Some((from, to)) = strip_frames(line, b"pictures ") {
        return Some(Request::Pictures { from, to });
    }
    if let Some((from, to)) = strip_frames(line, b"inputs ") {
        return Some(Request::Inputs { from, to });
    }
    if let Some(frames) = numbered(line, b"ram ") {
        return Some(Request::Ram { frames });
    }
    if let Some(frame) = numbered(line, b"digest ") {
        return Some(Request::Digest { frame });
    }
    if let Some(from) = numbered(line, b"history ") {
        return Some(Request::History { from });
    }
    if let Some((from, to)) = lag_frames(line) {
        return Some(Request::Lag { from, to });
    }
    if let Some(retouch) = read_retouch(line) {
        return Some(Request::Retouch(retouch));
    }
    parse_line(line).map(Request::Do)
}
