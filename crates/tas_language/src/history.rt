//! The lines of a history: each edit as the lines of a script that make it.

ghost use Rattle.std.specs.Prelude.{◌≡◌, ◌++◌, IfOk, OnOk, decimal};
ghost use Rattle.tas_movie.specs.Text.{line};
ghost use Rattle.tas_language.specs.Answers.{history_head, history_text};
ghost use Rattle.tas_language.specs.Commands.{change_text, frames_text};
ghost use Rattle.tas_language.specs.declared.change.Change.TheVariants.{Delete};
ghost use Rattle.tas_language.specs.Parts.{IsBytes};
ghost use Rattle.tas_language.specs.History.{edit_lines, entry_text, load_text, image_of, some_runs_of, run_lines, LoadsCartridge};

use crate::looks::push_digits;
use itoa::Buffer;
use std::alloc::{AllocError, Allocator};
use tas_movie::{Edit, FrameRun, print_frame, run_length};
use vcs_inputs::{Input, SMALL_CART_SIZE};

/// Appends a number. The place of a run may be past 64 bits, in an edit that no movie allows.
fn push_number<A: Allocator>(text: &mut Vec<u8, A>, n: u128) -> Result<(), AllocError>
    ensures { OnOk result (text.new.items ≡ text.old.items ++ decimal n) }
{
    let mut buffer = Buffer::new();
    text.extend_from_slice(buffer.format(n).as_bytes())
}

/// Appends a prefix and the line that begins with a word and has a run at a place.
fn push_run<A: Allocator>(
    text: &mut Vec<u8, A>,
    prefix: &[u8],
    word: &[u8],
    at: u128,
    run: FrameRun,
) -> Result<(), AllocError>
    ensures { OnOk result
        (text.new.items
        ≡ text.old.items
        ++ line (prefix.now ++ (word.now ++ frames_text at run.count run.input))) }
{
    text.extend_from_slice(prefix)?;
    text.extend_from_slice(word)?;
    push_number(text, at)?;
    text.push(b' ')?;
    push_number(text, run.count as u128)?;
    text.push(b' ')?;
    text.extend_from_slice(&print_frame(run.input))?;
    text.push(b'\n')?;
    Ok(())
}

/// Appends a line for each run of equal inputs, as long as it can be, and one line with the count 0 where there are no inputs.
pub fn push_inputs<A: Allocator>(
    text: &mut Vec<u8, A>,
    prefix: &[u8],
    word: &[u8],
    at: usize,
    inputs: &[Input],
) -> Result<(), AllocError>
    ensures { OnOk result
        (text.new.items
        ≡ text.old.items ++ run_lines prefix.now word.now at (some_runs_of inputs.now)) }
{
    if inputs.is_empty() {
        let run = FrameRun {
            input: Input::none(),
            count: 0,
        };
        return push_run(text, prefix, word, at as u128, run);
    }
    let mut done = 0;
    while done < inputs.len() {
        let input = inputs[done];
        let count = run_length(&inputs[done..], input);
        let place = at as u128 + done as u128;
        push_run(text, prefix, word, place, FrameRun { input, count })?;
        done += count;
    }
    Ok(())
}

/// Appends a prefix and the line that loads a cartridge's image, all of it in one part.
fn push_load<A: Allocator>(
    text: &mut Vec<u8, A>,
    prefix: &[u8],
    image: &[u8],
) -> Result<(), AllocError>
    ensures text { OnOk result
        (text.new.items
        ≡ text.old.items ++ line (prefix.now ++ load_text (image_of image.now))) }
    ensures bytes { IsBytes image.now }
{
    text.extend_from_slice(prefix)?;
    text.extend_from_slice(b"load")?;
    if image.len() == SMALL_CART_SIZE {
        text.push(b'2')?;
    }
    text.extend_from_slice(b" 000=")?;
    push_digits(text, image)?;
    text.push(b'\n')?;
    Ok(())
}

/// Appends a prefix and the line of a deletion.
fn push_deletion<A: Allocator>(
    text: &mut Vec<u8, A>,
    prefix: &[u8],
    at: usize,
    count: usize,
) -> Result<(), AllocError>
    ensures { OnOk result
        (text.new.items
        ≡ text.old.items ++ line (prefix.now ++ change_text (Delete at count))) }
{
    text.extend_from_slice(prefix)?;
    text.extend_from_slice(b"delete ")?;
    push_number(text, at as u128)?;
    text.push(b' ')?;
    push_number(text, count as u128)?;
    text.push(b'\n')?;
    Ok(())
}

/// Appends the lines of a script that make an edit, each after the prefix: `load` or `load2`, `insert`, `replace` or
/// `delete`. Of inputs each run of equal ones has a line, in order; no inputs have one line with the count 0.
/// `AllocError` where memory is refused; some of the lines may be there then.
pub fn push_edit_lines<A: Allocator, B: Allocator>(
    text: &mut Vec<u8, A>,
    prefix: &[u8],
    edit: &Edit<B>,
) -> Result<(), AllocError>
    // An edit of a history is reported by a line for each run of its frames, by one line where it has no frames, loads
    // a cartridge or deletes; each after the edit's number and that of its seat. What it loads is an image of 2,048 or
    // 4,096 bytes.
    // Refused: runs_after_the_first_are_left_out, small_image_is_loaded_by_another_word, run_of_no_frames_is_left_out*,
    // runs_are_all_at_the_first_place*, replacement_of_a_history_is_reported_as_insertion*,
    // deletion_of_a_history_has_its_place_twice*.
    ensures text { OnOk result
        (text.new.items ≡ text.old.items ++ edit_lines prefix.now edit.now) }
    ensures cartridge { LoadsCartridge edit.now }
{
    match edit {
        Edit::Load(cart) => push_load(text, prefix, cart.bytes()),
        Edit::Insert { at, inputs } => {
            push_inputs(text, prefix, b"insert ", *at, inputs.as_slice())
        }
        Edit::Replace { at, inputs } => {
            push_inputs(text, prefix, b"replace ", *at, inputs.as_slice())
        }
        Edit::Delete { at, count } => push_deletion(text, prefix, *at, *count),
    }
}

/// Appends the lines of a history's entry: those of its edit, each after the entry's number, the number of its seat
/// and a space after each. `AllocError` where memory is refused; some of the lines may be there then.
pub fn push_entry<A: Allocator, B: Allocator>(
    alloc: A,
    text: &mut Vec<u8, A>,
    number: usize,
    seat: u32,
    edit: &Edit<B>,
) -> Result<(), AllocError>
    // Refused: seat_and_number_of_an_entry_are_swapped, entry_is_numbered_by_its_seat*.
    ensures text { OnOk result
        (text.new.items ≡ text.old.items ++ entry_text number seat edit.now) }
    ensures cartridge { OnOk result (LoadsCartridge edit.now) }
{
    let prefix = format!(in alloc; "{number} {seat} ")?.into_bytes();
    push_edit_lines(text, prefix.as_slice(), edit)
}

/// The first line of the answer to `history FROM`.
fn history_head<A: Allocator>(
    alloc: A,
    at: u64,
    from: usize,
    count: usize,
    bytes: usize,
) -> Result<Vec<u8, A>, AllocError>
    ensures { IfOk result (λ head. head.items ≡ history_head at from count bytes) }
{
    Ok(format!(in alloc; "history {at} {from} {count} {bytes}\n")?.into_bytes())
}

/// The answer to `history FROM`: `history AT FROM COUNT BYTES`, a newline, and this many bytes: the lines of the entries from
/// FROM on, of which there are COUNT. `AllocError` where memory is refused.
pub fn history_answer<A: Allocator>(
    alloc: A,
    at: u64,
    from: usize,
    count: usize,
    lines: &[u8],
) -> Result<Vec<u8, A>, AllocError>
    // Refused: half_of_the_historys_bytes_are_reported.
    ensures { IfOk result (λ bytes. bytes.items ≡ history_text at from count lines.now) }
{
    let mut bytes = history_head(alloc, at, from, count, lines.len())?;
    bytes.extend_from_slice(lines)?;
    Ok(bytes)
}
