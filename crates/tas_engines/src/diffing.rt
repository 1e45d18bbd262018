//! `tas diff`.

ghost use Rattle.std.specs.Prelude.{◌≡◌, List, Ok, Err, IfOk, IfErr};
ghost use Rattle.std.specs.List.{flat_map};
ghost use Rattle.tas_language.specs.declared.change.Change.{Change};
ghost use Rattle.tas_engines.specs.Differences.{IsDifference};
ghost use Rattle.tas_engines.specs.Scripts.{change_line};
ghost use Rattle.tas_engines.specs.Commands.{OfThree};
ghost use Rattle.tas_engines.specs.Diffing.{IsDiffAnswer};

use crate::commands::{Text, bytes_of};
use crate::movies::movies_of;
use crate::{RunFault, changes_between, print_changes};
use std::alloc::{AllocError, Allocator};
use tas_movie::Movie;

/// The script that makes one movie of another.
fn script_between<A: Allocator + Copy>(
    alloc: A,
    old: &Movie<A>,
    new: &Movie<A>,
) -> Result<Vec<u8, A>, AllocError>
    ensures { IfOk result
        (λ script. (changes : List Change) × IsDifference old.now.inputs new.now.inputs changes
        × (script.items ≡ flat_map change_line changes)) }
{
    let changes = changes_between(alloc, old.inputs(), new.inputs())?;
    print_changes(alloc, changes.as_slice())
}

/// The script that makes one movie of another, both with this cartridge, or why there is none.
fn difference_text<A: Allocator + Copy>(
    alloc: A,
    image: &[u8],
    before: &[u8],
    after: &[u8],
) -> Result<Vec<u8, A>, RunFault>
    ensures text { IfOk result
        (λ text. IsDiffAnswer image.now before.now after.now (Ok text.items)) }
    ensures fault { IfErr result
        (λ fault. IsDiffAnswer image.now before.now after.now (Err fault)) }
{
    let (old, new) = movies_of(alloc, image, before, after)?;
    Ok(script_between(alloc, &old, &new)?)
}

/// `tas diff`: the script that makes the new movie of the old one, nothing where they are equal; of a cartridge, the old movie's text and the
/// new one's.
///
/// Faults, in order: `Size`, then `Text` of the old text and of the new one. `Memory` at any point.
#[derive(Clone, Copy)]
pub struct Diff;

impl Text for Diff {
    // `tas diff` reads the cartridge and both texts whole, and writes the lines of changes that turn the old movie into
    // the new one by `edited`, in hunks, each allowed, and none where they are equal; or reports the first fault, with
    // nothing written: reading, size, the old text, the new text; `Memory` and `Write` as there.
    // Refused: difference_goes_back.
    ghost answers = { λ _. OfThree IsDiffAnswer };

    fn text<A: Allocator + Copy>(
        &self,
        alloc: A,
        inputs: &[Vec<u8, A>],
    ) -> Result<Vec<u8, A>, RunFault> {
        difference_text(
            alloc,
            bytes_of(inputs, 0),
            bytes_of(inputs, 1),
            bytes_of(inputs, 2),
        )
    }
}
