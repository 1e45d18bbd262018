//! Replacing a file, so that it has its old bytes or all of the new ones at every moment.
//!
//! The file is replaced by a rename, so no moment shows half of it. The new file stands beside it, since a rename across
//! disks isn't one step. `sync_data` comes before, or else a crash of the system might leave the new name with no bytes. The
//! folder isn't synced, so such a crash may bring the old file back. A hundred names are tried: a program that was
//! killed leaves its new file, which nobody else may remove.
//!
//! An output is beside its task, not in it (`Order`): each command writes to a writer as ever, here to one in memory, and
//! what comes of the file is the same for all. So the folder sees a new file only once the answer is whole, and a write to
//! memory that fails is `out of memory`. The commands whose answer is kept as a file have it. A conversation's answers are
//! for its other end, so of `talk` the file gets the movie that is left (`saved_talks`).

ghost use Rattle.std.specs.Prelude.{◌≡◌, ◌⊎◌, ℕ, List, Option, Some, IfOk, IfErr, OnErr, OnOk, option_map, string_bytes};
ghost use Rattle.std.specs.Io.KnownBytes.{Appends};
ghost use Rattle.tas_engines.specs.declared.fault.RunFault.{RunFault};
ghost use Rattle.tas_program.specs.declared.saving.SaveFault.TheVariants.{Memory};
ghost use Rattle.tas_program.specs.Saving.{SaveEnds, IsEmptyIn, IsPart, WasAbsent, made, put};

use crate::Directory;
use std::alloc::{AllocError, Allocator};
use std::io::ErrorKind;
use tas_tool::{RunFault, write_all};
use thiserror::Error;

/// Why a file wasn't replaced: it has its old bytes, and the new file beside it was to be removed ([`Directory::remove`]).
#[derive(Clone, Copy, Debug, PartialEq, Eq, Error)]
pub enum SaveFault {
    /// No new file could be made beside it.
    #[error("fault: FILE: not created")]
    NotCreated,
    /// A write to the new file failed, or took no byte.
    #[error("fault: FILE: write failed after {written} bytes")]
    Write {
        /// How many bytes of the output had gone out.
        written: usize,
    },
    /// The new file's bytes couldn't be brought to the disk.
    #[error("fault: FILE: not synced")]
    NotSynced,
    /// The new file couldn't be given its name.
    #[error("fault: FILE: not renamed")]
    NotRenamed,
    /// Memory was refused.
    #[error("fault: out of memory")]
    Memory,
}

impl From<AllocError> for SaveFault {
    ghost from_gives = { λ _ fault. fault ≡ Memory };

    fn from(_error: AllocError) -> SaveFault {
        SaveFault::Memory
    }
}

/// How many names are tried for the new file: others may be left of calls that were killed.
const PARTS: u32 = 100;

/// A new file beside another one.
#[derive(Drop)]
struct Part<S, A: Allocator> {
    name: String<A>,
    sink: S,
}

/// The name of a new file beside this one.
fn part_name<A: Allocator>(alloc: A, file: &str, number: u32) -> Result<String<A>, AllocError>
    ensures { IfOk result (λ part. IsPart file.now (string_bytes part)) }
{
    let name = format!(in alloc; "{file}.part{number}")?;
    Ok(name)
}

/// Makes a new file beside this one, of a name that no file has.
fn create_beside<A: Allocator + Copy, D: Directory>(
    alloc: A,
    directory: &mut D,
    file: &str,
) -> Result<Part<D::Sink, A>, SaveFault>
    ensures name { IfOk result (λ part. IsPart file.now (string_bytes part.name)) }
    ensures absent { IfOk result (λ part.
        WasAbsent (string_bytes part.name) (D.files directory.old)) }
    ensures made { IfOk result (λ part. D.files directory.new
        ≡ option_map (made (string_bytes part.name)) (D.files directory.old)) }
    ensures empty { IfOk result (λ part.
        IsEmptyIn (D.files directory.old) (D.Sink.contents part.sink)) }
    ensures step { IfOk result (λ part.
        D.steps.made (string_bytes part.name) (D.Sink.contents part.sink)) }
    ensures fault { OnErr result (D.files directory.new ≡ D.files directory.old) }
{
    for number in 0..PARTS {
        let name = part_name(alloc, file, number)?;
        match directory.create_new(name.as_str()) {
            Ok(sink) => return Ok(Part { name, sink }),
            Err(error) => {
                if error.kind() != ErrorKind::AlreadyExists {
                    return Err(SaveFault::NotCreated);
                }
            }
        }
    }
    Err(SaveFault::NotCreated)
}

/// A failed write to the new file.
fn write_fault(fault: RunFault) -> SaveFault {
    match fault {
        RunFault::Write { written } => SaveFault::Write { written },
        // `write_all` ends with no other one.
        _ => SaveFault::Memory,
    }
}

/// Writes a new file, and brings it to the disk.
#[tactic(auto, using(crate::proofs::SavingLemmas::is_filled))]
fn fill<D: Directory>(
    directory: &mut D,
    part: &str,
    sink: D::Sink,
    bytes: &[u8],
) -> Result<(), SaveFault>
    requires { IsEmptyIn (D.files directory.old) (D.Sink.contents sink) }
    ensures ok { OnOk result (D.files directory.new
        ≡ option_map (λ files. put files part.now (Some bytes.now)) (D.files directory.old)) }
    ensures steps { OnOk result ((held : Option (List ℕ))
        × Appends (D.Sink.contents sink) held bytes.now × D.steps.kept part.now held) }
    ensures fault { OnErr result ((D.files directory.new ≡ D.files directory.old)
        ⊎ ((some : Option (List ℕ)) × (D.files directory.new
        ≡ option_map (λ files. put files part.now some) (D.files directory.old)))) }
{
    let mut sink = sink;
    match write_all(&mut sink, bytes) {
        Ok(()) => match directory.keep(part, sink) {
            Ok(()) => Ok(()),
            Err(_) => Err(SaveFault::NotSynced),
        },
        Err(fault) => Err(write_fault(fault)),
    }
}

/// Replaces a file with these bytes: they are written to a new file beside it and brought to the disk, and then this takes its name. So the
/// file has its old bytes or all of the new ones at every moment. With a fault it has its old ones, and [`Directory::remove`] has the new file:
/// the system may refuse to remove it.
pub fn save<A: Allocator + Copy, D: Directory>(
    alloc: A,
    directory: &mut D,
    file: &str,
    bytes: &[u8],
) -> Result<(), SaveFault>
    // A file that is replaced has the new bytes after a good end, and its old ones after any fault; no other file is
    // changed, and the new file beside it is gone, in a directory whose files are known. A good end comes only after a new
    // file was made beside it, the bytes were written to that and brought to the disk, and it took the file's name, as the
    // directory states its steps.
    // Refused: file_is_renamed_before_all_is_written, refused_write_is_a_good_end, new_file_is_left,
    // new_file_is_left_after_a_failed_rename.
    ensures { SaveEnds D.steps file.now bytes.now (D.files directory.old) (D.files directory.new) result }
{
    let Part { name, sink } = create_beside(alloc, directory, file)?;
    let part = name.as_str();
    if let Err(fault) = fill(directory, part, sink, bytes) {
        directory.remove(part);
        return Err(fault);
    }
    match directory.rename(part, file) {
        Ok(()) => Ok(()),
        Err(_) => {
            directory.remove(part);
            Err(SaveFault::NotRenamed)
        }
    }
}
