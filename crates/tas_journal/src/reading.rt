//! Reading a journal whole.
//!
//! Other inputs have at most 16 MiB (`read_input` of `tas_engines`). A journal grows with each edit and may be longer, so this is std's own
//! loop, which has no limit but memory. It tries an interrupted read again, as no other read of the program is.

ghost use Rattle.std.specs.Prelude.{IfOk, IfErr};
ghost use Rattle.tas_journal.specs.RecoveryRun.{IsJournalRead, StopsInJournal};

use std::alloc::Allocator;
use std::io::{ErrorKind, Read};
use tas_engines::ReadFault;

/// Reads a journal to its end. `Failed` where a read failed, and `Memory` where a growth was refused; `TooLong` never comes.
pub(crate) fn read_journal<A: Allocator, R: Read>(
    alloc: A,
    reader: &mut R,
) -> Result<Vec<u8, A>, ReadFault>
    ensures whole { IfOk result
        (λ bytes. IsJournalRead (R.remaining reader.old) (R.remaining reader.new) bytes.items) }
    ensures fault { IfErr result (StopsInJournal (R.remaining reader.old) (R.remaining reader.new)) }
{
    let mut bytes = Vec::new(alloc);
    match reader.read_to_end(&mut bytes) {
        Ok(_) => Ok(bytes),
        Err(error) => {
            if error.kind() == ErrorKind::OutOfMemory {
                Err(ReadFault::Memory)
            } else {
                Err(ReadFault::Failed)
            }
        }
    }
}
