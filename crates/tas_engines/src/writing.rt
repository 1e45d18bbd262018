//! Writing an answer.

ghost use Rattle.std.specs.Prelude.{OnOk, IfErr};
ghost use Rattle.std.specs.Io.KnownBytes.{Appends};
ghost use Rattle.tas_engines.specs.Output.{StopsWriting};

use crate::RunFault;
use byte_text::write_counted;
use std::io::Write;

/// Writes all of an answer. A write that fails or takes no byte ends the call with
/// [`RunFault::Write`], which has the number of bytes that had gone out; no write is tried again (no clause
/// says so; a test does).
pub fn write_all<W: Write>(writer: &mut W, bytes: &[u8]) -> Result<(), RunFault>
    // An answer is written whole, or `Write` reports how many of its first bytes went out, fewer than all.
    // Refused: write_fault_forgets_a_byte.
    ensures ok { OnOk result (Appends (W.contents writer.old) (W.contents writer.new) bytes.now) }
    ensures fault { IfErr result
        (StopsWriting (W.contents writer.old) (W.contents writer.new) bytes.now) }
{
    write_counted(bytes, 0, writer)?;
    Ok(())
}
