//! Writing bytes, and how many of them went out.

ghost use Rattle.std.specs.Prelude.{◌≡◌, ◌+◌, ◌-◌, ◌≤◌, ◌<◌, ◌^◌, length, IfOk, IfErr, OnOk};
ghost use Rattle.std.specs.Io.KnownBytes.{Appends};
ghost use Rattle.byte_text.specs.CutOff.{IsCutOff};

use std::io::{Error, ErrorKind, Write};

/// A write failed, or took no byte, after `written` bytes, counting earlier ones.
#[derive(Drop)]
pub struct WriteFault {
    /// How many bytes had gone out: fewer than all.
    pub written: usize,
    /// The writer's error; after an `Ok(0)` one of kind `WriteZero`.
    pub error: Error,
}

/// Writes until all is written or a write fails, and returns how many bytes have gone out with the `before` ones that went out earlier.
///
/// An error of the writer, of any kind, or an `Ok(0)` ends it, and no write is tried again. The fault counts the bytes before, too.
/// A caller shows that all of them together can be counted: they are fewer than 2^64.
pub fn write_counted<W: Write>(bytes: &[u8], before: usize, to: &mut W) -> Result<usize, WriteFault>
    requires { before + length bytes.now < 2 ^ 64 }
    // `count`, `all`: all bytes are written, in order, and counted with those before.
    // Refused: bytes_before_are_not_counted*, writer_that_takes_nothing_is_done.
    ensures count { IfOk result (λ n. n ≡ before + length bytes.now) }
    ensures all { OnOk result (Appends (W.contents to.old) (W.contents to.new) bytes.now) }
    // `cut`, `from`: after a failed write, or one that takes no byte, the first n bytes are written, fewer than
    // all; the fault reports n and those before.
    // Refused: half_of_the_bytes_taken_are_counted, fault_forgets_the_bytes_before*,
    // first_write_at_fault_forgets_the_bytes_before*.
    ensures cut { IfErr result
        (λ f. IsCutOff (W.contents to.old) (W.contents to.new) bytes.now (f.written - before)) }
    ensures from { IfErr result (λ f. before ≤ f.written) }
{
    let mut sent = 0;
    while sent < bytes.len() {
        match to.write(&bytes[sent..]) {
            Ok(0) => {
                return Err(WriteFault {
                    written: before + sent,
                    error: Error::from(ErrorKind::WriteZero),
                });
            }
            Ok(n) => sent += n,
            Err(error) => {
                return Err(WriteFault {
                    written: before + sent,
                    error,
                });
            }
        }
    }
    Ok(before + sent)
}
