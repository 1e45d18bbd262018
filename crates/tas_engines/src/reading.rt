//! Reading an input whole.
//!
//! A read that fails is never tried again, also where its kind is `Interrupted`; nor is a write. One read asks for at
//! most 4,096 bytes, and never for more than the limit and one byte in all.

ghost use Rattle.std.specs.Prelude.{◌≡◌, ◌≤◌, ◌<◌, length, take, map, IfOk, OnOk, IfErr, IfSome, IfNone};
ghost use Rattle.std.specs.Io.KnownBytes.{Consumes, Keeps, IsAtEnd};
ghost use Rattle.tas_engines.specs.Input.{IsReadWhole, IsReadOnto, AreReadWhole, StopsReading, StopsReadingTwo, StopsReadingAll};

use crate::ReadFault;
use std::alloc::Allocator;
use std::io::Read;

/// How many bytes an input has at most. One more is read, to see that it is too long.
pub const INPUT_LIMIT: usize = 16_777_216;

/// How many bytes one read asks for.
const CHUNK: usize = 4096;

/// One read into a buffer: how many bytes came, or `None` where it failed.
fn read_some<R: Read>(reader: &mut R, buffer: &mut [u8]) -> Option<usize>
    requires { 0 < length buffer.old }
    ensures len { length buffer.new ≡ length buffer.old }
    ensures bound { IfSome result (λ n. n ≤ length buffer.new) }
    ensures bytes { IfSome result
        (λ n. Consumes (R.remaining reader.old) (R.remaining reader.new) (take n buffer.new)) }
    ensures end { IfSome result (λ n. n ≡ 0 → IsAtEnd (R.remaining reader.new)) }
    ensures kept { IfNone result (Keeps (R.remaining reader.old) (R.remaining reader.new)) }
{
    reader.read(buffer).ok()
}

/// Reads an input to its end, and returns its bytes: at most [`INPUT_LIMIT`].
///
/// Reading ends at the first read that fails (`Failed`) or gives no bytes, or with the byte past the
/// limit (`TooLong`); at most the limit and one byte leave the reader. No read is tried again (no
/// clause says so; a test does). `Memory` where a growth was refused.
pub fn read_input<A: Allocator, R: Read>(alloc: A, reader: &mut R) -> Result<Vec<u8, A>, ReadFault>
    // An input is read to its end: all of its bytes, at most 16,777,216, and none is left in the reader.
    // Refused: stops_at_a_short_read.
    ensures whole { IfOk result
        (λ bytes. IsReadWhole (R.remaining reader.old) (R.remaining reader.new) bytes.items) }
    // Where reading stops, it has taken just the byte past the limit (`TooLong`), else at most the limit; nothing else
    // comes of reading.
    // Refused: one_byte_less_is_too_long, input_limit_is_one_byte_less*, long_input_reported_as_a_failed_read*.
    ensures fault { IfErr result (StopsReading (R.remaining reader.old) (R.remaining reader.new)) }
{
    let mut bytes = Vec::new(alloc);
    let mut buffer = [0; CHUNK];
    loop {
        let left = INPUT_LIMIT + 1 - bytes.len();
        let most = left.min(CHUNK);
        match read_some(reader, &mut buffer[..most]) {
            None => return Err(ReadFault::Failed),
            Some(0) => return Ok(bytes),
            Some(n) => {
                if n == left {
                    return Err(ReadFault::TooLong);
                }
                if bytes.extend_from_slice(&buffer[..n]).is_err() {
                    return Err(ReadFault::Memory);
                }
            }
        }
    }
}

/// Reads two inputs, each as [`read_input`] does. Where reading the first one fails, the second
/// one is left untouched.
pub fn read_two<A: Allocator + Copy, C: Read, R: Read>(
    alloc: A,
    first: &mut C,
    second: &mut R,
) -> Result<(Vec<u8, A>, Vec<u8, A>), ReadFault>
    // Two inputs are read whole; where reading stops at the first, the second is untouched, and where it stops at the
    // second, the first was read whole.
    // Refused: second_input_is_not_read.
    ensures first { IfOk result
        (λ read. IsReadWhole (C.remaining first.old) (C.remaining first.new) read.0.items) }
    ensures second { IfOk result
        (λ read. IsReadWhole (R.remaining second.old) (R.remaining second.new) read.1.items) }
    ensures fault { IfErr result
        (StopsReadingTwo (C.remaining first.old) (C.remaining first.new) (R.remaining second.old)
        (R.remaining second.new)) }
{
    let bytes = read_input(alloc, first)?;
    let more = read_input(alloc, second)?;
    Ok((bytes, more))
}

/// Reads an input as [`read_input`] does, and puts its bytes after those of others. Where that fails, the others' bytes are of no use.
pub(crate) fn read_onto<A: Allocator + Copy, R: Read>(
    alloc: A,
    inputs: &mut Vec<Vec<u8, A>, A>,
    reader: &mut R,
) -> Result<(), ReadFault>
    ensures whole { OnOk result (IsReadOnto (R.remaining reader.old) (R.remaining reader.new)
        (map (λ bytes. bytes.items) inputs.old.items)
        (map (λ bytes. bytes.items) inputs.new.items)) }
    ensures fault { IfErr result (StopsReading (R.remaining reader.old) (R.remaining reader.new)) }
{
    let bytes = read_input(alloc, reader)?;
    let Ok(()) = inputs.push(bytes) else {
        return Err(ReadFault::Memory);
    };
    Ok(())
}

/// Reads some inputs, one after the other, each as [`read_input`] does. Where reading one fails, those after it are left untouched.
pub(crate) fn read_all<A: Allocator + Copy, R: Read>(
    alloc: A,
    readers: &mut [R],
) -> Result<Vec<Vec<u8, A>, A>, ReadFault>
    // Some inputs are read so, too, whatever their number: all whole and in order; where reading stops at one, those
    // before it were read whole, and those after it are untouched.
    // Refused: first_file_is_not_read.
    ensures whole { IfOk result (λ inputs. AreReadWhole (map R.remaining readers.old)
        (map R.remaining readers.new) (map (λ bytes. bytes.items) inputs.items)) }
    ensures fault { IfErr result
        (StopsReadingAll (map R.remaining readers.old) (map R.remaining readers.new)) }
{
    let mut inputs = Vec::new(alloc);
    for k in 0..readers.len() {
        read_onto(alloc, &mut inputs, &mut readers[k])?;
    }
    Ok(inputs)
}
