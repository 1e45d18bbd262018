//! Reading inputs whole, as the commands of `tas_engines` do, whose own functions for it aren't handed out.

ghost use Rattle.std.specs.Prelude.{◌≡◌, map, IfOk, OnOk, IfErr};
ghost use Rattle.tas_engines.specs.Commands.{bytes_of};
ghost use Rattle.tas_engines.specs.Input.{IsReadOnto, AreReadWhole, StopsReading, StopsReadingAll};

use std::alloc::Allocator;
use std::io::Read;
use tas_engines::{ReadFault, read_input};

/// The bytes of the input at this place, counted from 0: none where there is no such input.
pub(crate) fn bytes_of<A: Allocator>(inputs: &[Vec<u8, A>], place: usize) -> &[u8]
    ensures { result.now ≡ bytes_of (map (λ bytes. bytes.items) inputs.now) place }
{
    if place < inputs.len() {
        inputs[place].as_slice()
    } else {
        &[]
    }
}

/// Reads an input as [`read_input`] does, and puts its bytes after those of others.
pub(crate) fn read_onto<A: Allocator + Copy, R: Read>(
    alloc: A,
    inputs: &mut Vec<Vec<u8, A>, A>,
    reader: &mut R,
) -> Result<(), ReadFault>
    ensures whole { OnOk result (IsReadOnto (R.remaining reader.old) (R.remaining reader.new)
        (map (λ bytes. bytes.items) inputs.old.items)
        (map (λ bytes. bytes.items) inputs.new.items)) }
    ensures fault { IfErr result (StopsReading (R.remaining reader.old) (R.remaining reader.new)) }
{
    let bytes = read_input(alloc, reader)?;
    let Ok(()) = inputs.push(bytes) else {
        return Err(ReadFault::Memory);
    };
    Ok(())
}

/// Reads some inputs, one after the other, each as [`read_input`] does. Where reading one fails, those after it are left untouched.
pub(crate) fn read_all<A: Allocator + Copy, R: Read>(
    alloc: A,
    readers: &mut [R],
) -> Result<Vec<Vec<u8, A>, A>, ReadFault>
    ensures whole { IfOk result (λ inputs. AreReadWhole (map R.remaining readers.old)
        (map R.remaining readers.new) (map (λ bytes. bytes.items) inputs.items)) }
    ensures fault { IfErr result
        (StopsReadingAll (map R.remaining readers.old) (map R.remaining readers.new)) }
{
    let mut inputs = Vec::new(alloc);
    for k in 0..readers.len() {
        read_onto(alloc, &mut inputs, &mut readers[k])?;
    }
    Ok(inputs)
}
