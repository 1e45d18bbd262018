//! Opening a desk of one seat.

ghost use Rattle.std.specs.Prelude.{◌≡◌, ◌⊎◌, [], length, slice_get, Some, IfOk, IfErr};
ghost use Rattle.tas_desk.specs.Seats.{name_of, seat_of};
ghost use Rattle.tas_desk.specs.Zones.{blank_zone};
ghost use Rattle.tas_engines.specs.declared.fault.RunFault.TheVariants.{Memory, NoPlace};

use std::alloc::Allocator;
use std::sync::Wait;
use tas_desk::{Desk, Name, OpenError, Seat, Unopened};
use tas_engines::RunFault;

/// Opens a desk of one seat, which has made no edits and seen none.
///
/// Faults: `Memory`, and `NoPlace` where the seat gets no place to read from.
pub fn open_alone<N: Name, A: Allocator + Copy, R: Wait>(
    rt: &R,
    alloc: A,
    unopened: Unopened<A>,
) -> Result<(Desk<N, &R, A>, Vec<Seat<N, A>, A>), RunFault>
    requires name { unopened ≡ name_of N.registry N.name N.parts }
    requires one { unopened.seats ≡ 1 }
    ensures alone { IfOk result (λ opened. length opened.1.items ≡ 1) }
    ensures fresh { IfOk result
        (λ opened. slice_get opened.1.items 0 ≡ Some (seat_of 0 0 [] (blank_zone N.registry))) }
    ensures fault { IfErr result (λ fault. (fault ≡ Memory) ⊎ (fault ≡ NoPlace)) }
{
    match Desk::<N, &R, A>::open(rt, alloc, unopened) {
        Ok(opened) => Ok(opened),
        Err(OpenError::Memory) => Err(RunFault::Memory),
        Err(OpenError::NoPlace) => Err(RunFault::NoPlace),
    }
}
