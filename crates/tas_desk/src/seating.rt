//! The seats of a desk that opens.

ghost use Rattle.std.specs.Prelude.{◌≡◌, ℕ, ◌+◌, ◌<◌, [], length, slice_get, Some, IfOk, OnOk};
ghost use Rattle.tas_desk.specs.Seats.{seat_of};
ghost use Rattle.tas_desk.specs.Zones.{blank_zone};

use crate::seat_zone::SeatZone;
use crate::{Name, OpenError, Seat, Session};
use std::alloc::Allocator;
use std::sync::Wait;
use std::sync::ledger::Share;

/// The seat of this number, at a session without edits, with one part of the ledger. `NoPlace` comes where its reader gets no
/// place, `Memory` where memory is refused.
fn new_seat<N: Name, R: Wait, A: Allocator + Copy>(
    rt: &R,
    alloc: A,
    session: &mut Session<A>,
    rest: &mut Share<N>,
    number: u32,
) -> Result<Seat<N, A>, OpenError>
    requires session { (session.old.registry ≡ N.registry) × (session.old.journal ≡ []) }
    requires rest { (0 < rest.old.parts) × (rest.old.amount ≡ 0) }
    ensures session { session.new ≡ session.old }
    ensures rest { OnOk result ((rest.new.parts + 1 ≡ rest.old.parts) × (rest.new.amount ≡ 0)) }
    ensures seat { IfOk result (λ seat. seat ≡ seat_of number 0 [] (blank_zone N.registry)) }
{
    let Ok(reader) = session.reader(rt) else {
        return Err(OpenError::NoPlace);
    };
    match SeatZone::new(alloc, session.version()) {
        Ok(zone) => Ok(Seat::new(number, rest.split_off(1, 0), reader, zone)),
        Err(_) => Err(OpenError::Memory),
    }
}

/// This many seats, numbered from 0, at a session without edits, each with one part of the ledger, which has no more.
pub fn new_seats<N: Name, R: Wait, A: Allocator + Copy>(
    rt: &R,
    alloc: A,
    session: &mut Session<A>,
    rest: &mut Share<N>,
    count: u32,
) -> Result<Vec<Seat<N, A>, A>, OpenError>
    requires session { (session.old.registry ≡ N.registry) × (session.old.journal ≡ []) }
    requires rest { (rest.old.parts ≡ count) × (rest.old.amount ≡ 0) }
    ensures session { session.new ≡ session.old }
    ensures rest { OnOk result ((rest.new.parts ≡ 0) × (rest.new.amount ≡ 0)) }
    ensures seats { IfOk result (λ seats. length seats.items ≡ count) }
    ensures fresh { IfOk result
        (λ seats. (k : ℕ) → k < count
        → slice_get seats.items k ≡ Some (seat_of k 0 [] (blank_zone N.registry))) }
{
    let mut seats = Vec::new(alloc);
    for number in 0..count {
        let seat = new_seat(rt, alloc, session, rest, number)?;
        if let Err(_) = seats.push(seat) {
            return Err(OpenError::Memory);
        }
    }
    Ok(seats)
}
