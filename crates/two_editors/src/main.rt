//! Two editors, a viewer and a worker share one movie: a desk with four seats, each on a thread of its own.
//!
//! It shows how a desk is opened and named, how seats go to threads and come back, how they meet, and how the desk is closed.
//! What it prints is the same in every run, though the threads of a round run in any order: in each round one seat edits, and the
//! others ask only for what that edit leaves as it is.
#![tactic(auto)]

mod caller;
mod cartridge;

ghost use Rattle.std.specs.Prelude.{◌≡◌};
ghost use Rattle.tas_desk.specs.Seats.{name_of};

use crate::caller::{Caller, Role};
use anyhow::{Result, bail};
use std::alloc::Global;
use std::marker::Brand;
use std::sync::Wait;
use std::thread;
use std::thread::Threads;
use tas_desk::{Closed, Desk, Name, Seat, Unopened};
use tas_movie::Edit;

/// What the seats do, in the order of their numbers.
static ROLES: [Role; 4] = [
    Role::LeftEditor,
    Role::RightEditor,
    Role::Viewer,
    Role::Worker,
];

fn main(rt: HostRuntime) -> Result<()> {
    let unopened = Unopened::new(rt.alloc(), 4)?;
    // The name in the desk's type is picked here, once: no other desk has it, so no seat can come to another desk.
    let closed = share_a_movie::<Brand, HostRuntime>(&rt, rt.alloc(), unopened)?;
    println!(rt; "closed: {} frames", closed.movie.len())?;
    for entry in closed.journal.iter() {
        println!(rt;
            "seat {}, its edit {}: {}",
            entry.seat,
            entry.serial,
            describe(&entry.edit)
        )?;
    }
    Ok(())
}

/// Opens the desk, lets each seat take its turns on a thread of its own, and closes the desk.
fn share_a_movie<N: Name + Send + Sync, R: Threads + Wait + Print + Sync>(
    rt: &R,
    alloc: Global,
    unopened: Unopened,
) -> Result<Closed>
    requires name { unopened ≡ name_of N.registry N.name N.parts }
{
    let (desk, seats) = Desk::<N, &R>::open(rt, alloc, unopened)?;
    let mut callers = callers_of(alloc, seats)?;
    for round in 0..3 {
        thread::for_each_mut(
            rt,
            callers.as_mut_slice(),
            4,
            &|_, caller| caller.take_turn(rt, alloc, &desk, round),
        );
        meet_all(rt, &desk, callers.as_mut_slice());
        report(rt, callers.as_mut_slice(), round)?;
    }
    let seats = seats_of(alloc, callers)?;
    if !desk.whole(seats.as_slice()) {
        bail!("a seat is missing");
    }
    Ok(desk.close(rt, seats))
}

/// The seats with their roles.
fn callers_of<N: Name>(alloc: Global, seats: Vec<Seat<N>>) -> Result<Vec<Caller<N>>> {
    let mut callers = Vec::new(alloc);
    for (seat, role) in seats.into_iter().zip(ROLES) {
        callers.push(Caller::new(seat, role))?;
    }
    Ok(callers)
}

/// The callers' seats, for the desk to be closed with.
fn seats_of<N: Name>(alloc: Global, callers: Vec<Caller<N>>) -> Result<Vec<Seat<N>>> {
    let mut seats = Vec::new(alloc);
    for caller in callers {
        seats.push(caller.seat)?;
    }
    Ok(seats)
}

/// Each caller meets the first one. Then all have seen all edits of this round.
fn meet_all<N: Name, R: Wait>(rt: &R, desk: &Desk<N, &R>, callers: &mut [Caller<N>]) {
    if let Some((first, others)) = callers.split_first_mut() {
        for other in others {
            desk.meet(rt, &mut first.seat, &mut other.seat);
        }
    }
}

/// Prints what each caller saw in this round.
fn report<N: Name, R: Print>(rt: &R, callers: &mut [Caller<N>], round: usize) -> Result<()> {
    for caller in callers {
        caller.report(rt, round)?;
    }
    Ok(())
}

/// An edit in words.
fn describe(edit: &Edit) -> &'static str {
    match edit {
        Edit::Load(_) => "load",
        Edit::Insert { .. } => "insert",
        Edit::Replace { .. } => "replace",
        Edit::Delete { .. } => "delete",
    }
}
