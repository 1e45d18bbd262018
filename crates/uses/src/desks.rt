//! Several editors of one movie.

ghost use Rattle.std.specs.Prelude.{◌≡◌};
ghost use Rattle.tas_desk.specs.Seats.{name_of};

use anyhow::{Result, bail};
use std::alloc::Global;
use std::sync::Wait;
use tas_desk::{CloseOnDrop, Closed, Desk, Name, Seat, Unopened};
use tas_journaling::{Journal, JournalFile, converse_noted};
use tas_movie::{Edit, Inputs, Movie};
use tas_seat::converse;
use vcs_inputs::Input;

/// One seat edits, and another sees it: how many edits and frames.
pub fn two_seats<N: Name, W: CloseOnDrop, R: Wait>(
    rt: &R,
    alloc: Global,
    desk: &Desk<N, W>,
    seats: &mut [Seat<N>],
) -> Result<(u64, usize)> {
    let [one, other] = seats else {
        bail!("a seat is missing")
    };
    let inputs = Inputs::repeated(alloc, Input::none(), 200)?;
    desk.edit(rt, one, Edit::Insert { at: 0, inputs })?; // edit 1, 200 frames
    let seen = desk.len(other)?; // takes no lock
    Ok(seen) // (1, 200)
}

/// What a seat is answered to the lines `len` and `quit`.
pub fn talk<N: Name, W: CloseOnDrop, R: Wait>(
    rt: &R,
    alloc: Global,
    desk: &Desk<N, W>,
    seat: &mut Seat<N>,
) -> Result<Vec<u8>> {
    let mut lines = b"len\nquit\n".as_slice();
    let mut out = Vec::new(alloc);
    if let Err(fault) = converse(rt, alloc, desk, seat, &mut lines, &mut out) {
        bail!("{fault}")
    }
    Ok(out) // len 1 200
}

/// What a seat is answered to an edit, and a file with a journal of it. The desk has no edits yet.
pub fn talk_noted<N: Name, W: CloseOnDrop, R: Wait, J: JournalFile>(
    rt: &R,
    alloc: Global,
    desk: &Desk<N, W>,
    seat: &mut Seat<N>,
    file: J,
) -> Result<(Vec<u8>, J)> {
    let mut journal = match Journal::begin(alloc, file, &Movie::blank(alloc)?, 0) {
        Ok(journal) => journal, // the file has the journal's head
        Err((_, fault)) => bail!("{fault}"),
    };
    let mut lines = b"insert 0 1 R.... ..... .....\nquit\n".as_slice();
    let mut out = Vec::new(alloc);
    converse_noted(rt, alloc, desk, seat, &mut journal, &mut lines, &mut out)?;
    Ok((out, journal.into_file())) // edit 1 len 1, and the line 0 0 insert 0 1 R.... ..... .....
}

/// Opens a desk, edits, and closes it: what the other seat saw, what the first was answered, and the journal and the movie. The clause says that
/// the desk's type has the name of what is opened, so that no other desk has it.
pub fn open<N: Name, R: Wait>(
    rt: &R,
    alloc: Global,
    unopened: Unopened,
) -> Result<((u64, usize), Vec<u8>, Closed)>
    requires name { unopened ≡ name_of N.registry N.name N.parts }
{
    let (desk, mut seats) = Desk::<N, &R>::open(rt, alloc, unopened)?;
    let seen = two_seats(rt, alloc, &desk, seats.as_mut_slice())?;
    let Some(seat) = seats.first_mut() else {
        bail!("a seat is missing")
    };
    let said = talk(rt, alloc, &desk, seat)?;
    if !desk.whole(seats.as_slice()) {
        bail!("a seat is missing")
    }
    Ok((seen, said, desk.close(rt, seats)))
}
