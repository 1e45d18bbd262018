//! A session: one movie, the journal of its edits, and its kept states.

use anyhow::Result;
use std::alloc::Global;
use std::sync::Wait;
use tas_movie::{Edit, Inputs};
use tas_session::{EditError, Session};
use vcs_inputs::Input;

/// An edit, one with a serial that was used, and states that were played elsewhere: how many were kept.
pub fn first_edits<R: Wait>(rt: &R, alloc: Global, session: &mut Session) -> Result<usize> {
    let inputs = Inputs::repeated(alloc, Input::none(), 200)?;
    session.edit(rt, 0, 0, Edit::Insert { at: 0, inputs })?; // by seat 0, which made none before
    let again = session.edit(rt, 0, 0, Edit::Delete { at: 0, count: 1 });
    if again != Err(EditError::Serial { at: 1, counted: 1 }) {
        return Ok(0);
    }
    let batch = session.job(alloc, 150)?.run(); // frames 0 to 149, played elsewhere
    let taken = session.offer(batch);
    Ok(taken.map_or(0, |merged| merged.kept)) // 2: the states after 64 and 128 frames
}

/// Makes them in a session of their own, and closes it: how many states were kept, and how many edits there are.
pub fn edit_alone<R: Wait>(rt: &R, alloc: Global) -> Result<(usize, usize)> {
    let mut session = Session::new(alloc)?;
    let kept = first_edits(rt, alloc, &mut session);
    let closed = session.close(rt); // journal and movie; a session can't be dropped
    Ok((kept?, closed.journal.len()))
}
