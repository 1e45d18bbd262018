//! Edits that depend on the movie in which they are made.
//!
//! A plan is checked by the movie's length alone, and an edit is made only of a movie that allows it: so a refused plan
//! takes no memory, and the lock is held no longer than a check takes. The edit takes its memory from the allocator of
//! the seat's zone, the desk's. The other way, to look first and try again where an edit came between, has no bound
//! that a clause could say.

ghost use Rattle.std.specs.Prelude.{◌≡◌, Option, None, length, IfOk, OnOk, MatchResult};
ghost use Rattle.tas_movie.specs.Content.{MovieContent};
ghost use Rattle.tas_movie.specs.declared.edit.Edit.{Edit as EditValue};
ghost use Rattle.tas_movie.specs.declared.edit.EditRefusal.{EditRefusal as RefusalValue};
ghost use Rattle.tas_movie.specs.Edit.{IsAllowed, check_answer};
ghost use Rattle.tas_published.specs.History.{movie_of};
ghost use Rattle.tas_session.specs.Session.{refusal_by, IsEditError};

use crate::{EditError, Session};
use std::alloc::{AllocError, Allocator};
use tas_movie::{Edit, EditRefusal, Movie};

/// An edit that depends on the movie in which it is made: one button more in frames 10 to 19, say.
/// [`Desk::edit_by`](crate::Desk::edit_by) makes it under the lock, of the movie there.
pub trait Plan<A: Allocator> {
    /// Why a movie refuses the edit, where it does.
    ghost refusal_in: { Self → MovieContent → Option RefusalValue };

    /// The edit that it is in a movie.
    ghost edit_in: { Self → MovieContent → EditValue A };

    /// Whether a movie of this length allows the edit.
    fn check(&self, len: usize) -> Result<(), EditRefusal>
        ensures { (movie : MovieContent) → length movie.inputs ≡ len
            → result ≡ check_answer (refusal_in self.now movie) };

    /// The edit in a movie that allows it. `AllocError` where memory is refused.
    fn edit(&self, alloc: A, movie: &Movie<A>) -> Result<Edit<A>, AllocError>
        requires { refusal_in self.now movie.now ≡ None }
        ensures edit { IfOk result (λ edit. edit ≡ edit_in self.now movie.now) }
        ensures allowed { IsAllowed movie.now (edit_in self.now movie.now) };
}

/// The edit that a plan is in a session's movie, for a seat that says it has made `made` edits before; or why it isn't made:
/// `Serial`, `Full`, what the movie refuses, or `Memory`, in this order.
pub(crate) fn planned<A: Allocator + Copy, P: Plan<A>>(
    session: &Session<A>,
    alloc: A,
    seat: u32,
    made: u64,
    plan: &P,
) -> Result<Edit<A>, EditError>
    ensures edit { IfOk result
        (λ edit. edit ≡ P.edit_in plan.now (movie_of session.now.journal)) }
    ensures allowed { OnOk result
        (IsAllowed (movie_of session.now.journal)
        (P.edit_in plan.now (movie_of session.now.journal))) }
    ensures refusal { MatchResult result
        (λ _. refusal_by session.now.journal seat made
        (P.refusal_in plan.now (movie_of session.now.journal))
        ≡ None)
        (IsEditError
        (refusal_by session.now.journal seat made
        (P.refusal_in plan.now (movie_of session.now.journal)))) }
{
    session.check_turn(seat, made)?;
    let movie = session.movie();
    match plan.check(movie.len()) {
        Ok(()) => match plan.edit(alloc, movie) {
            Ok(edit) => Ok(edit),
            Err(_) => Err(EditError::Memory),
        },
        Err(refused) => Err(EditError::refused(session.at(), refused)),
    }
}
