//! The edits that lines ask for.
//!
//! An edit takes the movie's frames under the lock (`EditRequest`, a `Plan`), not from the zone's copy, which would
//! have to be cut first: so an edit that is undone before the next look costs the zone no state. What refuses an edit
//! whatever memory there is comes before memory is asked for, so `out of memory` never hides it.

ghost use Rattle.std.specs.Prelude.{◌≡◌, None, IfOk, OnErr, MatchResult};
ghost use Rattle.tas_movie.specs.Edit.{IsAllowed};
ghost use Rattle.tas_engines.specs.declared.fault.RunFault.TheVariants.{Foreign};
ghost use Rattle.tas_seat.specs.Inside.EditRequests.{requested_refusal, requested_edit, TakesMemory};
ghost use Rattle.tas_seat.specs.Outcomes.{refused_as, IsEditAnswered, IsMiscounted};

use std::alloc::{AllocError, Allocator};
use std::sync::Wait;
use tas_desk::{CloseOnDrop, Desk, EditError, Name, Plan, Seat};
use tas_engines::{RunFault, check_change, check_retouch, edit_of, retouch_edit};
use tas_language::{Change, Image, Reply, Retouch};
use tas_movie::{Edit, EditRefusal, Movie};
use vcs_machine::Cart;

/// An edit that a line asks for.
#[derive(Clone, Copy)]
pub enum EditRequest {
    /// A `load` or `load2` line: another cartridge.
    Load(Image),
    /// An `insert`, `replace` or `delete` line.
    Change(Change),
    /// A `press`, `release`, `repeat` or `copy` line: what it makes depends on the frames that the movie has.
    Retouch(Retouch),
}

impl EditRequest {
    /// The edit in a movie that allows it. `AllocError` where memory is refused, which a `delete` line doesn't ask for.
    pub(crate) fn edit_in<A: Allocator>(
        &self,
        alloc: A,
        movie: &Movie<A>,
    ) -> Result<Edit<A>, AllocError>
        requires { requested_refusal self.now movie.now ≡ None }
        ensures edit { IfOk result (λ edit. edit ≡ requested_edit A self.now movie.now) }
        ensures allowed { IsAllowed movie.now (requested_edit A self.now movie.now) }
        ensures memory { OnErr result (TakesMemory self.now) }
    {
        match self {
            // An image has the size of a cartridge, so only memory can be refused.
            EditRequest::Load(image) => match Cart::from_bytes(alloc, image.bytes()) {
                Ok(cart) => Ok(Edit::Load(cart)),
                Err(_) => Err(AllocError),
            },
            EditRequest::Change(change) => edit_of(alloc, *change),
            EditRequest::Retouch(retouch) => retouch_edit(alloc, movie.inputs(), *retouch),
        }
    }
}

impl<A: Allocator> Plan<A> for EditRequest {
    ghost use Rattle.tas_seat.specs.Inside.EditRequests.{requested_refusal, requested_edit};

    ghost refusal_in = { requested_refusal };

    ghost edit_in = { requested_edit A };

    fn check(&self, len: usize) -> Result<(), EditRefusal> {
        match self {
            EditRequest::Load(_) => Ok(()),
            EditRequest::Change(change) => check_change(len, *change),
            EditRequest::Retouch(retouch) => check_retouch(len, *retouch),
        }
    }

    fn edit(&self, alloc: A, movie: &Movie<A>) -> Result<Edit<A>, AllocError> {
        self.edit_in(alloc, movie)
    }
}

/// The reply to a refused edit.
pub(crate) fn refused_as(error: EditError) -> Result<Reply, RunFault>
    ensures { result ≡ refused_as error }
{
    match error {
        EditError::Serial { .. } => Err(RunFault::Foreign),
        EditError::Full { at } => Ok(Reply::Full { at }),
        EditError::Place { at, place: _, len } => Ok(Reply::Place { at, len }),
        EditError::Long { at, len } => Ok(Reply::Long { at, len }),
        EditError::Memory => Ok(Reply::OutOfMemory),
    }
}

/// Makes an edit, of the movie under the desk's lock. Memory is asked for once nothing else refuses it.
pub fn make_edit<N: Name, W: CloseOnDrop, A: Allocator + Copy, R: Wait>(
    rt: &R,
    desk: &Desk<N, W, A>,
    seat: &mut Seat<N, A>,
    asked: EditRequest,
) -> Result<Reply, RunFault>
    ensures { MatchResult result (IsEditAnswered A seat.old seat.new asked)
        (λ fault. (fault ≡ Foreign) × IsMiscounted seat.old seat.new) }
{
    match desk.edit_by(rt, seat, &asked) {
        Ok(receipt) => Ok(Reply::Edited {
            at: receipt.at,
            len: receipt.len,
        }),
        Err(error) => refused_as(error),
    }
}
