//! The movie that a desk begins with: it is read, and a seat makes it by its first two edits.
//!
//! There are two edits whatever the files are, a load and an insertion, so AT begins at 2. If memory is refused for
//! them the fault is `out of memory`; another refusal would be `foreign edit`, which never comes.

ghost use Rattle.std.specs.Prelude.{◌≡◌, ◌≤◌, [], length, OnOk, IfOk, IfErr};
ghost use Rattle.tas_movie.specs.Content.{most_inputs};
ghost use Rattle.tas_engines.specs.declared.fault.RunFault.TheVariants.{Memory};
ghost use Rattle.tas_tool.specs.Inside.Holding.{ReadsMovie};
ghost use Rattle.tas_tool.specs.Inside.TwoEdits.{edit_fault, HoldsMovie, IsMakingFault, IsUnrefused, unless_foreign};

use std::alloc::{AllocError, Allocator};
use std::io::Read;
use std::sync::Wait;
use tas_desk::{CloseOnDrop, Desk, EditError, Name, Seat};
use tas_engines::{RunFault, ToolFault, movie_of, read_two};
use tas_movie::{Edit, Inputs, Movie};
use vcs_machine::Cart;

/// How many edits [`put_movie`] makes.
pub const MOVIE_EDITS: u64 = 2;

/// This end, if the history at which it was reached has just the two edits that made the movie; else `Foreign`.
pub fn unless_foreign(at: u64, end: Result<(), RunFault>) -> Result<(), RunFault>
    ensures { result ≡ unless_foreign at end }
{
    if at == MOVIE_EDITS {
        end
    } else {
        Err(RunFault::Foreign)
    }
}

/// How a refused edit is reported. On a desk without other edits memory alone can refuse one; any other refusal is `Foreign`.
fn edit_fault(error: EditError) -> RunFault
    ensures { result ≡ edit_fault error }
{
    match error {
        EditError::Memory => RunFault::Memory,
        _ => RunFault::Foreign,
    }
}

/// Reads a cartridge and a movie text, and makes the movie of them. What was read is dropped here, since conversations may be
/// long.
///
/// Faults, in order: those of [`read_two`], then those of [`movie_of`].
pub fn read_movie<A: Allocator + Copy, C: Read, M: Read>(
    alloc: A,
    cart: &mut C,
    movie: &mut M,
) -> Result<Movie<A>, ToolFault>
    ensures { ReadsMovie (C.remaining cart.old) (C.remaining cart.new) (M.remaining movie.old)
        (M.remaining movie.new) result }
{
    let (image, bytes) = read_two(alloc, cart, movie)?;
    Ok(movie_of(alloc, image.as_slice(), bytes.as_slice())?)
}

/// Copies of a movie's cartridge and inputs.
fn parts_of<A: Allocator + Copy>(
    alloc: A,
    movie: &Movie<A>,
) -> Result<(Cart<A>, Inputs<A>), AllocError>
    ensures whole { IfOk result (λ parts. movie.now ≡ record { cart = parts.0; inputs = parts.1 }) }
    ensures few { IfOk result (λ parts. length parts.1 ≤ most_inputs) }
{
    let cart = movie.cart().copy(alloc)?;
    let inputs = Vec::from_slice(alloc, movie.inputs())?;
    Ok((cart, Inputs::from_vec(inputs)))
}

/// Gives a desk without edits its movie, by a seat's first two edits: the cartridge is loaded, then the inputs are put in.
///
/// Faults: `Memory`, where the desk refuses neither edit, and `Foreign` where it has other edits.
pub fn put_movie<N: Name, W: CloseOnDrop, A: Allocator + Copy, R: Wait>(
    rt: &R,
    alloc: A,
    desk: &Desk<N, W, A>,
    seat: &mut Seat<N, A>,
    movie: &Movie<A>,
) -> Result<(), RunFault>
    requires first { (seat.old.number ≡ 0) × (seat.old.made ≡ 0) × (seat.old.front ≡ []) }
    // A desk's movie is made by two edits, which load its cartridge and put its inputs in. The front of the second is
    // compared with these two, and `Foreign` is reported only where it has more.
    // Refused: refused_edit_is_reported_as_out_of_memory.
    ensures number { seat.new.number ≡ 0 }
    ensures zone { seat.new.zone ≡ seat.old.zone }
    ensures holds { OnOk result (HoldsMovie seat.new movie.now) }
    ensures fault { IfErr result (IsMakingFault seat.new) }
    // `Memory` comes only where the desk doesn't refuse the next of the two edits as it stands.
    // Refused: refused_edits_are_given_as_memory.
    ensures memory { IfErr result (λ fault. fault ≡ Memory → IsUnrefused A seat.new movie.now) }
{
    let (cart, inputs) = parts_of(alloc, movie)?;
    match desk.edit(rt, seat, Edit::Load(cart)) {
        Ok(_) => {}
        Err(error) => return Err(edit_fault(error)),
    }
    match desk.edit(rt, seat, Edit::Insert { at: 0, inputs }) {
        Ok(receipt) => unless_foreign(receipt.at, Ok(())),
        Err(error) => Err(edit_fault(error)),
    }
}
