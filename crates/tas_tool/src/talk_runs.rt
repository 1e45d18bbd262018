//! `tas talk`.
//!
//! A conversation leaves a movie whatever ended it: what was answered isn't lost by a client that is gone. It leaves none
//! where it didn't begin: then nothing may be replaced.

ghost use Rattle.std.specs.Prelude.{◌≡◌, [], true, length, Err, None, MatchResult};
ghost use Rattle.vcs_inputs.specs.Cart.{is_cart_size};
ghost use Rattle.tas_desk.specs.Seats.{name_of};
ghost use Rattle.tas_engines.specs.Tracing.{IsImageFault};
ghost use Rattle.tas_movie.specs.Content.{blank_movie};
ghost use Rattle.tas_tool.specs.Talk.{talk_state_from, IsCartTalkLeaving, IsMovieTalkLeaving, IsTalkLeaving};
ghost use Rattle.tas_tool.specs.Inside.Alone.{end_of, left_of, EndsMade, SeesOwn};
ghost use Rattle.tas_tool.specs.Inside.Holding.{ReadsCart};

use crate::making::{put_movie, read_movie};
use crate::opening::open_alone;
use std::alloc::{Allocator, Global};
use std::io::{Read, Write};
use std::marker::Brand;
use std::sync::Wait;
use tas_desk::{CloseOnDrop, Closed, Desk, Name, Seat, Unopened};
use tas_engines::{RunFault, ToolFault, read_input};
use tas_movie::Movie;
use tas_seat::converse;
use vcs_machine::Cart;

/// How a conversation ended, and the movie that it left.
#[derive(Drop)]
pub struct Talked<A: Allocator = Global> {
    /// How it ended.
    pub end: Result<(), ToolFault>,
    /// The movie that its edits have made; `None` where it didn't begin.
    pub movie: Option<Movie<A>>,
}

impl<A: Allocator> Talked<A> {
    /// A conversation that didn't begin.
    fn unbegun(fault: ToolFault) -> Talked<A>
        ensures end { result.end ≡ Err fault }
        ensures movie { result.movie ≡ None }
    {
        Talked {
            end: Err(fault),
            movie: None,
        }
    }
}

/// Gives a desk without edits its movie, where there is one, and answers lines. An error where the movie isn't made.
fn talk_made<N: Name, C: CloseOnDrop, A: Allocator + Copy, T: Wait, R: Read, W: Write>(
    rt: &T,
    alloc: A,
    desk: &Desk<N, C, A>,
    seat: &mut Seat<N, A>,
    movie: Option<Movie<A>>,
    input: &mut R,
    output: &mut W,
) -> Result<Result<(), ToolFault>, RunFault>
    requires first { (seat.old.number ≡ 0) × (seat.old.made ≡ 0) × (seat.old.front ≡ []) }
    requires zone { (seat.old.zone.movie ≡ blank_movie) × (seat.old.zone.states ≡ []) }
    ensures number { seat.new.number ≡ 0 }
    ensures talk { SeesOwn seat.new
        → EndsMade seat.new (talk_state_from movie) (R.remaining input.old) (R.remaining input.new)
        (W.contents output.old) (W.contents output.new) result }
{
    let Some(movie) = movie else {
        return Ok(converse(rt, alloc, desk, seat, input, output));
    };
    put_movie(rt, alloc, desk, seat, &movie)?;
    // The desk has copies of its cartridge and inputs, and a conversation may be long.
    drop(movie);
    Ok(converse(rt, alloc, desk, seat, input, output))
}

/// What a conversation left on a desk that was closed so.
fn closed_talk<A: Allocator>(
    made: Result<Result<(), ToolFault>, RunFault>,
    closed: Closed<A>,
) -> Talked<A>
    ensures end { result.end ≡ end_of made }
    ensures movie { result.movie ≡ left_of made closed.movie }
{
    match made {
        Ok(end) => Talked {
            end,
            movie: Some(closed.movie),
        },
        Err(fault) => Talked::unbegun(ToolFault::Run(fault)),
    }
}

/// Answers lines on a desk of one seat, from a movie on where there is one, and closes the desk. That nobody else made an edit is
/// known once it is closed.
fn talk_on<N: Name, A: Allocator + Copy, T: Wait, R: Read, W: Write>(
    rt: &T,
    alloc: A,
    unopened: Unopened<A>,
    movie: Option<Movie<A>>,
    input: &mut R,
    output: &mut W,
) -> Talked<A>
    requires name { unopened ≡ name_of N.registry N.name N.parts }
    requires one { unopened.seats ≡ 1 }
    ensures { IsTalkLeaving result.movie (talk_state_from movie)
        (R.remaining input.old) (R.remaining input.new)
        (W.contents output.old) (W.contents output.new) result.end }
{
    match open_alone::<N, A, T>(rt, alloc, unopened) {
        Ok((desk, mut seats)) => {
            let seat = &mut seats.as_mut_slice()[0];
            let made = talk_made(rt, alloc, &desk, seat, movie, input, output);
            let closed = desk.close(rt, seats);
            closed_talk(made, closed)
        }
        Err(refused) => Talked::unbegun(ToolFault::Run(refused)),
    }
}

/// Answers lines, from a movie on where there is one.
fn talk_from<A: Allocator + Copy, T: Wait, R: Read, W: Write>(
    rt: &T,
    alloc: A,
    movie: Option<Movie<A>>,
    input: &mut R,
    output: &mut W,
) -> Talked<A>
    ensures { IsTalkLeaving result.movie (talk_state_from movie)
        (R.remaining input.old) (R.remaining input.new)
        (W.contents output.old) (W.contents output.new) result.end }
{
    let Ok(unopened) = Unopened::new(alloc, 1) else {
        return Talked::unbegun(ToolFault::Run(RunFault::Memory));
    };
    talk_on::<Brand, A, T, R, W>(rt, alloc, unopened, movie, input, output)
}

/// The movie of a cartridge with no inputs.
///
/// Faults, in order: `Size`; `Memory`.
fn blank_movie_of<A: Allocator + Copy>(alloc: A, image: &[u8]) -> Result<Movie<A>, RunFault>
    ensures { MatchResult result
        (λ movie. (is_cart_size (length image.now) ≡ true)
        × (movie ≡ record { cart = image.now; inputs = [] })) (IsImageFault image.now) }
{
    let cart = Cart::from_bytes(alloc, image)?;
    Ok(Movie::new(alloc, &cart)?)
}

/// Reads a cartridge, and makes the movie of it with no inputs. What was read is dropped here, since a conversation may be long.
///
/// Faults, in order: those of [`read_input`], then those of `blank_movie_of`.
pub(crate) fn read_blank_movie<A: Allocator + Copy, C: Read>(
    alloc: A,
    cart: &mut C,
) -> Result<Movie<A>, ToolFault>
    ensures { ReadsCart (C.remaining cart.old) (C.remaining cart.new) result }
{
    let image = read_input(alloc, cart)?;
    Ok(blank_movie_of(alloc, image.as_slice())?)
}

/// Reads lines and answers each of them, from a blank cartridge with no inputs on: an answer is written whole before more
/// is read. The lines are those of a [`Request`](tas_language::Request): a script's, edits that depend on the movie's frames, looks,
/// `share`, `history`, those about drafts, and `quit`. Another line, or one of more than [`MAX_LINE`](tas_language::MAX_LINE) bytes, is
/// answered `unknown` and why, and changes nothing, and so is what comes after the last newline. It runs on a desk of one seat, and ends with
/// `quit` or with the input. The movie that its edits have made comes back, whatever ended it; a draft that is open is lost.
///
/// Faults: `Read` where a read failed, with each whole line answered; `Write`, with the first bytes of the answers written, and how
/// many; `NoEntry`, and `Memory` where it is refused for a line or for its reply, with the lines before answered; `NoPlace` and
/// `Memory` before the first line. `Foreign` would report an edit that isn't the conversation's own, and never comes.
pub fn talk_run<A: Allocator + Copy, T: Wait, R: Read, W: Write>(
    rt: &T,
    alloc: A,
    input: &mut R,
    output: &mut W,
) -> Talked<A>
    // A conversation is one of tas_seat on a desk of one seat: each line is answered at what the lines before it made
    // and left. `history FROM` is answered with the part of the edits that these lines made which begins with number
    // FROM, in order, or `out of memory`.
    // Refused: none, tas_seat has them.
    // A draft of a conversation is one of the movie that the lines before `begin` made. Lines in it leave what was made
    // as it is; `commit` makes what the draft comes to, all of it or nothing.
    // Refused: none, tas_seat has them.
    // `pictures FROM TO` is answered as TO - FROM lines `picture` of its frames in order, each at what the one before
    // left.
    // Refused: none, tas_seat has them.
    // What is kept is followed from line to line: it only loses what an edit took away. A picture or a shot cuts it for
    // the movie and leaves it as if played from the nearest state that is left, with the states on the way that are on
    // the grid; `ram` and `digest` do so with the frames before K, `lag` with those before A. `movie`, `states`,
    // `share`, `work` and `begin` cut it and let it gain states of the movie. Other lines, and refusals but `halted`,
    // leave it as it was; in a draft all lines but `share` do. Where `picture`, `ram`, `digest`, `lag`, `movie`,
    // `states` or `begin` is answered `out of memory`, it may be as after its answer.
    // Refused: none, tas_seat has them.
    // What left the reader is the lines that were answered and the rest before which it ended; after `Memory` any rest,
    // and after `NoEntry` one whose first line looks through the seat's reader, where no draft is open.
    // Refused: none, tas_seat has them.
    // A conversation never ends with `Foreign`: its own edits are all that the desk has when it is closed.
    // Refused: foreign_at_the_end_of_a_conversation.
    // The movie that is left is the one that the answered lines made, and that of the line whose answer wasn't written, or for
    // which memory was refused, where it was carried out. There is none only where memory or a place was refused before
    // the first line, with nothing read or written.
    // Refused: conversation_leaves_no_movie, movie_is_left_where_the_conversation_did_not_begin.
    ensures { IsTalkLeaving result.movie (talk_state_from None)
        (R.remaining input.old) (R.remaining input.new)
        (W.contents output.old) (W.contents output.new) result.end }
{
    talk_from(rt, alloc, None, input, output)
}

/// Reads a cartridge, and then talks as [`talk_run`] does, but from this cartridge with no inputs on: before the first line two edits
/// load it and put no inputs in. They are edits 0 and 1 of `history`.
///
/// Faults, in order: those of [`read_input`], and `Size`, each before anything is read of the input or written; `Memory`; then those
/// of `talk_run`.
pub fn cart_talk_run<A: Allocator + Copy, T: Wait, C: Read, R: Read, W: Write>(
    rt: &T,
    alloc: A,
    cart: &mut C,
    input: &mut R,
    output: &mut W,
) -> Talked<A>
    // Over a cartridge, or a movie, a conversation does the same as over none, from its movie and 2 edits on, which
    // `history` has before those of the lines: the cartridge is loaded, and the inputs, none of a cartridge alone, are
    // put in at 0. Faults of the files come first, with nothing read of the input and nothing written.
    // Refused: blank_cartridge_stands_under_a_conversation.
    ensures { IsCartTalkLeaving result.movie (C.remaining cart.old) (C.remaining cart.new)
        (R.remaining input.old) (R.remaining input.new)
        (W.contents output.old) (W.contents output.new) result.end }
{
    match read_blank_movie(alloc, cart) {
        Ok(movie) => talk_from(rt, alloc, Some(movie), input, output),
        Err(fault) => Talked::unbegun(fault),
    }
}

/// Reads a cartridge and a movie text, and then talks as [`talk_run`] does, but from this movie on: before the first line two edits
/// load its cartridge and put its inputs in. They are edits 0 and 1 of `history`.
///
/// Faults, in order: those of [`read_two`](tas_engines::read_two), then those of [`movie_of`](tas_engines::movie_of), each before anything is read of the input or written; then those
/// of `talk_run`.
pub fn movie_talk_run<A: Allocator + Copy, T: Wait, C: Read, M: Read, R: Read, W: Write>(
    rt: &T,
    alloc: A,
    cart: &mut C,
    movie: &mut M,
    input: &mut R,
    output: &mut W,
) -> Talked<A>
    // Refused: cartridge_and_movie_of_a_conversation_are_swapped.
    ensures { IsMovieTalkLeaving result.movie (C.remaining cart.old) (C.remaining cart.new)
        (M.remaining movie.old) (M.remaining movie.new)
        (R.remaining input.old) (R.remaining input.new)
        (W.contents output.old) (W.contents output.new) result.end }
{
    match read_movie(alloc, cart, movie) {
        Ok(movie) => talk_from(rt, alloc, Some(movie), input, output),
        Err(fault) => Talked::unbegun(fault),
    }
}
