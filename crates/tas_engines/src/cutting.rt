//! `tas cut`.

ghost use Rattle.std.specs.Prelude.{◌≡◌, Ok, Err, IfOk, IfErr};
ghost use Rattle.tas_engines.specs.Commands.{OfTwo};
ghost use Rattle.tas_engines.specs.Cutting.{cut_out, IsCutRange, IsCutFault, IsCutAnswer};

use crate::commands::{Text, bytes_of};
use crate::{RunFault, movie_of};
use std::alloc::Allocator;
use tas_movie::{Edit, Movie, apply, print_text};

/// Keeps the frames `from` to `to` - 1 and drops all others; `Range` where the movie doesn't have them, and it is as before.
fn keep_frames<A: Allocator>(movie: &mut Movie<A>, from: usize, to: usize) -> Result<(), RunFault>
    ensures range { IfOk result
        (λ done. IsCutRange movie.old from to × (movie.new ≡ cut_out movie.old from to)) }
    ensures fault { IfErr result (IsCutFault from to movie.old) }
    ensures kept { IfErr result (λ _. movie.new ≡ movie.old) }
{
    let len = movie.len();
    if from > to || to > len {
        return Err(RunFault::Range { from, to, len });
    }
    let after: Edit<A> = Edit::Delete {
        at: to,
        count: len - to,
    };
    apply(movie, &after);
    let before: Edit<A> = Edit::Delete { at: 0, count: from };
    apply(movie, &before);
    Ok(())
}

/// The text of the movie of some frames of the one whose cartridge and text these are, or why there is none.
fn cut_text<A: Allocator + Copy>(
    alloc: A,
    from: usize,
    to: usize,
    image: &[u8],
    bytes: &[u8],
) -> Result<Vec<u8, A>, RunFault>
    ensures text { IfOk result (λ text. IsCutAnswer from to image.now bytes.now (Ok text.items)) }
    ensures fault { IfErr result (λ fault. IsCutAnswer from to image.now bytes.now (Err fault)) }
{
    let mut movie = movie_of(alloc, image, bytes)?;
    keep_frames(&mut movie, from, to)?;
    Ok(print_text(alloc, &movie)?)
}

/// `tas cut`: the text of the movie of some frames alone, of a cartridge and a movie's text.
///
/// Faults, in order: those of [`movie_of`], then `Range` where `from` is past `to` or `to` past the movie's end. `Memory` at any point.
#[derive(Clone, Copy)]
pub struct Cut {
    /// The first frame, counted from 0.
    pub from: usize,
    /// The frame after the last one.
    pub to: usize,
}

impl Text for Cut {
    // `tas cut` reads cartridge and text whole, and writes the text of the movie of the frames FROM to TO - 1; `Range`
    // only where FROM is past TO or TO past the length, where it is this fault or `Memory`, with nothing
    // written; `Memory` with nothing written.
    // Refused: cut_keeps_the_last_frame, range_of_a_cut_has_its_ends_swapped*, cut_of_the_whole_movie_is_refused*.
    ghost answers = { λ cut. OfTwo (IsCutAnswer cut.from cut.to) };

    fn text<A: Allocator + Copy>(
        &self,
        alloc: A,
        inputs: &[Vec<u8, A>],
    ) -> Result<Vec<u8, A>, RunFault> {
        cut_text(
            alloc,
            self.from,
            self.to,
            bytes_of(inputs, 0),
            bytes_of(inputs, 1),
        )
    }
}
