//! What a draft comes to: the edits that make one movie of another.
//!
//! A commit is made of edits that exist: the history has no new kind of entry, and a client that follows it need know
//! nothing of drafts. Frames in the place of another number of frames are a `Delete` and an `Insert`, in one step under
//! one version. That no reader sees the movie between them is tested, not proved.

ghost use Rattle.std.specs.Prelude.{◌≡◌, ◌<◌, ◌≤◌, ℕ, IfOk, OnErr, length, reverse};
ghost use Rattle.tas_movie.specs.Content.{most_inputs};
ghost use Rattle.tas_movie.specs.Front.{IsCommonFront};
ghost use Rattle.tas_published.specs.Strokes.{edits_of};
ghost use Rattle.tas_seat.specs.Drafts.{stroke_of, IsStroke, PutsIn, LeadsTo, HasStroke};
ghost use Rattle.tas_seat.specs.Inside.Drafting.{Differ};

use std::alloc::{AllocError, Allocator};
use tas_desk::Stroke;
use tas_movie::{Edit, Inputs, Movie, common_front};
use vcs_machine::Input;

/// The length of the longest common end of two lists of inputs, in frames.
fn common_back(a: &[Input], b: &[Input]) -> usize
    ensures { IsCommonFront (reverse a.now) (reverse b.now) result }
{
    let mut back = 0;
    while back < a.len() && back < b.len() && a[a.len() - 1 - back] == b[b.len() - 1 - back] {
        back += 1;
    }
    back
}

/// How many edits put inputs in the place of others.
fn len_at<A: Allocator>(olds: &[Input], news: &[Input]) -> u64
    ensures few { result ≤ 2 }
    ensures stroke { (at : ℕ) → result ≡ length (stroke_of A at olds.now news.now) }
{
    if olds.is_empty() && news.is_empty() {
        return 0;
    }
    if olds.is_empty() || news.is_empty() || olds.len() == news.len() {
        return 1;
    }
    2
}

/// The edits that put inputs in the place of others at `at`.
fn stroke_at<A: Allocator>(
    alloc: A,
    at: usize,
    olds: &[Input],
    news: &[Input],
) -> Result<Stroke<A>, AllocError>
    ensures stroke { IfOk result (λ stroke. edits_of stroke ≡ stroke_of A at olds.now news.now) }
    ensures memory { OnErr result (0 < length news.now) }
{
    if news.is_empty() {
        if olds.is_empty() {
            return Ok(Stroke::Nothing);
        }
        let count = olds.len();
        return Ok(Stroke::One(Edit::Delete { at, count }));
    }
    let inputs = Inputs::from_vec(Vec::from_slice(alloc, news)?);
    if olds.is_empty() {
        return Ok(Stroke::One(Edit::Insert { at, inputs }));
    }
    if olds.len() == news.len() {
        return Ok(Stroke::One(Edit::Replace { at, inputs }));
    }
    let count = olds.len();
    let first = Edit::Delete { at, count };
    Ok(Stroke::Two(first, Edit::Insert { at, inputs }))
}

/// Where two movies differ: how many inputs they begin with in common, and what each of them has between these and the common end of the
/// rest.
fn differing<'a, A: Allocator>(
    base: &'a Movie<A>,
    movie: &'a Movie<A>,
) -> (usize, &'a [Input], &'a [Input])
    ensures differ { Differ base.now movie.now result.0 result.1.now result.2.now }
    ensures most { length movie.now.inputs ≤ most_inputs }
{
    let (old, new) = (base.inputs(), movie.inputs());
    let front = common_front(old, new);
    let back = common_back(&old[front..], &new[front..]);
    let olds = &old[front..old.len() - back];
    let news = &new[front..new.len() - back];
    (front, olds, news)
}

/// How many edits [`stroke_between`] gives: 0 to 2. It takes no memory.
pub(crate) fn stroke_len<A: Allocator>(base: &Movie<A>, movie: &Movie<A>) -> u64
    requires { movie.now.cart ≡ base.now.cart }
    ensures few { result ≤ 2 }
    ensures stroke { HasStroke A base.now movie.now result }
{
    let (_, olds, news) = differing(base, movie);
    len_at::<A>(olds, news)
}

/// The edits that make one movie of another with the same cartridge: the inputs with which both begin, and of the rest those with which
/// both end, are left alone. `AllocError` where memory is refused, which may be only where inputs are put in: not for two equal movies,
/// nor for a deletion.
pub fn stroke_between<A: Allocator, B: Allocator>(
    alloc: A,
    base: &Movie<B>,
    movie: &Movie<B>,
) -> Result<Stroke<A>, AllocError>
    requires { movie.now.cart ≡ base.now.cart }
    // Refused: stroke_of_a_deletion_is_out_of_memory.
    ensures stroke { IfOk result (λ stroke. IsStroke base.now movie.now (edits_of stroke)) }
    ensures leads { IfOk result (λ stroke. LeadsTo base.now (edits_of stroke) movie.now) }
    ensures memory { OnErr result (PutsIn base.now movie.now) }
{
    let (front, olds, news) = differing(base, movie);
    stroke_at(alloc, front, olds, news)
}
