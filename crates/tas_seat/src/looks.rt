//! Looks, wherever they are answered: the lines `shot`, `picture`, `digest`, `ram` and `lag` of a conversation. A seat brings its view up to what is
//! published, and a draft has its own; what a look is answered follows from what it found there.

ghost use Rattle.std.specs.Prelude.{◌≡◌, ◌+◌, ◌<◌, ◌≤◌, length, Some, Ok, IfOk, OnOk, MatchResult};
ghost use Rattle.vcs_tia.specs.Image.{ppm_bytes};
ghost use Rattle.vcs_tia.specs.Picture.{lit_count};
ghost use Rattle.tas_green.specs.Run.{state_after};
ghost use Rattle.tas_green.specs.View.{both_of};
ghost use Rattle.tas_green.specs.Window.{IsOneAway};
ghost use Rattle.tas_published.specs.Errors.{shot_error};
ghost use Rattle.tas_language.specs.Answers.{frame_digest_text, picture_text};
ghost use Rattle.tas_language.specs.declared.reply.Reply.TheVariants.{Drawn as DrawnReply};
ghost use Rattle.tas_language.specs.declared.request.Request.TheVariants.{Lag as LagLine};
ghost use Rattle.tas_seat.specs.Turns.{standing_at};
ghost use Rattle.tas_seat.specs.Requests.{look_text};
ghost use Rattle.tas_seat.specs.Outcomes.{unshown_as};
ghost use Rattle.tas_seat.specs.Inside.Looking.{CanLook, AsksForState, IsStateLook, HasText, HasReport};

use crate::commands::unshown_as;
use crate::requests::{answer_or_refusal, unshown_answer};
use std::alloc::{AllocError, Allocator};
use tas_desk::{Reached, Shot, ShotError, StateError};
use tas_engines::{RunFault, lag_between};
use tas_green::View;
use tas_language::{Reply, Request, digest_answer, lag_answer, picture_answer, ram_answer};
use tas_movie::Movie;
use vcs_machine::State;

/// The reply to a `shot` line, by what was drawn.
pub fn reply_to_shot<A: Allocator>(drawn: Result<Shot<A>, ShotError>) -> Result<Reply, RunFault>
    ensures { MatchResult drawn
        (λ shot. result ≡ Ok (DrawnReply shot.at shot.frame shot.ran (lit_count shot.picture)))
        (λ error. result ≡ unshown_as error) }
{
    let shot = match drawn {
        Ok(shot) => shot,
        Err(error) => return unshown_as(error),
    };
    let lit = shot.picture.lit();
    Ok(Reply::Drawn {
        at: shot.at,
        frame: shot.frame,
        ran: shot.ran,
        lit,
    })
}

/// A `picture` line, answered by what was drawn.
pub fn answer_drawn<A: Allocator + Copy>(
    alloc: A,
    frame: usize,
    drawn: Result<Shot<A>, ShotError>,
) -> Result<Vec<u8, A>, RunFault>
    ensures { MatchResult drawn
        (λ shot. HasText result (λ bytes. bytes.items)
        (Some (picture_text shot.at frame (ppm_bytes shot.picture))))
        (λ error. HasReport result (λ bytes. bytes.items) error) }
{
    let shot = match drawn {
        Ok(shot) => shot,
        Err(error) => return unshown_answer(alloc, error),
    };
    let bytes = picture_answer(alloc, shot.at, frame, &shot.picture);
    answer_or_refusal(alloc, bytes)
}

/// A `digest` line, answered by what was drawn, and by the view that has drawn it: the state after the frame is at hand there.
pub fn answer_digest<A: Allocator + Copy, B: Allocator>(
    alloc: A,
    frame: usize,
    drawn: Result<Shot<A>, ShotError>,
    view: &View<B>,
) -> Result<Vec<u8, A>, RunFault>
    requires within { OnOk drawn (frame < length view.now.movie.inputs) }
    requires forward { OnOk drawn (IsOneAway view.now.movie (frame + 1) (both_of view.now)) }
    ensures { MatchResult drawn
        (λ shot. HasText result (λ bytes. bytes.items) (Some (frame_digest_text shot.at frame
        (state_after view.now.movie (frame + 1)).riot.ram (ppm_bytes shot.picture))))
        (λ error. HasReport result (λ bytes. bytes.items) error) }
{
    let shot = match drawn {
        Ok(shot) => shot,
        Err(unshown) => return unshown_answer(alloc, unshown),
    };
    let after = view.after_frame(frame).unwrap();
    let bytes = digest_answer(alloc, shot.at, frame, &after.ram(), &shot.picture);
    answer_or_refusal(alloc, bytes)
}

/// The frames that a look at a state asks for, from the one which begins in this state up to the one before another.
pub fn frames_for(look: Request) -> (usize, usize)
    requires { IsStateLook look }
    ensures { AsksForState look result.0 result.1 }
{
    match look {
        Request::Ram { frames } => (frames, frames),
        Request::Lag { from, to } => (from, to),
        _ => (0, 0),
    }
}

/// Plays some frames from the state in which the first one begins, and answers `lag` with the lag frames among them.
fn find_lag<A: Allocator + Copy, B: Allocator>(
    alloc: A,
    at: u64,
    movie: &Movie<B>,
    from: usize,
    to: usize,
    begin: State,
) -> Result<Vec<u8, A>, AllocError>
    requires order { from ≤ to }
    requires within { to ≤ length movie.now.inputs }
    requires begin { begin ≡ state_after movie.now from }
    ensures { IfOk result
        (λ bytes. look_text (standing_at movie.now at) (LagLine from to) ≡ Some bytes.items) }
{
    let lines = lag_between(alloc, movie, from, to, begin)?;
    lag_answer(alloc, at, from, to, lines.as_slice())
}

/// What a look at a state finds from there.
fn find<A: Allocator + Copy, B: Allocator>(
    alloc: A,
    at: u64,
    movie: &Movie<B>,
    look: Request,
    begin: State,
) -> Result<Vec<u8, A>, AllocError>
    requires { CanLook look movie.now begin }
    ensures { IfOk result (λ bytes. look_text (standing_at movie.now at) look ≡ Some bytes.items) }
{
    match look {
        Request::Ram { frames } => ram_answer(alloc, at, frames, &begin.ram()),
        Request::Lag { from, to } => find_lag(alloc, at, movie, from, to, begin),
        _ => Ok(Vec::new(alloc)),
    }
}

/// A look at a state, answered by the state that was reached, in this movie.
pub fn answer_reached<A: Allocator + Copy, B: Allocator>(
    alloc: A,
    movie: &Movie<B>,
    look: Request,
    reached: Result<Reached, StateError>,
) -> Result<Vec<u8, A>, RunFault>
    requires { IfOk reached (λ found. CanLook look movie.now found.state) }
    ensures { MatchResult reached
        (λ found. HasText result (λ bytes. bytes.items)
        (look_text (standing_at movie.now found.at) look))
        (λ error. HasReport result (λ bytes. bytes.items) (shot_error error)) }
{
    let found = match reached {
        Ok(found) => found,
        Err(error) => return unshown_answer(alloc, error.into()),
    };
    let bytes = find(alloc, found.at, movie, look, found.state);
    answer_or_refusal(alloc, bytes)
}
