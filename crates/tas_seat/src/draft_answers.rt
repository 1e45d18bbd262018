//! Answering a request at a draft. Looks are answered as at a seat (`looks.rt`), by what the draft's view has.

ghost use Rattle.std.specs.Prelude.{◌≡◌, ◌+◌, Ok, None, OnOk, MatchOption, MatchResult};
ghost use Rattle.tas_green.specs.Window.{IsOneAway, both};
ghost use Rattle.tas_engines.specs.declared.fault.RunFault.TheVariants.{Memory};
ghost use Rattle.tas_language.specs.declared.command.Command.TheVariants.{Edit as EditLine, Length as LengthLine, InputAt as InputLine, Shot as ShotLine, Work as WorkLine};
ghost use Rattle.tas_language.specs.declared.request.Request.TheVariants.{Do as ScriptLine, Retouch as RetouchLine, Picture as PictureLine, Pictures as PicturesLine, Digest as DigestLine, Inputs as InputsLine, Movie as MovieLine, States as StatesLine};
ghost use Rattle.tas_seat.specs.Subjects.{IsAboutDesk};
ghost use Rattle.tas_seat.specs.Drafts.{IsDraft, IsDraftAnswered, IsDraftUnanswered};
ghost use Rattle.tas_seat.specs.Inside.Drafting.{IsDraftReply, IsDraftShot, IsDraftPicture, IsDraftStateFor, HasNoDraftAnswer};
ghost use Rattle.tas_seat.specs.Inside.Looking.{IsStateLook};

use crate::Draft;
use crate::edit_requests::EditRequest;
use crate::looks::{answer_digest, answer_drawn, answer_reached, frames_for, reply_to_shot};
use crate::requests::{
    answer_of_reply, answer_or_refusal, answer_version, list_inputs, list_states,
};
use std::alloc::Allocator;
use tas_desk::{Reached, Shot, ShotError, StateError};
use tas_engines::RunFault;
use tas_language::{Change, Command, Reply, Request, Retouch, movie_answer};
use tas_session::shown;
use vcs_tia::Picture;

impl<A: Allocator + Copy> Draft<A> {
    /// Draws frame `k` from the draft's greenzone; the window isn't used.
    fn shot(&mut self, alloc: A, k: usize) -> Result<Shot<A>, ShotError>
        ensures { IsDraftShot self.old self.new k result }
    {
        let at = self.edits();
        let len = self.movie().len();
        if k >= len {
            return Err(ShotError::NoFrame { at, len });
        }
        let Ok(mut picture) = Picture::blank(alloc) else {
            return Err(ShotError::Memory);
        };
        let played = self.view.shot(k, &mut picture).unwrap();
        shown(at, k, played.ran, picture, played.end)
    }

    /// Draws frame `k` from the draft's greenzone and its window.
    fn picture(&mut self, alloc: A, k: usize) -> Result<Shot<A>, ShotError>
        ensures picture { IsDraftPicture self.old self.new k result }
        ensures forward { OnOk result
            (IsOneAway self.new.movie (k + 1) (both self.new.states self.new.near)) }
    {
        let at = self.edits();
        let len = self.movie().len();
        if k >= len {
            return Err(ShotError::NoFrame { at, len });
        }
        let Ok(mut picture) = Picture::blank(alloc) else {
            return Err(ShotError::Memory);
        };
        let viewed = self.view.picture(k, &mut picture).unwrap();
        shown(at, k, viewed.ran, picture, viewed.end)
    }

    /// The machine after `from` frames, from the draft's greenzone and its window, where `from` is at most `to`, and `to` at most the movie's length.
    fn state_for(&mut self, from: usize, to: usize) -> Result<Reached, StateError>
        ensures { IsDraftStateFor self.old self.new from to result }
    {
        let at = self.edits();
        let len = self.movie().len();
        if from > to || to > len {
            return Err(StateError::NoFrame { at, len });
        }
        let reached = self.view.state(from).unwrap();
        Ok(Reached {
            at,
            ran: reached.ran,
            state: reached.state,
        })
    }

    /// An `insert`, `replace` or `delete` line.
    fn reply_to_change(&mut self, alloc: A, change: Change) -> Reply
        ensures { IsDraftReply self.old self.new (ScriptLine (EditLine change)) result }
    {
        self.change(alloc, EditRequest::Change(change))
    }

    /// A `press`, `release`, `repeat` or `copy` line.
    fn reply_to_retouch(&mut self, alloc: A, retouch: Retouch) -> Reply
        ensures { IsDraftReply self.old self.new (RetouchLine retouch) result }
    {
        self.change(alloc, EditRequest::Retouch(retouch))
    }

    /// A `len` line.
    fn show_length(&self) -> Reply
        ensures { IsDraftReply self.now self.now (ScriptLine LengthLine) result }
    {
        Reply::Measured {
            at: self.edits(),
            len: self.movie().len(),
        }
    }

    /// An `input` line.
    fn show_input(&self, frame: usize) -> Reply
        ensures { IsDraftReply self.now self.now (ScriptLine (InputLine frame)) result }
    {
        let at = self.edits();
        let len = self.movie().len();
        if frame >= len {
            return Reply::NoFrame { at, len };
        }
        Reply::Pressed {
            at,
            input: self.movie().input(frame),
        }
    }

    /// A `work` line: the states up to a frame are filled, on this thread.
    fn work(&mut self, alloc: A, frame: usize) -> Reply
        ensures { IsDraftReply self.old self.new (ScriptLine (WorkLine frame)) result }
    {
        let Ok(job) = self.view.job(alloc, frame) else {
            return Reply::OutOfMemory;
        };
        let batch = job.run();
        let Ok(merged) = self.view.merge(&batch) else {
            return Reply::OutOfMemory;
        };
        Reply::Worked {
            jobs: 1,
            kept: merged.kept,
            stale: 0,
        }
    }

    /// A `shot` line.
    fn answer_shot(&mut self, alloc: A, frame: usize) -> Result<Vec<u8, A>, RunFault>
        ensures { MatchResult result
            (λ bytes. IsDraftAnswered self.old (ScriptLine (ShotLine frame)) bytes.items self.new)
            (HasNoDraftAnswer self.old self.new (ScriptLine (ShotLine frame))) }
    {
        let drawn = self.shot(alloc, frame);
        let reply = reply_to_shot(drawn)?;
        answer_of_reply(alloc, reply)
    }

    /// A `picture` line.
    fn answer_picture(&mut self, alloc: A, frame: usize) -> Result<Vec<u8, A>, RunFault>
        ensures { MatchResult result
            (λ bytes. IsDraftAnswered self.old (PictureLine frame) bytes.items self.new)
            (HasNoDraftAnswer self.old self.new (PictureLine frame)) }
    {
        let drawn = self.picture(alloc, frame);
        answer_drawn(alloc, frame, drawn)
    }

    /// A `digest` line.
    fn answer_frame_digest(&mut self, alloc: A, frame: usize) -> Result<Vec<u8, A>, RunFault>
        ensures { MatchResult result
            (λ bytes. IsDraftAnswered self.old (DigestLine frame) bytes.items self.new)
            (HasNoDraftAnswer self.old self.new (DigestLine frame)) }
    {
        let drawn = self.picture(alloc, frame);
        answer_digest(alloc, frame, drawn, self.view())
    }

    /// A `ram` or `lag` line.
    fn answer_look(&mut self, alloc: A, look: Request) -> Result<Vec<u8, A>, RunFault>
        requires { IsStateLook look }
        ensures { MatchResult result
            (λ bytes. IsDraftAnswered self.old look bytes.items self.new)
            (HasNoDraftAnswer self.old self.new look) }
    {
        let (from, to) = frames_for(look);
        let reached = self.state_for(from, to);
        answer_reached(alloc, self.movie(), look, reached)
    }

    /// An `inputs` line.
    fn answer_inputs(&mut self, alloc: A, from: usize, to: usize) -> Result<Vec<u8, A>, RunFault>
        ensures { MatchResult result
            (λ bytes. IsDraftAnswered self.old (InputsLine from to) bytes.items self.new)
            (HasNoDraftAnswer self.old self.new (InputsLine from to)) }
    {
        list_inputs(alloc, self.edits(), self.movie(), from, to)
    }

    /// A `movie` line.
    fn answer_movie(&mut self, alloc: A) -> Result<Vec<u8, A>, RunFault>
        ensures { MatchResult result
            (λ bytes. IsDraftAnswered self.old MovieLine bytes.items self.new)
            (HasNoDraftAnswer self.old self.new MovieLine) }
    {
        let bytes = movie_answer(alloc, self.edits(), self.movie());
        answer_or_refusal(alloc, bytes)
    }

    /// A `states` line.
    fn answer_states(&mut self, alloc: A) -> Result<Vec<u8, A>, RunFault>
        ensures { MatchResult result
            (λ bytes. IsDraftAnswered self.old StatesLine bytes.items self.new)
            (HasNoDraftAnswer self.old self.new StatesLine) }
    {
        let bytes = list_states(alloc, self.view(), self.edits());
        answer_or_refusal(alloc, bytes)
    }

    /// A script's line. A draft keeps its cartridge, so it makes no `load`.
    fn answer_script_line(&mut self, alloc: A, command: Command) -> Result<Vec<u8, A>, RunFault>
        ensures { MatchResult result
            (λ bytes. IsDraftAnswered self.old (ScriptLine command) bytes.items self.new)
            (HasNoDraftAnswer self.old self.new (ScriptLine command)) }
    {
        match command {
            Command::Load { .. } => Ok(Vec::from_slice(alloc, b"in draft\n")?),
            Command::Edit(change) => {
                let reply = self.reply_to_change(alloc, change);
                answer_of_reply(alloc, reply)
            }
            Command::Length => answer_of_reply(alloc, self.show_length()),
            Command::InputAt { frame } => answer_of_reply(alloc, self.show_input(frame)),
            Command::Shot { frame } => self.answer_shot(alloc, frame),
            Command::Work { frames } => {
                let reply = self.work(alloc, frames);
                answer_of_reply(alloc, reply)
            }
        }
    }

    /// A `press`, `release`, `repeat` or `copy` line.
    fn answer_retouch(&mut self, alloc: A, retouch: Retouch) -> Result<Vec<u8, A>, RunFault>
        ensures { MatchResult result
            (λ bytes. IsDraftAnswered self.old (RetouchLine retouch) bytes.items self.new)
            (HasNoDraftAnswer self.old self.new (RetouchLine retouch)) }
    {
        let reply = self.reply_to_retouch(alloc, retouch);
        answer_of_reply(alloc, reply)
    }

    /// A `pictures` line: the answers that `picture` gives to the frames from one to the one before another, one after the other.
    fn answer_pictures(&mut self, alloc: A, from: usize, to: usize) -> Result<Vec<u8, A>, RunFault>
        ensures { MatchResult result
            (λ bytes. IsDraftAnswered self.old (PicturesLine from to) bytes.items self.new)
            (HasNoDraftAnswer self.old self.new (PicturesLine from to)) }
    {
        let mut bytes = Vec::new(alloc);
        for frame in from..to {
            let shown = self.answer_picture(alloc, frame)?;
            bytes.extend_from_slice(shown.as_slice())?;
        }
        Ok(bytes)
    }

    /// The answer to a request that is about the movie; `None` where it isn't.
    fn answer_about_movie(
        &mut self,
        alloc: A,
        request: Request,
    ) -> Result<Option<Vec<u8, A>>, RunFault>
        ensures answer { MatchResult result
            (λ found. MatchOption found (IsAboutDesk request × (self.new ≡ self.old))
            (λ bytes. IsDraftAnswered self.old request bytes.items self.new))
            (HasNoDraftAnswer self.old self.new request) }
        ensures desk { IsAboutDesk request → result ≡ Ok None }
    {
        match request {
            Request::Do(command) => Ok(Some(self.answer_script_line(alloc, command)?)),
            Request::Retouch(retouch) => Ok(Some(self.answer_retouch(alloc, retouch)?)),
            Request::Picture { frame } => Ok(Some(self.answer_picture(alloc, frame)?)),
            Request::Pictures { from, to } => Ok(Some(self.answer_pictures(alloc, from, to)?)),
            Request::Digest { frame } => Ok(Some(self.answer_frame_digest(alloc, frame)?)),
            Request::Ram { .. } | Request::Lag { .. } => {
                Ok(Some(self.answer_look(alloc, request)?))
            }
            Request::Inputs { from, to } => Ok(Some(self.answer_inputs(alloc, from, to)?)),
            Request::Movie => Ok(Some(self.answer_movie(alloc)?)),
            Request::States => Ok(Some(self.answer_states(alloc)?)),
            Request::Version => Ok(Some(answer_version(alloc)?)),
            Request::Share
            | Request::History { .. }
            | Request::Begin
            | Request::Commit
            | Request::Drop
            | Request::Quit => Ok(None),
        }
    }

    /// Answers a request as at a history with the draft's movie, its number of edits and its greenzone. A line that loads a cartridge
    /// is answered `in draft`. `None`, with nothing changed, where the request isn't about the movie: `share`, `history`, `begin`,
    /// `commit`, `drop` and `quit`.
    ///
    /// A `delete` line is never answered `out of memory`: it takes memory for its answer alone.
    ///
    /// The one fault is `Memory`, where it is refused for an answer of one short line, once the request is carried out, or for a strip
    /// of pictures, the first of which may be drawn then.
    pub fn answer(&mut self, alloc: A, request: Request) -> Result<Option<Vec<u8, A>>, RunFault>
        // Each line that is about a movie is answered at a draft by the definition for a history with the draft's
        // movie, its number of edits and its greenzone; a change is made in the draft alone, is counted on, and leaves
        // exactly the states up to the edited place, the kept ones on the new grid; `picture`, `ram`, `digest` and
        // `lag` are played from the nearest state of kept states and window and fill both, as at a seat, and no other
        // line changes the window; a deletion is never answered `out of memory`; `inputs`, `movie` and
        // `states` leave all; `work K` keeps exactly what playing the first K frames, or all that there are, leaves,
        // and reports as many as are gained, and none stale, or is `out of memory` with the kept states as they were;
        // `load` is answered `in draft` and changes nothing.
        // Refused: change_in_a_draft_is_made_twice, window_of_a_draft_is_lost_before_a_picture,
        // deletion_in_a_draft_is_out_of_memory*, work_in_a_draft_reports_stale_states*, work_in_a_draft_fills_half.
        // The pictures of a strip are answered one after the other; `share`, `history` and `quit` aren't about a
        // draft's movie, nor are `begin`, `commit` and `drop`: they get no answer from the draft, and nothing is
        // changed.
        // Refused: strip_in_a_draft_leaves_out_its_last_frame.
        // The one fault at a draft is `Memory`: the draft is as it was then; or, of a strip, as its first pictures left
        // it, fewer than it asks for; or the line was carried out.
        // Refused: strip_out_of_memory_is_no_entry, failed_strip_in_a_draft_leaves_no_states.
        ensures answer { MatchResult result
            (λ found. MatchOption found (IsAboutDesk request × (self.new ≡ self.old))
            (λ bytes. IsDraftAnswered self.old request bytes.items self.new))
            (λ fault. (fault ≡ Memory) × IsDraftUnanswered self.old request self.new) }
        ensures kept { IsDraft self.new }
        // `share`, `history`, `begin`, `commit`, `drop` and `quit` get no answer and no fault from a draft.
        // Refused: share_in_a_draft_is_reported_as_out_of_memory.
        ensures desk { IsAboutDesk request → result ≡ Ok None }
    {
        let answer = self.answer_about_movie(alloc, request);
        // Called for its clause `kept`.
        let _changes = self.changes();
        answer
    }
}
