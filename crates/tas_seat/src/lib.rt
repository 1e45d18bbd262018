//! What a seat of a desk is answered: a command, a request, and a whole conversation. Outside a draft each line, and each picture of a
//! line `pictures`, is answered at a history that begins with all that the seat had seen; the seat has then seen this history, and the
//! edits that the line made. In a draft a line about the movie is answered at the draft.
//!
//! Nothing here asks whether other seats edit the movie, too: a desk of one seat is the case in which nobody else does.
//!
//! A conversation is made of the script's parts, so one definition says what a line means in both. Definitions follow
//! what is kept from line to line (`TalkState`), so `states` can't leave out what is kept and the number after `ran` is
//! right. Only the desk's own states, which `work` fills, aren't followed: `movie`, `states`, `share`, `work` and
//! `begin` gain some, and tests check which.
#![tactic(auto)]

mod callers;
mod commands;
mod conversation;
mod door;
mod draft;
mod draft_answers;
mod draft_stroke;
mod edit_requests;
mod histories;
mod laws;
mod looks;
mod requests;
mod talking;

pub use callers::{Caller, converse_all, seat_end};
pub use commands::reply_to_command;
pub use conversation::answer_talk;
pub use door::Door;
pub use draft::Draft;
pub use draft_stroke::stroke_between;
pub use laws::{
    answers_are_at_beginnings, commits_make_drafts, parts_have_whole_commits, talks_are_in_history,
};
pub use requests::answer_request;
pub use talking::converse;
