//! The language of scripts and conversations: lines that edit a movie and look at it, the replies to them, and how a line is
//! held while it comes in pieces.
//!
//! A script has the lines of [`Command`]; a conversation has those and some more ([`Request`]). A script's replies are those of
//! [`Reply`]; the other lines of a conversation have these, too, and answers of their own. A script of `tas edit` has the lines of
//! [`EditLine`]. A line says what it is the printed text of.
//!
//! That a line is one request is proved by its words: the first word, the numbers and the frame after it make the
//! request again (`OneRequest`), so a further request costs three rows. Scripts have a table of each kind against each
//! other (`OneCommand`). Definitions name no allocator: an edit's content (`EditContent`) is the edit over none, and
//! `same_refusal` and `same_edited` prove that an edit on any allocator is refused and made as its content is.
#![tactic(auto)]

mod answers;
mod change;
mod command;
mod draft_reply;
mod edit_line;
mod history;
mod image;
mod laws;
mod line;
mod loading;
mod looks;
mod parsing;
mod printing;
mod reply;
mod request;
mod retouch;
mod unheard;
mod words;

pub use answers::{movie_answer, picture_answer, share_answer, states_answer, version_answer};
pub use change::{Change, change_line, read_change};
pub use command::Command;
pub use draft_reply::{DraftReply, draft_reply_line};
pub use edit_line::{EditLine, read_edit_line};
pub use history::{history_answer, push_edit_lines, push_entry};
pub use image::Image;
pub use laws::{
    edit_lines_make_the_edit, lines_begin_with_their_words, one_command_per_line,
    one_edit_line_per_line, one_request_per_line,
};
pub use line::{Line, MAX_LINE};
pub use looks::{digest_answer, inputs_answer, lag_answer, ram_answer};
pub use parsing::{MAX_PICTURES, parse_line, parse_request};
pub use printing::reply_line;
pub use reply::Reply;
pub use request::Request;
pub use retouch::{Retouch, read_retouch};
pub use unheard::{Unheard, unknown_line};
pub use words::{MAX_NUMBER, after_prefix, number};
