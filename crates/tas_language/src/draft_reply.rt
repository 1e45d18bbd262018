//! The answers about drafts.

ghost use Rattle.std.specs.Prelude.{◌≡◌, IfOk};
ghost use Rattle.tas_language.specs.declared.draft_reply.DraftReply.TheVariants.{Began, Committed, Moved};
ghost use Rattle.tas_language.specs.Drafts.{draft_reply_text};

use std::alloc::{AllocError, Allocator};

/// What is answered about a draft. `at` is a number of edits that the history has.
#[derive(Clone, Copy, Debug)]
pub enum DraftReply {
    /// `begin AT LEN`: a draft is open.
    Began {
        /// How many edits were made before.
        at: u64,
        /// The movie's length in frames.
        len: usize,
    },
    /// `commit AT LEN`: the draft's change was made.
    Committed {
        /// How many edits were made, the change included.
        at: u64,
        /// The movie's length in frames afterwards.
        len: usize,
    },
    /// `moved AT`: others have edited the movie since the draft was opened.
    Moved {
        /// How many edits were made.
        at: u64,
    },
    /// `dropped`: the draft was given up.
    Dropped,
    /// `no draft`: no draft is open.
    NoDraft,
    /// `in draft`: a draft is open, which doesn't take this line.
    InDraft,
}

fn began_line<A: Allocator>(alloc: A, at: u64, len: usize) -> Result<Vec<u8, A>, AllocError>
    ensures { IfOk result (λ bytes. bytes.items ≡ draft_reply_text (Began at len)) }
{
    Ok(format!(in alloc; "begin {at} {len}\n")?.into_bytes())
}

fn committed_line<A: Allocator>(alloc: A, at: u64, len: usize) -> Result<Vec<u8, A>, AllocError>
    ensures { IfOk result (λ bytes. bytes.items ≡ draft_reply_text (Committed at len)) }
{
    Ok(format!(in alloc; "commit {at} {len}\n")?.into_bytes())
}

fn moved_line<A: Allocator>(alloc: A, at: u64) -> Result<Vec<u8, A>, AllocError>
    ensures { IfOk result (λ bytes. bytes.items ≡ draft_reply_text (Moved at)) }
{
    Ok(format!(in alloc; "moved {at}\n")?.into_bytes())
}

/// The line of an answer about a draft, with its newline. `AllocError` where memory is refused.
pub fn draft_reply_line<A: Allocator>(alloc: A, reply: DraftReply) -> Result<Vec<u8, A>, AllocError>
    // An answer about a draft is the definition's text of it.
    // Refused: commit_is_answered_with_its_numbers_swapped.
    ensures { IfOk result (λ bytes. bytes.items ≡ draft_reply_text reply) }
{
    match reply {
        DraftReply::Began { at, len } => began_line(alloc, at, len),
        DraftReply::Committed { at, len } => committed_line(alloc, at, len),
        DraftReply::Moved { at } => moved_line(alloc, at),
        DraftReply::Dropped => Vec::from_slice(alloc, b"dropped\n"),
        DraftReply::NoDraft => Vec::from_slice(alloc, b"no draft\n"),
        DraftReply::InDraft => Vec::from_slice(alloc, b"in draft\n"),
    }
}
