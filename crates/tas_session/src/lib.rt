//! The editor for one caller: one movie, the history of its edits, its greenzone, and the published movie, which readers see
//! without waiting.
#![tactic(auto)]

mod commit;
mod counts;
mod replies;
mod session;

pub use replies::{
    CommitError, EditError, OfferError, Offered, OpenError, Reached, Receipt, Shot, shown,
};
pub use session::{MAX_EDITS, Session};
pub use tas_published::{
    Closed, Entry, InputError, MovieCopy, MovieReader, NoEntry, ShotError, StateError, Stroke,
    Version, VersionRule,
};
