//! The editor: one movie, the history of its edits, and its greenzone; for one caller as a session, for several as a desk with
//! seats, which read without waiting.
#![tactic(auto)]

mod desk;
mod desk_lock;
mod export;
mod history;
mod laws;
mod locked_session;
mod name;
mod parts;
mod plan;
mod seat;
mod seat_zone;
mod seating;
mod shared;
mod work;

pub use desk::{Desk, MAX_SEATS, Unopened};
pub use export::{ExportError, Exported, MAX_EXPORT};
pub use history::History;
pub use laws::limits_are_exact;
pub use locked_session::CloseOnDrop;
pub use name::Name;
pub use parts::MAX_ENTRIES;
pub use plan::Plan;
pub use seat::Seat;
pub use shared::Shared;
pub use tas_film::{FilmStop, Gate, HaltedFrame, MAX_WORKERS, write_film};
pub use tas_session::{
    Closed, CommitError, EditError, Entry, InputError, MAX_EDITS, NoEntry, OfferError, Offered,
    OpenError, Reached, Receipt, Session, Shot, ShotError, StateError, Stroke,
};
pub use work::{WorkError, Worked};
