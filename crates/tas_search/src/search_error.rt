//! Why a search has no answer.

ghost use Rattle.std.specs.Prelude.{◌≡◌};
ghost use Rattle.tas_search.specs.declared.search_error.SearchError.TheVariants.{
  Read as Unread,
  Run as Ran,
  Choices as NoChoices,
  Names as NoNames,
  Goal as NoGoal,
  Search as NotSearched,
  Memory as Refused,
};

use crate::choices::ChoicesError;
use crate::goal::GoalFault;
use crate::movie_search::SearchFault;
use std::alloc::AllocError;
use tas_engines::{NamesError, ReadFault, RunFault};
use thiserror::Error;

/// Why a search has no answer. Its text is the line, without the newline, that the program writes to standard error; the program's status
/// is then 1.
#[derive(Clone, Copy, Debug, PartialEq, Eq, Error)]
pub enum SearchError {
    /// An input wasn't read whole.
    #[error("fault: {0}")]
    Read(ReadFault),
    /// The cartridge and the text make no movie; or a write failed, and the first bytes of the answer are out.
    #[error("fault: {0}")]
    Run(RunFault),
    /// The choices file's first line at fault.
    #[error("fault: {0}")]
    Choices(ChoicesError),
    /// The names file's first line at fault.
    #[error("fault: {0}")]
    Names(NamesError),
    /// The goal's text is none.
    #[error("fault: {0}")]
    Goal(GoalFault),
    /// A choice is held for no frame, or the frames are no multiple of those for which a choice is held.
    #[error("fault: frames are no multiple of hold")]
    Frames,
    /// The movie's space can't be searched.
    #[error("fault: {0}")]
    Search(SearchFault),
    /// Out of memory.
    #[error("fault: out of memory")]
    Memory,
}

impl From<RunFault> for SearchError {
    ghost from_gives = { λ fault e. e ≡ Ran fault };

    fn from(fault: RunFault) -> SearchError {
        SearchError::Run(fault)
    }
}

impl From<ReadFault> for SearchError {
    ghost from_gives = { λ fault e. e ≡ Unread fault };

    fn from(fault: ReadFault) -> SearchError {
        SearchError::Read(fault)
    }
}

impl From<ChoicesError> for SearchError {
    ghost from_gives = { λ fault e. e ≡ NoChoices fault };

    fn from(fault: ChoicesError) -> SearchError {
        SearchError::Choices(fault)
    }
}

impl From<NamesError> for SearchError {
    ghost from_gives = { λ fault e. e ≡ NoNames fault };

    fn from(fault: NamesError) -> SearchError {
        SearchError::Names(fault)
    }
}

impl From<GoalFault> for SearchError {
    ghost from_gives = { λ fault e. e ≡ NoGoal fault };

    fn from(fault: GoalFault) -> SearchError {
        SearchError::Goal(fault)
    }
}

impl From<SearchFault> for SearchError {
    ghost from_gives = { λ fault e. e ≡ NotSearched fault };

    fn from(fault: SearchFault) -> SearchError {
        SearchError::Search(fault)
    }
}

impl From<AllocError> for SearchError {
    ghost from_gives = { λ _ e. e ≡ Refused };

    fn from(_error: AllocError) -> SearchError {
        SearchError::Memory
    }
}
