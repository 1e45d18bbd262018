//! The search of a space of inputs for its best sequence.
#![tactic(auto)]

mod answering;
mod arrival;
mod changes;
mod choices;
mod counting;
mod expression;
mod extremes;
mod formula;
mod frontier;
mod goal;
mod goal_search;
mod growing;
mod laws;
mod limits;
mod logs;
mod measure;
mod movie_search;
mod names;
mod operands;
mod parents;
mod power;
mod reaching;
mod reading;
mod reading_words;
mod running;
mod search_error;
mod search_request;
mod searching;
mod space;
mod space_part;
mod starting;
mod verdict;
mod word;

pub use answering::{SearchBytes, SearchText, search_text};
pub use changes::changes_write_the_sequence;
pub use choices::{ChoicesError, ChoicesFaultKind, read_choices, stick_choices};
pub use expression::{Expression, Operator};
pub use extremes::{Aim, find_extreme};
pub use formula::Formula;
pub use goal::{Goal, GoalFault, GoalKind, read_goal};
pub use goal_search::find_goal;
pub use laws::{
    best_part_is_best, best_value_of_parts_is_best, first_difference_decides,
    one_answer_per_search, one_goal_per_text, sequences_are_counted, sequences_are_listed,
    what_no_part_has_the_whole_lacks,
};
pub use limits::{Limits, MAX_WORKERS};
pub use logs::Unfinished;
pub use measure::Measure;
pub use movie_search::{SearchFault, SearchRange, search_movie};
pub use names::read_names;
pub use running::search_run;
pub use search_error::SearchError;
pub use search_request::Search;
pub use searching::{Found, find_shortest};
pub use space::Space;
pub use space_part::SpacePart;
pub use starting::state_at;
pub use tas_engines::{Name, NamesError, NamesFaultKind};
pub use word::Wanted;
