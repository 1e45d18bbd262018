//! What a task waits for before it answers.

ghost use Rattle.std.specs.Prelude.{◌≡◌, option_map};
ghost use Rattle.tas_words.specs.Waiting.{waits_for, whole_reader};

use crate::Task;
use crate::tips::command_named;

/// The name of a task's command, if it reads standard input whole.
fn whole_reader(task: Task<'_>) -> Option<&'static str>
    ensures { option_map (λ name. name.now) result ≡ whole_reader task.entry }
{
    match task {
        Task::Trace { .. } => Some("trace"),
        Task::Check { .. } => Some("check"),
        Task::Migrate { .. } => Some("migrate"),
        Task::Recover(_) => Some("recover"),
        Task::Search(_) => Some("search"),
        Task::Verify(_) => Some("verify"),
        Task::Shot { .. } => Some("shot"),
        Task::Film { .. } => Some("film"),
        Task::Export { .. } => Some("export"),
        Task::Ram { .. } => Some("ram"),
        Task::Digest { .. } => Some("digest"),
        Task::Compare { .. } => Some("compare"),
        Task::Lag { .. } => Some("lag"),
        Task::Edit { .. } => Some("edit"),
        Task::Cut { .. } => Some("cut"),
        Task::Diff { .. } => Some("diff"),
        Task::Script(_) => Some("script"),
        Task::New { .. } | Task::Talk(_) | Task::Desk(_) => None,
    }
}

/// What a task waits for before it answers, with a call of its command: what it reads whole from standard input. `None` for
/// [`Task::Talk`], which answers line by line, and for tasks that leave standard input alone.
pub fn waits_for(task: Task<'_>) -> Option<&'static str>
    // What a task waits for is the tip of its command, if this reads standard input whole.
    // Refused: shot_is_told_the_call_of_a_film, verification_is_told_the_call_of_a_digest, nothing_is_waited_for.
    ensures { option_map (λ text. text.now) result ≡ waits_for task.entry }
{
    command_named(whole_reader(task)?)?.tip
}
