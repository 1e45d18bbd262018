//! The words of a command line.

use std::alloc::Global;
use tas_words::{Invocation, Task, read_invocation};

/// The frame that `tas shot CART FRAME` asks for; the first word is the program's name.
pub fn frame_of_shot(alloc: Global, words: &[String]) -> Option<usize> {
    match read_invocation(alloc, alloc, words) {
        Invocation::Do(Task::Shot { frame, .. }) => Some(frame),
        Invocation::Do(_) => None, // another command
        Invocation::Save { .. } => None, // a command whose output replaces a file
        Invocation::Show(_) => None, // help, or the version
        Invocation::Refuse(_) => None, // a text says why they aren't understood
        Invocation::NoMemory => None,
    }
}
