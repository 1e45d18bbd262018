//! What commands write and how they end.

use crate::checks::check_same;
use std::fmt::Debug;
use std::process::Abort;
use tas_movie::{TextError, TextErrorKind};
use tas_tool::{RunFault, ToolFault};

/// What a command wrote, and how it ended.
pub type Answer<'a> = (&'a [u8], Result<(), ToolFault>);

/// The fault of a cartridge of seven bytes.
pub const SIZE: ToolFault = ToolFault::Run(RunFault::Size(7));

/// The fault of a movie text that names another cartridge.
pub const DIGEST: ToolFault = ToolFault::Run(RunFault::Text(TextError {
    line: 2,
    kind: TextErrorKind::Digest,
}));

/// Fails where a command wrote something else, or ended in another way.
pub fn check_answer<R: Abort, C: Copy + Debug>(
    rt: &R,
    case: C,
    (written, ended): Answer<'_>,
    (wanted, end): Answer<'_>,
) {
    check_same(rt, case, ended, end);
    check_same(rt, case, written, wanted);
}
