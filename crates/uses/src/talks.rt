//! A script and a conversation, over readers and writers.

use std::alloc::Global;
use std::sync::Wait;
use std::thread::Threads;
use tas_engines::ToolFault;
use tas_tool::script_run;

/// The lines of a script that makes a movie and shows its frame 191.
pub static SCRIPT: &[u8] =
    b"load 000=A910850DA91E85084C08F0 FFC=00F0\ninsert 0 200 ..... ..... .....\nshot 191\n";

/// What the script is answered: `edit 1 len 0`, `edit 2 len 200` and `shot 2 191 ran 192 lit 1680`, each in a line.
pub fn answers<R: Wait>(rt: &R, alloc: Global) -> Result<Vec<u8>, ToolFault> {
    let mut lines = SCRIPT;
    let mut out = Vec::new(alloc);
    script_run(rt, alloc, &mut lines, &mut out)?;
    Ok(out)
}
