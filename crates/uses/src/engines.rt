//! An engine: a command over readers and writers.

use std::alloc::Global;
use tas_engines::{ToolFault, check_run};

/// Checks a movie as `tas check` does. The answer is `ok 120 frames` in a line, for a movie of 120.
pub fn check_movie(alloc: Global, image: &[u8], text: &[u8]) -> Result<Vec<u8>, ToolFault> {
    let (mut cart, mut movie, mut out) = (image, text, Vec::new(alloc)); // readers over slices
    check_run(alloc, &mut cart, &mut movie, &mut out)?;
    Ok(out)
}
