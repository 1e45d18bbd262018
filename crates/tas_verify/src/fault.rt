//! Why a run over many movies ended without its last line.

use tas_engines::ReadFault;
use thiserror::Error;

/// Why [`verify_run`](crate::verify_run) didn't write all lines. Its text is the line, without the newline, that a program writes to standard
/// error.
#[derive(Clone, Copy, Debug, PartialEq, Eq, Error)]
pub enum VerifyFault {
    /// The manifest wasn't read whole. Nothing was written.
    #[error("fault: manifest: {0}")]
    Read(ReadFault),
    /// This line of the manifest, counted from 1, is the first one at fault. Nothing was written.
    #[error("fault: manifest line {0}")]
    Manifest(usize),
    /// A write failed, or took no byte.
    #[error("fault: write failed after {written} bytes")]
    Write {
        /// How many bytes had gone out: the first ones of the lines.
        written: usize,
    },
    /// Memory was refused. The lines of some of the first movies are written, or none.
    #[error("fault: out of memory")]
    Memory,
}
