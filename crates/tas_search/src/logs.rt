//! Where the lines of a search's report go.
//!
//! Each line goes out whole before the next layer is searched, so that whoever ends a search has those so far.

ghost use Rattle.std.specs.Prelude.{◌≡◌, OnOk, IfErr};
ghost use Rattle.tas_search.specs.Logs.{Logged, StopsLogging, log_bytes};
ghost use Rattle.tas_search.specs.declared.logs.Unfinished.TheVariants.{Memory as Refused, Report as Unwritten};

use byte_text::write_counted;
use std::alloc::AllocError;
use std::io::Write;
use thiserror::Error;

/// Why a search has no answer.
#[derive(Clone, Copy, Debug, PartialEq, Eq, Error)]
pub enum Unfinished {
    /// A line of the report wasn't written whole.
    #[error("report: write failed")]
    Report,
    /// Out of memory.
    #[error("out of memory")]
    Memory,
}

impl From<AllocError> for Unfinished {
    ghost from_gives = { λ _ end. end ≡ Refused };

    fn from(_error: AllocError) -> Unfinished {
        Unfinished::Memory
    }
}

/// Writes a line to both writers, to the report first: what standard error shows is in the report, too.
pub(crate) fn write_line<E: Write, P: Write>(
    errors: &mut E,
    report: &mut P,
    line: &[u8],
) -> Result<(), Unfinished>
    // Each line goes to both writers. `Report` says that one of them hasn't the whole line. Why it stopped there no clause
    // says: that of a write says only which bytes went out.
    // Refused: lines_are_not_written_to_the_file, written_line_is_reported_as_failed.
    ensures ok { OnOk result (Logged (log_bytes (E.contents errors.old) (P.contents report.old))
        (log_bytes (E.contents errors.new) (P.contents report.new)) line.now) }
    ensures fault { IfErr result (λ why. (why ≡ Unwritten)
        × StopsLogging (log_bytes (E.contents errors.old) (P.contents report.old))
        (log_bytes (E.contents errors.new) (P.contents report.new)) line.now) }
{
    let Ok(_) = write_counted(line, 0, report) else {
        return Err(Unfinished::Report);
    };
    let Ok(_) = write_counted(line, 0, errors) else {
        return Err(Unfinished::Report);
    };
    Ok(())
}
