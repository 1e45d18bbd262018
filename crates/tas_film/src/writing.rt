//! Pixmaps of runs, written one after the other.

ghost use Rattle.std.specs.Prelude.{◌<◌, ◌^◌, length, IfErr, OnOk};
ghost use Rattle.std.specs.List.{concat};
ghost use Rattle.std.specs.Io.KnownBytes.{Appends};
ghost use Rattle.byte_text.specs.CutOff.{IsCutOff};
ghost use Rattle.tas_film.specs.Runs.{pixmaps_in};

use crate::runs::Run;
use byte_text::{WriteFault, write_counted};
use std::alloc::Allocator;
use std::io::Write;

/// Writes the pixmaps of runs, one after the other.
pub fn write_pixmaps<A: Allocator, W: Write>(runs: &[Run<A>], to: &mut W) -> Result<(), WriteFault>
    requires { length (concat (pixmaps_in runs.now)) < 2 ^ 64 }
    ensures ok { OnOk result
        (Appends (W.contents to.old) (W.contents to.new) (concat (pixmaps_in runs.now))) }
    ensures cut { IfErr result
        (λ f. IsCutOff (W.contents to.old) (W.contents to.new) (concat (pixmaps_in runs.now))
        f.written) }
{
    let mut written = 0;
    for run in runs {
        written = write_counted(run.pixmaps.bytes(), written, to)?;
    }
    Ok(())
}
