//! Names files, for the words of goals.

ghost use Rattle.std.specs.Prelude.{IfOk, IfErr};
ghost use Rattle.tas_engines.specs.Names.{names_of};
ghost use Rattle.tas_engines.specs.NamesFile.{AreNames, IsNamesError};
ghost use Rattle.tas_search.specs.Words.{AllMean};

use std::alloc::Allocator;
use tas_engines::{Name, NamesError};

/// Reads a names file, a line for each name with its address, as [`tas_engines::read_names`] does. Each name is a word of goals, and means its byte.
pub fn read_names<A: Allocator + Copy>(alloc: A, text: &[u8]) -> Result<Vec<Name<A>, A>, NamesError>
    // A names file is read as the names whose text it is, or its first line at fault is reported, and so it is with a
    // choices file.
    // Refused: names_file_is_read_as_an_empty_one.
    ensures read { IfOk result (λ names. AreNames text.now (names_of names.items)) }
    // With the names that were read each of them means the byte at its address.
    // Refused: none, it follows from `read`, by which each is a name that no line before it gives.
    ensures mean { IfOk result (λ names. AllMean (names_of names.items) (names_of names.items)) }
    ensures fault { IfErr result (IsNamesError text.now) }
{
    tas_engines::read_names(alloc, text)
}
