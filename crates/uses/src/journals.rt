//! A journal: a movie, and the edits that were accepted after it.

use anyhow::Result;
use std::alloc::Global;
use tas_journal::{push_entry, recover, write_head};
use tas_movie::{Edit, Movie};

/// A journal that begins with a movie and has one edit, of seat 3.
pub fn journal_of(alloc: Global, movie: &Movie) -> Result<Vec<u8>> {
    let mut journal = write_head(alloc, movie)?; // a26journal 1, profile .., movie .., and the movie's text
    let edit: Edit = Edit::Delete { at: 0, count: 10 };
    push_entry(alloc, &mut journal, 0, 3, &edit)?; // 0 3 delete 0 10
    Ok(journal)
}

/// What a journal of a movie's cartridge makes: how many frames, by how many edits, and whether its last line was cut.
pub fn made_of(alloc: Global, journal: &[u8], movie: &Movie) -> Result<(usize, usize, bool)> {
    let found = recover(alloc, journal, movie.cart(), usize::MAX)?; // an error names the first line at fault
    Ok((found.movie.len(), found.edits, found.cut))
}
