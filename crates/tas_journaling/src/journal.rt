//! Journals that are written.
//!
//! Entries are copied under the desk's lock and written outside it. Each is written once: a journal counts the entries of the history that
//! it has. A file that failed takes nothing more, since what follows a part of a line would be no journal.

ghost use Rattle.std.specs.Prelude.{◌≡◌, ◌+◌, ◌-◌, ◌<◌, ◌^◌, ◌↔◌, None, Some, Err, length, min, IfOk, IfErr, IsTrue, OnOk, OnErr};
ghost use Rattle.std.specs.Io.KnownBytes.{Appends};
ghost use Rattle.tas_desk.specs.Seats.{KeepsZone};
ghost use Rattle.tas_journal.specs.Text.{entry_lines, head_text};
ghost use Rattle.tas_journaling.specs.Journals.{journaled, IsGivenPart};
ghost use Rattle.tas_journaling.specs.Noting.{FallsShort, KeepsUp};
ghost use Rattle.tas_journaling.specs.Shared.{IsBlankOn};
ghost use Rattle.tas_journaling.specs.declared.journal.JournalFault.TheVariants.{Memory};

use byte_text::write_counted;
use std::alloc::{AllocError, Allocator};
use std::io;
use std::io::Write;
use std::marker::Model;
use std::sync::Wait;
use tas_desk::{CloseOnDrop, Desk, Entry, Name, Seat};
use tas_journal::{push_entry, write_head};
use tas_movie::Movie;
use thiserror::Error;

/// What a journal is written to.
pub trait JournalFile: Write + Drop {
    ghost use Rattle.std.specs.Prelude.{ℕ, List, Option};

    // That these bytes of such a file are on the disk, where something is known of it.
    ghost kept: { Option (List ℕ) → Type 0 } = { λ _. Unit {0} };

    /// Brings all that was written to the disk. An error where that isn't sure.
    fn sync(&mut self) -> io::Result<()>
        ensures same { Self.contents self.new ≡ Self.contents self.old }
        ensures kept { OnOk result (kept (Self.contents self.old)) };
}

/// Why a journal hasn't all lines.
#[derive(Clone, Copy, Debug, PartialEq, Eq, Error)]
pub enum JournalFault {
    /// A write failed, or took no byte. It takes no more lines.
    #[error("write failed")]
    Write,
    /// The lines are written, but it isn't sure that they are on the disk. It takes no more lines.
    #[error("sync failed")]
    Sync,
    /// Memory was refused. Nothing was written.
    #[error("out of memory")]
    Memory,
}

/// A journal that is written: its head was written whole. Contracts see with which entry of the history its first line is, how many entries of
/// the history come before the next line, why it takes no more lines, and what its file holds. Without a fault, this is on the disk.
#[derive(Drop)]
pub struct Journal<J: JournalFile> {
    file: J,
    first: u64,
    upto: u64,
    fault: Option<JournalFault>,
}

impl<J: JournalFile> Model for Journal<J> {
    ghost use Rattle.std.specs.Prelude.{◌≡◌, None};
    ghost use Rattle.tas_journaling.specs.Journals.{JournalContent};

    ghost Value = { JournalContent };

    ghost view = { λ j. record {
      first = j.first;
      upto = j.upto;
      fault = j.fault;
      bytes = J.contents j.file;
    } };

    ghost invariant = { λ j. j.fault ≡ None → J.kept (J.contents j.file) };
}

impl<J: JournalFile> Journal<J> {
    /// Writes the head of a journal that begins with this movie to a file, which should have nothing yet, and brings it to the disk. The first
    /// line will be that of the history's entry `first`, counted from 0.
    ///
    /// Faults, each with the file: `Memory`, with nothing written; `Write` and `Sync`, with some of the head's bytes written, or all.
    pub fn begin<A: Allocator + Copy, B: Allocator>(
        alloc: A,
        mut file: J,
        movie: &Movie<B>,
        first: u64,
    ) -> Result<Journal<J>, (J, JournalFault)>
        // A journal begins with the head of its movie, and has no line yet and no fault.
        // Refused: journal_begins_one_entry_later, journal_begins_without_its_head.
        ensures first { IfOk result (λ journal. (journal.first ≡ first) × (journal.upto ≡ first)) }
        ensures whole { IfOk result (λ journal. journal.fault ≡ None) }
        ensures head { IfOk result
            (λ journal. Appends (J.contents file) journal.bytes (head_text movie.now)) }
        // The head is on the disk then.
        // Refused: none, see `Journal::note`.
        ensures kept { IfOk result (λ journal. J.kept journal.bytes) }
        // Where it doesn't begin, the file comes back. It has some first bytes of the head, all of them, or none, by the fault:
        // where memory was refused, it is as it was.
        // Refused: cut_head_is_reported_as_refused_memory.
        ensures back { IfErr result (λ back.
            IsGivenPart (J.contents file) (J.contents back.0) (head_text movie.now) back.1) }
    {
        match put_head(alloc, movie, &mut file) {
            Ok(()) => Ok(Journal {
                file,
                first,
                upto: first,
                fault: None,
            }),
            Err(fault) => Err((file, fault)),
        }
    }

    /// Ends it, and returns what it was written to.
    pub fn into_file(self) -> J
        // Refused: none, its result's type leaves nothing else to return.
        ensures bytes { J.contents result ≡ self.bytes }
        // All that the file of a journal without a fault holds is on the disk.
        // Refused: none, see `Journal::note`.
        ensures kept { self.fault ≡ None → J.kept self.bytes }
    {
        self.file
    }

    /// Whether it has no fault and no line, and its first line is that of one of a history's first `at` entries, or the next.
    pub(crate) fn is_blank(&self, at: u64) -> bool
        ensures blank { IsTrue result ↔ IsBlankOn at self.now }
        ensures kept { IsTrue result → J.kept self.now.bytes }
    {
        self.fault.is_none() && self.upto == self.first && self.upto <= at
    }

    /// How many entries of the history come before the next line.
    pub(crate) fn upto(&self) -> u64
        ensures { result ≡ self.now.upto }
    {
        self.upto
    }

    /// Why it takes no more lines.
    pub(crate) fn fault(&self) -> Option<JournalFault>
        ensures { result ≡ self.now.fault }
    {
        self.fault
    }

    /// Writes the lines of the entries that follow those that it has, of a history of `at` entries.
    fn note_entries<A: Allocator + Copy>(
        &mut self,
        alloc: A,
        at: u64,
        entries: &[Entry<A>],
    ) -> Result<(), JournalFault>
        requires all { length entries.now ≡ min (2 ^ 64 - 1) (at - self.old.upto) }
        ensures first { self.new.first ≡ self.old.first }
        ensures whole { length entries.now ≡ at - self.old.upto }
        ensures upto { OnOk result (self.new.upto ≡ at) }
        ensures fault { OnOk result (self.new.fault ≡ self.old.fault) }
        ensures done { OnOk result (Appends self.old.bytes self.new.bytes
            (entry_lines (self.old.upto - self.old.first) (journaled entries.now))) }
        ensures disk { OnOk result (J.kept self.new.bytes) }
        ensures kept { OnErr result (self.new.upto ≡ self.old.upto) }
        ensures memory { IfErr result (λ fault. fault ≡ Memory → self.new ≡ self.old) }
        ensures named { IfErr result
            (λ fault. (fault ≡ Memory → ⊥) → self.new.fault ≡ Some fault) }
        ensures cut { IfErr result (IsGivenPart self.old.bytes self.new.bytes
            (entry_lines (self.old.upto - self.old.first) (journaled entries.now))) }
    {
        let number = self.upto.saturating_sub(self.first);
        let Ok(lines) = journal_lines(alloc, number, entries) else {
            return Err(JournalFault::Memory);
        };
        if let Err(fault) = append(&mut self.file, lines.as_slice()) {
            self.fault = Some(fault);
            return Err(fault);
        }
        self.upto = at;
        Ok(())
    }

    /// Shows a seat the history, writes the lines of the entries that the journal lacks, and brings them to the disk. Where it lacks none
    /// nothing is written.
    ///
    /// Faults: `Memory`, with the journal as it was; `Write` and `Sync`, after which it takes no more lines: each later call returns the
    /// same fault.
    pub fn note<N: Name, C: CloseOnDrop, A: Allocator + Copy, R: Wait>(
        &mut self,
        rt: &R,
        alloc: A,
        desk: &Desk<N, C, A>,
        seat: &mut Seat<N, A>,
    ) -> Result<(), JournalFault>
        ensures seat { KeepsZone seat.old seat.new }
        // Its first line stays that of the same entry.
        // Refused: journal_forgets_what_it_lacks.
        ensures first { self.new.first ≡ self.old.first }
        // A journal whose file had its head and the lines of a beginning of what the seat had seen has those of all that the
        // seat has seen then: each entry's line once, in order, whoever made it, and nothing else. After a fault it has
        // the old lines and some first bytes of the next ones, fewer than all, or all of them where they can't be brought to
        // the disk; memory that is refused leaves it as it was.
        // Refused: entry_of_a_journal_is_written_twice, entry_of_a_journal_is_left_out,
        // entry_of_another_seat_is_left_out, lines_of_a_journal_begin_at_one.
        ensures done { OnOk result (KeepsUp seat.old seat.new self.old self.new) }
        ensures fault { IfErr result (FallsShort seat.old seat.new self.old self.new) }
        // All that its file holds is on the disk then.
        // Refused: journal_is_not_brought_to_the_disk.
        ensures kept { OnOk result (J.kept self.new.bytes) }
        // A journal with a fault takes no more lines.
        // Refused: failed_journal_takes_more_lines.
        ensures failed { (fault : _) → self.old.fault ≡ Some fault
            → (result ≡ Err fault) × (self.new ≡ self.old) }
    {
        if let Some(fault) = self.fault {
            return Err(fault);
        }
        let Ok(history) = desk.history(rt, alloc, seat, self.upto as usize, usize::MAX) else {
            return Err(JournalFault::Memory);
        };
        let entries = history.entries.as_slice();
        if entries.is_empty() {
            return Ok(());
        }
        if let Err(fault) = self.note_entries(alloc, history.at, entries) {
            return Err(fault);
        }
        Ok(())
    }
}

/// Writes the head of a journal that begins with this movie, and brings it to the disk.
fn put_head<A: Allocator + Copy, B: Allocator, J: JournalFile>(
    alloc: A,
    movie: &Movie<B>,
    file: &mut J,
) -> Result<(), JournalFault>
    ensures done { OnOk result
        (Appends (J.contents file.old) (J.contents file.new) (head_text movie.now)) }
    ensures kept { OnOk result (J.kept (J.contents file.new)) }
    ensures cut { IfErr result
        (IsGivenPart (J.contents file.old) (J.contents file.new) (head_text movie.now)) }
{
    let Ok(head) = write_head(alloc, movie) else {
        return Err(JournalFault::Memory);
    };
    append(file, head.as_slice())
}

/// Writes some bytes to a journal's file, and brings them to the disk.
fn append<J: JournalFile>(file: &mut J, bytes: &[u8]) -> Result<(), JournalFault>
    ensures done { OnOk result (Appends (J.contents file.old) (J.contents file.new) bytes.now) }
    ensures kept { OnOk result (J.kept (J.contents file.new)) }
    ensures cut { IfErr result
        (IsGivenPart (J.contents file.old) (J.contents file.new) bytes.now) }
    ensures error { IfErr result (λ fault. fault ≡ Memory → ⊥) }
{
    if let Err(_) = write_counted(bytes, 0, file) {
        return Err(JournalFault::Write);
    }
    if let Err(_) = file.sync() {
        return Err(JournalFault::Sync);
    }
    Ok(())
}

/// The lines of some entries, the first of which has this number.
fn journal_lines<A: Allocator + Copy>(
    alloc: A,
    first: u64,
    entries: &[Entry<A>],
) -> Result<Vec<u8, A>, AllocError>
    requires { first + length entries.now < 2 ^ 64 }
    ensures { IfOk result (λ text. text.items ≡ entry_lines first (journaled entries.now)) }
{
    let mut text = Vec::new(alloc);
    let mut number = first as usize;
    for entry in entries {
        push_entry(alloc, &mut text, number, entry.seat, &entry.edit)?;
        number += 1;
    }
    Ok(text)
}
