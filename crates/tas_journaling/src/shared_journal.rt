//! A journal that several conversations share.
//!
//! It has a seat of its desk, which makes no edits: what a journal's file has is a beginning of what its seat has seen. A conversation that needs
//! the journal takes its lock, lets its own seat and the journal's see one history (`Desk::meet`), writes the lines that the
//! journal lacks, and frees it. So the lines are in the order of the one history, whoever writes them, and nobody holds the desk's lock
//! while a disk is waited for.
//!
//! What a conversation learns there outlives the lock as a receipt (`receipts`). A journal that failed takes nothing more, and each later call
//! ends with its fault.

ghost use Rattle.std.specs.Prelude.{◌≡◌, ◌≤◌, Some, Err, length, All, IfOk, IfErr, OnOk, OnErr};
ghost use mathlib.Core.List.{IsPrefix};
ghost use Rattle.crossbeam_utils.specs.Seq.{cell_view};
ghost use Rattle.tas_desk.specs.Seats.{KeepsZone};
ghost use Rattle.tas_journaling.specs.declared.journal.JournalFault.TheVariants.{Memory};
ghost use Rattle.tas_journaling.specs.Journals.{HasAll};
ghost use Rattle.tas_journaling.specs.Receipts.{own_at};
ghost use Rattle.tas_journaling.specs.Shared.{HasBeginning, HasSynced, IsBlankOn};

use crate::receipts::{
    Cell, JournalName, JournalReceipt, ReceiptPass, Tally, give_receipt, take_receipt,
};
use crate::{Journal, JournalFault, JournalFile};
use std::alloc::{Allocator, Global};
use std::marker::{Model, PhantomData};
use std::sync::{Mutex, Wait};
use tas_desk::{CloseOnDrop, Desk, Name, Seat};

/// What lies under the lock: the journal, a seat of its own, and its own pass among the receipts.
#[derive(Drop)]
struct KeptJournal<N: Name, K: JournalName, J: JournalFile, A: Allocator = Global> {
    journal: Journal<J>,
    seat: Seat<N, A>,
    pass: ReceiptPass,
    of: PhantomData<K>,
}

impl<N: Name, K: JournalName, J: JournalFile, A: Allocator> Model for KeptJournal<N, K, J, A> {
    ghost use Rattle.std.specs.Prelude.{◌≡◌};
    ghost use Rattle.crossbeam_utils.specs.Seq.{cell_view};
    ghost use Rattle.tas_journaling.specs.Receipts.{own_at};
    ghost use Rattle.tas_journaling.specs.Shared.{HasBeginning, HasSynced, KeptContent};

    ghost Value = { KeptContent A };

    ghost view = { λ k. record { journal = k.journal; seat = k.seat } };

    ghost invariant = { λ k. HasBeginning K.head K.first k.seat.front k.journal
        × (k.pass.table_id ≡ K.table) × (cell_view k.pass ≡ own_at k.journal.upto)
        × K.own k.seat.number k.seat.made
        × HasSynced J.kept K.head K.first k.seat.front k.journal.upto };
}

impl<N: Name, K: JournalName, J: JournalFile, A: Allocator + Copy> KeptJournal<N, K, J, A> {
    /// Lets the seat and the journal's see one history, and writes the lines that the journal lacks of it. The receipt says that it has them.
    fn note<C: CloseOnDrop, R: Wait>(
        &mut self,
        rt: &R,
        alloc: A,
        desk: &Desk<N, C, A>,
        cell: &Cell,
        seat: &mut Seat<N, A>,
    ) -> Result<JournalReceipt<K>, JournalFault>
        requires cell { cell.now.table.shared.table_id ≡ K.table }
        ensures seat { KeepsZone seat.old seat.new }
        // What the journal's seat has seen only grows, and the journal then has all of it, and so all that the seat has seen.
        // Refused: entries_of_a_conversation_are_left_out.
        ensures grows { KeepsZone self.old.seat self.new.seat }
        ensures all { OnOk result (HasAll K.head self.new.seat.front self.new.journal) }
        ensures begins { OnOk result (IsPrefix seat.new.front self.new.seat.front) }
        ensures told { IfOk result (λ told. told ≡ self.new.journal.upto) }
        // Memory that is refused leaves the journal as it was; each other fault stays: whoever needs lines later gets it again,
        // and nothing changes.
        // Refused: failed_shared_journal_has_another_fault.
        ensures memory { IfErr result (λ fault. fault ≡ Memory → self.new.journal ≡ self.old.journal) }
        ensures named { IfErr result
            (λ fault. (fault ≡ Memory → ⊥) → self.new.journal.fault ≡ Some fault) }
        ensures failed { (fault : _) → self.old.journal.fault ≡ Some fault
            → (result ≡ Err fault) × (self.new ≡ self.old) × (seat.new ≡ seat.old) }
    {
        if let Some(fault) = self.journal.fault() {
            return Err(fault);
        }
        desk.meet(rt, &mut self.seat, seat);
        if let Err(fault) = self.journal.note(rt, alloc, desk, &mut self.seat) {
            return Err(fault);
        }
        let upto = self.journal.upto();
        Ok(give_receipt::<K, R>(rt, cell, &mut self.pass, upto))
    }

    /// A receipt of all that it has.
    fn receipt<R: Wait>(&mut self, rt: &R, cell: &Cell) -> JournalReceipt<K>
        requires cell { cell.now.table.shared.table_id ≡ K.table }
        ensures told { result ≡ self.new.journal.upto }
        ensures first { K.first ≤ result }
    {
        let upto = self.journal.upto();
        give_receipt::<K, R>(rt, cell, &mut self.pass, upto)
    }
}

/// Takes back receipts.
fn take_all<K: JournalName, R: Wait>(
    rt: &R,
    cell: &Cell,
    pass: &mut ReceiptPass,
    receipts: Vec<JournalReceipt<K>>,
)
    requires cell { cell.now.table.shared.table_id ≡ K.table }
    requires own { pass.old.table_id ≡ K.table }
    requires keeps { cell_view pass.old ≡ own_at (cell_view pass.old).upto }
    ensures covered { All (λ told. told ≤ (cell_view pass.old).upto) receipts.items }
{
    for receipt in receipts {
        take_receipt::<K, R>(rt, cell, pass, receipt);
    }
}

/// A journal that several conversations share: any number of threads call it at a time. Contracts see nothing of it; its type keeps that its file
/// has the head and the lines of a beginning of the desk's one history, and that nobody has a receipt for more.
#[derive(Drop)]
pub struct SharedJournal<N: Name, K: JournalName, J: JournalFile, A: Allocator = Global> {
    cell: Cell,
    kept: Mutex<KeptJournal<N, K, J, A>>,
}

impl<N: Name, K: JournalName, J: JournalFile, A: Allocator> Model for SharedJournal<N, K, J, A> {
    ghost use Rattle.std.specs.Prelude.{◌≡◌};

    ghost Value = { Unit {0} };

    ghost view = { λ s. tt };

    ghost invariant = { λ s. s.cell.table.shared.table_id ≡ K.table };
}

impl<N: Name, K: JournalName, J: JournalFile, A: Allocator + Copy> SharedJournal<N, K, J, A> {
    /// Shares a journal that has its head and no line yet, on a desk whose history has the entries before the first one. It gets a seat of the desk,
    /// which is to make no edits. This and `other`, a second seat, see one history first, as after [`Desk::meet`]. The name in its type must be
    /// the name of what it is made of. Where the journal has failed or has lines, or where the history is shorter, journal and seat
    /// come back, and the file is as it was.
    pub fn new<C: CloseOnDrop, R: Wait>(
        rt: &R,
        desk: &Desk<N, C, A>,
        tally: Tally,
        journal: Journal<J>,
        mut seat: Seat<N, A>,
        other: &mut Seat<N, A>,
    ) -> Result<SharedJournal<N, K, J, A>, (Journal<J>, Seat<N, A>)>
        requires name { tally ≡ K.table }
        requires head { journal.bytes ≡ K.head }
        requires first { journal.first ≡ K.first }
        requires own { K.own seat.number seat.made }
        ensures other { KeepsZone other.old other.new }
        // A journal is shared exactly where it has no fault and no line, and its first line is that of an entry of the
        // history that both seats see then, or the next.
        // Refused: shared_journal_has_lines_already, journal_is_shared_before_its_first_line,
        // journal_with_the_next_line_is_not_shared.
        ensures shared { OnOk result (IsBlankOn (length other.new.front) journal) }
        ensures refused { OnErr result (IsBlankOn (length other.new.front) journal → ⊥) }
        // Else both come back: the journal as it was, and the seat, which has seen the same history.
        // Refused: journal_comes_back_before_the_seats_meet.
        ensures back { IfErr result (λ back. (back.0 ≡ journal) × KeepsZone seat back.1
            × (back.1.front ≡ other.new.front)) }
    {
        let at = desk.meet(rt, &mut seat, other);
        if !journal.is_blank(at) {
            return Err((journal, seat));
        }
        let Tally {
            cell,
            keeper: mut pass,
        } = tally;
        drop(give_receipt::<K, R>(rt, &cell, &mut pass, journal.upto()));
        Ok(SharedJournal {
            cell,
            kept: Mutex::new(KeptJournal {
                journal,
                seat,
                pass,
                of: PhantomData,
            }),
        })
    }

    /// A receipt of all that the journal has now, for a conversation that begins.
    pub fn receipt<R: Wait>(&self, rt: &R) -> JournalReceipt<K>
        // The entries before the first line are counted, too.
        // Refused: none, see `Journal::begin`.
        ensures first { K.first ≤ result }
    {
        self.kept.lock(rt).receipt(rt, &self.cell)
    }

    /// Shows a seat the history, writes the lines of the entries that the journal lacks, whoever made them, and brings them to the disk. It waits for
    /// others that are writing; the desk's lock is held only while entries are copied. The receipt then says that the journal has all that
    /// the seat has seen.
    ///
    /// Faults: `Memory`, with the journal as it was; `Write` and `Sync`, after which it takes no more lines: each later call, of
    /// any conversation, returns the same fault.
    pub fn note<C: CloseOnDrop, R: Wait>(
        &self,
        rt: &R,
        alloc: A,
        desk: &Desk<N, C, A>,
        seat: &mut Seat<N, A>,
        receipt: &mut JournalReceipt<K>,
    ) -> Result<(), JournalFault>
        ensures seat { KeepsZone seat.old seat.new }
        // Where a conversation was told that its seat's entries are in the journal, its receipt has at least as many as its
        // seat has seen; else it is the old one.
        // Refused: receipt_is_given_without_its_lines, failed_shared_journal_gives_receipts.
        ensures done { OnOk result (length seat.new.front ≤ receipt.new) }
        ensures fault { OnErr result (receipt.new ≡ receipt.old) }
    {
        match self.kept.lock(rt).note(rt, alloc, desk, &self.cell, seat) {
            Ok(given) => {
                *receipt = given;
                Ok(())
            }
            Err(fault) => Err(fault),
        }
    }

    /// Ends the sharing, and returns the journal and its seat, once all conversations have given their receipts back.
    pub fn close<R: Wait>(
        self,
        rt: &R,
        receipts: Vec<JournalReceipt<K>>,
    ) -> (Journal<J>, Seat<N, A>)
        // The journal's file has the head and the lines of a beginning of what its seat has seen: each once, in order, and
        // nothing else; after a fault perhaps some bytes more of the next ones. Whoever wrote them, it has at least as
        // many entries as any receipt says. All seats of a desk have seen beginnings of one history (`Desk::close`), so
        // it has all entries that a conversation was told of.
        // Refused: receipts_are_not_compared.
        ensures journal { HasBeginning K.head K.first result.1.front result.0 }
        ensures receipts { All (λ told. told ≤ result.0.upto) receipts.items }
        // The head and the lines of all these entries were brought to the disk, also where the journal failed later.
        // Refused: none, see `Journal::note`.
        ensures synced { HasSynced J.kept K.head K.first result.1.front result.0.upto }
        // What was known of the seat that was given holds of the one that comes back.
        // Refused: none, no other seat of this desk is there to be returned.
        ensures own { K.own result.1.number result.1.made }
    {
        let SharedJournal { cell, kept } = self;
        let KeptJournal {
            journal,
            seat,
            mut pass,
            of: _,
        } = kept.into_inner();
        take_all::<K, R>(rt, &cell, &mut pass, receipts);
        (journal, seat)
    }
}
