//! Receipts of a journal that several conversations share.
//!
//! What a conversation knows of the journal has to outlive the lock: that it has at least so many entries. A receipt says so. It has a pass of a
//! cell whose rule is that nobody was told of more entries than the journal has. The journal's own pass, which alone knows how many these
//! are, is under the lock.

ghost use Rattle.std.specs.Prelude.{◌≡◌, ◌≤◌, [], ◌∷◌};
ghost use Rattle.crossbeam_utils.specs.Seq.{cell_view};
ghost use Rattle.tas_journaling.specs.Receipts.{own_at};

use atomic_table::{Join, Split};
use crossbeam_utils::atomic::seq_cell::{Pass, RuledSeqCell};
use crossbeam_utils::rule::{Outcome, Protocol};
use std::alloc::{AllocError, Global};
use std::marker::{Brand, Model, PhantomData};
use std::sync::Wait;

/// Which journal it is that several conversations share: the table of its receipts, what its file had before the first line, with which
/// entry of the history that line is, and which seat it has. Two shared journals have two names, so no receipt of one is taken for one of another. Whoever has a
/// [`Tally`] calls a function that is generic over the name, with [`Brand`] for it; that call picks the name.
pub trait JournalName {
    ghost use Rattle.std.specs.Prelude.{ℕ, List, Option};
    ghost use Rattle.atomic_table.specs.Seated.{TableId};

    /// The table of its receipts.
    ghost table: { TableId };

    /// What its file had before the first line.
    ghost head: { Option (List ℕ) };

    /// The entry of the history whose line is the first.
    ghost first: { ℕ };

    /// What is known of the journal's own seat: of its number, and how many edits it made.
    ghost own: { ℕ → ℕ → Type 0 };
}

impl JournalName for Brand {
    ghost use Rattle.std.specs.Prelude.{None};
    ghost use Rattle.tas_journaling.specs.Receipts.{no_table};

    ghost table = { no_table };

    ghost head = { None };

    ghost first = { 0 };

    ghost own = { λ _ _. Unit {0} };
}

/// What a pass knows: whether it is the journal's own, and then how many entries of the history come before the journal's next line; and of how many somebody was told. No value of it is made.
pub struct Known {
    /// Whether it is the journal's own.
    pub keeps: bool,
    /// How many entries come before the journal's next line.
    pub upto: u64,
    /// How many somebody was told of.
    pub told: u64,
}

/// The rule of receipts.
pub struct ReceiptRule;

impl Protocol<[u64; 1], Known> for ReceiptRule {
    ghost use Rattle.tas_journaling.specs.Receipts.{own_at, CoversAll};

    ghost holds = { CoversAll };

    ghost first = { own_at 0 };
}

/// The journal has more entries.
pub(crate) struct Raise;

impl Outcome<[u64; 1], Known> for Raise {
    ghost use Rattle.tas_journaling.specs.Receipts.{Raised};

    ghost then = { Raised };
}

/// A receipt is compared with the journal.
pub(crate) struct Compare;

impl Outcome<[u64; 1], Known> for Compare {
    ghost use Rattle.tas_journaling.specs.Receipts.{Compared};

    ghost then = { Compared };
}

/// A receipt is given, or taken back.
pub(crate) struct Give;

impl Split<Known> for Give {
    ghost use Rattle.tas_journaling.specs.Receipts.{told_by};

    ghost left = { λ v. v };

    ghost right = { told_by };
}

impl Join<Known> for Give {
    ghost use Rattle.tas_journaling.specs.Receipts.{beside, told_of};

    ghost both = { beside };

    ghost spent = { told_of 0 };
}

/// The cell whose passes receipts are.
pub(crate) type Cell = RuledSeqCell<[u64; 1], Known, ReceiptRule, 1>;

/// The journal's own pass, or a receipt's.
pub(crate) type ReceiptPass = Pass<[u64; 1], Known>;

/// What the receipts of a journal come from, before the journal has a name. Contracts see their table.
#[derive(Drop)]
pub struct Tally {
    pub(crate) cell: Cell,
    pub(crate) keeper: ReceiptPass,
}

impl Model for Tally {
    ghost use Rattle.std.specs.Prelude.{◌≡◌};
    ghost use Rattle.atomic_table.specs.Seated.{TableId};
    ghost use Rattle.crossbeam_utils.specs.Seq.{cell_view};
    ghost use Rattle.tas_journaling.specs.Receipts.{own_at};

    ghost Value = { TableId };

    ghost view = { λ t. t.cell.table.shared.table_id };

    ghost invariant = { λ t. (t.keeper.table_id ≡ t.cell.table.shared.table_id)
        × (cell_view t.keeper ≡ own_at 0) };
}

impl Tally {
    /// A tally without receipts.
    pub fn new(alloc: Global) -> Result<Tally, AllocError> {
        let (cell, keeper) = Cell::ruled(alloc, [0])?;
        Ok(Tally { cell, keeper })
    }
}

/// What a conversation knows of a journal that it shares. Contracts see how many entries of the history were in the journal, or came before its
/// first line, when the receipt was given.
#[derive(Drop)]
pub struct JournalReceipt<K: JournalName> {
    pub(crate) told: u64,
    pub(crate) pass: ReceiptPass,
    pub(crate) of: PhantomData<K>,
}

impl<K: JournalName> Model for JournalReceipt<K> {
    ghost use Rattle.std.specs.Prelude.{◌≡◌, ℕ, []};
    ghost use Rattle.crossbeam_utils.specs.Seq.{cell_view};

    ghost Value = { ℕ };

    ghost view = { λ r. r.told };

    ghost invariant = { λ r. (r.pass.table_id ≡ K.table) × (r.pass.me.1 ≡ [])
        × (r.told ≡ (cell_view r.pass).told) };
}

impl<K: JournalName> JournalReceipt<K> {
    /// How many entries of the history it says are in the journal, or come before its first line.
    pub fn count(&self) -> u64
        // Refused: receipt_counts_one_more.
        ensures { result ≡ self.now }
    {
        self.told
    }
}

/// A number as the cell's words.
fn words(upto: u64) -> [u64; 1]
    ensures { result ≡ upto ∷ [] }
{
    [upto]
}

/// Raises the journal's own pass to this many entries, and gives a receipt of them.
pub(crate) fn give_receipt<K: JournalName, R: Wait>(
    rt: &R,
    cell: &Cell,
    keeper: &mut ReceiptPass,
    upto: u64,
) -> JournalReceipt<K>
    requires cell { cell.now.table.shared.table_id ≡ K.table }
    requires own { keeper.old.table_id ≡ K.table }
    requires keeps { cell_view keeper.old ≡ own_at (cell_view keeper.old).upto }
    requires more { (cell_view keeper.old).upto ≤ upto }
    ensures own { keeper.new.table_id ≡ K.table }
    ensures keeps { cell_view keeper.new ≡ own_at upto }
    ensures told { result ≡ upto }
{
    cell.swap_as::<Raise, R>(rt, keeper, words(upto));
    let pass = cell.split_pass::<Give>(keeper);
    JournalReceipt {
        told: upto,
        pass,
        of: PhantomData,
    }
}

/// Takes a receipt back: the journal has at least as many entries as it says.
pub(crate) fn take_receipt<K: JournalName, R: Wait>(
    rt: &R,
    cell: &Cell,
    keeper: &mut ReceiptPass,
    receipt: JournalReceipt<K>,
)
    requires cell { cell.now.table.shared.table_id ≡ K.table }
    requires own { keeper.old.table_id ≡ K.table }
    requires keeps { cell_view keeper.old ≡ own_at (cell_view keeper.old).upto }
    ensures own { keeper.new.table_id ≡ K.table }
    ensures keeps { cell_view keeper.new ≡ cell_view keeper.old }
    ensures covered { receipt ≤ (cell_view keeper.old).upto }
{
    let JournalReceipt {
        told: _,
        pass,
        of: _,
    } = receipt;
    cell.join_pass::<Give>(keeper, pass);
    cell.load_as::<Compare, R>(rt, keeper);
}
