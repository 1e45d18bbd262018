//! Journals that aren't shared, and one that two conversations share and that fails, or that is refused memory. The texts are by hand.

ghost use Rattle.std.specs.Prelude.{◌≡◌, ◌≤◌, ℕ};
ghost use Rattle.tas_desk.specs.Seats.{name_of};

use crate::checks::{check_same, check_that, expect_ok, expect_some};
use crate::disks::{Disk, begin};
use crate::talks::{PARTS, first_parts, size_of};
use refusals::Refusing;
use std::alloc::{Allocator, Global};
use std::marker::Brand;
use std::process::Abort;
use std::sync::Wait;
use std::sync::atomic::AtomicU64;
use tas_desk::{CloseOnDrop, Desk, Name, Seat, Unopened};
use tas_journaling::{
    Journal, JournalFault, JournalFile, JournalName, JournalReceipt, SharedJournal, Tally,
};
use tas_movie::{Edit, Inputs};
use vcs_machine::Input;

/// The lines of three edits of the first seat.
static LINES: [&[u8]; 3] = [
    b"0 0 insert 0 1 ..... ..... .....\n",
    b"1 0 insert 0 1 ..... ..... .....\n",
    b"2 0 insert 0 1 ..... ..... .....\n",
];

/// A seat's edit.
fn edit<N: Name, C: CloseOnDrop, A: Allocator + Copy, R: Wait + Abort>(
    rt: &R,
    alloc: A,
    desk: &Desk<N, C, A>,
    seat: &mut Seat<N, A>,
) {
    let inputs = expect_ok(rt, Inputs::repeated(alloc, Input::none(), 1));
    expect_ok(rt, desk.edit(rt, seat, Edit::Insert { at: 0, inputs }));
}

/// A journal's head and this many lines.
fn head_and_lines<R: Abort>(rt: &R, alloc: Global, count: usize) -> Vec<u8> {
    let mut text = first_parts(rt, alloc, &PARTS, 1);
    let lines = first_parts(rt, alloc, &LINES, count);
    expect_ok(rt, text.extend_from_slice(lines.as_slice()));
    text
}

/// A journal that is to be shared where the history has one edit: room for its bytes, the entry of its first line, and how a note ends, where
/// there is one. Then whether it is shared, and how many bytes it has.
#[derive(Clone, Copy)]
struct Offer {
    case: &'static str,
    room: usize,
    first: u64,
    noted: Option<Result<(), JournalFault>>,
    is_shared: bool,
    bytes: usize,
}

/// Whether a journal is shared, with the journal and its seat, which come back.
fn try_to_share<N: Name, K: JournalName, J: JournalFile, C: CloseOnDrop, R: Wait>(
    rt: &R,
    alloc: Global,
    desk: &Desk<N, C>,
    tally: Tally,
    journal: Journal<J>,
    seats: (Seat<N>, &mut Seat<N>),
) -> (bool, Journal<J>, Seat<N>)
    requires table { tally ≡ K.table }
    requires head { journal.bytes ≡ K.head }
    requires first { journal.first ≡ K.first }
    requires own { (number : ℕ) → (made : ℕ) → K.own number made }
{
    let (own, other) = seats;
    match SharedJournal::<N, K, J>::new(rt, desk, tally, journal, own, other) {
        Ok(shared) => {
            let (journal, own) = shared.close(rt, Vec::new(alloc));
            (true, journal, own)
        }
        Err((journal, own)) => (false, journal, own),
    }
}

/// Tries to share a journal on a desk of two seats, one of which makes an edit.
fn offer_on<N: Name, R: Wait + Abort>(rt: &R, alloc: Global, unopened: Unopened, offer: Offer)
    requires name { unopened ≡ name_of N.registry N.name N.parts }
{
    let (desk, mut seats) = expect_ok(rt, Desk::<N, &R>::open(rt, alloc, unopened));
    let mut own = expect_some(rt, seats.pop());
    let mut other = expect_some(rt, seats.pop());
    edit(rt, alloc, &desk, &mut other);
    let done = AtomicU64::new(0);
    let disk = Disk::new(alloc, offer.room, 10, &done);
    let mut journal = begin(rt, alloc, disk, offer.first);
    if let Some(end) = offer.noted {
        let noted = journal.note(rt, alloc, &desk, &mut own);
        check_same(rt, offer.case, noted, end);
    }
    let tally = expect_ok(rt, Tally::new(alloc));
    let tried = (own, &mut other);
    let (is_shared, journal, own) = try_to_share::<N, Brand, _, _, R>(
        rt, alloc, &desk, tally, journal, tried,
    );
    check_same(rt, offer.case, is_shared, offer.is_shared);
    for seat in [other, own] {
        expect_ok(rt, seats.push(seat));
    }
    check_that(rt, "all seats come back", desk.whole(seats.as_slice()));
    drop(desk.close(rt, seats));
    let file = journal.into_file().taker.taken;
    check_same(rt, offer.case, file.len(), offer.bytes);
    let text = head_and_lines(rt, alloc, 1);
    check_that(rt, offer.case, text.starts_with(file.as_slice()));
}

/// The same under a name.
fn offer_one<R: Wait + Abort>(rt: &R, alloc: Global, offer: Offer) {
    let unopened = expect_ok(rt, Unopened::new(alloc, 2));
    offer_on::<Brand, R>(rt, alloc, unopened, offer);
}

/// A journal is shared with its head alone, and not before the history has the entries before its first line. Else it comes back as it was.
#[test]
fn a_journal_is_shared_with_its_head_alone(rt: HostRuntime) {
    let alloc = rt.alloc();
    let head = size_of(&PARTS, 1);
    let ready = Offer {
        case: "ready",
        room: 1_000,
        first: 0,
        noted: None,
        is_shared: true,
        bytes: head,
    };
    let next_line = Offer {
        case: "the next line",
        first: 1,
        ..ready
    };
    let cut = head.saturating_add(5);
    let failed = Offer {
        case: "failed",
        room: cut,
        noted: Some(Err(JournalFault::Write)),
        is_shared: false,
        bytes: cut,
        ..ready
    };
    let has_line = Offer {
        case: "a line",
        noted: Some(Ok(())),
        is_shared: false,
        bytes: head.saturating_add(33),
        ..ready
    };
    let shorter = Offer {
        case: "a shorter history",
        first: 2,
        is_shared: false,
        ..ready
    };
    for offer in [ready, next_line, failed, has_line, shorter] {
        offer_one(&rt, alloc, offer);
    }
}

/// Checks that a note ends so, and how many entries the receipt has then.
fn check_note<
    N: Name,
    K: JournalName,
    J: JournalFile,
    C: CloseOnDrop,
    A: Allocator + Copy,
    R: Wait + Abort,
>(
    rt: &R,
    alloc: A,
    desk: &Desk<N, C, A>,
    shared: &SharedJournal<N, K, J, A>,
    seat: &mut Seat<N, A>,
    receipt: &mut JournalReceipt<K>,
    wanted: (Result<(), JournalFault>, u64),
) {
    let (end, count) = wanted;
    check_same(rt, "note", shared.note(rt, alloc, desk, seat, receipt), end);
    check_same(rt, "receipt", receipt.count(), count);
}

/// Two conversations whose journal fails at the second edit. Each later note of either returns the same fault, and leaves its receipt.
fn note_until<N: Name, K: JournalName, J: JournalFile, C: CloseOnDrop, R: Wait + Abort>(
    rt: &R,
    alloc: Global,
    desk: &Desk<N, C>,
    shared: &SharedJournal<N, K, J>,
    seats: (&mut Seat<N>, &mut Seat<N>),
    fault: JournalFault,
) -> Vec<JournalReceipt<K>> {
    let (seat, other) = seats;
    let mut receipt = shared.receipt(rt);
    let mut early = shared.receipt(rt);
    edit(rt, alloc, desk, seat);
    check_note(rt, alloc, desk, shared, seat, &mut receipt, (Ok(()), 1));
    edit(rt, alloc, desk, seat);
    let failed = Err(fault);
    check_note(rt, alloc, desk, shared, seat, &mut receipt, (failed, 1));
    check_note(rt, alloc, desk, shared, other, &mut early, (failed, 0));
    edit(rt, alloc, desk, other);
    check_note(rt, alloc, desk, shared, other, &mut early, (failed, 0));
    check_note(rt, alloc, desk, shared, seat, &mut receipt, (failed, 1));
    let mut receipts = Vec::new(alloc);
    for one in [receipt, early, shared.receipt(rt)] {
        check_that(rt, "receipt", one.count() <= 1);
        expect_ok(rt, receipts.push(one));
    }
    receipts
}

/// What the file has of a journal that two conversations share and that fails so.
fn fail_shared<N: Name, K: JournalName, R: Wait + Abort>(
    rt: &R,
    alloc: Global,
    unopened: Unopened,
    tally: Tally,
    journal: Journal<Disk<'_>>,
    fault: JournalFault,
) -> Vec<u8>
    requires name { unopened ≡ name_of N.registry N.name N.parts }
    requires table { tally ≡ K.table }
    requires head { journal.bytes ≡ K.head }
    requires first { journal.first ≡ K.first }
    requires own { (number : ℕ) → (made : ℕ) → K.own number made }
{
    let (desk, mut seats) = expect_ok(rt, Desk::<N, &R>::open(rt, alloc, unopened));
    let own = expect_some(rt, seats.pop());
    let mut other = expect_some(rt, seats.pop());
    let mut seat = expect_some(rt, seats.pop());
    let made = SharedJournal::<N, K, _>::new(rt, &desk, tally, journal, own, &mut other).ok();
    let shared = expect_some(rt, made);
    let receipts = note_until(rt, alloc, &desk, &shared, (&mut seat, &mut other), fault);
    let (journal, own) = shared.close(rt, receipts);
    for one in [seat, other, own] {
        expect_ok(rt, seats.push(one));
    }
    check_that(rt, "all seats come back", desk.whole(seats.as_slice()));
    drop(desk.close(rt, seats));
    journal.into_file().taker.taken
}

/// The same under a name, with so much room for the file, which can be brought to the disk so often.
fn failed_with<R: Wait + Abort>(
    rt: &R,
    alloc: Global,
    room: usize,
    syncs: u64,
    fault: JournalFault,
) -> Vec<u8> {
    let unopened = expect_ok(rt, Unopened::new(alloc, 3));
    let tally = expect_ok(rt, Tally::new(alloc));
    let done = AtomicU64::new(0);
    let journal = begin(rt, alloc, Disk::new(alloc, room, syncs, &done), 0);
    fail_shared::<Brand, Brand, R>(rt, alloc, unopened, tally, journal, fault)
}

/// A disk that gets full leaves each conversation its receipt, and each later note has the same fault.
#[test]
fn a_failed_write_stays_for_all(rt: HostRuntime) {
    let alloc = rt.alloc();
    let whole = head_and_lines(&rt, alloc, 1).len();
    let text = head_and_lines(&rt, alloc, 2);
    for more in [0usize, 5, 32] {
        let room = whole.saturating_add(more);
        let file = failed_with(&rt, alloc, room, 10, JournalFault::Write);
        check_same(&rt, more, file.len(), room);
        check_that(&rt, more, text.starts_with(file.as_slice()));
    }
}

/// So does one that can't be reached, but the file has the lines of the edit.
#[test]
fn a_failed_sync_stays_for_all(rt: HostRuntime) {
    let alloc = rt.alloc();
    let file = failed_with(&rt, alloc, 1_000, 2, JournalFault::Sync);
    let text = head_and_lines(&rt, alloc, 2);
    check_that(&rt, "lines", file.as_slice() == text.as_slice());
}

/// Notes an edit, and then two more where this growth is refused. Where it was, the receipt is the old one, and the next note has all.
fn note_refused<'a, N: Name, K: JournalName, J: JournalFile, C: CloseOnDrop, R: Wait + Abort>(
    rt: &R,
    heap: &'a Refusing<Global>,
    desk: &Desk<N, C, &'a Refusing<Global>>,
    shared: &SharedJournal<N, K, J, &'a Refusing<Global>>,
    seat: &mut Seat<N, &'a Refusing<Global>>,
    growth: u64,
) -> (JournalReceipt<K>, bool)
    requires { 1 ≤ growth }
{
    let mut receipt = shared.receipt(rt);
    edit(rt, heap, desk, seat);
    check_note(rt, heap, desk, shared, seat, &mut receipt, (Ok(()), 1));
    edit(rt, heap, desk, seat);
    edit(rt, heap, desk, seat);
    heap.refuse(growth);
    let end = shared.note(rt, heap, desk, seat, &mut receipt);
    let refused = heap.has_refused();
    heap.refuse(u64::MAX);
    if refused {
        check_same(rt, growth, end, Err(JournalFault::Memory));
        check_same(rt, growth, receipt.count(), 1);
    } else {
        check_same(rt, growth, end, Ok(()));
    }
    check_note(rt, heap, desk, shared, seat, &mut receipt, (Ok(()), 3));
    (receipt, refused)
}

/// Shares a journal whose note is refused this growth. Whether it was asked for; the file has all three lines.
fn refuse_shared<'a, N: Name, K: JournalName, R: Wait + Abort>(
    rt: &R,
    alloc: Global,
    heap: &'a Refusing<Global>,
    unopened: Unopened<&'a Refusing<Global>>,
    tally: Tally,
    journal: Journal<Disk<'_>>,
    growth: u64,
) -> bool
    requires name { unopened ≡ name_of N.registry N.name N.parts }
    requires table { tally ≡ K.table }
    requires head { journal.bytes ≡ K.head }
    requires first { journal.first ≡ K.first }
    requires own { (number : ℕ) → (made : ℕ) → K.own number made }
    requires growth { 1 ≤ growth }
{
    let opened = Desk::<N, &R, &Refusing<Global>>::open(rt, heap, unopened);
    let (desk, mut seats) = expect_ok(rt, opened);
    let own = expect_some(rt, seats.pop());
    let mut seat = expect_some(rt, seats.pop());
    let made = SharedJournal::<N, K, _, _>::new(rt, &desk, tally, journal, own, &mut seat).ok();
    let shared = expect_some(rt, made);
    let (receipt, refused) = note_refused(rt, heap, &desk, &shared, &mut seat, growth);
    let mut receipts = Vec::new(alloc);
    expect_ok(rt, receipts.push(receipt));
    let (journal, own) = shared.close(rt, receipts);
    for one in [seat, own] {
        expect_ok(rt, seats.push(one));
    }
    check_that(rt, "all seats come back", desk.whole(seats.as_slice()));
    drop(desk.close(rt, seats));
    let file = journal.into_file().taker.taken;
    let text = head_and_lines(rt, alloc, 3);
    check_that(rt, growth, file.as_slice() == text.as_slice());
    refused
}

/// The same under a name.
fn refused_with<R: Wait + Abort>(rt: &R, alloc: Global, growth: u64) -> bool
    requires { 1 ≤ growth }
{
    let heap = Refusing::new(alloc, u64::MAX);
    let unopened = expect_ok(rt, Unopened::new(&heap, 2));
    let tally = expect_ok(rt, Tally::new(alloc));
    let done = AtomicU64::new(0);
    let journal = begin(rt, alloc, Disk::new(alloc, 1_000, 10, &done), 0);
    refuse_shared::<Brand, Brand, R>(rt, alloc, &heap, unopened, tally, journal, growth)
}

/// Whichever growth of a note is refused, the journal is as it was, and the next note writes each line once.
#[test]
fn a_refused_growth_leaves_a_shared_journal(rt: HostRuntime) {
    let alloc = rt.alloc();
    let mut refused = 0usize;
    for growth in 1u64..100 {
        if !refused_with(&rt, alloc, growth) {
            break;
        }
        refused = refused.saturating_add(1);
    }
    check_that(&rt, "growths", 2 < refused && refused < 99);
}
