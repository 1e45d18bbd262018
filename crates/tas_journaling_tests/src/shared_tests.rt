//! A journal that two threads share.

ghost use Rattle.std.specs.Prelude.{◌≡◌, ℕ};
ghost use Rattle.tas_desk.specs.Seats.{name_of};

use crate::checks::{check_same, check_that, expect_ok, expect_some};
use crate::disks::{Disk, begin};
use crate::talks::{PARTS, first_parts, size_of};
use std::alloc::Global;
use std::marker::Brand;
use std::process::Abort;
use std::sync::Wait;
use std::sync::atomic::AtomicU64;
use std::thread::{Threads, join};
use tas_desk::{CloseOnDrop, Closed, Desk, Name, Seat, Unopened};
use tas_journal::push_entry;
use tas_journaling::{
    Journal, JournalFault, JournalFile, JournalName, JournalReceipt, SharedJournal, Tally,
};
use tas_movie::{Edit, Inputs};
use vcs_machine::Input;

/// How many edits a thread makes.
const EDITS: u64 = 40;

/// What a thread leaves: its seat, its receipt, and how its last note ended.
#[derive(Drop)]
struct Edited<N: Name, K: JournalName> {
    seat: Seat<N>,
    receipt: JournalReceipt<K>,
    end: Result<(), JournalFault>,
}

/// Makes edits, each of which is noted before the next, until one can't be.
fn edit_all<N: Name, K: JournalName, J: JournalFile, C: CloseOnDrop, R: Wait + Abort>(
    rt: &R,
    alloc: Global,
    desk: &Desk<N, C>,
    shared: &SharedJournal<N, K, J>,
    mut seat: Seat<N>,
) -> Edited<N, K> {
    let mut receipt = shared.receipt(rt);
    let mut end = Ok(());
    for number in 0..EDITS {
        let inputs = expect_ok(rt, Inputs::repeated(alloc, Input::none(), 1));
        let edit = Edit::Insert { at: 0, inputs };
        let made = expect_ok(rt, desk.edit(rt, &mut seat, edit));
        end = shared.note(rt, alloc, desk, &mut seat, &mut receipt);
        if end.is_err() {
            break;
        }
        check_that(rt, number, made.at <= receipt.count());
    }
    Edited { seat, receipt, end }
}

/// The journal of a history that began with the blank movie.
fn text_of<R: Abort>(rt: &R, alloc: Global, closed: &Closed) -> Vec<u8> {
    let mut text = first_parts(rt, alloc, &PARTS, 1);
    for (number, entry) in closed.journal.iter().enumerate() {
        let pushed = push_entry(alloc, &mut text, number, entry.seat, &entry.edit);
        expect_ok(rt, pushed);
    }
    text
}

/// Two threads edit with one journal, and end so. Returns the journal, with how many entries it has by the greater receipt; the seats are back.
fn edit_on_two<
    N: Name + Send + Sync,
    K: JournalName + Send + Sync,
    J: JournalFile + Send + Sync,
    C: CloseOnDrop + Send + Sync,
    R: Wait + Threads + Abort + Sync,
>(
    rt: &R,
    alloc: Global,
    desk: &Desk<N, C>,
    seats: &mut Vec<Seat<N>>,
    shared: SharedJournal<N, K, J>,
    end: Result<(), JournalFault>,
) -> (Journal<J>, u64) {
    let second = expect_some(rt, seats.pop());
    let first = expect_some(rt, seats.pop());
    let (one, other) = join(
        rt,
        || edit_all(rt, alloc, desk, &shared, first),
        || edit_all(rt, alloc, desk, &shared, second),
    );
    check_same(rt, "one", one.end, end);
    check_same(rt, "other", other.end, end);
    let count = one.receipt.count().max(other.receipt.count());
    let mut receipts = Vec::new(alloc);
    expect_ok(rt, receipts.push(one.receipt));
    expect_ok(rt, receipts.push(other.receipt));
    let (journal, own) = shared.close(rt, receipts);
    for seat in [one.seat, other.seat, own] {
        expect_ok(rt, seats.push(seat));
    }
    (journal, count)
}

/// The shared journal of a desk. Fails where it isn't made.
fn share_on<N: Name, K: JournalName, J: JournalFile, C: CloseOnDrop, R: Wait + Abort>(
    rt: &R,
    desk: &Desk<N, C>,
    tally: Tally,
    journal: Journal<J>,
    own: Seat<N>,
    other: &mut Seat<N>,
) -> SharedJournal<N, K, J>
    requires table { tally ≡ K.table }
    requires head { journal.bytes ≡ K.head }
    requires first { journal.first ≡ K.first }
    requires own { K.own own.number own.made }
{
    let made = SharedJournal::<N, K, J>::new(rt, desk, tally, journal, own, other).ok();
    expect_some(rt, made)
}

/// Two threads edit with one journal. Its file has the history, or so many bytes of it, and each receipt's lines whole.
fn share<N: Name + Send + Sync, K: JournalName + Send + Sync, R: Wait + Threads + Abort + Sync>(
    rt: &R,
    alloc: Global,
    unopened: Unopened,
    tally: Tally,
    journal: Journal<Disk<'_>>,
    end: Result<(), JournalFault>,
) -> usize
    requires name { unopened ≡ name_of N.registry N.name N.parts }
    requires table { tally ≡ K.table }
    requires head { journal.bytes ≡ K.head }
    requires first { journal.first ≡ K.first }
    requires own { (number : ℕ) → (made : ℕ) → K.own number made }
{
    let (desk, mut seats) = expect_ok(rt, Desk::<N, &R>::open(rt, alloc, unopened));
    let own = expect_some(rt, seats.pop());
    let mut other = expect_some(rt, seats.pop());
    let shared = share_on::<N, K, _, _, R>(rt, &desk, tally, journal, own, &mut other);
    expect_ok(rt, seats.push(other));
    let (journal, count) = edit_on_two(rt, alloc, &desk, &mut seats, shared, end);
    check_that(rt, "all seats come back", desk.whole(seats.as_slice()));
    let closed = desk.close(rt, seats);
    let text = text_of(rt, alloc, &closed);
    let file = journal.into_file().taker.taken;
    check_that(rt, "beginning", text.starts_with(file.as_slice()));
    let lines = file.iter().filter(|byte| **byte == b'\n').count();
    check_that(rt, "receipts", count <= lines.saturating_sub(5) as u64);
    check_that(rt, "all", end.is_err() || file.len() == text.len());
    file.len()
}

/// The same under a name, with so much room for the file.
fn shared<R: Wait + Threads + Abort + Sync>(
    rt: &R,
    alloc: Global,
    room: usize,
    end: Result<(), JournalFault>,
) -> usize {
    let unopened = expect_ok(rt, Unopened::new(alloc, 3));
    let tally = expect_ok(rt, Tally::new(alloc));
    let done = AtomicU64::new(0);
    let journal = begin(rt, alloc, Disk::new(alloc, room, 1_000, &done), 0);
    share::<Brand, Brand, R>(rt, alloc, unopened, tally, journal, end)
}

/// Each edit of two threads has its line, in the order of the one history.
#[test]
fn two_threads_share_a_journal(rt: HostRuntime) {
    let alloc = rt.alloc();
    let size = shared(&rt, alloc, 1_000_000, Ok(()));
    check_that(&rt, "size", size > 80 * 30);
}

/// A disk that gets full ends both, at the byte at which it is full.
#[test]
fn a_full_disk_ends_all_that_share_it(rt: HostRuntime) {
    let alloc = rt.alloc();
    let head = size_of(&PARTS, 1);
    for more in [0usize, 1, 31, 32, 33, 500, 1_000] {
        let room = head.saturating_add(more);
        let size = shared(&rt, alloc, room, Err(JournalFault::Write));
        check_same(&rt, more, size, room);
    }
}
