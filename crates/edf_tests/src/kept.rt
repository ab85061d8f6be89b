//! Data records that are added, given up, looked for and read again, in memory and on a disk in
//! memory.

use crate::adding::{find, put};
use crate::held::{Answer, CAP, Q_START, empty_store, opened, store_of_both, taken};
use edf_disk_sample::lend;
use edf_fragment::{Counted, OpenFragment, Record};
use edf_header::Identity;
use edf_sample::Source;
use edf_sample::named::{file_p5, file_q};
use edf_store::{Store, StoreFault};
use edf_time::Instant;
use sqlite::{Alter, Connection, Files, MemStore};
use sqlite_disk::{Disk, Memory};
use std::alloc::Global;

/// Half a second, in nanoseconds.
const HALF: i64 = 500_000_000;

/// An instant, by the half seconds after the start of file Q.
fn instant(halves: i8) -> Option<Instant> {
    Instant::at(Q_START)?.after(i64::from(halves) * HALF)
}

/// The identity and the first data record of a file.
fn first_of(alloc: Global, file: &[u8]) -> Option<(Identity, Record)> {
    let mut input = Counted::new(Source::whole(file, 1000));
    let mut fragment = OpenFragment::read(alloc, &mut input).ok()?;
    let data_record = fragment.next(&mut input).ok()??;
    Some((fragment.into_header().into_identity(), data_record))
}

/// A recording, and two of its data records.
#[derive(Drop)]
struct Two {
    identity: Identity,
    first: Record,
    second: Record,
}

/// Q's data record, and one without annotations that starts `halves` half seconds after it.
fn two_apart(alloc: Global, halves: i8) -> Option<Two> {
    let (identity, first) = first_of(alloc, &file_q(alloc).ok()?)?;
    let samples = Vec::from_slice(alloc, &[2, 0, 0xFE, 0xFF]).ok()?;
    let second = Record::new(instant(halves)?, samples, Vec::new(alloc))?;
    Some(Two {
        identity,
        first,
        second,
    })
}

/// Which of the two these are, in this order.
fn which_of(found: &[Record], two: &Two) -> &'static str {
    match found {
        [] => "none",
        [one] if one.same(&two.first) => "the first",
        [one] if one.same(&two.second) => "the second",
        [one, other] if one.same(&two.first) && other.same(&two.second) => "both",
        _ => "others",
    }
}

fn is(found: Option<Record>, expected: &Record) -> bool {
    match found {
        Some(found) => found.same(expected),
        None => false,
    }
}

/// Which of the two a recording has, by a walk over it, in which there is none after the last, and
/// none again.
fn read<S: Alter>(store: &mut Store<S>, two: &Two) -> Result<&'static str, StoreFault> {
    let mut records = store.records(&two.identity)?;
    let begins = is(records.next()?, &two.first);
    let second = records.next()?;
    let is_alone = second.is_none();
    let goes_on = is(second, &two.second);
    let ends = records.next()?.is_none();
    let is_over = ends && records.next()?.is_none();
    Ok(match (begins && is_over, is_alone, goes_on) {
        (true, true, _) => "the first",
        (true, false, true) => "both",
        _ => "others",
    })
}

/// How many data records a recording has, and where the first and the last start, in nanoseconds
/// after Q's.
fn summed<S: Alter>(store: &mut Store<S>, identity: &Identity) -> Option<(u32, i64, i64)> {
    let start = Instant::at(Q_START)?;
    let summary = store.summary(identity).ok()??;
    Some((
        summary.records,
        summary.first.since(start),
        summary.last.since(start),
    ))
}

/// What a store answers that holds nothing: its cap, how many recordings it has, and whether one of
/// them has the identity.
fn of_nothing<S: Alter>(store: &mut Store<S>, identity: &Identity) -> Option<(u32, usize, bool)> {
    let count = store.identities().ok()?.len();
    let found = store.summary(identity).ok()?.is_some();
    Some((store.cap(), count, found))
}

/// What is seen as a data record is added: how many there were before, how many are there then, and
/// which of the two are near; then which of them are read, and the summary.
type Seen = (u32, u32, &'static str, &'static str, (u32, i64, i64));

type Three = (Seen, Seen, Seen);

/// Adds one of the two in a transaction that is committed or given up.
fn add<S: Alter>(
    store: &mut Store<S>,
    two: &Two,
    data_record: &Record,
    keeps: bool,
) -> Option<Seen> {
    let seen = put(store, &two.identity, data_record, keeps).ok()?;
    let near = which_of(seen.near.as_slice(), two);
    let read = read(store, two).ok()?;
    let sum = summed(store, &two.identity)?;
    Some((seen.before, seen.after, near, read, sum))
}

/// Q's data record is kept, and one that touches it is given up and then kept.
const KEPT: Three = (
    (0, 1, "the first", "the first", (1, 0, 0)),
    (1, 2, "both", "the first", (1, 0, 0)),
    (1, 2, "both", "both", (2, 0, 2 * HALF)),
);

/// What is seen as the two are put into a store, which holds nothing before; half a second after
/// the first of them it alone is near.
fn keep<S: Alter>(store: &mut Store<S>, two: &Two) -> Option<Three> {
    if of_nothing(store, &two.identity)? != (CAP, 0, false) {
        return None;
    }
    let first = add(store, two, &two.first, true)?;
    if near(store, two, 1)? != ("the first", None) {
        return None;
    }
    let given_up = add(store, two, &two.second, false)?;
    let second = add(store, two, &two.second, true)?;
    Some((first, given_up, second))
}

/// An instant, by the half seconds after the first of the two, which of them are near it, and the
/// next start, counted likewise.
const NEAR: &[(i8, &str, Option<i64>)] = &[
    (-2, "none", Some(0)),
    (-1, "the first", Some(0)),
    (0, "the first", Some(0)),
    (1, "both", Some(2)),
    (2, "the second", Some(2)),
    (3, "the second", None),
    (4, "none", None),
];

/// Which of the two are near an instant, and the next start.
fn near<S: Alter>(
    store: &mut Store<S>,
    two: &Two,
    halves: i8,
) -> Option<(&'static str, Option<i64>)> {
    let found = find(store, &two.identity, instant(halves)?, 1).ok()?;
    let which = which_of(found.near.as_slice(), two);
    let start = Instant::at(Q_START)?;
    match found.next {
        Some(next) => Some((which, Some(next.since(start) / HALF))),
        None => Some((which, None)),
    }
}

/// The first instant of the table near which other data records are, or after which another starts.
fn other_near<S: Alter>(store: &mut Store<S>, two: &Two) -> Option<i8> {
    for (halves, which, next) in NEAR.iter().copied() {
        if near(store, two, halves) != Some((which, next)) {
            return Some(halves);
        }
    }
    None
}

type Kept = (Option<Three>, Option<i8>);

fn kept_in_memory(alloc: Global) -> Option<Kept> {
    let two = two_apart(alloc, 2)?;
    let mut store = empty_store(alloc, CAP)?;
    let kept = keep(&mut store, &two);
    Some((kept, other_near(&mut store, &two)))
}

#[test]
fn two_records_that_touch_are_kept_in_memory(rt: HostRuntime) {
    assert_eq!(rt; kept_in_memory(rt.alloc()), Some((Some(KEPT), None)));
}

/// What is seen as the two are put into a store, and its connection.
fn keep_in<S: Alter + Drop>(mut store: Store<S>, two: &Two) -> (Option<Three>, Connection<S>) {
    let kept = keep(&mut store, two);
    (kept, store.into_connection())
}

/// The same of disks; `None` where they are not closed then.
fn keep_by<D: Disk + Drop>(alloc: Global, disks: Files<D>, two: &Two) -> Option<Three> {
    let (kept, conn) = keep_in(opened(alloc, disks)?, two);
    conn.close().ok()?;
    kept
}

fn near_in<S: Alter + Drop>(mut store: Store<S>, two: &Two) -> Option<i8> {
    other_near(&mut store, two)
}

fn near_by<D: Disk + Drop>(alloc: Global, disks: Files<D>, two: &Two) -> Option<Option<i8>> {
    Some(near_in(opened(alloc, disks)?, two))
}

/// What is seen as the two are put into a store over disks, which are opened again then.
fn kept_on_disk(alloc: Global) -> Option<Kept> {
    let mut log = Memory::new(alloc);
    let mut db = Memory::new(alloc);
    let two = two_apart(alloc, 2)?;
    let kept = keep_by(alloc, lend(&mut log, &mut db), &two);
    Some((kept, near_by(alloc, lend(&mut log, &mut db), &two)?))
}

#[test]
fn two_records_that_touch_are_there_when_a_disk_is_opened_again(rt: HostRuntime) {
    assert_eq!(rt; kept_on_disk(rt.alloc()), Some((Some(KEPT), None)));
}

/// Whether a recording has room for as many more data records.
fn has_capacity<S: Alter>(store: &mut Store<S>, two: &Two, more: u32) -> Option<bool> {
    Some(
        find(store, &two.identity, instant(0)?, more)
            .ok()?
            .has_capacity,
    )
}

/// Whether a recording of five data records at most has room for as many as the cap leaves, and for
/// one more: without a data record, with one and with two; and for the most that can be asked for.
const ROOMS: [bool; 7] = [true, false, true, false, true, false, false];

fn rooms(alloc: Global, halves: i8) -> Option<[bool; 7]> {
    let two = two_apart(alloc, halves)?;
    let mut store = empty_store(alloc, 5)?;
    let none = (
        has_capacity(&mut store, &two, 5)?,
        has_capacity(&mut store, &two, 6)?,
    );
    put(&mut store, &two.identity, &two.first, true).ok()?;
    let one = (
        has_capacity(&mut store, &two, 4)?,
        has_capacity(&mut store, &two, 5)?,
    );
    put(&mut store, &two.identity, &two.second, true).ok()?;
    let both = (
        has_capacity(&mut store, &two, 3)?,
        has_capacity(&mut store, &two, 4)?,
    );
    let most = has_capacity(&mut store, &two, u32::MAX)?;
    Some([none.0, none.1, one.0, one.1, both.0, both.1, most])
}

#[test]
fn there_is_room_up_to_the_cap_with_a_long_gap_and_without(rt: HostRuntime) {
    for halves in [2i8, 120] {
        assert_eq!(rt;
            rooms(rt.alloc(), halves),
            Some(ROOMS),
            "{halves} halves of a second"
        );
    }
}

/// Where a recording's first data record starts, by a walk that is then left.
fn first_start(
    store: &mut Store<MemStore>,
    identity: &Identity,
) -> Result<Option<Instant>, StoreFault> {
    let mut some = store.records(identity)?;
    match some.next()? {
        Some(data_record) => Ok(Some(data_record.start())),
        None => Ok(None),
    }
}

/// Which of Q's data record and that of P5, 15 seconds later, are read from a store of both; after
/// a walk that is left at the first of them the summary, and what Q is answered.
fn walked(alloc: Global) -> Option<(&'static str, (u32, i64, i64), Answer)> {
    let q = file_q(alloc).ok()?;
    let (identity, first) = first_of(alloc, &q)?;
    let (_, second) = first_of(alloc, &file_p5(alloc).ok()?)?;
    let two = Two {
        identity,
        first,
        second,
    };
    let mut store = store_of_both(alloc)?;
    let read = read(&mut store, &two).ok()?;
    if first_start(&mut store, &two.identity).ok()? != Some(two.first.start()) {
        return None;
    }
    let sum = summed(&mut store, &two.identity)?;
    Some((read, sum, taken(alloc, &mut store, &q)))
}

#[test]
fn records_are_read_by_their_starts_and_a_walk_that_is_left_changes_nothing(rt: HostRuntime) {
    assert_eq!(rt;
        walked(rt.alloc()),
        Some(("both", (2, 0, 30 * HALF), Ok((0, 1))))
    );
}
