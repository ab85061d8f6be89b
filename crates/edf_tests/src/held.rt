//! Stores, what they answer and what they hold.

use edf_disk_sample::q_and_p5;
use edf_export::export;
use edf_fragment::{Counted, Input};
use edf_header::{Identity, MOST_RECORDS};
use edf_intake::{Refusal, submit};
use edf_sample::named::{file_p5, file_q};
use edf_sample::{Sink, Source};
use edf_store::Store;
use sqlite::{Alter, Connection, FileStore, Files, MemStore, Options};
use sqlite_disk::Disk;
use std::alloc::Global;

/// The program's cap.
pub(crate) const CAP: u32 = MOST_RECORDS;

/// 2002-03-02 23:59:50, where file Q starts, in nanoseconds from 1985-01-01 00:00:00.
pub(crate) const Q_START: u64 = 541_727_990_000_000_000;

/// How many data records of a file were added and were there; or why it was refused.
pub(crate) type Answer = Result<(u32, u32), Refusal>;

/// The store of a connection that is in no transaction.
pub(crate) fn store_of<S: Alter + Drop>(
    alloc: Global,
    conn: Connection<S>,
    cap: u32,
) -> Option<Store<S>> {
    if cap == 0 || cap > CAP || !conn.is_autocommit() {
        return None;
    }
    Store::open(alloc, conn, cap).ok()
}

/// An empty store.
pub(crate) fn empty_store(alloc: Global, cap: u32) -> Option<Store<MemStore>> {
    store_of(alloc, Connection::open_in_memory(alloc).ok()?, cap)
}

/// A store over disks, where they can be opened.
pub(crate) fn opened<D: Disk + Drop>(
    alloc: Global,
    files: Files<D>,
) -> Option<Store<FileStore<D>>> {
    if !files.may_be_used() {
        return None;
    }
    let conn = Connection::open_files(alloc, files, Options::new(1)).ok()?;
    store_of(alloc, conn, CAP)
}

/// What a reader's file is answered.
pub(crate) fn submitted<S: Alter, R: Input>(
    alloc: Global,
    store: &mut Store<S>,
    input: &mut R,
) -> Answer {
    match submit(alloc, store, input) {
        Ok(receipt) => Ok((receipt.new, receipt.known)),
        Err(refusal) => Err(refusal),
    }
}

/// What a file is answered that a reader gives whole.
pub(crate) fn taken<S: Alter>(alloc: Global, store: &mut Store<S>, bytes: &[u8]) -> Answer {
    let mut input = Counted::new(Source::whole(bytes, 300));
    submitted(alloc, store, &mut input)
}

/// A store of Q.
pub(crate) fn store_of_q(alloc: Global) -> Option<Store<MemStore>> {
    let bytes = file_q(alloc).ok()?;
    let mut store = empty_store(alloc, CAP)?;
    taken(alloc, &mut store, &bytes).ok()?;
    Some(store)
}

/// A store of P5 and Q, in this order.
pub(crate) fn store_of_both(alloc: Global) -> Option<Store<MemStore>> {
    let (p5, q) = (file_p5(alloc).ok()?, file_q(alloc).ok()?);
    let mut store = empty_store(alloc, CAP)?;
    taken(alloc, &mut store, &p5).ok()?;
    taken(alloc, &mut store, &q).ok()?;
    Some(store)
}

/// The canonical file of an identity.
pub(crate) fn exported<S: Alter>(
    alloc: Global,
    store: &mut Store<S>,
    identity: &Identity,
) -> Option<Vec<u8>> {
    let mut bytes = Vec::new(alloc);
    let mut out = Counted::new(Sink::whole(&mut bytes, 1_000));
    let answer = export(alloc, store, identity, &mut out);
    drop(out);
    answer.ok()?;
    Some(bytes)
}

/// What a store holds that has one recording at most: how many data records, and their canonical
/// file.
pub(crate) fn held<S: Alter>(alloc: Global, store: &mut Store<S>) -> Option<(u32, Vec<u8>)> {
    let all = store.identities().ok()?;
    match all.as_slice() {
        [] => Some((0, Vec::new(alloc))),
        [identity] => {
            let summary = store.summary(identity).ok()??;
            Some((summary.records, exported(alloc, store, identity)?))
        }
        _ => None,
    }
}

/// Whether a store holds `records` data records, and this is their canonical file.
pub(crate) fn holds(
    alloc: Global,
    store: &mut Store<MemStore>,
    records: u32,
    expected: &[u8],
) -> bool {
    match held(alloc, store) {
        Some((count, bytes)) => count == records && bytes.as_slice() == expected,
        None => false,
    }
}

/// Whether a store holds Q and nothing else. Q is its own canonical file.
pub(crate) fn holds_q(alloc: Global, store: &mut Store<MemStore>) -> bool {
    match file_q(alloc) {
        Ok(bytes) => holds(alloc, store, 1, &bytes),
        Err(_) => false,
    }
}

/// Whether a store holds P5 and Q and nothing else.
pub(crate) fn holds_both(alloc: Global, store: &mut Store<MemStore>) -> bool {
    match q_and_p5(alloc) {
        Some(bytes) => holds(alloc, store, 2, &bytes),
        None => false,
    }
}

/// What a store of Q answers to these bytes, and whether it then still holds Q alone.
pub(crate) fn answer_beside_q(alloc: Global, bytes: &[u8]) -> Option<(Answer, bool)> {
    let mut store = store_of_q(alloc)?;
    let answer = taken(alloc, &mut store, bytes);
    Some((answer, holds_q(alloc, &mut store)))
}
