//! Memory that runs out, under one budget after another until one suffices.

use crate::held::{
    Answer, CAP, empty_store, held, holds, holds_both, store_of_both, submitted, taken,
};
use crate::large::{large_file, store_of_large};
use crate::lines::{Room, Said, Shelf, TAKE, command, ran, silence};
use crate::printed::{BOTH_NEW, NEW, NO_MEMORY, lines};
use edf_command::Status;
use edf_disk_sample::q_and_p5;
use edf_export::{ExportFault, export};
use edf_fragment::Counted;
use edf_intake::{Receipt, Refusal, submit_all};
use edf_sample::named::{file_n1, file_n2, file_p5, file_q};
use edf_sample::{Scarce, Sink, Source};
use edf_store::Store;
use sqlite::MemStore;
use std::alloc::Global;

/// What is tried under each budget.
#[derive(Clone, Copy)]
enum Trial {
    /// P5 and then Q, to an empty store.
    Submissions,
    /// The export of a file that is longer than its buffer.
    Export,
    /// The export of P5 and Q.
    SmallExport,
    /// N1 and N2 in one list.
    List,
    /// The command to take P5 and Q.
    Command,
}

/// How a budget served.
#[derive(Clone, Copy)]
enum Served {
    /// Nothing was begun: no file was submitted, or no byte went out.
    Unbegun,
    /// Memory ran out, and there was none for a line that says so.
    Silent,
    /// Memory ran out after some of the work: an export had written a front of its file, which was
    /// neither empty nor whole.
    Short,
    /// Memory ran out after an export had written its whole file.
    Late,
    /// It sufficed.
    Whole,
}

/// What a submission that was answered so is answered again, where there is memory.
fn again(answer: Answer) -> Answer {
    match answer {
        Ok(_) => Ok((0, 1)),
        Err(_) => Ok((1, 0)),
    }
}

/// How the budget served under which two submissions were answered so; `None` where an answer is
/// neither one new data record nor want of memory.
fn serves(first: Answer, second: Answer) -> Option<Served> {
    let short = Err(Refusal::Memory);
    if first == Ok((1, 0)) && second == Ok((1, 0)) {
        return Some(Served::Whole);
    }
    let fits = (first == Ok((1, 0)) || first == short) && (second == Ok((1, 0)) || second == short);
    if fits { Some(Served::Short) } else { None }
}

/// What a file is answered under a budget; `None` where it was refused and the store then holds
/// something else than before.
fn taken_under(
    alloc: Global,
    store: &mut Store<MemStore>,
    bytes: &[u8],
    scarce: &mut Scarce,
    budget: usize,
) -> Option<Answer> {
    let before = held(alloc, store)?;
    if !scarce.leave(alloc, budget) {
        return None;
    }
    let answer = taken(alloc, store, bytes);
    scarce.ease();
    if answer.is_err() && held(alloc, store)? != before {
        return None;
    }
    Some(answer)
}

/// Submits P5 and then Q, each under a budget. The store then holds what was accepted and nothing
/// else, and accepts both again where there is memory.
fn submit_under(alloc: Global, scarce: &mut Scarce, budget: usize) -> Option<Served> {
    let (p5, q) = (file_p5(alloc).ok()?, file_q(alloc).ok()?);
    let mut store = empty_store(alloc, CAP)?;
    let first = taken_under(alloc, &mut store, &p5, scarce, budget)?;
    let second = taken_under(alloc, &mut store, &q, scarce, budget)?;
    let (records, _) = held(alloc, &mut store)?;
    if records != u32::from(first.is_ok()) + u32::from(second.is_ok()) {
        return None;
    }
    if taken(alloc, &mut store, &p5) != again(first)
        || taken(alloc, &mut store, &q) != again(second)
    {
        return None;
    }
    if holds_both(alloc, &mut store) {
        serves(first, second)
    } else {
        None
    }
}

/// How a budget served under which an export wrote `len` of its file's `whole` bytes and was then
/// refused for want of memory.
fn served_front(len: usize, whole: usize) -> Served {
    if len == 0 {
        Served::Unbegun
    } else if len < whole {
        Served::Short
    } else {
        Served::Late
    }
}

/// How the budget served under which the export of a file was answered so and wrote `got`.
fn served_export(answer: Result<u64, ExportFault>, got: &[u8], expected: &[u8]) -> Option<Served> {
    match answer {
        Ok(length) if length == expected.len() as u64 && got == expected => Some(Served::Whole),
        Err(fault) if fault.number() == 41 && expected.starts_with(got) => {
            Some(served_front(got.len(), expected.len()))
        }
        _ => None,
    }
}

/// Exports the data records of a store under a budget: none of their file, a front of it, or all.
fn export_under(
    alloc: Global,
    (records, expected): (u32, &[u8]),
    mut store: Store<MemStore>,
    scarce: &mut Scarce,
    budget: usize,
) -> Option<Served> {
    let identity = store.identities().ok()?.pop()?;
    let mut got = Vec::with_capacity(alloc, 600_000).ok()?;
    if !scarce.leave(alloc, budget) {
        return None;
    }
    let mut out = Counted::new(Sink::whole(&mut got, 10_000));
    let answer = export(alloc, &mut store, &identity, &mut out);
    drop(out);
    scarce.ease();
    if holds(alloc, &mut store, records, expected) {
        served_export(answer, &got, expected)
    } else {
        None
    }
}

/// How many files were accepted with one new data record; `None` where another was answered
/// anything but want of memory.
fn accepted(answers: &[Result<Receipt, Refusal>]) -> Option<u32> {
    let mut count = 0u32;
    for answer in answers {
        match answer {
            Ok(receipt) if receipt.new == 1 && receipt.known == 0 => {
                count = count.saturating_add(1);
            }
            Err(Refusal::Memory) => {}
            _ => return None,
        }
    }
    Some(count)
}

/// Whether each input is accepted, with one new data record. So none of them was read before.
fn accepts_all(
    alloc: Global,
    store: &mut Store<MemStore>,
    inputs: &mut [Counted<Source<'_>>],
) -> bool {
    for input in inputs.iter_mut() {
        if submitted(alloc, store, input) != Ok((1, 0)) {
            return false;
        }
    }
    true
}

/// Submits N1 and N2 in one list under a budget. A list that is not begun is accepted after that,
/// from the same readers.
fn list_under(alloc: Global, scarce: &mut Scarce, budget: usize) -> Option<Served> {
    let (n1, n2) = (file_n1(alloc).ok()?, file_n2(alloc).ok()?);
    let mut store = empty_store(alloc, CAP)?;
    let mut inputs = [
        Counted::new(Source::whole(&n1, 300)),
        Counted::new(Source::whole(&n2, 300)),
    ];
    if !scarce.leave(alloc, budget) {
        return None;
    }
    let answered = match submit_all(alloc, &mut store, &mut inputs) {
        Ok(answers) => Some((answers.len(), accepted(&answers)?)),
        Err(_) => None,
    };
    scarce.ease();
    let (records, _) = held(alloc, &mut store)?;
    match answered {
        None if records == 0 && accepts_all(alloc, &mut store, &mut inputs) => {
            Some(Served::Unbegun)
        }
        Some((2, 2)) if records == 2 => Some(Served::Whole),
        Some((2, count)) if count < 2 && records == count => Some(Served::Short),
        _ => None,
    }
}

/// The lines of two files, and how few and how many data records may be held then.
const SHORTAGES: &[(&[(&str, &str)], u32, u32)] = &[
    (&[("p5.edf", NEW)], 1, 2),
    (&[("p5.edf", NO_MEMORY)], 0, 1),
    (&[("p5.edf", NEW), ("q.edf", NO_MEMORY)], 1, 1),
    (&[("p5.edf", NO_MEMORY), ("q.edf", NEW)], 1, 1),
    (&[("p5.edf", NO_MEMORY), ("q.edf", NO_MEMORY)], 0, 0),
];

/// Whether a command to take P5 and Q may write this where memory runs out, and leave `records`
/// data records. The files after a line that is not written were submitted all the same.
fn names_shortage(alloc: Global, out: &[u8], records: u32) -> Option<bool> {
    for (answers, least, most) in SHORTAGES.iter().copied() {
        if out == lines(alloc, answers).ok()?.as_bytes() {
            return Some(least <= records && records <= most);
        }
    }
    Some(false)
}

/// How the budget served under which a command to take P5 and Q ended so, wrote so and left
/// `records` data records.
fn served_take(alloc: Global, status: Status, said: &Said, records: u32) -> Option<Served> {
    if !said.err.is_empty() {
        let line = lines(alloc, &[("take", NO_MEMORY)]).ok()?;
        let is_unbegun = said.err.as_slice() == line.as_bytes()
            && said.out.is_empty()
            && records == 0
            && status == Status::Trouble;
        return if is_unbegun {
            Some(Served::Unbegun)
        } else {
            None
        };
    }
    let out = said.out.as_slice();
    let is_short = names_shortage(alloc, out, records)?;
    match status {
        Status::Done if out == BOTH_NEW && records == 2 => Some(Served::Whole),
        Status::Trouble if out.is_empty() => Some(Served::Silent),
        Status::Trouble if is_short => Some(Served::Short),
        _ => None,
    }
}

/// Takes P5 and Q by a command under a budget.
fn take_under(alloc: Global, scarce: &mut Scarce, budget: usize) -> Option<Served> {
    let (p5, q) = (file_p5(alloc).ok()?, file_q(alloc).ok()?);
    let mut shelf = Shelf::new(alloc, &p5, &q);
    let command = command(alloc, TAKE)?;
    let mut store = empty_store(alloc, CAP)?;
    let mut said = silence(alloc)?;
    if !scarce.leave(alloc, budget) {
        return None;
    }
    let room = Room {
        out: 1_000,
        err: 1_000,
        full: false,
    };
    let status = ran(alloc, &command, &mut store, &mut shelf, &mut said, room);
    scarce.ease();
    let (records, _) = held(alloc, &mut store)?;
    served_take(alloc, status, &said, records)
}

/// Tries a trial once.
fn tried(alloc: Global, trial: Trial, scarce: &mut Scarce, budget: usize) -> Option<Served> {
    match trial {
        Trial::Submissions => submit_under(alloc, scarce, budget),
        Trial::Export => {
            let file = large_file(alloc)?;
            export_under(alloc, (3, &file), store_of_large(alloc)?, scarce, budget)
        }
        Trial::SmallExport => {
            let file = q_and_p5(alloc)?;
            export_under(alloc, (2, &file), store_of_both(alloc)?, scarce, budget)
        }
        Trial::List => list_under(alloc, scarce, budget),
        Trial::Command => take_under(alloc, scarce, budget),
    }
}

/// The bytes of the block that is left free in a turn: none, and then 1,100, 16 more and so on, or
/// 4,096 more for the large file.
fn budget(trial: Trial, turn: usize) -> usize {
    let step = match trial {
        Trial::Export => 4_096,
        _ => 16,
    };
    if turn == 0 {
        0
    } else {
        turn.saturating_mul(step).saturating_add(1_084)
    }
}

/// Under how many budgets a trial ended in each way but the last, by the order of [`Served`].
type Counts = [u32; 4];

/// Tries a trial under one budget after another until one suffices; `None` where an answer is
/// another than those of a [`Served`], or no budget suffices.
fn tried_until_whole(alloc: Global, trial: Trial) -> Option<Counts> {
    // The stack grows now, while there are pages for it.
    let mut ample = store_of_both(alloc)?;
    if !holds_both(alloc, &mut ample) {
        return None;
    }
    let mut scarce = Scarce::new(alloc).ok()?;
    let mut counts = [0u32; 4];
    for turn in 0..32_000usize {
        let served = tried(alloc, trial, &mut scarce, budget(trial, turn))?;
        let Some(count) = counts.get_mut(served as usize) else {
            return Some(counts);
        };
        *count = count.saturating_add(1);
    }
    None
}

/// Whether each count is in its range.
fn are_in(counts: Option<Counts>, ranges: &[(u32, u32); 4]) -> bool {
    let Some(counts) = counts else {
        return false;
    };
    for (count, (least, most)) in counts.iter().copied().zip(ranges.iter().copied()) {
        if count < least || count > most {
            return false;
        }
    }
    true
}

const NEVER: (u32, u32) = (0, 0);

const ONCE_OR_MORE: (u32, u32) = (1, u32::MAX);

#[test]
fn submissions_without_memory_leave_what_is_held_and_are_accepted_again(rt: HostRuntime) {
    let counts = tried_until_whole(rt.alloc(), Trial::Submissions);
    let ranges = [NEVER, NEVER, (100, u32::MAX), NEVER];
    assert!(rt; are_in(counts, &ranges), "{counts:?}");
}

/// A walk reads each of the three data records when the one before it was written, so memory runs
/// out before a byte is written, or after a front of the file.
#[test]
fn an_export_without_memory_is_not_begun_or_writes_a_front_of_its_file(rt: HostRuntime) {
    let counts = tried_until_whole(rt.alloc(), Trial::Export);
    let ranges = [ONCE_OR_MORE, NEVER, ONCE_OR_MORE, (0, u32::MAX)];
    assert!(rt; are_in(counts, &ranges), "{counts:?}");
}

/// The file fits the buffer, so nothing of it is written before the data records are read.
#[test]
fn an_export_of_two_small_records_without_memory_is_not_begun(rt: HostRuntime) {
    let counts = tried_until_whole(rt.alloc(), Trial::SmallExport);
    let ranges = [ONCE_OR_MORE, NEVER, NEVER, NEVER];
    assert!(rt; are_in(counts, &ranges), "{counts:?}");
}

#[test]
fn a_list_without_memory_for_its_answers_is_not_begun(rt: HostRuntime) {
    let counts = tried_until_whole(rt.alloc(), Trial::List);
    let ranges = [ONCE_OR_MORE, NEVER, (100, u32::MAX), NEVER];
    assert!(rt; are_in(counts, &ranges), "{counts:?}");
}

#[test]
fn a_take_without_memory_names_what_became_of_each_file(rt: HostRuntime) {
    let counts = tried_until_whole(rt.alloc(), Trial::Command);
    let ranges = [ONCE_OR_MORE, (0, 1_000), (1_000, u32::MAX), NEVER];
    assert!(rt; are_in(counts, &ranges), "{counts:?}");
}
