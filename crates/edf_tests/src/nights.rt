//! A night in twenty runs.

use crate::seconds::{FILES, twenty_seconds};
use crate::session::{CLOSES, End, Place, Ran, accepted, held, run, take};
use edf_disk_sample::Night;
use std::alloc::Global;

/// How the run of a number ends: its log or its database file stops after the store was opened, its
/// store is refused, since its log can't be read, its files are let go, or it is closed. Of twenty
/// runs no two have the same end and the same loss.
///
/// Runs 0, 5, 10 and 15 begin with no files, or with those of a closed run. Such a run calls the
/// log 26 to 29 times until its store is open, and 44 to 52 times if it is then closed. Of the next
/// runs, run 1 calls the database file 10 times until its store is open, and 17 times if it is then
/// closed; runs 6 and 11 do so 16 and 20 times; run 16 does so 20 and 24 times, as run 15 stops
/// after its last call of the database file.
fn end_of(number: u64) -> End {
    let turn = number / 5;
    let mut end = CLOSES;
    match number % 5 {
        0 => end.log_calls = 32 + 3 * turn,
        1 if turn == 3 => end.db_calls = 22,
        1 => end.db_calls = 16 + turn,
        2 => end.log_calls = turn,
        3 => end.closes = false,
        _ => {}
    }
    end.losing((number % 4 > 1, number % 2 == 1))
}

/// How many runs were closed, broken off, refused, and let their files go.
type Fates = [u32; 4];

/// Which of these a run was.
fn fate_of(ran: &Ran, end: End) -> usize {
    if !ran.was_opened() {
        2
    } else if !end.closes {
        3
    } else if ran.closed {
        0
    } else {
        1
    }
}

/// A run takes the file of its number, and before it those of which nobody was told that they are
/// accepted. How many are told then, where those are held, and at most one more.
fn told_after(
    alloc: Global,
    night: &Night,
    place: &mut Place,
    told: usize,
    number: usize,
    fates: &mut Fates,
) -> Option<usize> {
    let end = end_of(number as u64);
    let command = take(alloc, told, number.saturating_add(1))?;
    let ran = run(alloc, night, place, &command, end)?;
    if !ran.was_opened() && !ran.was_refused() {
        return None;
    }
    let count = fates.get_mut(fate_of(&ran, end))?;
    *count = count.saturating_add(1);
    let told = told.saturating_add(accepted(&ran));
    let held = held(alloc, night, place)?;
    if told <= held && held <= told.saturating_add(1) {
        Some(told)
    } else {
        None
    }
}

/// A night of which each file is sent in a run of its own, and then those of which nobody was told
/// that they are accepted: what became of the runs, where all is held at the end.
fn night_of_runs(alloc: Global) -> Option<Fates> {
    let night = twenty_seconds(alloc)?;
    let mut place = Place::new(alloc);
    let mut fates = [0u32; 4];
    let mut told = 0usize;
    for number in 0..FILES {
        told = told_after(alloc, &night, &mut place, told, number, &mut fates)?;
    }
    let command = take(alloc, told, FILES)?;
    let last = run(alloc, &night, &mut place, &command, CLOSES)?;
    if last.closed && held(alloc, &night, &place)? == FILES {
        Some(fates)
    } else {
        None
    }
}

#[test]
fn a_night_in_twenty_runs_exports_as_one_that_runs_once(rt: HostRuntime) {
    assert_eq!(rt; night_of_runs(rt.alloc()), Some([4, 8, 4, 4]));
}
