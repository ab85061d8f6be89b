//! A run that stops at each of its calls in turn: of the log, and then of the database file.

use crate::session::{CLOSES, End, LOSSES, Place, Ran, accepted, held, run, take};
use edf_disk_sample::{Night, three_files};
use std::alloc::Global;
use std::process::Abort;

/// What became of a run that was to stop.
#[derive(Clone, Copy)]
enum Fate {
    /// It stopped nowhere.
    Ended,
    /// Its store was refused.
    Refused,
    /// It stopped after its store was opened, and had told so many of the files as accepted.
    Broken(usize),
}

/// What became of a run, where it said so.
fn fate_of(ran: &Ran, told: usize) -> Option<Fate> {
    if ran.was_refused() {
        Some(Fate::Refused)
    } else if !ran.was_opened() {
        None
    } else if ran.closed && told == 3 {
        Some(Fate::Ended)
    } else if ran.closed || ran.was_left() {
        Some(Fate::Broken(told))
    } else {
        None
    }
}

/// Runs of which the first takes the files before `first` and ends, where there are any; the next
/// is to take the others of P5, Q and K and to stop, and the last takes all. What became of the one
/// between, where the files then hold those that were accepted, and at most one more, and at the
/// end all.
fn night_that_stops(alloc: Global, night: &Night, first: usize, end: End) -> Option<Fate> {
    let mut place = Place::new(alloc);
    if first > 0 {
        let before = run(alloc, night, &mut place, &take(alloc, 0, first)?, CLOSES)?;
        if !before.closed {
            return None;
        }
    }
    let stopped = run(alloc, night, &mut place, &take(alloc, first, 3)?, end)?;
    let told = accepted(&stopped).saturating_add(first);
    let front = held(alloc, night, &place)?;
    let last = run(alloc, night, &mut place, &take(alloc, 0, 3)?, CLOSES)?;
    let all = held(alloc, night, &place)?;
    let is_front = told <= front && front <= told.saturating_add(1);
    if is_front && last.closed && accepted(&last) == 3 && all == 3 {
        fate_of(&stopped, told)
    } else {
        None
    }
}

/// How a run ends that stops after so many calls of the log, or of the database file.
fn end_after(is_log: bool, calls: u64, frames: usize, loses: (bool, bool)) -> End {
    let mut end = CLOSES.losing(loses);
    end.frames = frames;
    if is_log {
        end.log_calls = calls;
    } else {
        end.db_calls = calls;
    }
    end
}

/// How many runs were broken off with none, one, two and three of the files accepted, and how many
/// were refused.
type Stops = [u32; 5];

/// What became of runs up to the first that met no stop; `None` where each run met one.
fn stopped(
    rt: &impl Abort,
    alloc: Global,
    first: usize,
    is_log: bool,
    frames: usize,
    loses: (bool, bool),
) -> Option<Stops> {
    let night = three_files(alloc)?;
    let mut stops = [0u32; 5];
    for calls in 0..1000u64 {
        let end = end_after(is_log, calls, frames, loses);
        let fate = night_that_stops(alloc, &night, first, end);
        assert!(rt; fate.is_some(), "{end:?}");
        let index = match fate? {
            Fate::Ended => return Some(stops),
            Fate::Refused => 4,
            Fate::Broken(told) => told,
        };
        let count = stops.get_mut(index)?;
        *count = count.saturating_add(1);
    }
    None
}

/// Whether runs were refused, and broken off with each of these numbers of files accepted.
fn is_met(stops: Option<Stops>, met: &[usize]) -> bool {
    let Some(stops) = stops else {
        return false;
    };
    for told in met.iter().copied() {
        if stops.get(told).copied().unwrap_or(0) == 0 {
            return false;
        }
    }
    stops[4] > 0
}

/// With how many of the files accepted a run of one kind must have stopped at its log, and at its
/// database file.
type Met = (&'static [usize], &'static [usize]);

/// Tries all stops of runs that take the files from `first` on, with each loss.
fn try_stops(rt: &impl Abort, alloc: Global, first: usize, frames: usize, met: Met) {
    for (is_log, met) in [(true, met.0), (false, met.1)] {
        for loses in LOSSES.iter().copied() {
            let stops = stopped(rt, alloc, first, is_log, frames, loses);
            assert!(rt; is_met(stops, met), "{is_log} {loses:?}: {stops:?}");
        }
    }
}

#[test]
fn what_was_accepted_is_held_wherever_the_log_or_the_database_file_stops(rt: HostRuntime) {
    try_stops(&rt, rt.alloc(), 0, 1000, (&[0, 1, 2, 3], &[3]));
}

#[test]
fn what_was_accepted_is_held_wherever_a_log_that_is_copied_soon_stops(rt: HostRuntime) {
    try_stops(&rt, rt.alloc(), 0, 2, (&[0, 1, 2, 3], &[0, 1, 2, 3]));
}

#[test]
fn a_night_whose_second_run_stops_ends_as_one_that_runs_once(rt: HostRuntime) {
    try_stops(&rt, rt.alloc(), 1, 1000, (&[1, 2, 3], &[3]));
}
