use crate::extent::{COLUMNS, Extent, Night};
use crate::sheet::{Drawn, Sheet};
use std::alloc::{AllocError, Global};

/// The names of stages: those that stand alone too, and then those that follow `Sleep stage `
/// alone.
const NAMES: [&str; 12] = [
    "W", "R", "N1", "N2", "N3", "1", "2", "3", "4", "N", "M", "?",
];

const ALONE: usize = 5;

/// The line of each, from the top down.
const LINES: [u64; 12] = [0, 1, 2, 3, 4, 2, 3, 4, 4, 5, 5, 5];

/// What has no line: movement, what is not scored, and what nothing is said of.
const NONE: u64 = 5;

const REM: u64 = 1;

const STEP: u64 = 15;

/// How long an annotation without a duration lasts at most, where no stage follows before a gap:
/// half a minute, as sleep is scored.
const EPOCH: u64 = 30_000_000_000;

/// The line of the stage that a text names, spelled as EDF+ and AASM do.
pub(crate) fn line_of(text: &str) -> Option<u64> {
    let (front, rest) = text.as_bytes().split_at(text.len().min(12));
    let is_after = front == b"Sleep stage ".as_slice();
    let word = if is_after { rest } else { text.as_bytes() };
    let count = if is_after { NAMES.len() } else { ALONE };
    for place in 0..count {
        if word == NAMES[place].as_bytes() {
            return Some(LINES[place]);
        }
    }
    (text == "Movement time").then_some(NONE)
}

/// The first run that ends after an instant, if there is one.
fn run_after(runs: &[Extent], at: u64) -> Option<Extent> {
    runs.get(runs.partition_point(|run| run.to <= at)).copied()
}

/// The end of a stage without a duration: the next one's onset, where no gap is before it; else
/// half a minute later at most.
fn bare_end(runs: &[Extent], onset: u64, next: u64) -> u64 {
    match run_after(runs, onset) {
        Some(run) if run.has(onset) && next <= run.to => next,
        _ => next.min(onset.saturating_add(EPOCH)),
    }
}

/// The times of the stages in the order of their onsets, each up to its end or to the next one's
/// onset, with their lines.
fn list_stages(alloc: Global, night: &Night<'_>) -> Result<Vec<(Extent, u64)>, AllocError> {
    let mut named = Vec::new(alloc);
    for note in night.notes {
        if let Some(line) = line_of(note.text.as_str()) {
            named.push((note.onset, note.duration.unwrap_or(0), line))?;
        }
    }
    named.sort_by_key(|one| one.0)?;
    let mut stages = Vec::new(alloc);
    for (place, (onset, duration, line)) in named.iter().enumerate() {
        let (from, line) = (*onset, *line);
        let later = named.get(place.saturating_add(1));
        let next = later.map_or(u64::MAX, |one| one.0);
        let to = match *duration {
            0 => bare_end(night.runs, from, next),
            _ => next.min(from.saturating_add(*duration)),
        };
        stages.push((Extent { from, to }, line))?;
    }
    Ok(stages)
}

/// The line of each column: that of the stage at the instant in its middle, if it is recorded.
fn list_lines(
    alloc: Global,
    runs: &[Extent],
    stages: &[(Extent, u64)],
    axis: Extent,
) -> Result<Vec<u64>, AllocError> {
    let mut lines = Vec::new(alloc);
    for column in 0..COLUMNS {
        let at = axis.middle_of(column);
        let over = stages.partition_point(|stage| stage.0.from <= at);
        let line = match (run_after(runs, at), stages.get(over.saturating_sub(1))) {
            (Some(run), Some((time, line))) if run.has(at) && time.has(at) => *line,
            _ => NONE,
        };
        lines.push(line)?;
    }
    Ok(lines)
}

/// Draws the stages of sleep, where annotations name one with a line, and answers whether they do.
pub(crate) fn draw_stages(sheet: &mut Sheet, night: &Night<'_>) -> Result<bool, AllocError> {
    let stages = list_stages(sheet.alloc, night)?;
    if stages.iter().all(|stage| stage.1 == NONE) {
        return Ok(false);
    }
    sheet.skip(12);
    for (place, name) in NAMES.iter().take(ALONE).enumerate() {
        let below = (place as u64).saturating_mul(STEP);
        sheet.label(below.saturating_add(6), name)?;
        sheet.bar('l', (0, COLUMNS), below.saturating_add(1), 1)?;
    }
    let lines = list_lines(sheet.alloc, night.runs, &stages, sheet.axis)?;
    draw_steps(sheet, &lines)?;
    sheet.skip(5 * STEP);
    Ok(true)
}

/// Draws a bar for each stretch of one stage, and a line from each to the next beside it; and a
/// broad bar for each stretch of R.
fn draw_steps(sheet: &mut Sheet, lines: &[u64]) -> Drawn {
    let (mut steps, mut rem) = (String::new(sheet.alloc), String::new(sheet.alloc));
    let (mut first, mut line) = (0u64, NONE);
    for column in 0..COLUMNS + 1 {
        let now = lines.get(column as usize).copied().unwrap_or(NONE);
        if line == now {
            continue;
        }
        let wide = column.saturating_sub(first);
        let y = line.saturating_mul(STEP);
        let high = line.abs_diff(now).saturating_mul(STEP);
        if line < NONE {
            write!(steps, "M{first} {y}h{wide}v3h-{wide}z")?;
        }
        if line == REM {
            write!(rem, "M{first} 13h{wide}v7h-{wide}z")?;
        }
        if line.max(now) < NONE {
            let top = line.min(now).saturating_mul(STEP);
            write!(steps, "M{column} {top}h.6v{high}h-.6z")?;
        }
        first = column;
        line = now;
    }
    sheet.plot('s', steps.as_str(), 5 * STEP, 1)?;
    sheet.plot('q', rem.as_str(), 5 * STEP, 1)
}
