use crate::extent::{COLUMNS, Extent};
use crate::sheet::{Drawn, Sheet};
use crate::times::{DAY, SECOND, instant_part};
use std::alloc::{AllocError, Global};

/// The steps that labels may have, in seconds. A night has one each hour.
const STEPS: [u64; 17] = [
    1, 2, 5, 10, 30, 60, 120, 300, 600, 1800, 3600, 7200, 10800, 21600, 43200, 86400, 172800,
];

/// Labels at each multiple of a step, each with a part of how its instant is written.
#[derive(Clone, Copy)]
struct Labels {
    step: u64,
    part: (usize, usize),
    /// How many a narrow sheet has.
    few: usize,
}

/// The least step from this one on with at most so many labels.
fn step_for(axis: Extent, least: u64, most: u64) -> u64 {
    let each = axis.length() / most.max(1);
    for seconds in &STEPS {
        let step = seconds.saturating_mul(SECOND);
        if least <= step && each < step {
            return step;
        }
    }
    (each / DAY).saturating_add(1).saturating_mul(DAY)
}

fn dates_of(axis: Extent) -> Labels {
    let step = step_for(axis, DAY, 9);
    let (part, few) = ((0, 10), 3);
    Labels { step, part, few }
}

fn times_of(axis: Extent) -> Labels {
    let hour = 3_600 * SECOND;
    let is_long = axis.length() > 6 * hour;
    let (least, most) = if is_long { (hour, 16) } else { (SECOND, 12) };
    let step = step_for(axis, least, most);
    let (part, few) = ((11, if step < 60 * SECOND { 19 } else { 16 }), 7);
    if step < DAY {
        Labels { step, part, few }
    } else {
        dates_of(axis)
    }
}

impl Labels {
    fn list_instants(self, alloc: Global, axis: Extent) -> Result<Vec<u64>, AllocError> {
        let mut instants = Vec::new(alloc);
        let step = self.step.max(1);
        let mut at = (axis.from.saturating_add(step - 1) / step).saturating_mul(step);
        for _ in 0..20u64 {
            if at <= axis.to {
                instants.push(at)?;
            }
            at = at.saturating_add(step);
        }
        Ok(instants)
    }

    /// Writes them so many pixels below. A narrow sheet shows some of them.
    fn write(self, sheet: &mut Sheet, below: u64) -> Drawn {
        let instants = self.list_instants(sheet.alloc, sheet.axis)?;
        let every = instants.len().checked_div(self.few).unwrap_or(0);
        for (place, at) in instants.iter().enumerate() {
            let text = instant_part(sheet.alloc, *at, self.part)?;
            let x = sheet.axis.place_of(*at);
            let is_last = x.saturating_add((text.len() as u64).saturating_mul(10)) > COLUMNS + 50;
            let is_few = place.checked_rem(every.saturating_add(1)) == Some(0);
            let class = if is_last { "e" } else { "m" };
            let x = if is_last { COLUMNS } else { x };
            let class = format!(in sheet.alloc; "{class}{}", if is_few { "" } else { " n" })?;
            sheet.over(class.as_str(), x, below, text.as_str())?;
        }
        Ok(())
    }
}

/// Writes the dates where they change, that of the first instant where none changes near it, and
/// below them the times of day.
pub(crate) fn write_scale(sheet: &mut Sheet) -> Drawn {
    let axis = sheet.axis;
    if times_of(axis).step < DAY {
        let midnight = (axis.from.saturating_add(DAY - 1) / DAY).saturating_mul(DAY);
        if axis.place_of(midnight) > 320 {
            let date = instant_part(sheet.alloc, axis.from, (0, 10))?;
            sheet.over("", 0, 12, date.as_str())?;
        }
        dates_of(axis).write(sheet, 12)?;
        sheet.skip(16);
    }
    write_times(sheet)
}

pub(crate) fn write_times(sheet: &mut Sheet) -> Drawn {
    times_of(sheet.axis).write(sheet, 12)?;
    sheet.skip(18);
    Ok(())
}

/// Draws a line at each of them, so many pixels down.
pub(crate) fn draw_lines(sheet: &mut Sheet, high: u64) -> Drawn {
    for at in &times_of(sheet.axis).list_instants(sheet.alloc, sheet.axis)? {
        sheet.bar('l', (sheet.axis.place_of(*at), 1), 0, high)?;
    }
    Ok(())
}
