ghost use Rattle.std.specs.Prelude.{IfOk};
ghost use Rattle.edf_picture.specs.Gaps.{AreGaps};

use crate::extent::{COLUMNS, Extent};
use crate::sheet::{Drawn, Sheet};
use crate::times::{instant_label, length_text};
use std::alloc::{AllocError, Global};

const LISTED: usize = 12;

/// The least room between the middles of two lengths in a row, in columns.
const ROOM: u64 = 300;

/// The gaps between runs that are in order of time.
pub(crate) fn gaps_between(alloc: Global, runs: &[Extent]) -> Result<Vec<Extent>, AllocError>
    ensures { IfOk result (λ gaps. AreGaps runs.now gaps.items) }
{
    let mut gaps = Vec::new(alloc);
    for place in 1..runs.len() {
        gaps.push(Extent {
            from: runs[place - 1].to,
            to: runs[place].from,
        })?;
    }
    Ok(gaps)
}

/// Lists the gaps; of more than twelve the longest, of two as long the first, in order of time.
pub(crate) fn list_gaps(sheet: &mut Sheet, gaps: &[Extent]) -> Drawn {
    let mut longest = Vec::from_slice(sheet.alloc, gaps)?;
    longest.sort_by(|one, other| other.length().cmp(&one.length()))?;
    longest.truncate(LISTED);
    longest.sort_by_key(|gap| gap.from)?;
    let more = gaps.len().saturating_sub(LISTED);
    sheet.skip(8);
    if !gaps.is_empty() {
        let all = "The twelve longest gaps:";
        sheet.line(if more > 0 { all } else { "Gaps:" })?;
    }
    for gap in &longest {
        let from = instant_label(sheet.alloc, gap.from)?;
        let length = length_text(sheet.alloc, gap.length())?;
        let text = format!(in sheet.alloc; "{from}, {length}")?;
        sheet.line(text.as_str())?;
    }
    if more > 0 {
        let text = format!(in sheet.alloc; "and {more} more")?;
        sheet.line(text.as_str())?;
    }
    Ok(())
}

/// Writes the length of each gap of more than a hundredth of the axis once, in as many rows as that
/// needs.
pub(crate) fn write_lengths(sheet: &mut Sheet, gaps: &[Extent]) -> Drawn {
    let axis = sheet.axis;
    let mut ends: Vec<u64> = Vec::new(sheet.alloc);
    for gap in gaps.iter().filter(|gap| gap.length() > axis.length() / 100) {
        let middle = (gap.from / 2).saturating_add(gap.to / 2);
        let middle = axis.column_of(middle).min(890);
        let row = ends.iter().position(|end| *end <= middle);
        let row = row.unwrap_or(ends.len());
        match ends.get_mut(row) {
            Some(end) => *end = middle.saturating_add(ROOM),
            None => ends.push(middle.saturating_add(ROOM))?,
        }
        let text = length_text(sheet.alloc, gap.length())?;
        let below = (row as u64).saturating_mul(15).saturating_add(13);
        sheet.over("m", middle, below, text.as_str())?;
    }
    sheet.skip((ends.len() as u64).saturating_mul(15).saturating_add(4));
    Ok(())
}

const HIGH: u64 = 18;

/// What is not recorded, or not whole: stretches of columns, each as the first and how many.
#[derive(Drop)]
pub(crate) struct Strip {
    pub(crate) gaps: Vec<(u64, u64)>,
    pub(crate) parts: Vec<(u64, u64)>,
}

/// How much of each column is recorded. The whole of a column is the length of the axis.
fn list_recorded(alloc: Global, runs: &[Extent], axis: Extent) -> Result<Vec<u128>, AllocError> {
    let mut recorded = vec![in alloc; 0u128; COLUMNS as usize]?;
    let wide = u128::from(axis.length());
    for run in runs {
        let (from, to) = (axis.parts_before(run.from), axis.parts_before(run.to));
        for column in axis.column_of(run.from)..axis.last_column(run.to).saturating_add(1) {
            let start = wide.saturating_mul(u128::from(column));
            let end = start.saturating_add(wide).min(to);
            if let Some(sum) = recorded.get_mut(column as usize) {
                *sum = sum.saturating_add(end.saturating_sub(start.max(from)));
            }
        }
    }
    Ok(recorded)
}

/// Of marks for each column the stretches of neighbours, each as the first and how many.
pub(crate) fn stretches_of(alloc: Global, marked: &[bool]) -> Result<Vec<(u64, u64)>, AllocError> {
    let mut stretches: Vec<(u64, u64)> = Vec::new(alloc);
    let mut first = 0u64;
    for (place, is_marked) in marked.iter().enumerate() {
        let column = place as u64;
        let is_next = marked.get(place.saturating_add(1)) == Some(&true);
        if *is_marked && !is_next {
            stretches.push((first, column.saturating_add(1).saturating_sub(first)))?;
        }
        if !*is_marked {
            first = column.saturating_add(1);
        }
    }
    Ok(stretches)
}

impl Strip {
    pub(crate) fn of(alloc: Global, runs: &[Extent], axis: Extent) -> Result<Strip, AllocError> {
        let (mut none, mut some) = (Vec::new(alloc), Vec::new(alloc));
        for part in &list_recorded(alloc, runs, axis)? {
            none.push(*part == 0)?;
            some.push(*part > 0 && *part < u128::from(axis.length()))?;
        }
        let (gaps, parts) = (stretches_of(alloc, &none)?, stretches_of(alloc, &some)?);
        Ok(Strip { gaps, parts })
    }

    /// Draws it: all recorded, and over that the gaps, and half as high the parts.
    pub(crate) fn draw(&self, sheet: &mut Sheet) -> Drawn {
        sheet.bar('r', (0, COLUMNS), 0, HIGH)?;
        for part in &self.parts {
            sheet.bar('p', *part, 0, HIGH / 2)?;
        }
        for gap in &self.gaps {
            sheet.bar('g', *gap, 0, HIGH)?;
        }
        sheet.skip(HIGH);
        Ok(())
    }
}
