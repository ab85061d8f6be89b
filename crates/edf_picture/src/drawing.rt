ghost use Rattle.std.specs.Prelude.{IfOk, string_bytes};
ghost use Rattle.edf_picture.specs.Picture.{IsPicture, named_by};

use crate::axis::{draw_lines, write_scale, write_times};
use crate::bands::Bands;
use crate::curve::draw_signals;
use crate::extent::{Extent, Night};
use crate::gaps::{Strip, gaps_between, list_gaps, write_lengths};
use crate::heading::{Title, head, time_line};
use crate::lanes::draw_lanes;
use crate::sheet::{Drawn, Sheet};
use crate::stages::draw_stages;
use crate::times::length_text;
use std::alloc::{AllocError, Global};

const TOP: u64 = 71;

/// What the legend says of stages, of signals, and of a value below an axis.
const LEGEND: [&str; 5] = [
    "Stages: broad is R. A stage is as long as its annotation says;",
    "without a duration it lasts until the next stage; the last",
    "one, and one before a gap, lasts 30 s at most.",
    "Signals: each column has the least to the greatest value.",
    "Below an axis: the signal's lower digital limit.",
];

/// The picture of a recording, as one SVG. `bands` has taken all its data records.
///
/// # Errors
/// Where memory runs out.
pub fn draw(
    alloc: Global,
    title: &Title<'_>,
    night: &Night<'_>,
    bands: &Bands,
) -> Result<String, AllocError>
    ensures { IfOk result (λ picture.
        IsPicture (named_by title.now) night.now.runs.now (string_bytes picture)) }
{
    let gaps = gaps_between(alloc, night.runs)?;
    let summary = summary_of(alloc, night, &gaps)?;
    let mut sheet = Sheet::new(alloc, Extent::of(night.runs), TOP);
    for line in summary.as_str().split("; ") {
        sheet.line(line)?;
    }
    draw_night(&mut sheet, night, bands, &gaps)?;
    let time = time_line(alloc, night.runs)?;
    let head = head(alloc, title, sheet.y, time.as_str(), summary.as_str())?;
    let drawn = sheet.finish()?;
    let (head, drawn) = (head.as_str(), drawn.as_str());
    format!(in alloc; "{head}{drawn}</svg>\n")
}

/// `8 h 00 min 00 s, 7 h 40 min 12 s recorded; 13 gaps, the longest 20 min 00 s`.
fn summary_of(alloc: Global, night: &Night<'_>, gaps: &[Extent]) -> Result<String, AllocError> {
    let all = Extent::of(night.runs).length();
    let (mut recorded, mut longest) = (all, 0u64);
    for gap in gaps {
        recorded = recorded.saturating_sub(gap.length());
        longest = longest.max(gap.length());
    }
    let (all, recorded) = (length_text(alloc, all)?, length_text(alloc, recorded)?);
    let longest = length_text(alloc, longest)?;
    match gaps.len() {
        0 => format!(in alloc; "{all}; no gap"),
        1 => format!(in alloc; "{all}, {recorded} recorded; 1 gap, {longest} long"),
        count => {
            format!(in alloc; "{all}, {recorded} recorded; {count} gaps, the longest {longest}")
        }
    }
}

/// Draws all that is below these lines.
fn draw_night(sheet: &mut Sheet, night: &Night<'_>, bands: &Bands, gaps: &[Extent]) -> Drawn {
    if night.runs.is_empty() {
        return Ok(());
    }
    let strip = Strip::of(sheet.alloc, night.runs, sheet.axis)?;
    sheet.skip(8);
    write_scale(sheet)?;
    strip.draw(sheet)?;
    write_lengths(sheet, gaps)?;
    let top = sheet.y;
    let has_stages = draw_stages(sheet, night)?;
    let has_lanes = draw_lanes(sheet, night.notes)? > 0;
    let has_below = draw_signals(sheet, night, bands)?;
    let has_signals = !night.signals.is_empty();
    if has_stages || has_lanes || has_signals {
        let foot = sheet.y.saturating_add(4);
        sheet.y = top;
        for gap in &strip.gaps {
            sheet.bar('v', *gap, 0, foot.saturating_sub(top))?;
        }
        draw_lines(sheet, foot.saturating_sub(top))?;
        sheet.y = foot;
        write_times(sheet)?;
    }
    list_gaps(sheet, gaps)?;
    sheet.skip(8);
    sheet.key('r', 12, "recorded")?;
    if !gaps.is_empty() {
        sheet.key('g', 12, "gap")?;
    }
    if !strip.parts.is_empty() {
        sheet.key('p', 6, "recorded in part")?;
    }
    let shown = [has_stages, has_stages, has_stages, has_signals, has_below];
    for (is_shown, line) in shown.iter().zip(LEGEND.iter()) {
        if *is_shown {
            sheet.line(line)?;
        }
    }
    sheet.skip(8);
    Ok(())
}
