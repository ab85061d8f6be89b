use crate::bands::{Band, Bands, DRAWN, Range};
use crate::escape::escaped;
use crate::extent::{COLUMNS, Night, Signal};
use crate::sheet::{Drawn, Sheet};
use std::alloc::{AllocError, Global};

/// The height of a band in pixels, and of each how many units its shape has.
const HIGH: u64 = 48;

const UNITS: u64 = 10;

const BELOW: u64 = 6;

/// Which heights levels have: from that at the top to that at the foot.
///
/// Where the lower digital limit is farther below all others than these are apart, as that of a
/// lost probe is, the axis is of the others, and the limit is below it. Where the physical limits
/// are turned round, so is the axis, and nothing is below it.
#[derive(Clone, Copy)]
struct Scale {
    top: u16,
    foot: u16,
    below: Option<u16>,
}

impl Scale {
    /// That of a band; none where it has no sample.
    fn of(columns: &[Option<Range>], physical: Physical) -> Option<Scale> {
        let (lowest, is_turned) = (physical.lowest(), physical.maximum < physical.minimum);
        let (mut least, mut over, mut greatest) = (u16::MAX, u16::MAX, 0u16);
        for range in columns {
            let Some(range) = range else {
                continue;
            };
            least = least.min(range.least);
            greatest = greatest.max(range.greatest);
            for level in [range.least, range.greatest] {
                over = over.min(if level > lowest { level } else { u16::MAX });
            }
        }
        let is_far = over.saturating_sub(lowest) > greatest.saturating_sub(over);
        let has_below = !is_turned && least == lowest && over < greatest && is_far;
        let below = if has_below { Some(lowest) } else { None };
        let least = if has_below { over } else { least };
        let (top, foot) = match is_turned {
            true => (least, greatest),
            false => (greatest, least),
        };
        (least <= greatest).then_some(Scale { top, foot, below })
    }

    fn height(self) -> u64 {
        self.below.map_or(HIGH, |_| HIGH - BELOW)
    }

    /// Where a level is, in units below the top.
    fn place_of(self, level: u16) -> u64 {
        if self.below.is_some_and(|below| level <= below) {
            return HIGH * UNITS;
        }
        let part = u64::from(self.top.abs_diff(level));
        let range = u64::from(self.top.abs_diff(self.foot));
        let high = self.height().saturating_mul(UNITS);
        part.saturating_mul(high)
            .checked_div(range)
            .unwrap_or(high / 2)
    }
}

/// Draws the first sixteen, says how many are not drawn, and whether one has a value below its
/// axis.
pub(crate) fn draw_signals(
    sheet: &mut Sheet,
    night: &Night<'_>,
    bands: &Bands,
) -> Result<bool, AllocError> {
    let mut has_below = false;
    for (signal, band) in night.signals.iter().zip(bands.bands.iter()) {
        has_below = draw_signal(sheet, signal, band)? || has_below;
    }
    let more = night.signals.len().saturating_sub(DRAWN);
    if more > 0 {
        let text = format!(in sheet.alloc; "Signals not drawn: {more}")?;
        sheet.skip(6);
        sheet.line(text.as_str())?;
    }
    Ok(has_below)
}

/// Draws a signal, and answers whether it has a value below its axis.
fn draw_signal(sheet: &mut Sheet, signal: &Signal<'_>, band: &Band) -> Result<bool, AllocError> {
    let label = escaped(sheet.alloc, signal.label, 16)?;
    let dimension = escaped(sheet.alloc, signal.dimension, 8)?;
    let title = format!(in sheet.alloc; "{label} {dimension}")?;
    sheet.skip(8);
    sheet.line(title.as_str())?;
    let physical = Physical::of(signal);
    let Some(scale) = Scale::of(&band.columns, physical) else {
        return Ok(false);
    };
    write_limits(sheet, scale, physical)?;
    let mut path = String::new(sheet.alloc);
    for (column, range) in band.columns.iter().enumerate() {
        if let Some(range) = range {
            let (one, other) = (scale.place_of(range.greatest), scale.place_of(range.least));
            let top = one.min(other);
            // Of a line of no length a printer draws nothing.
            let foot = one.max(other).max(top.saturating_add(1));
            write!(path, "M{column}.5 {top}V{foot}")?;
        }
    }
    sheet.plot('a', path.as_str(), HIGH, UNITS)?;
    sheet.skip(HIGH);
    Ok(scale.below.is_some())
}

/// Writes the values at the ends of the axis, and the one below it.
fn write_limits(sheet: &mut Sheet, scale: Scale, physical: Physical) -> Drawn {
    let (top, foot, high) = (scale.top, scale.foot, scale.height());
    let lowest = scale.below.unwrap_or(0);
    for (is_there, below, level, other) in [
        (true, 10, top, foot),
        (top != foot, high.saturating_sub(2), foot, top),
        (scale.below.is_some(), HIGH + BELOW, lowest, top),
    ] {
        if is_there {
            let text = physical.text(sheet.alloc, level, other)?;
            sheet.label(below, text.as_str())?;
        }
    }
    sheet.bar('l', (0, COLUMNS), high, 1)
}

/// A whole unit: seven decimals are enough for a field of eight characters.
const UNIT: i128 = 10_000_000;

/// What a field of the header writes, in ten-millionths.
fn number_in(field: &[u8]) -> i128 {
    let (mut number, mut unit, mut is_after) = (0i128, UNIT, false);
    for byte in field {
        if byte.is_ascii_digit() {
            number = number.saturating_mul(10);
            number = number.saturating_add(i128::from(byte.saturating_sub(b'0')));
            if is_after {
                unit /= 10;
            }
        }
        is_after = is_after || *byte == b'.';
    }
    let size = number.saturating_mul(unit);
    match field {
        [b'-', ..] => 0i128.saturating_sub(size),
        _ => size,
    }
}

/// The line between levels and physical values in ten-millionths, through both limits.
#[derive(Clone, Copy)]
struct Physical {
    minimum: i128,
    maximum: i128,
    low: i128,
    high: i128,
}

impl Physical {
    fn of(signal: &Signal<'_>) -> Physical {
        Physical {
            minimum: number_in(signal.physical_minimum),
            maximum: number_in(signal.physical_maximum),
            low: (number_in(signal.digital_minimum) / UNIT).saturating_add(32_768),
            high: (number_in(signal.digital_maximum) / UNIT).saturating_add(32_768),
        }
    }

    fn lowest(self) -> u16 {
        u16::try_from(self.low).unwrap_or(0)
    }

    fn value(self, level: u16) -> i128 {
        let part = i128::from(level).saturating_sub(self.low);
        let range = self.maximum.saturating_sub(self.minimum);
        let steps = self.high.saturating_sub(self.low);
        let more = part.saturating_mul(range).checked_div(steps).unwrap_or(0);
        self.minimum.saturating_add(more)
    }

    /// The physical value of a level, rounded to a hundredth of how far another is from it, or of
    /// how far the limits are apart where it is the same; to units at the most, or to millionths.
    fn text(self, alloc: Global, level: u16, other: u16) -> Result<String, AllocError> {
        let value = self.value(level);
        let apart = value.saturating_sub(self.value(other));
        let limits = self.maximum.saturating_sub(self.minimum);
        let range = (if level == other { limits } else { apart }).saturating_abs();
        let mut step = UNIT;
        for _ in 0..6u64 {
            if range < step.saturating_mul(100) {
                step /= 10;
            }
        }
        let size = value.saturating_abs().saturating_add(step / 2);
        let size = size.checked_div(step).unwrap_or(0).saturating_mul(step);
        let (whole, part) = (size / UNIT, size % UNIT);
        let sign = if value < 0 && size > 0 { "-" } else { "" };
        let text = format!(in alloc; "{sign}{whole}.{part:07}")?;
        let text = text.as_str().trim_end_matches('0').trim_end_matches('.');
        String::from_str(alloc, text)
    }
}
