//! Stretches of data records that have one word beside those of another file.

ghost use Rattle.std.specs.Prelude.{OnOk};
ghost use Rattle.edf_runs.specs.Inside.Comparing.{AddsStretch};

use edf_time::Instant;
use std::alloc::AllocError;

/// What a data record is beside those of another file.
#[derive(Clone, Copy, Debug, PartialEq, Eq, Drop)]
pub enum Word {
    /// The first file has it.
    Known,
    /// The first file lacks it, and a store that holds the first would take it.
    New,
    /// The first file has another one that starts then.
    Differs,
    /// It overlaps one of the first file, and none of these starts when it does.
    Overlaps,
    /// It is one of the first file, and the second has none that starts then.
    Lacking,
    /// It is one of the first file, and the second has one that starts then.
    Met,
}

/// A longest stretch of neighbours with one word.
#[derive(Clone, Copy, Debug, PartialEq, Eq, Drop)]
pub struct Stretch {
    pub word: Word,
    /// How many data records it has.
    pub records: u32,
    /// When the first of them starts.
    pub from: Instant,
    /// When the last of them ends, in nanoseconds from 1985.
    pub to: u64,
}

/// Adds a stretch of one data record: to the last one, where that has the same word.
pub(crate) fn add_stretch(all: &mut Vec<Stretch>, one: Stretch) -> Result<(), AllocError>
    ensures { OnOk result (AddsStretch all.old.items all.new.items one) }
{
    match all.pop() {
        Some(last) if last.word == one.word => all.push(Stretch {
            word: last.word,
            records: last.records.saturating_add(1),
            from: last.from,
            to: one.to,
        })?,
        Some(last) => {
            all.push(last)?;
            all.push(one)?;
        }
        None => all.push(one)?,
    }
    Ok(())
}
