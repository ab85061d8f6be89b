//! The places of a filled file, one after another, without their samples.

ghost use Rattle.std.specs.Prelude.{◌≡◌, ◌+◌, ◌*◌, ◌<◌, ◌≤◌, ◌^◌, ◌↔◌, ℕ, List, IfOk, IsTrue};
ghost use Rattle.std.specs.Prelude.{length, nat_lt};
ghost use Rattle.std.specs.List.{prefix_len};

use crate::moving::MoveFault;
use crate::parted::FilledParts;
use crate::places::place_of;
use crate::spots::copy_notes;
use edf_tal::Note;
use edf_time::Instant;
use std::alloc::Global;

/// Whose samples a place has.
#[derive(Clone, Copy, Debug, PartialEq, Eq, Drop)]
pub(crate) enum Origin {
    /// Nobody's: they are flat.
    Flat,
    /// Those of the first part of the data record that starts then.
    First(Instant),
    /// Those of another part of the same data record, by its number from 0.
    Later(u32),
}

/// A place of a filled file has all of a data record but its samples.
#[derive(Drop)]
pub(crate) struct Place {
    pub(crate) start: Instant,
    pub(crate) notes: Vec<Note>,
    pub(crate) origin: Origin,
}

/// The places that are to come.
#[derive(Clone, Copy)]
pub(crate) struct Places<'o> {
    pub(crate) parts: &'o FilledParts,
    /// When the data records start that have no place yet.
    pub(crate) later: &'o [Instant],
    /// The annotations that have none.
    pub(crate) notes: &'o [Note],
    /// The number of the next place.
    pub(crate) nth: u64,
    /// How many parts of the data record before have none.
    pub(crate) left: u32,
}

/// Returns how many annotations there are before the first whose onset is not before an instant.
pub(crate) fn count_earlier(notes: &[Note], instant: u64) -> usize
    ensures value { result ≡ prefix_len (λ a. nat_lt a.onset instant) notes.now }
    ensures within { result ≤ length notes.now }
{
    notes
        .iter()
        .take_while(|note| note.onset().nanos() < instant)
        .count()
}

impl<'o> Places<'o> {
    ghost use Rattle.edf_fragment.specs.Fragment.{DataRecord};
    ghost use Rattle.edf_runs.specs.Inside.ToCome.{IsPlaced, StartAt, Advances, TakesNext};
    ghost use Rattle.edf_runs.specs.Inside.ToCome.{CountsBefore};

    /// Is true where none is to come.
    fn is_over(&self) -> bool
        ensures { IsTrue result ↔ ((self.now.left ≡ 0) × (length self.now.later.now ≡ 0)) }
    {
        self.left == 0 && self.later.is_empty()
    }

    /// Returns how many annotations the place before the next one has, which ends then.
    fn count_notes(&self, end: u64) -> usize
        ensures value { IsPlaced self.now → CountsBefore self.now end result }
        ensures within { result ≤ length self.now.notes.now }
    {
        if self.is_over() {
            return self.notes.len();
        }
        count_earlier(self.notes, end)
    }

    /// Goes on to the place behind the next one, and returns whose samples that one has.
    fn advance(&mut self) -> Origin
        requires few { self.old.nth < 2 ^ 63 }
        requires some { self.old.left ≡ 0 → 0 < length self.old.later.now }
        ensures { Advances self.old self.new result }
    {
        let parts = self.parts;
        let nth = self.nth;
        self.nth += 1;
        if self.left > 0 {
            let part = parts.division.parts.saturating_sub(self.left);
            self.left -= 1;
            return Origin::Later(part);
        }
        let Some((start, later)) = self.later.split_first() else {
            unreachable!()
        };
        if nth < place_of(parts.division.unit, parts.first, *start) {
            return Origin::Flat;
        }
        self.later = later;
        self.left = parts.division.parts - 1;
        Origin::First(*start)
    }

    /// Returns the next place, or `None` after the last.
    ///
    /// # Errors
    /// `Late` where it would start after the year 2184, `Memory` where memory runs out.
    pub(crate) fn next(&mut self, alloc: Global) -> Result<Option<Place>, MoveFault>
        ensures { IfOk result (TakesNext self.old self.new) }
    {
        if self.is_over() {
            return Ok(None);
        }
        let parts = self.parts;
        let unit = parts.division.unit;
        let from_first = self.nth.saturating_mul(unit);
        let Some(start) = Instant::at(parts.first.nanos().saturating_add(from_first)) else {
            return Err(MoveFault::Late);
        };
        let origin = self.advance();
        let (here, later) = self.notes.split_at(self.count_notes(start.nanos() + unit));
        let mut notes = Vec::new(alloc);
        copy_notes(alloc, here, &mut notes)?;
        self.notes = later;
        Ok(Some(Place {
            start,
            notes,
            origin,
        }))
    }
}
