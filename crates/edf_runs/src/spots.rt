//! The data records of an outline, one after another, without their samples.

ghost use Rattle.std.specs.Prelude.{◌≡◌, ◌++◌, IfOk, OnOk};
ghost use Rattle.edf_runs.specs.Inside.Selecting.{TakesSpot};

use crate::outline::Outline;
use edf_tal::Note;
use edf_time::Instant;
use std::alloc::{AllocError, Global};
use std::marker::Model;

/// A data record without its samples.
#[derive(Drop)]
pub(crate) struct Slot {
    pub(crate) start: Instant,
    pub(crate) notes: Vec<Note>,
}

impl Model for Slot {
    ghost use Rattle.std.specs.Prelude.{[]};
    ghost use Rattle.edf_fragment.specs.Fragment.{DataRecord};

    ghost Value = { DataRecord };

    ghost view = { λ s. record { start = s.start; samples = []; annotations = s.notes.items } };
}

/// Copies annotations to the end of others.
pub(crate) fn copy_notes(alloc: Global, from: &[Note], to: &mut Vec<Note>) -> Result<(), AllocError>
    ensures { OnOk result (to.new.items ≡ to.old.items ++ from.now) }
{
    for note in from {
        let text = String::from_str(alloc, note.text())?;
        if let Some(copy) = Note::new(note.onset(), note.duration(), text) {
            to.push(copy)?;
        }
    }
    Ok(())
}

/// Those that come.
#[derive(Clone, Copy)]
pub(crate) struct Spots<'o> {
    pub(crate) starts: &'o [Instant],
    /// How many annotations each has.
    pub(crate) counts: &'o [u16],
    pub(crate) notes: &'o [Note],
}

impl<'o> Spots<'o> {
    ghost use Rattle.std.specs.Prelude.{◌≡◌};

    /// Returns all of an outline.
    pub(crate) fn of(outline: &'o Outline) -> Spots<'o>
        ensures starts { result.starts.now ≡ outline.now.spans.starts.items }
        ensures counts { result.counts.now ≡ outline.now.spans.counts.items }
        ensures notes { result.notes.now ≡ outline.now.spans.notes.items }
    {
        Spots {
            starts: outline.spans.starts.as_slice(),
            counts: outline.spans.counts.as_slice(),
            notes: outline.spans.notes.as_slice(),
        }
    }

    /// Returns the next one, or `None` after the last.
    ///
    /// # Errors
    /// It fails where memory runs out.
    pub(crate) fn take(&mut self, alloc: Global) -> Result<Option<Slot>, AllocError>
        ensures { IfOk result (TakesSpot self.old self.new) }
    {
        let Some((start, starts)) = self.starts.split_first() else {
            return Ok(None);
        };
        let (count, counts) = match self.counts.split_first() {
            Some((count, counts)) => (usize::from(*count), counts),
            None => (0, self.counts),
        };
        let (here, later) = self.notes.split_at(count.min(self.notes.len()));
        let mut notes = Vec::new(alloc);
        copy_notes(alloc, here, &mut notes)?;
        self.starts = starts;
        self.counts = counts;
        self.notes = later;
        Ok(Some(Slot {
            start: *start,
            notes,
        }))
    }
}
