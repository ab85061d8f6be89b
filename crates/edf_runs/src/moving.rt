//! The annotations of a filled file: those of the recording, moved with their data records, and one
//! for each stretch of places that has no part.

ghost use Rattle.std.specs.Prelude.{◌≡◌, ◌+◌, ◌-◌, ◌*◌, ◌^◌, ◌<◌, ◌≤◌, ◌++◌, ◌∷◌, [], OnOk, IfOk};
ghost use Rattle.std.specs.Prelude.{IfSome, List};
ghost use Rattle.std.specs.Prelude.{nat_le};
ghost use Rattle.std.specs.List.{AllZip};
ghost use Rattle.edf_field.specs.declared.number.TheConstants.{MOST_DURATION};
ghost use Rattle.edf_tal.specs.Tal.{Annotation};
ghost use Rattle.edf_runs.specs.Filled.{place_of};
ghost use Rattle.edf_runs.specs.Inside.Moving.{LiesIn, MovesTo, MovesNote, notes_of, stretch_notes};
ghost use Rattle.edf_runs.specs.Inside.Stretching.{gap, Rise};

use crate::parted::Parted;
use crate::places::place_of;
use edf_field::MOST_DURATION;
use edf_tal::Note;
use edf_time::Instant;
use std::alloc::{AllocError, Global};

/// A filled file can't have all annotations or places.
#[derive(Clone, Copy, Debug, PartialEq, Eq, Drop)]
pub(crate) enum MoveFault {
    /// One of them would be after the year 2184.
    Late,
    /// Memory ran out.
    Memory,
}

impl From<AllocError> for MoveFault {
    ghost use Rattle.std.specs.Prelude.{◌≡◌};
    ghost use Rattle.edf_runs.specs.declared.moving.MoveFault.{MoveFault};

    ghost from_gives = { λ refused fault. fault ≡ MoveFault.Memory };

    fn from(_refused: AllocError) -> MoveFault {
        MoveFault::Memory
    }
}

/// Returns when the data record starts in which an instant lies, if it lies in one. Each lasts so
/// many nanoseconds.
pub(crate) fn start_at(starts: &[Instant], duration: u64, instant: Instant) -> Option<Instant>
    requires { duration ≤ MOST_DURATION }
    ensures { Rise duration 0 starts.now → LiesIn duration starts.now instant result }
{
    let nanos = instant.nanos();
    let begun = starts.partition_point(
        |start: &Instant| -> bool
            ensures { result ≡ nat_le start.now nanos }
        { start.nanos() <= nanos },
    );
    let start = *starts.get(begun.checked_sub(1)?)?;
    if nanos < start.nanos() + duration {
        Some(start)
    } else {
        None
    }
}

/// Returns a copy of an annotation with another onset.
fn with_onset(alloc: Global, note: &Note, onset: Instant) -> Result<Note, AllocError>
    ensures { IfOk result (λ copy. copy
        ≡ record { onset = onset; duration = note.now.duration; text = note.now.text }) }
{
    let text = String::from_str(alloc, note.text())?;
    let Some(copy) = Note::new(onset, note.duration(), text) else {
        unreachable!()
    };
    Ok(copy)
}

/// Adds an annotation.
fn push_note(notes: &mut Vec<Note>, note: Note) -> Result<(), AllocError>
    ensures { OnOk result (notes.new.items ≡ notes.old.items ++ note ∷ []) }
{
    notes.push(note)?;
    Ok(())
}

impl<'s> Parted<'s> {
    /// Returns the place of an instant.
    pub(crate) fn place_of(&self, instant: Instant) -> u64
        ensures value { result ≡ place_of self.now.division.unit self.now.first instant }
        ensures few { result < 2 ^ 63 }
        ensures fits { self.now.first + result * self.now.division.unit < 2 ^ 64 }
    {
        place_of(self.division.unit, self.first, instant)
    }

    /// Returns where an instant moves: with the data record in which it lies, or nowhere.
    fn moved(&self, instant: Instant) -> Option<Instant>
        ensures { Rise self.now.duration 0 self.now.starts.now →
            IfSome result (MovesTo self.now instant) }
    {
        match start_at(self.starts, self.duration, instant) {
            Some(start) => {
                let place = self.place_of(start) * self.division.unit;
                let after = instant.nanos().saturating_sub(start.nanos());
                Instant::at(self.first.nanos() + place + after)
            }
            None => Some(instant),
        }
    }

    /// Adds annotations, each moved with the data record in which it happened.
    pub(crate) fn push_moved(
        &self,
        alloc: Global,
        notes: &[Note],
        moved: &mut Vec<Note>,
    ) -> Result<(), MoveFault>
        ensures { OnOk result (Rise self.now.duration 0 self.now.starts.now →
            (all : List Annotation) × AllZip (MovesNote self.now) notes.now all
            × (moved.new.items ≡ moved.old.items ++ all)) }
    {
        for note in notes {
            let Some(onset) = self.moved(note.onset()) else {
                return Err(MoveFault::Late);
            };
            let copy = with_onset(alloc, note, onset)?;
            push_note(moved, copy)?;
        }
        Ok(())
    }

    /// Adds the annotation of the places from one to before another, which have no part.
    fn push_stretch(
        &self,
        alloc: Global,
        next: u64,
        place: u64,
        notes: &mut Vec<Note>,
    ) -> Result<(), MoveFault>
        requires some { next < place }
        requires fits { self.now.first + place * self.now.division.unit < 2 ^ 64 }
        ensures { OnOk result (notes.new.items ≡ notes.old.items
            ++ notes_of self.now.division.unit self.now.first ((next, place - next) ∷ [])) }
    {
        let text = String::from_str(alloc, "Not recorded")?;
        let unit = self.division.unit;
        let begin = next * unit;
        let lasts = (place - next) * unit;
        let Some(onset) = Instant::at(self.first.nanos() + begin) else {
            return Err(MoveFault::Late);
        };
        let Some(note) = Note::new(onset, Some(lasts), text) else {
            return Err(MoveFault::Late);
        };
        push_note(notes, note)?;
        Ok(())
    }

    /// Adds the annotation of the places from one to before another, if there are some.
    fn push_gap(
        &self,
        alloc: Global,
        next: u64,
        place: u64,
        notes: &mut Vec<Note>,
    ) -> Result<(), MoveFault>
        requires { self.now.first + place * self.now.division.unit < 2 ^ 64 }
        ensures { OnOk result (notes.new.items ≡ notes.old.items
            ++ notes_of self.now.division.unit self.now.first (gap next place)) }
    {
        if next < place {
            return self.push_stretch(alloc, next, place, notes);
        }
        Ok(())
    }

    /// Adds an annotation for each stretch of places that has no part.
    pub(crate) fn push_stretches(
        &self,
        alloc: Global,
        notes: &mut Vec<Note>,
    ) -> Result<(), MoveFault>
        ensures { OnOk result (notes.new.items
            ≡ notes.old.items ++ stretch_notes self.now 0 self.now.starts.now) }
    {
        let mut next = 0;
        for start in self.starts {
            let place = self.place_of(*start);
            self.push_gap(alloc, next, place, notes)?;
            next = place + u64::from(self.division.parts);
        }
        Ok(())
    }
}
