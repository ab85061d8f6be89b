//! Two files of one recording, side by side.

ghost use Rattle.std.specs.Prelude.{◌≡◌, ◌≤◌, ℕ, List, Option, OnOk};
ghost use Rattle.edf_field.specs.declared.number.TheConstants.{MOST_DURATION};
ghost use Rattle.edf_fragment.specs.Fragment.{DataRecord};
ghost use Rattle.edf_runs.specs.Inside.Comparing.{IsOne, IsApartWord, IsMetWord};
ghost use Rattle.edf_runs.specs.Inside.Siding.{IsStep, files, AreSides, Advances, ReadsSide};
ghost use Rattle.edf_runs.specs.Inside.Siding.{PassesFirst, PassesSecond, PassesBoth};

use crate::sides::{SideFault, Sides, Step};
use crate::stretch::{Stretch, Word, add_stretch};
use edf_field::MOST_DURATION;
use edf_fragment::{FragmentFault, Input, OpenFragment, Record};
use std::alloc::AllocError;

/// Returns which of the next data records starts first, or both.
fn next_step(first: &Option<Record>, second: &Option<Record>) -> Step
    ensures { IsStep first.now second.now result }
{
    match (first, second) {
        (None, None) => Step::Neither,
        (Some(_), None) => Step::First,
        (None, Some(_)) => Step::Second,
        (Some(one), Some(other)) => {
            let (start, begin) = (one.start().nanos(), other.start().nanos());
            if start == begin {
                Step::Both
            } else if start < begin {
                Step::First
            } else {
                Step::Second
            }
        }
    }
}

/// Returns the stretch of one data record.
fn stretch_of(word: Word, data_record: &Record, duration: u64) -> Stretch
    requires { duration ≤ MOST_DURATION }
    ensures one { IsOne duration result data_record.now }
    ensures word { result.word ≡ word }
{
    let start = data_record.start();
    Stretch {
        word,
        records: 1,
        from: start,
        to: start.nanos() + duration,
    }
}

/// Returns the word of a data record of the second file, at whose start the first has none.
fn apart_word(duration: u64, passed: u64, first: &Option<Record>, other: &Record) -> Word
    requires { duration ≤ MOST_DURATION }
    ensures { IsApartWord duration passed first.now other.now result }
{
    let start = other.start().nanos();
    if start < passed {
        return Word::Overlaps;
    }
    match first {
        Some(one) if one.start().nanos() < start + duration => Word::Overlaps,
        _ => Word::New,
    }
}

/// Returns the word of a data record of the second file, at whose start the first has one.
fn met_word(one: &Record, other: &Record) -> Word
    ensures { IsMetWord one.now other.now result }
{
    if one.same(other) {
        Word::Known
    } else {
        Word::Differs
    }
}

impl Sides {
    /// Passes the next data record of the first file, which the second lacks.
    fn pass_first(&mut self) -> Result<(), AllocError>
        ensures { OnOk result (PassesFirst self.old self.new) }
    {
        let Some(one) = &self.first else {
            return Ok(());
        };
        let stretch = stretch_of(Word::Lacking, one, self.duration);
        let end = stretch.to;
        add_stretch(&mut self.firsts, stretch)?;
        self.passed = end;
        Ok(())
    }

    /// Passes the next data record of the second file, at whose start the first has none.
    fn pass_second(&mut self) -> Result<(), AllocError>
        ensures { OnOk result (PassesSecond self.old self.new) }
    {
        let Some(other) = &self.second else {
            return Ok(());
        };
        let word = apart_word(self.duration, self.passed, &self.first, other);
        let stretch = stretch_of(word, other, self.duration);
        add_stretch(&mut self.seconds, stretch)?;
        Ok(())
    }

    /// Passes the next data records of both, which start at once.
    fn pass_both(&mut self) -> Result<(), AllocError>
        ensures { OnOk result (PassesBoth self.old self.new) }
    {
        let (Some(one), Some(other)) = (&self.first, &self.second) else {
            return Ok(());
        };
        let met = stretch_of(Word::Met, one, self.duration);
        let stretch = stretch_of(met_word(one, other), other, self.duration);
        let end = met.to;
        add_stretch(&mut self.firsts, met)?;
        add_stretch(&mut self.seconds, stretch)?;
        self.passed = end;
        Ok(())
    }
}

/// Reads the next data record of a file that has not ended.
pub(crate) fn next_record<R: Input>(
    fragment: &mut OpenFragment,
    input: &mut R,
) -> Result<Option<Record>, FragmentFault>
    ensures header { fragment.new.header ≡ fragment.old.header }
    ensures next { ReadsSide fragment.old.header (R.remaining input.old) (R.remaining input.new)
        fragment.old.progress fragment.new.progress result }
{
    fragment.next(input)
}

/// Passes what comes next of both files, and reads on. Is false where nothing does.
pub(crate) fn advance<R: Input, S: Input>(
    sides: &mut Sides,
    first: &mut OpenFragment,
    first_input: &mut R,
    second: &mut OpenFragment,
    second_input: &mut S,
) -> Result<bool, SideFault>
    ensures headers { (first.new.header ≡ first.old.header)
        × (second.new.header ≡ second.old.header) }
    ensures duration { OnOk result (sides.new.duration ≡ sides.old.duration) }
    ensures sides { (from from' : Option (List ℕ)) (p q : List DataRecord) →
        AreSides from from' (files R.Input S.Input first.old.header second.old.header first.old
        first_input.old second.old second_input.old) sides.old p q → Advances from from'
        (files R.Input S.Input first.old.header second.old.header first.old first_input.old
        second.old second_input.old)
        (files R.Input S.Input first.old.header second.old.header first.new first_input.new
        second.new second_input.new) sides.old sides.new p q result }
{
    match next_step(&sides.first, &sides.second) {
        Step::Neither => Ok(false),
        Step::First => {
            sides.pass_first()?;
            match next_record(first, first_input) {
                Ok(next) => {
                    sides.first = next;
                    Ok(true)
                }
                Err(fault) => Err(SideFault::First(fault)),
            }
        }
        Step::Second => {
            sides.pass_second()?;
            match next_record(second, second_input) {
                Ok(next) => {
                    sides.second = next;
                    Ok(true)
                }
                Err(fault) => Err(SideFault::Second(fault)),
            }
        }
        Step::Both => {
            sides.pass_both()?;
            match next_record(first, first_input) {
                Ok(next) => sides.first = next,
                Err(fault) => return Err(SideFault::First(fault)),
            }
            match next_record(second, second_input) {
                Ok(next) => {
                    sides.second = next;
                    Ok(true)
                }
                Err(fault) => Err(SideFault::Second(fault)),
            }
        }
    }
}
