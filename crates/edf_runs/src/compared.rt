//! What one file has of another of the same recording.

ghost use Rattle.std.specs.Prelude.{◌≡◌, List, MatchResult, IfOk};
ghost use Rattle.edf_field.specs.Number.{duration_of};
ghost use Rattle.edf_fragment.specs.Fragment.{DataRecord};
ghost use Rattle.edf_fragment.specs.Inside.Steps.{ReadsRecords};
ghost use Rattle.edf_fragment.specs.Reading.{initial_progress};
ghost use Rattle.edf_runs.specs.ComparedFiles.{IsCompared, IsCompareFault};
ghost use Rattle.edf_runs.specs.Inside.Siding.{IsSideFault, is_passed};

use crate::comparing::{advance, next_record};
use crate::sides::{SideFault, Sides};
use crate::stretch::Stretch;
use edf_fragment::{FragmentFault, Input, OpenFragment};
use edf_header::Identity;
use edf_header::laws::header_is_layout;
use std::alloc::Global;

/// The stretches of two files.
#[derive(Drop)]
pub struct Comparison {
    /// Those of the second file, by what the first has of it.
    pub words: Vec<Stretch>,
    /// Those of the first, by whether the second has a data record at the start of each.
    pub firsts: Vec<Stretch>,
}

/// A comparison can't be made.
#[derive(Drop)]
pub enum CompareFault {
    /// The first file has this fault.
    First(FragmentFault),
    /// The second has it.
    Second(FragmentFault),
    /// They are of these two recordings.
    Other(Identity, Identity),
    /// Memory ran out.
    Memory,
}

/// Compares the data records of two files whose headers were just read.
fn compare_records<R: Input, S: Input>(
    alloc: Global,
    first: &mut OpenFragment,
    first_input: &mut R,
    second: &mut OpenFragment,
    second_input: &mut S,
) -> Result<Sides, SideFault>
    requires first { first.old.progress ≡ initial_progress }
    requires second { second.old.progress ≡ initial_progress }
    ensures headers { (first.new.header ≡ first.old.header)
        × (second.new.header ≡ second.old.header) }
    ensures duration { IfOk result
        (λ sides. sides.duration ≡ duration_of first.old.header.key.duration) }
    ensures answer { MatchResult result
        (λ sides. (p : List DataRecord) × (q : List DataRecord)
        × ReadsRecords first.old.header (R.remaining first_input.old) (R.remaining first_input.new)
        p × ReadsRecords second.old.header (S.remaining second_input.old)
        (S.remaining second_input.new) q × is_passed sides p q None None)
        (IsSideFault first.old.header second.old.header (R.remaining first_input.old)
        (R.remaining first_input.new) (S.remaining second_input.old)
        (S.remaining second_input.new)) }
{
    let duration = first.header().identity().duration();
    let next = match next_record(first, first_input) {
        Ok(next) => next,
        Err(fault) => return Err(SideFault::First(fault)),
    };
    let other = match next_record(second, second_input) {
        Ok(other) => other,
        Err(fault) => return Err(SideFault::Second(fault)),
    };
    let mut sides = Sides {
        duration,
        first: next,
        second: other,
        passed: 0,
        firsts: Vec::new(alloc),
        seconds: Vec::new(alloc),
    };
    'records: loop {
        if !advance(&mut sides, first, first_input, second, second_input)? {
            return Ok(sides);
        }
    }
}

/// Reads two files whole, and compares their data records, where both are of one recording.
///
/// # Errors
/// `First` and `Second` where one of the files is refused or a read failed, `Other` where they are
/// of two recordings, `Memory` where memory ran out.
pub fn compare_files<R: Input, S: Input>(
    alloc: Global,
    first_input: &mut R,
    second_input: &mut S,
) -> Result<Comparison, CompareFault>
    ensures { MatchResult result
        (IsCompared (R.remaining first_input.old) (R.remaining first_input.new)
        (S.remaining second_input.old) (S.remaining second_input.new))
        (IsCompareFault (R.remaining first_input.old) (R.remaining first_input.new)
        (S.remaining second_input.old) (S.remaining second_input.new)) }
{
    let mut first = match OpenFragment::read(alloc, first_input) {
        Ok(fragment) => fragment,
        Err(fault) => return Err(CompareFault::First(fault)),
    };
    let mut second = match OpenFragment::read(alloc, second_input) {
        Ok(fragment) => fragment,
        Err(fault) => return Err(CompareFault::Second(fault)),
    };
    if !first.header().identity().same(second.header().identity()) {
        return Err(CompareFault::Other(
            first.into_header().into_identity(),
            second.into_header().into_identity(),
        ));
    }
    match compare_records(alloc, &mut first, first_input, &mut second, second_input) {
        Ok(sides) => {
            let Sides {
                duration: _,
                first: _,
                second: _,
                passed: _,
                firsts,
                seconds,
            } = sides;
            Ok(Comparison {
                words: seconds,
                firsts,
            })
        }
        Err(SideFault::First(fault)) => Err(CompareFault::First(fault)),
        Err(SideFault::Second(fault)) => Err(CompareFault::Second(fault)),
        Err(SideFault::Memory) => Err(CompareFault::Memory),
    }
}
