//! Functions of `edf_runs` and `edf_mend` that are called one by one.

use crate::files::{
    file_named, first_strays, second_run, second_strays, strays, third_run, two_gaps,
};
use edf_fragment::{Counted, Input, OpenFragment};
use edf_mend::{Change, Wanted, Who, measure, write_mended};
use edf_runs::{Run, Written, add_record, list_outline, read_outline, reopen_listed, write_run};
use edf_sample::{Sink, Source};
use std::alloc::Global;

/// Reads the next data record, and adds it to the runs.
fn gather_next<R: Input>(
    fragment: &mut OpenFragment,
    input: &mut R,
    runs: &mut Vec<Run>,
) -> Option<()> {
    let data_record = fragment.next(input).ok()??;
    let duration = fragment.header().identity().duration();
    add_record(runs, &data_record, duration).ok()
}

/// How many data records and annotations samples each run of two gaps has, by a caller that reads
/// itself.
fn gathered(alloc: Global) -> Option<Vec<(u32, u32)>> {
    let bytes = two_gaps(alloc)?;
    let mut input = Counted::new(Source::whole(&bytes, 100));
    let mut fragment = OpenFragment::read(alloc, &mut input).ok()?;
    let mut runs = Vec::new(alloc);
    for _ in 0..6u8 {
        gather_next(&mut fragment, &mut input, &mut runs)?;
    }
    let mut sizes = Vec::new(alloc);
    for run in &runs {
        sizes.push((run.records(), run.block_samples())).ok()?;
    }
    Some(sizes)
}

/// What is told of the file of a run that is written after those before it, where it is this one.
fn written(alloc: Global, bytes: &[u8], number: usize, file: &[u8]) -> Option<Written> {
    let mut first_reading = Counted::new(Source::whole(bytes, 100));
    let outline = read_outline(alloc, &mut first_reading).ok()?;
    let listing = list_outline(alloc, outline).ok()?;
    let mut input = Counted::new(Source::whole(bytes, 7));
    let mut fragment = reopen_listed(alloc, &mut input, &listing).ok()?;
    let mut last = None;
    for run in listing.runs.iter().take(number) {
        let mut got = Vec::new(alloc);
        let mut out = Counted::new(Sink::whole(&mut got, 100));
        let told = write_run(alloc, &mut fragment, &mut input, run, &mut out).ok()?;
        drop(out);
        last = Some(told).filter(|_| got.as_slice() == file);
    }
    last
}

/// The same of files of the tests.
fn told(
    alloc: Global,
    bytes: Option<Vec<u8>>,
    number: usize,
    file: Option<Vec<u8>>,
) -> Option<(u64, u64, u64)> {
    let told = written(alloc, &bytes?, number, &file?)?;
    Some((told.bytes, told.annotations, told.outside))
}

#[test]
fn runs_are_gathered_and_written(rt: HostRuntime) {
    let alloc = rt.alloc();
    let expected = [(3u32, 10u32), (2, 17), (1, 3)];
    assert!(rt; gathered(alloc).is_some_and(|sizes| sizes.as_slice() == expected.as_slice()));
    for (bytes, number, file, expected) in [
        (
            two_gaps(alloc),
            2usize,
            second_run(alloc),
            (844u64, 2u64, 2u64),
        ),
        (two_gaps(alloc), 3, third_run(alloc), (778, 0, 0)),
        (strays(alloc), 1, first_strays(alloc), (840, 4, 3)),
        (strays(alloc), 2, second_strays(alloc), (856, 5, 4)),
    ] {
        assert_eq!(rt;
            told(alloc, bytes, number, file),
            Some(expected),
            "{number}"
        );
    }
}

/// Nothing is said of a file.
fn nothing() -> Wanted {
    Wanted {
        who: Who::AsNamed,
        startdate: None,
        starttime: None,
        all: false,
    }
}

/// Is true for the change of the physical minimum to 510.
fn is_of_falling(change: &Change) -> bool {
    change.place == 104
        && change.signal == 1
        && change.at == 464
        && change.old.as_slice() == b"-440    ".as_slice()
        && change.new.as_slice() == b"510     ".as_slice()
}

/// What is mended of a file whose digital limits fall: how many data records it has, how many
/// fields differ, whether the second is that one, behind the mark, and how many bytes are left out.
fn fallen(alloc: Global) -> Option<(u32, usize, bool, usize)> {
    let bytes = file_named(alloc, "falling.edf")?;
    let wanted = nothing();
    let mut input = Counted::new(Source::whole(&bytes, 7));
    let measured = measure(alloc, &mut input, &wanted).ok()?;
    let mut got = Vec::new(alloc);
    let mut input = Counted::new(Source::whole(&bytes, 9));
    let mut out = Counted::new(Sink::whole(&mut got, 11));
    let made = write_mended(alloc, &mut input, &wanted, &measured, &mut out).ok()?;
    let is_told = is_of_falling(made.changes.get(1)?);
    Some((measured.records, made.changes.len(), is_told, made.left_out))
}

#[test]
fn a_file_is_measured_and_mended(rt: HostRuntime) {
    assert_eq!(rt; fallen(rt.alloc()), Some((1, 5, true, 0)));
}
