//! One table of what to do about faults of form. What is wrong is the sentence of the fault.

use crate::advice::Row::{Behind, Field, Instead, Never, Own};
use edf_fragment::FragmentFault;
use edf_header::{Format, HeaderFault};
use edf_tal::TalFault;

/// The words for a fault of form. Programs that mend nothing print the first ones after its
/// sentence; each variant says what `edfmend` prints of a file that it did not mend.
#[derive(Clone, Copy, Drop)]
pub(crate) enum Row {
    /// It prints the same, since it mends none of this.
    Never(&'static str),
    /// It prints the same, for each file, since what is wrong is more than the number says.
    Own(&'static str),
    /// It prints the second ones after the sentence, for each file.
    Field(&'static str, &'static str),
    /// It prints the second ones after the sentence.
    Behind(&'static str, &'static str),
    /// It prints the second ones in place of the sentence.
    Instead(&'static str, &'static str),
}

fn on_format(format: Format) -> Row {
    match format {
        Format::Edf => Instead(
            ", as in a name with other letters: edfmend spells them in ASCII",
            "a byte of its startdate, starttime or duration is no printable ASCII: correct it in a \
            copy",
        ),
        Format::Bdf => Own(": edfstore and edfruns take EDF+ alone, so export it as EDF+"),
        Format::Zip => Own(": unpack it"),
        Format::Sqlite => Own(": if it is a store, 'edfstore export' writes its recordings"),
        Format::Other => Own(": it has another format, or is damaged"),
    }
}

fn on_header(fault: &HeaderFault) -> Row {
    match fault {
        HeaderFault::Cut => Never(": it was cut, or is no EDF file; send it again"),
        HeaderFault::Unprintable { format, .. } => on_format(*format),
        HeaderFault::Version(format) => on_format(*format),
        HeaderFault::Patient(_) => Field(
            ": edfmend makes it that of EDF+, where it has room",
            ": the field has no room for what EDF+ wants there, so shorten it in a copy",
        ),
        HeaderFault::Recording(_) => Field(
            ": edfmend makes it that of EDF+, where it has room",
            ": its codes have no room, or the startdate is no date, so correct that in a copy",
        ),
        HeaderFault::Startdate => Behind(
            ": look at its spelling, and at the recorder's clock",
            ": give it by --startdate, where the file has none",
        ),
        HeaderFault::Starttime => Behind(
            ": look at its spelling, and at the recorder's clock",
            ": give it by --starttime, where the file has none",
        ),
        HeaderFault::DatesDiffer => Never(": one was edited, so find out which is right"),
        HeaderFault::NotPlus => Instead(
            ": edfstore and edfruns take EDF+ alone; edfmend makes EDF+ of it",
            "edfmend can't read this: see man edfmend",
        ),
        HeaderFault::Count => Behind(
            ": edfmend counts them",
            ", and by its header no whole one is there: send it again",
        ),
        HeaderFault::Duration => Never(": 0 is of no signals, 1,0 is 1.0"),
        HeaderFault::Signals => Behind(
            ": one of annotations alone is no recording, and to one without them edfmend adds them",
            ": annotations alone are no recording, and edfmend reads only plain EDF and EDF+C \
            without them",
        ),
        HeaderFault::HeaderBytes => Behind(
            ": have its producer write it again",
            ", for its signals and its end don't agree: have its producer write it again",
        ),
        HeaderFault::CutSignals => Never(", so it was cut: send it again"),
        HeaderFault::UnprintableSignals { .. } => Instead(
            ", often a micro or degree sign: edfmend spells those that it knows in ASCII",
            "edfmend can't read this: see man edfmend",
        ),
        HeaderFault::Annotations => Instead(
            ": edfmend mends limits, and reads EDF+C without the signal",
            "it has no annotations signal, or nothing else: where a label speaks of annotations, \
            correct it in a copy; EDF+D without one does not say when its data records start",
        ),
        HeaderFault::Physical { .. } => Instead(
            ": edfmend mends them, where eight bytes have the number",
            "this signal's physical limits are no numbers that eight bytes have exactly, or are \
            equal and its digital ones are no better: correct them in a copy",
        ),
        HeaderFault::Digital { .. } => Instead(
            ": edfmend swaps those that fall",
            "this signal's digital limits are no numbers of 16 bits, or are equal: correct them in \
            a copy",
        ),
        HeaderFault::Samples { .. } => Never(": its producer is to leave it out"),
        HeaderFault::Size => Never(": its producer is to write shorter ones"),
        HeaderFault::Memory => Never(""),
    }
}

fn on_blocks(fault: &TalFault) -> Row {
    match fault {
        TalFault::Tal { .. } => Instead(
            ": edfmend mends times finer than a nanosecond, and what fills a block",
            "annotations of this data record are no lists: have its producer write them as EDF+ \
            has them",
        ),
        TalFault::Text { .. } => Instead(
            ": edfmend makes it that",
            "edfmend can't read this: see man edfmend",
        ),
        TalFault::NotTimed => Never(": its producer is to write it"),
        TalFault::FirstOnset => Never(""),
        TalFault::Window => Never(": look at the clock"),
        TalFault::Order => Never(": a clock was set back, or starts are rounded"),
        TalFault::TooMany => Never(": its producer is to spread them"),
        TalFault::Memory => Never(""),
    }
}

/// Returns the words for a fault of form.
pub(crate) fn row_of(fault: &FragmentFault) -> Row {
    match fault {
        FragmentFault::Header(fault) => on_header(fault),
        FragmentFault::CutRecord { .. } => Instead(
            ": send it again, or edfmend makes its count what is there, where a data record is \
            whole",
            "no data record of it is whole: send it again",
        ),
        FragmentFault::Tal { fault, .. } => on_blocks(fault),
        FragmentFault::Trailing => Instead(
            ": files were joined, or its count is wrong, which edfmend mends",
            "bytes follow its counted data records: where they are its own, give --all; zeros, cut \
            them off in a copy",
        ),
        FragmentFault::Read | FragmentFault::Memory | FragmentFault::Failed => Never(""),
    }
}
