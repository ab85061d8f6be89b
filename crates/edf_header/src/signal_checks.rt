ghost use Rattle.std.specs.Prelude.{◌≡◌, ◌<◌, MatchOption, IsTrue, ◌↔◌, All};
ghost use Rattle.edf_field.specs.Text.{IsPrintable};
ghost use Rattle.edf_header.specs.Signal.{rows_of, has_label, samples, IsLabelled, IsFirstBad};
ghost use Rattle.edf_header.specs.Signal.{Passes};
ghost use Rattle.edf_header.specs.Signal.{HasPhysical, HasDigital, HasSamples, IsAnnotationsSignal};

use crate::columns::row_in;
use crate::fields::{
    DIGITAL_MAXIMUM, DIGITAL_MINIMUM, LABEL, PHYSICAL_MAXIMUM, PHYSICAL_MINIMUM, PREFILTERING,
    SAMPLES, SIGNAL_RESERVED, TRANSDUCER,
};
use edf_field::{physical_values_differ, read_signed, read_whole};

/// Each signal of a header is checked for these, in this order.
#[derive(Clone, Copy, Debug, PartialEq, Eq)]
pub enum Check {
    /// It is an ordinary signal.
    Label,
    /// It has the physical and digital values of an annotations signal, where it is one.
    Annotations,
    /// Its physical minimum and maximum are numbers that differ, where it is ordinary.
    Physical,
    /// Its digital minimum and maximum are numbers of 16 bits that rise, where it is ordinary.
    Digital,
    /// It has samples in each data record.
    Samples,
}

/// Is true where the physical minimum and maximum are numbers that differ.
fn has_physical(row: &[u8; 256]) -> bool
    ensures { IsTrue result ↔ HasPhysical row.now }
{
    physical_values_differ(
        &row[PHYSICAL_MINIMUM..PHYSICAL_MAXIMUM],
        &row[PHYSICAL_MAXIMUM..DIGITAL_MINIMUM],
    )
}

/// Is true where the digital minimum and maximum are numbers of 16 bits, the maximum the greater.
fn has_digital(row: &[u8; 256]) -> bool
    ensures { IsTrue result ↔ HasDigital row.now }
{
    match (
        read_signed(&row[DIGITAL_MINIMUM..DIGITAL_MAXIMUM]),
        read_signed(&row[DIGITAL_MAXIMUM..PREFILTERING]),
    ) {
        (Some(low), Some(high)) => -32_768 <= low && low < high && high <= 32_767,
        _ => false,
    }
}

/// Is true where the samples are a whole number from 1 on.
fn has_samples(row: &[u8; 256]) -> bool
    ensures { IsTrue result ↔ HasSamples row.now }
{
    match read_whole(&row[SAMPLES..SIGNAL_RESERVED]) {
        Some(n) => n >= 1,
        None => false,
    }
}

/// Is true where a signal has the label of an annotations signal.
pub(crate) fn is_labelled(row: &[u8; 256]) -> bool
    ensures value { result ≡ has_label row.now }
    ensures label { IsTrue result ↔ IsLabelled row.now }
{
    &row[LABEL..TRANSDUCER] == b"EDF Annotations ".as_slice()
}

/// Is true where a signal is an annotations signal with the values that such a signal must have.
fn is_annotations(row: &[u8; 256]) -> bool
    ensures { IsTrue result ↔ IsAnnotationsSignal row.now }
{
    if !is_labelled(row) || !has_physical(row) {
        return false;
    }
    match (
        read_signed(&row[DIGITAL_MINIMUM..DIGITAL_MAXIMUM]),
        read_signed(&row[DIGITAL_MAXIMUM..PREFILTERING]),
    ) {
        (Some(low), Some(high)) => low == -32_768 && high == 32_767,
        _ => false,
    }
}

/// Returns the number of samples that a signal has in a data record.
pub(crate) fn samples_of(row: &[u8; 256]) -> u32
    requires { HasSamples row.now }
    ensures value { result ≡ samples row.now }
    ensures bound { result < 100_000_000 }
{
    match read_whole(&row[SAMPLES..SIGNAL_RESERVED]) {
        Some(n) => n,
        None => unreachable!(),
    }
}

/// Is true where a signal passes a check.
pub(crate) fn passes(check: Check, row: &[u8; 256]) -> bool
    ensures { IsTrue result ↔ Passes check row.now }
{
    match check {
        Check::Label => !is_labelled(row),
        Check::Annotations => !is_labelled(row) || is_annotations(row),
        Check::Physical => is_labelled(row) || has_physical(row),
        Check::Digital => is_labelled(row) || has_digital(row),
        Check::Samples => has_samples(row),
    }
}

/// Returns the index, from 0, of the first of the rows that fails a check.
pub(crate) fn first_bad(check: Check, rows: &[u8]) -> Option<usize>
    ensures { MatchOption result
        (All (Passes check) (rows_of rows.now)) (IsFirstBad (Passes check) (rows_of rows.now)) }
{
    for i in 0..rows.len() / 256 {
        if !passes(check, row_in(rows, i)) {
            return Some(i);
        }
    }
    None
}

/// Returns the index, from 0, of the first byte that is not printable.
pub(crate) fn first_unprintable(bytes: &[u8]) -> Option<usize>
    ensures { MatchOption result (All IsPrintable bytes.now) (IsFirstBad IsPrintable bytes.now) }
{
    bytes.iter().position(|b| !(32..=126).contains(b))
}
