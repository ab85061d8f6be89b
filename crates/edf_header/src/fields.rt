//! Each field of a header begins at its byte here, and ends where the next one begins (EDF, header
//! record).

// The fixed part has these.
pub(crate) const VERSION: usize = 0;

pub(crate) const PATIENT: usize = 8;

pub(crate) const RECORDING: usize = 88;

pub(crate) const STARTDATE: usize = 168;

pub(crate) const STARTTIME: usize = 176;

pub(crate) const HEADER_BYTES: usize = 184;

pub(crate) const RESERVED: usize = 192;

pub(crate) const COUNT: usize = 236;

pub(crate) const DURATION: usize = 244;

pub(crate) const SIGNALS: usize = 252;

pub(crate) const FIXED_END: usize = 256;

// The row of a signal has these.
pub(crate) const LABEL: usize = 0;

pub(crate) const TRANSDUCER: usize = 16;

pub(crate) const DIMENSION: usize = 96;

pub(crate) const PHYSICAL_MINIMUM: usize = 104;

pub(crate) const PHYSICAL_MAXIMUM: usize = 112;

pub(crate) const DIGITAL_MINIMUM: usize = 120;

pub(crate) const DIGITAL_MAXIMUM: usize = 128;

pub(crate) const PREFILTERING: usize = 136;

pub(crate) const SAMPLES: usize = 216;

pub(crate) const SIGNAL_RESERVED: usize = 224;

pub(crate) const ROW_END: usize = 256;

// The bytes of an identity have the patient field, the mark of the Startdate subfield, what follows
// that subfield, the spaces that follow where it is a date, the duration field, the rows of the
// signals.
pub(crate) const KEY_PATIENT: usize = 0;

pub(crate) const KEY_MARK: usize = 80;

pub(crate) const KEY_AFTER: usize = 81;

pub(crate) const KEY_FILL: usize = 140;

pub(crate) const KEY_DURATION: usize = 150;

pub(crate) const KEY_SIGNALS: usize = 158;

/// Each field of a row begins at its first number and has as many bytes as its second.
pub(crate) const ROW: [(usize, usize); 10] = [
    (LABEL, TRANSDUCER - LABEL),
    (TRANSDUCER, DIMENSION - TRANSDUCER),
    (DIMENSION, PHYSICAL_MINIMUM - DIMENSION),
    (PHYSICAL_MINIMUM, PHYSICAL_MAXIMUM - PHYSICAL_MINIMUM),
    (PHYSICAL_MAXIMUM, DIGITAL_MINIMUM - PHYSICAL_MAXIMUM),
    (DIGITAL_MINIMUM, DIGITAL_MAXIMUM - DIGITAL_MINIMUM),
    (DIGITAL_MAXIMUM, PREFILTERING - DIGITAL_MAXIMUM),
    (PREFILTERING, SAMPLES - PREFILTERING),
    (SAMPLES, SIGNAL_RESERVED - SAMPLES),
    (SIGNAL_RESERVED, ROW_END - SIGNAL_RESERVED),
];
