//! A file may hold no more than these limits. Each number stands here alone: code, contracts,
//! definitions and proofs name it.

/// A file or a recording has at most this many data records: the header's field of their number has
/// eight digits (EDF, header record).
pub const MOST_RECORDS: u32 = 99_999_999;

/// The ordinary samples of a data record have at most this many bytes, and so have its annotations
/// blocks together: 4 MiB.
pub const MOST_BLOCK_BYTES: usize = 4_194_304;

/// So many bytes hold this many samples, two bytes for each.
pub const MOST_BLOCK_SAMPLES: u32 = MOST_BLOCK_BYTES as u32 / 2;

/// A data record has at most this many bytes, of its ordinary samples and its annotations blocks.
pub const MOST_RECORD_BYTES: usize = 2 * MOST_BLOCK_BYTES;

/// A file has at most this many signals, the annotations signals among them.
pub const MOST_SIGNALS: usize = 640;

/// A file has at most this many ordinary signals: at least one signal is an annotations signal.
pub const MOST_ORDINARY_SIGNALS: usize = MOST_SIGNALS - 1;
