//! The limits of the annotations of a data record. No other file has these numbers.

/// The most annotations that a data record has, without the time-keeping one.
pub const MOST_ANNOTATIONS: usize = 10_000;

/// The most bytes that their texts have together.
pub const MOST_TEXT_BYTES: usize = 1_000_000;

/// The most bytes of a canonical TAL beside its text: an onset and a duration with 20 bytes each, a
/// sign, byte 21, byte 20 twice and byte 0.
pub(crate) const MOST_TIMES_BYTES: usize = 45;

/// The most bytes of a canonical block: those of the texts, and of a TAL for each annotation and
/// for the time-keeping one. They are 1,450,045.
pub const MOST_CANONICAL_BLOCK_BYTES: usize = MOST_TEXT_BYTES
    + MOST_TIMES_BYTES * (MOST_ANNOTATIONS + 1);

/// The most samples that a canonical block takes, two bytes each: half of its bytes, rounded up.
pub const MOST_CANONICAL_BLOCK_SAMPLES: u32 = (MOST_CANONICAL_BLOCK_BYTES as u32 + 1) / 2;
