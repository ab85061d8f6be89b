//! Header fields have texts: numbers, durations, and the identifications of EDF+.
//!
//! ```rust
//! use edf_field::{read_duration, read_whole};
//!
//! /// Returns the nanoseconds of all data records, from two fields of a header.
//! fn length(data_records: &[u8; 8], duration: &[u8; 8]) -> Option<u64> {
//!     let data_records = read_whole(data_records)?;
//!     read_duration(duration)?.checked_mul(u64::from(data_records))
//! }
//! ```
//!
//! - [`read_whole`], [`read_signed`], [`read_duration`], [`MOST_DURATION`]: numbers and durations.
//! - [`physical_values_differ`]: a physical minimum and maximum. [`nearest_to_zero`]: the digital
//!   value that stands for the physical value nearest to 0.
//! - [`split_digits`], [`without_sign`]: the digits that a text begins with; a number without its
//!   sign. [`spaces_len`], [`are_spaces`]: the spaces before and after a text.
//! - [`next_subfield`]: the subfields of an identification, one after the other.
//! - [`is_patient`], [`patient_fault`], [`PatientFault`]: the patient identification.
//! - [`read_recording`], [`follows_startdate`], [`RecordingFault`]: the recording identification.
//! - [`laws`], [`laws_grammar`]: each function states a law of these texts and does nothing.
#![tactic(auto)]

mod fault;
mod identification;
pub mod laws;
pub mod laws_grammar;
mod number;
mod physical;

pub use fault::{PatientFault, RecordingFault};
pub use identification::{
    follows_startdate, is_patient, next_subfield, patient_fault, read_recording, spaces_len,
};
pub use number::{
    MOST_DURATION, are_spaces, read_duration, read_signed, read_whole, split_digits, without_sign,
};
pub use physical::{nearest_to_zero, physical_values_differ};
