//! Small EDF+ files, built field by field in the standard's words, and streams that come in pieces
//! and fail: for tests.
//!
//! - [`Header`], [`Signal`], [`q`], [`file`]: the header of a file, of one EEG signal and one
//!   annotations signal or of a list of signals, and the file's bytes.
//! - [`named`]: small named files.
//! - [`Source`], [`StopsOnce`], [`Sink`]: readers that give their bytes in pieces and fail, and a
//!   writer that takes its bytes in pieces and fails.
//! - [`Scarce`]: a machine whose memory runs out.
//!
//! It promises safety alone: what a test expects is spelled in the test.
#![tactic(auto)]

mod files;
pub mod named;
mod scarce;
mod streams;

pub use files::{Header, Signal, file, patched, q};
pub use scarce::Scarce;
pub use streams::{Sink, Source, StopsOnce};
