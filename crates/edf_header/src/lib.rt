//! EDF+ files have a header, and their recording has an identity.
//!
//! ```rust
//! use edf_header::{Header, HeaderFault, read_fixed, read_signals};
//! use std::alloc::Global;
//!
//! /// Reads the header of a file in memory.
//! fn header_of(alloc: Global, file: &[u8]) -> Result<Header, HeaderFault> {
//!     let Some(bytes) = file.first_chunk::<256>() else {
//!         return Err(HeaderFault::Cut);
//!     };
//!     let fixed = read_fixed(bytes)?;
//!     let end = (256 + 256 * fixed.signals()).min(file.len());
//!     read_signals(alloc, fixed, &file[256..end])
//! }
//! ```
//!
//! - [`read_fixed`], [`Fixed`]: the fixed part, 256 bytes, or the first of E2 to E13.
//! - [`read_signals`], [`Header`], [`Block`]: the signal part, or the first of E14 to E20;
//!   [`signal_row`]: one of its signals, in a row.
//! - [`HeaderFault`]: the faults E1 to E20; [`format_of`], [`Format`]: ZIP, SQLite and their like.
//! - [`Identity`], [`IdentityFault`]: to which recording a file belongs, to bytes and from bytes.
//! - [`write_header`]: the one header that a canonical file has.
//! - [`MOST_RECORDS`], [`MOST_SIGNALS`], [`MOST_BLOCK_BYTES`] and their like: the limits of a file.
//! - [`laws`], [`laws_canonical`]: a header says one thing, and what is written is read again.
#![tactic(auto)]

mod canonical;
mod columns;
mod fault;
mod fields;
mod fixed;
mod fixed_fields;
mod flat;
mod format;
mod header;
mod header_signals;
mod identity;
mod identity_checks;
pub mod laws;
pub mod laws_canonical;
mod limits;
mod signal_checks;
mod signals;

pub use canonical::write_header;
pub use columns::signal_row;
pub use fault::HeaderFault;
pub use fixed::{Fixed, read_fixed};
pub use format::{Format, format_of};
pub use header::{Block, Header};
pub use identity::{Identity, IdentityFault, push_dated};
pub use limits::{
    MOST_BLOCK_BYTES, MOST_BLOCK_SAMPLES, MOST_ORDINARY_SIGNALS, MOST_RECORD_BYTES, MOST_RECORDS,
    MOST_SIGNALS,
};
pub use signals::read_signals;
