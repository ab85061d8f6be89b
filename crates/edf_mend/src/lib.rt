//! A lenient reader of files that are almost EDF+, and the canonical file of what it reads.
//!
//! ```rust
//! /// Mends a file that is read twice.
//! fn mend<R: Input, W: Output>(
//!     alloc: Global,
//!     first: &mut R,
//!     second: &mut R,
//!     wanted: &Wanted,
//!     out: &mut W,
//! ) -> Result<Mended, MendFault> {
//!     let measure = measure(alloc, first, wanted)?;
//!     write_mended(alloc, second, wanted, &measure, out)
//! }
//! ```
//!
//! - [`measure`] reads a file, of which a person says what [`Wanted`] has, and returns the measure
//!   of its data records.
//! - [`write_mended`] reads it again and writes the canonical file. It returns what differs in the
//!   header as [`Change`]s; a [`MendFault`] says why a file is not mended.
//! - [`laws`] says what a person who sends a file may rely on.
#![tactic(auto)]

mod block;
mod changes;
mod columns;
mod fault;
mod header;
pub mod laws;
mod letters;
mod mark;
mod mending;
mod number;
mod opening;
mod patient;
mod reading;
mod record;
mod recording;
mod signal;
mod start;
mod texts;
mod wanted;

pub use changes::Change;
pub use fault::MendFault;
pub use mending::{Mended, measure, write_mended};
pub use wanted::{Code, Wanted, Who};
