//! The canonical EDF+D file of data records: its definition, and a writer through a buffer.
//!
//! ```rust
//! /// Writes some bytes through a buffer.
//! fn write_parts<W: Output>(alloc: Global, out: &mut W) -> Result<(), OutputFault> {
//!     let mut held = Buffer::new(alloc);
//!     put(out, &mut held, b"header")?;
//!     put(out, &mut held, b"records")?;
//!     flush(out, &mut held)
//! }
//! ```
//!
//! - [`send`] writes a file by its [`FilePlan`]: the data records that a [`Source`] returns, which
//!   must be those of a [`Measure`]. A [`SendFault`] says why they were not written.
//! - [`samples_of`] returns how many samples the block of a data record takes there.
//! - [`Buffer`] holds up to 256 KiB beside a writer; [`put`] and [`flush`] write through it, and an
//!   [`OutputFault`] says why they could not.
//! - [`laws`] says that sound data records have one canonical file, which parses to them.
#![tactic(auto)]

mod data_record;
mod fault;
pub mod laws;
mod measure;
mod output;
mod plan;
mod sending;
mod source;

pub use data_record::samples_of;
pub use fault::{OutputFault, SendFault};
pub use measure::Measure;
pub use output::{Buffer, flush, put};
pub use plan::FilePlan;
pub use sending::send;
pub use source::Source;
