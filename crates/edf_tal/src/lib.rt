//! The annotations of a data record, in blocks of time-stamped annotations lists, TALs for short
//! (EDF+). A block is what an annotations signal has in the data record.
//!
//! ```rust
//! /// Writes the canonical form of a data record's one annotations block.
//! fn rewrite(alloc: Global, block: &[u8], file_start: Instant) -> Result<Vec<u8>, TalFault> {
//!     let (start, notes) = read_block(alloc, block, file_start, Place::Any)?;
//!     match write_block(alloc, start, notes.as_slice(), file_start) {
//!         Ok(text) => Ok(text),
//!         Err(_) => Err(TalFault::Memory),
//!     }
//! }
//! ```
//!
//! - [`read_blocks`], [`read_block`] read a start and a list of [`Note`]s, or a [`TalFault`].
//! - [`Place`] says where the data record is in its fragment.
//! - [`write_block`] writes a canonical block, and [`block_len`] returns its length.
//! - [`same_notes`] compares two lists.
//! - [`MOST_ANNOTATIONS`] and the other constants limit a data record and its canonical block.
//! - [`laws`] says that blocks have one answer, and that a written block parses to its source.
#![tactic(auto)]

mod blocks;
mod check;
pub mod laws;
mod limits;
mod note;
mod place;
mod read;
mod scan;
mod survey;
mod write;

pub use limits::{
    MOST_ANNOTATIONS, MOST_CANONICAL_BLOCK_BYTES, MOST_CANONICAL_BLOCK_SAMPLES, MOST_TEXT_BYTES,
};
pub use note::Note;
pub use place::{Place, TalFault};
pub use read::{read_block, read_blocks};
pub use write::{block_len, same_notes, write_block};
