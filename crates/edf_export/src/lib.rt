//! The canonical EDF+D file of a recording, written from the store with one data record in memory.
//!
//! ```rust
//! use edf_export::{ExportFault, export};
//! use edf_fragment::Output;
//! use edf_store::Store;
//! use sqlite::MemStore;
//! use std::alloc::Global;
//!
//! // Exports the first recording of a store. Returns the length of its file.
//! pub fn export_first<W: Output>(
//!     alloc: Global,
//!     store: &mut Store<MemStore>,
//!     out: &mut W,
//! ) -> Result<u64, ExportFault> {
//!     let identities = store.identities()?;
//!     let first = identities.first().ok_or(ExportFault::NoRecording)?;
//!     export(alloc, store, first, out)
//! }
//! ```
//!
//! - [`export`]: writes the file of what is held under an identity.
//! - [`ExportFault`]: a recording is not exported, or not to its end.
//! - [`laws`]: the headline; an export is a fragment, and is accepted again.
#![tactic(auto)]

mod fault;
pub mod laws;
mod planning;
mod recording;
mod walked;
mod writing;

pub use fault::ExportFault;
pub use recording::export;
