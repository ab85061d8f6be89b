//! The intake of recordings: a file is accepted whole, or refused and nothing of it is added.
//!
//! ```rust
//! use edf_fragment::Counted;
//! use edf_intake::{Refusal, submit};
//! use edf_store::Store;
//! use sqlite::MemStore;
//! use std::alloc::Global;
//!
//! // Submits the bytes of a file. Returns how many of its data records were added.
//! pub fn add(alloc: Global, store: &mut Store<MemStore>, bytes: &[u8]) -> Result<u32, Refusal> {
//!     let receipt = submit(alloc, store, &mut Counted::new(bytes))?;
//!     Ok(receipt.new)
//! }
//! ```
//!
//! - [`submit`]: one fragment, read record by record in one transaction of a store.
//! - [`submit_all`]: a list of them, each in turn, also after refused ones.
//! - [`Receipt`], [`Refusal`]: the answer to an accepted and to a refused fragment.
//! - [`clash`], [`Clash`]: whether two data records of one recording clash, and how.
//! - [`laws`]: laws about lists of submissions, as contracts of functions that do nothing.
#![tactic(auto)]

mod answer;
mod data_records;
mod fragment;
mod gap;
pub mod laws;
mod submission;

pub use answer::{Receipt, Refusal};
pub use edf_holdings::{Clash, clash};
pub use submission::{submit, submit_all};
