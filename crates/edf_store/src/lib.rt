//! A store has recordings in two tables of a connection. It is opened over the connection, reads
//! what is held, and adds data records in transactions.
//!
//! ```rust
//! use edf_header::Identity;
//! use edf_store::{Store, StoreFault, Summary};
//! use sqlite::Connection;
//! use std::alloc::Global;
//!
//! /// Makes a store in memory and summarizes what it has of an identity: nothing.
//! pub fn summary(alloc: Global, identity: &Identity) -> Result<Option<Summary>, StoreFault> {
//!     let conn = Connection::open_in_memory(alloc).map_err(|_| StoreFault::Memory)?;
//!     let mut store = Store::open(alloc, conn, 900_000)?;
//!     store.summary(identity)
//! }
//! ```
//!
//! - [`Store`]: `open` makes one; `identities`, `summary` and `records` read what is held;
//!   `transaction` begins to add.
//! - [`StoreTx`]: `recording` finds or makes a recording, `near`, `next_start`, `has_capacity` and
//!   `count` read of it, `add` adds to it; `commit` or `give_up` ends the transaction.
//! - [`Records`]: yields the data records of one recording, one at a time.
//! - [`Summary`]: is the count, the first and the last start of a recording's data records.
//! - [`StoreFault`]: says why a call was refused.
//! - [`laws`]: the disk of a store in memory is always clean.
#![tactic(auto)]

mod adding;
mod cursor;
mod decode;
mod ending;
mod fault;
pub mod laws;
mod reading;
mod ready;
mod records;
mod store;
mod summaries;
mod transaction;

pub use fault::StoreFault;
pub use records::Records;
pub use store::Store;
pub use summaries::Summary;
pub use transaction::{RecordingId, StoreTx};
