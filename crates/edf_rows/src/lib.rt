//! The rows of a store's two tables represent holdings. A row of `recording` is an id and the bytes
//! of an identity; a row of `record` is the id of its recording, its start in nanoseconds from
//! 1985-01-01 00:00:00, its samples, and its annotations as a block with onsets from that moment.
//!
//! ```rust
//! use edf_rows::audit;
//! use sqlite::{Alter, Connection, Error};
//! use std::alloc::Global;
//!
//! /// Says of which file the connection is, and makes missing tables in one of ours.
//! pub fn owner<S: Alter>(alloc: Global, conn: &mut Connection<S>) -> Result<&'static str, Error> {
//!     let is_ours = audit(alloc, conn, 900_000)?;
//!     Ok(if is_ours { "a store's" } else { "another's" })
//! }
//! ```
//!
//! - [`check_row`]: returns a row's start, if the cells are those of a data record.
//! - [`record_from`]: returns the data record of a row's samples and block.
//! - [`block_of`], [`start_of`]: return the cells of a data record.
//! - [`audit`]: makes missing tables, and returns true where submissions can make the file.
//! - [`laws`]: rows represent at most one sound holdings, and are not foreign then.
#![tactic(auto)]

mod all;
mod cells;
mod check;
pub mod laws;
mod open;
mod records;

pub use cells::{block_of, check_row, record_from, start_of};
pub use open::audit;
