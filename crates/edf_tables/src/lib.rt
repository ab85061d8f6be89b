//! A store of recordings has two tables: `recording` with an id and the bytes of an identity, and
//! `record` with the id of its recording, a start, samples and a block. Each function here runs one
//! SQL text over any store that `sqlite` takes, or compares a schema with that of the two tables.
//!
//! ```rust
//! use edf_tables::{count_rows, has_both, select_recording};
//! use sqlite::{Alter, Connection, Error};
//!
//! /// Counts the data records of the recording with this identity.
//! pub fn count_of<S: Alter>(conn: &mut Connection<S>, identity: &[u8]) -> Result<u64, Error> {
//!     if !has_both(conn.schema()) {
//!         return Ok(0);
//!     }
//!     match select_recording(conn, identity)? {
//!         Some(recording) => count_rows(conn, recording),
//!         None => Ok(0),
//!     }
//! }
//! ```
//!
//! - [`is_ours`], [`has_both`]: test that a store may have this schema, or that it has both tables.
//! - [`create_tables`]: makes the tables that are missing.
//! - [`begin`], [`commit`], [`roll_back`]: begin and end a transaction.
//! - [`insert_recording`], [`insert_record`]: add a row.
//! - [`near_rows`], [`page_rows`]: read records of one recording, each a [`RecordRow`].
//! - [`count_rows`], [`first_start`], [`next_start`], [`last_start`]: read their number and starts.
//! - [`select_recording`], [`identities`], [`recordings`]: find one recording, or list all.
//! - [`count_all_rows`]: counts all records. No count is above [`MOST_COUNTED`].
//!
//! `sqlite` refuses a statement where memory runs out, the disk fails, or the connection is closed;
//! some also at a limit of steps, by a rule of the tables, or for the size of a row.
#![tactic(auto)]

mod create;
mod list;
mod records;
mod row;
mod schema;
mod table;
mod transaction;
mod write;

pub use create::create_tables;
pub use list::{count_all_rows, identities, recordings, select_recording};
pub use records::{count_rows, first_start, last_start, near_rows, next_start, page_rows};
pub use row::{MOST_COUNTED, RecordRow};
pub use schema::{has_both, is_ours};
pub use transaction::{begin, commit, roll_back};
pub use write::{insert_record, insert_recording};
