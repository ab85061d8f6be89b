//! Recordings hold data records, key by key; a submission adds the data records of a file, or is
//! refused. Here are the definitions, their laws, and the test for a clash of two data records.
//!
//! ```rust
//! use edf_fragment::Record;
//! use edf_holdings::{Clash, clash};
//!
//! /// Says why a recording that has `stored` refuses `record`, if it does. Both last a second.
//! pub fn reason(record: &Record, stored: &Record) -> Option<&'static str> {
//!     match clash(record, stored, 1_000_000_000) {
//!         Some(Clash::Overlap) => Some("it overlaps a stored data record"),
//!         Some(Clash::Differs) => Some("another data record begins then"),
//!         None => None,
//!     }
//! }
//! ```
//!
//! - [`clash`]: returns how two data records of one recording clash, if they do.
//! - [`laws`]: repeats add nothing, and lists without conflicts may be reordered and cut anew.
//! - [`meaning`]: the definitions in the words of sets.
#![tactic(auto)]

mod intervals;
mod kind; // apart, since one module can't have both `Clash` and `clash`
pub mod laws;
pub mod meaning;

pub use intervals::clash;
pub use kind::Clash;
