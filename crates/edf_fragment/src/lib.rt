//! Fragments: EDF+ files, read data record by data record from any reader, in whatever pieces the
//! bytes come. No byte is read early, and a fault says where it is.
//!
//! ```rust
//! /// Reads the start of the first data record of a file in memory.
//! fn first_start(alloc: Global, file: &[u8]) -> Result<Option<Instant>, FragmentFault> {
//!     let mut input = Counted::new(file);
//!     let mut reader = FragmentReader::open(alloc, &mut input)?;
//!     match reader.next()? {
//!         Some(record) => Ok(Some(record.start())),
//!         None => Ok(None),
//!     }
//! }
//! ```
//!
//! - [`FragmentReader`] reads a [`Record`] at a time, or returns a [`FragmentFault`].
//! - [`OpenFragment`] does the same, and the caller holds the input; [`Progress`] and
//!   [`ReaderState`] are how far it is.
//! - [`read_fragment`] reads a whole fragment into memory.
//! - [`Input`], [`Output`] are readers and writers that count the calls that failed, and
//!   [`Counted`] is one of any reader or writer of std. [`saturating_increment`] counts one more.
//! - [`Remark`] is the cause of a line of an output.
//! - [`fill`] fills a buffer and returns a [`Filled`], and [`send`] writes all of some bytes.
//! - [`each_parses_to_one`], [`one_fragment`], [`one_fault`], [`no_fault_where_spelled`],
//!   [`records_are_sound`], [`records_so_far`], [`answers_join`], [`known_bytes`] and
//!   [`signals_in_turn`] are laws: functions that do nothing, each with a law for a contract.
#![tactic(auto)]

mod advance;
mod buffers;
mod fault;
mod laws;
mod open_fragment;
mod opening;
mod reader;
mod record;
mod remark;
mod streams;
mod whole;

pub use advance::{Progress, ReaderState};
pub use fault::FragmentFault;
pub use laws::{
    answers_join, each_parses_to_one, known_bytes, no_fault_where_spelled, one_fault, one_fragment,
    records_are_sound, records_so_far, signals_in_turn,
};
pub use open_fragment::OpenFragment;
pub use reader::FragmentReader;
pub use record::Record;
pub use remark::Remark;
pub use streams::{Counted, Filled, Input, Output, fill, saturating_increment, send};
pub use whole::read_fragment;
