//! The commands of `edfstore`, over any store, files and writers.
//!
//! ```rust
//! use edf_command::{Inputs, Status, read_command, run};
//! use edf_fragment::Output;
//! use edf_store::Store;
//! use sqlite::Alter;
//! use std::alloc::Global;
//!
//! // Runs a command line over a store that is open. Returns the exit status.
//! pub fn edfstore<S: Alter, I: Inputs, O: Output, F: Output>(
//!     alloc: Global, words: &[String], store: &mut Store<S>, inputs: &mut I,
//!     out: &mut O, err: &mut F,
//! ) -> Status {
//!     match read_command(alloc, words, out, err) {
//!         Ok(command) => run(alloc, &command, store, inputs, out, err),
//!         Err(status) => status,
//!     }
//! }
//! ```
//!
//! - [`read_command`]: parses the words after the program's name, and prints help or usage.
//!   [`parse`]: does not print, and returns an [`Order`] or a [`CommandFault`].
//! - [`run`]: runs a command over its store and what opens files ([`Inputs`]), to a [`Status`].
//! - [`store_path`]: the path of the store that a command names. [`refuse_store`],
//!   [`print_store_not_closed`]: print that it can't be opened, or closed.
//! - [`list`], [`export_place`]: two commands, for a caller that has a store open.
//! - [`refusal_text`], [`refused_file_line`]: the text of a refusal, and its line.
//!   [`print_no_recording`]: prints that no recording has a place.
#![tactic(auto)]

mod command_line;
mod commands;
mod converting;
mod exporting;
mod help;
mod listing;
mod matches;
mod order;
mod program;
mod refusal;
mod running;
mod taking;

pub use command_line::parse;
pub use edf_cli::{CommandFault, Inputs, Status};
pub use exporting::{export_place, print_no_recording};
pub use listing::list;
pub use order::Order;
pub use program::{print_store_not_closed, read_command, refuse_store, store_path};
pub use refusal::refusal_text;
pub use running::run;
pub use taking::refused_file_line;
