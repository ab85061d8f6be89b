//! The command of `edfmend`, over any files and writers.
//!
//! - [`read_command`]: the words after the program's name, as a [`MendCommand`]; help and usage are
//!   written. [`parse`]: the words, read, and nothing else. [`command_of`]: the same of the values
//!   of words ([`MendValues`]).
//! - [`run_mend`]: the command, over what opens files (`edf_cli`'s `Inputs`) and what makes
//!   them (`edf_cli`'s `NewFiles`).
#![tactic(auto)]

mod arguments;
mod lines;
mod mend_command;
mod planning;
mod refusal;

pub use arguments::{MendValues, command_of, parse, read_command};
pub use mend_command::{MendCommand, run_mend};
