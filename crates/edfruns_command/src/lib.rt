//! The commands of `edfruns`, over any files and writers. Each has a file of its own: its words,
//! its help and its work.
//!
//! - [`read_command`]: the words after the program's name, as a [`RunsCommand`]; help and usage are
//!   written. [`parse`]: the words, read, and nothing else.
//! - [`run_runs`]: one command, over what opens files (`edf_cli`'s `Inputs`) and what makes
//!   them (`edf_cli`' `NewFiles`).
#![tactic(auto)]

mod arguments;
mod canonical_command;
mod compare_command;
mod cut_command;
mod fill_command;
mod instant_word;
mod lines;
mod list_command;
mod making;
mod naming;
mod outline_command;
mod picture_command;
mod refusal;
mod runs_command;
mod sight;
mod signals;
mod split_command;

pub use arguments::{parse, read_command};
pub use runs_command::{RunsCommand, run_runs};
