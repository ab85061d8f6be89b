//! The system for all programs: words, files that are read or made, streams, and the terminal.
//!
//! ```rust
//! /// Writes the first bytes of a file to standard output.
//! fn show(rt: &HostRuntime, name: &str) -> Result<Status, AllocError> {
//!     let terminal = Terminal::new(rt, "file", 1);
//!     let mut streams = Streams::new(rt, &terminal);
//!     let mut reader = Files::new(rt, &terminal).open(rt.alloc(), name)?;
//!     let mut head = [0; 256];
//!     Ok(match reader.read(&mut head) {
//!         Ok(count) => print_bytes(&mut streams.out, &head[..count], Status::Done),
//!         Err(_) => Status::Trouble,
//!     })
//! }
//! ```
//!
//! - [`run_program`] and [`run_words`] run a [`Program`] by the words after its name; [`words`] and
//!   [`refuse_words`] are for another.
//! - [`Files`] opens files and standard input for a [`FileReader`]; [`PartFiles`] makes a
//!   [`NewFile`], and writes over none.
//! - [`Streams`] are standard output and standard error, [`Escaping`] ones, as [`standard_output`]
//!   and [`standard_error`] are; [`refuse_terminal`] is for a command that writes a file.
//! - [`Terminal`] shows a person progress and messages, and [`Clearing`] is a stream beside it.
//!   [`print_system_error`] and [`FULL`] are causes.
#![tactic(auto)]

mod advice;
mod cause;
mod clearing;
mod escaping;
mod explain;
mod files;
mod new_files;
mod parts;
mod program;
mod streams;
mod terminal;

pub use cause::{FULL, print_system_error};
pub use clearing::Clearing;
pub use escaping::Escaping;
pub use files::{FileReader, Files};
pub use new_files::PartFiles;
pub use parts::NewFile;
pub use program::{Program, run_program, run_words};
pub use streams::{Streams, refuse_terminal, refuse_words, standard_error, standard_output, words};
pub use terminal::Terminal;
