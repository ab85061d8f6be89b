//! What the programs share that needs no operating system: exit statuses, readers and new files by
//! name, printed lines, and faults of command lines. It has no store and opens no file.
//!
//! ```rust
//! use edf_cli::{Inputs, Status, print_memory, print_parts};
//! use edf_fragment::Output;
//! use std::alloc::Global;
//!
//! // Opens a file by its name, and prints that it did.
//! pub fn try_open<I: Inputs, O: Output>(alloc: Global, inputs: &mut I, out: &mut O) -> Status {
//!     let Ok(_reader) = inputs.open(alloc, "night.edf") else {
//!         return print_memory(out, "night.edf");
//!     };
//!     print_parts(out, &[b"night.edf".as_slice(), b" is open\n"], Status::Done)
//! }
//! ```
//!
//! - [`Status`]: the exit status of a command. [`status_of_number`]: by a refusal's number.
//!   [`worse`]: the worse of two.
//! - [`Inputs`]: opens a reader for each name.
//! - [`NewFiles`]: makes new files, and never touches what was there. [`FileStage`]: the stage of a
//!   file. [`Unfinished`]: it did not get its name. [`MadeFiles`]: a list of such files.
//! - [`put_line`], [`put_parts`]: write a line, and are true if it was written whole.
//!   [`print_text`], [`print_bytes`], [`print_parts`], [`print_line`]: return a status instead.
//! - [`print_refused`], [`print_memory`], [`print_name_taken`]: print the line of a refusal.
//! - [`concat`], [`spelled`], [`fragment_fault_text`], [`fragment_details`]: return the text of
//!   parts, of an instant, of a fragment's fault and of its details.
//! - [`CommandFault`]: a command line asks for nothing. [`fault_by`], [`refuse_value`]: make one.
//!   [`print_fault`]: prints it. [`VERSION`]: the version of all programs.
#![tactic(auto)]

mod inputs;
mod made_files;
mod new_files;
mod output;
mod status;
mod text;
mod words;

pub use inputs::Inputs;
pub use made_files::MadeFiles;
pub use new_files::{FileStage, NewFiles, Unfinished};
pub use output::{print_bytes, print_line, print_parts, print_text, put_line, put_parts};
pub use status::{Status, status_of_number, worse};
pub use text::{
    concat, fragment_details, fragment_fault_text, print_memory, print_name_taken, print_refused,
    spelled,
};
pub use words::{CommandFault, VERSION, fault_by, print_fault, refuse_value};
