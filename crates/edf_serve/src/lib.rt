//! Commands over one open store, line by line: any store, any input, any files, any client; and a
//! session of them over the two files of a store.
//!
//! - [`serve_opened`]: a session over files that were opened for it.
//! - [`serve`], [`End`]: line after line, and why a session ends; [`Lines`]: the lines of an input.
//! - [`Room`]: what commands work on beside the store: [`Sources`] opens the files that `take`
//!   names.
//! - [`Client`], [`Console`], [`Flush`]: who is answered.
//! - [`StoreFiles`]: what tells whether the files of the store still stand under its path.
//! - [`ServeWords`], [`parse_words`]: the words after the program's name.
//! - [`laws`]: of what is answered, and of a session that is begun again.
#![tactic(auto)]

mod answering;
mod client;
mod files;
pub mod laws;
mod line;
mod lines;
mod opened;
mod over;
mod places;
mod room;
mod session;
mod standing;
mod taking;
mod text;
mod words;

pub use answering::End;
pub use client::{Client, Console, Flush};
pub use files::Sources;
pub use lines::Lines;
pub use opened::serve_opened;
pub use room::Room;
pub use session::serve;
pub use standing::StoreFiles;
pub use words::{ServeWords, parse_words};
