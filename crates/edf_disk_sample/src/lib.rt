//! Disks in memory that outlive what is opened over them and may stop, and a night of three files:
//! for tests.
//!
//! - [`lend`], [`stopping`], [`Lent`], [`Lendable`]: a log and a database file that are lent.
//! - [`three_files`], [`q_and_p5`], [`Night`]: three files of one recording, and its canonical file
//!   after each.
//!
//! It promises safety alone: what a test expects is spelled by hand.
#![tactic(auto)]

mod disk;
mod small_night;

pub use disk::{Lendable, Lent, lend, stopping};
pub use small_night::{Night, q_and_p5, three_files};
