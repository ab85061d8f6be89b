//! A run of a command over the two files of a store, and the laws of many runs.
//!
//! ```rust
//! /// Runs a command over the store at a path, and returns the status.
//! fn run_at<I: Inputs, O: Output, F: Output, W: Watch>(
//!     rt: &HostRuntime,
//!     path: &str,
//!     command: &Order,
//!     inputs: &mut I,
//!     outputs: &mut Outputs<O, F, W>,
//! ) -> Status {
//!     let opened = open_path(rt, path, None, Unknown);
//!     match run_opened(rt.alloc(), opened, Cap::most(), command, inputs, outputs) {
//!         Ok(run) => run.status,
//!         Err((status, _rest)) => status,
//!     }
//! }
//! ```
//!
//! - [`open_path`] opens the files at a path, [`run_opened`] runs a command over them and closes
//!   them; its result is an [`EndedRun`].
//! - [`close`] and [`leave`] close or release the files of a session; [`refuse`] prints that one
//!   is refused.
//! - [`Cap`] is the most data records of a recording. [`Outputs`] have a [`Watch`], which is
//!   notified of the opening.
//! - [`laws`] states what the files hold after many runs and sessions.
#![tactic(auto)]

mod cap;
pub mod laws;
mod opened;
mod path;
mod session;
mod watch;

pub use cap::Cap;
pub use opened::run_opened;
pub use path::open_path;
pub use session::{EndedRun, close, leave};
pub use watch::{Outputs, Watch, refuse};
