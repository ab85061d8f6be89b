//! What a session has beside its store, and what comes of a command.

ghost use Rattle.std.specs.Prelude.{◌≡◌};
ghost use Rattle.edf_cli.specs.declared.status.Status;
ghost use Rattle.edf_serve.specs.Work.{WentAs};

use crate::client::Client;
use crate::files::Sources;
use crate::standing::StoreFiles;
use crate::text::Text;
use edf_cli::Status;
use edf_intake::Receipt;
use std::alloc::Global;

/// What a session has beside its store and its lines: what opens files, who is answered, and what
/// tells whether the store's files stand.
#[derive(Drop)]
pub struct Room<I, C, K> {
    pub(crate) sources: I,
    pub(crate) client: C,
    pub(crate) keeper: K,
    /// The lines of a command.
    pub(crate) out: Text,
    /// Why there are no more of them.
    pub(crate) why: Text,
    /// The worst status so far.
    pub(crate) worst: Status,
}

impl<I: Sources, C: Client, K: StoreFiles> Room<I, C, K> {
    /// As a session begins.
    pub fn new(alloc: Global, sources: I, client: C, keeper: K) -> Room<I, C, K>
        ensures sources { result.sources ≡ sources }
        ensures client { result.client ≡ client }
        ensures keeper { result.keeper ≡ keeper }
        ensures worst { result.worst ≡ Status.Done }
    {
        Room {
            sources,
            client,
            keeper,
            out: Text::new(alloc),
            why: Text::new(alloc),
            worst: Status::Done,
        }
    }
}

/// What came of a line's command, before anything of it goes out.
#[derive(Drop)]
pub(crate) enum Outcome<'l> {
    /// The file of that name was accepted.
    Accepted {
        /// The name.
        name: &'l str,
        /// What was accepted.
        receipt: Receipt,
    },
    /// All else, whose lines are written.
    Told {
        /// How it went.
        status: Status,
        /// Whether memory ran out or the store refused, so that no further line is answered.
        is_stopped: bool,
    },
}

impl Outcome<'_> {
    /// What comes of a command that submitted nothing and went so: with trouble there is no memory,
    /// or the store refused.
    pub(crate) fn went<'l>(status: Status) -> Outcome<'l>
        ensures { WentAs result status }
    {
        Outcome::Told {
            status,
            is_stopped: status == Status::Trouble,
        }
    }
}
