//! What a session tells of its store on standard error, where a service's journal reads it.

ghost use Rattle.std.specs.Prelude.{◌≡◌, ◌⊎◌, None};
ghost use Rattle.edf_cli.specs.declared.status.Status.TheVariants.{Trouble};

use edf_command::{Status, print_store_not_closed};
use edf_fragment::Output;
use edf_os::Terminal;
use edf_store::StoreFault;
use edfstore_files::{EndedRun, Watch};
use edfstore_open::{Refused, Standing, print_cause, print_failure_of, print_lost};
use sqlite_std_file::File;

/// Tells how the opening of a store went, and its close.
#[derive(Drop)]
pub(crate) struct Journal<'s> {
    rt: &'s HostRuntime,
    terminal: Terminal<'s>,
    /// A person's, which is told what a journal need not keep.
    person: Terminal<'s>,
    standing: &'s Standing<'s>,
    refused: Option<Refused>,
}

impl<'s> Journal<'s> {
    pub(crate) fn new(rt: &'s HostRuntime, standing: &'s Standing<'s>) -> Journal<'s> {
        Journal {
            rt,
            terminal: Terminal::journal(rt),
            person: Terminal::new(rt, "file", 0),
            standing,
            refused: None,
        }
    }

    /// Tells why the store was refused, if it was.
    pub(crate) fn print_refusal(&self) {
        if self.standing.is_lost() {
            return print_lost(&self.terminal, self.standing.path());
        }
        if let Some(refused) = &self.refused {
            print_cause(self.rt, &self.terminal, self.standing.path(), refused);
        }
    }

    /// Tells how a session ended whose files were opened, and its status.
    pub(crate) fn print_ended<F: Output>(&self, session: &EndedRun<File>, err: &mut F) -> Status
        ensures { (result ≡ session.now.status) ⊎ (result ≡ Trouble) }
    {
        if self.refused.is_none() {
            return self.tell_close(session, err);
        }
        self.print_refusal();
        session.status
    }

    /// Tells why the store was not closed, if it was not; and how the session ends: with trouble,
    /// where its files were lost.
    fn tell_close<F: Output>(&self, session: &EndedRun<File>, err: &mut F) -> Status
        ensures { (result ≡ session.now.status) ⊎ (result ≡ Trouble) }
    {
        if !self.standing.has_stood() {
            if session.failure.is_none() {
                print_store_not_closed(&StoreFault::Store(None), err);
            }
            print_lost(&self.terminal, self.standing.path());
            return Status::Trouble;
        }
        if session.failure.is_some() {
            print_failure_of(self.rt, &self.terminal, self.standing.path(), session);
        }
        session.status
    }
}

impl Watch for Journal<'_> {
    ghost noticed = { λ _. None };

    fn opened<O: Output>(&mut self, _out: &O) {
        self.standing.print_made(&self.person);
    }

    fn refused(&mut self, fault: &StoreFault, has_our_tables: bool) {
        self.refused = Some(Refused {
            fault: *fault,
            has_our_tables,
        });
    }
}
