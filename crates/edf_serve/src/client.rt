//! Who is answered.

ghost use Rattle.std.specs.Prelude.{◌≡◌, ◌⊎◌, ℕ, true, List, Option, ◌++◌, OnOk, OnErr};
ghost use Rattle.std.specs.List.{flat_map};
ghost use Rattle.edf_fragment.specs.Failures.{saturating_increment};
ghost use Rattle.edf_command.specs.Lines.{accepted_line};
ghost use Rattle.edf_cli.specs.Output.{IsPut, output_change};
ghost use Rattle.edf_cli.specs.declared.status.Status.TheVariants.{Done};
ghost use Rattle.edf_serve.specs.Client.{Heard, GetsAnswer, HasAccepted, IsIdle, status_line};

use edf_cli::{Status, print_parts};
use edf_fragment::Output;
use edf_intake::Receipt;
use edf_store::Store;
use itoa::Buffer;
use sqlite::Alter;
use std::io;

/// Who is answered. An answer goes out only where what it tells is so: that is what its calls
/// require, over the very store that it is about.
pub trait Client {
    // What the client got so far.
    ghost heard: { Self → Heard };

    /// Tells that the file of this name was accepted, and that all was done. The store is as the
    /// submission left it, so it holds the data records that the receipt counts (the law
    /// `taken_is_held`), and no transaction of it is open. `false` where a write failed, and else
    /// all of it is out.
    fn accept<S: Alter>(&mut self, store: &Store<S>, name: &str, receipt: &Receipt) -> bool
        requires idle { IsIdle S.Store store.now }
        requires accepted { HasAccepted S.Store store.now receipt.now }
        ensures { GetsAnswer (heard self.old) (heard self.new) (accepted_line name.now
            receipt.now.new receipt.now.known ++ status_line Done) result };

    /// Tells lines, and why no more of them are told, and the status. No transaction of the store
    /// is open, but after trouble. `false` where a write failed, and else all of it is out.
    fn answer<S: Alter>(
        &mut self,
        store: &Store<S>,
        lines: &[u8],
        why: &[u8],
        status: Status,
    ) -> bool
        requires { IsIdle S.Store store.now ⊎ (status ≡ Status.Trouble) }
        ensures { GetsAnswer (heard self.old) (heard self.new)
            (lines.now ++ (why.now ++ status_line status)) result };
}

/// A writer that may keep what it got back until it is flushed.
pub trait Flush: Output {
    // How much of what it holds was sent out, where that is known.
    ghost sent: { Self → Option (List ℕ) };

    /// Sends out what was kept back.
    ///
    /// # Errors
    /// Where that failed, which counts as a failed write.
    fn flush(&mut self) -> io::Result<()>
        ensures contents { Self.contents self.new ≡ Self.contents self.old }
        ensures sent { OnOk result (sent self.new ≡ Self.contents self.new) }
        ensures failed { OnErr result
            (Self.failures self.new ≡ saturating_increment (Self.failures self.old)) }
        ensures done { OnOk result (Self.failures self.new ≡ Self.failures self.old) };
}

/// A client that reads what a writer sends out.
#[derive(Drop)]
pub struct Console<W> {
    pub(crate) out: W,
}

impl<W: Flush> Console<W> {
    /// A client that reads what the writer sends out.
    pub fn new(out: W) -> Console<W>
        ensures { result.out ≡ out }
    {
        Console { out }
    }
}

/// Writes the parts of an answer and flushes them. `false` where that failed.
fn send<W: Flush>(out: &mut W, parts: &[&[u8]]) -> bool
    ensures put { IsPut (output_change W.Output out.old out.new)
        (flat_map (λ part. part.now) parts.now)
        result }
    ensures sent { result ≡ true → W.sent out.new ≡ W.contents out.new }
{
    if print_parts(out, parts, Status::Done) != Status::Done {
        return false;
    }
    match out.flush() {
        Ok(()) => true,
        Err(_) => false,
    }
}

impl<W: Flush> Client for Console<W> {
    ghost heard = { λ client. record {
      contents = W.Output.contents client.out;
      sent = W.Flush.sent client.out;
      failed = W.Output.failures client.out;
    } };

    fn accept<S: Alter>(&mut self, _store: &Store<S>, name: &str, receipt: &Receipt) -> bool {
        let mut new = Buffer::new();
        let mut known = Buffer::new();
        let mut code = Buffer::new();
        let new = new.format(receipt.new);
        let known = known.format(receipt.known);
        let code = code.format(Status::Done.code());
        let parts = [
            name.as_bytes(),
            b" accepted new=".as_slice(),
            new.as_bytes(),
            b" known=",
            known.as_bytes(),
            b"\n",
            b"status ",
            code.as_bytes(),
            b"\n",
        ];
        send(&mut self.out, &parts)
    }

    fn answer<S: Alter>(
        &mut self,
        _store: &Store<S>,
        lines: &[u8],
        why: &[u8],
        status: Status,
    ) -> bool {
        let mut buffer = Buffer::new();
        let digits = buffer.format(status.code());
        let parts = [lines, why, b"status ".as_slice(), digits.as_bytes(), b"\n"];
        send(&mut self.out, &parts)
    }
}
