//! One line, answered.

ghost use Rattle.std.specs.Prelude.{◌≡◌, ◌⊎◌, Option, Some, None, false, cond, option_map};
ghost use Rattle.edf_command.specs.Listing.{AreRecordingsListed};
ghost use Rattle.edf_store.specs.Held.{at};
ghost use Rattle.edf_serve.specs.Client.{IsIdle, Looks, looked};
ghost use Rattle.edf_serve.specs.Exchange.{Exchange, IsAfterTold, IsWorked, IsServed};
ghost use Rattle.edf_serve.specs.Exchange.{TellsLines, TellsLost};
ghost use Rattle.edf_serve.specs.Line.{asked_by};
ghost use Rattle.edf_serve.specs.Work.{EndsAs, Submission, Work, point, grown};

use crate::client::Client;
use crate::files::Sources;
use crate::line::{LONGEST_LINE, LineCommand, parse_line};
use crate::room::{Outcome, Room};
use crate::standing::StoreFiles;
use crate::taking::take;
use edf_cli::{Status, print_bytes, print_refused};
use edf_command::list;
use edf_store::{Store, StoreFault};
use sqlite::Alter;
use std::alloc::Global;

/// Why a session ends.
#[derive(Clone, Copy, Debug, PartialEq, Eq, Drop)]
pub enum End {
    /// The input ended.
    Ended,
    /// A line had more bytes than a line may have.
    TooLong,
    /// A read of the input failed.
    Unread,
    /// An answer could not be written.
    Unwritten,
    /// Memory ran out or the store refused, or as many lines were answered as can be counted.
    Stopped,
    /// The path of the store does not stand for its files any more.
    Lost,
}

/// What came of a line, once it was answered.
#[derive(Clone, Copy, Debug, PartialEq, Eq, Drop)]
pub(crate) struct Answered {
    /// How its command went.
    pub(crate) status: Status,
    /// Why the session ends after it, if it does.
    pub(crate) after: Option<End>,
}

impl Answered {
    /// The same where all of the answer is out, else the end of the session.
    fn if_out(self, is_out: bool) -> Answered
        ensures { result ≡ record {
          status = self.status;
          after = cond is_out self.after (Some End.Unwritten);
        } }
    {
        if is_out {
            return self;
        }
        Answered {
            status: self.status,
            after: Some(End::Unwritten),
        }
    }
}

/// Lists the recordings, as `edfstore list` does.
fn list_all<'l, S: Alter, I: Sources, C: Client, K: StoreFiles>(
    alloc: Global,
    store: &mut Store<S>,
    room: &mut Room<I, C, K>,
) -> Outcome<'l>
    ensures listed { (let w : Work S = record {
      old = point I.Sources C.Client K.StoreFiles store.old room.old;
      new = point I.Sources C.Client K.StoreFiles store.new room.new;
      submission = None;
      outcome = result;
    } in
        (w.new ≡ record w.old { store = w.new.store; out = w.new.out; why = w.new.why })
        × EndsAs w (AreRecordingsListed S.Store store.old store.new (grown w.old.out w.new.out)
        (grown w.old.why w.new.why))) }
    ensures cap { store.new.cap ≡ store.old.cap }
{
    Outcome::went(list(alloc, store, &mut room.out, &mut room.why))
}

/// Does what a line asks for, and writes its lines, and why there are no more of them.
fn work<'l, S: Alter, I: Sources, C: Client, K: StoreFiles>(
    alloc: Global,
    asked: Option<LineCommand<'l>>,
    folder: Option<&str>,
    store: &mut Store<S>,
    room: &mut Room<I, C, K>,
) -> Outcome<'l>
    ensures worked { (submission : Option Submission) × IsWorked S.Store
        (option_map (λ f. f.now) folder.entry)
        (record {
          old = point I.Sources C.Client K.StoreFiles store.old room.old;
          new = point I.Sources C.Client K.StoreFiles store.new room.new;
          submission = submission;
          outcome = result;
        }) (option_map asked_by asked.entry) }
    ensures cap { store.new.cap ≡ store.old.cap }
{
    match asked {
        Some(LineCommand::Take { name }) => take(alloc, name, folder, store, room),
        Some(LineCommand::List) => list_all(alloc, store, room),
        None => Outcome::went(print_bytes(&mut room.out, b"no such command\n", Status::Usage)),
    }
}

/// Whether the store is in a transaction.
fn is_busy<S: Alter>(store: &Store<S>) -> bool
    ensures { result ≡ (at S.Store store.now).in_transaction }
{
    store.is_busy()
}

/// How a command went that accepted no file, and why the session ends after it, if it does: it is
/// stopped where memory ran out or the store refused, or is in a transaction; and a line that is
/// too long is the last.
fn after_told<S: Alter>(store: &Store<S>, line: &[u8], told: Status, is_stopped: bool) -> Answered
    ensures after { IsAfterTold S.Store store.now line.now told is_stopped result.status
        result.after }
    ensures idle { IsIdle S.Store store.now ⊎ (result.status ≡ Status.Trouble) }
{
    if is_stopped || is_busy(store) {
        return Answered {
            status: Status::Trouble,
            after: Some(End::Stopped),
        };
    }
    let after = if line.len() > LONGEST_LINE {
        Some(End::TooLong)
    } else {
        None
    };
    Answered {
        status: told,
        after,
    }
}

/// Tells what came of a command that accepted no file.
fn tell_all<S: Alter, I: Sources, C: Client, K: StoreFiles>(
    store: &Store<S>,
    line: &[u8],
    room: &mut Room<I, C, K>,
    told: Status,
    is_stopped: bool,
) -> Answered
    ensures { (x : Exchange S) → x.line ≡ line.now → TellsLines S.Store (record x {
      work = record x.work {
        new = point I.Sources C.Client K.StoreFiles store.now room.old;
      };
      answered = result;
    }) (point I.Sources C.Client K.StoreFiles store.now room.new) told is_stopped }
{
    let goes = after_told(store, line, told, is_stopped);
    let (out, why) = (room.out.lines(), room.why.lines());
    let is_out = room.client.answer(store, out, why, goes.status);
    goes.if_out(is_out)
}

/// Tells that a file is refused since the path of the store does not stand for its files.
fn print_lost<S: Alter, I: Sources, C: Client, K: StoreFiles>(
    store: &Store<S>,
    name: &str,
    room: &mut Room<I, C, K>,
) -> Answered
    ensures { (x : Exchange S) (looks : Looks) → K.looks room.old.keeper ≡ looked looks false →
        TellsLost S.Store (record x {
          work = record x.work {
            new = record (point I.Sources C.Client K.StoreFiles store.now room.old) {
              looks = looks;
            };
          };
          answered = result;
        }) (point I.Sources C.Client K.StoreFiles store.now room.new) name.now }
{
    let fault = StoreFault::Store(None);
    let status = Status::Trouble;
    let _ = print_refused(&mut room.out, name, fault.number(), fault.name(), status);
    let (out, why) = (room.out.lines(), room.why.lines());
    let is_out = room.client.answer(store, out, why, status);
    let after = Some(End::Lost);
    Answered { status, after }.if_out(is_out)
}

/// Answers a line over the store: the lines of its command, and then `status N`, with N as
/// `edfstore` would end, or 3 where the store is lost or in a transaction. A line for which memory
/// ran out is left away whole, so the line `status N` is one of its own, and the last.
///
/// A line that is no command gets `no such command`, and its status is `Usage`. The client is
/// answered when the command is done: of an accepted file, when as many data records of its
/// recording are held as it is told, and the path of the store still stands for its files. Where it
/// does not, the file is refused with E42 (it may be held whole in the files that the store has),
/// and the session ends. So it does where memory ran out or the store refused, since a transaction
/// may be open then, and after a line that is too long.
pub(crate) fn serve_line<S: Alter, I: Sources, C: Client, K: StoreFiles>(
    alloc: Global,
    line: &[u8],
    folder: Option<&str>,
    store: &mut Store<S>,
    room: &mut Room<I, C, K>,
) -> Answered
    ensures { (x : Exchange S) × (x.line ≡ line.now) × (x.answered ≡ result) × IsServed S.Store x
        (point I.Sources C.Client K.StoreFiles store.new room.new)
        (option_map (λ f. f.now) folder.entry)
        (point I.Sources C.Client K.StoreFiles store.old room.old) }
{
    room.out.clear();
    room.why.clear();
    match work(alloc, parse_line(line), folder, store, room) {
        Outcome::Accepted { name, receipt } => {
            if !room.keeper.stand(store, &receipt) {
                return print_lost(store, name, room);
            }
            let is_out = room.client.accept(store, name, &receipt);
            let status = Status::Done;
            Answered {
                status,
                after: None,
            }
            .if_out(is_out)
        }
        Outcome::Told { status, is_stopped } => tell_all(store, line, room, status, is_stopped),
    }
}
