//! A session: lines, answered one after the other.

ghost use Rattle.std.specs.Prelude.{◌≡◌, Option, option_map};
ghost use Rattle.edf_serve.specs.Exchange.{Exchange};
ghost use Rattle.edf_serve.specs.Session.{IsStep, IsWholeSession, status_at};
ghost use Rattle.edf_serve.specs.Work.{point};

use crate::answering::{End, serve_line};
use crate::client::Client;
use crate::files::Sources;
use crate::lines::{Lines, Next};
use crate::room::Room;
use crate::standing::StoreFiles;
use edf_cli::{Status, worse};
use edf_fragment::Input;
use edf_store::Store;
use sqlite::Alter;
use std::alloc::Global;

/// The status of a session that ends so, of which this was the worst.
fn status_at(end: End, worst: Status) -> Status
    ensures { result ≡ status_at end worst }
{
    match end {
        End::Ended | End::TooLong => worst,
        End::Unread | End::Unwritten | End::Stopped | End::Lost => Status::Trouble,
    }
}

/// Reads a line and answers it; and why the session ends then, if it does.
fn serve_next<S: Alter, R: Input, I: Sources, C: Client, K: StoreFiles>(
    alloc: Global,
    folder: Option<&str>,
    lines: &mut Lines<R>,
    store: &mut Store<S>,
    room: &mut Room<I, C, K>,
) -> Option<End>
    ensures { (x : Option (Exchange S)) × IsStep S.Store (option_map (λ f. f.now) folder.entry)
        (record {
          at = point I.Sources C.Client K.StoreFiles store.old room.old;
          coming =
              lines.old;
        })
        (record {
          at = point I.Sources C.Client K.StoreFiles store.new room.new;
          coming =
              lines.new;
        })
        x result }
{
    match lines.next() {
        Next::Line => {}
        Next::Ended => return Some(End::Ended),
        Next::Failed => return Some(End::Unread),
    }
    let answered = serve_line(alloc, lines.line(), folder, store, room);
    room.worst = worse(room.worst, answered.status);
    answered.after
}

/// Answers line after line over the store, each from what the line before left. It ends where the
/// input does or a read of it fails, where an answer can't be written, where memory ran out or the
/// store refused, where its path does not stand for its files any more, and after a line that is
/// too long. The room's worst status becomes the worst of its own and the lines'; trouble at every
/// end but that of the input, and at a line that is too long.
///
/// The files of all its `take` lines are submitted as one list, of which the store then holds what
/// fits, and a crash leaves what some first of them leave. Each line has its answer, and no line is
/// passed over. So it is of any input and files; of those whose bytes, links or paths are not
/// known, as those of the system, only as far as the same code serves all.
pub fn serve<S: Alter, R: Input, I: Sources, C: Client, K: StoreFiles>(
    alloc: Global,
    folder: Option<&str>,
    lines: &mut Lines<R>,
    store: &mut Store<S>,
    room: &mut Room<I, C, K>,
) -> End
    ensures { IsWholeSession S.Store (option_map (λ f. f.now) folder.entry)
        (record {
          at = point I.Sources C.Client K.StoreFiles store.old room.old;
          coming =
              lines.old;
        })
        (record {
          at = point I.Sources C.Client K.StoreFiles store.new room.new;
          coming =
              lines.new;
        })
        result }
{
    for _ in 0..u64::MAX {
        if let Some(end) = serve_next(alloc, folder, lines, store, room) {
            room.worst = status_at(end, room.worst);
            return end;
        }
    }
    room.worst = Status::Trouble;
    End::Stopped
}
