//! What is answered: pieces one after another, or why there are none.

ghost use Rattle.std.specs.Prelude.{◌≡◌, ◌⊎◌, ◌++◌, ◌≤◌, ◌<◌, ◌+◌, ◌-◌, ◌^◌, ◌∷◌, min, map};
ghost use Rattle.std.specs.Prelude.{length, take, drop};
ghost use Rattle.edf_page_exports.specs.Laid.{AreLaid, HaveNoRoom, Stays, TellsWhy, laid};

use crate::given::Fault;
use edf_page::Stopped;

/// All is given.
const GIVEN: u32 = 0;

/// It has no room.
const NO_ROOM: u32 = 1;

/// It stopped, and there is nothing to give.
const STOPPED: u32 = 2;

/// What was given is no call.
pub(crate) const NO_CALL: u32 = 3;

/// How many bytes the pieces have, up to `usize::MAX`.
fn length_of(pieces: &[&[u8]]) -> usize
    ensures { result ≡ min (length (laid (map (λ piece. piece.now) pieces.now))) (2 ^ 64 - 1) }
{
    let mut sum = 0usize;
    for piece in pieces {
        sum = sum.saturating_add(piece.len());
    }
    sum
}

/// Writes bytes over those from a place on, and answers the place behind them.
fn put(out: &mut [u8], at: usize, bytes: &[u8]) -> usize
    requires { at + length bytes.now ≤ length out.old }
    ensures put { out.new ≡ take at out.old ++ (bytes.now ++ drop (at + length bytes.now) out.old) }
    ensures behind { result ≡ at + length bytes.now }
{
    let end = at + bytes.len();
    out[at..end].copy_from_slice(bytes);
    end
}

/// Writes the pieces one after another, and the size of each.
fn lay_all(pieces: &[&[u8]], out: &mut [u8], sizes: &mut [u64])
    requires room { length (laid (map (λ piece. piece.now) pieces.now)) ≤ length out.old }
    requires places { length pieces.now ≤ length sizes.old }
    ensures lie { let all = map (λ piece. piece.now) pieces.now in
        out.new ≡ laid all ++ drop (length (laid all)) out.old }
    ensures sized { let all = map (λ piece. piece.now) pieces.now in
        sizes.new ≡ map length all ++ drop (length all) sizes.old }
{
    let mut end = 0;
    for (at, piece) in pieces.iter().enumerate() {
        end = put(out, end, piece);
        sizes[at] = piece.len() as u64;
    }
}

/// The same, and before the sizes how many there are.
fn lay(pieces: &[&[u8]], out: &mut [u8], parts: &mut [u64])
    requires room { length (laid (map (λ piece. piece.now) pieces.now)) ≤ length out.old }
    requires places { length pieces.now + 1 ≤ length parts.old }
    ensures { AreLaid out.old out.new parts.old parts.new (map (λ piece. piece.now) pieces.now) }
{
    parts[0] = pieces.len() as u64;
    lay_all(pieces, out, &mut parts[1..]);
}

/// Gives the pieces, if they have room.
pub(crate) fn give(pieces: &[&[u8]], out: &mut [u8], parts: &mut [u64]) -> u32
    requires { 2 ≤ length parts.old }
    ensures { let all = map (λ piece. piece.now) pieces.now in
        ((result ≡ 0) × AreLaid out.old out.new parts.old parts.new all)
        ⊎ ((result ≡ 1) × HaveNoRoom out.old out.new parts.old parts.new all) }
{
    let length = length_of(pieces);
    if length > out.len() || pieces.len() >= parts.len() {
        parts[0] = pieces.len() as u64;
        parts[1] = length as u64;
        return NO_ROOM;
    }
    lay(pieces, out, parts);
    GIVEN
}

/// Tells why there is nothing to give, as far as there is room.
pub(crate) fn print_text(stopped: Stopped, out: &mut [u8], parts: &mut [u64]) -> u32
    requires { 2 ≤ length parts.old }
    ensures stopped { result ≡ 2 }
    ensures told { TellsWhy out.old out.new parts.old parts.new stopped }
{
    let line = stopped.line().as_bytes();
    let count = line.len().min(out.len());
    put(out, 0, &line[..count]);
    parts[0] = count as u64;
    STOPPED
}

/// Answers a call that is none, or for which memory ran out.
pub(crate) fn refuse(fault: Fault, out: &mut [u8], parts: &mut [u64]) -> u32
    requires { 2 ≤ length parts.old }
    ensures { ((fault ≡ Fault.NoCall) × (result ≡ 3) × Stays out.old out.new parts.old parts.new)
        ⊎ ((result ≡ 2) × TellsWhy out.old out.new parts.old parts.new Stopped.Memory) }
{
    match fault {
        Fault::NoCall => NO_CALL,
        Fault::Memory => print_text(Stopped::Memory, out, parts),
    }
}
