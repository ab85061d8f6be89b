//! The lines of an input.

ghost use Rattle.std.specs.Prelude.{◌≡◌, ◌≢◌, ◌++◌, ◌==◌, ◌≤◌, ℕ, IfOk, IfSome, List, length};
ghost use Rattle.std.specs.Prelude.{position, take, slice_range, option_map};
ghost use Rattle.std.specs.Io.KnownBytes.{Consumes, IsAtEnd};
ghost use Rattle.edf_fragment.specs.Failures.{saturating_increment};
ghost use Rattle.edf_serve.specs.Lines.{BeginsWith, Coming, IsNext};

use crate::line::LONGEST_LINE;
use edf_fragment::Input;
use std::alloc::{AllocError, Global};
use std::marker::Model;

/// The byte that ends a line.
const LINE_FEED: u8 = 10;

/// How many bytes are kept: one more than a line may have.
const ROOM: usize = LONGEST_LINE + 1;

/// What comes next of an input.
#[derive(Clone, Copy, Debug, PartialEq, Eq, Drop)]
pub(crate) enum Next {
    /// A line.
    Line,
    /// Nothing more.
    Ended,
    /// A read failed.
    Failed,
}

/// The lines of an input, each without its line feed. All bytes behind the last line feed are a
/// line too. Of one that is longer than [`LONGEST_LINE`] a front is given, which is longer as well;
/// what is given behind it is not said.
///
/// Where a read fails no line is lost: what was read of it is kept.
#[derive(Drop)]
pub struct Lines<R: Input> {
    input: R,
    /// Bytes that were read, up to `end`. The line that was given is their first `line`, and those
    /// from `taken` on are still to be given.
    buffer: Vec<u8>,
    line: usize,
    taken: usize,
    end: usize,
}

impl<R: Input> Model for Lines<R> {
    ghost use Rattle.std.specs.Prelude.{◌≡◌, ◌++◌, ◌≤◌, take, slice_range, option_map, length};
    ghost use Rattle.edf_serve.specs.Lines.{Coming};

    ghost Value = { Coming };

    ghost view = { λ s. record {
      left = option_map (λ more. slice_range s.buffer.items s.taken s.end ++ more)
          (R.Input.remaining s.input);
      failed = R.Input.failures s.input;
      line = take s.line s.buffer.items;
    } };

    ghost invariant = { λ s. (s.line ≤ s.taken) × (s.taken ≤ s.end)
        × (s.end ≤ length s.buffer.items) × (length s.buffer.items ≡ 65537) };
}

impl<R: Input + Drop> Lines<R> {
    /// The lines of what the input gives from here on.
    ///
    /// # Errors
    /// Where memory ran out.
    pub fn new(alloc: Global, input: R) -> Result<Lines<R>, AllocError>
        ensures left { IfOk result (λ lines. lines.left ≡ R.remaining input) }
        ensures failed { IfOk result (λ lines. lines.failed ≡ R.failures input) }
    {
        Ok(Lines {
            input,
            buffer: vec![in alloc; 0; ROOM]?,
            line: 0,
            taken: 0,
            end: 0,
        })
    }
}

impl<R: Input> Lines<R> {
    /// The line that was given last.
    pub(crate) fn line(&self) -> &[u8]
        ensures { result.now ≡ self.now.line }
    {
        &self.buffer[..self.line]
    }

    /// Goes to the next line.
    pub(crate) fn next(&mut self) -> Next
        ensures { IsNext self.old self.new result }
    {
        let end = to_front(&mut self.buffer, self.taken, self.end);
        let found = gather(&mut self.input, &mut self.buffer, end);
        self.line = found.line;
        self.taken = found.taken;
        self.end = found.end;
        found.next
    }
}

/// Moves the bytes from `from` to `end` to the front; how many they are.
fn to_front(buffer: &mut [u8], from: usize, end: usize) -> usize
    requires { (from ≤ end) × (end ≤ length buffer.old) }
    ensures moved { take result buffer.new ≡ slice_range buffer.old from end }
    ensures bounds { (result ≤ length buffer.new) × (length buffer.new ≡ length buffer.old) }
{
    buffer.copy_within(from..end, 0);
    end - from
}

/// Where the first line feed is.
fn line_feed(bytes: &[u8]) -> Option<usize>
    ensures { result ≡ position (λ b. b == 10) bytes.now }
{
    bytes.iter().position(|byte| *byte == LINE_FEED)
}

/// What was found in the bytes that were gathered.
#[derive(Clone, Copy)]
struct Found {
    next: Next,
    /// How many bytes the line has.
    line: usize,
    /// From where on they are still to be given.
    taken: usize,
    /// How many they are.
    end: usize,
}

/// A line of so many bytes.
fn line(line: usize, taken: usize, end: usize) -> Found
    ensures { result ≡ record { next = Next.Line; line = line; taken = taken; end = end } }
{
    Found {
        next: Next::Line,
        line,
        taken,
        end,
    }
}

/// No line.
fn none(next: Next, end: usize) -> Found
    ensures { result ≡ record { next = next; line = 0; taken = 0; end = end } }
{
    Found {
        next,
        line: 0,
        taken: 0,
        end,
    }
}

/// Reads on until the first `end` bytes have a line feed, or are more than a line may have, or the
/// input ends, or a read of it fails; what is found then.
fn gather<R: Input>(input: &mut R, buffer: &mut [u8], end: usize) -> Found
    requires end { end ≤ length buffer.old }
    requires room { length buffer.old ≡ ROOM }
    ensures bounds { (result.line ≤ result.taken) × (result.taken ≤ result.end)
        × (result.end ≤ length buffer.new) × (length buffer.new ≡ ROOM) }
    ensures gathered { (more : List ℕ) × Consumes (R.remaining input.old) (R.remaining input.new)
        more
        × (take result.end buffer.new ≡ take end buffer.old ++ more) }
    ensures line { result.next ≡ Next.Line → IfSome (R.remaining input.new) (BeginsWith
        (take result.end buffer.new) (take result.line buffer.new)
        (slice_range buffer.new result.taken result.end)) }
    ensures none { result.next ≢ Next.Line → result.taken ≡ 0 }
    ensures ended { result.next ≡ Next.Ended →
        (result.end ≡ 0) × IsAtEnd (R.remaining input.new) }
    ensures failed { result.next ≡ Next.Failed →
        R.failures input.new ≡ saturating_increment (R.failures input.old) }
    ensures unfailed { result.next ≢ Next.Failed → R.failures input.new ≡ R.failures input.old }
{
    let mut to = end;
    while to <= LONGEST_LINE {
        if let Some(at) = line_feed(&buffer[..to]) {
            return line(at, at + 1, to);
        }
        match input.read(&mut buffer[to..]) {
            Ok(0) if to == 0 => return none(Next::Ended, to),
            Ok(0) => return line(to, to, to),
            Ok(count) => to += count,
            Err(_) => return none(Next::Failed, to),
        }
    }
    match line_feed(&buffer[..to]) {
        Some(at) => line(at, at + 1, to),
        None => line(to, to, to),
    }
}
