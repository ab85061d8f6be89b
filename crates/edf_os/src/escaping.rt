//! Text for a terminal. Bytes that could steer it are written as `\x1b`: those that are no UTF-8,
//! and those of hidden characters.

ghost use Rattle.std.specs.Prelude.{◌≡◌, ◌≤◌, ◌<◌, None, length, take, MatchBool, MatchOption};
ghost use Rattle.std.specs.Str.Lossy.{utf8_valid_len};
ghost use Rattle.edf_fragment.specs.Failures.{saturating_increment};
ghost use Rattle.edf_os.specs.Plain.{is_barred, IsPlain, escape, hex_digit};

use edf_fragment::{Output, send};
use std::env::FillError;
use std::io::{self, ErrorKind};
use std::rt::Env;
use std::{fmt, str};

/// The most bytes of a word that are looked at.
const LONGEST_WORD: usize = 4_096;

/// The most bytes of a text that are looked at before some of it is written.
const WINDOW: usize = 256;

/// Is true of a character that no terminal gets: a control character, or a mark that changes the
/// direction of text. A line feed is one unless `keeps_lines`.
fn is_barred(c: char, keeps_lines: bool) -> bool
    ensures { result ≡ is_barred keeps_lines c }
{
    match c {
        '\n' => !keeps_lines,
        '\0'..='\x1f' | '\x7f'..='\u{9f}' => true,
        '\u{61c}' | '\u{200e}' | '\u{200f}' => true,
        '\u{202a}'..='\u{202e}' | '\u{2066}'..='\u{2069}' => true,
        _ => false,
    }
}

/// Returns the first bytes that are text.
fn valid_prefix(bytes: &[u8]) -> &str
    ensures { result.now ≡ take (utf8_valid_len bytes.now) bytes.now }
{
    match str::from_utf8(bytes) {
        Ok(text) => text,
        Err(error) => str::from_utf8(&bytes[..error.valid_up_to()]).unwrap_or(""),
    }
}

/// Returns how many of the first bytes are text without barred characters.
fn plain_len(bytes: &[u8], keeps_lines: bool) -> usize
    ensures within { result ≤ length bytes.now }
    ensures plain { IsPlain keeps_lines (take result bytes.now) }
{
    let text = valid_prefix(bytes);
    match text.find(|c: char| is_barred(c, keeps_lines)) {
        Some(at) => at,
        None => text.len(),
    }
}

/// Returns the digit of a number below 16.
fn hex_digit(number: u8) -> u8
    requires { number < 16 }
    ensures { result ≡ hex_digit number }
{
    if number < 10 {
        b'0' + number
    } else {
        b'a' + (number - 10)
    }
}

/// Returns what is written in place of a byte.
fn escape(byte: u8) -> [u8; 4]
    ensures { result ≡ escape byte }
{
    [b'\\', b'x', hex_digit(byte / 16), hex_digit(byte % 16)]
}

/// The line feeds of a text that end a line on a terminal.
#[derive(Clone, Copy, Drop)]
enum LineFeeds {
    All,
    /// That at its end.
    Last,
    None,
}

/// Returns the line feeds that end a line, whatever words stand after the program's name: none that
/// may be of a word. A word that is too long to look at may have any.
fn line_feeds(rt: &HostRuntime) -> LineFeeds {
    let mut word = [0; LONGEST_WORD];
    let mut line_feeds = LineFeeds::All;
    for place in 1..usize::MAX {
        match rt.arg(place, &mut word) {
            Ok(len) if word[..len].ends_with(b"\n") => return LineFeeds::None,
            Ok(len) if word[..len].contains(&b'\n') => line_feeds = LineFeeds::Last,
            Ok(_) => {}
            Err(FillError::TooLong) => return LineFeeds::None,
            Err(FillError::NotPresent) => return line_feeds,
        }
    }
    LineFeeds::None
}

/// A standard stream. Where it is a terminal, it gets text in which all that could steer a terminal
/// is escaped; elsewhere it gets the bytes as they are.
///
/// A line feed ends a line. Where a word of the command line has one, only that at the end of what
/// is written does, and where a word ends with one, none: the others are escaped. A character whose
/// bytes come by two writes is escaped.
#[derive(Drop)]
pub struct Escaping<W> {
    stream: W,
    is_terminal: bool,
    line_feeds: LineFeeds,
}

impl<W: Output> Escaping<W> {
    pub(crate) fn new(rt: &HostRuntime, stream: W, is_terminal: bool) -> Escaping<W> {
        Escaping {
            stream,
            is_terminal,
            line_feeds: line_feeds(rt),
        }
    }

    /// Writes some of the first bytes of a text, escaped, and returns how many, unless that failed.
    fn put_some(&mut self, text: &[u8], keeps_lines: bool) -> Option<usize>
        requires { 0 < length text.now }
        ensures { MatchOption result
            (W.failures self.new.stream ≡ saturating_increment (W.failures self.old.stream))
            (λ n. (0 < n) × (n ≤ length text.now)
            × (W.failures self.new.stream ≡ W.failures self.old.stream)) }
    {
        let plain = plain_len(&text[..text.len().min(WINDOW)], keeps_lines);
        let (count, is_put) = if plain > 0 {
            (plain, send(&mut self.stream, &text[..plain]))
        } else {
            (1, send(&mut self.stream, &escape(text[0])))
        };
        if is_put { Some(count) } else { None }
    }

    /// Writes a text, escaped. Is true where all of it was written.
    fn put_text(&mut self, text: &[u8], keeps_lines: bool) -> bool
        ensures { MatchBool result
            (W.failures self.new.stream ≡ W.failures self.old.stream)
            (W.failures self.new.stream ≡ saturating_increment (W.failures self.old.stream)) }
    {
        let mut at = 0;
        while at < text.len() {
            match self.put_some(&text[at..], keeps_lines) {
                Some(count) => at += count,
                None => return false,
            }
        }
        true
    }

    /// Writes what may end lines, as the words of the command line let it.
    fn put_lines(&mut self, text: &[u8]) -> bool
        ensures { MatchBool result
            (W.failures self.new.stream ≡ W.failures self.old.stream)
            (W.failures self.new.stream ≡ saturating_increment (W.failures self.old.stream)) }
    {
        match (self.line_feeds, text) {
            (LineFeeds::All, _) => self.put_text(text, true),
            (LineFeeds::Last, [line @ .., b'\n']) => {
                self.put_text(line, false) && self.put_text(b"\n", true)
            }
            _ => self.put_text(text, false),
        }
    }

    /// Writes a name, of which no line feed ends a line on a terminal. Is true where it was
    /// written.
    pub(crate) fn put_name(&mut self, name: &str) -> bool {
        if self.is_terminal {
            self.put_text(name.as_bytes(), false)
        } else {
            send(&mut self.stream, name.as_bytes())
        }
    }
}

impl<W: Output> Output for Escaping<W> {
    ghost contents = { λ _. None };

    ghost failures = { λ e. W.failures e.stream };

    fn write(&mut self, buf: &[u8]) -> io::Result<usize> {
        if !self.is_terminal {
            self.stream.write(buf)
        } else if self.put_lines(buf) {
            Ok(buf.len())
        } else {
            Err(io::Error::from(ErrorKind::Other))
        }
    }
}

impl<W: Output> fmt::Write for Escaping<W> {
    fn write_str(&mut self, s: &str) -> fmt::Result {
        if send(self, s.as_bytes()) {
            Ok(())
        } else {
            Err(fmt::Error)
        }
    }
}
