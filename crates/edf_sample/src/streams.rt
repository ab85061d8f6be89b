//! Readers and writers that give and take their bytes in pieces, and fail.

use std::io::{self, Read, Write};

/// A reader of its bytes up to `cut`, at most `step` in a read. After them each read fails with
/// `kind`.
#[derive(Drop)]
pub struct Source<'a> {
    bytes: &'a [u8],
    at: usize,
    step: usize,
    cut: usize,
    kind: io::ErrorKind,
}

impl<'a> Source<'a> {
    /// A reader of all the bytes, at most `step` in a read, and then of the end.
    pub fn whole(bytes: &'a [u8], step: usize) -> Source<'a> {
        Source {
            bytes,
            at: 0,
            step,
            cut: usize::MAX,
            kind: io::ErrorKind::Other,
        }
    }

    /// A reader of the bytes up to `cut`, whose later reads fail.
    pub fn failing(bytes: &'a [u8], cut: usize, kind: io::ErrorKind) -> Source<'a> {
        Source {
            bytes,
            at: 0,
            step: 100,
            cut,
            kind,
        }
    }
}

impl<'a> Read for Source<'a> {
    fn read(&mut self, buf: &mut [u8]) -> io::Result<usize> {
        if self.at >= self.cut {
            return Err(io::Error::from(self.kind));
        }
        let mut count = 0usize;
        for place in buf.iter_mut() {
            if count >= self.step || self.at >= self.cut {
                break;
            }
            let Some(byte) = self.bytes.get(self.at) else {
                break;
            };
            *place = *byte;
            self.at = self.at.saturating_add(1);
            count = count.saturating_add(1);
        }
        Ok(count.min(buf.len()))
    }
}

/// A reader of one byte in a read. At `stop` one read gives none or fails, and those after it go
/// on. It counts its reads.
#[derive(Drop)]
pub struct StopsOnce<'a> {
    bytes: &'a [u8],
    at: usize,
    stop: usize,
    fails: bool,
    stopped: bool,
    reads: &'a mut usize,
}

impl<'a> StopsOnce<'a> {
    pub fn new(bytes: &'a [u8], stop: usize, fails: bool, reads: &'a mut usize) -> StopsOnce<'a> {
        StopsOnce {
            bytes,
            at: 0,
            stop,
            fails,
            stopped: false,
            reads,
        }
    }
}

impl Read for StopsOnce<'_> {
    fn read(&mut self, buf: &mut [u8]) -> io::Result<usize> {
        *self.reads = self.reads.saturating_add(1);
        if self.at == self.stop && !self.stopped {
            self.stopped = true;
            return if self.fails {
                Err(io::Error::from(io::ErrorKind::Interrupted))
            } else {
                Ok(0)
            };
        }
        let Some(byte) = self.bytes.get(self.at) else {
            return Ok(0);
        };
        if buf.is_empty() {
            return Ok(0);
        }
        buf[0] = *byte;
        self.at = self.at.saturating_add(1);
        Ok(1)
    }
}

/// A writer of `room` bytes, at most `step` in a write. After them each write fails, or takes none
/// where `full` is set.
#[derive(Drop)]
pub struct Sink<'a> {
    got: &'a mut Vec<u8>,
    room: usize,
    step: usize,
    full: bool,
}

impl<'a> Sink<'a> {
    /// A writer that takes all its bytes, at most `step` in a write.
    pub fn whole(got: &'a mut Vec<u8>, step: usize) -> Sink<'a> {
        Sink {
            got,
            room: usize::MAX,
            step,
            full: false,
        }
    }

    /// A writer of `room` bytes, whose later writes fail, or take none where `full` is set.
    pub fn of_room(got: &'a mut Vec<u8>, room: usize, full: bool) -> Sink<'a> {
        Sink {
            got,
            room,
            step: 100,
            full,
        }
    }
}

impl Write for Sink<'_> {
    fn write(&mut self, buf: &[u8]) -> io::Result<usize> {
        if self.got.len() >= self.room {
            return if self.full {
                Ok(0)
            } else {
                Err(io::Error::from(io::ErrorKind::BrokenPipe))
            };
        }
        let left = self.room - self.got.len();
        let most = buf.len().min(self.step).min(left);
        self.got.extend_from_slice(&buf[..most])?;
        Ok(most)
    }

    fn flush(&mut self) -> io::Result<()> {
        Ok(())
    }
}
