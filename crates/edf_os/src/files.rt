//! Files and standard input.

ghost use Rattle.std.specs.Io.{ReadsAtMost};
ghost use Rattle.std.specs.Prelude.{◌≡◌, None, map, string_bytes};

use crate::cause::{print_reread, print_unread};
use crate::terminal::Terminal;
use edf_cli::Inputs;
use edf_fragment::Counted;
use std::alloc::{AllocError, Global};
use std::cell::RefCell;
use std::fs::{self, File};
use std::io::{self, BufReader, ErrorKind, Read, Stdin};
use std::os::unix::fs::FileTypeExt;
use std::rc::Rc;

/// The most bytes that are read of a file at once.
const PIECE: usize = 16_384;

/// The most bytes that are read of standard input at once.
const STREAM_PIECE: usize = 65_536;

/// Opens FILE arguments; repeated `-` continues standard input, unless only
/// [regular files](Files::regular) are opened.
#[derive(Drop)]
pub struct Files<'rt> {
    rt: &'rt HostRuntime,
    terminal: &'rt Terminal<'rt>,
    /// It is true where regular files alone are opened, and `-` is the name of one.
    is_regular: bool,
    /// Standard input, once a `-` was opened.
    stream: Option<Rc<RefCell<BufReader<Stdin>>>>,
    /// The names that were opened, in turn.
    names: Vec<String>,
}

impl<'rt> Files<'rt> {
    pub fn new(rt: &'rt HostRuntime, terminal: &'rt Terminal<'rt>) -> Files<'rt> {
        Files {
            rt,
            terminal,
            is_regular: false,
            stream: None,
            names: Vec::new(rt.alloc()),
        }
    }

    /// Opens regular files alone: `-` is the name of one, as every other name is. Of a pipe, a
    /// device or a folder the first read fails, and no pipe is waited for that nobody writes.
    pub fn regular(rt: &'rt HostRuntime, terminal: &'rt Terminal<'rt>) -> Files<'rt> {
        Files {
            rt,
            terminal,
            is_regular: true,
            stream: None,
            names: Vec::new(rt.alloc()),
        }
    }

    /// Is true of the first file that was opened, which a program that reads one twice opens again.
    fn is_again(&self, name: &str) -> bool {
        match self.names.first() {
            Some(first) => first.as_str() == name,
            None => false,
        }
    }

    /// Returns standard input, whose buffer is made for the first `-`.
    ///
    /// # Errors
    /// Where memory ran out.
    fn stream(&mut self, alloc: Global) -> Result<Rc<RefCell<BufReader<Stdin>>>, AllocError>
        ensures { self.new.names ≡ self.old.names }
    {
        if let Some(stream) = &self.stream {
            return Ok(stream.clone()?);
        }
        let Ok(reader) = BufReader::with_capacity(alloc, STREAM_PIECE, self.rt.stdin()) else {
            return Err(AllocError);
        };
        let stream = Rc::new(alloc, RefCell::new(reader))?;
        self.stream = Some(stream.clone()?);
        Ok(stream)
    }
}

/// The progress of a reader. A file is opened at its first read, and closed at its end.
#[derive(Drop)]
enum FileState {
    /// The file is not open yet.
    Closed,
    /// The file is read.
    File(BufReader<File>),
    /// Standard input is read.
    Stream(Rc<RefCell<BufReader<Stdin>>>),
    /// All was read.
    Ended,
}

/// A reader of a file or of standard input, which shows progress, and prints why a read failed.
#[derive(Drop)]
pub struct FileReader<'rt> {
    rt: &'rt HostRuntime,
    terminal: &'rt Terminal<'rt>,
    name: String,
    is_begun: bool,
    /// It is true where a file of that name was opened before.
    is_again: bool,
    /// It is true where only a regular file is read.
    is_regular: bool,
    state: FileState,
}

/// Refuses something of that name that is no regular file. Where the system does not say what it
/// is, its opening shows it.
fn require_regular(rt: &HostRuntime, name: &str) -> io::Result<()> {
    match fs::metadata(rt, name) {
        Ok(found) if found.is_dir() => Err(io::Error::from(ErrorKind::IsADirectory)),
        Ok(found) if !found.is_file() => Err(io::Error::from(ErrorKind::Unsupported)),
        _ => Ok(()),
    }
}

impl FileReader<'_> {
    /// Returns the size of the file, if known. As a cause it prints that a pipe is read again.
    fn size(&self) -> Option<u64> {
        let FileState::Closed = self.state else {
            return None;
        };
        if !self.terminal.prints_causes() {
            return None;
        }
        let found = fs::metadata(self.rt, self.name.as_str()).ok()?;
        if self.is_again && found.file_type().is_fifo() {
            print_reread(self.terminal, self.name.as_str());
        }
        if found.is_file() {
            Some(found.len())
        } else {
            None
        }
    }

    /// Opens the file, if it is not open yet.
    fn begin(&mut self) -> io::Result<()> {
        if !self.is_begun {
            self.is_begun = true;
            self.terminal.begin_file(self.size());
        }
        if let FileState::Closed = self.state {
            if self.is_regular {
                require_regular(self.rt, self.name.as_str())?;
            }
            let file = File::open(self.rt, self.name.as_str())?;
            self.state = FileState::File(BufReader::with_capacity(self.rt.alloc(), PIECE, file)?);
        }
        Ok(())
    }

    /// Reads on, from the file or from standard input.
    fn pull(&mut self, buf: &mut [u8]) -> io::Result<usize>
        ensures { ReadsAtMost result buf.new }
    {
        self.begin()?;
        match &mut self.state {
            FileState::File(file) => file.read(buf),
            FileState::Stream(stream) => match stream.try_borrow_mut() {
                Ok(mut stream) => stream.read(buf),
                Err(_) => Err(io::Error::from(ErrorKind::Other)),
            },
            FileState::Closed | FileState::Ended => Ok(0),
        }
    }
}

impl Read for FileReader<'_> {
    fn read(&mut self, buf: &mut [u8]) -> io::Result<usize> {
        match self.pull(buf) {
            Ok(count) => {
                self.terminal.add_bytes(count);
                if count == 0 && !buf.is_empty() {
                    self.state = FileState::Ended;
                }
                Ok(count)
            }
            Err(error) => {
                print_unread(self.terminal, self.name.as_str(), &error);
                Err(error)
            }
        }
    }
}

impl<'rt> Inputs for Files<'rt> {
    type Reader = Counted<FileReader<'rt>>;

    ghost bytes = { λ _ _. None };

    ghost opened = { λ files. map string_bytes files.names.items };

    /// Returns the length of a regular file, where these alone are opened.
    fn length(&self, name: &str) -> Option<u64> {
        if !self.is_regular {
            return None;
        }
        let found = fs::metadata(self.rt, name).ok()?;
        if found.is_file() {
            Some(found.len())
        } else {
            None
        }
    }

    fn open(&mut self, alloc: Global, name: &str) -> Result<Counted<FileReader<'rt>>, AllocError> {
        let state = if !self.is_regular && name == "-" {
            FileState::Stream(self.stream(alloc)?)
        } else {
            FileState::Closed
        };
        let reader = FileReader {
            rt: self.rt,
            terminal: self.terminal,
            name: String::from_str(alloc, name)?,
            is_begun: false,
            is_again: self.is_again(name),
            is_regular: self.is_regular,
            state,
        };
        self.names.push(String::from_str(alloc, name)?)?;
        Ok(Counted::new(reader))
    }
}
