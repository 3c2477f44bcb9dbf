//! The runtime of a launch. The arguments, the standard streams and the clock are simulated, and
//! the files are real.

use crate::file::RecordedFile;
use crate::journal::Journal;
use crate::peers::Peers;
use crate::plan::Plan;
use std::alloc::{Allocator, Global};
use std::cell::RefCell;
use std::env::FillError;
use std::fmt::Display;
use std::fs::{Metadata, OpenOptions, Permissions};
use std::io;
use std::io::{BufRead, ErrorKind, Lines, PipeReader, PipeWriter, Write};
use std::net::{Net, TcpStream};
use std::os::fd::BorrowedFd;
use std::os::unix;
use std::path::PathBuf;
use std::rt::{Clock, Env, Files};
use std::time::Duration;

/// The runtime of a launched program.
#[derive(Drop)]
pub(crate) struct LaunchRuntime<'a, R> {
    pub(crate) rt: &'a R,
    pub(crate) alloc: Global,
    arguments: &'a [String],
    // The bytes of standard input.
    input: &'a [u8],
    pub(crate) journal: &'a Journal<'a>,
    pub(crate) peers: &'a Peers<'a>,
    output: RefCell<Vec<u8>>,
}

impl<'a, R> LaunchRuntime<'a, R> {
    /// Returns the runtime for a program that is launched according to this plan.
    pub(crate) fn new(
        rt: &'a R,
        alloc: Global,
        plan: &'a Plan<'a>,
        journal: &'a Journal<'a>,
        peers: &'a Peers<'a>,
    ) -> LaunchRuntime<'a, R> {
        LaunchRuntime {
            rt,
            alloc,
            arguments: plan.arguments.as_slice(),
            input: plan.streams.input.as_slice(),
            journal,
            peers,
            output: RefCell::new(Vec::new(alloc)),
        }
    }

    /// Returns all bytes written to standard output.
    pub(crate) fn into_output(self) -> Vec<u8> {
        self.output.into_inner()
    }

    // Returns the port if the program's output so far is exactly the line that states its port.
    fn listening_port(&self) -> Option<u16> {
        match self.output.try_borrow() {
            Ok(output) => parse_listening_line(output.as_slice()),
            Err(_) => None,
        }
    }

    fn append_output(&self, bytes: &[u8]) -> io::Result<()> {
        match self.output.try_borrow_mut() {
            Ok(mut output) => Ok(output.extend_from_slice(bytes)?),
            Err(_) => Err(io::Error::from(ErrorKind::Other)),
        }
    }
}

impl<R: Net<Stream = TcpStream>> LaunchRuntime<'_, R> {
    // Connects the clients if the program's output so far is exactly the line that states its port.
    fn connect_clients_if_listening(&self) -> io::Result<()> {
        match self.listening_port() {
            Some(port) => self.peers.connect_clients(self.rt, port),
            None => Ok(()),
        }
    }
}

// Returns the port in the line that a listening server prints, or `None` if the output is not this
// line.
fn parse_listening_line(output: &[u8]) -> Option<u16> {
    let line = std::str::from_utf8(output).ok()?;
    let digits = line.strip_prefix("listening ")?.strip_suffix("\n")?;
    digits.parse::<u16>().ok()
}

impl<R> Alloc for LaunchRuntime<'_, R> {
    type A = Global;

    fn alloc(&self) -> Global {
        self.alloc
    }
}

impl<R> Env for LaunchRuntime<'_, R> {
    fn arg(&self, i: usize, buf: &mut [u8]) -> Result<usize, FillError> {
        let Some(argument) = self.arguments.get(i) else {
            return Err(FillError::NotPresent);
        };
        let bytes = argument.as_bytes();
        if bytes.len() > buf.len() {
            return Err(FillError::TooLong);
        }
        buf[..bytes.len()].copy_from_slice(bytes);
        Ok(bytes.len())
    }

    fn var(&self, _name: &str, _buf: &mut [u8]) -> Result<usize, FillError> {
        Err(FillError::NotPresent)
    }

    fn var_at(&self, _i: usize, _buf: &mut [u8]) -> Result<usize, FillError> {
        Err(FillError::NotPresent)
    }

    fn current_dir(&self, _buf: &mut [u8]) -> io::Result<usize> {
        Err(unsupported())
    }

    fn set_current_dir(&self, _path: &str) -> io::Result<()> {
        Err(unsupported())
    }
}

impl<'a, R> Input for LaunchRuntime<'a, R> {
    type Reader = &'a [u8];

    fn read_line<A: Allocator + Clone>(&self, buf: &mut String<A>) -> io::Result<usize> {
        let mut reader = self.input;
        reader.read_line(buf)
    }

    fn lines<A: Allocator>(&self, alloc: A) -> Lines<&'a [u8], A> {
        self.input.lines(alloc)
    }

    fn reader(&self) -> &'a [u8] {
        self.input
    }
}

// Standard output.
impl<R: Net<Stream = TcpStream>> Print for LaunchRuntime<'_, R> {
    fn print<D: Display + Drop>(&self, value: D) -> io::Result<()> {
        let text = format!(in self.alloc; "{value}")?;
        self.write_all(text.as_bytes())
    }

    fn println<D: Display + Drop>(&self, value: D) -> io::Result<()> {
        let text = format!(in self.alloc; "{value}\n")?;
        self.write_all(text.as_bytes())
    }

    fn write_all(&self, bytes: &[u8]) -> io::Result<()> {
        self.journal.record_once("out")?;
        self.append_output(bytes)?;
        self.connect_clients_if_listening()
    }
}

// The clock always returns zero.
impl<R> Clock for LaunchRuntime<'_, R> {
    fn monotonic(&self) -> io::Result<Duration> {
        Ok(Duration::ZERO)
    }

    fn since_1970(&self) -> io::Result<Duration> {
        Ok(Duration::ZERO)
    }

    fn sleep(&self, _duration: Duration) {}
}

impl<'a, R: Files> Files for LaunchRuntime<'a, R> {
    type File = RecordedFile<'a, R::File>;

    type Dir = R::Dir;

    fn open_file(&self, how: &OpenOptions, path: &str) -> io::Result<RecordedFile<'a, R::File>> {
        self.journal.record_file_step(opening_step(how), path)?;
        let file = self.rt.open_file(how, path)?;
        RecordedFile::new(self.alloc, file, path, self.journal)
    }

    fn open_dir(&self, path: &str) -> io::Result<R::Dir> {
        self.rt.open_dir(path)
    }

    fn metadata(&self, path: &str) -> io::Result<Metadata> {
        self.rt.metadata(path)
    }

    fn symlink_metadata(&self, path: &str) -> io::Result<Metadata> {
        self.rt.symlink_metadata(path)
    }

    fn copy(&self, from: &str, to: &str) -> io::Result<u64> {
        self.journal.record_file_step("copy", from)?;
        self.rt.copy(from, to)
    }

    fn rename(&self, from: &str, to: &str) -> io::Result<()> {
        self.journal.record_file_step("rename", from)?;
        self.rt.rename(from, to)
    }

    fn remove_file(&self, path: &str) -> io::Result<()> {
        self.journal.record_file_step("remove", path)?;
        self.rt.remove_file(path)
    }

    fn create_dir(&self, path: &str) -> io::Result<()> {
        self.rt.create_dir(path)
    }

    fn remove_dir(&self, path: &str) -> io::Result<()> {
        self.rt.remove_dir(path)
    }

    fn remove_dir_all<B: Allocator>(&self, alloc: B, path: &str) -> io::Result<()> {
        self.rt.remove_dir_all(alloc, path)
    }

    fn canonicalize<B: Allocator>(&self, alloc: B, path: &str) -> io::Result<PathBuf<B>> {
        self.rt.canonicalize(alloc, path)
    }

    fn set_permissions(&self, path: &str, perm: Permissions) -> io::Result<()> {
        self.rt.set_permissions(path, perm)
    }

    fn read_link<B: Allocator>(&self, _alloc: B, _path: &str) -> io::Result<PathBuf<B>> {
        Err(unsupported())
    }

    fn hard_link(&self, _original: &str, _link: &str) -> io::Result<()> {
        Err(unsupported())
    }

    fn symlink(&self, _original: &str, _link: &str) -> io::Result<()> {
        Err(unsupported())
    }

    fn pipe(&self) -> io::Result<(PipeReader, PipeWriter)> {
        Err(unsupported())
    }

    fn chown(&self, _path: &str, _uid: Option<u32>, _gid: Option<u32>) -> io::Result<()> {
        Err(unsupported())
    }

    fn lchown(&self, _path: &str, _uid: Option<u32>, _gid: Option<u32>) -> io::Result<()> {
        Err(unsupported())
    }

    fn create_dir_with_mode(&self, _path: &str, _mode: u32) -> io::Result<()> {
        Err(unsupported())
    }

    fn bind_unix(&self, _socket: BorrowedFd<'_>, _addr: &unix::net::SocketAddr) -> io::Result<()> {
        Err(unsupported())
    }
}

// Returns the recorded name of the operation that opens a file with these options.
fn opening_step(how: &OpenOptions) -> &'static str {
    if how.asks_create_new() {
        "create"
    } else if how.asks_write() {
        "open"
    } else {
        "read"
    }
}

/// Returns the error of a call that the program does not use.
pub(crate) fn unsupported() -> io::Error {
    io::Error::from(ErrorKind::Unsupported)
}

/// The standard error of a launched program.
#[derive(Drop)]
pub(crate) struct StandardError<'a> {
    journal: &'a Journal<'a>,
    pub(crate) written: Vec<u8>,
}

impl<'a> StandardError<'a> {
    /// Returns a standard error stream to which nothing has been written.
    pub(crate) fn new(alloc: Global, journal: &'a Journal<'a>) -> StandardError<'a> {
        StandardError {
            journal,
            written: Vec::new(alloc),
        }
    }
}

impl Write for StandardError<'_> {
    fn write(&mut self, buf: &[u8]) -> io::Result<usize> {
        self.journal.record_once("err")?;
        self.written.extend_from_slice(buf)?;
        Ok(buf.len())
    }

    fn flush(&mut self) -> io::Result<()> {
        Ok(())
    }
}
