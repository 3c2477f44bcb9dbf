//! A stream to a peer, with time limits.

ghost use Rattle.std.specs.Io.{ReadsAtMost};

use crate::deadline::{MAX_CONNECT, MAX_SILENCE};
use crate::timer::Timer;
use std::cell::RefCell;
use std::io::{self, ErrorKind, Read, Write};
use std::net::{Net, OpenStream, Shutdown, TcpStream, ToSocketAddrs};
use std::time::Duration;

/// The capacity in bytes of a write buffer, which collects a message for a single write.
pub(crate) const MESSAGE_BUFFER: usize = 65_536;

// The maximum number of bytes in one read that discards input. `MAX_DROPS` is the maximum number of
// these reads.
const DROPPED_BYTES: usize = 4_096;

const MAX_DROPS: usize = 1_024;

// The number of attempts to read before the read fails. Each interruption by a signal ends an
// attempt.
const MAX_INTERRUPTS: u32 = 1_024;

// The number of seconds that a single write waits. A wait counts as silence only if the peer
// accepts no byte during the whole wait. A peer that stops in the middle of a wait therefore times
// out up to five seconds late.
const WRITE_WAIT: u64 = 5;

/// Connects to an address given as HOST:PORT. Tries the addresses of the host in order, and uses
/// the first address that accepts a connection within [`MAX_CONNECT`] seconds.
///
/// Fails with the error of the host look-up if the look-up fails. If no address accepts a
/// connection, fails with the error of the last address.
pub fn connect_to<N: Net>(net: &N, address: &str) -> io::Result<N::Stream> {
    let limit = Duration::from_secs(MAX_CONNECT);
    let mut last_error = io::Error::from(ErrorKind::AddrNotAvailable);
    for address in address.to_socket_addrs(net)? {
        match TcpStream::connect_timeout(net, &address, limit) {
            Ok(stream) => return Ok(stream),
            Err(error) => last_error = error,
        }
    }
    Err(last_error)
}

/// The stream to a peer, shared by a reader and a writer: `&Peer` reads and writes. A read fails if
/// the peer sends nothing within the time limit of the timer. A write fails if the peer accepts
/// nothing for [`MAX_SILENCE`] seconds. Either call fails if the system refuses a time limit, or if
/// another call on the peer is active.
#[derive(Drop)]
pub struct Peer<S, T> {
    stream: RefCell<S>,
    timer: T,
}

impl<S: OpenStream, T> Peer<S, T> {
    /// Returns the peer at the other end of a stream. Turns off Nagle's algorithm, so that each
    /// message is sent at once.
    pub fn new(stream: S, timer: T) -> Peer<S, T> {
        let _ = stream.set_nodelay(true);
        Peer {
            stream: RefCell::new(stream),
            timer,
        }
    }
}

impl<S: Read + OpenStream, T> Peer<S, T> {
    /// Shuts down writing, so that the last message and the end of the stream are sent. Then
    /// discards unread input, without waiting for more. If a socket is closed with unread input,
    /// the connection is reset, and the peer can lose the last message. The peer can still lose
    /// this message if more input arrives after the unread input was discarded.
    pub fn hang_up(&self) {
        if let Ok(mut stream) = self.stream.try_borrow_mut() {
            let _ = stream.shutdown(Shutdown::Write);
            if stream.set_nonblocking(true).is_ok() {
                drop_unread(&mut *stream);
            }
        }
    }
}

impl<S: Read + OpenStream, T: Timer> Peer<S, T> {
    // Reads once, within the time limit of the timer.
    fn read_in_time(&self, buf: &mut [u8]) -> io::Result<usize>
        ensures { ReadsAtMost result buf.new }
    {
        let limit = self.timer.next_read()?;
        let Ok(mut stream) = self.stream.try_borrow_mut() else {
            return Err(in_use());
        };
        stream.set_read_timeout(Some(limit))?;
        stream.read(buf)
    }
}

impl<S: Read + OpenStream, T: Timer> Read for &Peer<S, T> {
    fn read(&mut self, buf: &mut [u8]) -> io::Result<usize> {
        for _ in 0..MAX_INTERRUPTS {
            match self.read_in_time(buf) {
                Err(error) if error.kind() == ErrorKind::Interrupted => {}
                read => return read,
            }
        }
        Err(io::Error::from(ErrorKind::Interrupted))
    }
}

impl<S: Write + OpenStream, T: Timer> Write for &Peer<S, T> {
    fn write(&mut self, buf: &[u8]) -> io::Result<usize> {
        self.timer.note_write();
        let Ok(mut stream) = self.stream.try_borrow_mut() else {
            return Err(in_use());
        };
        stream.set_write_timeout(Some(Duration::from_secs(WRITE_WAIT)))?;
        for _ in 0..MAX_SILENCE / WRITE_WAIT {
            match stream.write(buf) {
                Err(error) if is_waiting(error.kind()) => {}
                written => return written,
            }
        }
        Err(io::Error::from(ErrorKind::TimedOut))
    }

    fn flush(&mut self) -> io::Result<()> {
        match self.stream.try_borrow_mut() {
            Ok(mut stream) => stream.flush(),
            Err(_) => Err(in_use()),
        }
    }
}

// Returns whether a write that failed with this error may be tried again. In that case the peer
// accepted no byte.
fn is_waiting(kind: ErrorKind) -> bool {
    matches!(
        kind,
        ErrorKind::WouldBlock | ErrorKind::TimedOut | ErrorKind::Interrupted
    )
}

// Returns the error of a call that starts while another call is active.
fn in_use() -> io::Error {
    io::Error::from(ErrorKind::ResourceBusy)
}

// Discards the input that has arrived. The stream must not block.
fn drop_unread<S: Read>(stream: &mut S) {
    let mut dropped = [0; DROPPED_BYTES];
    for _ in 0..MAX_DROPS {
        match stream.read(&mut dropped) {
            Ok(0) | Err(_) => return,
            Ok(_) => {}
        }
    }
}
