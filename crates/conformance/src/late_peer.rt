//! Connections in memory with a late peer and a simulated clock. The clock advances only while a
//! read or a write waits.

ghost use Rattle.std.specs.Io.{ReadsAtMost, WritesAtMost};

use case_runs::Writer;
use case_text::{Conversation, Trouble};
use std::alloc::Global;
use std::cell::{Cell, RefCell};
use std::io::{self, ErrorKind, Read, Write};
use std::net::{Ipv4Addr, OpenListener, OpenStream, Shutdown, SocketAddr};
use std::time::{Clock, Duration};

/// The behavior of a simulated clock.
#[derive(Clone, Copy, PartialEq, Eq)]
pub enum ClockBehavior {
    /// The clock advances while a call waits.
    Steady,
    /// The clock goes back one second at each reading.
    GoesBack,
    /// Each reading of the clock fails.
    Fails,
}

/// A simulated clock that advances only while a call waits.
#[derive(Drop)]
pub struct SimulatedClock {
    now: Cell<Duration>,
    behavior: ClockBehavior,
    // The total time by which the clock has gone back.
    backward_time: Cell<Duration>,
}

// The first reading of the clock, in seconds.
const FIRST_READING_SECONDS: u64 = 86_400;

impl SimulatedClock {
    pub fn new(behavior: ClockBehavior) -> SimulatedClock {
        SimulatedClock {
            now: Cell::new(Duration::ZERO),
            behavior,
            backward_time: Cell::new(Duration::ZERO),
        }
    }

    /// Returns the total time that calls have waited.
    pub fn time_passed(&self) -> Duration {
        self.now.get()
    }

    fn advance(&self, time: Duration) {
        self.now.set(self.now.get().saturating_add(time));
    }
}

impl Clock for SimulatedClock {
    fn monotonic(&self) -> io::Result<Duration> {
        let now = Duration::from_secs(FIRST_READING_SECONDS).saturating_add(self.now.get());
        match self.behavior {
            ClockBehavior::Steady => Ok(now),
            ClockBehavior::GoesBack => {
                let backward_time = self
                    .backward_time
                    .get()
                    .saturating_add(Duration::from_secs(1));
                self.backward_time.set(backward_time);
                Ok(now.saturating_sub(backward_time))
            }
            ClockBehavior::Fails => Err(io::Error::from(ErrorKind::Other)),
        }
    }

    fn since_1970(&self) -> io::Result<Duration> {
        self.monotonic()
    }
}

/// The delays and limits of a peer.
#[derive(Clone, Copy)]
pub struct PeerBehavior {
    /// The index of the first byte that the peer sends slowly. This byte and all later bytes arrive
    /// one at a time.
    pub slow_from: usize,
    /// The delay before each byte that the peer sends slowly.
    pub delay: Duration,
    /// The index of the first byte that the peer never sends.
    pub silent_from: usize,
    /// The maximum number of bytes that the peer accepts.
    pub max_accepted: usize,
}

impl PeerBehavior {
    /// The behavior of a prompt peer, which sends all bytes at once and accepts all bytes.
    pub const PROMPT: PeerBehavior = PeerBehavior {
        slow_from: usize::MAX,
        delay: Duration::ZERO,
        silent_from: usize::MAX,
        max_accepted: usize::MAX,
    };

    /// Returns the peer's delay before this byte, or `None` if the byte is never sent.
    pub fn delay_before(&self, index: usize) -> Option<Duration> {
        if index >= self.silent_from {
            None
        } else if index >= self.slow_from {
            Some(self.delay)
        } else {
            Some(Duration::ZERO)
        }
    }

    // Returns the end of the piece that starts at this byte. The bytes of a piece arrive together.
    fn piece_end(&self, index: usize) -> usize {
        if index >= self.slow_from {
            index.saturating_add(1)
        } else {
            self.slow_from.min(self.silent_from)
        }
    }
}

/// A connection to a late peer.
#[derive(Drop)]
pub struct LateConnection<'r> {
    conversation: &'r Conversation,
    behavior: PeerBehavior,
    next_byte: Cell<usize>,
    accepted: RefCell<Vec<u8>>,
    read_timeout: Cell<Option<Duration>>,
    write_timeout: Cell<Option<Duration>>,
    is_nonblocking: Cell<bool>,
    // Whether a call would have waited forever, because no timeout was set.
    is_stuck: Cell<bool>,
}

impl<'r> LateConnection<'r> {
    /// Returns a connection to a peer of this behavior, which sends the input of the conversation.
    pub fn new(
        alloc: Global,
        conversation: &'r Conversation,
        behavior: PeerBehavior,
    ) -> LateConnection<'r> {
        LateConnection {
            conversation,
            behavior,
            next_byte: Cell::new(0),
            accepted: RefCell::new(Vec::new(alloc)),
            read_timeout: Cell::new(None),
            write_timeout: Cell::new(None),
            is_nonblocking: Cell::new(false),
            is_stuck: Cell::new(false),
        }
    }

    /// Returns the bytes that the peer accepted. If a call would have waited forever, the bytes
    /// count as not flushed.
    pub fn accepted_bytes(&self, alloc: Global) -> Result<Writer, Trouble> {
        match self.accepted.try_borrow() {
            Ok(accepted) => Ok(Writer::with_bytes(
                alloc,
                accepted.as_slice(),
                !self.is_stuck.get(),
            )?),
            Err(_) => Err(Trouble::TestIo),
        }
    }

    // Advances the simulated clock by the delay `time`. If the delay is not shorter than `limit`,
    // advances the clock by `limit` and fails. If `time` is `None`, the delay never ends. In
    // nonblocking mode, fails at once unless the delay is zero.
    fn wait(
        &self,
        clock: &SimulatedClock,
        time: Option<Duration>,
        limit: Option<Duration>,
    ) -> io::Result<()> {
        match (time, limit) {
            (Some(time), _) if time.is_zero() => Ok(()),
            _ if self.is_nonblocking.get() => Err(io::Error::from(ErrorKind::WouldBlock)),
            (Some(time), Some(limit)) if time < limit => self.advance(clock, time),
            (Some(time), None) => self.advance(clock, time),
            (_, Some(limit)) => {
                clock.advance(limit);
                Err(io::Error::from(ErrorKind::WouldBlock))
            }
            (None, None) => {
                self.is_stuck.set(true);
                Err(io::Error::from(ErrorKind::TimedOut))
            }
        }
    }

    fn advance(&self, clock: &SimulatedClock, time: Duration) -> io::Result<()> {
        clock.advance(time);
        Ok(())
    }

    // Writes the next bytes into the buffer, and returns their number.
    fn send_next(&self, clock: &SimulatedClock, buf: &mut [u8]) -> io::Result<usize>
        ensures { ReadsAtMost result buf.new }
    {
        let index = self.next_byte.get();
        let input = self.conversation.input.as_slice();
        if index >= input.len() {
            return Ok(0);
        }
        self.wait(
            clock,
            self.behavior.delay_before(index),
            self.read_timeout.get(),
        )?;
        let end = self.behavior.piece_end(index).min(input.len());
        let Some(piece) = input.get(index..end) else {
            return Ok(0);
        };
        let count = piece.len().min(buf.len());
        buf[..count].copy_from_slice(&piece[..count]);
        self.next_byte.set(index.saturating_add(count));
        Ok(count)
    }

    // Accepts a prefix of the bytes, and returns the prefix's length.
    fn accept_bytes(&self, clock: &SimulatedClock, buf: &[u8]) -> io::Result<usize>
        ensures { WritesAtMost result buf.now }
    {
        let Ok(mut accepted) = self.accepted.try_borrow_mut() else {
            return Err(io::Error::from(ErrorKind::ResourceBusy));
        };
        let room = self.behavior.max_accepted.saturating_sub(accepted.len());
        if room == 0 && !buf.is_empty() {
            self.wait(clock, None, self.write_timeout.get())?;
        }
        let count = buf.len().min(room);
        match accepted.extend_from_slice(&buf[..count]) {
            Ok(()) => Ok(count),
            Err(_) => Err(io::Error::from(ErrorKind::OutOfMemory)),
        }
    }
}

/// The tested program's end of a connection to a late peer.
#[derive(Drop)]
pub struct LateStream<'c, 'r> {
    clock: &'c SimulatedClock,
    connection: &'c LateConnection<'r>,
}

impl Read for LateStream<'_, '_> {
    fn read(&mut self, buf: &mut [u8]) -> io::Result<usize> {
        self.connection.send_next(self.clock, buf)
    }
}

impl Write for LateStream<'_, '_> {
    fn write(&mut self, buf: &[u8]) -> io::Result<usize> {
        self.connection.accept_bytes(self.clock, buf)
    }

    fn flush(&mut self) -> io::Result<()> {
        Ok(())
    }
}

impl OpenStream for LateStream<'_, '_> {
    fn shutdown(&self, _how: Shutdown) -> io::Result<()> {
        Ok(())
    }

    fn set_nodelay(&self, _nodelay: bool) -> io::Result<()> {
        Ok(())
    }

    fn set_nonblocking(&self, nonblocking: bool) -> io::Result<()> {
        self.connection.is_nonblocking.set(nonblocking);
        Ok(())
    }

    fn set_read_timeout(&self, dur: Option<Duration>) -> io::Result<()> {
        set_timeout(&self.connection.read_timeout, dur)
    }

    fn set_write_timeout(&self, dur: Option<Duration>) -> io::Result<()> {
        set_timeout(&self.connection.write_timeout, dur)
    }
}

// Sets a timeout. A timeout of zero is an error, as for a socket.
fn set_timeout(timeout: &Cell<Option<Duration>>, dur: Option<Duration>) -> io::Result<()> {
    if dur == Some(Duration::ZERO) {
        return Err(io::Error::from(ErrorKind::InvalidInput));
    }
    timeout.set(dur);
    Ok(())
}

/// A listener that accepts the given connections in order.
#[derive(Drop)]
pub struct LateListener<'c, 'r> {
    clock: &'c SimulatedClock,
    connections: &'c [LateConnection<'r>],
    next: Cell<usize>,
}

impl<'c, 'r> LateListener<'c, 'r> {
    pub fn new(
        clock: &'c SimulatedClock,
        connections: &'c [LateConnection<'r>],
    ) -> LateListener<'c, 'r> {
        LateListener {
            clock,
            connections,
            next: Cell::new(0),
        }
    }
}

impl<'c, 'r> OpenListener for LateListener<'c, 'r> {
    type Stream = LateStream<'c, 'r>;

    fn accept(&self) -> io::Result<(LateStream<'c, 'r>, SocketAddr)> {
        let next = self.next.get();
        let Some(connection) = self.connections.get(next) else {
            return Err(io::Error::from(ErrorKind::ConnectionAborted));
        };
        self.next.set(next.saturating_add(1));
        let clock = self.clock;
        let address = SocketAddr::from((Ipv4Addr::LOCALHOST, 0));
        Ok((LateStream { clock, connection }, address))
    }
}
