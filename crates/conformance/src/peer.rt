//! The peer of a connection over a socket in the same process. The peer sends the messages of a
//! row, and reads the output of the tested program.

use case_text::{Conversation, Trouble};
use std::alloc::Global;
use std::cell::{Cell, RefCell};
use std::io::{self, ErrorKind, Read, Write};
use std::net::{Net, OpenListener, OpenStream, Shutdown, SocketAddr, TcpListener, TcpStream};
use std::time::Duration;

/// The pace at which the peer and the tested program take turns.
#[derive(Clone, Copy, PartialEq, Eq)]
pub enum Pace {
    /// The peer sends all messages at once, before it reads any bytes.
    AtOnce,
    /// The peer sends each message after it has read the whole reply to the previous message.
    Turns,
    /// The peer and the program take turns, and each call transfers one byte.
    SingleBytes,
}

impl Pace {
    pub const ALL: [Pace; 3] = [Pace::AtOnce, Pace::Turns, Pace::SingleBytes];

    // Returns the maximum number of bytes in a call.
    fn max_per_call(self) -> usize {
        match self {
            Pace::AtOnce | Pace::Turns => usize::MAX,
            Pace::SingleBytes => 1,
        }
    }
}

// The seconds that the peer waits for bytes that the program has already written. The peer waits
// only if the program is faulty.
const READ_TIMEOUT_SECONDS: u64 = 5;

// The maximum number of bytes that the peer reads in one call.
const MAX_READ_LEN: usize = 4_096;

/// The peer of a connection.
#[derive(Drop)]
pub struct Peer<'r> {
    conversation: &'r Conversation,
    peer_stream: TcpStream,
    pace: Pace,
    // The number of bytes that the peer has sent.
    sent_len: Cell<usize>,
    // The number of bytes that the program has read.
    program_read_len: Cell<usize>,
    // The number of bytes that the program has written.
    program_written_len: Cell<usize>,
    // The bytes that the peer has read.
    received: RefCell<Vec<u8>>,
    // Whether the peer takes no more turns, because it has shut down writing or the stream of the
    // program is nonblocking.
    has_no_turns: Cell<bool>,
    // Whether the program waited for a message before it had sent the whole reply to the previous
    // message.
    was_awaited_early: Cell<bool>,
}

impl<'r> Peer<'r> {
    /// Returns a peer that connects to the listener.
    pub fn new<N>(
        net: &N,
        alloc: Global,
        conversation: &'r Conversation,
        pace: Pace,
        listener: &TcpListener,
    ) -> Result<Peer<'r>, Trouble>
    where
        N: Net<Stream = TcpStream, Listener = TcpListener>,
    {
        let peer_stream = TcpStream::connect(net, listener.local_addr()?)?;
        peer_stream.set_read_timeout(Some(Duration::from_secs(READ_TIMEOUT_SECONDS)))?;
        peer_stream.set_nodelay(true)?;
        let peer = Peer {
            conversation,
            peer_stream,
            pace,
            sent_len: Cell::new(0),
            program_read_len: Cell::new(0),
            program_written_len: Cell::new(0),
            received: RefCell::new(Vec::new(alloc)),
            has_no_turns: Cell::new(false),
            was_awaited_early: Cell::new(false),
        };
        if pace == Pace::AtOnce {
            peer.send(conversation.input.as_slice())?;
            peer.shut_down_writing()?;
        }
        Ok(peer)
    }

    /// Returns whether the program always sent a whole reply before it waited for the next message.
    pub fn kept_turns(&self) -> bool {
        !self.was_awaited_early.get()
    }

    /// Returns the bytes that the peer read.
    pub fn into_received(self) -> Vec<u8> {
        self.received.into_inner()
    }

    /// Returns whether the program closed its end without an error.
    pub fn is_closed(&self) -> bool {
        let mut byte = [0; 1];
        let mut peer_stream = &self.peer_stream;
        matches!(peer_stream.read(&mut byte), Ok(0))
    }

    // If the program has read all bytes sent so far, lets the peer read and then send.
    fn take_turn(&self) -> io::Result<()> {
        if self.has_no_turns.get() || self.program_read_len.get() < self.sent_len.get() {
            return Ok(());
        }
        self.receive_all()?;
        let part = self.next_part();
        if part.is_empty() {
            self.shut_down_writing()
        } else {
            self.send(part)
        }
    }

    // Returns the bytes that the peer sends next. The result is empty if the peer has sent all
    // bytes, or if the program's reply is not complete.
    fn next_part(&self) -> &'r [u8] {
        let sent_len = self.sent_len.get();
        if !self.may_send(sent_len) {
            self.was_awaited_early.set(true);
            return b"";
        }
        let end = match self.pace {
            Pace::SingleBytes => sent_len.saturating_add(1),
            Pace::AtOnce | Pace::Turns => self.conversation.message_end(sent_len),
        };
        let input: &'r [u8] = self.conversation.input.as_slice();
        match input.get(sent_len..end.min(input.len())) {
            Some(part) => part,
            None => b"",
        }
    }

    // Returns whether the peer may send the message that begins at this offset. The peer must have
    // read exactly the output before the message.
    fn may_send(&self, sent_len: usize) -> bool {
        match self.conversation.message_at(sent_len) {
            Some(packet_start) => self.received_len() == packet_start.output_before,
            None => true,
        }
    }

    fn received_len(&self) -> usize {
        match self.received.try_borrow() {
            Ok(received) => received.len(),
            Err(_) => 0,
        }
    }

    fn send(&self, part: &[u8]) -> io::Result<()> {
        let mut peer_stream = &self.peer_stream;
        peer_stream.write_all(part)?;
        self.sent_len
            .set(self.sent_len.get().saturating_add(part.len()));
        Ok(())
    }

    fn shut_down_writing(&self) -> io::Result<()> {
        self.has_no_turns.set(true);
        self.peer_stream.shutdown(Shutdown::Write)
    }

    /// Reads all bytes that the program has written. Fails if the connection is reset.
    pub fn receive_all(&self) -> io::Result<()> {
        for _ in 0..u64::MAX {
            let unread_len = self
                .program_written_len
                .get()
                .saturating_sub(self.received_len());
            if unread_len == 0 || self.receive_some(unread_len)? == 0 {
                break;
            }
        }
        Ok(())
    }

    // Reads at most `max_per_call` bytes, and returns their number.
    fn receive_some(&self, max_per_call: usize) -> io::Result<usize> {
        let mut bytes = [0; MAX_READ_LEN];
        let mut peer_stream = &self.peer_stream;
        let count = peer_stream.read(&mut bytes[..max_per_call.min(MAX_READ_LEN)])?;
        let Ok(mut received) = self.received.try_borrow_mut() else {
            return Err(io::Error::from(ErrorKind::ResourceBusy));
        };
        match received.extend_from_slice(&bytes[..count]) {
            Ok(()) => Ok(count),
            Err(_) => Err(io::Error::from(ErrorKind::OutOfMemory)),
        }
    }
}

/// The tested program's end of a connection. The peer takes a turn before each read.
#[derive(Drop)]
pub struct TurnStream<'p, 'r> {
    program_stream: TcpStream,
    peer: &'p Peer<'r>,
}

impl Read for TurnStream<'_, '_> {
    fn read(&mut self, buf: &mut [u8]) -> io::Result<usize> {
        self.peer.take_turn()?;
        let max_per_call = buf.len().min(self.peer.pace.max_per_call());
        let count = self.program_stream.read(&mut buf[..max_per_call])?;
        let read = self.peer.program_read_len.get().saturating_add(count);
        self.peer.program_read_len.set(read);
        Ok(count)
    }
}

impl Write for TurnStream<'_, '_> {
    fn write(&mut self, buf: &[u8]) -> io::Result<usize> {
        let max_per_call = buf.len().min(self.peer.pace.max_per_call());
        let count = self.program_stream.write(&buf[..max_per_call])?;
        let program_written_len = self.peer.program_written_len.get().saturating_add(count);
        self.peer.program_written_len.set(program_written_len);
        Ok(count)
    }

    fn flush(&mut self) -> io::Result<()> {
        self.program_stream.flush()
    }
}

impl OpenStream for TurnStream<'_, '_> {
    fn shutdown(&self, how: Shutdown) -> io::Result<()> {
        self.program_stream.shutdown(how)
    }

    fn set_nodelay(&self, nodelay: bool) -> io::Result<()> {
        self.program_stream.set_nodelay(nodelay)
    }

    // In nonblocking mode, a read does not give the peer a turn.
    fn set_nonblocking(&self, nonblocking: bool) -> io::Result<()> {
        self.peer.has_no_turns.set(nonblocking);
        self.program_stream.set_nonblocking(nonblocking)
    }

    fn set_read_timeout(&self, dur: Option<Duration>) -> io::Result<()> {
        self.program_stream.set_read_timeout(dur)
    }

    fn set_write_timeout(&self, dur: Option<Duration>) -> io::Result<()> {
        self.program_stream.set_write_timeout(dur)
    }
}

/// A listener for connections from one peer.
#[derive(Drop)]
pub struct TurnListener<'p, 'r> {
    listener: TcpListener,
    peer: &'p Peer<'r>,
}

impl<'p, 'r> TurnListener<'p, 'r> {
    /// Returns a listener for the connections that the peer has made.
    pub fn new(listener: TcpListener, peer: &'p Peer<'r>) -> TurnListener<'p, 'r> {
        TurnListener { listener, peer }
    }
}

impl<'p, 'r> OpenListener for TurnListener<'p, 'r> {
    type Stream = TurnStream<'p, 'r>;

    fn accept(&self) -> io::Result<(TurnStream<'p, 'r>, SocketAddr)> {
        let (program_stream, address) = self.listener.accept()?;
        let peer = self.peer;
        Ok((
            TurnStream {
                program_stream,
                peer,
            },
            address,
        ))
    }
}
