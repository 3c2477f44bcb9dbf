//! Peers whose connections have ended, and whose sockets are still open.

use crate::event::End;
use crate::moving::After;
use mio::net::TcpStream;
use std::io::{ErrorKind, Read};
use std::time::{Duration, Instant};

// The number of seconds after which the loop closes the socket, even if the peer has not closed the
// connection.
const SECONDS: u64 = 2;

// The maximum number of bytes of one read.
const PIECE: usize = 4_096;

// The maximum number of reads before another peer has its turn.
const READS: u32 = 64;

/// A peer whose connection has ended. The loop reads and drops further bytes from the peer. Closing
/// a socket with unread bytes would reset the connection, and the peer might lose the last bytes
/// sent to it.
#[derive(Drop)]
pub(crate) struct ClosingPeer {
    pub(crate) stream: TcpStream,
    deadline: Instant,
}

impl ClosingPeer {
    /// Returns a peer whose connection ends now.
    pub(crate) fn new(stream: TcpStream, now: Instant) -> ClosingPeer {
        ClosingPeer {
            stream,
            deadline: now.checked_add(Duration::from_secs(SECONDS)).unwrap_or(now),
        }
    }

    /// Ends the wait for the peer to close its socket, if the deadline has passed.
    pub(crate) fn time_out(&self, now: Instant) -> After {
        if self.deadline <= now {
            After::Ends(End::Over)
        } else {
            After::Waits
        }
    }

    /// Reads and drops bytes that have arrived, with a limited number of reads.
    pub(crate) fn advance(&mut self) -> After {
        let mut piece = [0; PIECE];
        for _ in 0..READS {
            match self.stream.read(&mut piece) {
                Ok(0) => return After::Ends(End::Over),
                Ok(_) => {}
                Err(error) if error.kind() == ErrorKind::WouldBlock => return After::Waits,
                Err(error) if error.kind() == ErrorKind::Interrupted => {}
                Err(_) => return After::Ends(End::Over),
            }
        }
        After::GoesOn
    }
}
