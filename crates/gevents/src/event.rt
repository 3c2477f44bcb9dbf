//! Events of an event loop.

ghost use Rattle.gevents.specs.Peers.{HasEnded, IsCounted};

use gtalk::{Connection, Conversation};
use std::alloc::Allocator;
use std::net::SocketAddr;
use std::time::Duration;

/// The reason why a peer is refused.
#[derive(Clone, Copy, Debug, PartialEq, Eq)]
pub enum Refusal {
    /// The number of connections is at its limit.
    Full,
    /// The number of connections from the network of this IP address is at its limit.
    AddressLimit,
}

/// The reason why a connection ended.
#[derive(Clone, Copy, Debug, PartialEq, Eq)]
pub enum End {
    /// The conversation is done, and all its packets were sent.
    Over,
    /// The conversation is done, because the peer did not send in time. All packets of the
    /// conversation were sent.
    Silent,
    /// The peer accepted no byte for longer than its time limit.
    Stalled,
    /// The connection lasted longer than its time limit.
    Overdue,
    /// The socket failed while bytes were pending, or the system could not watch the socket.
    Lost,
    /// There was not enough memory to serve the peer.
    Memory,
}

/// A connection that has ended. The state of the connection matches the bytes that were received
/// and sent, the count of sent bytes, and the reason for the end ([`laws`](Ended::laws)).
#[derive(Drop)]
pub struct Ended<C: Conversation, A: Allocator + Copy> {
    /// The connection in its final state.
    pub connection: Connection<C, A>,
    /// The peer's address.
    pub address: SocketAddr,
    /// The reason why the connection ended.
    pub end: End,
    /// The number of sent bytes, saturated at `u64::MAX`.
    pub sent: u64,
    /// The time from accepting the connection to its end.
    pub took: Duration,
    ghost held: { ∥ IsCounted C.holds connection sent ∥₁ },
    ghost ended: { ∥ HasEnded C.turn connection end ∥₁ },
}

impl<C: Conversation, A: Allocator + Copy> Ended<C, A> {
    /// Proves that the state of the ended connection matches its received and sent bytes, the count
    /// of sent bytes, and the reason for the end.
    pub fn laws(&self)
        ensures held { ∥ IsCounted C.holds self.now.connection self.now.sent ∥₁ }
        ensures ended { ∥ HasEnded C.turn self.now.connection self.now.end ∥₁ }
    {
        let _ = &self.sent;
    }
}

/// An event that the loop reports.
#[derive(Drop)]
pub enum Event<C: Conversation, A: Allocator + Copy> {
    /// A peer has connected. The caller can start a conversation with
    /// [`EventLoop::begin`](crate::EventLoop). If the caller does not, the next call of
    /// `EventLoop::next` closes the connection.
    Connected(SocketAddr),
    /// A peer has connected, but a limit on the number of connections is reached. The caller can
    /// send the peer an error with [`EventLoop::refuse`](crate::EventLoop). The next call of
    /// `EventLoop::next` closes the connection.
    Refused(SocketAddr, Refusal),
    /// A connection has ended.
    Ended(Ended<C, A>),
}
