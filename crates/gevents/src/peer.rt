//! A served peer.

ghost use Rattle.gevents.specs.Peers.{IsCounted};

use crate::patience::Patience;
use gtalk::{Connection, Conversation};
use mio::net::TcpStream;
use std::alloc::Allocator;
use std::net::SocketAddr;

/// A peer, and the conversation with this peer.
#[derive(Drop)]
pub(crate) struct Peer<C: Conversation, A: Allocator + Copy> {
    pub(crate) stream: TcpStream,
    pub(crate) address: SocketAddr,
    pub(crate) connection: Connection<C, A>,
    pub(crate) patience: Patience,
    // The number of sent bytes, saturated at `u64::MAX`.
    pub(crate) sent: u64,
    // Whether the peer was timed out while it was expected to send.
    pub(crate) was_silent: bool,
    ghost held: { ∥ IsCounted C.holds connection sent ∥₁ },
}
