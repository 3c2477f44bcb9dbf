//! A connection: a conversation whose packets are received and sent as bytes.

ghost use Rattle.gtalk.specs.Partial.{IsPartial};

use crate::conversation::Stop;
use crate::incoming::Incoming;
use crate::outgoing::Outgoing;
use std::alloc::{Allocator, Global};

/// A conversation, the bytes of an incomplete packet, and the bytes that are still to be sent.
///
/// While the conversation listens, pass received bytes to [`receive`](Connection::receive), at most
/// [`receive_limit`](Connection::receive_limit) bytes at a time. While the conversation speaks,
/// call [`speak`](Connection::speak). Send the bytes of [`output`](Connection::output), and report
/// their number to [`note_sent`](Connection::note_sent).
///
/// A connection without a [`Room`](crate::Room) allocates the buffer for received bytes when the
/// first byte is received, and the send queue when the conversation first speaks.
#[derive(Drop)]
pub struct Connection<C, A: Allocator + Copy = Global> {
    pub(crate) conversation: C,
    pub(crate) alloc: A,
    // The reason why no more packets arrive, or `None` while packets may arrive.
    pub(crate) stopped: Option<Stop>,
    pub(crate) incoming: Incoming<A>,
    // The send queue, or `None` while the queue is not allocated.
    pub(crate) outgoing: Option<Outgoing<A>>,
    // The number of bytes of the send queue that have been sent.
    pub(crate) sent: usize,
    ghost part: { ∥ IsPartial stopped incoming.bytes ∥₁ },
}
