//! Buffers that are allocated before a connection exists.

ghost use Rattle.std.specs.Prelude.{◌≡◌, ◌≤◌, []};
ghost use Rattle.gpkt.specs.Packets.{max_packet};

use crate::incoming::Incoming;
use crate::outgoing::Outgoing;
use std::alloc::{AllocError, Allocator, Global};

/// The buffers of a connection: one for the bytes of a packet of the maximum size, and the send
/// queue. A connection that uses these buffers never runs out of memory.
#[derive(Drop)]
pub struct Room<A: Allocator + Copy = Global> {
    pub(crate) alloc: A,
    pub(crate) incoming: Incoming<A>,
    pub(crate) outgoing: Outgoing<A>,
    ghost nothing: { incoming.bytes ≡ [] },
    ghost unsent: { outgoing ≡ [] },
    ghost enough: { max_packet ≤ incoming.room },
}

impl<A: Allocator + Copy> Room<A> {
    /// Allocates the buffers. Fails only if memory runs out.
    pub fn new(alloc: A) -> Result<Room<A>, AllocError> {
        let incoming = Incoming::with_room(alloc)?;
        match Outgoing::new(alloc) {
            Ok(outgoing) => Ok(Room {
                alloc,
                incoming,
                outgoing,
            }),
            Err(_) => Err(AllocError),
        }
    }
}
