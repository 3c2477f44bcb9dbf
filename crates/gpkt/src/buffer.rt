//! The buffer of a packet reader.

ghost use Rattle.std.specs.Prelude.{◌≡◌, IsOkUnless, vec_len};
ghost use Rattle.gpkt.specs.Packets.{max_payload};

use crate::fault::PacketFault;
use crate::packet::MAX_PAYLOAD;
use std::alloc::{Allocator, Global};

/// A buffer for one payload of up to 65,516 bytes, allocated once.
#[derive(Drop)]
pub struct PacketBuffer<A: Allocator + Copy = Global> {
    pub(crate) bytes: Vec<u8, A>,
    ghost whole: { vec_len bytes ≡ max_payload },
}

impl<A: Allocator + Copy> PacketBuffer<A> {
    /// Allocates a buffer. Fails only with [`PacketFault::Memory`].
    pub fn new(alloc: A) -> Result<PacketBuffer<A>, PacketFault>
        ensures { IsOkUnless result PacketFault.Memory }
    {
        match vec![in alloc; 0u8; MAX_PAYLOAD] {
            Ok(bytes) => Ok(PacketBuffer { bytes }),
            Err(_) => Err(PacketFault::Memory),
        }
    }
}
