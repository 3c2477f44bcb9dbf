//! Reading packets.

ghost use Rattle.std.specs.Prelude.{◌≡◌, ◌≤◌, ◌↔◌, true, false, length, IfOk, IfErr, IfSome, IsErrOf};
ghost use Rattle.gpkt.specs.Packets.{max_payload, packet_of, payload_of};
ghost use Rattle.gpkt.specs.PacketReading.{IsReadFault};

use crate::buffer::PacketBuffer;
use crate::device::Source;
use crate::fault::PacketFault;
use crate::head::{packet_within, read_into};
use crate::packet::Packet;
use std::alloc::{Allocator, Global};
use std::marker::Model;

/// Reads packets from a source, never past the end of a packet.
///
/// The payload of a packet is borrowed from the reader's only buffer until the next call.
#[derive(Drop)]
pub struct PacketReader<S, A: Allocator + Copy = Global> {
    source: S,
    failed: bool,
    buffer: PacketBuffer<A>,
}

impl<S, A: Allocator + Copy> Model for PacketReader<S, A> {
    ghost use Rattle.gpkt.specs.PacketReading.{Reader};
    ghost use Rattle.gpkt.specs.steps.PacketReading.{reader_code};

    ghost Value = { Reader S };

    ghost coded = { reader_code S.code };

    ghost view = { λ r. record { source = r.source; failed = r.failed } };
}

impl<S: Source, A: Allocator + Copy> PacketReader<S, A> {
    ghost use Rattle.std.specs.Borrow.{sem};
    ghost use Rattle.gpkt.specs.Lending.{LendsPacket};

    /// Allocates a buffer and returns a reader that has not failed. Fails only with
    /// [`PacketFault::Memory`], and then drops the source without reading from it. A caller that
    /// must keep a borrowed source allocates the buffer first and calls
    /// [`with_buffer`](PacketReader::with_buffer).
    pub fn new(alloc: A, source: S) -> Result<PacketReader<S, A>, PacketFault>
    where
        S: Drop,
        ensures source { IfOk result (λ reader. reader.source ≡ source) }
        ensures failed { IfOk result (λ reader. reader.failed ≡ false) }
        ensures faults { IfErr result (λ fault. fault ≡ PacketFault.Memory) }
    {
        match PacketBuffer::new(alloc) {
            Ok(buffer) => Ok(PacketReader::with_buffer(buffer, source)),
            Err(fault) => Err(fault),
        }
    }

    /// Returns a reader with an existing buffer, without allocating. The reader has not failed.
    pub fn with_buffer(buffer: PacketBuffer<A>, source: S) -> PacketReader<S, A>
        ensures source { result.source ≡ source }
        ensures failed { result.failed ≡ false }
    {
        PacketReader {
            source,
            failed: false,
            buffer,
        }
    }

    /// Reads the next packet: four digits, and then exactly the payload. Returns `None` if the
    /// input ends before the first digit.
    ///
    /// Fails with [`BadDigits`](PacketFault::BadDigits) if one of the four digits is not a
    /// hexadecimal digit of either case. Fails with [`Reserved`](PacketFault::Reserved) for `0003`,
    /// and with [`TooLong`](PacketFault::TooLong) for `fff1` to `ffff`. Fails with
    /// [`Truncated`](PacketFault::Truncated) if the input ends inside the digits or the payload.
    /// Fails with [`Io`](PacketFault::Io) if the source fails. After any of these faults, every
    /// later call returns [`Failed`](PacketFault::Failed) and reads nothing.
    pub fn next(&mut self) -> Result<Option<Packet<'_>>, PacketFault>
        ensures refused { IsErrOf result PacketFault.Failed ↔ (self.old.failed ≡ true) }
        ensures limit { IfOk result
            (λ line. IfSome line (λ found. length (payload_of (packet_of found)) ≤ max_payload)) }
        ensures faults { IfErr result IsReadFault }
        ensures* rests { sem 𝓛 (LendsPacket S.row A.row A.Allocator S.remaining
            S.is_down S.loans self.entry result) }
    {
        if self.failed {
            return Err(PacketFault::Failed);
        }
        match read_into(&mut self.source, self.buffer.bytes.as_mut_slice()) {
            Ok(Some(head)) => Ok(Some(packet_within(head, self.buffer.bytes.as_slice()))),
            Ok(None) => Ok(None),
            Err(fault) => {
                self.failed = true;
                Err(fault)
            }
        }
    }

    /// Returns the source in its current state.
    pub fn into_inner(self) -> S
        ensures { result ≡ self.source }
    {
        let PacketReader {
            source,
            failed: _,
            buffer,
        } = self;
        drop(buffer);
        source
    }
}
