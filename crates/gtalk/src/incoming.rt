//! The bytes of one packet, received in pieces of any size.

ghost use Rattle.std.specs.Prelude.{◌≡◌, ◌<◌, ◌≤◌, ◌++◌, [], length, IfErr, IfOk, IsOk, OnErr, OnOk, Some};
ghost use Rattle.gpkt.specs.Packets.{digit_count, max_packet, number_of};
ghost use Rattle.gpkt.specs.PacketReading.{AnnouncesAtFront, IsPartialPacket, read_of};
ghost use Rattle.gtalk.specs.Partial.{IsByBytes, IsByEnd, IsFound, IsStopped, IsWithinPacket, Lacks};

use crate::conversation::Stop;
use gpkt::{MAX_PACKET, Packet, PacketFault};
use std::alloc::{AllocError, Allocator, Global};
use std::marker::Model;

// The number of digits at the start of a packet.
const DIGITS: usize = 4;

/// The received bytes of one packet.
#[derive(Drop)]
pub(crate) struct Incoming<A: Allocator + Copy = Global> {
    bytes: Vec<u8, A>,
}

impl<A: Allocator + Copy> Model for Incoming<A> {
    ghost use Rattle.std.specs.Prelude.{vec_capacity};
    ghost use Rattle.gtalk.specs.Partial.{Buffered, IsWithinPacket};

    ghost Value = { Buffered };

    ghost view = { λ i. record { bytes = i.bytes.items; room = vec_capacity i.bytes } };

    ghost invariant = { λ i. IsWithinPacket i.bytes.items };
}

impl<A: Allocator + Copy> Incoming<A> {
    /// Returns an empty buffer, without allocating.
    pub(crate) fn new(alloc: A) -> Incoming<A>
        ensures { result.bytes ≡ [] }
    {
        Incoming {
            bytes: Vec::new(alloc),
        }
    }

    /// Returns an empty buffer with room for a packet of the maximum size.
    pub(crate) fn with_room(alloc: A) -> Result<Incoming<A>, AllocError>
        ensures empty { IfOk result (λ incoming. incoming.bytes ≡ []) }
        ensures room { IfOk result (λ incoming. max_packet ≤ incoming.room) }
    {
        match Vec::with_capacity(alloc, MAX_PACKET) {
            Ok(bytes) => Ok(Incoming { bytes }),
            Err(fault) => Err(fault),
        }
    }

    /// Returns the number of bytes that are missing from the four digits. If the digits are
    /// complete, returns the number of bytes that are missing from the packet.
    pub(crate) fn lacks(&self) -> usize
        ensures lacks { Lacks self.now.bytes result }
        ensures some { IsPartialPacket self.now.bytes → 0 < result }
    {
        lacks_after(self.as_bytes())
    }

    /// Appends received bytes. Their number must not exceed the number of missing bytes. If the
    /// allocation fails, the stored bytes are unchanged. The call does not fail if the buffer has
    /// room for a packet of the maximum size.
    #[tactic(auto, using(crate::proofs::Partials::within_after))]
    pub(crate) fn take_bytes(&mut self, bytes: &[u8]) -> Result<(), AllocError>
        requires { Lacks self.old.bytes (length bytes.now) }
        ensures taken { OnOk result (self.new.bytes ≡ self.old.bytes ++ bytes.now) }
        ensures same { OnErr result (self.new.bytes ≡ self.old.bytes) }
        ensures room { self.old.room ≤ self.new.room }
        ensures enough { max_packet ≤ self.old.room → IsOk result }
    {
        self.bytes.extend_from_slice(bytes)
    }

    /// Returns the packet, or `None` if the packet is incomplete. Fails if no packet begins with
    /// the stored bytes.
    pub(crate) fn line(&self) -> Result<Option<Packet<'_>>, PacketFault>
        ensures found { IsFound self.now.bytes (read_of result) }
        ensures fault { IfErr result (λ fault. IsByBytes (Some (Stop.Refused fault))) }
    {
        packet_within(self.as_bytes())
    }

    /// Returns the reason to report if the input ends after the stored bytes. The stored bytes must
    /// be empty or an incomplete packet.
    pub(crate) fn end(&self) -> Stop
        ensures stopped { IsPartialPacket self.now.bytes → IsStopped (Some result) self.now.bytes }
        ensures end { IsByEnd (Some result) }
    {
        if self.bytes.is_empty() {
            Stop::Ended
        } else {
            Stop::Refused(PacketFault::Truncated)
        }
    }

    /// Clears the buffer for the next packet.
    pub(crate) fn clear(&mut self)
        ensures empty { self.new.bytes ≡ [] }
        ensures room { self.new.room ≡ self.old.room }
    {
        self.bytes.clear();
    }

    fn as_bytes(&self) -> &[u8]
        ensures bytes { result.now ≡ self.now.bytes }
        ensures within { IsWithinPacket self.now.bytes }
    {
        self.bytes.as_slice()
    }
}

// Returns the number of bytes that are missing from the four digits. If the digits are complete,
// returns the number of bytes that are missing from the packet.
#[tactic(auto, using(crate::proofs::Partials::lacks_digits, crate::proofs::Partials::lacks_none, crate::proofs::Partials::partial_none))]
fn lacks_after(bytes: &[u8]) -> usize
    requires { IsWithinPacket bytes.now }
    ensures lacks { Lacks bytes.now result }
    ensures some { IsPartialPacket bytes.now → 0 < result }
{
    if bytes.len() < DIGITS {
        return DIGITS - bytes.len();
    }
    match number(&bytes[..DIGITS]) {
        None => 0,
        Some(announced) => lacks_of(bytes, usize::from(announced)),
    }
}

// Returns the number of bytes that are missing from a packet whose digits announce `announced`
// bytes.
#[tactic(auto, using(crate::proofs::Partials::lacks_payload, crate::proofs::Partials::lacks_none, crate::proofs::Partials::partial_long, crate::proofs::Partials::partial_more))]
fn lacks_of(bytes: &[u8], announced: usize) -> usize
    requires within { IsWithinPacket bytes.now }
    requires announced { AnnouncesAtFront bytes.now announced }
    ensures lacks { Lacks bytes.now result }
    ensures some { IsPartialPacket bytes.now → 0 < result }
{
    if announced > MAX_PACKET {
        0
    } else {
        announced.saturating_sub(bytes.len())
    }
}

// Returns the number that four hexadecimal digits encode, or `None` if one of the bytes is not a
// hexadecimal digit.
fn number(digits: &[u8]) -> Option<u16>
    requires { length digits.now ≡ digit_count }
    ensures { result ≡ number_of digits.now }
{
    let mut bytes = [0u8; 2];
    match hex::decode_to_slice(digits, &mut bytes) {
        Ok(()) => Some(u16::from_be_bytes(bytes)),
        Err(_) => None,
    }
}

// Returns the packet that these bytes encode, or `None` if the packet is incomplete. Fails if no
// packet begins with these bytes.
fn packet_within(bytes: &[u8]) -> Result<Option<Packet<'_>>, PacketFault>
    requires { IsWithinPacket bytes.now }
    ensures found { IsFound bytes.now (read_of result) }
    ensures fault { IfErr result (λ fault. IsByBytes (Some (Stop.Refused fault))) }
{
    if bytes.len() < DIGITS {
        return Ok(None);
    }
    match number(&bytes[..DIGITS]) {
        None => Err(PacketFault::BadDigits),
        Some(0) => Ok(Some(Packet::Flush)),
        Some(1) => Ok(Some(Packet::Delim)),
        Some(2) => Ok(Some(Packet::ResponseEnd)),
        Some(3) => Err(PacketFault::Reserved),
        Some(announced) => data_in(bytes, usize::from(announced)),
    }
}

// Returns the data packet whose digits announce `announced` bytes, or `None` if the packet is
// incomplete. Fails if the announced length is too large.
#[tactic(auto, using(crate::proofs::Partials::whole_data))]
fn data_in(bytes: &[u8], announced: usize) -> Result<Option<Packet<'_>>, PacketFault>
    requires within { IsWithinPacket bytes.now }
    requires announced { AnnouncesAtFront bytes.now announced }
    requires long { digit_count ≤ announced }
    ensures found { IsFound bytes.now (read_of result) }
    ensures fault { IfErr result (λ fault. IsByBytes (Some (Stop.Refused fault))) }
{
    if announced > MAX_PACKET {
        Err(PacketFault::TooLong)
    } else if bytes.len() < announced {
        Ok(None)
    } else {
        Ok(Some(Packet::Data(&bytes[DIGITS..])))
    }
}
