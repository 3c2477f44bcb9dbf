//! One packet.

/// The number of hexadecimal digits at the start of a packet.
pub(crate) const DIGITS: usize = 4;

/// The number that the digits of a flush packet encode.
pub(crate) const FLUSH: u16 = 0;

/// The number that the digits of a delimiter packet encode.
pub(crate) const DELIM: u16 = 1;

/// The number that the digits of a response-end packet encode.
pub(crate) const RESPONSE_END: u16 = 2;

/// The reserved number, which the digits of no packet encode.
pub(crate) const RESERVED: u16 = 3;

/// The maximum number of bytes of a packet, including its four digits.
pub const MAX_PACKET: usize = 65_520;

/// The maximum number of bytes of a payload.
pub const MAX_PAYLOAD: usize = MAX_PACKET - DIGITS;

/// A packet with a borrowed payload (gitprotocol-common(5), "pkt-line Format").
#[derive(Clone, Copy, Debug, PartialEq, Eq)]
pub enum Packet<'a> {
    /// A data packet and its payload of at most [`MAX_PAYLOAD`] bytes. The data packet `0004` has
    /// an empty payload and is not a flush packet.
    Data(&'a [u8]),
    /// The flush packet `0000`, which ends a message.
    Flush,
    /// The delimiter packet `0001`, which separates the sections of a message.
    Delim,
    /// The response-end packet `0002`, which ends a response on a stateless connection.
    ResponseEnd,
}
