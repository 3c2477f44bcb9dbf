//! Reading the bytes of one packet into a buffer.

ghost use Rattle.std.specs.Prelude.{◌≡◌, ◌<◌, ◌≤◌, false, length, take, is_err, IfErr, IfOk, IfSome, OnErr};
ghost use Rattle.std.specs.Io.KnownBytes.{Consumes, IsAtEnd};
ghost use Rattle.gpkt.specs.Change.{change_of};
ghost use Rattle.gpkt.specs.Packets.{digit_count, max_payload, number_of, packet_of};
ghost use Rattle.gpkt.specs.PacketReading.{Reads};
ghost use Rattle.gpkt.specs.steps.Heads.{Classifies, ConsumesBelow, IsNewFault, ReadsHead, ReadsPayload, is_io, packet_in, payload_len, read_in};

use crate::device::{Down, Source};
use crate::fault::PacketFault;
use crate::packet::{DELIM, DIGITS, FLUSH, MAX_PACKET, Packet, RESERVED, RESPONSE_END};

/// The kind of packet that the four digits announce.
#[derive(Clone, Copy)]
pub(crate) enum Head {
    /// A data packet with a payload of this many bytes.
    Data(usize),
    Flush,
    Delim,
    ResponseEnd,
}

// Reads until `buf` is full or the input ends, and returns the number of bytes read.
fn fill<S: Source>(source: &mut S, buf: &mut [u8]) -> Result<usize, Down>
    requires { 0 < length buf.old }
    ensures bound { IfOk result (λ n. n ≤ length buf.new) }
    ensures bytes { IfOk result
        (λ n. Consumes (S.remaining source.old) (S.remaining source.new) (take n buf.new)) }
    ensures end { IfOk result (λ n. n < length buf.new → IsAtEnd (S.remaining source.new)) }
    ensures err { OnErr result
        (ConsumesBelow (change_of S.remaining source.old source.new) (length buf.new)) }
    ensures down { S.is_down source.new ≡ is_err result }
    ensures loans { S.loans source.new ≡ S.loans source.old }
{
    let mut at = 0;
    while at < buf.len() {
        match source.read(&mut buf[at..]) {
            Ok(0) => return Ok(at),
            Ok(count) => at += count,
            Err(down) => return Err(down),
        }
    }
    Ok(at)
}

// Returns the number that four hexadecimal digits encode, or `None` if one of the bytes is not a
// hexadecimal digit.
fn number(digits: &[u8]) -> Option<u16>
    requires { length digits.now ≡ digit_count }
    ensures { result ≡ number_of digits.now }
{
    let mut bytes = [0u8; 2];
    match hex::decode_to_slice(digits, &mut bytes) {
        Ok(()) => Some(u16::from_be_bytes(bytes)),
        Err(_) => None,
    }
}

// Returns the kind of packet that four digits announce. Fails if no packet begins with these
// digits.
fn classify(digits: &[u8]) -> Result<Head, PacketFault>
    requires { length digits.now ≡ digit_count }
    ensures { Classifies digits.now result }
{
    match number(digits) {
        None => Err(PacketFault::BadDigits),
        Some(FLUSH) => Ok(Head::Flush),
        Some(DELIM) => Ok(Head::Delim),
        Some(RESPONSE_END) => Ok(Head::ResponseEnd),
        Some(RESERVED) => Err(PacketFault::Reserved),
        Some(announced) => {
            let announced = usize::from(announced);
            if announced > MAX_PACKET {
                Err(PacketFault::TooLong)
            } else {
                Ok(Head::Data(announced - DIGITS))
            }
        }
    }
}

// Reads the four digits of a packet. Returns `None` at the end of the input.
fn read_head<S: Source>(source: &mut S) -> Result<Option<Head>, PacketFault>
    ensures bytes { ReadsHead (change_of S.remaining source.old source.new) result }
    ensures down { S.is_down source.new ≡ is_io result }
    ensures loans { S.loans source.new ≡ S.loans source.old }
{
    let mut digits = [0u8; DIGITS];
    match fill(source, &mut digits) {
        Ok(0) => Ok(None),
        Ok(count) if count < DIGITS => Err(PacketFault::Truncated),
        Ok(_) => match classify(&digits) {
            Ok(head) => Ok(Some(head)),
            Err(fault) => Err(fault),
        },
        Err(_) => Err(PacketFault::Io),
    }
}

// Reads bytes until `payload` is full, or fails at the end of the input.
fn read_payload<S: Source>(source: &mut S, payload: &mut [u8]) -> Result<(), PacketFault>
    requires { S.is_down source.old ≡ false }
    ensures bytes { ReadsPayload (change_of S.remaining source.old source.new)
        result payload.new }
    ensures down { S.is_down source.new ≡ is_io result }
    ensures loans { S.loans source.new ≡ S.loans source.old }
{
    if payload.is_empty() {
        return Ok(());
    }
    match fill(source, payload) {
        Ok(count) if count < payload.len() => Err(PacketFault::Truncated),
        Ok(_) => Ok(()),
        Err(_) => Err(PacketFault::Io),
    }
}

/// Reads one packet, stores its payload at the front of `buffer`, and returns its kind. Returns
/// `None` at the end of the input.
pub(crate) fn read_into<S: Source>(
    source: &mut S,
    buffer: &mut [u8],
) -> Result<Option<Head>, PacketFault>
    requires { length buffer.old ≡ max_payload }
    ensures bytes { Reads (change_of S.remaining source.old source.new)
        (read_in buffer.new result) }
    ensures room { IfOk result (λ found. IfSome found (λ head. payload_len head ≤ max_payload)) }
    ensures faults { IfErr result IsNewFault }
    ensures down { S.is_down source.new ≡ is_io result }
    ensures loans { S.loans source.new ≡ S.loans source.old }
{
    let found = read_head(source)?;
    if let Some(Head::Data(len)) = found {
        read_payload(source, &mut buffer[..len])?;
    }
    Ok(found)
}

/// Returns the packet whose payload is at the front of `buffer`.
pub(crate) fn packet_within(head: Head, buffer: &[u8]) -> Packet<'_>
    requires { payload_len head ≤ length buffer.now }
    ensures { packet_of result ≡ packet_in buffer.now head }
{
    match head {
        Head::Data(len) => Packet::Data(&buffer[..len]),
        Head::Flush => Packet::Flush,
        Head::Delim => Packet::Delim,
        Head::ResponseEnd => Packet::ResponseEnd,
    }
}
