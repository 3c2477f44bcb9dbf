//! Writing all bytes of a slice or of a packet.

ghost use Rattle.std.specs.Prelude.{◌≡◌, ◌+◌, ◌<◌, ◌≤◌, ◌^◌, ◌++◌, false, true, length, is_err, MatchOption, OnErr, OnOk};
ghost use Rattle.std.specs.Io.KnownBytes.{Appends, Keeps};
ghost use Rattle.gpkt.specs.Change.{change_of};
ghost use Rattle.gpkt.specs.Packets.{digit_count, digits_of, max_payload};
ghost use Rattle.gpkt.specs.PacketWriting.{AppendsFront};

use crate::device::{Down, Sink};
use crate::packet::{DIGITS, MAX_PAYLOAD};

/// Writes all bytes, with as many calls to the sink as needed. The sink is not called if `bytes` is
/// empty.
///
/// If the call fails, only a prefix of the bytes was written, and the sink has failed. Written
/// bytes may still be buffered until a [`Sink::flush`]. A sink that failed earlier stays failed.
pub fn write_all<W: Sink>(sink: &mut W, bytes: &[u8]) -> Result<(), Down>
    ensures ok { OnOk result (Appends (W.contents sink.old) (W.contents sink.new) bytes.now) }
    ensures err { OnErr result
        (AppendsFront (change_of W.contents sink.old sink.new) bytes.now) }
    ensures passed_on { Keeps (W.passed_on sink.old) (W.passed_on sink.new) }
    ensures asked { 0 < length bytes.now → W.is_down sink.new ≡ is_err result }
    ensures up { W.is_down sink.old ≡ false → W.is_down sink.new ≡ is_err result }
    ensures stays_down { W.is_down sink.old ≡ true → W.is_down sink.new ≡ true }
    ensures loans { W.loans sink.new ≡ W.loans sink.old }
{
    let mut rest = bytes;
    while !rest.is_empty() {
        match sink.write(rest) {
            Ok(count) => rest = &rest[count..],
            Err(down) => return Err(down),
        }
    }
    Ok(())
}

/// Writes the four digits of a packet, and then its payload: `first`, `second` and `end`.
pub(crate) fn put_packet<W: Sink>(
    sink: &mut W,
    digits: &[u8],
    first: &[u8],
    second: &[u8],
    end: &[u8],
) -> Result<(), Down>
    requires { 0 < length digits.now }
    ensures ok { OnOk result
        (Appends (W.contents sink.old) (W.contents sink.new)
        (digits.now ++ (first.now ++ second.now ++ end.now))) }
    ensures err { OnErr result
        (AppendsFront (change_of W.contents sink.old sink.new)
        (digits.now ++ (first.now ++ second.now ++ end.now))) }
    ensures passed_on { Keeps (W.passed_on sink.old) (W.passed_on sink.new) }
    ensures down { W.is_down sink.new ≡ is_err result }
    ensures loans { W.loans sink.new ≡ W.loans sink.old }
{
    write_all(sink, digits)?;
    write_all(sink, first)?;
    write_all(sink, second)?;
    write_all(sink, end)
}

/// Returns the total length of the three pieces of a payload, or `None` if they do not fit into a
/// packet.
pub(crate) fn joined_len(first: &[u8], second: &[u8], end: &[u8]) -> Option<usize>
    ensures { MatchOption result
        (max_payload < length (first.now ++ second.now ++ end.now))
        (λ len. (len ≡ length (first.now ++ second.now ++ end.now)) × (len ≤ max_payload)) }
{
    let both = first.len().checked_add(second.len())?;
    let len = both.checked_add(end.len())?;
    if len > MAX_PAYLOAD { None } else { Some(len) }
}

/// Returns the four hexadecimal digits of a number, in lower case.
pub(crate) fn digits_of(announced: u16) -> [u8; DIGITS]
    ensures value { result ≡ digits_of announced }
    ensures len { length result ≡ digit_count }
{
    let mut digits = [0u8; DIGITS];
    hex::encode_to_slice(announced.to_be_bytes(), &mut digits).unwrap();
    digits
}
