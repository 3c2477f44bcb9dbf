//! Writing packets.

ghost use Rattle.std.specs.Prelude.{◌≡◌, ◌≢◌, ◌<◌, ◌≤◌, ◌↔◌, ◌++◌, [], ◌∷◌, true, false, length, codes, IfErr, IsErrOf};
ghost use Rattle.gpkt.specs.Bands.{band_bytes, band_packet, band_payload, max_band};
ghost use Rattle.gpkt.specs.Packets.{canonical, line_feed, max_payload, Packet};
ghost use Rattle.gpkt.specs.Packets as packets;
ghost use Rattle.gpkt.specs.PacketWriting.{HasWritten, HasPushed};

use crate::band::Band;
use crate::device::Sink;
use crate::fault::WriteFault;
use crate::packet::DIGITS;
use crate::put::{digits_of, joined_len, put_packet};
use std::marker::Model;

/// Writes packets with lower-case digits to a sink, without allocating.
///
/// After [`Io`](WriteFault::Io) from a write, only a part of the packet was written. After any
/// `Io`, every later call returns [`Failed`](WriteFault::Failed) and writes nothing.
/// [`Payload`](WriteFault::Payload) means that the payload, with its line feed if any, has more
/// than 65,516 bytes. After `Payload`, nothing was written, and the writer stays usable.
#[derive(Drop)]
pub struct PacketWriter<W> {
    sink: W,
    failed: bool,
}

impl<W> Model for PacketWriter<W> {
    ghost use Rattle.gpkt.specs.PacketWriting.{Writer};
    ghost use Rattle.gpkt.specs.steps.PacketWriting.{writer_code};

    ghost Value = { Writer W };

    ghost coded = { writer_code W.code };

    ghost view = { λ w. record { sink = w.sink; failed = w.failed } };
}

impl<W: Sink> PacketWriter<W> {
    /// Returns a writer to this sink. The writer has not failed.
    pub fn new(sink: W) -> PacketWriter<W>
        ensures sink { result.sink ≡ sink }
        ensures failed { result.failed ≡ false }
    {
        PacketWriter {
            sink,
            failed: false,
        }
    }

    /// Writes one data packet. An empty payload is written as `0004`, which is not a flush packet.
    pub fn put(&mut self, payload: &[u8]) -> Result<(), WriteFault>
        ensures written { HasWritten W.contents W.passed_on W.is_down W.loans self.old self.new
            result (canonical (packets.Data payload.now)) }
        ensures too_long { IsErrOf result WriteFault.Payload
            ↔ ((self.old.failed ≡ false) × (max_payload < length payload.now)) }
    {
        self.put_parts(payload, b"", b"")
    }

    /// Writes one data packet whose payload is `first` followed by `second`.
    pub fn put2(&mut self, first: &[u8], second: &[u8]) -> Result<(), WriteFault>
        ensures written { HasWritten W.contents W.passed_on W.is_down W.loans self.old self.new
            result (canonical (packets.Data (first.now ++ second.now))) }
        ensures too_long { IsErrOf result WriteFault.Payload
            ↔ ((self.old.failed ≡ false) × (max_payload < length (first.now ++ second.now))) }
    {
        self.put_parts(first, second, b"")
    }

    /// Writes one data packet whose payload is the text and a line feed.
    pub fn text(&mut self, text: &[u8]) -> Result<(), WriteFault>
        ensures written { HasWritten W.contents W.passed_on W.is_down W.loans self.old self.new
            result (canonical (packets.Data (text.now ++ line_feed ∷ []))) }
        ensures too_long { IsErrOf result WriteFault.Payload
            ↔ ((self.old.failed ≡ false) × (max_payload < length (text.now ++ line_feed ∷ []))) }
    {
        self.put_parts(text, b"", b"\n")
    }

    /// Writes one data packet whose payload is `first`, `second` and a line feed.
    pub fn text2(&mut self, first: &[u8], second: &[u8]) -> Result<(), WriteFault>
        ensures written { HasWritten W.contents W.passed_on W.is_down W.loans self.old self.new
            result (canonical (packets.Data (first.now ++ second.now ++ line_feed ∷ []))) }
        ensures too_long { IsErrOf result WriteFault.Payload
            ↔ ((self.old.failed ≡ false)
            × (max_payload < length (first.now ++ second.now ++ line_feed ∷ []))) }
    {
        self.put_parts(first, second, b"\n")
    }

    /// Writes one data packet whose payload is the band byte followed by the bytes of the band.
    /// Fails with [`Payload`](WriteFault::Payload) if the band has more than
    /// [`MAX_BAND`](crate::MAX_BAND) bytes.
    pub fn put_band(&mut self, band: &Band<'_>) -> Result<(), WriteFault>
        ensures written { HasWritten W.contents W.passed_on W.is_down W.loans self.old self.new
            result (canonical (packets.Data (band_payload (band_packet band.now)))) }
        ensures too_long { IsErrOf result WriteFault.Payload
            ↔ ((self.old.failed ≡ false)
            × (max_band < length (band_bytes (band_packet band.now)))) }
    {
        let (first, bytes) = band.parts();
        self.put_parts(&[first], bytes, b"")
    }

    /// Writes the flush packet `0000`, which ends a message. Never fails with
    /// [`Payload`](WriteFault::Payload).
    pub fn flush_pkt(&mut self) -> Result<(), WriteFault>
        ensures written { HasWritten W.contents W.passed_on W.is_down W.loans self.old self.new
            result (canonical packets.Flush) }
        ensures fits { IfErr result (λ fault. fault ≢ WriteFault.Payload) }
    {
        self.put_pieces(b"0000", b"", b"", b"")
    }

    /// Writes the delimiter packet `0001`, which separates the sections of a message.
    pub fn delim(&mut self) -> Result<(), WriteFault>
        ensures written { HasWritten W.contents W.passed_on W.is_down W.loans self.old self.new
            result (canonical packets.Delim) }
        ensures fits { IfErr result (λ fault. fault ≢ WriteFault.Payload) }
    {
        self.put_pieces(b"0001", b"", b"", b"")
    }

    /// Writes the response-end packet `0002`, which ends a response on a stateless connection.
    pub fn response_end(&mut self) -> Result<(), WriteFault>
        ensures written { HasWritten W.contents W.passed_on W.is_down W.loans self.old self.new
            result (canonical packets.ResponseEnd) }
        ensures fits { IfErr result (λ fault. fault ≢ WriteFault.Payload) }
    {
        self.put_pieces(b"0002", b"", b"", b"")
    }

    /// Flushes all written bytes, with one flush of the sink. After [`Io`](WriteFault::Io), bytes
    /// flushed earlier stay flushed, and the writer has failed.
    pub fn push(&mut self) -> Result<(), WriteFault>
        ensures { HasPushed W.contents W.passed_on W.is_down W.loans self.old self.new result }
    {
        if self.failed {
            return Err(WriteFault::Failed);
        }
        match self.sink.flush() {
            Ok(()) => Ok(()),
            Err(_) => {
                self.failed = true;
                Err(WriteFault::Io)
            }
        }
    }

    /// Returns the sink in its current state.
    pub fn into_inner(self) -> W
        ensures { result ≡ self.sink }
    {
        let PacketWriter { sink, failed: _ } = self;
        sink
    }

    // Writes one data packet whose payload is `first`, `second` and `end`.
    fn put_parts(&mut self, first: &[u8], second: &[u8], end: &[u8]) -> Result<(), WriteFault>
        ensures written { HasWritten W.contents W.passed_on W.is_down W.loans self.old self.new
            result (canonical (packets.Data (first.now ++ second.now ++ end.now))) }
        ensures too_long { IsErrOf result WriteFault.Payload
            ↔ ((self.old.failed ≡ false)
            × (max_payload < length (first.now ++ second.now ++ end.now))) }
    {
        if self.failed {
            return Err(WriteFault::Failed);
        }
        match joined_len(first, second, end) {
            None => Err(WriteFault::Payload),
            Some(len) => self.put_pieces(&digits_of((DIGITS + len) as u16), first, second, end),
        }
    }

    // Writes `digits`, which must not be empty, and then `first`, `second` and `end`.
    fn put_pieces(
        &mut self,
        digits: &[u8],
        first: &[u8],
        second: &[u8],
        end: &[u8],
    ) -> Result<(), WriteFault>
        requires { 0 < length digits.now }
        ensures written { HasWritten W.contents W.passed_on W.is_down W.loans self.old self.new
            result (digits.now ++ (first.now ++ second.now ++ end.now)) }
        ensures fits { IfErr result (λ fault. fault ≢ WriteFault.Payload) }
    {
        if self.failed {
            return Err(WriteFault::Failed);
        }
        let written = put_packet(&mut self.sink, digits, first, second, end);
        self.failed = written.is_err();
        match written {
            Ok(()) => Ok(()),
            Err(_) => Err(WriteFault::Io),
        }
    }
}
