//! Writing a fetch reply (gitprotocol-v2(5), "fetch").

ghost use Rattle.std.specs.Prelude.{[], ◌≡◌, ◌≤◌, ◌∷◌, ◌++◌, length, map};
ghost use Rattle.std.specs.Slice.Iter.{chunks_rest, chunks_size};
ghost use Rattle.gpkt.specs.Bands.{max_band};
ghost use Rattle.gpkt.specs.Packets.{Delim, Flush};
ghost use Rattle.ggrammar.specs.Endings.{ends_with};
ghost use Rattle.ggrammar.specs.Writing.{WritesPackets, WritesPart};
ghost use Rattle.gfetchreply.specs.FetchReplies.{Reading, ack_packet, canonical_reply, data_packet, heading_packet, nak_if_none, pack_section, pieces, ready_packet};
ghost use Rattle.gfetchreply.specs.FetchHeads.{is_alone, pack_of};
ghost use Rattle.gfetchreply.specs.Views.{IsReplyOf, reply_in};
ghost use Rattle.gfetchreply.specs.WellFormed.{IsReplyIn};

use crate::value::FetchReply;
use ggrammar::Ends;
use ggrammar::laws::writes_packets;
use gname::{MAX_ID_TEXT, Oid};
use gpkt::{Band, MAX_BAND, PacketWriter, Sink, WriteFault};
use std::alloc::Allocator;
use std::slice::Chunks;

/// Writes a reply as its canonical list of packets (gitprotocol-v2(5), "fetch"). The pack is
/// written in pieces of the maximum size, without progress packets. The call neither allocates nor
/// copies the ids or the pack.
///
/// Fails with `Io` if the sink fails, after writing a prefix of the reply. Fails with `Failed` if
/// the writer failed before the call. Reading the written bytes returns the same reply
/// ([`reads_back`](crate::laws::reads_back)) under three conditions. The reader has the id format
/// and the limits of the acknowledgments. The pack is within the reader's size limit. The field
/// `direct` of [`FetchReading`](crate::FetchReading) is true exactly if the reply has no
/// acknowledgments.
#[tactic(auto, unfolding(crate::specs::FetchReplies::canonical_reply))]
pub fn write_fetch_reply<A: Allocator + Copy, W: Sink>(
    reply: &FetchReply<A>,
    ends: Ends,
    writer: &mut PacketWriter<W>,
) -> Result<(), WriteFault>
    ensures lines { WritesPackets W.contents W.passed_on W.is_down W.loans writer.old writer.new
        result (canonical_reply ends (reply_in reply.now)) }
    ensures form { (reading : Reading) → IsReplyOf reading.limits reading.format reply.now
        → reading.direct ≡ is_alone (reply_in reply.now)
        → length (pack_of (reply_in reply.now)) ≤ reading.limit
        → IsReplyIn reading (reply_in reply.now) }
{
    match reply {
        FetchReply::Acks(acks) => write_acks(acks.ids(), ends, writer),
        FetchReply::Ready(acks, pack) => write_ready(acks.ids(), pack.as_bytes(), ends, writer),
        FetchReply::Pack(pack) => write_pack(pack.as_bytes(), ends, writer),
    }
}

// Writes the acknowledged ids, or `NAK` if there are none, and the end of the reply.
fn write_acks<W: Sink>(
    ids: &[Oid],
    ends: Ends,
    writer: &mut PacketWriter<W>,
) -> Result<(), WriteFault>
    ensures { WritesPackets W.contents W.passed_on W.is_down W.loans writer.old writer.new result
        ((heading_packet ∷ (nak_if_none (map ack_packet ids.now) ++ Flush ∷ []))
        ++ ends_with ends) }
{
    // Laws that the proof uses.
    writes_packets::<W>();
    writer.text(b"acknowledgments")?;
    write_ids_or_nak(ids, writer)?;
    write_end(ends, writer)
}

// Writes the acknowledged ids, `ready`, the pack, and the end of the reply.
fn write_ready<W: Sink>(
    ids: &[Oid],
    pack: &[u8],
    ends: Ends,
    writer: &mut PacketWriter<W>,
) -> Result<(), WriteFault>
    ensures { WritesPackets W.contents W.passed_on W.is_down W.loans writer.old writer.new result
        ((heading_packet ∷ (map ack_packet ids.now
        ++ ready_packet ∷ Delim ∷ pack_section pack.now)) ++ ends_with ends) }
{
    // Laws that the proof uses.
    writes_packets::<W>();
    writer.text(b"acknowledgments")?;
    write_ids(ids, writer)?;
    writer.text(b"ready")?;
    writer.delim()?;
    write_pack(pack, ends, writer)
}

// Writes the pack's section and the end of the reply.
fn write_pack<W: Sink>(
    pack: &[u8],
    ends: Ends,
    writer: &mut PacketWriter<W>,
) -> Result<(), WriteFault>
    ensures { WritesPackets W.contents W.passed_on W.is_down W.loans writer.old writer.new result
        (pack_section pack.now ++ ends_with ends) }
{
    // Laws that the proof uses.
    writes_packets::<W>();
    writer.text(b"packfile")?;
    write_pieces(pack, writer)?;
    write_end(ends, writer)
}

// Writes the bytes of the pack on side band 1, in pieces of the maximum size.
fn write_pieces<W: Sink>(pack: &[u8], writer: &mut PacketWriter<W>) -> Result<(), WriteFault>
    ensures { WritesPart W.contents W.passed_on W.is_down W.loans writer.old writer.new result
        (map data_packet (pieces pack.now)) }
{
    // Laws that the proof uses.
    writes_packets::<W>();
    for piece in in_pieces(pack) {
        writer.put_band(&Band::Data(piece))?;
    }
    Ok(())
}

// Splits the pack into pieces of the maximum size.
fn in_pieces(pack: &[u8]) -> Chunks<'_, u8>
    ensures size { chunks_size result ≡ max_band }
    ensures rest { chunks_rest result ≡ pack.now }
{
    pack.chunks(MAX_BAND)
}

// Writes the acknowledged ids, or `NAK` if there are none.
fn write_ids_or_nak<W: Sink>(ids: &[Oid], writer: &mut PacketWriter<W>) -> Result<(), WriteFault>
    ensures { WritesPart W.contents W.passed_on W.is_down W.loans writer.old writer.new result
        (nak_if_none (map ack_packet ids.now)) }
{
    // Laws that the proof uses.
    writes_packets::<W>();
    if ids.is_empty() {
        writer.text(b"NAK")
    } else {
        write_ids(ids, writer)
    }
}

// Writes the acknowledged ids.
fn write_ids<W: Sink>(ids: &[Oid], writer: &mut PacketWriter<W>) -> Result<(), WriteFault>
    ensures { WritesPart W.contents W.passed_on W.is_down W.loans writer.old writer.new result
        (map ack_packet ids.now) }
{
    // Laws that the proof uses.
    writes_packets::<W>();
    for id in ids {
        write_id(id, writer)?;
    }
    Ok(())
}

// Writes one acknowledged id.
fn write_id<W: Sink>(id: &Oid, writer: &mut PacketWriter<W>) -> Result<(), WriteFault>
    ensures { WritesPackets W.contents W.passed_on W.is_down W.loans writer.old writer.new result
        (ack_packet id.now ∷ []) }
{
    // Laws that the proof uses.
    writes_packets::<W>();
    let mut digits = [0; MAX_ID_TEXT];
    let count = id.to_hex(&mut digits);
    writer.text2(b"ACK ", &digits[..count])
}

// Writes the flush at the end of a reply, and then a response-end if `ends` requires it.
fn write_end<W: Sink>(ends: Ends, writer: &mut PacketWriter<W>) -> Result<(), WriteFault>
    ensures { WritesPackets W.contents W.passed_on W.is_down W.loans writer.old writer.new result
        (Flush ∷ ends_with ends) }
{
    // Laws that the proof uses.
    writes_packets::<W>();
    match ends {
        Ends::Plain => writer.flush_pkt(),
        Ends::Response => {
            writer.flush_pkt()?;
            writer.response_end()
        }
    }
}
