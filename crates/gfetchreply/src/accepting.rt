//! Accepting the packets of a fetch reply, one by one.

ghost use Rattle.std.specs.Prelude.{◌≡◌, ◌&&◌, length, nat_lt, Ok};
ghost use Rattle.gpkt.specs.Packets.{Data, packet_of};
ghost use Rattle.gpkt.specs.Bands.{Data as BandData, band_form};
ghost use Rattle.ggrammar.specs.PeerErrors.{peer_error, unless_error};
ghost use Rattle.gfetchreply.specs.FetchReplies.{band_brings, data_in, judge_at, judge_band, judge_payload, payload_brings};
ghost use Rattle.gfetchreply.specs.steps.ReplyState.{TakesBoth, brings_there, data_there, kept_in, place_in, state_in, with_band, with_packet, with_payload};
ghost use Rattle.gfetchreply.specs.steps.Views.{reading_with};

use crate::form::reply_form;
use crate::limit::StreamLimit;
use crate::reading::FetchReading;
use crate::sections::{Point, Sections, late};
use crate::sink::PackSink;
use ggrammar::{PeerText, Step, Why, peer_error};
use gpkt::{Band, Packet, band_of, text_of};
use std::alloc::Allocator;

/// Accepts the next packet of a reply, and passes its data to the sink. Fails if the grammar
/// rejects the packet, or if memory runs out for its contents.
pub(crate) fn accept_packet<T: PackSink, A: Allocator + Copy>(
    reading: FetchReading<StreamLimit>,
    sections: &mut Sections<A>,
    sink: &mut T,
    line: Packet<'_>,
) -> Result<Step, Why>
    ensures same { T.same sink.old sink.new }
    ensures takes { TakesBoth T.taken
        (judge_at (reading_with reading sections.old) (state_in sections.old)
        (packet_of line.entry))
        (brings_there T.refuses (place_in sections.old.place) (packet_of line.entry))
        (with_packet (kept_in sections.old) (packet_of line.entry)) (kept_in sections.new)
        (data_there (place_in sections.old.place) (packet_of line.entry)) sink.old sink.new
        result }
{
    // Laws that the proof uses.
    T::laws();
    match line {
        Packet::Data(payload) => accept_payload(reading, sections, sink, payload),
        Packet::Flush => sections.take_flush(reading.ends),
        Packet::Delim => sections.take_delim(),
        Packet::ResponseEnd => sections.take_response_end(),
    }
}

fn accept_payload<T: PackSink, A: Allocator + Copy>(
    reading: FetchReading<StreamLimit>,
    sections: &mut Sections<A>,
    sink: &mut T,
    payload: &[u8],
) -> Result<Step, Why>
    ensures same { T.same sink.old sink.new }
    ensures takes { TakesBoth T.taken
        (unless_error (peer_error payload.now)
        (judge_payload (reading_with reading sections.old) (place_in sections.old.place)
        (state_in sections.old) payload.now))
        (payload_brings T.refuses (place_in sections.old.place) payload.now)
        (with_payload (place_in sections.old.place) (kept_in sections.old) payload.now)
        (kept_in sections.new)
        (data_there (place_in sections.old.place) (Data payload.now)) sink.old sink.new result }
{
    // Laws that the proof uses.
    T::laws();
    if let Some(error) = peer_error(payload) {
        return Err(Why::RemoteErr(PeerText::new(error)));
    }
    let form = reply_form(text_of(payload));
    match sections.place {
        Point::Start => sections.take_start(form),
        Point::Acking => sections.take_acking(form),
        Point::AfterNak | Point::AfterReady => Err(late(form)),
        Point::BeforePack => sections.take_before_pack(form),
        Point::InPack => accept_band(reading.limit, sections, sink, payload),
        Point::Over => Err(Why::UnexpectedFrame),
    }
}

fn accept_band<T: PackSink, A: Allocator + Copy>(
    limit: StreamLimit,
    sections: &mut Sections<A>,
    sink: &mut T,
    payload: &[u8],
) -> Result<Step, Why>
    ensures same { T.same sink.old sink.new }
    ensures takes { TakesBoth T.taken
        (judge_band limit (state_in sections.old) (band_form payload.now))
        (band_brings T.refuses (band_form payload.now))
        (with_band (kept_in sections.old) (length (data_in (band_form payload.now))))
        (kept_in sections.new) (data_in (band_form payload.now)) sink.old sink.new result }
{
    // Laws that the proof uses.
    T::laws();
    match band_of(payload) {
        Ok(Band::Data(bytes)) => accept_data(limit, sections, sink, bytes),
        Ok(Band::Progress(_)) => sections.take_progress(),
        Ok(Band::Fatal(error)) => Err(Why::RemoteFatal(PeerText::new(error))),
        Err(fault) => Err(Why::Band(fault)),
    }
}

fn accept_data<T: PackSink, A: Allocator + Copy>(
    limit: StreamLimit,
    sections: &mut Sections<A>,
    sink: &mut T,
    bytes: &[u8],
) -> Result<Step, Why>
    ensures same { T.same sink.old sink.new }
    ensures takes { TakesBoth T.taken
        (judge_band limit (state_in sections.old) (Ok (BandData bytes.now)))
        (T.refuses && nat_lt 0 (length bytes.now))
        (with_band (kept_in sections.old) (length bytes.now)) (kept_in sections.new) bytes.now
        sink.old sink.new result }
{
    // Laws that the proof uses.
    T::laws();
    let total = match sections.with_room(limit, bytes.len()) {
        Some(total) => total,
        None => return Err(Why::Limit),
    };
    if !bytes.is_empty() && !sink.piece(bytes) {
        return Err(Why::Memory);
    }
    sections.count(total);
    Ok(Step::Open)
}
