//! Writing the advertisement, or an error packet in its place.

ghost use Rattle.std.specs.Prelude.{◌≡◌, false};
ghost use Rattle.gpkt.specs.Sending.{output_of};
ghost use Rattle.ghello.specs.Adverts.{canonical_advert};
ghost use Rattle.gserver.specs.steps.Connections.{Advertises, PassesPackets, RefusesFirst};

use crate::error_line::report;
use crate::serving::End;
use ganswer::{ServeFault, Server};
use ghello::{Advert, write_advert};
use gpkt::laws::writes_join;
use gpkt::{PacketWriter, Sink, WriteFault};
use std::alloc::Allocator;

/// Writes and flushes the advertisement. If memory runs out for the advertisement, writes an error
/// packet instead.
pub(crate) fn advertise<W: Sink, A: Allocator + Copy>(
    server: &Server<A>,
    sink: &mut W,
) -> Result<(), End>
    ensures advertises { Advertises server.now.graph.format
        (output_of W.contents W.passed_on W.is_down sink.old sink.new) result }
    ensures loans { W.loans sink.new ≡ W.loans sink.old }
{
    let advert = match server.advert() {
        Ok(advert) => advert,
        Err(fault) => return Err(refuse_first(fault, sink)),
    };
    match send_advert(&advert, sink) {
        Ok(()) => Ok(()),
        Err(_) => Err(End::WriteFailed),
    }
}

/// Writes and flushes the error packet for a connection that runs out of memory at its start.
pub(crate) fn refuse_first<W: Sink>(fault: ServeFault, sink: &mut W) -> End
    ensures refused { RefusesFirst fault (output_of W.contents W.passed_on W.is_down sink.old
        sink.new) result }
    ensures loans { W.loans sink.new ≡ W.loans sink.old }
{
    match report(&fault, sink) {
        Ok(()) => End::Refused(fault),
        Err(_) => End::WriteFailed,
    }
}

// Writes and flushes an advertisement.
fn send_advert<W: Sink, A: Allocator + Copy>(
    advert: &Advert<A>,
    sink: &mut W,
) -> Result<(), WriteFault>
    ensures sent { PassesPackets (output_of W.contents W.passed_on W.is_down sink.old sink.new)
        result (canonical_advert advert.now) }
    ensures loans { W.loans sink.new ≡ W.loans sink.old }
{
    let mut writer = PacketWriter::new(sink);
    let sent = send_to(advert, &mut writer);
    let _sink = writer.into_inner();
    sent
}

fn send_to<W: Sink, A: Allocator + Copy>(
    advert: &Advert<A>,
    writer: &mut PacketWriter<W>,
) -> Result<(), WriteFault>
    requires { writer.old.failed ≡ false }
    ensures sent { PassesPackets (output_of W.contents W.passed_on W.is_down writer.old.sink
        writer.new.sink) result (canonical_advert advert.now) }
    ensures loans { W.loans writer.new.sink ≡ W.loans writer.old.sink }
{
    // Laws that the proof uses.
    writes_join::<W>();
    write_advert(advert, writer)?;
    writer.push()
}
