//! Serving a connection over a blocking source and a blocking sink.

ghost use Rattle.std.specs.Prelude.{◌≡◌};
ghost use Rattle.gpkt.specs.Sending.{input_of, output_of};
ghost use Rattle.gobject.specs.Packs.{MayPack};
ghost use Rattle.ganswer.specs.declared.one_pack.Packing.TheVariants.{Unasked};
ghost use Rattle.gserver.specs.Conversations.{Serves};
ghost use Rattle.gserver.specs.Exchanges.{ServesOne};
ghost use Rattle.gserver.specs.Packings.{ReportsLastPacking, ReportsPacking};
ghost use Rattle.gserver.specs.steps.Connections.{ReportsRefusal};
ghost use Rattle.gserver.specs.steps.Lending.{EndsTalk, IsFresh, connection_end, exchange_end, flushed_replies};

use crate::advertising::{advertise, refuse_first};
use crate::error_line::report;
use crate::lent_side::{Closing, LentSide};
use crate::recorded::Recorded;
use crate::side::MAX_REQUESTS;
use ganswer::{OnePack, ServeFault, Server};
use gdialogue::run_dialogue;
use ggrammar::Ends;
use ggrammar::laws::grammars_are_exact;
use gobject::Packer;
use gpkt::{PacketFault, Sink, Source};
use grequest::laws::endings;
use gtalk::{Room, TalkFault};
use std::alloc::Allocator;

/// How an exchange ended.
#[derive(Debug, Drop)]
pub enum ExchangeEnd {
    /// The reply was written and flushed.
    Answered,
    /// The request was a lone flush packet. Nothing was written.
    Closed,
    /// The input ended before the request. Nothing was written.
    Ended,
    /// The request was refused, or there was no memory for the reader's buffer. The error packet
    /// was written and flushed.
    Refused(ServeFault),
    /// The sink failed. A prefix of the reply or of the error packet was written.
    WriteFailed,
}

/// How a connection ended.
#[derive(Debug, Drop)]
pub enum End {
    /// The client ended the connection with a lone flush packet.
    Closed,
    /// The input ended before a request, or the server answered [`MAX_REQUESTS`] requests.
    Ended,
    /// A request was refused, or memory ran out at the start. The error packet is the last packet
    /// written, and was flushed.
    Refused(ServeFault),
    /// The sink failed. A prefix of the next message was written.
    WriteFailed,
}

/// The number of requests that were answered on a connection, and how the connection ended.
#[derive(Debug, Drop)]
pub struct Served {
    /// The number of requests whose replies were written and flushed.
    pub requests: u32,
    /// How the connection ended.
    pub end: End,
}

/// Reads one request and writes its reply, without an advertisement (gitprotocol-v2(5), "Command
/// Request"). Nothing after the request's last packet is read. If memory runs out for the reader's
/// buffer, nothing is read, and the error packet reports out of memory. The reply to an ls-refs
/// request needs no memory once the request is read. A fault of the packer is returned unchanged.
/// Any other fault, such as out of memory, is returned only if the packer was not asked for a pack.
///
/// If the call ends with `Answered`, `Closed` or `Ended`, the source has not failed.
pub fn serve_one<S: Source, W: Sink, A: Allocator + Copy, K: Packer<A>>(
    server: &Server<A>,
    packer: &mut OnePack<'_, K>,
    ends: Ends,
    source: &mut S,
    sink: &mut W,
) -> ExchangeEnd
    requires unasked { packer.old.answered ≡ Unasked }
    ensures exchange { ServesOne server.now (MayPack (K.packs packer.old.packer))
        (K.pack_fails packer.old.packer) ends
        (input_of S.remaining S.is_down source.old source.new)
        (output_of W.contents W.passed_on W.is_down sink.old sink.new) result }
    ensures packing { ReportsPacking result packer.new.answered }
    ensures packer { packer.new.packer ≡ packer.old.packer }
    ensures source_loans { S.loans source.new ≡ S.loans source.old }
    ensures sink_loans { W.loans sink.new ≡ W.loans sink.old }
{
    exchange(server, packer, ends, source, sink)
}

/// Serves one connection: writes the advertisement, and then reads requests one by one and replies
/// to each (gitprotocol-v2(5), "Capability Advertisement", "Command Request"). The call flushes
/// after the advertisement, after each reply and after an error packet. The server is unchanged.
///
/// The connection ends if the client sends a lone flush packet, or if the input ends before a
/// request. It also ends if a request is refused, if the sink fails, or after [`MAX_REQUESTS`]
/// replies. After a refused request, the server writes an error packet. If memory runs out at the
/// start, the server only writes an error packet that reports out of memory, and reads nothing.
///
/// A fault of the packer is reported as the packer returned it, and ends the connection. The packer
/// is asked for at most one pack for each request. Any other fault, such as out of memory, is
/// reported only if the packer was not asked for a pack for the last request.
pub fn serve<S: Source, W: Sink, A: Allocator + Copy, K: Packer<A>>(
    server: &Server<A>,
    packer: &mut OnePack<'_, K>,
    ends: Ends,
    source: &mut S,
    sink: &mut W,
) -> Served
    requires unasked { packer.old.answered ≡ Unasked }
    ensures serves { Serves server.now (MayPack (K.packs packer.old.packer))
        (K.pack_fails packer.old.packer) ends
        (input_of S.remaining S.is_down source.old source.new)
        (output_of W.contents W.passed_on W.is_down sink.old sink.new) result.requests result.end }
    ensures packing { ReportsLastPacking result.end packer.new.answered }
    ensures packer { packer.new.packer ≡ packer.old.packer }
    ensures source_loans { S.loans source.new ≡ S.loans source.old }
    ensures sink_loans { W.loans sink.new ≡ W.loans sink.old }
{
    converse(server, packer, ends, source, sink)
}

// Serves one request, as `serve_one` does.
fn exchange<S: Source, W: Sink, A: Allocator + Copy, K: Recorded<A>>(
    server: &Server<A>,
    packer: &mut K,
    ends: Ends,
    source: &mut S,
    sink: &mut W,
) -> ExchangeEnd
    requires unasked { (K.once packer.old).answered ≡ Unasked }
    ensures exchange { ServesOne server.now (K.packs (K.once packer.old).packer)
        (K.fails (K.once packer.old).packer) ends
        (input_of S.remaining S.is_down source.old source.new)
        (output_of W.contents W.passed_on W.is_down sink.old sink.new) result }
    ensures packing { ReportsPacking result (K.once packer.new).answered }
    ensures packer { (K.once packer.new).packer ≡ (K.once packer.old).packer }
    ensures source_loans { S.loans source.new ≡ S.loans source.old }
    ensures sink_loans { W.loans sink.new ≡ W.loans sink.old }
{
    let room = match Room::new(server.graph().allocator()) {
        Ok(room) => room,
        Err(_) => return refuse_one(ServeFault::Reader(PacketFault::Memory), sink),
    };
    let side = LentSide::new(server, packer, ends, 1);
    let (driven, mut side) = talk(side, room, source, sink);
    let end = exchange_end(driven, side.take_closing());
    let _packer = side.into_packer();
    end
}

// Serves a connection, as `serve` does.
fn converse<S: Source, W: Sink, A: Allocator + Copy, K: Recorded<A>>(
    server: &Server<A>,
    packer: &mut K,
    ends: Ends,
    source: &mut S,
    sink: &mut W,
) -> Served
    requires unasked { (K.once packer.old).answered ≡ Unasked }
    ensures serves { Serves server.now (K.packs (K.once packer.old).packer)
        (K.fails (K.once packer.old).packer) ends
        (input_of S.remaining S.is_down source.old source.new)
        (output_of W.contents W.passed_on W.is_down sink.old sink.new) result.requests result.end }
    ensures packing { ReportsLastPacking result.end (K.once packer.new).answered }
    ensures packer { (K.once packer.new).packer ≡ (K.once packer.old).packer }
    ensures source_loans { S.loans source.new ≡ S.loans source.old }
    ensures sink_loans { W.loans sink.new ≡ W.loans sink.old }
{
    let room = match Room::new(server.graph().allocator()) {
        Ok(room) => room,
        Err(_) => {
            let end = refuse_first(ServeFault::Reader(PacketFault::Memory), sink);
            return Served { requests: 0, end };
        }
    };
    match advertise(server, sink) {
        Ok(()) => {
            let side = LentSide::new(server, packer, ends, MAX_REQUESTS);
            let (driven, mut side) = talk(side, room, source, sink);
            let requests = flushed_replies(driven, side.earlier(), side.requests());
            let end = connection_end(driven, side.take_closing());
            let _packer = side.into_packer();
            Served { requests, end }
        }
        Err(end) => Served { requests: 0, end },
    }
}

// Runs the dialogue of a side that has received no message. Returns whether the sink failed, and
// the side.
fn talk<'s, 'p, S: Source, W: Sink, A: Allocator + Copy, K: Recorded<A>>(
    side: LentSide<'s, 'p, A, K>,
    room: Room<A>,
    source: &mut S,
    sink: &mut W,
) -> (Result<bool, TalkFault>, LentSide<'s, 'p, A, K>)
    requires { IsFresh K.once side }
    ensures ends { EndsTalk K.once K.packs K.fails side.entry
        (input_of S.remaining S.is_down source.old source.new)
        (output_of W.contents W.passed_on W.is_down sink.old sink.new) result.1 result.0 }
    ensures source_loans { S.loans source.new ≡ S.loans source.old }
    ensures sink_loans { W.loans sink.new ≡ W.loans sink.old }
{
    // Laws that the proof uses.
    grammars_are_exact();
    endings();
    run_dialogue(side, room, source, sink)
}

// Writes and flushes the error packet for an exchange that runs out of memory at its start.
fn refuse_one<W: Sink>(fault: ServeFault, sink: &mut W) -> ExchangeEnd
    ensures refused { ReportsRefusal fault (output_of W.contents W.passed_on W.is_down sink.old
        sink.new) result }
    ensures loans { W.loans sink.new ≡ W.loans sink.old }
{
    match report(&fault, sink) {
        Ok(()) => ExchangeEnd::Refused(fault),
        Err(_) => ExchangeEnd::WriteFailed,
    }
}

// Returns how an exchange ended, given the result of its dialogue and how the side closed it.
fn exchange_end(driven: Result<bool, TalkFault>, closing: Option<Closing>) -> ExchangeEnd
    ensures { result ≡ exchange_end driven closing }
{
    match driven {
        Err(_) => ExchangeEnd::WriteFailed,
        Ok(_) => match closing {
            None => ExchangeEnd::Answered,
            Some(Closing::Closed) => ExchangeEnd::Closed,
            Some(Closing::Ended) => ExchangeEnd::Ended,
            Some(Closing::Refused(fault)) => ExchangeEnd::Refused(fault),
        },
    }
}

// Returns how a connection ended, given the result of its dialogue and how the side closed it.
fn connection_end(driven: Result<bool, TalkFault>, closing: Option<Closing>) -> End
    ensures { result ≡ connection_end driven closing }
{
    match driven {
        Err(_) => End::WriteFailed,
        Ok(_) => match closing {
            None | Some(Closing::Ended) => End::Ended,
            Some(Closing::Closed) => End::Closed,
            Some(Closing::Refused(fault)) => End::Refused(fault),
        },
    }
}

// Returns the number of replies that were written and flushed.
fn flushed_replies(driven: Result<bool, TalkFault>, earlier: u32, requests: u32) -> u32
    ensures { result ≡ flushed_replies driven earlier requests }
{
    match driven {
        Err(_) => earlier,
        Ok(_) => requests,
    }
}
