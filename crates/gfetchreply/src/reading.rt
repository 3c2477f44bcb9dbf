//! Reading a fetch reply.

ghost use Rattle.std.specs.Prelude.{◌≡◌, ◌≤◌, ℕ, List, length, IfOk, OnOk};
ghost use Rattle.gpkt.specs.Packets.{Bytes, packet_of};
ghost use Rattle.gpkt.specs.Change.{change_of};
ghost use Rattle.gname.specs.declared.formats.Format.TheVariants.{Sha1};
ghost use Rattle.ggrammar.specs.Kinds.{ReadsOrRefuses};
ghost use Rattle.ggrammar.specs.Limits.{profile};
ghost use Rattle.ggrammar.specs.MessageReading.{LeavesReader};
ghost use Rattle.gfetchreply.specs.FetchReplies.{Says, brings, judge, judge_at};
ghost use Rattle.gfetchreply.specs.FetchHeads.{pack_of};
ghost use Rattle.gfetchreply.specs.steps.ReplyState.{TakesBoth, brings_there, data_there, first_kept, kept_in, place_in, state_in, with_packet};
ghost use Rattle.gfetchreply.specs.ReplyReading.{ReadsReply};
ghost use Rattle.gfetchreply.specs.Views.{AreAcksOf, IsHeadOf, IsReplyOf, head_result, reading_in, reply_in, reply_result, sha1_reading};
ghost use Rattle.gfetchreply.specs.steps.Views.{head_after, reading_with};

use crate::accepting::accept_packet;
use crate::limit::{PackLimit, StreamLimit};
use crate::reader::FetchReader;
use crate::sink::PackSink;
use crate::value::{FetchHead, FetchReply};
use ggrammar::{Ends, Limits, Message, MessageFault, Step, Why, read_message};
use gname::Format;
use gpkt::{Packet, PacketReader, Source};
use std::alloc::Allocator;
use std::marker::{Brand, PhantomData};

/// The parameters of reading a fetch reply. `K` is [`StreamLimit`] if the pack is passed to a sink,
/// and [`PackLimit`] if the pack is stored in memory.
#[derive(Clone, Copy, Debug, PartialEq, Eq)]
pub struct FetchReading<K> {
    /// The limits on the reply. Only `haves` matters, as the maximum number of acknowledged ids. A
    /// limit above 4,294,967,295 counts as 4,294,967,295.
    pub limits: Limits,
    /// The format of the ids.
    pub format: Format,
    /// Whether the reply starts with the pack, as after a request with `done` or without haves.
    pub direct: bool,
    /// The maximum length of the pack in bytes.
    pub limit: K,
    /// The packets that end the reply.
    pub ends: Ends,
}

// Ghost values that describe one call that reads a reply. The values are members of a type, since
// the contract of the trait `Message` mentions only a reader and its packets. The proof of each
// call chooses the values for the type `Brand`, in `Invariants.antt`.
trait Lent<T> {
    ghost use Rattle.gfetchreply.specs.FetchReplies.{Reading};

    // The parameters of reading.
    ghost reading: { Reading };

    // The address of the borrowed sink.
    ghost address: { ℕ };

    // Whether the sink had accepted exactly these bytes before the call.
    ghost accepted_before: { List ℕ → Type 0 };

    // Whether the sink was in this state before the call.
    ghost state_before: { T → Type 0 };
}

// Placeholders. The proof of each call chooses other values.
impl<T> Lent<T> for Brand {
    ghost use Rattle.gfetchreply.specs.steps.Views.{no_reading};

    ghost reading = { no_reading };

    ghost address = { 0 };

    ghost accepted_before = { λ _. ⊥ };

    ghost state_before = { λ _. ⊥ };
}

// A reply that is being read, and the sink that accepts the pack's data.
#[derive(Drop)]
struct ReplyReader<'s, T, A: Allocator + Copy, L> {
    reader: FetchReader<A>,
    sink: &'s mut T,
    lent: PhantomData<L>,
}

impl<'s, T: PackSink, A: Allocator + Copy, L: Lent<T>> ReplyReader<'s, T, A, L> {
    // Returns a reader that has not read any packet yet.
    fn new(
        alloc: A,
        reading: FetchReading<StreamLimit>,
        sink: &'s mut T,
    ) -> ReplyReader<'s, T, A, L>
        ensures in_place { result.sink.ghost_name ≡ sink.entry.ghost_name }
        ensures sink { result.sink.now ≡ sink.old }
        ensures reading { result.reader.reading ≡ reading }
        ensures kept { kept_in result.reader.sections
            ≡ first_kept reading.limits reading.format reading.direct }
    {
        ReplyReader {
            reader: FetchReader::new(alloc, reading),
            sink,
            lent: PhantomData,
        }
    }

    fn take_packet(&mut self, line: Packet<'_>) -> Result<Step, Why>
        ensures reading { self.new.reader.reading ≡ self.old.reader.reading }
        ensures in_place { self.new.sink.ghost_name ≡ self.old.sink.ghost_name }
        ensures same { T.same self.old.sink.now self.new.sink.now }
        ensures takes { TakesBoth T.taken (judge_at
            (reading_with self.old.reader.reading self.old.reader.sections) (state_in self.old.reader.sections)
            (packet_of line.entry))
            (brings_there T.refuses (place_in self.old.reader.sections.place) (packet_of line.entry))
            (with_packet (kept_in self.old.reader.sections) (packet_of line.entry))
            (kept_in self.new.reader.sections)
            (data_there (place_in self.old.reader.sections.place) (packet_of line.entry))
            self.old.sink.now self.new.sink.now result }
    {
        accept_packet(
            self.reader.reading,
            &mut self.reader.sections,
            &mut *self.sink,
            line,
        )
    }
}

impl<T: PackSink, A: Allocator + Copy, L: Lent<T>> Message for ReplyReader<'_, T, A, L> {
    ghost use Rattle.gfetchreply.specs.FetchReplies.{brings_into, judge};
    ghost use Rattle.gfetchreply.specs.steps.ReplyState.{Holds, Leaves, kept_in};
    ghost use Rattle.gfetchreply.specs.Views.{reading_in};

    ghost judge = { λ message. judge (reading_in message.reader.reading) };

    ghost brings = { λ message. brings_into T.refuses (reading_in message.reader.reading) };

    ghost holds = { λ message packets. Holds T.taken T.same L.accepted_before L.state_before L.address L.reading (reading_in message.reader.reading)
        (kept_in message.reader.sections) message.sink.now message.sink.ghost_name packets };

    ghost left = { λ message packets. Leaves T.taken T.same L.accepted_before L.state_before L.address L.reading (reading_in message.reader.reading)
        message.sink.now message.sink.ghost_name packets };

    fn laws() {}

    fn accept_packet(&mut self, line: Packet<'_>) -> Result<Step, Why> {
        // Laws that the proof uses.
        T::laws();
        self.take_packet(line)
    }
}

/// Reads a fetch reply with SHA-1 ids and the default limits, as [`read_fetch_reply_into_in`] does.
/// For the arguments `direct`, `limit` and `ends`, see the fields of [`FetchReading`].
pub fn read_fetch_reply_into<S: Source, T: PackSink, A: Allocator + Copy, B: Allocator + Copy>(
    reader: &mut PacketReader<S, A>,
    direct: bool,
    limit: StreamLimit,
    ends: Ends,
    sink: &mut T,
    alloc: B,
) -> Result<FetchHead<B>, MessageFault>
    ensures read { ReadsReply T.taken T.refuses (sha1_reading direct limit ends)
        (change_of S.remaining reader.old.source reader.new.source) (T.taken sink.old) sink.new
        (head_result result) }
    ensures format { IfOk result (IsHeadOf profile Sha1) }
    ensures same { T.same sink.old sink.new }
    ensures loans { S.loans reader.new.source ≡ S.loans reader.old.source }
    ensures reader { LeavesReader S.is_down reader.old reader.new result }
{
    let reading = FetchReading {
        limits: Limits::default(),
        format: Format::Sha1,
        direct,
        limit,
        ends,
    };
    read_fetch_reply_into_in(reader, reading, sink, alloc)
}

/// Reads one fetch reply to its end, and nothing after it (gitprotocol-v2(5), "fetch"). The pack is
/// passed to the sink in pieces, directly from the reader's buffer. No piece is empty. The ids are
/// allocated with `alloc`.
///
/// A fault contains the reason, and the position of the first packet that does not fit. A fault of
/// the packet reader ([`Why::Line`]) takes precedence over the end of the input ([`Why::Ended`]).
/// Next in precedence is an error that the peer reports ([`Why::RemoteErr`]), and last a fault of
/// the grammar. A well-formed id is rejected with [`Why::Limit`] if there are already as many ids
/// as the limits allow (see [`Acks`](crate::Acks)). A packet with which the pack would exceed its
/// limit is also rejected with [`Why::Limit`]. The fault [`Why::Memory`] is reported only at an
/// acknowledged id or, if the sink may refuse a piece, at data of the pack.
///
/// If the reply is rejected, the sink has accepted the data of the packets before the rejected
/// packet. The length of this data is within the limit. After a rejection, the packet reader has
/// failed exactly if the fault is [`Why::Line`]. The call changes only those parts of the sink that
/// accepting a piece can change (`PackSink::same`).
pub fn read_fetch_reply_into_in<S: Source, T: PackSink, A: Allocator + Copy, B: Allocator + Copy>(
    reader: &mut PacketReader<S, A>,
    reading: FetchReading<StreamLimit>,
    sink: &mut T,
    alloc: B,
) -> Result<FetchHead<B>, MessageFault>
    ensures read { ReadsReply T.taken T.refuses (reading_in reading)
        (change_of S.remaining reader.old.source reader.new.source)
        (T.taken sink.old) sink.new (head_result result) }
    ensures format { IfOk result (IsHeadOf reading.limits reading.format) }
    ensures same { T.same sink.old sink.new }
    ensures loans { S.loans reader.new.source ≡ S.loans reader.old.source }
    ensures reader { LeavesReader S.is_down reader.old reader.new result }
{
    // Laws that the proof uses.
    T::laws();
    let direct = reading.direct;
    let mut reply = ReplyReader::<T, B, Brand>::new(alloc, reading, sink);
    let end = read_to_end::<S, T, A, B, Brand>(reader, &mut reply);
    let ReplyReader {
        reader: read,
        sink: _lent,
        lent: _,
    } = reply;
    let FetchReader {
        reading: _,
        sections,
    } = read;
    match end {
        Ok(()) => Ok(sections.into_head(direct)),
        Err(fault) => Err(fault),
    }
}

/// Reads a fetch reply with SHA-1 ids and the default limits, and stores its pack in memory, as
/// [`read_fetch_reply_in`] does.
pub fn read_fetch_reply<S: Source, A: Allocator + Copy, B: Allocator + Copy>(
    reader: &mut PacketReader<S, A>,
    direct: bool,
    limit: PackLimit,
    ends: Ends,
    alloc: B,
) -> Result<FetchReply<B>, MessageFault>
    ensures read { ReadsOrRefuses (judge (sha1_reading direct limit ends))
        (brings (sha1_reading direct limit ends)) (Says (sha1_reading direct limit ends))
        (change_of S.remaining reader.old.source reader.new.source) (reply_result result) }
    ensures short { IfOk result (λ reply. length (pack_of (reply_in reply)) ≤ limit) }
    ensures format { IfOk result (IsReplyOf profile Sha1) }
    ensures loans { S.loans reader.new.source ≡ S.loans reader.old.source }
    ensures reader { LeavesReader S.is_down reader.old reader.new result }
{
    let reading = FetchReading {
        limits: Limits::default(),
        format: Format::Sha1,
        direct,
        limit,
        ends,
    };
    read_fetch_reply_in(reader, reading, alloc)
}

/// Reads one fetch reply as [`read_fetch_reply_into_in`] does, and stores its pack in memory. The
/// ids and the pack are allocated with `alloc`. If the reply is rejected, the ids and the pack are
/// dropped.
pub fn read_fetch_reply_in<S: Source, A: Allocator + Copy, B: Allocator + Copy>(
    reader: &mut PacketReader<S, A>,
    reading: FetchReading<PackLimit>,
    alloc: B,
) -> Result<FetchReply<B>, MessageFault>
    ensures read { ReadsOrRefuses (judge (reading_in reading)) (brings (reading_in reading))
        (Says (reading_in reading))
        (change_of S.remaining reader.old.source reader.new.source) (reply_result result) }
    ensures short { IfOk result (λ reply. length (pack_of (reply_in reply)) ≤ reading.limit) }
    ensures format { IfOk result (IsReplyOf reading.limits reading.format) }
    ensures loans { S.loans reader.new.source ≡ S.loans reader.old.source }
    ensures reader { LeavesReader S.is_down reader.old reader.new result }
{
    // Laws that the proof uses.
    reading.limit.laws();
    let mut pack = Vec::new(alloc);
    match read_fetch_reply_into_in(reader, with_stream_limit(reading), &mut pack, alloc) {
        Ok(head) => Ok(FetchReply::with_pack(head, pack)),
        Err(fault) => Err(fault),
    }
}

// Returns these parameters, with the limit converted to a [`StreamLimit`].
fn with_stream_limit(reading: FetchReading<PackLimit>) -> FetchReading<StreamLimit>
    ensures { result ≡ reading }
{
    FetchReading {
        limits: reading.limits,
        format: reading.format,
        direct: reading.direct,
        limit: StreamLimit::from(reading.limit),
        ends: reading.ends,
    }
}

// Reads a reply to its end, and passes its pack to the sink of `reply`.
fn read_to_end<S: Source, T: PackSink, A: Allocator + Copy, B: Allocator + Copy, L: Lent<T>>(
    reader: &mut PacketReader<S, A>,
    reply: &mut ReplyReader<'_, T, B, L>,
) -> Result<(), MessageFault>
    requires kept { kept_in reply.old.reader.sections
        ≡ first_kept reply.old.reader.reading.limits reply.old.reader.reading.format reply.old.reader.reading.direct }
    requires reading { reading_in reply.old.reader.reading ≡ L.reading }
    requires address { reply.old.sink.ghost_name ≡ L.address }
    requires accepted_before { (before : Bytes) → L.accepted_before before
        → T.taken reply.old.sink.now before }
    requires state_before { (start : T) → L.state_before start → T.same start reply.old.sink.now }
    ensures in_place { reply.new.sink.ghost_name ≡ reply.old.sink.ghost_name }
    ensures read { ReadsReply T.taken T.refuses (reading_in reply.old.reader.reading)
        (change_of S.remaining reader.old.source reader.new.source)
        L.accepted_before reply.new.sink.now
        (head_after reply.old.reader.reading.direct reply.new.reader.sections result) }
    ensures format { OnOk result (AreAcksOf reply.old.reader.reading.limits reply.old.reader.reading.format
        reply.new.reader.sections.acks) }
    ensures same { (start : T) → L.state_before start → T.same start reply.new.sink.now }
    ensures loans { S.loans reader.new.source ≡ S.loans reader.old.source }
    ensures reader { LeavesReader S.is_down reader.old reader.new result }
{
    match read_message(reader, reply) {
        Ok(()) => Ok(()),
        Err(fault) => Err(fault),
    }
}
