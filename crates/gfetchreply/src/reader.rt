//! Reading a fetch reply packet by packet.

ghost use Rattle.std.specs.Prelude.{◌≡◌, List};
ghost use Rattle.gpkt.specs.Packets.{Packet, packet_of};
ghost use Rattle.ggrammar.specs.Grammar.{IsOpen, IsWhole};
ghost use Rattle.ggrammar.specs.MessageReading.{TakesPacket};
ghost use Rattle.gfetchreply.specs.FetchReplies.{brings_into, judge};
ghost use Rattle.gfetchreply.specs.ReplyReading.{HasHead};
ghost use Rattle.gfetchreply.specs.steps.ReplyState.{HoldsReply, first_kept, kept_in, kept_of};
ghost use Rattle.gfetchreply.specs.Views.{head_in, reading_in};

use crate::accepting::accept_packet;
use crate::limit::StreamLimit;
use crate::reading::FetchReading;
use crate::sections::Sections;
use crate::sink::PackSink;
use crate::value::FetchHead;
use ggrammar::{Step, Why};
use std::alloc::Allocator;

/// A fetch reply that is being read. The reader does not store the pack, but passes its data to the
/// sink of each call.
#[derive(Drop)]
pub struct FetchReader<A: Allocator + Copy> {
    pub(crate) reading: FetchReading<StreamLimit>,
    pub(crate) sections: Sections<A>,
}

impl<A: Allocator + Copy> FetchReader<A> {
    /// Returns a reader that has not read any packet yet. The ids are allocated with `alloc`.
    pub fn new(alloc: A, reading: FetchReading<StreamLimit>) -> FetchReader<A>
        ensures reading { result.reading ≡ reading }
        ensures kept { kept_in result.sections
            ≡ first_kept reading.limits reading.format reading.direct }
    {
        FetchReader {
            reading,
            sections: Sections::new(alloc, reading.limits, reading.format, reading.direct),
        }
    }

    /// Returns the reply without its pack. The data of the accepted packets is the pack.
    pub fn finish(self) -> FetchHead<A>
        ensures { (lines : List Packet) → IsWhole (judge (reading_in self.reading)) lines
            → kept_in self.sections
            ≡ kept_of self.reading.limits self.reading.format self.reading.direct lines
            → HasHead (reading_in self.reading) lines (head_in result) }
    {
        let FetchReader { reading, sections } = self;
        sections.into_head(reading.direct)
    }

    /// Accepts the next packet, and passes its data to the sink. Fails if the grammar rejects the
    /// packet, or if memory runs out for its contents. The sink stays the same, in the sense of
    /// [`PackSink`].
    pub fn hear_packet<T: PackSink>(
        &mut self,
        sink: &mut T,
        line: gpkt::Packet<'_>,
    ) -> Result<Step, Why>
        ensures reading { self.new.reading ≡ self.old.reading }
        ensures same { T.same sink.old sink.new }
        ensures takes { (front : List Packet) → IsOpen (judge (reading_in self.old.reading)) front
            → HoldsReply T.taken T.same (reading_in self.old.reading) (kept_in self.old.sections)
            sink.old front
            → TakesPacket (judge (reading_in self.old.reading))
            (brings_into T.refuses (reading_in self.old.reading))
            (λ reader packets. HoldsReply T.taken T.same (reading_in reader.reading)
            (kept_in reader.sections) sink.new packets)
            (λ reader packets. Unit {0}) front (packet_of line.entry) self.new result }
    {
        // Laws that the proof uses.
        T::laws();
        accept_packet(self.reading, &mut self.sections, sink, line)
    }
}
