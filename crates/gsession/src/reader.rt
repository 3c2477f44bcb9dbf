//! Reading the reply to a request for objects packet by packet.

ghost use Rattle.std.specs.Prelude.{false, List, []};
ghost use Rattle.gpkt.specs.Packets.{Packet, packet_of};
ghost use Rattle.ggrammar.specs.Grammar.{IsOpen};
ghost use Rattle.ggrammar.specs.MessageReading.{TakesPacket};
ghost use Rattle.gfetchreply.specs.FetchReplies.{Reading, brings_into, judge};
ghost use Rattle.gfetchreply.specs.Views.{reading_in};
ghost use Rattle.gsession.specs.Readers.{HoldsObjects};

use crate::feed::PackFeed;
use gfetchreply::{FetchReader, FetchReading, StreamLimit};
use ggrammar::{Step, Why};
use ggraph::{IndexFault, KeepingIndexer};
use std::alloc::Allocator;
use std::mem;

/// The reply to a request for objects that is being read. The reader passes the pack to the
/// indexer, which each call borrows. After a fault of the indexer, the reader ignores the rest of
/// the pack and keeps the fault.
#[derive(Drop)]
pub struct ObjectsReader<F, A: Allocator + Copy> {
    pub(crate) reply: FetchReader<A>,
    pub(crate) feed: Result<F, IndexFault>,
}

impl<F: Drop, A: Allocator + Copy> ObjectsReader<F, A> {
    // Returns a reader that has not read any packet yet, and starts the indexer for a new pack.
    pub(crate) fn start<K: KeepingIndexer<A, Feed = F>>(
        alloc: A,
        reading: FetchReading<StreamLimit>,
        indexer: &K,
    ) -> ObjectsReader<F, A>
        ensures { HoldsObjects K.fed K.index_fails (reading_in reading) result [] }
    {
        ObjectsReader {
            reply: FetchReader::new(alloc, reading),
            feed: PackFeed::start(alloc, indexer).into_feed(),
        }
    }

    /// Accepts the next packet, and passes its data of the pack to the indexer. Fails if the
    /// grammar rejects the packet, or if memory runs out for an acknowledged id. A fault of the
    /// indexer is reported only after the end of the reply, by [`Session::accept_objects`].
    ///
    /// [`Session::accept_objects`]: crate::Session::accept_objects
    pub fn hear_packet<K: KeepingIndexer<A, Feed = F>>(
        &mut self,
        indexer: &K,
        line: gpkt::Packet<'_>,
    ) -> Result<Step, Why>
        ensures { (reading : Reading) (front : List Packet) → IsOpen (judge reading) front
            → HoldsObjects K.fed K.index_fails reading self.old front
            → TakesPacket (judge reading) (brings_into false reading)
            (HoldsObjects K.fed K.index_fails reading) (λ reader packets. Unit {0}) front
            (packet_of line.entry) self.new result }
    {
        // A placeholder replaces the state of the indexer while the sink owns it.
        let feed = mem::replace(&mut self.feed, Err(IndexFault::Memory));
        let mut sink = PackFeed::resume(indexer, feed);
        let heard = self.reply.hear_packet(&mut sink, line);
        self.feed = sink.into_feed();
        heard
    }
}
