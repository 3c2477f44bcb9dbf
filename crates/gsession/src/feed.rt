//! A sink that passes the pack of a reply to the indexer.

ghost use Rattle.std.specs.Prelude.{◌≡◌, ◌++◌, [], false, MatchResult};
ghost use Rattle.gpkt.specs.Packets.{Bytes};
ghost use Rattle.gfetchreply.specs.PackSinks.{TakesPiece};
ghost use Rattle.gsession.specs.steps.Calls.{MayHaveFed};

use gfetchreply::PackSink;
use ggraph::{IndexFault, KeepingIndexer};
use std::alloc::Allocator;
use std::marker::PhantomData;

/// A sink that passes a pack to an indexer, piece by piece. After a fault of the indexer, the sink
/// ignores all later pieces and keeps the fault.
#[derive(Drop)]
pub(crate) struct PackFeed<'k, K: KeepingIndexer<A>, A: Allocator + Copy> {
    indexer: &'k K,
    feed: Result<K::Feed, IndexFault>,
    memory: PhantomData<A>,
}

impl<'k, K: KeepingIndexer<A>, A: Allocator + Copy> PackFeed<'k, K, A> {
    /// Starts the indexer for a new pack.
    pub(crate) fn start(alloc: A, indexer: &'k K) -> PackFeed<'k, K, A>
        ensures { MayHaveFed K.fed K.index_fails result.feed [] }
    {
        PackFeed {
            indexer,
            feed: indexer.start(alloc),
            memory: PhantomData,
        }
    }

    /// Returns a sink that passes the rest of a pack to the indexer.
    pub(crate) fn resume(indexer: &'k K, feed: Result<K::Feed, IndexFault>) -> PackFeed<'k, K, A>
        ensures { result.feed ≡ feed }
    {
        PackFeed {
            indexer,
            feed,
            memory: PhantomData,
        }
    }

    /// Returns the state of the indexer after the last piece. Fails with the indexer's first fault.
    pub(crate) fn into_feed(self) -> Result<K::Feed, IndexFault>
        ensures { result ≡ self.entry.feed }
    {
        let PackFeed {
            indexer: _,
            feed,
            memory: _,
        } = self;
        feed
    }

    // Passes a piece of the pack to the indexer.
    fn add(&mut self, bytes: &[u8]) -> Result<(), IndexFault>
        ensures { MatchResult result
            (λ _. ((before : Bytes) → MayHaveFed K.fed K.index_fails self.old.feed before
            → MayHaveFed K.fed K.index_fails self.new.feed (before ++ bytes.now)))
            (λ fault. ((before more : Bytes) → MayHaveFed K.fed K.index_fails self.old.feed before
            → K.index_fails ((before ++ bytes.now) ++ more) fault)) }
    {
        match &mut self.feed {
            Ok(feed) => self.indexer.feed(feed, bytes),
            Err(_) => Ok(()),
        }
    }
}

impl<K: KeepingIndexer<A>, A: Allocator + Copy> PackSink for PackFeed<'_, K, A> {
    ghost taken = { λ feed bytes. MayHaveFed K.fed K.index_fails feed.feed bytes };

    ghost same = { λ _ _. Unit {0} };

    // The sink accepts every piece. The session reports the indexer's fault after the end of the
    // reply.
    ghost refuses = { false };

    fn piece(&mut self, bytes: &[u8]) -> bool
        ensures { TakesPiece (λ feed taken. MayHaveFed K.fed K.index_fails feed.feed taken) false
            self.old self.new bytes.now result }
    {
        if let Err(fault) = self.add(bytes) {
            self.feed = Err(fault);
        }
        true
    }

    fn laws() {}
}
