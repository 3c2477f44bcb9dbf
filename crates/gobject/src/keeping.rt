//! Indexers that keep the objects of the packs that they read.

ghost use Rattle.std.specs.Prelude.{◌++◌, ◌↔◌, ⊤, [], ℕ, List, All, IfOk, IsTrue, MatchResult};
ghost use Rattle.gname.specs.Ids.{Id};
ghost use Rattle.gobject.specs.declared.node.Entry.{Entry};
ghost use Rattle.gobject.specs.declared.fault.IndexFault.{IndexFault};

use crate::fault::IndexFault;
use crate::node::Entry;
use crate::pack::Indexer;
use gname::Oid;
use std::alloc::Allocator;

/// An indexer with a store. The indexer keeps the id of each entry that it returns.
///
/// The relations `indexes`, `index_fails` and `fed` are those of [`Indexer`]. The relation `keeps`
/// holds of the kept ids. An implementation may define it to say more, for example that each linked
/// object is also kept.
pub trait KeepingIndexer<A: Allocator + Copy> {
    /// The state of the indexer after it has received a part of a pack.
    type Feed: Drop;

    ghost indexes: { List ℕ → List (Entry A) → Type 0 };

    ghost index_fails: { List ℕ → IndexFault → Type 0 };

    ghost fed: { Self.Feed → List ℕ → Type 0 };

    ghost keeps: { Self → Id → Type 0 };

    /// Returns the state before the first piece. Fails only with a fault that `index_fails` allows
    /// for every pack.
    fn start(&self, alloc: A) -> Result<Self::Feed, IndexFault>
        ensures { MatchResult result
            (λ feed. fed feed [])
            (λ fault. ((bytes : List ℕ) → index_fails bytes fault)) };

    /// Feeds the next piece of a pack. Fails only with a fault that `index_fails` allows for every
    /// pack that begins with the pieces so far, including this piece. After a fault the feed can't
    /// be used further.
    fn feed(&self, feed: &mut Self::Feed, piece: &[u8]) -> Result<(), IndexFault>
        ensures { MatchResult result
            (λ _. ((given : List ℕ) → fed feed.old given
            → fed feed.new (given ++ piece.now)))
            (λ fault. ((given more : List ℕ) → fed feed.old given
            → index_fails ((given ++ piece.now) ++ more) fault)) };

    /// Returns the entries of the pack whose pieces were fed, in order, and keeps their ids. All
    /// that was kept before is still kept, also after a fault. Fails only with a fault that
    /// `index_fails` allows for the pack that consists of these pieces.
    fn finish(&mut self, feed: Self::Feed) -> Result<Vec<Entry<A>, A>, IndexFault>
        ensures answers { MatchResult result
            (λ entries. ((given : List ℕ) → fed feed given → indexes given entries.items))
            (λ fault. ((given : List ℕ) → fed feed given → index_fails given fault)) }
        ensures kept { IfOk result (λ entries. All (λ entry. keeps self.new entry.id)
            entries.items) }
        ensures stays { (id : Id) → keeps self.old id → keeps self.new id };
}

/// A [`KeepingIndexer`] whose store can be searched.
pub trait FindingIndexer<A: Allocator + Copy>: KeepingIndexer<A> {
    /// Returns whether the id is kept.
    fn has(&self, id: &Oid) -> bool
        ensures { IsTrue result ↔ Self.keeps self.now id.now };
}

/// An indexer without a store, which promises nothing of an id: `keeps` holds of every id.
#[derive(Clone, Copy, Debug, Drop)]
pub struct KeepsNothing<'k, K> {
    indexer: &'k K,
}

impl<'k, K> KeepsNothing<'k, K> {
    /// Returns an indexer that reads packs like the given indexer.
    pub fn new(indexer: &'k K) -> KeepsNothing<'k, K> {
        KeepsNothing { indexer }
    }
}

impl<A: Allocator + Copy, K: Indexer<A>> KeepingIndexer<A> for KeepsNothing<'_, K> {
    type Feed = K::Feed;

    ghost indexes = { K.indexes };

    ghost index_fails = { K.index_fails };

    ghost fed = { K.fed };

    ghost keeps = { λ _ _. ⊤ };

    fn start(&self, alloc: A) -> Result<K::Feed, IndexFault> {
        self.indexer.start(alloc)
    }

    fn feed(&self, feed: &mut K::Feed, piece: &[u8]) -> Result<(), IndexFault> {
        self.indexer.feed(feed, piece)
    }

    fn finish(&mut self, feed: K::Feed) -> Result<Vec<Entry<A>, A>, IndexFault> {
        self.indexer.finish(feed)
    }
}

impl<A: Allocator + Copy, K: Indexer<A>> FindingIndexer<A> for KeepsNothing<'_, K> {
    fn has(&self, _id: &Oid) -> bool {
        true
    }
}
