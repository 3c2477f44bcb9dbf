//! An indexer that keeps the objects of the packs that it receives.

ghost use Rattle.std.specs.Prelude.{◌≡◌, ◌++◌, ⊤, All, IfOk, OnErr, OnOk};
ghost use Rattle.gcomplete.specs.Batches.{AreJudged, HasJudged, KeepsTypes};
ghost use Rattle.gcomplete.specs.Closed.{IsComplete};
ghost use Rattle.gcomplete.specs.Judging.{IsKept};
ghost use Rattle.gcomplete.specs.Stores.{Store};
ghost use Rattle.gname.specs.Ids.{Id};
ghost use Rattle.gitmemory.specs.Packs.{IsIndexed};

use crate::feed::MemoryFeed;
use crate::intake::read_pack;
use gcomplete::{BatchFault, ClosedStore};
use gname::Oid;
use gobject::{Entry, FindingIndexer, IndexFault, KeepingIndexer};
use std::alloc::{Allocator, Global};

/// The ids and types of objects, in memory. It receives packs, and keeps the ids and types of their
/// objects. It is complete: each link of each of its objects leads to one of its objects, which has
/// the expected type.
///
/// A pack has at most `gname::MAX_PACK` bytes and 1,048,576 objects. The maximum size of an object
/// is 256 MiB, less 224 bytes for each object of the pack. The same maximum applies to the total
/// size of a delta, its bases in memory and its result. The maximum total size of all objects and
/// deltas is 4 GiB. A delta chain has at most 8,191 deltas. Memory for the ids that objects name is
/// limited only by these sizes.
#[derive(Drop)]
pub struct MemoryIndexer<A: Allocator + Copy = Global> {
    store: ClosedStore<A>,
}

impl<A: Allocator + Copy> MemoryIndexer<A> {
    /// Returns an indexer that keeps the objects of this store, and adds the objects of packs to
    /// it.
    pub fn new(store: ClosedStore<A>) -> MemoryIndexer<A>
        ensures { result.store ≡ store }
    {
        MemoryIndexer { store }
    }

    /// Returns the store with all kept objects.
    pub fn store(&self) -> &ClosedStore<A>
        ensures { result.now ≡ self.now.store }
    {
        &self.store
    }

    /// Proves that the ids and types are those of a closed store, and that each kept id is complete
    /// in every such store.
    pub fn laws(&self)
        ensures judged { HasJudged self.now.store }
        ensures complete { (objects : Store) → AreJudged self.now.store objects
            → (a : Id) → IsKept self.now.store a → IsComplete objects a }
    {
        self.store.laws();
    }
}

impl<A: Allocator + Copy> KeepingIndexer<A> for MemoryIndexer<A> {
    type Feed = MemoryFeed<A>;

    ghost indexes = { λ bytes entries. IsIndexed bytes entries };

    ghost index_fails = { λ _ _. ⊤ };

    ghost fed = { λ feed bytes. feed ≡ bytes };

    ghost keeps = { λ it id. IsKept it.store id };

    /// Returns the state before the first piece, which uses no memory.
    fn start(&self, alloc: A) -> Result<MemoryFeed<A>, IndexFault> {
        Ok(MemoryFeed::new(alloc))
    }

    /// Appends a piece to the pack.
    ///
    /// Fails with `Other` if the pack would have more than `gname::MAX_PACK` bytes, or with
    /// `Memory` if out of memory. After a fault the feed is unchanged.
    fn feed(&self, feed: &mut MemoryFeed<A>, piece: &[u8]) -> Result<(), IndexFault>
        ensures ok { OnOk result (feed.new ≡ feed.old ++ piece.now) }
        ensures err { OnErr result (feed.new ≡ feed.old) }
    {
        feed.push(piece)
    }

    /// Adds all objects of the pack to the store, or none. Returns the entries of its commits and
    /// tags. Trees, blobs, and tags of trees or blobs have no entry.
    ///
    /// Fails with `Other` if the pack is malformed or exceeds a limit. Also fails with `Other` if
    /// an object is malformed, or has a link that leads to no object of its type. Fails with
    /// `Other` if an id belongs to two objects of different types. Fails with `Memory` if out of
    /// memory. After a fault the store is unchanged.
    fn finish(&mut self, feed: MemoryFeed<A>) -> Result<Vec<Entry<A>, A>, IndexFault>
        ensures indexes { IfOk result (λ entries. IsIndexed feed entries.items) }
        ensures kept { IfOk result (λ entries. All (λ entry. IsKept self.new.store entry.id)
            entries.items) }
        ensures keeps { KeepsTypes self.old.store self.new.store }
        ensures same { OnErr result (self.new.store ≡ self.old.store) }
    {
        let (batch, entries) = read_pack(&feed)?;
        match self.store.add_all(batch) {
            Ok(()) => Ok(entries),
            Err(BatchFault::Memory) => Err(IndexFault::Memory),
            Err(_) => Err(IndexFault::Other),
        }
    }
}

impl<A: Allocator + Copy> FindingIndexer<A> for MemoryIndexer<A> {
    /// Returns whether the store has an object with this id.
    fn has(&self, id: &Oid) -> bool {
        self.store.kind_of(id).is_some()
    }
}
