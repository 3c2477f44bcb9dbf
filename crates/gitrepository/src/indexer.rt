//! An indexer of packs that a Git directory receives.

ghost use Rattle.std.specs.Prelude.{◌≡◌, ◌++◌, ⊤, ℕ, List, All, IfOk, IsSomeAnd, MatchResult, None, OnErr, OnOk};
ghost use Rattle.gname.specs.Ids.{Id};
ghost use Rattle.gitrepository.specs.Keeping.{IsEntryKeptBy, IsKeptBy};
ghost use Rattle.gitrepository.specs.Packs.{IsChecksumOf, IsIndexed};
ghost use Rattle.gitrepository.specs.Received.{IsEntryInReceived};

use crate::fault::RepositoryFault;
use crate::feed::{Received, StoreFeed};
use crate::spools::PackSpools;
use crate::tips::Tips;
use ggraph::{Entry, IndexFault, KeepingIndexer};
use gitobject::ObjectType;
use gitobjects::{ObjectFiles, ObjectReader};
use gname::Oid;
use std::alloc::Allocator;
use std::cell::RefCell;

/// An indexer of packs that a Git directory receives. The indexer keeps an accepted pack until
/// [`take_received`](StoreIndexer::take_received), and accepts no other pack before.
///
/// An id is kept if an object or a prerequisite of the accepted pack has it. Nothing is kept before
/// a pack is accepted, and after `take_received`.
///
/// Each object is inflated, and its id is computed. Each object named by an object of the pack must
/// be in the pack or in the store, with the expected type. If the store already has an object with
/// the id of an object of the pack, both must have the same type and bytes.
///
/// A pack is too large if it has more than 1,048,576 objects. The maximum size of an object is 256
/// MiB, less 224 bytes for each object of the pack. The same maximum applies to the total size of a
/// delta, its bases in memory and its result. The maximum size of a commit, tree or tag is 64 MiB,
/// and the maximum total size of all objects and deltas is 64 GiB. A delta chain may have at most
/// 8,191 deltas and 16 GiB of objects, and an entry of the pack at most 128 MiB. The commits, tags
/// and named ids may use at most 112 MiB of memory. This is enough for about two million ids, or
/// for 485,000 commits with a tree each. The ids that stored trees name have no such limit.
#[derive(Drop)]
pub struct StoreIndexer<'t, 'f, F, P, A>
where
    F: ObjectFiles,
    P: PackSpools + Drop,
    A: Allocator + Copy,
{
    reader: RefCell<ObjectReader<'f, F, A>>,
    tips: &'t Tips<A>,
    spools: P,
    received: Option<Received<P::Spool, A>>,
    fault: RefCell<Option<RepositoryFault<A>>>,
}

impl<'t, 'f, F, P, A> StoreIndexer<'t, 'f, F, P, A>
where
    F: ObjectFiles,
    P: PackSpools + Drop,
    A: Allocator + Copy,
{
    /// Returns an indexer of packs that the reader's store receives. A tree or blob in a pack
    /// becomes an entry without parents if a ref of the peer points to this object.
    pub fn new(
        reader: ObjectReader<'f, F, A>,
        tips: &'t Tips<A>,
        spools: P,
    ) -> StoreIndexer<'t, 'f, F, P, A>
        ensures { result.received ≡ None }
    {
        StoreIndexer {
            reader: RefCell::new(reader),
            tips,
            spools,
            received: None,
            fault: RefCell::new(None),
        }
    }

    /// Removes and returns the accepted pack, or returns `None` if no pack is kept.
    pub fn take_received(&mut self) -> Option<Received<P::Spool, A>>
        ensures received { result ≡ self.old.received }
        ensures taken { self.new.received ≡ None }
    {
        self.received.take()
    }

    /// Removes and returns the fault of the last call that failed with `IndexFault::Other`. Returns
    /// `None` if no fault is stored.
    pub fn take_fault(&self) -> Option<RepositoryFault<A>> {
        match self.fault.try_replace(None) {
            Ok(fault) => fault,
            Err(_) => None,
        }
    }

    /// Returns the type of an object in the accepted pack or in the store.
    ///
    /// Fails with `Store` if the object is missing or cannot be read. Fails with `Busy` if the
    /// indexer is in use, or with `Memory` if out of memory.
    pub fn kind_of(&self, id: &Oid) -> Result<ObjectType, RepositoryFault<A>> {
        if let Some(kind) = self.received_kind(id) {
            return Ok(kind);
        }
        match self.reader.try_borrow_mut() {
            Ok(mut reader) => Ok(reader.kind_of(id)?),
            Err(_) => Err(RepositoryFault::Busy),
        }
    }

    // Returns the type of an object of the accepted pack, or `None` if the pack lacks the object.
    fn received_kind(&self, id: &Oid) -> Option<ObjectType> {
        match &self.received {
            Some(received) => Some(received.index.find(id)?.kind),
            None => None,
        }
    }

    // Receives the next bytes of a pack.
    fn take_piece(
        &self,
        feed: &mut StoreFeed<P::Spool, A>,
        piece: &[u8],
    ) -> Result<(), RepositoryFault<A>>
        ensures { OnOk result (feed.new ≡ feed.old ++ piece.now) }
    {
        match self.reader.try_borrow_mut() {
            Ok(mut reader) => Ok(feed.take_piece(&mut *reader, self.tips, piece)?),
            Err(_) => Err(RepositoryFault::Busy),
        }
    }

    // Indexes a complete pack, and keeps the pack for `take_received`. Fails with `Busy` if an
    // accepted pack was not taken. After a fault nothing has changed.
    fn receive(
        &mut self,
        feed: StoreFeed<P::Spool, A>,
    ) -> Result<Vec<Entry<A>, A>, RepositoryFault<A>>
        ensures indexed { IfOk result (λ entries. IsIndexed feed entries.items) }
        ensures free { OnOk result (self.old.received ≡ None) }
        ensures pack { OnOk result (IsSomeAnd self.new.received
            (λ it. P.Spool.bytes it.pack ≡ feed)) }
        ensures checksum { OnOk result (IsSomeAnd self.new.received
            (λ it. IsChecksumOf it.index.checksum feed)) }
        ensures kept { IfOk result (λ entries. All (IsEntryKeptBy self.new.received)
            entries.items) }
        ensures stays { (id : Id) → IsKeptBy self.old.received id → IsKeptBy self.new.received id }
        ensures same { OnErr result (self.new.received ≡ self.old.received) }
    {
        if self.received.is_some() {
            return Err(RepositoryFault::Busy);
        }
        match self.index(feed) {
            Ok((received, entries)) => {
                self.received = Some(received);
                Ok(entries)
            }
            Err(fault) => Err(fault),
        }
    }

    // Indexes a complete pack.
    fn index(
        &self,
        feed: StoreFeed<P::Spool, A>,
    ) -> Result<(Received<P::Spool, A>, Vec<Entry<A>, A>), RepositoryFault<A>>
        ensures pack { IfOk result (λ it. P.Spool.bytes it.0.pack ≡ feed) }
        ensures checksum { IfOk result (λ it. IsChecksumOf it.0.index.checksum feed) }
        ensures indexed { IfOk result (λ it. IsIndexed feed it.1.items) }
        ensures received { IfOk result (λ it. All
            (IsEntryInReceived it.0.prerequisites.items it.0.index.entries) it.1.items) }
    {
        match self.reader.try_borrow_mut() {
            Ok(mut reader) => feed.finish(&mut *reader, self.tips),
            Err(_) => Err(RepositoryFault::Busy),
        }
    }

    // Converts a fault to an `IndexFault`, and stores the original fault for `take_fault`.
    fn keep(&self, fault: RepositoryFault<A>) -> IndexFault {
        match fault {
            RepositoryFault::Memory => IndexFault::Memory,
            _ => {
                let _ = self.fault.try_replace(Some(fault));
                IndexFault::Other
            }
        }
    }
}

impl<F, P, A> KeepingIndexer<A> for StoreIndexer<'_, '_, F, P, A>
where
    F: ObjectFiles,
    P: PackSpools + Drop,
    A: Allocator + Copy,
{
    type Feed = StoreFeed<P::Spool, A>;

    ghost indexes = { λ bytes entries. IsIndexed bytes entries };

    ghost index_fails = { λ _ _. ⊤ };

    ghost fed = { λ feed bytes. feed ≡ bytes };

    ghost keeps = { λ it id. IsKeptBy it.received id };

    fn start(&self, alloc: A) -> Result<StoreFeed<P::Spool, A>, IndexFault> {
        Ok(StoreFeed::new(alloc, self.spools.open()))
    }

    fn feed(&self, feed: &mut StoreFeed<P::Spool, A>, piece: &[u8]) -> Result<(), IndexFault> {
        match self.take_piece(feed, piece) {
            Ok(()) => Ok(()),
            Err(fault) => Err(self.keep(fault)),
        }
    }

    /// Checks the complete pack, and keeps it for [`take_received`](StoreIndexer::take_received).
    /// Returns the entries of its commits and tags, and of those of its trees and blobs that a ref
    /// of the peer points to. If a tag names a tree or blob, its entry is also returned.
    ///
    /// Fails with `Other` if an accepted pack was not taken, or if the pack is refused or cannot be
    /// stored. Fails with `Memory` if out of memory. After a fault the indexer keeps what it kept
    /// before.
    fn finish(&mut self, feed: StoreFeed<P::Spool, A>) -> Result<Vec<Entry<A>, A>, IndexFault>
        ensures answers { MatchResult result
            (λ entries. ((given : List ℕ) → feed ≡ given → IsIndexed given entries.items))
            (λ fault. ((given : List ℕ) → feed ≡ given → ⊤)) }
        ensures free { OnOk result (self.old.received ≡ None) }
        ensures pack { OnOk result (IsSomeAnd self.new.received
            (λ it. P.Spool.bytes it.pack ≡ feed)) }
        ensures checksum { OnOk result (IsSomeAnd self.new.received
            (λ it. IsChecksumOf it.index.checksum feed)) }
        ensures kept { IfOk result (λ entries. All (IsEntryKeptBy self.new.received)
            entries.items) }
        ensures stays { (id : Id) → IsKeptBy self.old.received id → IsKeptBy self.new.received id }
        ensures same { OnErr result (self.new.received ≡ self.old.received) }
    {
        match self.receive(feed) {
            Ok(entries) => Ok(entries),
            Err(fault) => Err(self.keep(fault)),
        }
    }
}
