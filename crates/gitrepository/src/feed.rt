//! A pack that a Git directory is receiving.

ghost use Rattle.std.specs.Prelude.{◌≡◌, ◌++◌, [], All, IfOk, OnOk};
ghost use Rattle.gcomplete.specs.Naming.{IsNameOf};
ghost use Rattle.gitrepository.specs.Packs.{IsChecksumOf, IsIndexed};
ghost use Rattle.gitrepository.specs.Received.{AreLinked, IsEntryInReceived};
ghost use Rattle.gitwalk.specs.StoredTrees.{AreTreesRead, IsLocated};

use crate::arrival::{Arrival, Inspector};
use crate::fault::RepositoryFault;
use crate::limits::PACK_LIMITS;
use crate::tips::Tips;
use ggraph::Entry;
use gitobject::Link;
use gitobjects::{ObjectFiles, ObjectReader};
use gitpack::{IncomingPack, IndexedPack, PackFileFault, Spool, SpoolFault};
use gitwalk::check_trees;
use std::alloc::Allocator;
use std::marker::Model;

/// A received pack and its index. The id of each object of the index is the SHA-1 of its type and
/// bytes. Each object that these objects name is in the index or is a prerequisite
/// ([`Received::laws`]).
#[derive(Drop)]
pub struct Received<S: Spool + Drop, A: Allocator + Copy> {
    /// The pack as received.
    pub pack: S,
    /// The index of the pack.
    pub index: IndexedPack<A>,
    /// The prerequisites of the pack: the ids and types of the objects that its objects name, and
    /// that are only in the store.
    pub prerequisites: Vec<Link, A>,
    ghost linked: { ∥ AreLinked prerequisites.items index.entries ∥₁ },
    ghost read: { ∥ AreTreesRead IsNameOf IsLocated index.entries prerequisites.items ∥₁ },
}

impl<S: Spool + Drop, A: Allocator + Copy> Received<S, A> {
    /// Proves that for each id and type of the index there is an object, whose SHA-1 is the id.
    /// Each link of this object leads to an object of the index or to a prerequisite. The contract
    /// does not say that the pack contains this object.
    ///
    /// Proves also that each prerequisite is in the index, or was looked up. For each tree that was
    /// looked up, there is a tree whose SHA-1 is the id. Each link of this tree leads to an object
    /// of the index, or to an object that was looked up.
    pub fn laws(&self)
        ensures linked { ∥ AreLinked self.now.prerequisites.items self.now.index.entries ∥₁ }
        ensures read { ∥ AreTreesRead IsNameOf IsLocated self.now.index.entries
            self.now.prerequisites.items ∥₁ }
    {
        let _ = &self.pack;
    }
}

/// A partly received pack, and a record of its objects. Contracts treat a `StoreFeed` as the bytes
/// received so far.
#[derive(Drop)]
pub struct StoreFeed<S: Spool + Drop, A: Allocator + Copy> {
    pack: IncomingPack<S, A>,
    arrival: Arrival<A>,
}

impl<S: Spool + Drop, A: Allocator + Copy> Model for StoreFeed<S, A> {
    ghost use Rattle.std.specs.Prelude.{ℕ, List};

    ghost Value = { List ℕ };

    ghost view = { λ feed. feed.pack };
}

impl<S: Spool + Drop, A: Allocator + Copy> StoreFeed<S, A> {
    /// Returns a `StoreFeed` without received bytes. The spool must be empty.
    pub(crate) fn new(alloc: A, spool: S) -> StoreFeed<S, A>
        requires { S.bytes spool ≡ [] }
        ensures { result ≡ [] }
    {
        StoreFeed {
            pack: IncomingPack::new(alloc, spool, PACK_LIMITS),
            arrival: Arrival::new(alloc),
        }
    }

    /// Receives the next bytes of the pack. Fails if the spool fails, or if out of memory.
    pub(crate) fn take_piece<F: ObjectFiles>(
        &mut self,
        reader: &mut ObjectReader<'_, F, A>,
        tips: &Tips<A>,
        piece: &[u8],
    ) -> Result<(), SpoolFault>
        ensures { OnOk result (self.new ≡ self.old ++ piece.now) }
    {
        let mut inspector = Inspector::new(&mut self.arrival, reader, tips);
        feed_pack(&mut self.pack, piece, &mut inspector)
    }

    /// Indexes the complete pack, and checks that the objects named by its objects exist. If such
    /// an object is a tree of the store, everything that it reaches must exist, too. Returns the
    /// received pack and its graph entries.
    pub(crate) fn finish<F: ObjectFiles>(
        self,
        reader: &mut ObjectReader<'_, F, A>,
        tips: &Tips<A>,
    ) -> Result<(Received<S, A>, Vec<Entry<A>, A>), RepositoryFault<A>>
        ensures bytes { IfOk result (λ it. S.bytes it.0.pack ≡ self) }
        ensures checksum { IfOk result (λ it. IsChecksumOf it.0.index.checksum self) }
        ensures entries { IfOk result (λ it. IsIndexed self it.1.items) }
        ensures received { IfOk result (λ it. All
            (IsEntryInReceived it.0.prerequisites.items it.0.index.entries) it.1.items) }
    {
        let StoreFeed { pack, mut arrival } = self;
        let (pack, index) = {
            let mut inspector = Inspector::new(&mut arrival, reader, tips);
            finish_pack(pack, &mut inspector)?
        };
        let (entries, prerequisites) = arrival.into_parts(reader, &index)?;
        check_trees(reader, index.entries(), prerequisites.as_slice())?;
        let received = Received {
            pack,
            index,
            prerequisites,
        };
        Ok((received, entries))
    }
}

// Feeds the next bytes to a pack. Fails if the spool fails, or if out of memory.
fn feed_pack<F: ObjectFiles, S: Spool + Drop, A: Allocator + Copy>(
    pack: &mut IncomingPack<S, A>,
    piece: &[u8],
    inspector: &mut Inspector<'_, '_, '_, '_, F, A>,
) -> Result<(), SpoolFault>
    ensures { OnOk result (pack.new ≡ pack.old ++ piece.now) }
{
    pack.feed(piece, inspector)
}

// Indexes a complete pack. If an object was refused, fails with the fault of that object.
fn finish_pack<F: ObjectFiles, S: Spool + Drop, A: Allocator + Copy>(
    pack: IncomingPack<S, A>,
    inspector: &mut Inspector<'_, '_, '_, '_, F, A>,
) -> Result<(S, IndexedPack<A>), RepositoryFault<A>>
    ensures bytes { IfOk result (λ it. S.bytes it.0 ≡ pack) }
    ensures checksum { IfOk result (λ it. IsChecksumOf it.1.checksum pack) }
{
    match pack.finish(inspector) {
        Ok(parts) => Ok(parts),
        Err(PackFileFault::Refused) => Err(refusal(inspector.take_fault())),
        Err(fault) => Err(RepositoryFault::from(fault)),
    }
}

// Returns the fault of the refused object, or the pack fault `Refused` if `fault` is `None`.
fn refusal<A: Allocator + Copy>(fault: Option<RepositoryFault<A>>) -> RepositoryFault<A> {
    match fault {
        Some(fault) => fault,
        None => RepositoryFault::Pack(PackFileFault::Refused),
    }
}
