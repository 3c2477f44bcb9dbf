//! Packers, which write entries as bytes, and indexers, which read entries from bytes.

ghost use Rattle.std.specs.Prelude.{◌≡◌, ◌++◌, [], ℕ, List, MatchResult};
ghost use Rattle.gobject.specs.Packs.{LosesNothing, MayPack};
ghost use Rattle.gobject.specs.declared.node.Entry.{Entry};
ghost use Rattle.gobject.specs.declared.fault.PackFault.{PackFault};
ghost use Rattle.gobject.specs.declared.fault.IndexFault.{IndexFault};

use crate::fault::{IndexFault, PackFault};
use crate::node::Entry;
use std::alloc::Allocator;

/// A packer writes entries as a pack.
///
/// The relation `packs` states which bytes the packer may return for a list of entries, and
/// `pack_fails` states the possible faults.
pub trait Packer<A: Allocator + Copy> {
    ghost packs: { Self → List (Entry A) → List ℕ → Type 0 };

    ghost pack_fails: { Self → List (Entry A) → PackFault → Type 0 };

    /// Returns a pack of the entries, which is allocated with `alloc`. The pack has at most
    /// `gname::MAX_PACK` bytes.
    fn pack(&self, alloc: A, entries: &[Entry<A>]) -> Result<Vec<u8, A>, PackFault>
        ensures { MatchResult result
            (λ pack. MayPack (packs self.now) entries.now pack.items)
            (λ fault. pack_fails self.now entries.now fault) };
}

/// An indexer reads entries from the pieces of a pack.
///
/// The relation `indexes` states which entries the indexer may return for the bytes of a whole
/// pack, and `index_fails` states the possible faults. The relation `fed` states which bytes may
/// have led to a state of the indexer. These relations belong to the type of the indexer, and not
/// to its value.
pub trait Indexer<A: Allocator + Copy> {
    /// The state of the indexer after it has received a part of a pack.
    type Feed: Drop;

    ghost indexes: { List ℕ → List (Entry A) → Type 0 };

    ghost index_fails: { List ℕ → IndexFault → Type 0 };

    ghost fed: { Self.Feed → List ℕ → Type 0 };

    /// Returns the state before the first piece. Fails only with a fault that `index_fails` allows
    /// for every pack.
    fn start(&self, alloc: A) -> Result<Self::Feed, IndexFault>
        ensures { MatchResult result
            (λ feed. fed feed [])
            (λ fault. ((bytes : List ℕ) → index_fails bytes fault)) };

    /// Feeds the next piece of a pack. Fails only with a fault that `index_fails` allows for every
    /// pack that begins with the pieces so far, including this piece. After a fault the feed can't
    /// be used further.
    fn feed(&self, feed: &mut Self::Feed, piece: &[u8]) -> Result<(), IndexFault>
        ensures { MatchResult result
            (λ _. ((given : List ℕ) → fed feed.old given
            → fed feed.new (given ++ piece.now)))
            (λ fault. ((given more : List ℕ) → fed feed.old given
            → index_fails ((given ++ piece.now) ++ more) fault)) };

    /// Returns the entries of the pack whose pieces were fed, in order. Fails only with a fault
    /// that `index_fails` allows for the pack that consists of these pieces.
    fn finish(&self, feed: Self::Feed) -> Result<Vec<Entry<A>, A>, IndexFault>
        ensures { MatchResult result
            (λ entries. ((given : List ℕ) → fed feed given
            → indexes given entries.items))
            (λ fault. ((given : List ℕ) → fed feed given
            → index_fails given fault)) };

    /// Returns the entries of a whole pack, in order. Fails as `start`, `feed` and `finish` do.
    fn index(&self, alloc: A, bytes: &[u8]) -> Result<Vec<Entry<A>, A>, IndexFault>
        ensures { MatchResult result (λ entries. indexes bytes.now entries.items)
            (λ fault. index_fails bytes.now fault) }
    {
        let mut feed = self.start(alloc)?;
        self.feed(&mut feed, bytes)?;
        self.finish(feed)
    }
}

/// A packer that is also an indexer, and that reads back the entries that it writes.
///
/// Each list of entries has one pack, its `image`. For a list with distinct ids, `pack` returns the
/// image, or fails with `TooLarge` if the image has more than `gname::MAX_PACK` bytes. `index`
/// reads the image back as that list. Both `pack` and `index` may fail with `Memory`.
pub trait Faithful<A: Allocator + Copy>: Packer<A> + Indexer<A> {
    ghost image: { Self → List (Entry A) → List ℕ };

    /// Proves to generic callers that `index` reads back the entries that `pack` writes. The
    /// function does nothing at run time.
    fn loses_nothing(&self)
        ensures { LosesNothing (Self.packs self.now) (Self.pack_fails self.now)
            Self.indexes Self.index_fails (image self.now) };
}
