//! Proved laws of received packs. Each function does nothing at run time. The contract of each
//! function states a law, which the proof of a caller can use.

ghost use Rattle.gitrepository.specs.Laws.{KeptIsComplete, PacksKeepClosed, ReadIsComplete};

use std::alloc::Allocator;

/// Proves that a closed store that has the prerequisites of a received pack stays closed when the
/// objects of the pack are added. There are two exceptions. Two objects of the pack may have the
/// same id and different types. An object of the pack may also have the same id as a different
/// object of the store. A store is closed if the links of all its objects lead to objects of the
/// store.
pub fn packs_keep_closed()
    ensures { PacksKeepClosed }
{}

/// Proves that each id of a client's graph is complete after a fetch: everything that it reaches
/// exists in the store with the objects of the received pack. The store must be closed. It must
/// have the prerequisites of the pack, and each object of the graph before the fetch. The graph may
/// gain only ids that the indexer keeps. The exceptions are those of [`packs_keep_closed`].
pub fn kept_is_complete<A: Allocator + Copy>()
    ensures { KeptIsComplete A }
{}

/// Proves the same as [`kept_is_complete`] for a closed store that need not have the trees among
/// the prerequisites, such as those of a killed fetch. The prerequisites must have been looked up,
/// and each tree that was looked up must have been read. The closed store must have all other
/// objects that were looked up. Each id of the graph is complete in the store with the objects of
/// the pack and these trees.
pub fn read_is_complete<A: Allocator + Copy>()
    ensures { ReadIsComplete A }
{}
