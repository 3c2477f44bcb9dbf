//! The ids and types of objects, in memory, with an indexer that adds the objects of packs. This
//! store is complete: each link of each object leads to an object of the store, which has the type
//! of the link. The store does not keep the bytes of objects.
//!
//! A [`MemoryIndexer`] is a `gobject::KeepingIndexer` over a `gcomplete::ClosedStore`. It adds all
//! objects of a pack to the store, or none. Each object of a pack must be complete, even if no ref
//! reaches it. If a client sets refs only to kept ids, its refs are complete, whatever the server
//! sent.
//!
//! # Proved
//!
//! - Each kept id is complete: the store has everything that the id reaches
//!   ([`MemoryIndexer::laws`]). The definitions are those of `gcomplete`.
//! - The store keeps the id of each returned entry, and all ids that it kept before. After a fault
//!   the store is unchanged.
//! - An accepted pack is a pack of version 2 whose trailer is the SHA-1 of all preceding bytes.
//! - Each returned entry describes a commit or tag. The id of the entry is the SHA-1 of the type
//!   and bytes of this object. The entry has the parents of the commit, or the target of the tag.
//! - A [`MemoryFeed`] holds exactly the received bytes, in order, and at most `gname::MAX_PACK`.
//! - No call panics, overflows or reads out of bounds, and every call returns.
//!
//! # What the contracts do not rule out
//!
//! - The clauses are about each closed store of objects with the kept ids and types. At least one
//!   exists ([`MemoryIndexer::laws`]), but no contract says that its bytes arrived. A gitlink is no
//!   link.
//! - A fetch fails if it requests a tree, a blob, or a tag of one, because these have no entry.
//! - No contract rules out that a valid pack is refused. No contract says which fault is returned,
//!   or when memory runs out.
//! - No contract rules out that an incomplete or malformed pack is accepted. Then no object of it
//!   need be kept, and it has no entries. No contract states the limits of packs.
//! - No contract rules out that objects of a pack are omitted, or that other objects are added. The
//!   contracts of `gitpack` do not connect the bytes of a pack with the objects that it reads.
//! - No contract rules out that a commit or tag of a pack has no entry, or several. If a pack
//!   contains an object twice, its entry is returned twice.
//! - No contract bounds the number of parents of an entry. A graph refuses an entry with more than
//!   `gobject::MAX_PARENTS` parents.
//! - No contract covers time or memory use.
//!
//! The rows of `gitcases` receive packs with this crate. No other program of this repository uses
//! it.
//!
//! # Dependencies
//!
//! `gitpack` reads packs, `gitobject` reads objects, and `gcomplete` keeps ids and types. `gobject`
//! defines entries and indexers, and `gname` defines ids.
#![tactic(auto)]

mod feed;
mod indexer;
mod intake;
mod limits;
mod nodes;

pub use crate::feed::MemoryFeed;
pub use crate::indexer::MemoryIndexer;
