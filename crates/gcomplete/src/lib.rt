//! Completeness of a repository: whether it holds everything that its objects reach, with trees and
//! blobs as well as commits and tags. This crate keeps the ids and types of objects, but not their
//! bytes. It does not read files or packs.
//!
//! - A [`Batch`] receives objects one by one, such as the objects of a pack. The batch reads the
//!   links of each object once.
//! - A [`ClosedStore`] receives a whole batch if each link of the batch leads to an object of the
//!   batch or of the store. Otherwise the store stays unchanged, and the fault names the object,
//!   its link and the cause.
//! - The function [`read_reachable`] reads everything that an id reaches from an [`ObjectSource`],
//!   such as a Git directory, into a batch. The function [`judge`] does this for a list of ids, and
//!   returns a [`ClosedStore`] of these objects.
//! - A [`TypeMap`] maps ids to types.
//!
//! # Proved
//!
//! - Each id in a [`ClosedStore`] is the SHA-1 of the type and bytes of an object. Each link of the
//!   object leads to an object of the store, which has the type of the link. So the store holds
//!   everything that its objects reach ([`ClosedStore::laws`]).
//! - [`ClosedStore::add_all`] refuses a batch only if an id of the batch has another type in the
//!   store, if a link leads to no object, or if out of memory. After a fault the store is
//!   unchanged.
//! - [`Batch::add`] records exactly the links of the added objects. It refuses an object that is
//!   malformed, or whose id belongs to an object of another type. It also refuses an object if two
//!   links lead to one id with different types. Otherwise it fails only if out of memory.
//! - [`judge`] returns a store that has an object for each of the given ids. This relies on the
//!   source, which computes the id of each object that it returns.
//! - If two stores have an object with the same id, both objects have the same type and bytes, or
//!   their texts have the same SHA-1 although they differ. So if a client's store is complete for
//!   a ref, it has the same bytes as the server for everything the ref reaches there. The exception
//!   is two different texts with the same SHA-1 ([`laws`]). This holds no matter who sent the
//!   objects.
//! - Objects of a closed store are still complete when they are read again from elsewhere, or two
//!   different texts have the same SHA-1. This relies on two facts: the id of each object is
//!   checked when the object is read, as in [`ClosedStore::is_judged`], and each object still
//!   exists.
//! - A closed store stays closed when objects are added whose links lead to the store or to one
//!   another, or two different texts have the same SHA-1 ([`laws::linked_is_closed`]).
//! - Objects from an honest server are refused only if out of memory, or if two different texts
//!   have the same SHA-1 ([`laws::sent_is_noted`], [`laws::sent_is_fit`]). The server's own store
//!   must be closed. Each link of a sent object leads to a sent object, or to an object that ids of
//!   the client's store reach at the server.
//! - No call panics, overflows or reads out of bounds, and every call returns.
//!
//! The links of an object are defined in `gitobject`. A gitlink in a tree is not a link, because
//! its commit is in another repository (gitsubmodules(7)).
//!
//! # Differences from Git
//!
//! - Git checks that a new pack is complete by walking from the new refs to what the old refs
//!   reach. It accepts packs with other objects that are not complete. Here each object of a batch
//!   must be complete.
//! - Git compares an incoming object with the stored object of the same id. Here only the types are
//!   compared, because no bytes are kept. If an object is added again, its links are not read
//!   again.
//! - Only the parts of an object that contain links are checked. git-fsck(1) checks more.
//!
//! # What the contracts do not rule out
//!
//! - No contract rules out that two objects of the same type have the same id. Then the links of
//!   the second object are not read.
//! - No contract says that a store from [`judge`] has the objects that the source returned.
//!   The contract says only that objects with these ids and types exist.
//! - [`read_reachable`] may read nothing but the object with the given id. Then
//!   [`ClosedStore::add_all`] and [`judge`] fail with `Missing`, although the source has every
//!   object.
//! - If several faults apply, no contract says which one [`Batch::add`] or [`ClosedStore::add_all`]
//!   returns. No contract says that a fault or [`Batch::need`] names the first object or link.
//! - No contract rules out that [`judge`] reads an object twice, or reads objects that the given
//!   ids do not reach. The same holds for [`read_reachable`]. Both may fail with `TooMany` at any
//!   limit, and a fault may name an object other than the one that was not read.
//! - Any call that allocates may fail if out of memory, and no contract says when. No contract
//!   covers time or memory use. A batch keeps each id that its objects name, and there may be many.
//!
//! This crate has no tests.
//!
//! # Dependencies
//!
//! `gitobject` defines types, ids and links, and `gname` defines ids. `indexmap` defines maps, and
//! `sha1` defines what a collision is.
#![tactic(auto)]

mod batch;
mod checking;
mod fault;
mod judging;
pub mod laws;
mod needs;
mod store;
mod types;

pub use crate::batch::Batch;
pub use crate::fault::BatchFault;
pub use crate::judging::{JudgeFault, ObjectSource, judge, read_reachable};
pub use crate::needs::Need;
pub use crate::store::ClosedStore;
pub use crate::types::TypeMap;
