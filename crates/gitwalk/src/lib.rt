//! Walks over Git's commits, trees and blobs. The walks find the objects that a pack sends, and
//! check that the trees of a store are complete (git-rev-list(1), "--objects"; git-fsck(1)).
//!
//! - [`gather`] decides which objects are sent for a list of commits and tags. The [`Fates`] that
//!   it returns are the ids, locations and fates of these objects, and of the objects that are left
//!   out.
//! - [`check_trees`] checks the trees among the prerequisites of a received pack: the store or the
//!   pack must have everything that they reach.
//! - A [`WalkedStore`] locates and returns objects. A `gitobjects::ObjectReader` is such a store.
//! - [`find_entry`] finds an object of a received pack by its id.
//!
//! # Proved
//!
//! - Each id to send is chosen once. The listed commits and tags are sent, and their parents are
//!   sent or left out. Each tree or blob that a sent commit or tree names is sent or left out. Only
//!   what a listed object leads to is sent. Only what a left-out parent leads to is left out. Here
//!   commits lead to their trees, and trees to the trees and blobs that they name.
//! - These contracts hold for every [`WalkedStore`]. The objects that an `ObjectReader` returns to
//!   the walk have the ids by which they were read.
//! - Suppose the walk reads the objects of a closed store, which the listed entries describe. Then
//!   each link of a sent object leads to a sent object, or to an object that a left-out parent
//!   reaches ([`laws::gathered_is_sent`]). If this store has each object under its own id, the
//!   objects that are read are those of the store. The exception is another object with the same id
//!   as an object of the store ([`laws::gathered_is_held`]).
//! - If [`check_trees`] succeeds, each prerequisite is an object of the pack, or was located in the
//!   store. Each tree that was located was read. Each of its links leads to an object of the pack,
//!   or to an object that was located. All links to a located object give it the same type.
//! - No call panics, overflows or reads out of bounds, and every call returns.
//!
//! # Differences from Git
//!
//! - A parent of a listed commit that is not listed is left out, with everything that its tree
//!   reaches. If the target of a listed tag is not listed, only the target itself is left out.
//! - The ids of the commits, tags and trees that are read are computed and checked. Each of these
//!   objects is hashed once. Git does not check these ids.
//!
//! # What the contracts do not rule out
//!
//! - No contract says that the store of an `ObjectReader` has the objects that it returns, because
//!   contracts cannot describe the contents of system files. The walk only locates the blobs that
//!   trees name.
//! - An object that a tree names as a tree or blob may have another type.
//! - Trees and blobs may be sent that a left-out parent reaches, if a listed commit reaches them
//!   too.
//! - The other object in [`laws::gathered_is_held`] need not be an object that was read.
//! - [`check_trees`] checks nothing that a commit or tag among the prerequisites reaches. The call
//!   [`find_entry`] may miss an object of the pack.
//! - No contract covers the hashes of paths, the locations in [`Fates`], which fault is returned,
//!   running time, or memory use. A call may fail without a reason.
//!
//! This crate has no tests.
//!
//! # Dependencies
//!
//! `gitobjects` reads objects, `gitobject` parses links, and `gitpack` defines the entries of a
//! pack index. `gcomplete` defines closed stores, `gobject` and `gdag` define graphs, and `gname`
//! defines ids. `indexmap` defines maps by id.
#![tactic(auto)]

mod fates;
mod fault;
pub mod laws;
mod path_hash;
mod prerequisites;
mod received;
mod walk;

pub use crate::fates::{Decided, Fate, Fates};
pub use crate::fault::WalkFault;
pub use crate::path_hash::PathHash;
pub use crate::prerequisites::check_trees;
pub use crate::received::find_entry;
pub use crate::walk::{WalkedStore, gather};
