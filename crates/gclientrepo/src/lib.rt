//! A client's repository: its objects and its refs. Each ref is connected at all times: the
//! repository holds the whole ancestry of the ref.
//!
//! # Proved
//!
//! - [`Repo::new`] returns a repository of exactly the given objects and refs, if each ref is
//!   connected. Otherwise the call reports the first unconnected ref, in the order of the names.
//! - After each call every ref and every marked object is connected, and every object that a ref
//!   reaches is marked. This invariant is a postcondition of [`Repo::format`] and of each method
//!   that changes a repository.
//! - [`Repo::add_local`] adds an object exactly when the repository holds its parents and the graph
//!   accepts the object. The first missing parent is reported before any fault of the graph.
//! - [`Repo::insert_all`] adds all objects of a pack or no objects, and accepts objects whose
//!   parents are missing. The call leaves marks and refs unchanged.
//! - [`Repo::set_local_ref`] sets a ref only if the new id is connected, the ref is not HEAD, and
//!   there would not be too many refs. The call checks these conditions before it allocates memory
//!   for the ref. If the conditions hold, the call fails only if memory runs out.
//! - [`Asks`] is a list of requested ref updates. The list keeps only the first update that was
//!   added for each ref. Methods look up the ref, the id and the force flag of an update by index.
//! - [`Repo::settle`] makes all allowed updates of refs at once, and leaves all other refs
//!   unchanged. The call moves no ref if one of the new ids is not connected, or if the refs can't
//!   all be set. The call returns the outcome of each requested update. The call marks every object
//!   that the new ids reach, and keeps all other marks. `Repo::settle` reports out of memory for
//!   refs (`RepoFault::Refs`) only if all ids are connected and the refs can be set.
//! - If each object of the graph was added after its parents, no check needs a walk, so a lack of
//!   memory does not hide any other fault. In any other graph, a lack of memory for a walk
//!   (`RepoFault::Graph`) may hide an unconnected ref or id. In [`Repo::missing`], `set_local_ref`
//!   and `settle`, a lack of memory never hides a given id that the repository does not hold.
//! - A failed call leaves the repository and its marks unchanged.
//! - [`Repo::missing`] returns an id that one of the given ids reaches and that the repository does
//!   not hold, if there is such an id.
//! - Each fault has the number, the name and the text of its row in `specs/Faults.antt`.
//! - No call panics, overflows or reads out of bounds, and each call returns.
//!
//! The [`laws`] state that a repository stays connected if its graph gains objects, if a ref is set
//! or if requested ref updates are settled. A failed call leaves the repository unchanged. No id is
//! missing in the ancestries of connected ids. The graph, the refs and the requested updates
//! determine the outcome of each update, and the refs after settling.
//!
//! # Only tested
//!
//! No call reports out of memory while enough memory is available. The program `conformance`
//! repeats many fetches, and each time makes a different allocation fail.
//!
//! # What the contracts do not rule out
//!
//! If several ids are missing, no contract says which of them a call returns. No contract rules out
//! that a call reports out of memory although memory is available, unless the call adds an object
//! that the repository already holds. A call may need a walk if the graph stores an object before
//! one of its parents. A lack of memory for the walk can hide an unconnected ref or id, or refs
//! that can't be set. No contract rules out that a walk continues past marked objects. No contract
//! says which allocator provides memory, which allocator [`Asks::allocator`] returns, or which
//! allocator [`Asks::ids`] uses for its result. No contract rules out that formatting a fault
//! returns `fmt::Error` even if every write succeeds. No contract says what formatting writes with
//! options, such as a width.
//!
//! No contract bounds the time or the memory of a call. In this implementation, adding a requested
//! update takes one hash look-up of the ref's name. Settling `n` updates takes time proportional to
//! `(n + r) log r`, if the repository has `r` refs afterwards. Settling also walks over the graph
//! for each update of an existing ref to a different id, unless the update is forced.
//!
//! # Dependencies
//!
//! The crate uses `ggraph` for graphs, refs and walks, and the crates `gobject`, `gdag`, `grefs`
//! and `gwalk`, on which `ggraph` depends. The crate uses `gname` for ids and names, and `indexmap`
//! to look up updates by name.
#![tactic(auto)]

mod ask;
mod asks;
pub mod compat;
mod fault;
pub mod laws;
mod opening;
mod ref_map;
mod repo;
mod settling;

pub use crate::ask::{Ask, RefUpdate};
pub use crate::asks::Asks;
pub use crate::fault::RepoFault;
pub use crate::repo::Repo;
