//! Walks over the graph of a repository's commits and tags. The walks find the objects that the
//! given ids reach, the missing objects, the objects to send, and the ids to offer as haves.
//!
//! # Proved
//!
//! - [`missing`] returns `None` if each id is connected. Otherwise the call returns an id that one
//!   of the given ids reaches and that the graph does not contain. In an ordered graph
//!   (`Graph::is_ordered`), `missing` never reports out of memory.
//! - [`missing_counted`] returns the result of `missing`, the number of distinct ids in the graph
//!   that the given ids reach, and the total number of their parents. Both numbers are exact.
//! - [`mark_connected`] marks every id that the given ids reach, and leaves the other marks
//!   unchanged. If memory runs out, the [`ConnectedMarks`] are unchanged. All marked ids stay
//!   connected when objects are added to the graph ([`laws`]).
//! - [`missing_known`] returns the result of `missing` by a walk that does not continue past marked
//!   ids. The call counts exactly the ids that the walk visits, and the parents of the unmarked ids
//!   among them ([`laws::stops_at_marks`]).
//! - [`common_ids`] returns exactly the common ids. [`reaches`] and [`ready`] return whether an id
//!   reaches another, and whether the server is ready to send a pack.
//! - [`send_list`] returns the list of objects to send, and [`send_list_tags`] adds the tags for
//!   `include-tag`. The ids of the list are distinct and have the graph's format.
//! - In an ordered graph, `reaches` and `ready` visit objects in insertion order, each at most
//!   once. `send_list` searches for new objects in reverse insertion order. The search stops as
//!   soon as every unvisited object reached from a want was also reached from a common id.
//! - [`haves`] returns the offer: the first `n` unsent ids of the graph that no common id reaches.
//!   The ids are ordered by level, beginning with the tips. [`Offers`] returns one offer after
//!   another, and continues the same walk for each offer. No id is offered twice.
//! - `Memory` is the only fault of these calls. No call panics, overflows or reads out of bounds,
//!   and every call returns.
//!
//! # What the contracts do not rule out
//!
//! If several ids are missing, no contract says which of them `missing` returns. A call can report
//! out of memory at any time, unless the contract of the call rules this out. No contract bounds
//! the time or the memory of a call. No contract says that the time of a walk is linear in the
//! number of objects and parents that the walk meets. No contract says that `ready` stops at a
//! common id, or that `haves` stops when it has `n` ids.
//!
//! This crate has no tests of its own. The program `conformance` makes each call on sample
//! histories. One sample history has so many paths that following each path separately would take
//! too long.
//!
//! # Dependencies
//!
//! The crate uses `gdag` for graphs, `gobject` for the objects of graphs, `gname` for ids, and
//! `grefs` for lists of refs.
#![tactic(auto)]

mod ancestry;
mod common;
pub mod compat;
pub mod laws;
mod marks;
mod offer;
mod ordered;
mod sending;
mod walk;

pub use crate::ancestry::{Count, missing, missing_counted, missing_known};
pub use crate::common::{common_ids, reaches, ready};
pub use crate::marks::{ConnectedMarks, mark_connected};
pub use crate::offer::{Offers, haves};
pub use crate::sending::{send_list, send_list_tags};
