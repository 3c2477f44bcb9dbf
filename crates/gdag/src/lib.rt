//! The graph of a repository's commits and tags: the objects, in the order of their insertion, and
//! their parents.
//!
//! # Proved
//!
//! - A `Graph` contains at most `MAX_NODES` distinct ids of one object format. Each node has at
//!   most `MAX_PARENTS` parents, and a tag has exactly one. The look-ups by id and by position
//!   return the contents of the graph, and do not allocate. `make_room` leaves the contents of the
//!   graph unchanged.
//! - `is_ordered` returns whether each object was inserted after all its parents.
//! - `insert` and `insert_all` append only the new objects. If a call fails, the graph is
//!   unchanged. The faults of an entry are checked in a fixed order. Both calls report out of
//!   memory only if an object is new and the graph has fewer than `MAX_NODES` nodes. Apart from
//!   `Memory`, a refused list has only one possible fault: the fault of the first entry that can't
//!   be added. A list whose entries can all be added is refused only if memory runs out.
//! - `is_closed` returns whether the graph is closed. `peel` returns the commit at the end of a
//!   chain of tags, or `None` if the chain does not end with a commit. Neither `is_closed` nor
//!   `peel` allocates.
//! - `first_absent` returns the first id of a list that the graph does not contain.
//! - `distinct_ids` returns the distinct ids of a list, in the order of their first occurrences.
//! - `laws` proves facts about reachability, connected ids, graphs that grow, and graphs that agree
//!   on the ids that both contain. Further laws cover positions, peeling, the number of reachable
//!   ids, their distances from given ids, the ids to offer as haves, and distinct ids. One law
//!   states that after a client inserts the list that a server sends, the wants are connected in
//!   the client's graph.
//!
//! # What the contracts do not rule out
//!
//! No contract bounds the time or the memory of a call. No contract rules out that a call reports
//! out of memory for a new object, a copy, or a list of distinct ids. No contract says which
//! allocator `entry_in` uses for the copy. No contract rules out that `make_room` reserves nothing.
//! No contract rules out that formatting a fault returns `fmt::Error` even if every write succeeds.
//! No contract says what formatting writes with options, such as a width.
//!
//! This crate has no tests. The program `conformance` loads, fetches and searches histories, and
//! makes each allocation fail in turn.
//!
//! # Dependencies
//!
//! The crate uses `gname` for ids, `gobject` for nodes and entries, and `indexmap` for the map from
//! ids to nodes and the set of distinct ids.
#![tactic(auto)]

mod closed;
pub mod compat;
mod distinct;
mod fault;
mod graph;
mod insert;
pub mod laws;
mod peel;

pub use crate::distinct::distinct_ids;
pub use crate::fault::GraphFault;
pub use crate::graph::{Graph, IdHasher, MAX_NODES};
