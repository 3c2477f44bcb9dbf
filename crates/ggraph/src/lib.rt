//! The text format of a repository, with its commits, its tags, its refs and `HEAD`. The crate
//! re-exports graphs (`gdag`), walks (`gwalk`), objects and packs (`gobject`), and refs and `HEAD`
//! (`grefs`).
//!
//! # Proved
//!
//! - The first line of a text names the format of all ids. [`load`] accepts exactly the texts of
//!   valid repositories, and returns their graph, refs and `HEAD`, unless memory runs out. Any
//!   other text is refused at its first invalid line, or at its end if the text ends too early,
//!   unless memory runs out earlier. Under `Order::ParentsFirst`, a parent that is not on an
//!   earlier line is reported only if the line that names the parent is otherwise valid. A refused
//!   text has only one possible fault, apart from `Memory` ([`laws::texts_stop_once`]).
//! - [`load`] reports out of memory only at a valid line of a node, a ref or a symbolic `HEAD`. All
//!   earlier lines are then valid. A line that breaks a rule or exceeds a limit is refused for that
//!   reason.
//! - [`save`] writes the unique text of a repository, which `load` reads back with `Order::Any`. If
//!   the id of a ref or of `HEAD` does not have the graph's format, `save` fails with the first id
//!   of a different format. Otherwise `save` fails only if memory runs out.
//! - [`has_connected_refs`] returns whether each ref is connected. Connected refs stay connected
//!   when the graph grows, and when a ref is set to a connected id.
//! - Each fault has the number, the name and the text that the tables in `specs/Faults.antt` list.
//! - No call panics, overflows or reads out of bounds, and every call returns.
//!
//! # What the contracts do not rule out
//!
//! No contract rules out that `load` reports out of memory at a valid line with contents to store.
//! No contract rules out that `save` reports out of memory for a valid repository, or that
//! `has_connected_refs` does so for any refs. No contract bounds the time or the memory of a call.
//! No contract rules out that formatting a fault returns `fmt::Error` even if every write succeeds.
//!
//! This crate has no tests of its own. The program `conformance` loads and saves texts up to the
//! maximum size. The program also runs a server and a client that load repository texts, and makes
//! each allocation fail in turn.
//!
//! # Dependencies
//!
//! The crate uses `gobject`, `gdag` and `grefs` for the contents of a repository, and `gname` for
//! ids and names. The crate uses `memchr` to find the ends of lines, and `gwalk` to search for
//! missing ancestors of refs.
#![tactic(auto)]

mod connected_refs;
mod fault;
pub mod laws;
mod text;

pub use crate::connected_refs::has_connected_refs;
pub use crate::fault::{LoadFault, SaveFault};
pub use crate::text::{Order, Repository, load, save};
pub use gdag::{Graph, GraphFault, IdHasher, MAX_NODES, distinct_ids, laws as graph_laws};
pub use gobject::{
    Entry, Faithful, FindingIndexer, IndexFault, Indexer, KeepingIndexer, KeepsNothing, Kind,
    MAX_PARENTS, Node, PackFault, Packer, Parents, PlainPack,
};
pub use grefs::{Head, MAX_REFS, Refs, RefsFault, Target, is_below_refs};
pub use gwalk::{
    ConnectedMarks, Count, Offers, common_ids, compat, haves, laws as walk_laws, mark_connected,
    missing, missing_counted, missing_known, reaches, ready, send_list, send_list_tags,
};
