//! Commits and tags with their ids, which are the objects that a fetch transfers, and packs, which
//! contain lists of objects.
//!
//! # Proved
//!
//! - A copy of a node or an entry is equal to the original. [`Node::is_same`] compares the kinds
//!   and the parents, in order. [`Node::is_shaped`] returns whether a node has at most
//!   [`MAX_PARENTS`] parents, and exactly one if it is a tag.
//! - [`Node::push_line`] appends the text line of an object to a vector.
//! - [`PlainPack`] writes a list of objects as text. Writing fails with `TooLarge` exactly when the
//!   text has more than `gname::MAX_PACK` bytes. [`PlainPack`] reads exactly these texts, with ids
//!   in upper or lower case. For any other bytes it reports the first wrong line. The result does
//!   not depend on how the bytes are split into pieces. Writing reports out of memory only for a
//!   list that is not too large. Reading reports out of memory only if every line so far was valid,
//!   and the id of one more entry was read.
//! - The contracts of [`Indexer`] specify how an indexer reads a pack in pieces. The contract of
//!   `index`, which reads a whole pack, follows from the contracts of the other calls.
//! - The contract of [`KeepingIndexer`] specifies an indexer with a store: it keeps each entry that
//!   it returns, and all that it kept before. A [`FindingIndexer`] can also search its store.
//!   [`KeepsNothing`] turns each [`Indexer`] into one that has no store.
//! - A sequence of bytes has at most one bad line, which is the first malformed or missing line. A
//!   plain pack has no bad line ([`laws`]).
//! - [`Faithful`] specifies a lossless pair of packer and indexer. A plain pack of a list with
//!   distinct ids reads back as that list.
//! - Each fault has the number, the name and the text of its row in the table
//!   (`specs/Faults.antt`).
//! - No call panics, overflows or reads out of bounds, and every call returns.
//!
//! # What the contracts do not rule out
//!
//! The contracts allow a call that makes a copy to report out of memory at any time. Writing a list
//! whose text is not too long, and reading bytes that contain an entry, may also report out of
//! memory. If an entry or a parent precedes a bad line, reading may report out of memory instead of
//! the bad line. No contract says which allocator of the given type provides the memory of a copy.
//! No contract bounds the time or the memory of a call. No contract rules out that formatting a
//! fault returns `fmt::Error` even if every write succeeds. No contract says what formatting writes
//! with options, such as a width.
//!
//! This crate has no tests. The program `conformance` reads and writes packs, whole and in pieces,
//! and makes each allocation fail in turn.
//!
//! # Dependencies
//!
//! The crate uses `gname` for ids, `memchr` to find spaces and line feeds, `arrayvec` for a part
//! that is split between pieces, and `itoa` to format numbers. The proofs use `hex`.
#![tactic(auto)]

mod fault;
mod keeping;
pub mod laws;
mod line;
mod node;
mod pack;
mod plain_pack;

pub use crate::fault::{IndexFault, PackFault};
pub use crate::keeping::{FindingIndexer, KeepingIndexer, KeepsNothing};
pub use crate::node::{Entry, Kind, MAX_PARENTS, Node, Parents};
pub use crate::pack::{Faithful, Indexer, Packer};
pub use crate::plain_pack::PlainPack;
