//! Git's commit-graph files as bytes in memory (gitformat-commit-graph(5)). A commit-graph lists
//! the parents of commits, so that a caller need not inflate the commits. The crate reads and
//! writes no files.
//!
//! # Proved
//!
//! - [`CommitGraph::add`] adds a file only if its text has the form that `specs/` defines: header,
//!   table of contents, chunks and trailer. The ids ascend, the fan-out table matches the
//!   ids, and each edge list has an end. The base graphs are the files added earlier, and each
//!   position in the file is the position of a commit. Each of the faults `Bases`, `TooMany` and
//!   `Parents` is returned only if the file has that fault. Any other fault except `Memory` is
//!   returned only if the text is not a commit-graph file. After a failure the commit-graph is
//!   unchanged.
//! - [`CommitGraph::find`] returns a position if and only if some file has a commit with the given
//!   id.
//! - [`CommitGraph::parents_of`] lists the parents of a commit, from its commit data and its edge
//!   list. Each parent is a commit of the commit-graph. The result is `None` if and only if a
//!   commit has more parents than the caller allows.
//! - [`CommitGraph::id`] returns the id of the commit at a position. Positions continue from one
//!   file of a chain to the next.
//! - [`parse_chain`] accepts exactly the texts that have the form of the file `commit-graph-chain`.
//! - No text of fewer than 2^64 bytes encodes two different files. No text lists the files of two
//!   different chains ([`laws`]).
//! - No call panics, overflows or reads out of bounds, and every call returns.
//!
//! `examples/with-git.sh` serves repositories with files made by `git commit-graph write`, with and
//! without `--split`. The script checks that a clone has the objects that git-rev-list(1) prints.
//!
//! # Differences from Git
//!
//! - Git checks only a part of a file on opening, and exits with an error if it later encounters a
//!   wrong position. This crate checks each file completely, in time linear in its size.
//! - The chunks must fill the file between the table of contents and the trailer. Git accepts gaps
//!   between chunks. Git also accepts a last edge that does not end its list, but never writes such
//!   an edge.
//! - The crate does not check the trailer. Git does not check the trailer either when it opens a
//!   file, but `git commit-graph verify` does. Each file of a chain must list the trailers of the
//!   files below it, as in Git. Git also compares the trailers with the names of the files.
//! - All ids are SHA-1. The crate does not read generation numbers, dates, changed paths or the ids
//!   of trees.
//!
//! # What the contracts do not rule out
//!
//! - No contract rules out that a commit-graph is wrong: this crate does not compare a commit-graph
//!   with the commits. A caller should use a commit-graph only for commits in the repository.
//! - If a text is not a commit-graph file, the contracts do not state which of the faults `Header`,
//!   `Contents`, `Chunk`, `Order`, `FanOut` and `Edges` is returned.
//! - If two files of a chain have the same commit, no contract says which of the two positions
//!   [`CommitGraph::find`] returns.
//! - No contract states when [`CommitGraph::add`] and [`CommitGraph::parents_of`] run out of
//!   memory. The contracts do not limit time or memory.
//!
//! This crate has no tests of its own.
//!
//! # Dependencies
//!
//! The crate uses `gname` for ids.
#![tactic(auto)]

mod chain;
mod contents;
mod fault;
mod graph;
pub mod laws;
mod layer;
mod position;
mod tables;

pub use crate::chain::parse_chain;
pub use crate::fault::CommitGraphFault;
pub use crate::graph::CommitGraph;
pub use crate::position::Position;
