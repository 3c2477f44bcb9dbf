//! Test runs of the commands in `gcmd` and of the network commands of `gitv2`, on sources and sinks
//! in memory. The sources and sinks transfer a limited number of bytes in each call, and fail at a
//! chosen call. An allocation may be refused. Packers and indexers may break their contracts, and
//! the calls to each indexer are checked.
//!
//! [`run_command`] runs the command of a [`CommandRun`] on the sources and sinks in [`Devices`].
//! The function can also serve a connection with its first line, or list refs, as `gitv2` does over
//! the network. If the packer or the indexer is not `PlainPack`, code of this crate replaces the
//! command of `gcmd`.
//!
//! # Proved
//!
//! Every call returns, with no index out of range, overflow or use after free. A source or sink
//! that has failed stays failed.
//!
//! # What the contracts do not rule out
//!
//! No contract states the behavior of a source or sink before its failure. The tests count the
//! calls to each source and sink, and the transferred bytes.
//!
//! # Dependencies
//!
//! `case_text` defines commands, packers, indexers and an allocator that refuses an allocation.
//! `gcmd` defines the programs, and `gserve` and `gclient` define their network calls. `gpkt`
//! defines sources and sinks, and `ggraph` defines packs and the texts of repositories. `ghello`,
//! `grequest`, `glsreply` and `gname` define the messages of a connection.
#![tactic(auto)]

mod checked_tool;
mod device;
mod indexer_check;
mod inputs;
mod network_commands;
mod program;
mod report;
mod stored;
mod tool_runs;

pub use crate::device::{DeviceLimits, Reader, StdAdapter, Writer};
pub use crate::indexer_check::IndexerCheck;
pub use crate::inputs::{parse_client, parse_server, parse_specs};
pub use crate::network_commands::{conclude_listing, parse_prefixes};
pub use crate::program::{
    CommandRun, Devices, RunOutcome, outcome_without_file, pack_limit_of, run_command,
};
pub use crate::stored::{FileProblem, StoredFetch, fetch_into_stored_file};
pub use crate::tool_runs::{conclude_fetch, end_with_fault};
