//! Two ends of a connection in one process, which take turns.
//!
//! An [`End`] is a connection with its source and its sink. [`join`] runs two ends alternately.
//! Each end writes its turn to its sink, and the other end reads these bytes from its own source.
//! The near end is the first argument of `join`. The far end runs only when the near end has read
//! all of its bytes. No source runs the other end. [`fetch_between`] fetches from a
//! [`LocalServer`] into a repository.
//!
//! # Proved
//!
//! - [`join`] returns if all calls to the sources and sinks return. Each end receives all bytes
//!   that are read from its source, in order. The sink of each end receives all bytes that the end
//!   sends, in order (`Drives` in `gtalk`). The near end has the guarantees of `gtalk::converse`,
//!   except those on its source. After success its conversation is done, or no more packets arrive,
//!   and all of its turns are flushed. If its sink fails, all earlier turns are flushed.
//! - [`run_joined`] runs a whole dialogue at the near end. Its contract is that of
//!   `gdialogue::run_dialogue`, over an input of exactly the bytes that the near end received
//!   (`HearsAll` in `specs/Joined.antt`).
//! - [`fetch_between`] holds the conversation of a client that `gclient::fetch_git` specifies, over
//!   some input and some output (`FetchesBetween` in `specs/Pairs.antt`). After success the refs
//!   are settled. The graph only grows. Only a fetch that failed reports `TooLong`. If memory for
//!   the server's buffers runs out, the repository is unchanged.
//! - A [`MessageSink`] loses no byte that its caller wrote: the sink has passed the byte on, or
//!   still holds it. The inner sink receives nothing before a flush. A flush that succeeds writes
//!   all held bytes, at most 32,768, to the inner sink.
//!
//! # Only tested
//!
//! The program `conformance` runs pairs over sockets inside its own process. Only its tests check
//! the turns of the server, and that no end waits for bytes that the other end has not written.
//!
//! # What the contracts do not rule out
//!
//! - No contract states that an end reads the bytes that the other end wrote. The far end could
//!   never run, could leave its turns unflushed, and could miss the last bytes of the near end. The
//!   law of `gjoined` requires facts that no contract here states.
//! - No contract states when the near end is notified that its input has ended or failed. It could
//!   be notified although the far end could send more bytes.
//! - If a source or a sink does not record its bytes, the contracts say nothing about the bytes
//!   read or written.
//! - No contract states the result of [`CountsBytes::byte_count`]. An end could read although it
//!   has read all bytes of the other end.
//! - No contract states what the server of a fetch does. A [`LocalServer`] could find or open no
//!   repository, could report out of memory for each repository, and could send any text.
//! - Any failed fetch could be reported as a message that is too long, or as out of memory. A
//!   message that is too long could be reported as any other failure.
//! - A fetch could report out of memory although memory is available. It could fail, or bring
//!   anything that some server could send, without a read or a write.
//! - No contract of [`fetch_between`] states that the indexer keeps the objects that the graph
//!   gains.
//! - No contract states that the far end runs only when the near end has read all of its bytes.
//! - No contract states that a [`MessageSink`] fails only for a cause. A write could report out of
//!   memory although memory is available, and a flush could always fail.
//! - The contracts allow a [`MessageSink`] that never flushes the inner sink. A failed flush could
//!   write some of the held bytes. No contract states when a [`MessageSink`] allocates memory.
//!
//! # Dependencies
//!
//! `gtalk` and `gdialogue` define conversations and dialogues. `gclient` and `gfetch` define the
//! client's end, and `gserver` and `gparts` define the server's end. The other crates define
//! messages, repositories and faults.
#![tactic(auto)]

mod counting;
mod end;
mod fault;
mod fetching;
mod joining;
mod local;
mod message;
mod pairing;
mod running;

pub use crate::counting::{CountedSource, CountsBytes};
pub use crate::end::End;
pub use crate::fault::PairFault;
pub use crate::joining::join;
pub use crate::local::LocalServer;
pub use crate::message::{MAX_MESSAGE, MessageSink};
pub use crate::pairing::{Wires, fetch_between};
pub use crate::running::run_joined;
