//! The calls of a server of Git's fetch service, protocol version 2 (gitprotocol-v2(5)). The call
//! [`serve`] sends the advertisement and then replies to each request. The call [`serve_one`]
//! replies to a single request. The call [`serve_git`] serves a connection of the `git://`
//! transport, which begins with a first line (gitprotocol-pack(5), "Git Transport"). These
//! functions are in `gserver`. This crate adds laws about whole conversations, and [`write_reply`].
//!
//! # Proved
//!
//! - By [`laws`], a connection satisfies `Talks` (`specs/Talks.antt`), if the bytes of its source
//!   are known and neither the source nor the sink fails. `Talks` relates the client's bytes, the
//!   output and the end of a conversation. With a faithful packer, a client's bytes determine the
//!   output and the end of the conversation, unless memory runs out or the packer fails.
//! - [`write_reply`] writes a reply as its canonical list of packets, or a prefix of the reply if
//!   the sink fails.
//! - No call panics, overflows or reads out of bounds. Each call returns if all calls to its sink
//!   return.
//!
//! The page of `gserver` lists what is proved of the other functions.
//!
//! # Only tested
//!
//! The `conformance` cases test that calls succeed if enough memory is available.
//!
//! # What the contracts do not rule out
//!
//! - If the sink fails, no contract states how long the written prefix is.
//! - No contract limits the time of a call. A call may write one packet with several calls to the
//!   sink.
//!
//! # Dependencies
//!
//! `gserver` serves connections, and `ganswer` defines the server and its answers. The crates
//! `grequest`, `glsreply` and `gfetchreply` define the messages, and share the code of `ggrammar`
//! and `gpkt`. `ggraph` defines packers.
#![tactic(auto)]

pub mod laws;
mod write;

pub use crate::write::write_reply;
pub use ganswer::{BuildFault, OnePack, Packing, Reply, ServeFault, Server};
pub use gserver::{
    End, ExchangeEnd, Export, GitEnd, MAX_ERR_TEXT, MAX_REQUESTS, Served, err_text, hear, serve,
    serve_git, serve_one,
};
