//! A client of Git's fetch service, protocol version 2, over a source and a sink
//! (gitprotocol-v2(5)). The crate adds the first line of a `git://` connection to the conversations
//! of `gfetch` (gitprotocol-pack(5), "Git Transport"). It also fetches with the default options for
//! packs.
//!
//! # Proved
//!
//! The page of `gfetch` states what a conversation guarantees. It covers the bytes read and
//! written, the refs and objects after each fault, and the number of requests ([`laws`]).
//!
//! - [`fetch_over`] holds the same conversation as [`fetch_over_with`], with the default options
//!   for packs and an indexer that keeps nothing.
//! - [`fetch_git`] flushes the first line before it reads anything (`specs/GitFetches.antt`). The
//!   rest of the conversation has every guarantee of [`fetch_over_with`]. If the sink fails at the
//!   first line, `fetch_git` reads nothing, and the repository is unchanged.
//! - [`list_git`] flushes the first line, and then lists refs with every guarantee of [`list_over`]
//!   (`specs/Listings.antt`; `Listings` in the specs of `gfetch`).
//! - [`greet`] only writes and flushes the first line, for callers that run the conversation
//!   themselves.
//! - No call panics, overflows or reads out of bounds. A call returns if each call of its source
//!   and its sink returns.
//!
//! # Only tested
//!
//! No call reports out of memory while enough memory is available. The program `conformance`
//! repeats many fetches and listings, and each time makes a different allocation fail.
//!
//! # What the contracts do not rule out
//!
//! The list of `gfetch` applies to these functions, too. If the sink fails at the first line, no
//! contract states how long the written prefix is.
//!
//! # Dependencies
//!
//! `gfetch` holds the conversation, and `ghello` defines the first line. `gsession`, `grefs` and
//! `gclientrepo` define the plan of a fetch, its refspecs and its repository. `gpkt` defines
//! sources and sinks, `grequest` and `glsreply` the request for refs and its reply. `gfetchreply`
//! defines the limit of a pack, `ggrammar` the end of a reply, and `ggraph` indexers.
#![tactic(auto)]

mod conversation;
mod git_transport;
mod greeting;
mod listing;

pub use crate::conversation::fetch_over;
pub use crate::git_transport::{GitFetch, fetch_git};
pub use crate::greeting::greet;
pub use crate::listing::list_git;
pub use gclientrepo::{Ask, Asks, RefUpdate, Repo, RepoFault, compat};
pub use gfetch::{FetchFault, Fetched, fetch_over_with, laws, list_over};
pub use grefs::{Spec, SpecFault};
pub use gsession::{
    ClientFault, FetchPlan, LsTaken, MAX_SPECS, PackOptions, Session, Settled, Taken,
};
