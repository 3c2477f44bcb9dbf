//! A server of Git's protocol version 2: its repository, its advertisement, and its answers to
//! ls-refs and fetch (gitprotocol-v2(5), "ls-refs" and "fetch").
//!
//! # Proved
//!
//! - [`Server::new`] returns a server with exactly the given graph, refs and HEAD. The graph of a
//!   server always holds all parents of its objects, the id of each ref, and the id of a detached
//!   HEAD. If objects are missing, [`Server::new`] reports the first missing parent, otherwise the
//!   first ref with a missing id, otherwise a detached HEAD.
//! - [`Server::add`] adds at most one object, [`Server::set_ref`] sets one ref, and
//!   [`Server::set_head`] sets HEAD. These calls make no other changes. A failed call changes
//!   nothing, and reports a missing object before any fault of the graph or of the refs.
//! - [`Server::answer`] returns an answer that `specs/Answers.antt` allows for the request, with
//!   any packer. For ls-refs the answer lists the requested refs with the requested attributes:
//!   HEAD first, then the names in byte order. For fetch the answer is the common ids, the pack of
//!   the objects to send, or both. A fetch request is refused only if it has no wants, the server
//!   lacks one of the wants, the packer fails, or memory runs out. The fault `NotOurs` contains the
//!   first want that the server does not hold. The ids of an answer have the object format of the
//!   graph. The acknowledgments of an answer have the limits of the request. For any limits, no
//!   request fails because its answer has too many lines or too many ids.
//! - [`Server::answer`] uses exactly one result of the packer if the answer contains a pack or the
//!   packer fails. In all other cases, `answer` uses no result of the packer. If the packer fails,
//!   its fault is reported, and never an out-of-memory fault of the server (`specs/OnePack.antt`).
//!   After a failure, the packer is not asked for another pack ([`OnePack`]).
//! - [`Server::answer_fetch`] has the same contract, but accepts only fetch requests.
//! - [`Server::begin_fetch`] returns the answer to a fetch request before the objects are packed
//!   (`specs/BegunFetches.antt`). The caller can then pack the objects in parts.
//! - [`Server::unborn`] and [`Server::line`] return the parts of an answer to ls-refs. The names
//!   are borrowed from the server.
//! - [`Server::advert`] fails only if memory runs out. The advertisement contains `agent=gitv2/1`,
//!   `ls-refs=unborn`, `fetch`, and the format of the graph's ids.
//! - By [`laws`], a client of the server's object format can read and accept the advertisement. A
//!   server has exactly one answer to each ls-refs request, and holds the id of each line of the
//!   answer. With a faithful packer, a server has at most one answer to each request of any kind.
//!   Acknowledged ids are haves of the request that the server holds. Consider a client that holds
//!   the whole ancestry of the haves, and agrees with the server about every object that both hold.
//!   Inserting the pack gives this client the whole ancestry of the wants. If the server holds all
//!   wants, a request fails only if the packer fails or memory runs out. Answers are well-formed
//!   messages. A client of the same object format can read its answer, if the pack and the number
//!   of the request's haves are within the client's limits. Changes to a server never remove
//!   objects or change its object format.
//! - Each fault has a number, a name and a text. A fault of a request also has a text for the
//!   client. [`ServeFault::is_memory`] returns whether memory ran out.
//! - Every call returns, without a panic, an overflow or a read out of bounds.
//!
//! # Only tested
//!
//! The `conformance` cases test that calls succeed if enough memory is available.
//!
//! # What the contracts do not rule out
//!
//! No contract rules out that a call that allocates reports out of memory. For an ls-refs request,
//! `answer` can do so at any time. For a fetch request, `answer` can do so only if the server holds
//! all wants and the packer was not asked for a pack. `advert` can report out of memory at any
//! time, `new` if no object is missing, `add` for a new object, and `set_ref` for a new name.
//!
//! No contract bounds the time that a call takes or the memory that it uses. No contract rules out
//! that `OnePack` calls its packer several times and uses one of the results. No contract rules out
//! that formatting a fault returns `fmt::Error` although the text was written correctly.
//!
//! # Dependencies
//!
//! `ggraph` re-exports graphs, refs, walks and packers from `gobject`, `gdag`, `grefs` and `gwalk`.
//! `grequest`, `glsreply`, `gfetchreply` and `ghello` define the messages, and `gname` defines ids
//! and names. The four message crates share the code of `ggrammar` and `gpkt`.
#![tactic(auto)]

mod advert;
mod answer;
mod fault;
mod fetch;
pub mod laws;
mod ls;
mod one_pack;
mod peels;
mod server;

pub use crate::answer::Reply;
pub use crate::fault::{BuildFault, ServeFault};
pub use crate::fetch::BegunFetch;
pub use crate::one_pack::{OnePack, Packing};
pub use crate::server::Server;
