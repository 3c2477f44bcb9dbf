//! A client's session: its conversation with one server, from the request for refs to the update of
//! the local refs (gitprotocol-v2(5), "ls-refs" and "fetch"). A [`Session`] makes the requests and
//! parses the replies. The caller owns the connection, and sends the requests.
//!
//! # Proved
//!
//! - [`Session::begin`] stores the refspecs and the distinct ids of the local refs, in the order of
//!   the refs' names. The call fails for more than 16 refspecs. [`Session::hear`] stores whether
//!   the server can report an unborn `HEAD`.
//! - [`Session::request`] makes the next request. A request for refs has the source of each refspec
//!   as a prefix, and has `unborn` exactly when the server offers to report an unborn `HEAD`. A
//!   request for objects has the wants, and its haves are the common ids and a batch of new ids. A
//!   request with an empty batch has `done`. The session's options determine whether a request has
//!   `ofs-delta` and `no-progress` ([`Session::begin_with`]). The session and the graph determine
//!   the request, and the state of the session after the request ([`laws`]).
//!   [`Session::request_on`] makes the same request, but continues the walk of the previous request
//!   (`specs/Offering.antt`). This call requires that the graph has not changed since the previous
//!   request.
//! - The session's options contain its limits ([`ggrammar::Limits`]) on the numbers of wants, haves
//!   and acknowledged ids. By default, the limits are 1,024 wants, 4,096 haves and 4,096
//!   acknowledged ids.
//! - The options also contain the maximum number of new ids in a request
//!   ([`PackOptions::max_batch`]). A batch has at most 16 ids in the first request for objects.
//!   This bound doubles with each request for objects, up to the maximum of the options and at most
//!   to 16,384. By default, the maximum is 256. The batch is empty if the haves would exceed their
//!   limit.
//! - [`Session::take_ls`] reads one ls-refs reply to its end, and nothing after it. Exactly one
//!   update is requested for each local ref to which a refspec maps a line of the reply. The first
//!   refspec that maps a line to the ref, and the first line that this refspec maps to the ref,
//!   determine the update ([`laws`]). The wants are the requested ids that are not connected. If
//!   the name of a local ref would be invalid, the fault gives the position of the reply's last
//!   packet. The fault for an invalid name takes precedence over too many wants and over out of
//!   memory.
//! - [`Session::take_reply`] reads one fetch reply to its end, and nothing after it. Each id that
//!   becomes common was a have of the request. The repository gains all objects that the indexer
//!   returns for the pack, or no objects. If several faults occur, the first of the following is
//!   reported: a malformed packet, an acknowledged id that is not a have, the indexer's fault, the
//!   graph's fault. Memory for a packet can run out only if the packet acknowledges an id. After a
//!   fault of the indexer, the session still reads the rest of the reply. Once it has read the
//!   whole reply, it reports out of memory only if all acknowledged ids are haves and the indexer
//!   accepted the pack.
//! - [`Session::take_reply_into`] does the same with an indexer that has a store. The store keeps
//!   each object that the graph gains, for any bytes of the reply. The store still keeps all that
//!   it kept before.
//! - [`Session::refs_reader`] and [`Session::objects_reader`] return readers of the reply that the
//!   session waits for. These readers read the reply packet by packet. [`Session::accept_refs`] and
//!   [`Session::accept_objects`] apply the complete reply to the open request. The session then
//!   changes as after `take_ls` and `take_reply_into`. [`Session::refuse`] ends the session, for
//!   example if the reply is malformed.
//! - [`Session::settle`] updates the local refs like `Repo::settle`, once a pack has arrived or if
//!   there are no wants.
//! - [`Session::is_due`] returns whether the session can make a request now.
//! - [`Session::open_request`] borrows the request that waits for its reply, so that the caller can
//!   write it. The ids of the request have the session's format. [`Session::asks`] borrows the
//!   requested ref updates, and [`Session::wants`] the wanted ids.
//! - A request for objects has the limits of the session's options, and a request for refs has the
//!   default limits.
//! - A call that does not fit the stage of the session fails, reads nothing and changes nothing.
//!   Every other fault ends the session, and leaves objects and refs unchanged. After the end of a
//!   session, each call that requests, reads or settles fails.
//! - After a complete reply, the reader can read the next message. After a malformed reply, the
//!   reader stays at the position where the reading stopped.
//! - The bytes of a fetch reply, and the result of reading the reply, determine the next state of
//!   the session. Each request for objects that lacks `done` has a new have, and no request follows
//!   a request with `done`. Therefore a session makes at most N + 1 requests for objects, if its
//!   tips reach N ids ([`laws`]).
//! - Each fault has the number, the name and the text of its row in `specs/Faults.antt`. No call
//!   panics, overflows or reads out of bounds. A call returns if each call of its reader returns.
//!
//! # Only tested
//!
//! No call reports out of memory while enough memory is available. The program `conformance`
//! repeats many fetches, and each time makes a different allocation fail.
//!
//! # What the contracts do not rule out
//!
//! No contract rules out that a call reports out of memory although memory is available, unless an
//! earlier fault occurs. Out of memory can hide the following faults, because the session needs
//! memory before it can detect them:
//!
//! - A fault of a later packet of a reply. A session stores the refs or the acknowledged ids of a
//!   reply until the end of the reply.
//! - Too many wants. The session counts the wants only after it stored the requested updates and
//!   their distinct ids. The session may have to walk the graph to decide whether an id is
//!   connected.
//! - A fault of the graph for a pack. The graph detects this fault while it allocates memory for
//!   the objects. The session allocates the list of common ids before the graph inserts an object,
//!   because an insertion can't be undone.
//! - An unconnected id, or a ref that can't be set, if [`Session::settle`] has to walk the graph
//!   (`Repo::settle`).
//!
//! No contract determines the result of [`Session::accept_objects`] for a reader of another
//! session, or for a reader that has not read a complete reply. A fault then still leaves the
//! repository unchanged, and a reply without a pack only adds common ids. The [`laws`] do not cover
//! [`Session::accept_refs`], [`Session::accept_objects`] and [`Session::refuse`].
//!
//! No contract rules out that a session stores a complete pack before it passes the pack to the
//! indexer. No contract rules out that the session starts the indexer more often than necessary, or
//! passes bytes to the indexer after a fault. No contract rules out that formatting a fault returns
//! `fmt::Error` even if every write succeeds.
//!
//! No contract bounds the time or the memory of a call. [`Session::request`] starts a new walk at
//! the tips for each request. [`Session::request_on`] continues the walk of the previous request,
//! so all requests over the same graph together take one walk. If the graph lacks a requested id,
//! or the local refs reach it, a look-up decides whether the id is connected. A look-up is also
//! enough if the graph stores each object after its parents. For any other requested id, the
//! session walks the graph, and stops at objects that the local refs reach. A set speeds up the
//! check of acknowledged ids.
//!
//! # Dependencies
//!
//! The crate uses `grefs` for refspecs, `gclientrepo` for the repository, `ggraph` and `gwalk` for
//! the walk that selects haves, `gobject` for indexers, and `indexmap` for sets of ids. The crate
//! uses `grequest`, `glsreply`, `gfetchreply` and `ghello` for messages.
#![tactic(auto)]

mod acks;
mod asks;
pub mod compat;
mod fault;
mod feed;
pub mod laws;
mod options;
mod reader;
mod requests;
mod session;
mod stage;
mod taken;

pub use crate::fault::ClientFault;
pub use crate::options::{FetchPlan, PackOptions};
pub use crate::reader::ObjectsReader;
pub use crate::session::{MAX_SPECS, Session};
pub use crate::taken::{LsTaken, Settled, Taken};
