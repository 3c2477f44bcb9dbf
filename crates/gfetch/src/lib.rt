//! The client's end of Git's fetch service, protocol version 2, as a value that does no I/O
//! (gitprotocol-v2(5)).
//!
//! [`fetch_over_with`] runs this value, a [`ClientSide`], over a blocking source and a blocking
//! sink. [`list_over`] only lists the refs of a server.
//!
//! A caller with its own loop calls [`begin_fetch`], runs the dialogue of the side, and calls
//! [`end_fetch`]. The side owns the repository and a session, and borrows an indexer. It receives
//! the advertisement, and then the reply to each of its requests ([`Heard`]). Its answer to a
//! message is the next request, or a lone flush packet that ends the connection ([`ClientReply`]).
//! The dialogue never changes the local refs. `end_fetch` gives the repository back, and updates
//! the refs after a dialogue without a fault.
//!
//! The caller sends the first line of a `git://` connection.
//!
//! # Proved
//!
//! [`fetch_over_with`] holds a complete conversation, and then updates the local refs
//! (`specs/Conversations.antt`, `Turns.antt`):
//!
//! - The bytes alone determine the advertisement and the replies, however the bytes are split into
//!   pieces. The client reads nothing after the last reply.
//! - The client flushes each request before it reads the reply. At the end, it flushes a lone flush
//!   packet. If the sink fails, all earlier requests were flushed, and a prefix of the next one was
//!   written.
//! - The first fault ends the conversation. After every fault, the refs are unchanged. The graph
//!   only gains objects, and the indexer keeps each object that the graph gains. Each ref stays
//!   connected.
//! - The client reports a failed source exactly when the source failed.
//! - A conversation, completed or failed, has at most N + 1 requests for objects, if the local refs
//!   reached N ids at the start ([`laws`]). The session counts each of them as a round.
//!
//! [`begin_fetch`] returns a side that has received no message, and the repository is unchanged
//! after its faults (`BeginsAt`, `FailsAtStart`). If the dialogue of the side ends as
//! `specs/Endings.antt` states, the result of [`end_fetch`] is that of a complete conversation.
//!
//! [`list_over`] holds a conversation that only requests refs (`specs/Listings.antt`).
//!
//! The other contracts apply to a side that has received no message, and whose session has just
//! begun on its repository (`IsFresh` in `specs/Fetching.antt`).
//!
//! - The next message is the advertisement before the first request, and then the reply to the open
//!   request (`specs/Heard.antt`). A reply is read with the parameters of the session and of the
//!   request, and its pack goes to the indexer of the side.
//! - After each message, the session is in the state that `gsession` gives for this message. The
//!   answer to an accepted message is the next request in its canonical encoding. If the session
//!   needs nothing more, the answer is a lone flush packet. The client sends nothing more if it
//!   rejects or refuses a message, or if memory runs out (`AnswersMessage`, `RefusesMessage`).
//! - The indexer keeps each object that the repository gains, and still keeps all that it kept
//!   before (`KeepsObjects`). Only a reply to a request for objects changes the indexer.
//! - As long as a dialogue continues, its messages and answers are turns of a conversation, as
//!   `specs/Turns.antt` defines them (`DialoguesAreTurns` in `specs/Laws.antt`).
//! - Each dialogue ends: each further request for objects is a round of the session, and a session
//!   has fewer than 2^64 rounds (`messages_of`).
//! - Each fault has the number, the name and the text of its row in `specs/Faults.antt`.
//!
//! # Only tested
//!
//! No call reports out of memory while enough memory is available. The program `conformance`
//! repeats many fetches and listings through `gclient`, `gcmd` and `gtcp`, and each time makes a
//! different allocation fail.
//!
//! # What the contracts do not rule out
//!
//! - No law states how the dialogue of a [`ClientSide`] ends over the caller's own loop. The caller
//!   has to prove this (`specs/Endings.antt`), before it can use the contract of [`end_fetch`].
//! - After [`begin_fetch`] succeeds, no contract states the caller's repository.
//! - After [`end_fetch`] or a fault of [`begin_fetch`], no contract states the final value of the
//!   borrowed indexer. Only the contract of [`fetch_over_with`] does.
//! - Any message or request may fail with out of memory although memory is available.
//! - The indexer may keep further objects, for example those of a rejected pack.
//! - No contract bounds the time of an answer. The requests for objects share one walk from the
//!   tips (`src/client.rt`), but a new walk for each request would satisfy the contracts, too.
//! - A call may queue only one packet, or no packet. An answer may be flushed more than once.
//! - If a source or a sink does not record its bytes, the contracts say nothing about the bytes
//!   read or written. They still state the outcome, and whether the source or the sink failed.
//! - If the sink fails, no contract states how long the written prefix is.
//! - Formatting a fault may return `fmt::Error` even if every write succeeds.
//!
//! # Dependencies
//!
//! `gsession` and `gclientrepo` define the session and its repository, and `gdialogue` and `gtalk`
//! define conversations. `ghello`, `grequest`, `glsreply` and `gfetchreply` define the messages.
#![tactic(auto)]

mod asking;
mod client;
mod fault;
mod fetched;
mod fetching;
mod heard;
pub mod laws;
mod listing;
mod side;

pub use crate::asking::{Asking, ClientReply};
pub use crate::fault::FetchFault;
pub use crate::fetched::Fetched;
pub use crate::fetching::{begin_fetch, end_fetch, fetch_over_with};
pub use crate::heard::Heard;
pub use crate::listing::list_over;
pub use crate::side::ClientSide;
