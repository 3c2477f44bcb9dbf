//! The server's end of Git's fetch service, protocol version 2 (gitprotocol-v2(5)). A
//! [`ServerSide`] is a value that does no I/O. The functions [`serve`], [`serve_one`] and
//! [`serve_git`] read from a blocking source and write to a blocking sink.
//!
//! A [`ServerSide`] receives the first line of a connection, and then one request after another. A
//! [`Host`], which all connections share, finds and opens the repositories. A [`ServedRepository`]
//! is a handle to a repository. The server side sends each [`ServerReply`] packet by packet. A
//! packer returns its pack in parts, so the server side does not need the whole pack in memory.
//!
//! # Proved
//!
//! For a [`ServerSide`]:
//!
//! - The reply to the first line is the advertisement of a repository that the host's `finds`
//!   allows for this line. The server side then serves that repository (`Greets` in
//!   `specs/Serving.antt`).
//! - The reply to an ls-refs request is the canonical encoding of an answer that `ganswer` allows
//!   (`SaysLsAnswer` in `specs/Listings.antt`).
//! - For each fetch request the host opens the repository again, and the server side answers from
//!   the opened repository (`SendsFrom`, and `SaysFetch` in `specs/Fetching.antt`). The packer
//!   produces the pack. All packets of the pack except the last have the maximum size.
//! - If a packer fails while a pack is sent, the last packet carries the text of the fault on side
//!   band 3. The packer's contract permits this fault for the objects of the pack. The connection
//!   then ends.
//! - An empty request gets no reply, and ends the connection.
//! - An error packet with the host's text can replace a reply. The connection then ends. The
//!   server side rejects a valid first line only if memory runs out, or if the host finds no
//!   repository for it (`CannotGreet`). It rejects a valid request only if memory runs out, the
//!   repository can't answer the request, or the host can't open the repository (`CannotAnswer`).
//!   If the grammar rejects a message, the server side sends the host's text for that fault
//!   (`RefusesMessage`).
//! - The server side stores the fault for which it sends an error packet ([`ServerSide::fault`]).
//!   While the connection accepts messages, no fault is stored.
//! - A connection begins with no repository, no request and no fault (`OpensFresh`).
//!   [`ServerSide::within`] receives the host, the limits on each request, and whether each reply
//!   ends with a response-end packet. The server side uses these values for all messages.
//!   [`ServerSide::new`] gives the default limits of 64 prefixes, 1,024 wants and 4,096 haves.
//!   Each ls-refs or fetch request is counted. A connection ends only after an error packet, an
//!   empty request, a failed pack or the last permitted request.
//! - [`ServerSide::repo`], [`ServerSide::limits`], [`ServerSide::requests`] and
//!   [`ServerSide::fault`] return the state of the server side.
//! - Each call to [`Reply::say`](gdialogue::Reply) that does not complete the reply decreases the
//!   number of remaining calls, so every reply ends. A connection ends after at most 4,294,967,296
//!   requests.
//! - An [`ErrText`] stores the first bytes of a text, as many as fit.
//!
//! For [`serve`], [`serve_one`] and [`serve_git`]:
//!
//! - [`serve`] serves a whole connection (`specs/Conversations.antt`). It writes the
//!   advertisement, and then answers one request after another. The server and the packer are
//!   borrowed. No first line is read. Requests have the default limits. While a request is read,
//!   nothing after its last packet is read.
//! - The advertisement and each reply of [`serve`] are flushed before anything more is read. The
//!   field [`Served::requests`](Served) is the number of replies.
//! - [`serve`] ends if the client sends a lone flush packet, the input ends before a request, or
//!   the sink fails. It also ends after [`MAX_REQUESTS`] requests. The first refused request ends
//!   the connection with an error packet. If the sink fails, a prefix of the next message was
//!   written. Once an ls-refs request is read, it is never refused.
//! - If the packer fails, [`serve`] reports its fault before any packet of the reply. The packer
//!   is a [`OnePack`], which records the packer's last result (`specs/Packings.antt`). Any other
//!   fault is reported only if the packer was not asked for a pack for the last request.
//! - If memory runs out for the buffers or for the advertisement, [`serve`] writes an error packet
//!   in place of the advertisement, and reads nothing.
//! - [`serve_one`] has the same contract for one request, without an advertisement
//!   (`specs/Exchanges.antt`).
//! - [`serve_git`] first reads the first line of a `git://` connection
//!   (`specs/GitConnections.antt`). If the line names the served path, byte for byte, the
//!   connection continues as for [`serve`]. Otherwise an error packet replaces the advertisement,
//!   and nothing after the line is read. The function [`hear`] reads only a first line.
//! - For each way in which a connection ends, the contract states whether the source and the sink
//!   have failed.
//! - [`err_text`] writes the text of a fault, at most 128 bytes.
//!
//! No call of this crate panics, overflows or reads out of bounds. Each call returns if the calls
//! to its source, its sink, its host and its packer return.
//!
//! # What the contracts do not rule out
//!
//! For a [`ServerSide`]:
//!
//! - No contract restricts the results of a host, except the host's own `finds`, `opens` and
//!   `says`. By default, these members allow every result. With the defaults, no contract requires
//!   the server side to call the host.
//! - An error packet for a failed allocation may replace the reply to a first line, an ls-refs
//!   request or a fetch request. The connection then ends.
//! - If the host can't find or open a repository, no contract states which fault is stored. The
//!   same holds after a failed pack.
//! - A call may queue few packets, and may take as long as the packer or the host needs.
//! - No contract restricts the pack data that is sent before a packet on side band 3.
//!
//! For [`serve`], [`serve_one`] and [`serve_git`]:
//!
//! - The calls store the whole pack of a reply. They may report out of memory even if there is
//!   enough memory. At its start, [`serve`] may report fault 28 or fault 64 for out of memory.
//! - If the bytes of a source or of a sink are not known, no contract states the bytes read or
//!   written. If the sink fails, no contract states the length of the written prefix.
//!
//! # Only tested
//!
//! Only tests check a host's texts of errors, and how a host finds and opens its repositories. The
//! tests run `gitrepo serve` with Git's clients (`examples/with-git.sh`), and with many clients at
//! once (`examples/many-clients.py`).
//!
//! # Dependencies
//!
//! `ganswer` computes the answers of a server, `gparts` defines packers, and `gdialogue` and
//! `gtalk` define conversations. `ghello`, `grequest`, `glsreply` and `gfetchreply` define the
//! messages. `ggrammar`, `gpkt` and `gname` contain the definitions that all messages share.
//! `gobject` defines the faults of packers, and `arrayvec` stores texts of bounded length.
#![tactic(auto)]

mod advertising;
mod cursor;
mod error_line;
mod error_text;
mod fetching;
mod filling;
mod git_transport;
mod greeting;
mod heard;
mod host;
mod lent;
mod lent_side;
mod listing;
mod recorded;
mod ref_lines;
mod refusal;
mod reply;
mod said;
mod serving;
mod side;
mod speech;

pub use crate::error_text::ErrText;
pub use crate::fetching::speak_fetch;
pub use crate::git_transport::{Export, GitEnd, hear, serve_git};
pub use crate::greeting::Greeting;
pub use crate::heard::Heard;
pub use crate::host::{Host, ServedRepository};
pub use crate::listing::Listing;
pub use crate::refusal::{MAX_ERR_TEXT, err_text};
pub use crate::reply::ServerReply;
pub use crate::serving::{End, ExchangeEnd, Served, serve, serve_one};
pub use crate::side::{MAX_REQUESTS, ServerSide};
pub use crate::speech::Speech;
pub use ganswer::{OnePack, ServeFault, Server};
