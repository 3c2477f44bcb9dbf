//! The programs of gitv2 that open sockets, as functions over the network. The programs serve a
//! repository, list the refs of a server, fetch from a server, or run a client and a server in one
//! process.
//!
//! The caller provides the network, its streams and the clock. The contracts can't state which
//! bytes a socket sends or receives. The contract of a function that uses a socket states only
//! this: the function holds the conversation that `gserve` or `gclient` specifies, over some input
//! and some output (`specs/Sockets.antt`). Inside the crate, the contracts of a conversation over a
//! reader and a writer state the bytes that were read and written.
//!
//! # Proved
//!
//! - [`serve_listener`] serves `connections` connections, one after the other. The function prints
//!   and flushes the faults of all connections, in order and one line per fault. If the error sink
//!   fails, a prefix of these lines is printed (`specs/Sockets.antt`, `Telling.antt`). A request
//!   for another path is not a fault. The call fails only with `Socket`, after fewer than
//!   `connections` connections.
//! - [`fetch_on`] fetches with the given refspecs and pack limit. The caller states whether replies
//!   end with a response-end packet. The fetch starts with the first line for the given host and
//!   path, and has every guarantee of `gclient::fetch_over`. If the first line can't be composed,
//!   or memory for the buffers runs out, the repository is unchanged.
//! - [`fetch_git_on`] fetches like [`fetch_on`], with a given first line, with options for packs,
//!   and with an indexer that has a store. The store keeps each object that the graph gains.
//! - [`ls_on`] lists the refs with the given prefixes over a `git://` connection. A listing fails
//!   if there are more than 64 prefixes. A listing and a fetch fail if the host or the path is not
//!   well-formed.
//! - [`cmd_ls_remote`] lists refs like [`ls_on`], writes the lines of the reply, and flushes them.
//!   After any fault except a failed output, the program has written nothing (`specs/Listing.antt`,
//!   `Remote.antt`). If there are more than 64 prefixes, the program reports `Limit` or out of
//!   memory, and never `Socket`.
//! - [`cmd_fetch_remote`] fetches into a stored file. At any time the file has the old text or the
//!   whole new text. The new text is written only if the conversation succeeds. The new text
//!   describes the repository after the fetch. The fetch only adds objects. The report, with the
//!   outcome of each ref update, is written only after the new text. At the end the program holds
//!   no lockfile (`specs/Remote.antt`, and `Stored.antt` of `gcmd`).
//! - [`cmd_pair`] fetches inside one process and writes the same report, but stores nothing.
//! - [`cmd_serve`] shows the number of the port at which it listens. Then the program serves the
//!   repository that its file describes, with the guarantees of [`serve_listener`]. No
//!   client is served if the file is refused, the socket can't be opened or the port can't be
//!   shown.
//! - Each program exits with status 0 or 1. With status 0 the program reports no fault of its own.
//!   With status 1 the program prints the line that reports its fault, or a prefix of this line.
//!   The fault is a refused file, a failed conversation, a missing socket, lack of memory, or a
//!   failed output. With either status, [`cmd_serve`] first prints the faults of connections. The
//!   other programs print nothing before the line of their fault.
//! - A [`Timer`] limits each read to a time of more than zero and at most 60 seconds
//!   (`specs/Deadlines.antt`).
//! - A [`Turns`] timer subtracts the time that elapses on its clock from a client's remaining time.
//!   If the clock goes backwards, the client has no time left. The client gets the full time again
//!   only when the server starts to wait for a request (`specs/steps/Deadlines.antt` and
//!   `Turns.antt`, which specify private functions).
//! - A [`Location`] has the given address and path. The host of a location is the text of the
//!   address before the last `:`. The port after this `:` is a decimal number up to 65,535
//!   (`specs/Places.antt`).
//! - Only a pair whose fetch failed reports `PairLimit` (94).
//!
//! # Only tested
//!
//! The program `conformance` runs connections and pairs over sockets inside its own process. The
//! program tests the deadlines [`MAX_FIRST_LINE`], [`MAX_REQUEST`] and [`MAX_SILENCE`] with its own
//! clock. The script `examples/over-tcp.sh`, which is run by hand, holds conversations with git and
//! its daemon. The script tests deadlines in real time, and tests that unread input does not hide
//! an error line. The contracts can't state the contents of a `Cell` between two reads, nor the
//! time limits of a stream.
//!
//! # What the contracts do not rule out
//!
//! The contracts allow any conversation whose bytes fit the result, even if the peer did not send
//! the bytes. The contracts do not state that a connection is opened, accepted, read or written,
//! nor what the server of a pair does. A call could therefore have any result that some peer could
//! cause: any reply, any added objects, or any served connection. A call could also send any bytes,
//! report out of memory, or fail with `Socket` although a connection can be accepted or opened. In
//! a pair, any failed fetch could be reported as a message that is too long. A message that is too
//! long could be reported as any other failure. [`cmd_fetch_remote`] could connect before it locks
//! the file. The program could also report that the file can't be locked, read or replaced, even if
//! each of these steps would succeed.
//!
//! [`serve_listener`] could accept further connections between the served connections. The program
//! of [`cmd_serve`] could listen at a different address, and could show a different port or show
//! the port later. A call could ignore a deadline or the clock. [`Location::new`] could return
//! `None` for any arguments. [`connect_to`] could fail, or connect to another address. A [`Peer`]
//! could read and write bytes that differ from the bytes of its stream.
//!
//! # Dependencies
//!
//! The crate uses `gserve` and `gclient` for connections, `gpair` for pairs, `gcmd` for the shared
//! parts of programs, and `glockfile` for stored files. The crate uses `ganswer` for the server,
//! and `ghello`, `grequest`, `glsreply` and `gfetchreply` for messages. The crate uses `ggrammar`
//! and `gpkt` for the shared parts of messages, `ggraph` for plain packs, and `gname` for prefixes.
#![tactic(auto)]

mod deadline;
mod fetching;
mod listing;
mod location;
mod pair;
mod remote;
mod serving;
mod stream;
mod timer;

pub use crate::deadline::{MAX_CONNECT, MAX_FIRST_LINE, MAX_REQUEST, MAX_SILENCE};
pub use crate::fetching::{fetch_git_on, fetch_on, ls_on};
pub use crate::location::Location;
pub use crate::remote::{
    Listing, Pair, RemoteFetch, Service, cmd_fetch_remote, cmd_ls_remote, cmd_pair, cmd_serve,
};
pub use crate::serving::serve_listener;
pub use crate::stream::{Peer, connect_to};
pub use crate::timer::{Silence, Timer, Turns};
pub use ganswer::Server;
