//! Many conversations at once, on one thread, over nonblocking sockets.
//!
//! An [`EventLoop`] accepts peers at a listener and reports each [`Event`]: a peer has connected,
//! or a connection has ended. The caller starts a conversation with each peer that has connected.
//! The loop moves bytes between a socket and its conversation when `mio` reports that the socket is
//! ready. No peer has to wait until another peer sends or receives.
//!
//! - A turn of a peer consists of at most 256 steps. In each step the loop sends or receives bytes
//!   once, or the conversation queues packets. Then another peer has its turn.
//! - [`Limits`] sets the maximum number of connections, in total, for each IPv4 address, and for the
//!   IPv6 addresses with the same first 64 bits. The loop reports any further peer as refused.
//! - Each peer has separate time limits for its first message, for the first byte of each request,
//!   and for the rest of each request. Further time limits apply to accepting sent bytes, and to
//!   the whole connection. If a peer sends too late, the loop notifies the conversation that the
//!   source failed, and the conversation may send its last packets. Any other late peer is
//!   disconnected. A late peer first has one more turn, because its socket may be ready but not
//!   reported yet. It is not timed out if more bytes can then be moved immediately. Only a peer
//!   whose whole connection lasted too long has no further turn. The duration of a turn extends the
//!   time limits of the peer that has the turn, except the limit of the whole connection.
//! - A connection allocates memory for received bytes only when the first byte arrives. Before the
//!   first byte, a connection needs a few hundred bytes and the memory of its conversation. The
//!   send queue of a connection has room for two packets of the maximum size. The loop frees the
//!   queue when all bytes in the queue are sent and no more bytes have arrived.
//! - The thread sleeps while no socket is ready. The loop checks the deadlines ten times a second
//!   while there are peers.
//! - While a conversation computes an answer, all other conversations are blocked.
//!
//! # Proved
//!
//! - The state of an ended connection matches the bytes that were received and sent, as defined in
//!   `gtalk`. The count of sent bytes is correct ([`Ended`]).
//! - The reported reason for an end matches the state of the connection (`HasEnded` in
//!   `specs/Peers.antt`). After `Over` and `Silent` the conversation is done and no bytes are
//!   pending. After `Memory` no bytes are pending either. The loop never reports `Stalled` for a
//!   connection that only waits for the peer to send.
//! - A turn that ends a connection returns this connection, with the peer's address, the count of
//!   sent bytes and the reason for the end (`HandsOut` in `specs/Turns.antt`).
//! - For any reader, the connection receives all bytes of each read, and no read extends past the
//!   end of the current packet. The connection receives the end of the input only when the input
//!   has ended. A successful read receives at least one byte, or the end of the input
//!   (`HearsOnce`). After a successful read the conversation is not notified of a failed source.
//! - For any writer, exactly the accepted bytes are counted as sent, and removed from the queue of
//!   pending bytes.
//! - The contract of a private function states that the function notifies a conversation of a
//!   failed source. No contract states when this function is called.
//! - No call panics, overflows or reads out of bounds, and each call returns.
//!
//! # Only tested
//!
//! Only tests check how the loop uses sockets and the clock. The tests check that the loop accepts,
//! refuses and times out peers, and gives each ready peer its turn. The tests run the loop of
//! `gitrepo serve` (`examples/many-clients.py`, `examples/trouble.py`).
//!
//! # What the contracts do not rule out
//!
//! - No contract says which bytes a socket delivers or accepts. The contracts relate the bytes of a
//!   connection to the calls of a reader and a writer, but not to a socket.
//! - No contract rules out that a peer never has its turn, or is disconnected at once. No contract
//!   rules out that a connection is never returned.
//! - No contract rules out that the loop refuses every peer, fails, or ends at once. No contract
//!   rules out that the loop sends nothing to a refused peer.
//! - No contract rules out that the loop spins, or sleeps while bytes are pending for a peer. No
//!   contract rules out that the loop writes an empty slice to a socket, and treats the result 0 as
//!   the end of the connection.
//! - No contract rules out that the loop times out a peer at any moment, or never. No contract
//!   rules out that the loop reports any ended connection as `Lost` or `Overdue`, or reports
//!   `Silent` instead of `Over`.
//! - No contract rules out that the loop drops a conversation that was started, or a connection
//!   between two turns.
//! - No contract covers the duration of a connection. No contract says that the address of a peer
//!   is the address in [`Event::Connected`].
//!
//! # Dependencies
//!
//! The crate uses `gtalk` for connections, `mio` to wait for ready sockets, `slab` for the slots of
//! peers, and `gpkt` for the proofs.
#![tactic(auto)]

mod accepting;
mod addresses;
mod event;
mod event_loop;
mod leaver;
mod limits;
mod moving;
mod patience;
mod peer;
mod slot;

pub use crate::event::{End, Ended, Event, Refusal};
pub use crate::event_loop::EventLoop;
pub use crate::limits::Limits;
