//! A conversation of packets as a value. The value receives packets and queues packets to send, but
//! does no I/O itself.
//!
//! A [`Conversation`] is one end of a protocol. A [`Connection`] converts between the packets of a
//! conversation and bytes. The bytes arrive in pieces of any size, and the caller sends as many
//! pending bytes as it can. [`drive`] moves the bytes between a connection, a blocking source and a
//! blocking sink. An event loop can instead move the bytes of many connections, each when its
//! socket is ready.
//!
//! # Proved
//!
//! - The received bytes are the encodings of the packets that the conversation received, followed
//!   by the bytes after the last packet (`IsStopped`). The sent bytes followed by the pending bytes
//!   are the canonical encoding of the packets that the conversation queued (`Holds` in
//!   `specs/Connections.antt`). The contract of each call states which bytes the call receives and
//!   sends (`Moves`).
//! - While more packets may arrive, [`Connection::receive_limit`] is at least one byte, and no call
//!   accepts more bytes than this limit. Therefore no byte after the last packet is read.
//! - A conversation receives the reason why no more packets arrive ([`Stop`]). `Failed` is reported
//!   only if the source has failed. `Ended` and `Truncated` are reported only if the source is at
//!   its end (`LeavesSource`). Bytes are refused only if they are not a packet, or if there is no
//!   memory for them.
//! - [`drive`] returns if all calls to its source and its sink return. The connection receives all
//!   bytes that are read, in order. The sink receives all bytes that the connection sends, in
//!   order. [`drive`] succeeds only if the conversation is done, or if no more packets arrive.
//!   After success all queued packets are sent and flushed.
//! - [`drive`] fails with `Io` only if the sink has failed. After a failure, all packets of earlier
//!   turns are flushed, and a prefix of the packets of the last turn is written (`BreaksOff`).
//! - [`converse`] calls the sink only in turns that queue packets, and flushes only those turns. If
//!   it sends no byte, the sink is unchanged (`HasSent`). If the sink fails, the last turn queued
//!   at least one packet, and all packets of earlier turns are flushed (`FailsInTurn`).
//! - [`speak_turn`] and [`hear_some`] make one turn and one read of [`converse`].
//! - A connection that uses the buffers of a [`Room`] does not run out of memory (`HasRoom`), until
//!   [`Connection::give_back`] frees the send queue.
//! - No byte after the last packet is stored, unless the conversation listens or no more packets
//!   arrive (`IsClean`).
//! - [`Outgoing`] appends each packet in its canonical encoding.
//!
//! # What the contracts do not rule out
//!
//! - No contract rules out that a connection reads and writes one byte at a time.
//! - No contract rules out that an allocation fails, for received bytes or for packets to send,
//!   unless the connection uses the buffers of a [`Room`].
//! - No contract rules out that memory is allocated before it is needed, or freed late.
//! - No contract rules out that a call reports out of memory although memory is available, unless
//!   the connection uses the buffers of a [`Room`].
//! - No contract rules out that [`drive`] and [`converse`] leave sent packets unflushed, if the
//!   written or flushed bytes of the sink are unknown before the call.
//! - No contract rules out that a turn that queues packets is flushed more than once.
//! - No contract rules out the data packet `0004`, which has no payload. gitprotocol-common(5) says
//!   that an implementation should not send it.
//! - No contract of this crate rules out that an event loop drops a connection or its bytes. Only
//!   the contract of the event loop can rule this out.
//!
//! # Dependencies
//!
//! `gpkt` defines packets, sources and sinks, and `hex` decodes the hexadecimal digits of packets.
#![tactic(auto)]

mod connection;
mod conversation;
mod driver;
mod exchange;
mod fault;
mod incoming;
mod outgoing;
mod room;

pub use crate::connection::Connection;
pub use crate::conversation::{Conversation, Stop, Turn};
pub use crate::driver::{converse, drive, hear_some, speak_turn};
pub use crate::fault::TalkFault;
pub use crate::outgoing::Outgoing;
pub use crate::room::Room;
