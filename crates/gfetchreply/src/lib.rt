//! Fetch replies (gitprotocol-v2(5), "fetch"): acknowledgments, a pack on side bands, or both. A
//! reply is read packet by packet. Its pack is passed to a [`PackSink`] in pieces, directly from
//! the buffer of the reader.
//!
//! # Proved
//!
//! - [`read_fetch_reply_into_in`] reads a reply exactly to its end, however its bytes are split
//!   into pieces. The call returns the head of the reply, whose acknowledgments have the requested
//!   format and limits. The sink has then accepted the bytes of the pack, after any bytes that it
//!   had accepted before. The length of the pack is within the limit. Any other input is rejected
//!   at the first packet that does not fit, with the fault that the grammar gives (`judge` in
//!   `specs/FetchReplies.antt`). The sink has then accepted exactly the data of the packets before
//!   the rejected packet, and the length of the data is within the limit. Each call changes only
//!   those parts of the sink that accepting a piece can change (`PackSink::same`). The reader never
//!   passes an empty piece to the sink.
//! - Out of memory never replaces another fault, and is reported only at a packet that the grammar
//!   accepts. The packet contains an acknowledged id, or a piece of the pack if the sink's type can
//!   refuse pieces. Each implementation of [`PackSink`] states whether it can refuse pieces; a
//!   vector can. [`read_fetch_reply_into`] has the same contract for SHA-1 ids and the default
//!   limits. The functions [`read_fetch_reply_in`] and [`read_fetch_reply`] store the pack in
//!   memory.
//! - A [`FetchReader`] reads one reply packet by packet ([`FetchReader::hear_packet`]), with the
//!   same grammar. Each call passes the data of its packet to the sink that it borrows. When the
//!   reply is complete, [`FetchReader::finish`] returns the reply without its pack. If all calls
//!   borrowed one sink, the sink has then accepted exactly the pack (`HoldsReply`, `HasHead`).
//! - [`Acks`] has ids of one format. Their number is within the limit on haves of its
//!   [`ggrammar::Limits`], which is 4,096 by default. With any limits, the number is at most
//!   4,294,967,295. [`PackBytes`] has at most `gname::MAX_PACK` bytes, and a [`PackLimit`] is at
//!   most `gname::MAX_PACK`. A [`StreamLimit`], for a pack that is passed to a sink, is at most
//!   [`MAX_STREAM`], which is 4,294,967,295. A call that builds a value of these types checks the
//!   format of ids before the limit. A failed [`Acks::push`] changes nothing. Building a reply
//!   moves existing ids and an existing pack into the reply, unchanged.
//! - [`write_fetch_reply`] writes exactly the bytes of a reply's packets (`canonical_reply`), or a
//!   prefix of the bytes if the sink fails. A payload is never too long. Reading the written bytes
//!   returns the same reply under three conditions. The reader has the id format and the limits of
//!   the acknowledgments. The pack is within the reader's size limit. The field `direct` of
//!   [`FetchReading`] is true exactly if the reply has no acknowledgments.
//! - By [`laws`], a list of packets is a reply exactly if Git's manual and the limits allow the
//!   list. The reply has the contents that the manual states (`specs/FetchManual.antt`). A list of
//!   packets encodes at most one reply, and no reply is a prefix of another, as packets or as
//!   bytes. Each unfinished reply can be completed with at most four packets, and a rejected packet
//!   is the first that fits no reply. The packets written for a reply encode this reply. A written
//!   reply that is well-formed for the reader reads back unchanged, even if other bytes follow. A
//!   reply is read exactly if the input begins with packets that encode this reply. Every input
//!   begins with a reply or is rejected because of its content. If the same bytes are read for
//!   another request, the result is the same reply or a rejection. With other limits, the result is
//!   the same reply or a rejection because of a limit. The constants `MAX_ACKS` and `MAX_STREAM`
//!   equal the limits in the specifications.
//!
//! # Only tested
//!
//! Calls succeed if there is enough memory, although the contracts do not state this. Writing does
//! not allocate, and neither does building a reply from existing ids and an existing pack.
//!
//! # What the contracts do not rule out
//!
//! No contract rules out that reading reports out of memory at any id, or at any packet with data
//! if the pack is stored in memory. If the caller provides the sink, no contract rules out that
//! reading reports out of memory at a packet with data after the sink has refused a piece. No
//! contract rules out that the reader passes this piece to the sink again. No contract rules out
//! that a call allocates, or takes any amount of time.
//!
//! # Dependencies
//!
//! `ggrammar` reads messages of any kind, `gpkt` defines packets and side bands, and `gname`
//! defines ids.
#![tactic(auto)]

mod accepting;
mod form;
pub mod laws;
mod limit;
mod reader;
mod reading;
mod sections;
mod sink;
mod value;
mod write;

pub use crate::limit::{MAX_STREAM, PackLimit, StreamLimit};
pub use crate::reader::FetchReader;
pub use crate::reading::{
    FetchReading, read_fetch_reply, read_fetch_reply_in, read_fetch_reply_into,
    read_fetch_reply_into_in,
};
pub use crate::sink::PackSink;
pub use crate::value::{Acks, FetchHead, FetchReply, MAX_ACKS, PackBytes};
pub use crate::write::write_fetch_reply;
