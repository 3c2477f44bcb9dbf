//! The ls-refs reply (gitprotocol-v2(5), "ls-refs"): the refs of a repository with their ids. On
//! request, the reply also contains the targets of symbolic refs, the peeled objects of tags, and
//! the target of an unborn `HEAD`. Ids are SHA-1 or SHA-256.
//!
//! # Proved
//!
//! - [`read_ls_reply`] and [`read_ls_reply_in`] read one reply exactly to its end, however its
//!   bytes are split into pieces, and return the value that the packets encode. Both functions
//!   refuse any other input at the first packet that does not fit, with the fault that the grammar
//!   gives (`judge` in `specs/LsReplies.antt`). Both functions check a line from left to right, and
//!   report out of memory only at a line that the grammar accepts.
//! - An [`LsReplyReader`] reads one reply packet by packet ([`LsReplyReader::hear_packet`]), with the
//!   same grammar. When the reply is complete, [`LsReplyReader::into_reply`] returns the value that
//!   the packets encode.
//! - Every reply that was read can be written. The reply has ids of the requested format, valid ref
//!   names, and at most 65,537 lines.
//! - All ids of an [`LsReply`] have the same format, and an [`LsReply`] has at most 65,537 lines. A
//!   call that would violate these invariants fails and leaves the reply unchanged.
//!   [`LsReply::last_frame`] is the position of the last packet of the reply.
//! - [`write_ls_reply`] writes exactly the bytes of the canonical packets, or a prefix of them if
//!   the sink fails. No line is too long for a packet, and a reader for the format of the ids
//!   returns the same reply. A caller without an [`LsReply`] can write a reply line by line, with
//!   [`write_unborn`], [`write_ref`] and [`write_end`]. The names in a line may be borrowed. Each
//!   written line is valid in a reply whose ids have the same format as the ids of the line.
//! - [`RefText`] stores the text of a ref's line.
//! - [`laws`] proves laws about the grammar. A list of packets encodes at most one reply. No reply
//!   is a prefix of another, as packets or as bytes. Every accepted prefix can be completed, and a
//!   refused packet is the first that fits no reply. The grammar accepts exactly the replies of
//!   gitprotocol-v2(5) that have at most 65,537 lines, with the values that the manual states
//!   (`specs/LsManual.antt`). The packets that are written for a reply encode it, and each payload
//!   fits in a packet. The reader returns a reply exactly when the input begins with that reply.
//!   Any other input is refused because of its bytes. A written reply reads back unchanged, even if
//!   other bytes follow. [`MAX_LINES`] equals the limit in the specs.
//!
//! # Only tested
//!
//! Calls succeed while enough memory is available.
//!
//! # What the contracts do not rule out
//!
//! No contract rules out that a reader reports out of memory at an accepted line, or that a call to
//! `push` reports out of memory. No contract rules out that any other call allocates and frees
//! memory. No contract bounds the memory of a value or the time of a call.
//!
//! The line-by-line writers accept lines in any order and ids of different formats. The caller must
//! write the lines in the right order, with ids of the same format.
//!
//! # Dependencies
//!
//! The crate uses `ggrammar` to read and write messages, `gpkt` for packets, `gname` for ids and
//! names, and `arrayvec` for the text of a line.
#![tactic(auto)]

pub mod laws;
mod lent;
mod line;
mod reader;
mod reply;
mod writer;

pub use crate::lent::{LentLine, RefText};
pub use crate::reader::{LsReplyReader, read_ls_reply, read_ls_reply_in};
pub use crate::reply::{LsReply, MAX_LINES, RefLine};
pub use crate::writer::{write_end, write_ls_reply, write_ref, write_unborn};
