//! The messages of Git's protocol, version 2, in one crate. The messages are the first line of a
//! connection, the capability advertisement, the request, the ls-refs reply and the fetch reply.
//! Each message has a type, a reader and a writer.
//!
//! # Proved
//!
//! - The [`laws`] hold for every kind of message, with any [`Limits`]. A list of packets encodes at
//!   most one message. No message is a prefix of another message of its kind, as packets or as
//!   bytes. Within the limits, the readers of advertisements, requests and replies accept exactly
//!   the messages that Git's manual defines. The packets written for a message encode that message,
//!   and each payload fits into a packet. No byte string begins with both an ls-refs reply and a
//!   fetch reply. The modules `laws` of `ghello`, `grequest`, `glsreply` and `gfetchreply` prove
//!   that reading a written message returns the same message.
//!
//! The following crates define the messages, and prove further properties:
//!
//! - `ghello`: [`Hello`] and [`Advert`], their readers [`read_hello`] and [`read_advert`], their
//!   writers [`write_hello`] and [`write_advert`], and look-ups in an advertisement.
//! - `grequest`: [`Request`], [`LsRefsRequest`] and [`FetchRequest`] with their flags,
//!   [`read_request`], [`read_request_within`], which takes limits, and [`write_request`].
//! - `glsreply`: [`LsReply`], [`read_ls_reply`] and [`write_ls_reply`].
//! - `gfetchreply`: [`FetchReply`], [`read_fetch_reply`], [`read_fetch_reply_into`], which writes
//!   the pack to a [`PackSink`], and [`write_fetch_reply`].
//! - `ggrammar`: [`MessageFault`] and [`Why`], the faults of all messages, [`Limits`], and a reader
//!   for messages of any kind.
//!
//! [`MsgFault`] is a shorter name for [`MessageFault`], and [`laws::canon_says`] for
//! [`laws::canonical_says`].
//!
//! # What the contracts do not rule out
//!
//! This crate has no functions except its laws. The crates above list the gaps in the contracts of
//! their readers and writers.
//!
//! # Dependencies
//!
//! The crate uses `ghello`, `grequest`, `glsreply`, `gfetchreply` and `ggrammar` for messages,
//! `gpkt` for packets, and `gname` for ids and names.
#![tactic(auto)]

pub mod laws;

pub use gfetchreply::{
    Acks, FetchHead, FetchReading, FetchReply, MAX_ACKS, MAX_STREAM, PackBytes, PackLimit,
    PackSink, StreamLimit, read_fetch_reply, read_fetch_reply_in, read_fetch_reply_into,
    read_fetch_reply_into_in, write_fetch_reply,
};
pub use ggrammar::compat::MsgFault;
pub use ggrammar::{
    Capability, Ends, Limits, MAX_CAPABILITY, MAX_PEER_TEXT, MessageFault, PeerText, Why, is_key,
    is_value, is_word_value,
};
pub use ghello::{
    Advert, Hello, MAX_ADVERTISED, MAX_HOST, MAX_PATH, is_host, is_path, read_advert, read_hello,
    write_advert, write_hello,
};
pub use glsreply::{
    LentLine, LsReply, MAX_LINES, RefLine, RefText, read_ls_reply, read_ls_reply_in, write_end,
    write_ls_reply, write_ref, write_unborn,
};
pub use grequest::{
    FetchFlag, FetchRequest, LsRefsFlag, LsRefsRequest, MAX_HAVES, MAX_PREFIXES, MAX_WANTS,
    Request, read_request, read_request_in, read_request_within, write_request,
};
