//! The first messages of a connection. A client sends a hello, the first line of a `git://`
//! connection (gitprotocol-pack(5), "Git Transport"), and a server sends an advertisement
//! (gitprotocol-v2(5), "Capability Advertisement"). Each of the two messages has a value type, a
//! reader and a writer.
//!
//! # Proved
//!
//! - Every [`Hello`] and every [`Advert`] is well-formed and within its limits. A call with a
//!   malformed text fails with `BadText`. Otherwise a call that would exceed a limit fails with
//!   `Limit`, and a call that runs out of memory fails with `Memory`. A failed call changes
//!   nothing.
//! - [`read_hello`] and [`read_advert`] read exactly one message, however its bytes are split into
//!   pieces. Both functions refuse any other input at the first packet that does not fit, with the
//!   fault that the grammar gives (`specs/Hello.antt`, `specs/Adverts.antt`). Both functions fail
//!   with `Memory` only at a packet whose text they store. After a message was read, the packet
//!   reader is ready for the next message. After a refusal, the packet reader is unusable if and
//!   only if the fault is a fault of the packet reader.
//! - An [`AdvertReader`] reads one advertisement packet by packet, with the same grammar.
//! - [`write_hello`] and [`write_advert`] write the canonical packets of the value, or a prefix of
//!   them if the sink fails. A reader of the written packets returns the same value.
//! - `specs/Offers.antt` specifies how a client checks a server's capabilities.
//!   [`Advert::value_of`] returns the first capability with a key. [`Advert::has_feature`] looks
//!   for a word in the value of that capability. [`Advert::format`] returns the format of the
//!   server's ids. [`Advert::check_in`] checks that a client whose ids have a given format can use
//!   the server.
//! - [`laws`] proves laws about both kinds of messages. The grammar of advertisements accepts
//!   exactly the advertisements that the manual and the limits allow, with the values that the
//!   manual states (`specs/Adverts.antt`). The grammar of hellos is narrower than the manual's
//!   (`specs/Hello.antt`). A list of packets encodes at most one value of each kind. No message is
//!   a prefix of another message of its kind, as packets or as bytes. Every accepted prefix can be
//!   completed, and a refused packet is the first that fits no message. Any input begins with a
//!   message or is refused because of its bytes. The packets that are written for a value encode
//!   that value, and each payload fits in a packet. A reader returns a message exactly when the
//!   input begins with it, and a written message reads back unchanged. The public constants equal
//!   the limits in the specs.
//!
//! # What the contracts do not rule out
//!
//! Any call that stores contents may report at any time that memory has run out. No contract rules
//! out that a look-up or a writer allocates and frees memory. No contract bounds the time of a call
//! or the memory of a value. If a sink fails, the contracts do not state how long the written
//! prefix of the packets is. If the bytes of a source or of a sink are unknown, the contracts do
//! not state which bytes are read or written. The contracts still state whether the source or the
//! sink has failed.
//!
//! # Dependencies
//!
//! The crate uses `ggrammar` for grammars and capabilities, `gpkt` for packets, `gname` for the
//! names of object formats, and `arrayvec` for texts of bounded length.
#![tactic(auto)]

mod advert;
mod hello;
pub mod laws;

pub use crate::advert::{Advert, AdvertReader, MAX_ADVERTISED, read_advert, write_advert};
pub use crate::hello::{
    Hello, HelloReader, MAX_HOST, MAX_PATH, is_host, is_path, read_hello, write_hello,
};
