//! The parts that all messages of the protocol share: grammars over packets, a reader that follows
//! a grammar, the faults of messages, and capabilities.
//!
//! # Proved
//!
//! - [`read_message`] reads a message exactly to its end, however its bytes are split into pieces.
//!   Any other input is rejected at the first packet that does not fit, with the fault that the
//!   grammar gives. A fault of the packet reader takes precedence over the end of the input, which
//!   takes precedence over a fault of the grammar. The packets before the rejected packet begin a
//!   message and contain no complete message. Out of memory is reported only at a packet with
//!   contents to store.
//! - In every grammar, no message is a prefix of another ([`laws`]). If accepted packets can always
//!   be completed to a message, a rejected packet is the first that fits no message. A complete
//!   message at the start of the input is read, and nothing after it. An input that is refused
//!   because of its content does not begin with a message. The input then determines the fault and
//!   the remaining bytes. Suppose that accepted packets can always be completed, and that packets
//!   are rejected only because of their content. Then every input begins with a message or is
//!   refused. If each complete list of packets encodes exactly one message, a message is read
//!   exactly if the input begins with it, and a written message reads back unchanged. Consecutive
//!   writes of packets have the effect of one write of all the packets, even if one of the writes
//!   fails.
//! - [`capability_of`] parses a text exactly if the text is a capability. [`id_of_text`] parses a
//!   text exactly if the text consists of the hex digits of an id of the given format.
//! - For each fault, the table `why_row` has the number, the name and the text for the peer. At
//!   most the first 256 bytes of a peer's error text are stored. The public constants equal the
//!   limits in the specifications.
//! - The functions of [`compose`] append a piece, or the hex digits of an id, to a text of bounded
//!   length.
//!
//! # What the contracts do not rule out
//!
//! - No contract bounds the time of a call. No contract rules out that the `Debug` output of a
//!   fault shows any part of a peer's text.
//! - No contract rules out that formatting a fault returns `fmt::Error` although the text was
//!   written correctly.
//! - No contract rules out that reading reports out of memory at a packet with contents to store,
//!   even if there is enough memory.
//! - If the bytes of a source are unknown, the contracts do not state which packets are read. The
//!   contracts still state whether the source has failed.
//! - The contracts of this crate do not state which contents an implementation of [`Message`] has
//!   after it rejects a packet. The contracts of each kind of message state this.
//!
//! # Dependencies
//!
//! `gpkt` defines packets. `gname` defines ids and names, and writes the hex digits of ids. `hex`
//! defines hex digits for the specifications. `arrayvec` stores texts of bounded length.
#![tactic(auto)]

mod capability;
pub mod compat;
pub mod compose;
mod ends;
mod fault;
mod id;
mod kind;
pub mod laws;
mod limits;
mod message;
mod peer;

pub use crate::capability::{
    Capability, MAX_CAPABILITY, are_graphic, are_printable, capability_of, is_key, is_printable,
    is_value, is_word_value,
};
pub use crate::ends::Ends;
pub use crate::fault::{MAX_PEER_TEXT, MessageFault, PeerText, Why};
pub use crate::id::id_of_text;
pub use crate::kind::MessageKind;
pub use crate::limits::Limits;
pub use crate::message::{Message, Step, read_message};
pub use crate::peer::{after_word, peer_error};
