//! A conversation of messages: one end receives a message, sends its answer, and receives the next
//! message.
//!
//! A [`Side`] determines the messages that it accepts and its answers to them. A [`Dialogue`] of a
//! side is a conversation of packets. Both ends of a protocol are sides: a server answers requests,
//! and a client answers replies with its next request.
//!
//! # Proved
//!
//! - Messages and answers alternate. Each message that is not refused is complete according to the
//!   grammar of the side's current state. The side answers the message in that state. Apart from
//!   packets before the first message, the side sends only answers (`Answered` in
//!   `specs/Dialogues.antt`).
//! - The message that is being received is related to its packets so far and to the side's current
//!   state, as `hears` of [`Side`] states (`HoldsHearing` in `specs/Dialogues.antt`).
//! - A dialogue ends with a last answer, with a reply that ends the dialogue early, or with a
//!   refused message (`HoldsOver`, `HasReplied`). A message is refused at the first packet that its
//!   grammar rejects, with the position of the packet and the reason. A message is also refused if
//!   memory runs out for a packet, or if no more packets arrive and the message is incomplete.
//! - The packets that were queued since the last received packet are a part of the latest answer
//!   (`HasReplied`). All packets before them are those of earlier answers.
//! - A caller that runs a whole dialogue of a [`Begun`] side knows the first state of the side.
//! - [`run_dialogue`] runs a whole dialogue over a blocking source and a blocking sink. Its
//!   contract states which packets were received and sent since the first state of the side
//!   (`HasRun` in `specs/Running.antt`). If the sink fails, all earlier answers are flushed, and a
//!   prefix of the latest answer is written (`HasBroken`).
//! - The packets of a complete reply are a list that the contract of the reply permits (`may` in
//!   [`Reply`]). The reply can choose its packets while it is being sent (`SaysSome` in
//!   `specs/Sides.antt`).
//! - Each dialogue ends. Each call decreases a bound (`left_of`) on the remaining packets of the
//!   message, the remaining calls for the reply, or the remaining messages.
//!
//! # What the contracts do not rule out
//!
//! - No contract rules out that a reply queues only one packet per call, or no packet in many
//!   calls.
//! - No contract restricts the answers of a side, except the side's own contract.
//! - No contract rules out that a reply permits no list of packets (`may` in [`Reply`]). Only
//!   [`run_dialogue`] requires that each reply permits one.
//! - No contract rules out that a side reports out of memory for a packet with content (`brings` in
//!   [`Side`]) although memory is available.
//! - No contract rules out that [`run_dialogue`] leaves sent packets unflushed, if the written or
//!   flushed bytes of the sink are unknown before the call. It may flush an answer twice.
//! - No contract limits the time that a side needs for an answer. Meanwhile, the dialogue neither
//!   receives nor sends packets.
//!
//! # Dependencies
//!
//! `gtalk` defines conversations, `ggrammar` defines grammars of messages, and `gpkt` defines
//! packets.
#![tactic(auto)]

mod begun;
mod dialogue;
mod running;
mod side;

pub use crate::begun::{Begun, First};
pub use crate::dialogue::Dialogue;
pub use crate::running::run_dialogue;
pub use crate::side::{Answer, Reply, Said, Side};
