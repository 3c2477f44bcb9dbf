//! One end of a dialogue: the messages that it receives, and its answers.

ghost use Rattle.std.specs.Prelude.{◌≡◌, ◌<◌, ◌^◌, [], Bool, List, length, ℕ};
ghost use Rattle.gpkt.specs.Packets.{Packet, packet_of};
ghost use Rattle.ggrammar.specs.Grammar.{Judge, IsOpen, IsWhole};
ghost use Rattle.gdialogue.specs.Sides.{HearsPacket, MayAnswer, SaysSome};

use ggrammar::{MessageFault, Step, Why};
use gtalk::Outgoing;
use std::alloc::Allocator;

/// The state of a reply after a call that queued packets.
#[derive(Clone, Copy, Debug, PartialEq, Eq)]
pub enum Said {
    /// More packets of the reply follow.
    More,
    /// The reply is complete, and does not itself end the dialogue.
    Whole,
    /// The reply is complete, and the dialogue has ended.
    Last,
}

/// A reply: a sequence of packets to send.
///
/// The reply can choose its packets while it is being sent. For example, reading a pack may fail
/// after some of it was sent. The last packet of the reply then reports the failure, and the
/// dialogue ends. A reply whose packets are known in advance can define `may` as `SaysExactly`.
pub trait Reply {
    // Whether these packets may complete the reply from this state. The boolean states whether the
    // dialogue then continues.
    ghost may: { Self → List Packet → Bool → Type 0 };

    // The maximum number of further calls that return [`Said::More`].
    ghost calls: { Self → ℕ };

    /// Adds the next packets of the reply to an empty send queue. One call may add any number of
    /// packets that fit, even zero. Returns whether the reply is then complete, and whether the
    /// dialogue ends.
    fn say<A: Allocator + Copy>(&mut self, out: &mut Outgoing<A>) -> Said
        requires empty { out.old ≡ [] }
        ensures says { SaysSome may self.old self.new out.new result }
        ensures fewer { result ≡ Said.More → calls self.new < calls self.old };
}

/// The answer to a message.
#[derive(Drop)]
pub enum Answer<R> {
    /// The dialogue sends this reply and receives the next message, unless the reply itself ends
    /// the dialogue.
    GoesOn(R),
    /// The dialogue sends this reply and ends.
    Last(R),
}

/// One end of a dialogue: the messages that it accepts, and its answers. A value of `M` is a
/// message of which some packets may not have arrived yet.
pub trait Side<M, R: Reply> {
    ghost use Rattle.ggrammar.specs.declared.fault.MessageFault.{MessageFault};

    // The grammar of the next message.
    ghost judge: { Self → Judge };

    // Whether a packet of the next message has contents that need memory.
    ghost brings: { Self → List Packet → Packet → Bool };

    // Whether a message consists of exactly these packets so far, and belongs to this state of the
    // side. For example, a side can require that the message has the side's parameters.
    ghost hears: { Self → M → List Packet → Type 0 };

    // Whether the end may send these packets before the first message. The boolean states whether
    // the dialogue then continues. An end that sends nothing before the first message uses
    // `SaysNothing`.
    ghost opens: { Self → List Packet → Bool → Type 0 };

    // Whether the second list of packets may answer the message in the first list. The boolean
    // states whether the dialogue then continues, and the last argument is the side's new state.
    ghost answers: { Self → List Packet → List Packet → Bool → Self → Type 0 };

    // Whether these packets may answer a message that is refused with this fault. The last argument
    // is the side's new state.
    ghost refuses: { Self → MessageFault → List Packet → Self → Type 0 };

    // The maximum number of further messages that the side answers without ending the dialogue.
    ghost messages: { Self → ℕ };

    /// Returns the state of the next message, before any of its packets is received.
    fn message(&self) -> M
        ensures { hears self.now result [] };

    /// Adds the next packet to the message. Fails if the grammar rejects the packet, or if memory
    /// runs out for its contents.
    fn hear(&self, message: &mut M, line: gpkt::Packet<'_>) -> Result<Step, Why>
        ensures { (front : List Packet) → IsOpen (judge self.now) front
            → hears self.now message.old front
            → HearsPacket (judge self.now) (brings self.now) (hears self.now) front
            (packet_of line.entry) message.new result };

    /// Returns the answer to a complete message. If the dialogue continues, `messages` decreases.
    fn answer(&mut self, message: M) -> Answer<R>
        ensures answers { (lines said : List Packet) (goes : Bool) → IsWhole (judge self.old) lines
            → hears self.old message lines → MayAnswer R.may result said goes
            → answers self.old lines said goes self.new }
        ensures fewer { (reply : R) → result ≡ Answer.GoesOn reply
            → messages self.new < messages self.old };

    /// Returns the answer to a refused message. The dialogue ends after this answer.
    fn refuse(&mut self, fault: MessageFault) -> R
        ensures { (said : List Packet) (goes : Bool) → R.may result said goes
            → refuses self.old fault said self.new };

    /// Proves a law of the grammar for generic callers, and does nothing. A list of packets is open
    /// if the next message continues after each packet of the list. Each open list has fewer than
    /// 2^60 packets.
    fn laws()
        ensures { (side : Self) (front : List Packet) → IsOpen (judge side) front
            → length front < 2 ^ 60 };
}
