//! One end of a packet protocol.

ghost use Rattle.std.specs.Prelude.{◌≡◌, []};
ghost use Rattle.gpkt.specs.Packets.{packet_of};
ghost use Rattle.gtalk.specs.Talks.{IsNearer, Left, Says, Talk, talk_after, stop_talk};

use crate::outgoing::Outgoing;
use gpkt::{Packet, PacketFault};
use std::alloc::Allocator;

/// The turn of a conversation: receiving, queueing packets to send, or done.
#[derive(Clone, Copy, Debug, PartialEq, Eq)]
pub enum Turn {
    /// The peer's turn: the conversation receives a packet, or is notified that no more packets
    /// arrive.
    Listens,
    /// This end's turn: the conversation queues packets to send, and receives nothing.
    Speaks,
    /// The end of the conversation: no more packets are received or queued.
    Done,
}

/// The reason why no more packets arrive.
#[derive(Clone, Copy, Debug, PartialEq, Eq)]
pub enum Stop {
    /// The input ended between two packets.
    Ended,
    /// The received bytes are not a packet, the input ended within a packet, or there was no memory
    /// for the bytes.
    Refused(PacketFault),
    /// The source failed.
    Failed,
}

/// One end of a conversation: a value that receives packets and queues packets to send.
///
/// A conversation does no I/O and does not store its history. The relation `holds` describes the
/// packets received and queued so far. The bound `left` decreases with each call, so every
/// conversation ends.
pub trait Conversation {
    ghost use Rattle.gtalk.specs.declared.conversation.Turn.{Turn};

    // The turn of the conversation.
    ghost turn: { Self → Turn };

    // Whether a history of received and queued packets may lead to this state.
    ghost holds: { Self → Talk → Type 0 };

    // The maximum numbers of remaining turns, and of remaining steps in the current turn.
    ghost left: { Self → Left };

    /// Returns the turn of the conversation.
    fn turn(&self) -> Turn
        ensures { result ≡ turn self.now };

    /// Receives the next packet.
    fn hear(&mut self, line: Packet<'_>)
        requires { turn self.old ≡ Turn.Listens }
        ensures heard { (talk : Talk) → holds self.old talk
            → holds self.new (talk_after talk (packet_of line.entry)) }
        ensures nearer { (talk : Talk) → holds self.old talk → IsNearer turn left self.old self.new };

    /// Notifies the conversation that no more packets arrive. The reason is `why`.
    fn stop(&mut self, why: Stop)
        requires { turn self.old ≡ Turn.Listens }
        ensures stopped { (talk : Talk) → holds self.old talk → holds self.new (stop_talk talk why) }
        ensures nearer { (talk : Talk) → holds self.old talk → IsNearer turn left self.old self.new };

    /// Adds the next packets to an empty send queue. A call may add any number of packets for which
    /// the queue has room, even zero.
    fn say<A: Allocator + Copy>(&mut self, out: &mut Outgoing<A>)
        requires turn { turn self.old ≡ Turn.Speaks }
        requires empty { out.old ≡ [] }
        ensures said { (talk : Talk) → holds self.old talk → Says (holds self.new) talk out.new }
        ensures nearer { (talk : Talk) → holds self.old talk → IsNearer turn left self.old self.new };
}
