//! Reading a message of any kind, packet by packet.

ghost use Rattle.std.specs.Prelude.{◌≡◌, ◌<◌, ◌^◌, Bool, List, [], length, MatchResult, IfErr, OnOk, true, false};
ghost use Rattle.gpkt.specs.Packets.{Packet, packet_of};
ghost use Rattle.gpkt.specs.Change.{change_of};
ghost use Rattle.ggrammar.specs.Grammar.{Judge, HasEndings, IsOpen};
ghost use Rattle.ggrammar.specs.MessageReading.{TakesPacket, HasTaken, HasRefused, LeavesReader};

use crate::fault::{MessageFault, Why};
use gpkt::{PacketReader, Source};
use std::alloc::Allocator;

/// The state of a message after a packet.
#[derive(Clone, Copy, Debug, PartialEq, Eq)]
pub enum Step {
    /// The message continues.
    Open,
    /// The message is complete.
    Whole,
}

/// A message that is being read: the contents of its packets so far.
pub trait Message {
    // The grammar's verdict on a packet, given the packets before it.
    ghost judge: { Self → Judge };

    // Whether a packet has contents to store, given the packets before it.
    ghost brings: { Self → List Packet → Packet → Bool };

    // Whether the message consists of exactly these packets so far.
    ghost holds: { Self → List Packet → Type 0 };

    // Whether the message may be in this state after it accepted these packets and rejected the
    // next packet.
    ghost left: { Self → List Packet → Type 0 };

    /// Accepts the next packet. Fails if the grammar rejects the packet, or if memory runs out for
    /// its contents.
    fn accept_packet(&mut self, line: gpkt::Packet<'_>) -> Result<Step, Why>
        ensures judge { judge self.new ≡ judge self.old }
        ensures brings { brings self.new ≡ brings self.old }
        ensures takes { (front : List Packet) → IsOpen (judge self.old) front
            → holds self.old front
            → TakesPacket (judge self.old) (brings self.old) holds left front
            (packet_of line.entry) self.new result };

    /// Proves laws of the message for generic callers, and does nothing. If `holds` is true for
    /// some packets, `left` is true for these packets. A list of packets is open if the message
    /// continues after each packet of the list. Each open list can be completed to a message, and
    /// has fewer than 2^60 packets.
    fn laws()
        ensures left { (message : Self) (front : List Packet) → holds message front
            → left message front }
        ensures endings { (message : Self) → HasEndings (judge message) }
        ensures bounded { (message : Self) (front : List Packet) → IsOpen (judge message) front
            → length front < 2 ^ 60 };
}

/// Reads a message to its end, and nothing after it.
///
/// The fault contains the position of the rejected packet, counted from 0. A fault of the packet
/// reader takes precedence over the end of the input, which takes precedence over a fault of the
/// grammar. If the message is rejected, the packet reader has failed exactly if the fault is a
/// fault of the packet reader ([`Why::Line`]). If the reader had failed before the call, the call
/// fails at once, and the fault reports packet position 0.
pub fn read_message<S: Source, A: Allocator + Copy, M: Message>(
    reader: &mut PacketReader<S, A>,
    message: &mut M,
) -> Result<(), MessageFault>
    requires { M.holds message.old [] }
    ensures read { MatchResult result
        (λ _. HasTaken (M.judge message.old) (M.brings message.old) M.holds M.left
        (change_of S.remaining reader.old.source reader.new.source) message.new)
        (λ fault. HasRefused (M.judge message.old) (M.brings message.old) M.holds M.left
        (change_of S.remaining reader.old.source reader.new.source) message.new fault) }
    ensures judge { M.judge message.new ≡ M.judge message.old }
    ensures brings { M.brings message.new ≡ M.brings message.old }
    ensures loans { S.loans reader.new.source ≡ S.loans reader.old.source }
    ensures reader { LeavesReader S.is_down reader.old reader.new result }
{
    // Laws that the proof uses.
    M::laws();
    for frame in 0..u64::MAX {
        let line = match reader.next() {
            Ok(Some(line)) => line,
            Ok(None) => return Err(MessageFault {
                frame,
                why: Why::Ended,
            }),
            Err(fault) => return Err(MessageFault {
                frame,
                why: Why::Line(fault),
            }),
        };
        match message.accept_packet(line) {
            Ok(Step::Open) => {}
            Ok(Step::Whole) => return Ok(()),
            Err(why) => return Err(MessageFault { frame, why }),
        }
    }
    unreachable!()
}
