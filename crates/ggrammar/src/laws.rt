//! Laws of every grammar. Each function does nothing at run time, and its contract states the law.

ghost use Rattle.std.specs.Prelude.{◌≡◌};
ghost use Rattle.ggrammar.specs.Capabilities.{CapabilityIsItsText, max_capability};
ghost use Rattle.ggrammar.specs.Faults.{max_peer_text};
ghost use Rattle.ggrammar.specs.Grammar.{Judge, LawsOf};
ghost use Rattle.ggrammar.specs.Ids.{IdIsSpelt};
ghost use Rattle.ggrammar.specs.Kinds.{CanonicalSays, OneMeaning, ReadsBack, ReadsBackIfAny, ReadsExactly, ReadsExactlyIfAny, SaysWhole};
ghost use Rattle.ggrammar.specs.MessageBytes.{LawsOfBytes};
ghost use Rattle.ggrammar.specs.Texts.{TextIsRead, TextsOfMore};
ghost use Rattle.ggrammar.specs.Writing.{EndsWriting, FailsWriting, GoesOnAfterPart, GoesOnWriting, PacketsArePart, StartsWriting, WritesFitting, WritesPacket};

use crate::capability::MAX_CAPABILITY;
use crate::fault::MAX_PEER_TEXT;
use crate::kind::MessageKind;
use gpkt::Sink;
use gpkt::laws::{
    canonical_spells, every_front, has_four_bytes, one_begins, one_outcome, one_reading,
    refused_front, text_reads_back, writes_join,
};

/// Proves that the public constants of this crate equal the limits in its specifications.
pub fn limits_are_the_constants()
    ensures capability { MAX_CAPABILITY ≡ max_capability }
    ensures peer_text { MAX_PEER_TEXT ≡ max_peer_text }
{}

/// Proves that no message is a prefix of another. A list of packets is open if the message
/// continues after each packet of the list. Suppose that each open list can be completed to a
/// message. Then no prefix of an open list is a complete message, and a rejected packet is the
/// first that fits no message.
pub fn grammars_are_exact()
    ensures { (judge : Judge) → LawsOf judge }
{}

/// Proves that a complete message at the start of the input is read, and that the bytes after it
/// remain. An input that is refused because of its content does not begin with a message. The input
/// then determines the fault and the remaining bytes. If the packet reader reports the end of the
/// input, the input does not begin with a message. Suppose that accepted packets can always be
/// completed to a message, and that packets are rejected only because of their content. Then every
/// input begins with a message or is refused. No encoding of a message is a prefix of another.
pub fn messages_are_read()
    ensures { (judge : Judge) → LawsOfBytes judge }
{
    one_begins();
    one_reading();
    refused_front();
    has_four_bytes();
    one_outcome();
    every_front();
}

/// Proves that a text is read as an id of a format exactly if it consists of the hex digits of the
/// id, in upper or lower case. A text is read as a capability exactly if it is the text of a
/// well-formed capability.
pub fn texts_are_classified()
    ensures ids { IdIsSpelt }
    ensures capabilities { CapabilityIsItsText }
{}

/// Proves that concatenating lists of packets concatenates their texts, and that the packet of a
/// text is read as that text.
#[tactic(auto, using(crate::proofs::PlaceLemmas::texts_of_more, crate::proofs::PlaceLemmas::text_is_read))]
pub fn texts_are_read()
    ensures more { TextsOfMore }
    ensures line { TextIsRead }
{
    text_reads_back();
}

/// Proves that several writes of packets in a row have the effect of one write of all the packets.
/// If one of them fails, the one write fails too. Before the first write, all packets
/// of a message remain to be written. After the last write, none remains.
pub fn writes_packets<W: Sink>()
    ensures line { WritesPacket W.contents W.passed_on W.is_down W.loans }
    ensures fitting { WritesFitting W.contents W.passed_on W.is_down W.loans }
    ensures part { PacketsArePart W.contents W.passed_on W.is_down W.loans }
    ensures starts { StartsWriting W.contents W.passed_on W.is_down W.loans }
    ensures goes_on { GoesOnWriting W.contents W.passed_on W.is_down W.loans }
    ensures after_part { GoesOnAfterPart W.contents W.passed_on W.is_down W.loans }
    ensures fails { FailsWriting W.contents W.passed_on W.is_down W.loans }
    ensures ends { EndsWriting W.contents W.passed_on W.is_down W.loans }
{
    canonical_spells();
    writes_join::<W>();
}

/// Proves two laws for each kind of message in which each complete list of packets encodes exactly
/// one message. A message is read exactly if the input begins with it. A written message reads back
/// as the same message, even if other bytes follow. Both laws also apply to a reader that accepts
/// the end of the input in place of a message.
pub fn kinds_are_read<K: MessageKind>()
    ensures exactly { (given : K.Given) → SaysWhole (K.judge given) (K.says given)
        → OneMeaning (K.says given)
        → ReadsExactly (K.judge given) (K.brings given) (K.says given) }
    ensures back { (given : K.Given) → SaysWhole (K.judge given) (K.says given)
        → OneMeaning (K.says given)
        → CanonicalSays (K.says given) (K.is_value given) (K.is_canonical given)
        → ReadsBack (K.judge given) (K.brings given) (K.says given) (K.is_value given)
        (K.is_canonical given) }
    ensures exactly_if_any { (given : K.Given) → SaysWhole (K.judge given) (K.says given)
        → OneMeaning (K.says given)
        → ReadsExactlyIfAny (K.judge given) (K.brings given) (K.says given) }
    ensures back_if_any { (given : K.Given) → SaysWhole (K.judge given) (K.says given)
        → OneMeaning (K.says given)
        → CanonicalSays (K.says given) (K.is_value given) (K.is_canonical given)
        → ReadsBackIfAny (K.judge given) (K.brings given) (K.says given) (K.is_value given)
        (K.is_canonical given) }
{
    canonical_spells();
    messages_are_read();
}
