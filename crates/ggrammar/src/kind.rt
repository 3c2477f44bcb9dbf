//! Kinds of messages, for laws that are true for every kind.

ghost use Rattle.std.specs.Prelude.{Bool, List};
ghost use Rattle.gpkt.specs.Packets.{Packet};
ghost use Rattle.ggrammar.specs.Grammar.{Judge};
ghost use Rattle.ggrammar.specs.Kinds.{Meaning};

/// A kind of message. The caller of a law chooses the kind by a type that implements this trait.
pub trait MessageKind {
    // The parameters of the grammar, such as the format of ids.
    ghost Given: { Type 0 };

    // The contents of a message.
    ghost Said: { Type 0 };

    ghost judge: { Given → Judge };

    ghost brings: { Given → List Packet → Packet → Bool };

    // The contents that a complete list of packets encodes.
    ghost says: { Given → Meaning Said };

    // The messages that can be written (`is_value`), and the packets that are written for each of
    // them (`is_canonical`).
    ghost is_value: { Given → Said → Type 0 };

    ghost is_canonical: { Given → Meaning Said };
}
