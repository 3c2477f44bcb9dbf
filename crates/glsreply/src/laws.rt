//! Laws about ls-refs replies. Each function does nothing at run time, and its contract states the
//! law. The proof of a function that calls a law can use this law.

ghost use Rattle.std.specs.Prelude.{◌≡◌, ◌+◌, List, length};
ghost use Rattle.gname.specs.declared.formats.Format.{Format};
ghost use Rattle.gpkt.specs.Packets.{Packet};
ghost use Rattle.ggrammar.specs.Grammar.{HasEndings, IsPrefixFree, RefusesFirstMisfits};
ghost use Rattle.ggrammar.specs.Kinds.{AsInManual, CanonicalSays, OneMeaning, ReadsBack, ReadsExactly, SaysWhole};
ghost use Rattle.ggrammar.specs.MessageBytes.{BeginsOrIsRefused, RefusesPackets, SpellingsPrefixFree};
ghost use Rattle.ggrammar.specs.declared.ends.Ends.{Ends};
ghost use Rattle.glsreply.specs.LsManual.{IsLsReply};
ghost use Rattle.glsreply.specs.LsReplies.{IsCanonicalReply, LsReply, Says, brings, judge, max_lines};
ghost use Rattle.glsreply.specs.WellFormed.{IsLsReplyIn, last_frame};

use crate::MAX_LINES;
use ggrammar::MessageKind;
use ggrammar::laws::{grammars_are_exact, kinds_are_read, messages_are_read, texts_are_read};
use gname::laws::{
    id_texts_are_digits, ids_have_one_format, ids_have_texts, names_are_clean,
    texts_have_one_reading,
};

/// Proves that the constant [`MAX_LINES`] equals the limit `max_lines` of the specs.
pub fn limits_are_the_constants()
    ensures lines { MAX_LINES ≡ max_lines }
{}

/// Proves that a list of packets encodes at most one reply.
pub fn one_meaning()
    ensures { (format : Format) (ends : Ends) → OneMeaning (Says format ends) }
{}

/// Proves that a list of packets is complete exactly if it encodes a reply.
pub fn says_whole()
    ensures { (format : Format) (ends : Ends) → SaysWhole (judge format ends) (Says format ends) }
{}

/// Proves that no reply is a prefix of another reply with the same object format and the same
/// [`Ends`](ggrammar::Ends), as packets or as bytes.
pub fn prefix_free()
    ensures packets { (format : Format) (ends : Ends) → IsPrefixFree (judge format ends) }
    ensures spellings { (format : Format) (ends : Ends) → SpellingsPrefixFree (judge format ends) }
{
    grammars_are_exact();
    messages_are_read();
}

/// Proves that every list of packets that the grammar accepts as incomplete is a prefix of some
/// reply. A refused packet is the first packet that fits no reply.
pub fn endings()
    ensures endings { (format : Format) (ends : Ends) → HasEndings (judge format ends) }
    ensures first { (format : Format) (ends : Ends) → RefusesFirstMisfits (judge format ends) }
{
    grammars_are_exact();
}

/// Proves that the grammar refuses a packet only because of the packet's contents. Any input either
/// begins with a reply or is refused because of its bytes.
pub fn every_input()
    ensures packets { (format : Format) (ends : Ends) → RefusesPackets (judge format ends) }
    ensures bytes { (format : Format) (ends : Ends)
        → BeginsOrIsRefused (judge format ends) brings }
{
    endings();
    messages_are_read();
}

/// Proves that the reader accepts exactly the replies of gitprotocol-v2(5) that have at most
/// [`MAX_LINES`] lines. The reader returns the value that the manual states.
pub fn manual()
    ensures { (format : Format) (ends : Ends)
        → AsInManual (Says format ends) (IsLsReply format ends) }
{
    grammars_are_exact();
    names_are_clean();
    id_texts_are_digits();
    ids_have_one_format();
    texts_have_one_reading();
}

/// Proves that the packets that are written for a reply encode that reply, and that each payload
/// fits in a packet.
pub fn canonical_says()
    ensures { (format : Format) (ends : Ends)
        → CanonicalSays (Says format ends) (IsLsReplyIn format) (IsCanonicalReply ends) }
{
    grammars_are_exact();
    texts_are_read();
    names_are_clean();
    ids_have_texts();
    id_texts_are_digits();
    ids_have_one_format();
    texts_have_one_reading();
}

/// Proves that [`LsReply::last_frame`](crate::LsReply::last_frame) is the position of the last
/// packet of a reply.
pub fn last_frame()
    ensures { (format : Format) (ends : Ends) (packets : List Packet) (reply : LsReply)
        → Says format ends packets reply → length packets ≡ last_frame ends reply + 1 }
{
    manual();
}

// The kind of message "ls-refs reply". Its parameters are the object format and the packets that
// end the reply.
struct Replies;

impl MessageKind for Replies {
    ghost use Rattle.gname.specs.declared.formats.Format.{Format};
    ghost use Rattle.ggrammar.specs.declared.ends.Ends.{Ends};
    ghost use Rattle.glsreply.specs.LsReplies.{IsCanonicalReply, LsReply, Says, brings, judge};
    ghost use Rattle.glsreply.specs.WellFormed.{IsLsReplyIn};

    ghost Given = { Format × Ends };

    ghost Said = { LsReply };

    ghost judge = { λ given. judge given.0 given.1 };

    ghost brings = { λ _. brings };

    ghost says = { λ given. Says given.0 given.1 };

    ghost is_value = { λ given. IsLsReplyIn given.0 };

    ghost is_canonical = { λ given. IsCanonicalReply given.1 };
}

/// Proves that the reader returns a reply exactly when the input begins with that reply.
pub fn reads_exactly()
    ensures { (format : Format) (ends : Ends)
        → ReadsExactly (judge format ends) brings (Says format ends) }
{
    one_meaning();
    says_whole();
    kinds_are_read::<Replies>();
}

/// Proves that a written reply reads back as the same reply, even if other bytes follow.
pub fn reads_back()
    ensures { (format : Format) (ends : Ends)
        → ReadsBack (judge format ends) brings (Says format ends) (IsLsReplyIn format)
        (IsCanonicalReply ends) }
{
    one_meaning();
    says_whole();
    canonical_says();
    kinds_are_read::<Replies>();
}
