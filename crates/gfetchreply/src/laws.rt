//! Laws about fetch replies. Each function does nothing at run time, and its contract states the
//! law. The proof of a function that calls a law can use this law.

ghost use Rattle.std.specs.Prelude.{◌≡◌, ◌≤◌};
ghost use Rattle.ggrammar.specs.Grammar.{HasEndings, IsPrefixFree, RefusesFirstMisfits};
ghost use Rattle.ggrammar.specs.Limits.{profile};
ghost use Rattle.ggrammar.specs.Kinds.{AsInManual, CanonicalSays, OneMeaning, ReadsBack, ReadsExactly, SaysWhole};
ghost use Rattle.ggrammar.specs.MessageBytes.{BeginsOrIsRefused, RefusesPackets, SpellingsPrefixFree};
ghost use Rattle.gfetchreply.specs.FetchManual.{IsFetchReply};
ghost use Rattle.gfetchreply.specs.FetchReplies.{IsCanonical, Reading, Says, brings, judge, max_acks};
ghost use Rattle.gfetchreply.specs.Laws.{HasShortEndings, IsInAnyLimit, IsInAnyLimits, IsRefusedOverLimit, OneInWhateverReading, ReadsBackInto, ReadsIntoOnlySaid, ReadsIntoWhereSaid};
ghost use Rattle.gfetchreply.specs.Values.{max_stream};
ghost use Rattle.gfetchreply.specs.WellFormed.{IsReplyIn};

use crate::limit::MAX_STREAM;
use crate::sink::PackSink;
use crate::value::MAX_ACKS;
use ggrammar::MessageKind;
use ggrammar::laws::{grammars_are_exact, kinds_are_read, messages_are_read};
use gname::laws::{ids_have_one_format, ids_have_texts};
use gpkt::laws::text_reads_back;

// The kind of message "fetch reply", with two parameters: whether the sink may refuse a piece, and
// the parameters of reading.
struct Replies;

impl MessageKind for Replies {
    ghost use Rattle.std.specs.Prelude.{Bool};
    ghost use Rattle.gfetchreply.specs.FetchReplies.{FetchReply, IsCanonical, Reading, Says, brings_into, judge};
    ghost use Rattle.gfetchreply.specs.WellFormed.{IsReplyIn};

    ghost Given = { Bool × Reading };

    ghost Said = { FetchReply };

    ghost judge = { λ given. judge given.1 };

    ghost brings = { λ given. brings_into given.0 given.1 };

    ghost says = { λ given. Says given.1 };

    ghost is_value = { λ given. IsReplyIn given.1 };

    ghost is_canonical = { λ given. IsCanonical given.1.ends };
}

/// Proves that the constants `MAX_ACKS` and `MAX_STREAM` equal the limits in the specifications.
pub fn limits_are_the_constants()
    ensures acks { MAX_ACKS ≡ max_acks profile }
    ensures stream { MAX_STREAM ≡ max_stream }
{}

/// Proves that a list of packets is read as a reply exactly if Git's manual and the limits allow
/// the list. The reply has the contents that the manual states (gitprotocol-v2(5), "fetch").
pub fn manual()
    ensures { (reading : Reading) → AsInManual (Says reading) (IsFetchReply reading) }
{}

/// Proves that a list of packets encodes at most one reply, and encodes a reply exactly if the list
/// is complete.
pub fn one_meaning()
    ensures meaning { (reading : Reading) → OneMeaning (Says reading) }
    ensures whole { (reading : Reading) → SaysWhole (judge reading) (Says reading) }
{}

/// Proves that no reply is a prefix of another, as packets or as bytes. A reader therefore finds
/// the end of a reply without reading further.
pub fn prefix_free()
    ensures packets { (reading : Reading) → IsPrefixFree (judge reading) }
    ensures spellings { (reading : Reading) → SpellingsPrefixFree (judge reading) }
{
    grammars_are_exact();
    messages_are_read();
}

/// Proves that each unfinished reply can be completed with at most four packets, and that a
/// rejected packet is the first that fits no reply.
pub fn endings()
    ensures endings { (reading : Reading) → HasEndings (judge reading) }
    ensures short { (reading : Reading) → HasShortEndings reading }
    ensures first { (reading : Reading) → RefusesFirstMisfits (judge reading) }
{
    grammars_are_exact();
}

/// Proves that the grammar rejects a packet only because of its content. Every input begins with a
/// reply, or is rejected because of its content.
pub fn every_input()
    ensures packets { (reading : Reading) → RefusesPackets (judge reading) }
    ensures bytes { (reading : Reading) → BeginsOrIsRefused (judge reading) (brings reading) }
{
    endings();
    messages_are_read();
}

/// Proves that the packets written for a reply encode this reply, and that each payload fits a
/// packet. The reply must be well-formed and within the reader's limits (`IsReplyIn`). The reader's
/// size limit must be the value of some [`StreamLimit`](crate::StreamLimit).
pub fn canonical_says()
    ensures { (reading : Reading) → reading.limit ≤ max_stream
        → CanonicalSays (Says reading) (IsReplyIn reading) (IsCanonical reading.ends) }
{
    ids_have_one_format();
    ids_have_texts();
    text_reads_back();
}

/// Proves that [`crate::read_fetch_reply_in`] reads a reply exactly if the input begins with
/// packets that encode this reply.
pub fn reads_exactly()
    ensures { (reading : Reading) → ReadsExactly (judge reading) (brings reading) (Says reading) }
{
    one_meaning();
    kinds_are_read::<Replies>();
}

/// Proves that a written reply reads back unchanged, even if other bytes follow. The reply must be
/// well-formed for the reader (`IsReplyIn`). In particular, the pack must be within the reader's
/// size limit, and the number of acknowledged ids within the reader's limits. The reader's size
/// limit must be the value of some [`StreamLimit`](crate::StreamLimit).
pub fn reads_back()
    ensures { (reading : Reading) → reading.limit ≤ max_stream
        → ReadsBack (judge reading) (brings reading) (Says reading) (IsReplyIn reading)
        (IsCanonical reading.ends) }
{
    one_meaning();
    canonical_says();
    kinds_are_read::<Replies>();
}

/// Proves that [`crate::read_fetch_reply_into_in`] reads a reply and passes its pack to a sink
/// exactly if the input begins with packets that encode this reply.
pub fn reads_into_exactly<T: PackSink>()
    ensures said { (reading : Reading) → ReadsIntoWhereSaid T.taken T.refuses reading }
    ensures only { (reading : Reading) → ReadsIntoOnlySaid T.taken reading }
{
    one_meaning();
    kinds_are_read::<Replies>();
}

/// Proves that a written reply reads back unchanged with its pack passed to a sink, even if other
/// bytes follow. The conditions are those of [`reads_back`].
pub fn reads_back_into<T: PackSink>()
    ensures { (reading : Reading) → reading.limit ≤ max_stream
        → ReadsBackInto T.taken T.refuses reading }
{
    one_meaning();
    canonical_says();
    kinds_are_read::<Replies>();
}

/// Proves that reading the same packets for another request or with other limits never returns a
/// different reply. The format of the ids and the packets that end the reply must be the same. An
/// accepted reply is also accepted under any other size limit that is at least the length of its
/// pack. The same is true for any other limit on haves that is at least the number of the
/// acknowledged ids. If a reply is accepted under some limits and refused under others because of
/// its content, the fault is `Limit`.
pub fn other_readings()
    ensures whatever_reading { OneInWhateverReading }
    ensures any_limit { IsInAnyLimit }
    ensures any_limits { IsInAnyLimits }
    ensures over_limit { IsRefusedOverLimit }
{
    grammars_are_exact();
    messages_are_read();
}
