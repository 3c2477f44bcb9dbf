//! Laws about the grammar of requests. Each function does nothing at run time, and its contract
//! states the law.

ghost use Rattle.std.specs.Prelude.{◌≡◌};
ghost use Rattle.gname.specs.declared.formats.Format.{Format};
ghost use Rattle.ggrammar.specs.Grammar.{HasEndings, IsPrefixFree, RefusesFirstMisfits};
ghost use Rattle.ggrammar.specs.Limits.{profile};
ghost use Rattle.ggrammar.specs.declared.limits.Limits.{Limits};
ghost use Rattle.ggrammar.specs.Kinds.{AsInManual, CanonicalSays, OneMeaning, ReadsBackIfAny, ReadsExactlyIfAny, SaysWhole};
ghost use Rattle.ggrammar.specs.MessageBytes.{BeginsOrIsRefused, RefusesPackets, SpellingsPrefixFree};
ghost use Rattle.grequest.specs.Asked.{max_haves, max_prefixes, max_wants};
ghost use Rattle.grequest.specs.Manual.{IsRequest};
ghost use Rattle.grequest.specs.Requests.{Says, brings, judge};
ghost use Rattle.grequest.specs.RequestReading.{IsMissingWhereEmpty};
ghost use Rattle.grequest.specs.RequestWriting.{IsCanonicalRequest};
ghost use Rattle.grequest.specs.WellFormed.{IsAsked};

use crate::{MAX_HAVES, MAX_PREFIXES, MAX_WANTS};
use ggrammar::MessageKind;
use ggrammar::laws::{grammars_are_exact, kinds_are_read, messages_are_read};
use gname::laws::{ids_have_one_format, ids_have_texts, prefixes_are_clean};
use gpkt::laws::has_four_bytes;

/// Proves that the public constants of this crate equal the default limits in its specifications.
pub fn limits_are_the_constants()
    ensures prefixes { MAX_PREFIXES ≡ max_prefixes profile }
    ensures wants { MAX_WANTS ≡ max_wants profile }
    ensures haves { MAX_HAVES ≡ max_haves profile }
{}

/// Proves that a list of packets is read as a request exactly if Git's manual and the limits allow
/// the list. The request has the contents that the manual states (gitprotocol-v2(5), "Command
/// Request", "ls-refs" and "fetch").
pub fn manual()
    ensures { (limits : Limits) (format : Format)
        → AsInManual (Says limits format) (IsRequest limits format) }
{
    grammars_are_exact();
}

/// Proves that a list of packets encodes at most one request. Each list that the judge accepts as a
/// whole request encodes one.
pub fn one_meaning()
    ensures one { (limits : Limits) (format : Format) → OneMeaning (Says limits format) }
    ensures whole { (limits : Limits) (format : Format)
        → SaysWhole (judge limits format) (Says limits format) }
{}

/// Proves that no request is a prefix of another, as packets or as bytes. A reader therefore finds
/// the end of a request without reading further.
pub fn prefix_free()
    ensures packets { (limits : Limits) (format : Format) → IsPrefixFree (judge limits format) }
    ensures spellings { (limits : Limits) (format : Format)
        → SpellingsPrefixFree (judge limits format) }
{
    grammars_are_exact();
    messages_are_read();
}

/// Proves that the packets accepted so far can always be completed to a request, and that a
/// rejected packet is the first that fits no request.
pub fn endings()
    ensures each { (limits : Limits) (format : Format) → HasEndings (judge limits format) }
    ensures first { (limits : Limits) (format : Format)
        → RefusesFirstMisfits (judge limits format) }
{
    grammars_are_exact();
}

/// Proves that the grammar rejects a packet only because of its content. Every byte sequence begins
/// with a request, or is rejected because of its content.
pub fn every_input()
    ensures packets { (limits : Limits) (format : Format) → RefusesPackets (judge limits format) }
    ensures bytes { (limits : Limits) (format : Format)
        → BeginsOrIsRefused (judge limits format) brings }
{
    endings();
    messages_are_read();
}

/// Proves that the packets written for a request encode the request, and that each payload fits a
/// packet.
pub fn canonical_says()
    ensures { (limits : Limits) (format : Format)
        → CanonicalSays (Says limits format) (IsAsked limits format) (IsCanonicalRequest format) }
{
    grammars_are_exact();
    ids_have_one_format();
    ids_have_texts();
    prefixes_are_clean();
}

/// Proves that a request is read exactly if the input begins with packets that encode it. Nothing
/// after these packets is read. The reader returns `None` exactly if the input is empty.
pub fn reads_exactly()
    ensures request { (limits : Limits) (format : Format)
        → ReadsExactlyIfAny (judge limits format) brings (Says limits format) }
    ensures missing { (limits : Limits) (format : Format) → IsMissingWhereEmpty limits format }
{
    one_meaning();
    messages_are_read();
    has_four_bytes();
    kinds_are_read::<Requests>();
}

/// Proves that reading a written request with its own limits returns the same request, even if
/// other bytes follow.
pub fn reads_back()
    ensures { (limits : Limits) (format : Format)
        → ReadsBackIfAny (judge limits format) brings (Says limits format) (IsAsked limits format)
        (IsCanonicalRequest format) }
{
    one_meaning();
    canonical_says();
    kinds_are_read::<Requests>();
}

// Requests, as a kind of message.
struct Requests;

impl MessageKind for Requests {
    ghost use Rattle.gname.specs.declared.formats.Format.{Format};
    ghost use Rattle.ggrammar.specs.declared.limits.Limits.{Limits};
    ghost use Rattle.grequest.specs.Asked.{Asked};
    ghost use Rattle.grequest.specs.Requests.{Says, brings, judge};
    ghost use Rattle.grequest.specs.RequestWriting.{IsCanonicalRequest};
    ghost use Rattle.grequest.specs.WellFormed.{IsAsked};

    // The limits on a request, and the format of the repository's objects.
    ghost Given = { Limits × Format };

    ghost Said = { Asked };

    ghost judge = { λ given. judge given.0 given.1 };

    ghost brings = { λ given. brings };

    ghost says = { λ given. Says given.0 given.1 };

    ghost is_value = { λ given. IsAsked given.0 given.1 };

    ghost is_canonical = { λ given. IsCanonicalRequest given.1 };
}
