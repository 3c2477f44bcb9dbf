//! Laws about hellos and advertisements. Each function does nothing at run time, and its contract
//! states the law.

ghost use Rattle.std.specs.Prelude.{◌≡◌};
ghost use Rattle.ggrammar.specs.Grammar.{HasEndings, IsPrefixFree, RefusesFirstMisfits};
ghost use Rattle.ggrammar.specs.Kinds.{AsInManual, CanonicalSays, OneMeaning, ReadsBack, ReadsExactly, SaysWhole};
ghost use Rattle.ggrammar.specs.MessageBytes.{BeginsOrIsRefused, RefusesPackets, SpellingsPrefixFree};
ghost use Rattle.ghello.specs.Laws.{PayloadSaysHello};
ghost use Rattle.ghello.specs.Hello as hello;
ghost use Rattle.ghello.specs.Adverts as advert;

use crate::{MAX_ADVERTISED, MAX_HOST, MAX_PATH};
use ggrammar::MessageKind;
use ggrammar::laws::{
    grammars_are_exact, kinds_are_read, messages_are_read, texts_are_classified, texts_are_read,
};
use gpkt::laws::text_reads_back;

// The kind of message "hello".
struct Hellos;

impl MessageKind for Hellos {
    ghost use Rattle.ghello.specs.Hello as hello;

    ghost Given = { Unit {0} };

    ghost Said = { hello.Hello };

    ghost judge = { λ _. hello.judge };

    ghost brings = { λ _. hello.brings };

    ghost says = { λ _. hello.Says };

    ghost is_value = { λ _. hello.IsHello };

    ghost is_canonical = { λ _. hello.IsCanonical };
}

// The kind of message "advertisement".
struct Adverts;

impl MessageKind for Adverts {
    ghost use Rattle.std.specs.Prelude.{List};
    ghost use Rattle.ggrammar.specs.Capabilities.{Capability};
    ghost use Rattle.ghello.specs.Adverts as advert;

    ghost Given = { Unit {0} };

    ghost Said = { List Capability };

    ghost judge = { λ _. advert.judge };

    ghost brings = { λ _. advert.brings };

    ghost says = { λ _. advert.Says };

    ghost is_value = { λ _. advert.AreCapabilities };

    ghost is_canonical = { λ _. advert.IsCanonical };
}

/// Proves that the public constants equal the limits in the specs.
pub fn limits_are_the_constants()
    ensures path { MAX_PATH ≡ hello.max_path }
    ensures host { MAX_HOST ≡ hello.max_host }
    ensures advertised { MAX_ADVERTISED ≡ advert.max_advertised }
{}

/// Proves that a list of packets encodes at most one hello and at most one advertisement.
pub fn one_meaning()
    ensures hello { OneMeaning hello.Says }
    ensures advert { OneMeaning advert.Says }
{}

/// Proves that no hello is a prefix of another hello, and no advertisement is a prefix of another
/// advertisement, as packets or as bytes.
pub fn prefix_free()
    ensures hello { IsPrefixFree hello.judge }
    ensures hello_spellings { SpellingsPrefixFree hello.judge }
    ensures advert { IsPrefixFree advert.judge }
    ensures advert_spellings { SpellingsPrefixFree advert.judge }
{
    grammars_are_exact();
    messages_are_read();
}

/// Proves that the grammar of advertisements accepts exactly the advertisements that the manual and
/// the limits allow, with the values that the manual states (gitprotocol-v2(5), "Capability
/// Advertisement"). A list of packets is a complete hello if and only if it encodes a hello
/// (gitprotocol-pack(5), "Git Transport"). The grammar of hellos is narrower than the manual's: the
/// host and the version are mandatory, and no other parameter is allowed.
pub fn manual()
    ensures hello { SaysWhole hello.judge hello.Says }
    ensures hello_payload { PayloadSaysHello }
    ensures advert { AsInManual advert.Says advert.IsAdvert }
    ensures advert_whole { SaysWhole advert.judge advert.Says }
{
    text_reads_back();
    texts_are_read();
    grammars_are_exact();
}

/// Proves that every accepted prefix of a hello or of an advertisement can be completed. A refused
/// packet is the first packet that fits no message.
pub fn endings()
    ensures hello { HasEndings hello.judge }
    ensures hello_first { RefusesFirstMisfits hello.judge }
    ensures advert { HasEndings advert.judge }
    ensures advert_first { RefusesFirstMisfits advert.judge }
{
    grammars_are_exact();
}

/// Proves that the grammars refuse a packet only because of its contents. Any input either begins
/// with a hello or is refused as a hello because of its bytes. The same is true for advertisements.
pub fn every_input()
    ensures hello_packets { RefusesPackets hello.judge }
    ensures hello { BeginsOrIsRefused hello.judge hello.brings }
    ensures advert_packets { RefusesPackets advert.judge }
    ensures advert { BeginsOrIsRefused advert.judge advert.brings }
{
    endings();
    messages_are_read();
}

/// Proves that the packets that are written for a hello or an advertisement encode that message,
/// and that each payload fits in a packet.
pub fn canonical_says()
    ensures hello { CanonicalSays hello.Says hello.IsHello hello.IsCanonical }
    ensures advert { CanonicalSays advert.Says advert.AreCapabilities advert.IsCanonical }
{
    text_reads_back();
    texts_are_classified();
    manual();
}

/// Proves that the readers return a hello or an advertisement exactly when the input begins with
/// it, and read nothing after it.
pub fn reads_exactly()
    ensures hello { ReadsExactly hello.judge hello.brings hello.Says }
    ensures advert { ReadsExactly advert.judge advert.brings advert.Says }
{
    one_meaning();
    manual();
    kinds_are_read::<Hellos>();
    kinds_are_read::<Adverts>();
}

/// Proves that a written hello or advertisement reads back as the same value, even if other bytes
/// follow.
pub fn reads_back()
    ensures hello { ReadsBack hello.judge hello.brings hello.Says hello.IsHello hello.IsCanonical }
    ensures advert { ReadsBack advert.judge advert.brings advert.Says advert.AreCapabilities
        advert.IsCanonical }
{
    one_meaning();
    manual();
    canonical_says();
    kinds_are_read::<Hellos>();
    kinds_are_read::<Adverts>();
}
