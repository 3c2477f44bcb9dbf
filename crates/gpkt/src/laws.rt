//! Laws about packets. Each function does nothing at run time, and its contract states the law.

ghost use Rattle.std.specs.Prelude.{◌≡◌};
ghost use Rattle.gpkt.specs.Bands.{BandFits, BandIsPayload, BandIsRead, max_band};
ghost use Rattle.gpkt.specs.Laws.{CanonicalJoins, CanonicalSpells, CanonicalSpellsAll, EveryFront, FailsOfMore, HasFourBytes, OneBegins, OneFault, OneOutcome, OneReading, PushesWritten, ReadsJoin, ReadsNext, ReadsNone, RefusedIsNoPacket, SpellingsJoin, SpellingsSplit, TextOfLine, TextOrLine, WritesJoin};
ghost use Rattle.gpkt.specs.Packets.{max_packet, max_payload};

use crate::device::Sink;
use crate::{MAX_BAND, MAX_PACKET, MAX_PAYLOAD};

/// Proves that the public constants equal the limits in the specs.
pub fn limits_are_the_constants()
    ensures packet { MAX_PACKET ≡ max_packet }
    ensures payload { MAX_PAYLOAD ≡ max_payload }
    ensures band { MAX_BAND ≡ max_band }
{}

/// Proves that a sequence of bytes begins with at most one encoded packet, which ends at only one
/// position.
#[tactic(auto, using(crate::proofs::Readings::one_reading_lem))]
pub fn one_reading()
    ensures { OneReading }
{}

/// Proves that a sequence of bytes that a reader rejects does not begin with an encoded packet. A
/// reader can reject the sequence for only one reason.
#[tactic(auto, using(crate::proofs::Readings::refused_lem, crate::proofs::Fronts::one_fault_lem))]
pub fn refused_front()
    ensures no_packet { RefusedIsNoPacket }
    ensures one_fault { OneFault }
{}

/// Proves that the input bytes determine the result of a read and the remaining bytes, unless the
/// source fails or the reader had failed before.
#[tactic(auto, using(crate::proofs::Fronts::one_outcome_lem))]
pub fn one_outcome()
    ensures { OneOutcome }
{}

/// Proves that every byte sequence is empty, or begins with an encoded packet, or is rejected by a
/// reader with a fault.
pub fn every_front()
    ensures { EveryFront }
{}

/// Proves that an encoded packet has at least four bytes.
#[tactic(auto, using(crate::proofs::Readings::has_four_bytes_lem))]
pub fn has_four_bytes()
    ensures { HasFourBytes }
{}

/// Proves that the canonical form of a packet, or of a list of packets, is one of its encodings.
#[tactic(auto, using(crate::proofs::Readings::canonical_spells_lem, crate::proofs::Readings::canonical_spells_all_lem, crate::proofs::Readings::canonical_joins_lem))]
pub fn canonical_spells()
    ensures line { CanonicalSpells }
    ensures lines { CanonicalSpellsAll }
    ensures joins { CanonicalJoins }
{}

/// Proves that the encodings of two concatenated lists of packets are exactly the encodings of the
/// first list followed by encodings of the second.
#[tactic(auto, using(crate::proofs::Readings::spellings_join_lem, crate::proofs::Readings::spellings_split_lem))]
pub fn spellings_join()
    ensures join { SpellingsJoin }
    ensures split { SpellingsSplit }
{}

/// Proves that, if the same bytes begin with the encodings of two lists of packets, one list is a
/// prefix of the other.
#[tactic(auto, using(crate::proofs::Readings::one_begins_lem))]
pub fn one_begins()
    ensures { OneBegins }
{}

/// Proves that `text_of` returns the text of a payload that consists of a text and a line feed.
/// From any other payload `text_of` removes at most a final line feed.
pub fn text_reads_back()
    ensures line { TextOfLine }
    ensures nothing_else { TextOrLine }
{}

/// Proves that a payload decodes to a band exactly when it consists of the band byte followed by
/// the bytes of that band. The payload fits into a packet exactly when it has at most
/// [`MAX_BAND`](crate::MAX_BAND) bytes after the band byte.
#[tactic(auto, using(crate::proofs::Bands::band_is_read, crate::proofs::Bands::band_is_payload))]
pub fn bands_are_read()
    ensures payload { BandIsRead }
    ensures nothing_else { BandIsPayload }
    ensures fits { BandFits }
{}

/// Proves that consecutive reads of packets consume the encodings of all the packets, in sequence.
#[tactic(auto, using(crate::proofs::Joins::reads_none, crate::proofs::Joins::reads_next, crate::proofs::Joins::reads_join))]
pub fn reads_join()
    ensures none { ReadsNone }
    ensures next { ReadsNext }
    ensures join { ReadsJoin }
{}

/// Proves that consecutive writes have the effect of a single write of all the bytes, and that a
/// push flushes all the written bytes.
#[tactic(auto, using(crate::proofs::Joins::writes_join, crate::proofs::Joins::fails_of_more, crate::proofs::Joins::pushes_written))]
pub fn writes_join<W: Sink>()
    ensures join { WritesJoin W.contents W.passed_on W.is_down W.loans }
    ensures failed { FailsOfMore W.contents W.passed_on W.is_down W.loans }
    ensures pushed { PushesWritten W.contents W.passed_on W.is_down W.loans }
{}
