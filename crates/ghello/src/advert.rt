//! The capability advertisement (gitprotocol-v2(5), "Capability Advertisement").

ghost use Rattle.std.specs.Prelude.{All, map, ◌≡◌, ◌<◌, ◌≤◌, ◌↔◌, ◌++◌, ◌∷◌, [], IsTrue, IfSome, OnOk, OnErr, IfOk, MatchResult, None, Some, true, false, length, slice_get, codes, ⊤};
ghost use Rattle.std.specs.List.{list_any};
ghost use Rattle.std.specs.Option.{option_copied, option_map, option_to_list};
ghost use Rattle.gname.specs.declared.formats.Format.TheVariants.{Sha1};
ghost use Rattle.gpkt.specs.Packets.{Data, Flush, packet_of, text};
ghost use Rattle.gpkt.specs.Change.{change_of};
ghost use Rattle.ggrammar.specs.Capabilities.{IsWellFormed, capability_of, capability_text, max_capability};
ghost use Rattle.ggrammar.specs.CapabilityView.{capability_view};
ghost use Rattle.ggrammar.specs.Building.{Builds};
ghost use Rattle.ggrammar.specs.Kinds.{ReadsOrRefuses};
ghost use Rattle.ggrammar.specs.MessageReading.{LeavesReader, TakesAs};
ghost use Rattle.ggrammar.specs.Texts.{text_packet, is_space};
ghost use Rattle.ggrammar.specs.Writing.{WritesPackets, WritesPart};
ghost use Rattle.ghello.specs.Adverts.{AreCapabilities, Says, brings, canonical_advert, capability_packet, version, has_room, is_capability, is_value_or_none, judge, judge_version, judge_capability, max_advertised};
ghost use Rattle.ghello.specs.Offers.{IsFormatOf, check_fault, first_with, has_feature, is_of_format, has_key, has_word, is_name_of, lacks_command, named_format};
ghost use Rattle.ghello.specs.steps.AdvertReading.{IsKept, added_by, brings_after, judge_after};

use arrayvec::ArrayVec;
use ggrammar::compose::add;
use ggrammar::laws::{grammars_are_exact, texts_are_classified, texts_are_read, writes_packets};
use ggrammar::{
    Capability, Message, MessageFault, PeerText, Step, Why, capability_of, is_key, is_value,
    peer_error, read_message,
};
use gname::Format;
use gpkt::{Packet, PacketReader, PacketWriter, Sink, Source, WriteFault, text_of};
use std::alloc::{AllocError, Allocator};
use std::marker::Model;

/// The maximum number of capabilities that a server advertises.
pub const MAX_ADVERTISED: usize = 64;

// The text of the first line of an advertisement.
const VERSION: &[u8] = b"version 2";

// The maximum length of a capability's text in bytes: a key, `=` and a value.
const MAX_TEXT: usize = 2_001;

// The commands that a client requires of a server.
const LS_REFS: &[u8] = b"ls-refs";

const FETCH: &[u8] = b"fetch";

// The key of the capability that names the object format.
const OBJECT_FORMAT: &[u8] = b"object-format";

// A capability with owned bytes.
#[derive(Debug, Drop)]
struct OwnedCapability<A: Allocator + Copy> {
    key: Vec<u8, A>,
    value: Option<Vec<u8, A>>,
}

impl<A: Allocator + Copy> Model for OwnedCapability<A> {
    ghost use Rattle.std.specs.Option.{option_map};
    ghost use Rattle.ggrammar.specs.Capabilities.{Capability};

    ghost Value = { Capability };

    ghost view = { λ kept. record {
      key = kept.key.items;
      value = option_map (λ value. value.items) kept.value;
    } };
}

impl<A: Allocator + Copy> OwnedCapability<A> {
    fn new(alloc: A, capability: Capability<'_>) -> Result<OwnedCapability<A>, AllocError>
        ensures { IfOk result (λ kept. kept ≡ capability_view capability.entry) }
    {
        let key = Vec::from_slice(alloc, capability.key)?;
        let value = match capability.value {
            Some(value) => Some(Vec::from_slice(alloc, value)?),
            None => None,
        };
        Ok(OwnedCapability { key, value })
    }

    fn as_capability(&self) -> Capability<'_>
        ensures { capability_view result ≡ self.now }
    {
        Capability {
            key: self.key.as_slice(),
            value: self.value.as_ref().map(|value| value.as_slice()),
        }
    }

    // Writes the capability as one packet.
    fn write<W: Sink>(&self, writer: &mut PacketWriter<W>) -> Result<(), WriteFault>
        requires { IsWellFormed self.now }
        ensures { WritesPackets W.contents W.passed_on W.is_down W.loans writer.old writer.new result
            (capability_packet self.now ∷ []) }
    {
        // Laws that the proof uses.
        writes_packets::<W>();
        let mut text = ArrayVec::new();
        compose(self.as_capability(), &mut text);
        writer.text(text.as_slice())
    }

    fn has_key(&self, key: &[u8]) -> bool
        ensures { result ≡ has_key key.now self.now }
    {
        self.key.as_slice() == key
    }
}

/// The advertisement of a server (gitprotocol-v2(5), "Capability Advertisement"): its capabilities
/// in order, at most 64.
#[derive(Debug, Drop)]
pub struct Advert<A: Allocator + Copy> {
    alloc: A,
    capabilities: Vec<OwnedCapability<A>, A>,
}

impl<A: Allocator + Copy> Model for Advert<A> {
    ghost use Rattle.std.specs.Prelude.{List};
    ghost use Rattle.ggrammar.specs.Capabilities.{Capability};
    ghost use Rattle.ghello.specs.Adverts.{AreCapabilities};

    ghost Value = { List Capability };

    ghost view = { λ advert. advert.capabilities.items };

    ghost invariant = { λ advert. AreCapabilities advert.capabilities.items };
}

impl<A: Allocator + Copy> Advert<A> {
    /// Returns an advertisement without capabilities. Allocates nothing.
    pub fn new(alloc: A) -> Advert<A>
        ensures { result ≡ [] }
    {
        Advert {
            alloc,
            capabilities: Vec::new(alloc),
        }
    }

    /// Appends a capability.
    ///
    /// Fails with `BadText` unless the key is 1 to 1,000 letters, digits, `-` and `_`, and the
    /// value, if any, is 1 to 1,000 bytes from space to `~`. Otherwise fails with `Limit` if the
    /// advertisement already has 64 capabilities, or with `Memory` if memory runs out. The fault
    /// reports packet position 0, and a failed call leaves the advertisement unchanged.
    pub fn push(&mut self, capability: Capability<'_>) -> Result<(), MessageFault>
        ensures { Builds (is_capability (capability_view capability.entry)) (has_room self.old)
            self.old self.new (self.old ++ capability_view capability.entry ∷ []) result }
    {
        if !is_capability(capability) {
            return Err(MessageFault::of_value(Why::BadText));
        }
        if self.capabilities.len() >= MAX_ADVERTISED {
            return Err(MessageFault::of_value(Why::Limit));
        }
        match self.add(capability) {
            Ok(()) => Ok(()),
            Err(_) => Err(MessageFault::of_value(Why::Memory)),
        }
    }

    // Appends a capability to an advertisement that has fewer than 64 capabilities.
    fn add(&mut self, capability: Capability<'_>) -> Result<(), AllocError>
        requires form { IsWellFormed (capability_view capability) }
        requires room { length self.old < max_advertised }
        ensures ok { OnOk result (self.new ≡ self.old ++ capability_view capability.entry ∷ []) }
        ensures err { OnErr result (self.new ≡ self.old) }
    {
        let capability = OwnedCapability::new(self.alloc, capability)?;
        self.capabilities.push(capability)?;
        Ok(())
    }

    /// Returns the number of capabilities, at most 64.
    pub fn len(&self) -> usize
        ensures count { result ≡ length self.now }
        ensures form { AreCapabilities self.now }
    {
        self.capabilities.len()
    }

    /// Returns whether the advertisement has no capabilities.
    pub fn is_empty(&self) -> bool
        ensures { IsTrue result ↔ (self.now ≡ []) }
    {
        self.capabilities.is_empty()
    }

    /// Returns the capability at index `place`, or `None` if `place` is past the last capability.
    pub fn at(&self, place: usize) -> Option<Capability<'_>>
        ensures capability { option_map capability_view result ≡ slice_get self.now place }
        ensures form { AreCapabilities self.now }
    {
        let capability = self.capabilities.get(place)?;
        Some(capability.as_capability())
    }

    /// Returns the first capability that has this key, together with its value. Returns `None` if
    /// no capability has the key.
    pub fn value_of(&self, key: &[u8]) -> Option<Capability<'_>>
        ensures { option_map capability_view result ≡ first_with key.now self.now }
    {
        first_with(key, self.capabilities.as_slice()).map(|capability| capability.as_capability())
    }

    /// Returns whether the value of the first capability with this key contains `word` as one of
    /// its space-separated words. For example, a server can report an unborn `HEAD` if the value of
    /// its `ls-refs` capability contains `unborn` (gitprotocol-v2(5), "ls-refs").
    pub fn has_feature(&self, key: &[u8], word: &[u8]) -> bool
        ensures { result ≡ has_feature key.now word.now self.now }
    {
        match self.value_of(key) {
            Some(capability) => has_word(capability.value, word),
            None => false,
        }
    }

    /// Returns the format of the server's ids. The value of the first `object-format` capability
    /// names the format. Without this capability, the format is SHA-1 (gitprotocol-v2(5),
    /// "object-format"). Returns `None` if the first `object-format` names neither SHA-1 nor
    /// SHA-256.
    pub fn format(&self) -> Option<Format>
        ensures { IsFormatOf self.now result }
    {
        if self.is_of_format(Format::Sha1) {
            return Some(Format::Sha1);
        }
        if self.is_of_format(Format::Sha256) {
            return Some(Format::Sha256);
        }
        None
    }

    /// Checks that a client with SHA-1 ids can use the server. Fails with the same faults as
    /// [`check_in`](Self::check_in).
    pub fn check(&self) -> Result<(), MessageFault>
        ensures { MatchResult result (λ _. check_fault Sha1 self.now ≡ None)
            (λ fault. (check_fault Sha1 self.now ≡ Some fault.why) × (fault.frame ≡ 0)) }
    {
        self.check_in(Format::Sha1)
    }

    /// Checks that a client whose ids have the given format can use the server.
    ///
    /// Fails with `UnknownCommand` if the server does not advertise both `ls-refs` and `fetch`.
    /// Otherwise fails with `Format` if the first `object-format` does not name the given format. A
    /// server without `object-format` has SHA-1 ids. The fault reports packet position 0.
    pub fn check_in(&self, format: Format) -> Result<(), MessageFault>
        ensures { MatchResult result (λ _. check_fault format self.now ≡ None)
            (λ fault. (check_fault format self.now ≡ Some fault.why) × (fault.frame ≡ 0)) }
    {
        if self.lacks_command() {
            return Err(MessageFault::of_value(Why::UnknownCommand));
        }
        if !self.is_of_format(format) {
            return Err(MessageFault::of_value(Why::Format));
        }
        Ok(())
    }

    fn lacks_command(&self) -> bool
        ensures { result ≡ lacks_command self.now }
    {
        !self.has_key(LS_REFS) || !self.has_key(FETCH)
    }

    fn has_key(&self, key: &[u8]) -> bool
        ensures { result ≡ list_any (has_key key.now) self.now }
    {
        self.capabilities
            .iter()
            .any(|capability| capability.has_key(key))
    }

    // Returns whether the server's ids have the given format. A server without `object-format` has
    // SHA-1 ids.
    fn is_of_format(&self, format: Format) -> bool
        ensures { result ≡ is_of_format format self.now }
    {
        let name = match self.value_of(OBJECT_FORMAT) {
            Some(capability) => capability.value,
            None => Some(Format::Sha1.name().as_bytes()),
        };
        match name {
            Some(name) => name == format.name().as_bytes(),
            None => false,
        }
    }
}

// Writes the text of a capability into the buffer.
fn compose(capability: Capability<'_>, text: &mut ArrayVec<u8, MAX_TEXT>)
    requires key { length capability.key.now ≤ max_capability }
    requires value { IfSome capability.value (λ value. length value.now ≤ max_capability) }
    requires empty { text.old.items ≡ [] }
    ensures text { text.new.items ≡ capability_text (capability_view capability.entry) }
    ensures short { length text.new.items ≤ MAX_TEXT }
{
    add(capability.key, text);
    if let Some(value) = capability.value {
        add(b"=", text);
        add(value, text);
    }
}

// Returns the first capability with this key, or `None` if no capability has the key.
fn first_with<'a, A: Allocator + Copy>(
    key: &[u8],
    capabilities: &'a [OwnedCapability<A>],
) -> Option<&'a OwnedCapability<A>>
    ensures { option_copied result ≡ first_with key.now capabilities.now }
{
    for capability in capabilities {
        if capability.has_key(key) {
            return Some(capability);
        }
    }
    None
}

// Returns whether the value is present and contains this word. Spaces separate the words of a
// value.
fn has_word(value: Option<&[u8]>, word: &[u8]) -> bool
    ensures { result ≡ has_word word.now (option_copied value.entry) }
{
    match value {
        Some(value) => value.split(|byte| *byte == b' ').any(|part| part == word),
        None => false,
    }
}

// Returns whether the key and the value, if any, are well-formed.
fn is_capability(capability: Capability<'_>) -> bool
    ensures { result ≡ is_capability (capability_view capability.entry) }
{
    is_key(capability.key) && is_value_or_none(capability.value)
}

fn is_value_or_none(value: Option<&[u8]>) -> bool
    ensures { result ≡ is_value_or_none (option_copied value.entry) }
{
    match value {
        Some(value) => is_value(value),
        None => true,
    }
}

/// Reads an advertisement up to and including its flush, and nothing after it.
///
/// The fault states the position of the refused packet, counted from 0. A fault of the packet
/// reader takes precedence over the end of the input, which takes precedence over an error that the
/// peer reports. Otherwise the fault is `UnexpectedFrame` for a delimiter, a response-end, or a
/// flush before the first line. The fault is `BadText` for a first line other than `version 2`, and
/// for any later line that is not a capability. The fault is `Limit` for a 65th capability, and
/// `Memory` only if there is not enough memory for a capability. After a refusal, the packet reader
/// is unusable if and only if the fault is [`Why::Line`].
pub fn read_advert<S: Source, A: Allocator + Copy, B: Allocator + Copy>(
    reader: &mut PacketReader<S, B>,
    alloc: A,
) -> Result<Advert<A>, MessageFault>
    ensures read { ReadsOrRefuses judge brings Says
        (change_of S.remaining reader.old.source reader.new.source) result }
    ensures loans { S.loans reader.new.source ≡ S.loans reader.old.source }
    ensures reader { LeavesReader S.is_down reader.old reader.new result }
{
    let mut message = AdvertReader::new(alloc);
    read_message(reader, &mut message)?;
    let AdvertReader { advert, .. } = message;
    Ok(advert)
}

/// Writes an advertisement: the version, the capabilities in order, and a flush. A reader of the
/// written bytes returns the same advertisement ([`reads_back`](crate::laws::reads_back)).
/// Allocates nothing.
///
/// Fails with `Io` if the sink fails; a prefix of the advertisement may then have been written.
/// Fails with `Failed` if the writer had failed before.
pub fn write_advert<A: Allocator + Copy, W: Sink>(
    advert: &Advert<A>,
    writer: &mut PacketWriter<W>,
) -> Result<(), WriteFault>
    ensures lines { WritesPackets W.contents W.passed_on W.is_down W.loans writer.old writer.new
        result (canonical_advert advert.now) }
    ensures form { AreCapabilities advert.now }
{
    // Laws that the proof uses.
    writes_packets::<W>();
    let capabilities = advert.capabilities.as_slice();
    write_version(writer)?;
    write_capabilities(capabilities, writer)?;
    write_flush(writer)
}

fn write_version<W: Sink>(writer: &mut PacketWriter<W>) -> Result<(), WriteFault>
    ensures { WritesPackets W.contents W.passed_on W.is_down W.loans writer.old writer.new result
        (text_packet version ∷ []) }
{
    // Laws that the proof uses.
    writes_packets::<W>();
    writer.text(VERSION)
}

fn write_flush<W: Sink>(writer: &mut PacketWriter<W>) -> Result<(), WriteFault>
    ensures { WritesPackets W.contents W.passed_on W.is_down W.loans writer.old writer.new result
        (Flush ∷ []) }
{
    // Laws that the proof uses.
    writes_packets::<W>();
    writer.flush_pkt()
}

fn write_capabilities<A: Allocator + Copy, W: Sink>(
    capabilities: &[OwnedCapability<A>],
    writer: &mut PacketWriter<W>,
) -> Result<(), WriteFault>
    requires { All IsWellFormed capabilities.now }
    ensures { WritesPart W.contents W.passed_on W.is_down W.loans writer.old writer.new result
        (map capability_packet capabilities.now) }
{
    // Laws that the proof uses.
    writes_packets::<W>();
    for capability in capabilities {
        capability.write(writer)?;
    }
    Ok(())
}

/// An advertisement that is being read.
#[derive(Drop)]
pub struct AdvertReader<A: Allocator + Copy> {
    has_version: bool,
    advert: Advert<A>,
}

impl<A: Allocator + Copy> AdvertReader<A> {
    /// Returns a reader that has not read any packet yet.
    pub fn new(alloc: A) -> AdvertReader<A>
        ensures { IsKept [] result.has_version result.advert }
    {
        AdvertReader {
            has_version: false,
            advert: Advert::new(alloc),
        }
    }

    /// Returns the advertisement that the accepted packets encode.
    pub fn finish(self) -> Advert<A>
        ensures { result ≡ self.advert }
    {
        let AdvertReader { advert, .. } = self;
        advert
    }

    #[tactic(auto, unfolding(crate::specs::Adverts::judge_at))]
    fn take_packet(&mut self, line: Packet<'_>) -> Result<Step, Why>
        ensures { TakesAs (judge_after self.old.has_version self.old.advert (packet_of line.entry))
            (brings_after self.old.has_version (packet_of line.entry))
            ((self.new.has_version ≡ true)
            × (self.new.advert ≡ self.old.advert
            ++ added_by self.old.has_version (packet_of line.entry)))
            result }
    {
        match line {
            Packet::Data(payload) => self.take_payload(payload),
            Packet::Flush => self.take_flush(),
            Packet::Delim | Packet::ResponseEnd => Err(Why::UnexpectedFrame),
        }
    }

    #[tactic(auto, unfolding(crate::specs::Adverts::judge_at))]
    fn take_flush(&self) -> Result<Step, Why>
        ensures { TakesAs (judge_after self.now.has_version self.now.advert Flush) false
            (self.now.has_version ≡ true) result }
    {
        if self.has_version {
            Ok(Step::Whole)
        } else {
            Err(Why::UnexpectedFrame)
        }
    }

    fn take_payload(&mut self, payload: &[u8]) -> Result<Step, Why>
        ensures { TakesAs (judge_after self.old.has_version self.old.advert (Data payload.now))
            self.old.has_version
            ((self.new.has_version ≡ true)
            × (self.new.advert ≡ self.old.advert
            ++ added_by self.old.has_version (Data payload.now)))
            result }
    {
        if let Some(error) = peer_error(payload) {
            return Err(Why::RemoteErr(PeerText::new(error)));
        }
        let text = text_of(payload);
        if self.has_version {
            self.take_capability(text)
        } else {
            self.take_version(text)
        }
    }

    fn take_version(&mut self, text: &[u8]) -> Result<Step, Why>
        ensures { TakesAs (judge_version text.now) false
            ((self.new.has_version ≡ true) × (self.new.advert ≡ self.old.advert)) result }
    {
        if text != VERSION {
            return Err(Why::BadText);
        }
        self.has_version = true;
        Ok(Step::Open)
    }

    fn take_capability(&mut self, text: &[u8]) -> Result<Step, Why>
        ensures { TakesAs (judge_capability (length self.old.advert) (capability_of text.now)) true
            ((self.new.has_version ≡ self.old.has_version)
            × (self.new.advert ≡ self.old.advert ++ option_to_list (capability_of text.now)))
            result }
    {
        // Laws that the proof uses.
        texts_are_classified();
        let Some(capability) = capability_of(text) else {
            return Err(Why::BadText);
        };
        match self.advert.push(capability) {
            Ok(()) => Ok(Step::Open),
            Err(fault) => Err(fault.why),
        }
    }
}

impl<A: Allocator + Copy> Message for AdvertReader<A> {
    ghost judge = { λ _. judge };

    ghost brings = { λ _. brings };

    ghost holds = { λ reader packets. IsKept packets reader.has_version reader.advert };

    ghost left = { λ reader packets. ⊤ };

    fn accept_packet(&mut self, line: Packet<'_>) -> Result<Step, Why> {
        // Laws that the proof uses.
        texts_are_read();
        self.take_packet(line)
    }

    fn laws() {
        grammars_are_exact();
    }
}
