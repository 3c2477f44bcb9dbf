//! The hello: the first line that a client sends on a `git://` connection (gitprotocol-pack(5),
//! "Git Transport").

ghost use Rattle.std.specs.Prelude.{◌≡◌, ◌<◌, ◌≤◌, ◌∷◌, [], IfOk, IfErr, IfSome, length, position, is_some, ⊤};
ghost use Rattle.std.specs.List.{slice_split};
ghost use Rattle.std.specs.Option.{option_copied, option_map, option_map_or};
ghost use Rattle.gpkt.specs.Packets.{max_payload, packet_of};
ghost use Rattle.gpkt.specs.Change.{change_of};
ghost use Rattle.ggrammar.specs.Kinds.{ReadsOrRefuses};
ghost use Rattle.ggrammar.specs.MessageReading.{LeavesReader, TakesAs};
ghost use Rattle.ggrammar.specs.Writing.{WritesPackets};
ghost use Rattle.ghello.specs.Hello.{IsHello, MakesHello, Says, brings, canonical_hello, hello_payload, hello_of, hello_of_parts, hello_with, is_host, is_nul, is_path, judge, judge_payload, max_host, max_path};
ghost use Rattle.ghello.specs.steps.HelloReading.{hello_in, hello_view};

use arrayvec::ArrayVec;
use ggrammar::compose::add;
use ggrammar::laws::{grammars_are_exact, writes_packets};
use ggrammar::{
    Message, MessageFault, Step, Why, after_word, are_graphic, are_printable, read_message,
};
use gpkt::{Packet, PacketReader, PacketWriter, Sink, Source, WriteFault};
use std::alloc::{AllocError, Allocator};
use std::marker::Model;

/// The maximum length of a path in bytes.
pub const MAX_PATH: usize = 1_000;

/// The maximum length of a host in bytes.
pub const MAX_HOST: usize = 255;

// The fixed words of the payload: before the path, before the host, and at the end.
const COMMAND: &[u8] = b"git-upload-pack ";

const HOST: &[u8] = b"host=";

const VERSION: &[u8] = b"version=2";

// The byte that ends each part of the payload.
const NUL: &[u8] = b"\0";

// The maximum length of the payload in bytes: three words, a path, a host, and four NULs.
const MAX_LINE: usize = 1_289;

/// The first line of a client on a `git://` connection: the path of the requested repository, and
/// the host.
#[derive(Debug, Drop)]
pub struct Hello<A: Allocator + Copy> {
    path: Vec<u8, A>,
    host: Vec<u8, A>,
}

impl<A: Allocator + Copy> Model for Hello<A> {
    ghost use Rattle.ghello.specs.Hello.{Hello, IsHello};

    ghost Value = { Hello };

    ghost view = { λ hello. record { path = hello.path.items; host = hello.host.items } };

    ghost invariant = { λ hello. IsHello (record { path = hello.path.items; host = hello.host.items }) };
}

impl<A: Allocator + Copy> Hello<A> {
    /// Returns a hello for a path and a host. A path begins with a slash and has at most 1,000
    /// bytes, from space to `~`. A host has 1 to 255 bytes, from `!` to `~`.
    ///
    /// Fails with `BadText` if the path or the host is malformed, and otherwise with `Memory` if
    /// there is not enough memory for the hello. The fault reports packet position 0.
    pub fn new(alloc: A, path: &[u8], host: &[u8]) -> Result<Hello<A>, MessageFault>
        ensures { MakesHello (record { path = path.now; host = host.now }) result }
    {
        if !is_path(path) || !is_host(host) {
            return Err(MessageFault::of_value(Why::BadText));
        }
        match Hello::keep(alloc, path, host) {
            Ok(hello) => Ok(hello),
            Err(_) => Err(MessageFault::of_value(Why::Memory)),
        }
    }

    // Copies a valid path and a valid host into a hello.
    fn keep(alloc: A, path: &[u8], host: &[u8]) -> Result<Hello<A>, AllocError>
        requires { IsHello (record { path = path.now; host = host.now }) }
        ensures { IfOk result (λ hello. hello ≡ record { path = path.now; host = host.now }) }
    {
        let path = Vec::from_slice(alloc, path)?;
        let host = Vec::from_slice(alloc, host)?;
        Ok(Hello { path, host })
    }

    /// Returns the path of the repository with its leading slash, at most 1,000 bytes.
    #[tactic(auto, using(crate::proofs::HelloLemmas::path_within))]
    pub fn path(&self) -> &[u8]
        ensures path { result.now ≡ self.now.path }
        ensures form { IsHello self.now }
        ensures within { length self.now.path ≤ max_path }
    {
        self.path.as_slice()
    }

    /// Returns the host that the client names, 1 to 255 bytes.
    #[tactic(auto, using(crate::proofs::HelloLemmas::host_within))]
    pub fn host(&self) -> &[u8]
        ensures host { result.now ≡ self.now.host }
        ensures form { IsHello self.now }
        ensures within { length self.now.host ≤ max_host }
    {
        self.host.as_slice()
    }
}

/// Returns whether the bytes are a path: a leading slash, and at most 1,000 bytes from space to
/// `~`.
#[tactic(auto, unfolding(crate::specs::Hello::is_path))]
pub fn is_path(path: &[u8]) -> bool
    ensures { result ≡ is_path path.now }
{
    path.starts_with(b"/") && path.len() <= MAX_PATH && are_printable(path)
}

/// Returns whether the bytes are a host: 1 to 255 bytes from `!` to `~`.
#[tactic(auto, unfolding(crate::specs::Hello::is_host))]
pub fn is_host(host: &[u8]) -> bool
    ensures { result ≡ is_host host.now }
{
    1 <= host.len() && host.len() <= MAX_HOST && are_graphic(host)
}

/// Reads a hello, and nothing after it.
///
/// A fault reports packet position 0. A fault of the packet reader takes precedence over the end of
/// the input. The fault is `UnexpectedFrame` for a flush, a delimiter or a response-end. The fault
/// is `BadText` for a malformed payload, even if the payload is an `ERR` text, and `Memory` only if
/// there is not enough memory for the hello. After a refusal, the packet reader is unusable if and
/// only if the fault is [`Why::Line`].
pub fn read_hello<S: Source, A: Allocator + Copy, B: Allocator + Copy>(
    reader: &mut PacketReader<S, B>,
    alloc: A,
) -> Result<Hello<A>, MessageFault>
    ensures read { ReadsOrRefuses judge brings Says
        (change_of S.remaining reader.old.source reader.new.source) result }
    ensures first { IfErr result (λ fault. fault.frame ≡ 0) }
    ensures loans { S.loans reader.new.source ≡ S.loans reader.old.source }
    ensures reader { LeavesReader S.is_down reader.old reader.new result }
{
    let mut message = HelloReader { alloc, hello: None };
    read_message(reader, &mut message)?;
    let HelloReader { hello, .. } = message;
    match hello {
        Some(hello) => Ok(hello),
        None => unreachable!(),
    }
}

/// Writes a hello as one packet. A reader of the packet returns the same hello
/// ([`reads_back`](crate::laws::reads_back)). Allocates nothing.
///
/// Fails with `Io` if the sink fails; a prefix of the packet may then have been written. Fails with
/// `Failed` if the writer had failed before.
#[tactic(auto, unfolding(crate::specs::Hello::canonical_hello))]
pub fn write_hello<A: Allocator + Copy, W: Sink>(
    hello: &Hello<A>,
    writer: &mut PacketWriter<W>,
) -> Result<(), WriteFault>
    ensures lines { WritesPackets W.contents W.passed_on W.is_down W.loans writer.old writer.new
        result (canonical_hello hello.now) }
    ensures form { IsHello hello.now }
{
    // Laws that the proof uses.
    writes_packets::<W>();
    let mut line = ArrayVec::new();
    compose(hello, &mut line);
    writer.put(line.as_slice())
}

// Writes the payload of a hello into the buffer.
fn compose<A: Allocator + Copy>(hello: &Hello<A>, line: &mut ArrayVec<u8, MAX_LINE>)
    requires { line.old.items ≡ [] }
    ensures line { line.new.items ≡ hello_payload hello.now }
    ensures short { length line.new.items ≤ max_payload }
    ensures form { IsHello hello.now }
{
    add(COMMAND, line);
    add(hello.path(), line);
    add(NUL, line);
    add(HOST, line);
    add(hello.host(), line);
    add(NUL, line);
    add(NUL, line);
    add(VERSION, line);
    add(NUL, line);
}

// The path and the host of a payload, borrowed from its bytes.
#[derive(Clone, Copy, Debug, PartialEq, Eq)]
struct HelloText<'a> {
    path: &'a [u8],
    host: &'a [u8],
}

// Returns the text before the first NUL, and the text after it. If there is no NUL, returns the
// whole text and `None`.
fn cut(text: &[u8]) -> (&[u8], Option<&[u8]>)
    ensures { slice_split is_nul text.now
        ≡ result.0.now ∷ option_map_or (λ rest. slice_split is_nul rest.now) result.1 [] }
{
    match first_nul(text) {
        Some(at) => (&text[..at], Some(&text[at + 1..])),
        None => (text, None),
    }
}

// Returns the position of the first NUL, if any.
fn first_nul(text: &[u8]) -> Option<usize>
    ensures place { result ≡ position is_nul text.now }
    ensures within { IfSome result (λ at. at < length text.now) }
{
    text.iter().position(|byte| *byte == 0)
}

// Returns the path and the host of a payload, or `None` if the payload is malformed.
#[tactic(auto, unfolding(crate::specs::Hello::hello_of))]
fn hello_of(payload: &[u8]) -> Option<HelloText<'_>>
    ensures { option_map hello_view result ≡ hello_of payload.now }
{
    let (command, rest) = cut(payload);
    let (host, rest) = cut(rest?);
    let (gap, rest) = cut(rest?);
    let (version, rest) = cut(rest?);
    let (end, more) = cut(rest?);
    if !gap.is_empty() || !end.is_empty() {
        return None;
    }
    match more {
        Some(_) => None,
        None => hello_of_words(command, host, version),
    }
}

// Returns the path and the host of a payload with these three parts, or `None` if a part is
// malformed.
fn hello_of_words<'a>(command: &'a [u8], host: &'a [u8], version: &[u8]) -> Option<HelloText<'a>>
    ensures { option_map hello_view result
        ≡ hello_of_parts (command.now ∷ host.now ∷ [] ∷ version.now ∷ [] ∷ []) }
{
    if version != VERSION {
        return None;
    }
    hello_with(after_word(COMMAND, command), after_word(HOST, host))
}

fn hello_with<'a>(path: Option<&'a [u8]>, host: Option<&'a [u8]>) -> Option<HelloText<'a>>
    ensures { option_map hello_view result
        ≡ hello_with (option_copied path.entry) (option_copied host.entry) }
{
    match (path, host) {
        (Some(path), Some(host)) if is_path(path) && is_host(host) => {
            Some(HelloText { path, host })
        }
        _ => None,
    }
}

/// A hello that is being read.
#[derive(Drop)]
pub struct HelloReader<A: Allocator + Copy> {
    alloc: A,
    hello: Option<Hello<A>>,
}

impl<A: Allocator + Copy> HelloReader<A> {
    /// Returns a reader that has not read any packet yet.
    pub fn new(alloc: A) -> HelloReader<A>
        ensures { result.hello ≡ None }
    {
        HelloReader { alloc, hello: None }
    }

    /// Returns the hello that was read, or `None` if no packet was accepted.
    pub fn finish(self) -> Option<Hello<A>>
        ensures { result ≡ self.hello }
    {
        let HelloReader { hello, .. } = self;
        hello
    }

    fn take_packet(&mut self, line: Packet<'_>) -> Result<Step, Why>
        ensures { TakesAs (judge [] (packet_of line.entry)) (brings [] (packet_of line.entry))
            (self.new.hello ≡ hello_in (packet_of line.entry ∷ [])) result }
    {
        match line {
            Packet::Data(payload) => self.take_payload(payload),
            Packet::Flush | Packet::Delim | Packet::ResponseEnd => Err(Why::UnexpectedFrame),
        }
    }

    fn take_payload(&mut self, payload: &[u8]) -> Result<Step, Why>
        ensures { TakesAs (judge_payload (hello_of payload.now)) (is_some (hello_of payload.now))
            (self.new.hello ≡ hello_of payload.now) result }
    {
        let Some(text) = hello_of(payload) else {
            return Err(Why::BadText);
        };
        match Hello::keep(self.alloc, text.path, text.host) {
            Ok(hello) => {
                self.hello = Some(hello);
                Ok(Step::Whole)
            }
            Err(_) => Err(Why::Memory),
        }
    }
}

impl<A: Allocator + Copy> Message for HelloReader<A> {
    ghost judge = { λ _. judge };

    ghost brings = { λ _. brings };

    ghost holds = { λ reader packets. reader.hello ≡ hello_in packets };

    ghost left = { λ reader packets. ⊤ };

    fn accept_packet(&mut self, line: Packet<'_>) -> Result<Step, Why> {
        self.take_packet(line)
    }

    fn laws() {
        grammars_are_exact();
    }
}
