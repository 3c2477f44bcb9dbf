//! The packets that a client sends: a request, or no packet.

ghost use Rattle.std.specs.Prelude.{◌≡◌, ◌+◌, ◌≤◌, ◌++◌, ◌∷◌, [], IfSome, length};
ghost use Rattle.std.specs.Option.{option_copied};
ghost use Rattle.gname.specs.declared.formats.Format.{Format};
ghost use Rattle.gpkt.specs.Packets.{canonical_all, max_packet};
ghost use Rattle.ggrammar.specs.Capabilities.{max_capability};
ghost use Rattle.gtalk.specs.Talks.{queue_room};
ghost use Rattle.grequest.specs.Asked.{Fetches, Ls};
ghost use Rattle.grequest.specs.RequestValues.{asked_by_request};
ghost use Rattle.grequest.specs.RequestWriting.{agent_packets, flag_packets, format_packets, id_packet};
ghost use Rattle.grequest.specs.Requests.{agent_of};
ghost use Rattle.gfetch.specs.Saying.{SaysPart, done_of, flags_of};
ghost use Rattle.gfetch.specs.declared.asking.NextPart.TheVariants as part;

use gdialogue::{Reply, Said};
use gname::{Format, MAX_ID_TEXT, Oid};
use grequest::{FetchFlag, FetchRequest, LsRefsFlag, LsRefsRequest, Request};
use gtalk::Outgoing;
use std::alloc::Allocator;

/// The part of a request that is sent next.
#[derive(Clone, Copy)]
pub(crate) enum NextPart {
    /// The command, or the lone flush packet of an empty request.
    Command,
    /// The client's agent string, if any.
    Agent,
    /// The object format, unless it is SHA-1.
    Format,
    /// The delimiter packet before the arguments.
    Delim,
    /// The flags, without `done`.
    Flags,
    /// The prefix or the want at this position, or nothing after the last one.
    First(usize),
    /// The have at this position, or nothing after the last one.
    Have(usize),
    /// The flag `done`, if it is set.
    Done,
    /// The flush packet that ends the request.
    Flush,
}

/// A request that is sent in parts. Each part is at most one packet, except the flags.
#[derive(Drop)]
pub struct Asking<A: Allocator + Copy> {
    request: Request<A>,
    // The object format of the client's repository.
    format: Format,
    next: NextPart,
}

/// The packets that a client sends at its turn.
#[derive(Drop)]
pub enum ClientReply<A: Allocator + Copy> {
    /// A request (gitprotocol-v2(5), "Command Request").
    Request(Asking<A>),
    /// No packet.
    Silence,
}

impl<A: Allocator + Copy> ClientReply<A> {
    ghost use Rattle.grequest.specs.RequestWriting.{canonical_request};
    ghost use Rattle.gfetch.specs.Saying.{reply_rest};

    /// Returns a request before its first packet is sent. `format` is the object format of the
    /// client's repository.
    pub fn request(request: Request<A>, format: Format) -> ClientReply<A>
        ensures { reply_rest result ≡ canonical_request format (asked_by_request request) }
    {
        ClientReply::Request(Asking {
            request,
            format,
            next: NextPart::Command,
        })
    }
}

impl<A: Allocator + Copy> Reply for ClientReply<A> {
    ghost use Rattle.gdialogue.specs.Sides.{SaysExactly};
    ghost use Rattle.gfetch.specs.Saying.{reply_rest, reply_steps};

    ghost may = { SaysExactly reply_rest };

    ghost calls = { reply_steps };

    fn say<B: Allocator + Copy>(&mut self, out: &mut Outgoing<B>) -> Said {
        match self {
            ClientReply::Request(asking) => {
                match say_part(&asking.request, asking.format, asking.next, out) {
                    Some(next) => {
                        asking.next = next;
                        Said::More
                    }
                    None => Said::Whole,
                }
            }
            ClientReply::Silence => Said::Whole,
        }
    }
}

// Queues one part of a request, and returns the part that follows.
fn say_part<A: Allocator + Copy, B: Allocator + Copy>(
    request: &Request<A>,
    format: Format,
    next: NextPart,
    out: &mut Outgoing<B>,
) -> Option<NextPart>
    requires { out.old ≡ [] }
    ensures { SaysPart format (asked_by_request request.now) next out.new result }
{
    match next {
        NextPart::Command => say_command(request, out),
        NextPart::Agent => {
            say_agent(agent_of(request), out);
            Some(NextPart::Format)
        }
        NextPart::Format => {
            say_format(format, out);
            Some(NextPart::Delim)
        }
        NextPart::Delim => {
            out.put_delim();
            Some(NextPart::Flags)
        }
        NextPart::Flags => {
            say_flags(request, out);
            Some(NextPart::First(0))
        }
        NextPart::First(at) => say_first(request, at, out),
        NextPart::Have(at) => say_have(request, at, out),
        NextPart::Done => {
            say_done(request, out);
            Some(NextPart::Flush)
        }
        NextPart::Flush => {
            out.put_flush();
            None
        }
    }
}

// Queues the command of a request, or the lone flush packet of an empty request.
fn say_command<A: Allocator + Copy, B: Allocator + Copy>(
    request: &Request<A>,
    out: &mut Outgoing<B>,
) -> Option<NextPart>
    requires { out.old ≡ [] }
    ensures { (format : Format)
        → SaysPart format (asked_by_request request.now) part.Command out.new result }
{
    match request {
        Request::Empty => {
            out.put_flush();
            None
        }
        Request::Ls(_) => {
            out.put_text(b"command=", b"ls-refs");
            Some(NextPart::Agent)
        }
        Request::Fetch(_) => {
            out.put_text(b"command=", b"fetch");
            Some(NextPart::Agent)
        }
    }
}

// Returns the client's agent string, if any.
fn agent_of<A: Allocator + Copy>(request: &Request<A>) -> Option<&[u8]>
    ensures agent { option_copied result ≡ agent_of (asked_by_request request.now) }
    ensures short { IfSome (option_copied result) (λ agent. length agent ≤ max_capability) }
{
    match request {
        Request::Empty => None,
        Request::Ls(asked) => asked.agent(),
        Request::Fetch(asked) => asked.agent(),
    }
}

fn say_agent<B: Allocator + Copy>(agent: Option<&[u8]>, out: &mut Outgoing<B>)
    requires empty { out.old ≡ [] }
    requires short { IfSome (option_copied agent) (λ value. length value ≤ max_capability) }
    ensures { out.new ≡ canonical_all (agent_packets (option_copied agent.entry)) }
{
    if let Some(agent) = agent {
        out.put_text(b"agent=", agent);
    }
}

fn say_format<B: Allocator + Copy>(format: Format, out: &mut Outgoing<B>)
    requires { out.old ≡ [] }
    ensures { out.new ≡ canonical_all (format_packets format) }
{
    match format {
        Format::Sha1 => {}
        Format::Sha256 => out.put_text(b"object-format=", b"sha256"),
    }
}

// Queues the flags of a request, without `done`.
fn say_flags<A: Allocator + Copy, B: Allocator + Copy>(request: &Request<A>, out: &mut Outgoing<B>)
    requires { out.old ≡ [] }
    ensures { out.new ≡ canonical_all (flags_of (asked_by_request request.now)) }
{
    match request {
        Request::Empty => {}
        Request::Ls(asked) => say_ls_flags(asked, out),
        Request::Fetch(asked) => say_fetch_flags(asked, out),
    }
}

fn say_ls_flags<A: Allocator + Copy, B: Allocator + Copy>(
    asked: &LsRefsRequest<A>,
    out: &mut Outgoing<B>,
)
    requires { out.old ≡ [] }
    ensures { out.new ≡ canonical_all (flags_of (Ls asked.now.asked)) }
{
    say_flag(b"peel", asked.has(LsRefsFlag::Peel), out);
    say_flag(b"symrefs", asked.has(LsRefsFlag::Symrefs), out);
    say_flag(b"unborn", asked.has(LsRefsFlag::Unborn), out);
}

fn say_fetch_flags<A: Allocator + Copy, B: Allocator + Copy>(
    asked: &FetchRequest<A>,
    out: &mut Outgoing<B>,
)
    requires { out.old ≡ [] }
    ensures { out.new ≡ canonical_all (flags_of (Fetches asked.now.asked)) }
{
    say_flag(b"thin-pack", asked.has(FetchFlag::ThinPack), out);
    say_flag(b"no-progress", asked.has(FetchFlag::NoProgress), out);
    say_flag(b"include-tag", asked.has(FetchFlag::IncludeTag), out);
    say_flag(b"ofs-delta", asked.has(FetchFlag::OfsDelta), out);
}

// Queues a flag, if it is set.
fn say_flag<B: Allocator + Copy>(word: &[u8], is_set: bool, out: &mut Outgoing<B>)
    requires short { length word.now ≤ 16 }
    requires room { length out.old + max_packet ≤ queue_room }
    ensures said { out.new ≡ out.old ++ canonical_all (flag_packets word.now is_set) }
    ensures long { length out.new ≤ length out.old + 32 }
{
    if is_set {
        out.put_text(word, b"");
    }
}

// Queues the prefix or the want at this position, or nothing after the last one.
fn say_first<A: Allocator + Copy, B: Allocator + Copy>(
    request: &Request<A>,
    at: usize,
    out: &mut Outgoing<B>,
) -> Option<NextPart>
    requires { out.old ≡ [] }
    ensures { (format : Format)
        → SaysPart format (asked_by_request request.now) (part.First at) out.new result }
{
    match request {
        Request::Empty => {}
        Request::Ls(asked) => {
            if let Some(prefix) = asked.prefixes().get(at) {
                out.put_text(b"ref-prefix ", prefix.as_bytes());
                return Some(NextPart::First(at + 1));
            }
        }
        Request::Fetch(asked) => {
            if let Some(id) = asked.wants().get(at) {
                say_id(b"want ", id, out);
                return Some(NextPart::First(at + 1));
            }
        }
    }
    Some(NextPart::Have(0))
}

// Queues the have at this position, or nothing after the last have.
fn say_have<A: Allocator + Copy, B: Allocator + Copy>(
    request: &Request<A>,
    at: usize,
    out: &mut Outgoing<B>,
) -> Option<NextPart>
    requires { out.old ≡ [] }
    ensures { (format : Format)
        → SaysPart format (asked_by_request request.now) (part.Have at) out.new result }
{
    if let Request::Fetch(asked) = request {
        if let Some(id) = asked.haves().get(at) {
            say_id(b"have ", id, out);
            return Some(NextPart::Have(at + 1));
        }
    }
    Some(NextPart::Done)
}

// Queues the flag `done`, if it is set.
fn say_done<A: Allocator + Copy, B: Allocator + Copy>(request: &Request<A>, out: &mut Outgoing<B>)
    requires { out.old ≡ [] }
    ensures { out.new ≡ canonical_all (done_of (asked_by_request request.now)) }
{
    if let Request::Fetch(asked) = request {
        say_flag(b"done", asked.has(FetchFlag::Done), out);
    }
}

// Queues a word followed by an id.
fn say_id<B: Allocator + Copy>(word: &[u8], id: &Oid, out: &mut Outgoing<B>)
    requires empty { out.old ≡ [] }
    requires short { length word.now ≤ 16 }
    ensures { out.new ≡ canonical_all (id_packet word.now id.now ∷ []) }
{
    let mut digits = [0; MAX_ID_TEXT];
    let count = id.to_hex(&mut digits);
    out.put_text(word, &digits[..count]);
}
