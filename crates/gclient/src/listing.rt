//! The listing of a server's refs, with a first line.

ghost use Rattle.gpkt.specs.Streams.{SameSink, SameSource, given, taken};
ghost use Rattle.gclient.specs.Listings.{ListsGit};

use crate::greeting::greet;
use gfetch::{FetchFault, list_over};
use ghello::Hello;
use glsreply::LsReply;
use gpkt::{Sink, Source};
use grequest::LsRefsRequest;
use std::alloc::Allocator;

/// Lists the refs of a server (gitprotocol-pack(5), "Git Transport"). Writes and flushes the first
/// line, which names the requested path, and continues like [`list_over`].
///
/// Fails with `WriteFailed` (27) if the sink fails before the first line is flushed. The client
/// then reads nothing. Otherwise fails like `list_over`.
pub fn list_git<S: Source, W: Sink, A: Allocator + Copy>(
    hello: &Hello<A>,
    source: &mut S,
    sink: &mut W,
    asked: LsRefsRequest<A>,
    alloc: A,
) -> Result<LsReply<A>, FetchFault<A>>
    ensures lists { ListsGit asked.asked hello.now
        (taken S.Source source.old source.new)
        (given W.Sink sink.old sink.new) result }
    ensures source_loans { SameSource S.Source source.old source.new }
    ensures sink_loans { SameSink W.Sink sink.old sink.new }
{
    match greet(hello, sink) {
        Ok(()) => list_over(source, sink, asked, alloc),
        Err(_) => Err(FetchFault::WriteFailed),
    }
}
