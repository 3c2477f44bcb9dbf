//! A fetch with an indexer that keeps nothing, and with the default options for packs.

ghost use Rattle.std.specs.Prelude.{◌≡◌, ◌≤◌, ◌+◌, ℕ, IfOk, OnErr};
ghost use Rattle.gpkt.specs.Streams.{SameSink, SameSource, given, taken};
ghost use Rattle.gdag.specs.Reach.{Grows};
ghost use Rattle.gdag.specs.Walks.{CountsReached};
ghost use Rattle.gclientrepo.specs.Repos.{IsConnectedRepo};
ghost use Rattle.gclientrepo.specs.Settling.{Settles};
ghost use Rattle.gsession.specs.Sessions.{tips_of};
ghost use Rattle.gfetch.specs.Conversations.{FetchesOver};
ghost use Rattle.gfetch.specs.Starts.{start_of};

use gclientrepo::Repo;
use gfetch::{FetchFault, Fetched, fetch_over_with};
use gfetchreply::{PackLimit, StreamLimit};
use ggrammar::Ends;
use ggraph::{Indexer, KeepsNothing};
use gpkt::{Sink, Source};
use grefs::Spec;
use gsession::{FetchPlan, PackOptions};
use std::alloc::Allocator;

/// Fetches those refs of a server that match the refspecs (gitprotocol-v2(5)). Reads the server's
/// advertisement, requests the list of refs, and requests the wanted objects until the server sends
/// a pack. Ends the conversation with a lone flush packet, and then updates the local refs. Flushes
/// each request, and reads nothing after the last reply. A pack may have at most `limit` bytes, and
/// `ends` states whether a response-end packet follows each reply.
///
/// Fails with `TooManySpecs` for more than 16 refspecs. Fails with `Repo` or `NoBuffer` if out of
/// memory at the start, and then reads nothing. Later, the first fault ends the conversation. Fails
/// with `Message` if the advertisement or a reply is malformed, or if the client does not support
/// the server (`UnknownCommand`, `Format`). Fails with `Message` (`BadName`) if the name of a local
/// ref would be invalid. Fails with `TooManyWants` if there are more wants than a request may have.
/// Fails with `StrangeAck`, `Index` or `Repo` if the client rejects the content of a reply. Fails
/// with `WriteFailed` if the sink fails. The sink has then received a prefix of the requests. Fails
/// with `Repo` if the refs can't be updated (`NotConnected`, `Refs`), or if out of memory. After
/// every fault the refs are unchanged, and the graph has lost no objects.
pub fn fetch_over<S: Source, W: Sink, A: Allocator + Copy, K: Indexer<A>>(
    repo: &mut Repo<A>,
    source: &mut S,
    sink: &mut W,
    indexer: &K,
    specs: &[Spec<A>],
    limit: PackLimit,
    ends: Ends,
) -> Result<Fetched<A>, FetchFault<A>>
    ensures fetches { FetchesOver K.indexes K.index_fails
        (start_of repo.old specs.now limit ends)
        (taken S.Source source.old source.new)
        (given W.Sink sink.old sink.new) repo.new result }
    ensures settled { IfOk result (λ fetched. Settles repo.new.graph.entries repo.old.refs
        fetched.settled.asks fetched.settled.updates.items repo.new.refs) }
    ensures refs { OnErr result (repo.new.refs ≡ repo.old.refs) }
    ensures grows { Grows repo.old.graph.entries repo.new.graph.entries }
    ensures connected_refs { IsConnectedRepo repo.new }
    ensures bound { IfOk result (λ fetched. (held parents : ℕ)
        → CountsReached repo.old.graph.entries (tips_of repo.old) held parents
        → fetched.requests ≤ held + 1) }
    ensures source_loans { SameSource S.Source source.old source.new }
    ensures sink_loans { SameSink W.Sink sink.old sink.new }
{
    let plan = FetchPlan {
        specs,
        limit: StreamLimit::from(limit),
        ends,
        options: PackOptions::default(),
    };
    fetch_over_with(repo, source, sink, &mut KeepsNothing::new(indexer), &plan)
}
