//! A client's conversation over the `git://` transport, including the first line.

ghost use Rattle.std.specs.Prelude.{◌≡◌, ◌≤◌, ◌+◌, ℕ, IfOk, OnErr};
ghost use Rattle.gpkt.specs.Streams.{SameSink, SameSource, given, taken};
ghost use Rattle.gdag.specs.Reach.{Grows};
ghost use Rattle.gdag.specs.Walks.{CountsReached};
ghost use Rattle.gclientrepo.specs.Repos.{IsConnectedRepo};
ghost use Rattle.gclientrepo.specs.Settling.{Settles};
ghost use Rattle.gsession.specs.Keeping.{KeepsOn};
ghost use Rattle.gsession.specs.Sessions.{tips_of};
ghost use Rattle.gfetch.specs.Starts.{start_for};
ghost use Rattle.gclient.specs.GitFetches.{FetchesGit};

use crate::greeting::greet;
use gclientrepo::Repo;
use gfetch::{FetchFault, Fetched, fetch_over_with};
use gfetchreply::StreamLimit;
use ggrammar::Ends;
use ggraph::KeepingIndexer;
use ghello::Hello;
use gpkt::{Sink, Source};
use grefs::Spec;
use gsession::{FetchPlan, PackOptions};
use std::alloc::Allocator;

/// The parameters of a fetch over a `git://` connection.
#[derive(Clone, Copy)]
pub struct GitFetch<'a, A: Allocator + Copy> {
    /// The first line, which names the requested path.
    pub hello: &'a Hello<A>,
    /// The refspecs, at most 16. If several updates would be for the same local ref, the client
    /// requests only the first.
    pub specs: &'a [Spec<A>],
    /// The maximum size of a pack in bytes.
    pub limit: StreamLimit,
    /// Whether a response-end packet follows each reply.
    pub ends: Ends,
    /// The options of requests for packs.
    pub options: PackOptions,
}

/// Fetches those refs of a server that match the refspecs (gitprotocol-pack(5), "Git Transport").
/// Writes and flushes the first line, which names the requested path, and continues like
/// [`fetch_over_with`].
///
/// Fails with `WriteFailed` (27) if the sink fails before the first line is flushed. The client
/// then reads nothing, and the repository is unchanged. Otherwise fails like `fetch_over_with`.
/// After every fault the refs are unchanged, and the graph has lost no objects.
pub fn fetch_git<S: Source, W: Sink, A: Allocator + Copy, K: KeepingIndexer<A>>(
    repo: &mut Repo<A>,
    source: &mut S,
    sink: &mut W,
    indexer: &mut K,
    fetch: &GitFetch<'_, A>,
) -> Result<Fetched<A>, FetchFault<A>>
    ensures fetches { FetchesGit K.indexes K.index_fails
        (start_for repo.old fetch.now.specs.now fetch.now.limit fetch.now.ends fetch.now.options)
        fetch.now.hello.now
        (taken S.Source source.old source.new)
        (given W.Sink sink.old sink.new) repo.new result }
    ensures settled { IfOk result (λ fetched. Settles repo.new.graph.entries repo.old.refs
        fetched.settled.asks fetched.settled.updates.items repo.new.refs) }
    ensures refs { OnErr result (repo.new.refs ≡ repo.old.refs) }
    ensures grows { Grows repo.old.graph.entries repo.new.graph.entries }
    ensures connected_refs { IsConnectedRepo repo.new }
    ensures bound { IfOk result (λ fetched. (held parents : ℕ)
        → CountsReached repo.old.graph.entries (tips_of repo.old) held parents
        → fetched.requests ≤ held + 1) }
    ensures keeps { KeepsOn (K.keeps indexer.old) (K.keeps indexer.new) repo.old.graph.entries
        repo.new.graph.entries }
    ensures source_loans { SameSource S.Source source.old source.new }
    ensures sink_loans { SameSink W.Sink sink.old sink.new }
{
    // Laws that the proof uses.
    repo.laws();
    let plan = FetchPlan {
        specs: fetch.specs,
        limit: fetch.limit,
        ends: fetch.ends,
        options: fetch.options,
    };
    match greet(fetch.hello, sink) {
        Ok(()) => fetch_over_with(repo, source, sink, indexer, &plan),
        Err(_) => Err(FetchFault::WriteFailed),
    }
}
