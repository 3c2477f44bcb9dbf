//! The client's side of a conversation over a stream.

ghost use Rattle.std.specs.Prelude.{◌≡◌, ◌≤◌, ◌+◌, ℕ, IfOk, OnErr};
ghost use Rattle.gdag.specs.Reach.{Grows};
ghost use Rattle.gdag.specs.Walks.{CountsReached};
ghost use Rattle.gpkt.specs.Change.{change_of};
ghost use Rattle.gclientrepo.specs.Repos.{IsConnectedRepo};
ghost use Rattle.gclientrepo.specs.Settling.{Settles};
ghost use Rattle.gsession.specs.Keeping.{KeepsOn};
ghost use Rattle.gsession.specs.Sessions.{tips_of};
ghost use Rattle.gfetch.specs.Starts.{start_for, start_of};
ghost use Rattle.gtcp.specs.steps.Sockets.{FetchesBetween, ListsBetween};
ghost use Rattle.gtcp.specs.Sockets.{FetchesFrom, FetchesOn, ListsFrom, ListsOn};
ghost use Rattle.gtcp.specs.steps.Remote.{MakesRequest};

use crate::stream::{MESSAGE_BUFFER, Peer};
use crate::timer::Silence;
use gclient::{FetchFault, Fetched, GitFetch, PackOptions, Repo, Spec, fetch_git, list_git};
use gfetchreply::{PackLimit, StreamLimit};
use ggrammar::{Ends, MessageFault};
use ggraph::{Indexer, KeepingIndexer, KeepsNothing};
use ghello::Hello;
use glsreply::LsReply;
use gname::Prefix;
use gpkt::{FromRead, ToWrite};
use grequest::{LsRefsFlag, LsRefsRequest};
use std::alloc::Allocator;
use std::io::{BufReader, BufWriter, Read, Write};
use std::net::OpenStream;

/// Fetches from the server at the other end of the stream, with these refspecs. Writes the first
/// line of a `git://` connection (gitprotocol-pack(5), "Git Transport"), which names the host and
/// the path, and then fetches like `gclient::fetch_over`.
///
/// Fails with `BadText` (42) if the host or the path is not well-formed. The fault reports packet
/// position 0. Fails with `Memory` (53) if out of memory for the first line, and with `NoBuffer`
/// (28) if out of memory for the buffers of the stream. After these three faults nothing was read
/// or written. Otherwise fails with the faults of `fetch_over`. After a fault of `fetch_over` the
/// refs are unchanged, and the graph has only gained objects. A read fails if the server sends no
/// byte for [`MAX_SILENCE`](crate::MAX_SILENCE) seconds, and a write fails if the server accepts no
/// byte for the same time.
pub fn fetch_on<A, K, S>(
    stream: S,
    host: &[u8],
    path: &[u8],
    repo: &mut Repo<A>,
    indexer: &K,
    specs: &[Spec<A>],
    limit: PackLimit,
    ends: Ends,
) -> Result<Fetched<A>, FetchFault<A>>
where
    A: Allocator + Copy,
    K: Indexer<A>,
    S: Read + Write + OpenStream + Drop,
    ensures fetches { FetchesOn K.indexes K.index_fails
        (start_of repo.old specs.now limit ends) (record { path = path.now; host = host.now })
        repo.new result }
    ensures settled { IfOk result (λ fetched. Settles repo.new.graph.entries repo.old.refs
        fetched.settled.asks fetched.settled.updates.items repo.new.refs) }
    ensures refs { OnErr result (repo.new.refs ≡ repo.old.refs) }
    ensures grows { Grows repo.old.graph.entries repo.new.graph.entries }
    ensures connected_refs { IsConnectedRepo repo.new }
    ensures bound { IfOk result (λ fetched. (held parents : ℕ)
        → CountsReached repo.old.graph.entries (tips_of repo.old) held parents
        → fetched.requests ≤ held + 1) }
{
    // Laws that the proof uses.
    repo.laws();
    let hello = match Hello::new(repo.graph().allocator(), path, host) {
        Ok(hello) => hello,
        Err(fault) => return Err(FetchFault::from(fault)),
    };
    let fetch = GitFetch {
        hello: &hello,
        specs,
        limit: StreamLimit::from(limit),
        ends,
        options: PackOptions::default(),
    };
    fetch_git_on(stream, repo, &mut KeepsNothing::new(indexer), &fetch)
}

/// Fetches like [`fetch_on`], with a given first line, with options for packs, and with an indexer
/// that has a store. The indexer keeps each object that the repository gains, whatever the server
/// sends.
///
/// Fails like `fetch_on`, but never because of the host or the path.
pub fn fetch_git_on<A, K, S>(
    stream: S,
    repo: &mut Repo<A>,
    indexer: &mut K,
    fetch: &GitFetch<'_, A>,
) -> Result<Fetched<A>, FetchFault<A>>
where
    A: Allocator + Copy,
    K: KeepingIndexer<A>,
    S: Read + Write + OpenStream + Drop,
    ensures fetches { FetchesFrom K.indexes K.index_fails
        (start_for repo.old fetch.now.specs.now fetch.now.limit fetch.now.ends fetch.now.options)
        fetch.now.hello.now repo.new result }
    ensures settled { IfOk result (λ fetched. Settles repo.new.graph.entries repo.old.refs
        fetched.settled.asks fetched.settled.updates.items repo.new.refs) }
    ensures refs { OnErr result (repo.new.refs ≡ repo.old.refs) }
    ensures grows { Grows repo.old.graph.entries repo.new.graph.entries }
    ensures connected_refs { IsConnectedRepo repo.new }
    ensures keeps { KeepsOn (K.keeps indexer.old) (K.keeps indexer.new) repo.old.graph.entries
        repo.new.graph.entries }
    ensures bound { IfOk result (λ fetched. (held parents : ℕ)
        → CountsReached repo.old.graph.entries (tips_of repo.old) held parents
        → fetched.requests ≤ held + 1) }
{
    fetch_from(&Peer::new(stream, Silence), repo, indexer, fetch)
}

/// Fetches like [`fetch_git_on`], over the stream to a peer.
pub(crate) fn fetch_from<A, K, S>(
    peer: &Peer<S, Silence>,
    repo: &mut Repo<A>,
    indexer: &mut K,
    fetch: &GitFetch<'_, A>,
) -> Result<Fetched<A>, FetchFault<A>>
where
    A: Allocator + Copy,
    K: KeepingIndexer<A>,
    S: Read + Write + OpenStream,
    ensures fetches { FetchesFrom K.indexes K.index_fails
        (start_for repo.old fetch.now.specs.now fetch.now.limit fetch.now.ends fetch.now.options)
        fetch.now.hello.now repo.new result }
    ensures settled { IfOk result (λ fetched. Settles repo.new.graph.entries repo.old.refs
        fetched.settled.asks fetched.settled.updates.items repo.new.refs) }
    ensures refs { OnErr result (repo.new.refs ≡ repo.old.refs) }
    ensures grows { Grows repo.old.graph.entries repo.new.graph.entries }
    ensures connected_refs { IsConnectedRepo repo.new }
    ensures keeps { KeepsOn (K.keeps indexer.old) (K.keeps indexer.new) repo.old.graph.entries
        repo.new.graph.entries }
    ensures bound { IfOk result (λ fetched. (held parents : ℕ)
        → CountsReached repo.old.graph.entries (tips_of repo.old) held parents
        → fetched.requests ≤ held + 1) }
{
    // Laws that the proof uses.
    repo.laws();
    let alloc = repo.graph().allocator();
    let Ok(mut reader) = BufReader::new(alloc, peer) else {
        return Err(FetchFault::NoBuffer);
    };
    let Ok(mut writer) = BufWriter::with_capacity(alloc, MESSAGE_BUFFER, peer) else {
        return Err(FetchFault::NoBuffer);
    };
    let fetched = fetch_between(&mut reader, &mut writer, repo, indexer, fetch);
    // Drops the bytes that could not be written.
    let (_peer, _unwritten) = writer.into_parts();
    fetched
}

// Fetches over a reader and a writer.
fn fetch_between<A: Allocator + Copy, K: KeepingIndexer<A>, R: Read, W: Write>(
    reader: &mut R,
    writer: &mut W,
    repo: &mut Repo<A>,
    indexer: &mut K,
    fetch: &GitFetch<'_, A>,
) -> Result<Fetched<A>, FetchFault<A>>
    ensures fetches { FetchesBetween K.indexes K.index_fails
        (start_for repo.old fetch.now.specs.now fetch.now.limit fetch.now.ends fetch.now.options)
        fetch.now.hello.now
        (change_of R.remaining reader.old reader.new) (change_of W.contents writer.old writer.new)
        repo.new result }
    ensures settled { IfOk result (λ fetched. Settles repo.new.graph.entries repo.old.refs
        fetched.settled.asks fetched.settled.updates.items repo.new.refs) }
    ensures refs { OnErr result (repo.new.refs ≡ repo.old.refs) }
    ensures grows { Grows repo.old.graph.entries repo.new.graph.entries }
    ensures connected_refs { IsConnectedRepo repo.new }
    ensures keeps { KeepsOn (K.keeps indexer.old) (K.keeps indexer.new) repo.old.graph.entries
        repo.new.graph.entries }
    ensures bound { IfOk result (λ fetched. (held parents : ℕ)
        → CountsReached repo.old.graph.entries (tips_of repo.old) held parents
        → fetched.requests ≤ held + 1) }
{
    let mut source = FromRead::new(reader);
    let mut sink = ToWrite::new(writer);
    fetch_git(repo, &mut source, &mut sink, indexer, fetch)
}

/// Lists the refs of the server at the other end of the stream (gitprotocol-v2(5), "ls-refs").
/// Lists the refs that begin with one of the prefixes, or all refs if there are no prefixes. The
/// list includes the targets of symbolic refs, peeled tags, and an unborn `HEAD` if the server
/// offers it.
///
/// Fails with `Limit` (48) if there are more than 64 prefixes. Fails with `BadText` (42) if the
/// host or the path is not well-formed. Both faults report packet position 0. Fails with `Memory`
/// (53) if out of memory for the request or the first line. Fails with `NoBuffer` (28) if out of
/// memory for the buffers of the stream. After these faults nothing was read or written. Otherwise
/// fails with the faults of `gclient::list_git`. A read fails if the server sends no byte for
/// [`MAX_SILENCE`](crate::MAX_SILENCE) seconds, and a write fails if the server accepts no byte for
/// the same time.
pub fn ls_on<A, S>(
    alloc: A,
    stream: S,
    host: &[u8],
    path: &[u8],
    prefixes: &[Prefix<A>],
) -> Result<LsReply<A>, FetchFault<A>>
where
    A: Allocator + Copy,
    S: Read + Write + OpenStream + Drop,
    ensures { ListsOn prefixes.now (record { path = path.now; host = host.now }) result }
{
    let asked = match request_for(alloc, prefixes) {
        Ok(asked) => asked,
        Err(fault) => return Err(FetchFault::from(fault)),
    };
    match Hello::new(alloc, path, host) {
        Ok(hello) => ls_from(alloc, &Peer::new(stream, Silence), &hello, asked),
        Err(fault) => Err(FetchFault::from(fault)),
    }
}

/// Lists refs like [`ls_on`], with a given first line and a given request.
pub(crate) fn ls_from<A, S>(
    alloc: A,
    peer: &Peer<S, Silence>,
    hello: &Hello<A>,
    asked: LsRefsRequest<A>,
) -> Result<LsReply<A>, FetchFault<A>>
where
    A: Allocator + Copy,
    S: Read + Write + OpenStream,
    ensures { ListsFrom asked.asked hello.now result }
{
    let Ok(mut reader) = BufReader::new(alloc, peer) else {
        return Err(FetchFault::NoBuffer);
    };
    let Ok(mut writer) = BufWriter::with_capacity(alloc, MESSAGE_BUFFER, peer) else {
        return Err(FetchFault::NoBuffer);
    };
    let listed = list_between(alloc, &mut reader, &mut writer, hello, asked);
    // Drops the bytes that could not be written.
    let (_peer, _unwritten) = writer.into_parts();
    listed
}

// Lists refs over a reader and a writer.
fn list_between<A: Allocator + Copy, R: Read, W: Write>(
    alloc: A,
    reader: &mut R,
    writer: &mut W,
    hello: &Hello<A>,
    asked: LsRefsRequest<A>,
) -> Result<LsReply<A>, FetchFault<A>>
    ensures { ListsBetween asked.asked hello.now (change_of R.remaining reader.old reader.new)
        (change_of W.contents writer.old writer.new) result }
{
    let mut source = FromRead::new(reader);
    let mut sink = ToWrite::new(writer);
    list_git(hello, &mut source, &mut sink, asked, alloc)
}

/// Returns a request for refs that also asks for the targets of symbolic refs and for peeled ids.
///
/// Fails with `Limit` if there are more than 64 prefixes, and with `Memory` if out of memory.
pub(crate) fn request_for<A: Allocator + Copy>(
    alloc: A,
    prefixes: &[Prefix<A>],
) -> Result<LsRefsRequest<A>, MessageFault>
    ensures { MakesRequest prefixes.now result }
{
    let mut asked = LsRefsRequest::new(alloc);
    asked.set(LsRefsFlag::Symrefs, true);
    asked.set(LsRefsFlag::Peel, true);
    for prefix in prefixes {
        asked.push_prefix(prefix.as_bytes())?;
    }
    Ok(asked)
}
