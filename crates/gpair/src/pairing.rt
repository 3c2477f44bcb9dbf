//! A fetch from a server in this process.

ghost use Rattle.std.specs.Prelude.{◌||◌, IfOk};
ghost use Rattle.gdag.specs.Reach.{Grows};
ghost use Rattle.gclientrepo.specs.Settling.{Settles};
ghost use Rattle.gtalk.specs.Connections.{IsHeld};
ghost use Rattle.gfetch.specs.Starts.{start_for};
ghost use Rattle.gpair.specs.Pairs.{FetchesBetween, IsPairFault};

use crate::counting::{CountedSource, CountsBytes};
use crate::end::End;
use crate::fault::PairFault;
use crate::fetching::fetch_joined;
use crate::local::LocalServer;
use crate::message::MessageSink;
use gclient::{GitFetch, greet};
use gclientrepo::Repo;
use gdialogue::Dialogue;
use gfetch::{FetchFault, Fetched};
use ggraph::KeepingIndexer;
use gobject::Packer;
use gparts::WholeParts;
use gpkt::{Sink, Source};
use gserver::{Heard, ServerReply, ServerSide};
use gsession::FetchPlan;
use gtalk::{Connection, Conversation, Room};
use std::alloc::Allocator;

/// The sources and sinks of both ends of a connection in this process.
#[derive(Drop)]
pub struct Wires<N, V, F, W> {
    /// The source and the sink of the client's end.
    pub near: (N, V),
    /// The source and the sink of the server's end.
    pub far: (F, W),
}

/// Fetches from the server into the repository, over a connection inside this process. Client and
/// server take turns, and each message is written only when it is complete.
///
/// Fails with `TooLong` if a message would have more than [`MAX_MESSAGE`](crate::MAX_MESSAGE)
/// bytes. In that case no byte of the message is written, and client and server stop. Fails with
/// `Memory` if out of memory for the server's buffers or for a message. Otherwise fails with the
/// faults of `gclient::fetch_git`.
pub fn fetch_between<A, P, K, N, V, F, W>(
    server: &LocalServer<'_, A, P>,
    repo: &mut Repo<A>,
    indexer: &mut K,
    fetch: &GitFetch<'_, A>,
    wires: Wires<N, V, F, W>,
) -> Result<Fetched<A>, PairFault<A>>
where
    A: Allocator + Copy,
    P: Packer<A>,
    K: KeepingIndexer<A>,
    N: Source + Drop,
    V: Sink + Drop,
    F: Source + Drop,
    W: Sink + Drop,
    ensures fetches { FetchesBetween K.indexes K.index_fails
        (start_for repo.old fetch.now.specs.now fetch.now.limit fetch.now.ends fetch.now.options)
        fetch.now.hello.now repo.new result }
    ensures settled { IfOk result (λ fetched. Settles repo.new.graph.entries repo.old.refs
        fetched.settled.asks fetched.settled.updates.items repo.new.refs) }
    ensures grows { Grows repo.old.graph.entries repo.new.graph.entries }
{
    let alloc = repo.graph().allocator();
    let Wires { near, far } = wires;
    let (source, sink) = far;
    let room = match Room::new(alloc) {
        Ok(room) => room,
        Err(_) => return Err(PairFault::Memory),
    };
    let side = ServerSide::new(server, alloc, fetch.ends);
    let dialogue: ServerDialogue<'_, '_, A, P> = Dialogue::new(side);
    let mut other = End {
        connection: Connection::with_room(dialogue, room),
        source: CountedSource::new(source),
        sink: MessageSink::new(alloc, sink),
    };
    exchange(repo, indexer, fetch, near, &mut other)
}

// The dialogue of a local server.
type ServerDialogue<'h, 's, A, P> = Dialogue<
    ServerSide<'h, A, LocalServer<'s, A, P>, LocalServer<'s, A, P>>,
    Heard<A>,
    ServerReply<A, LocalServer<'s, A, P>, WholeParts<A>>,
>;

// Fetches over the source and the sink of the client's end. If a message was too long, or if memory
// for a message ran out, fails with this reason.
fn exchange<A, K, N, V, D, F, W>(
    repo: &mut Repo<A>,
    indexer: &mut K,
    fetch: &GitFetch<'_, A>,
    near: (N, V),
    far: &mut End<D, F, MessageSink<W, A>, A>,
) -> Result<Fetched<A>, PairFault<A>>
where
    A: Allocator + Copy,
    K: KeepingIndexer<A>,
    N: Source + Drop,
    V: Sink + Drop,
    D: Conversation,
    F: Source + CountsBytes,
    W: Sink,
    requires far_held { IsHeld D.holds far.old.connection }
    ensures { FetchesBetween K.indexes K.index_fails
        (start_for repo.old fetch.now.specs.now fetch.now.limit fetch.now.ends fetch.now.options)
        fetch.now.hello.now repo.new result }
{
    let plan = FetchPlan {
        specs: fetch.specs,
        limit: fetch.limit,
        ends: fetch.ends,
        options: fetch.options,
    };
    let (source, sink) = near;
    let mut requests = MessageSink::new(repo.graph().allocator(), sink);
    match greet(fetch.hello, &mut requests) {
        Ok(()) => {
            let devices = (CountedSource::new(source), requests);
            let (fetched, left) = fetch_joined(repo, indexer, &plan, devices, far);
            match fetched {
                Ok(done) => Ok(done),
                Err(fault) => Err(fault_of(fault, &left.1, &far.sink)),
            }
        }
        Err(_) => Err(fault_of(FetchFault::WriteFailed, &requests, &far.sink)),
    }
}

// Returns the reason why client and server stopped: a message was too long, memory for a message
// ran out, or the client failed for another reason.
fn fault_of<V: Sink, W: Sink, A: Allocator + Copy>(
    fault: FetchFault<A>,
    requests: &MessageSink<V, A>,
    replies: &MessageSink<W, A>,
) -> PairFault<A>
    ensures { IsPairFault fault (requests.now.too_long || replies.now.too_long)
        (requests.now.lacks_memory || replies.now.lacks_memory) result }
{
    if requests.is_too_long() || replies.is_too_long() {
        return PairFault::TooLong;
    }
    if requests.lacks_memory() || replies.lacks_memory() {
        return PairFault::Memory;
    }
    PairFault::Fetch(fault)
}
