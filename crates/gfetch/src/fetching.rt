//! A fetch over a blocking source and a blocking sink.

ghost use Rattle.std.specs.Prelude.{◌≡◌, ◌+◌, ◌≤◌, ℕ, length, IfErr, IfOk, OnErr};
ghost use Rattle.gpkt.specs.Sending.{Input, Output, input_of, output_of};
ghost use Rattle.gdag.specs.Reach.{Grows};
ghost use Rattle.gdag.specs.Walks.{CountsReached};
ghost use Rattle.gclientrepo.specs.Repos.{IsConnectedRepo};
ghost use Rattle.gclientrepo.specs.Settling.{Settles};
ghost use Rattle.gsession.specs.Keeping.{KeepsOn};
ghost use Rattle.gsession.specs.Sessions.{max_specs, tips_of};
ghost use Rattle.gfetch.specs.Conversations.{FailsAtStart, FetchesOver};
ghost use Rattle.gfetch.specs.Endings.{EndsTalk};
ghost use Rattle.gfetch.specs.Fetching.{BeginsAt, IsFresh, KeepsIndexer, KeepsObjects, start_of_side};
ghost use Rattle.gfetch.specs.Starts.{Start, begin_session, start_for};

use crate::fault::FetchFault;
use crate::fetched::Fetched;
use crate::side::ClientSide;
use gclientrepo::Repo;
use gdialogue::run_dialogue;
use ggrammar::laws::grammars_are_exact;
use ggraph::graph_laws::distinct_are_once;
use ggraph::{Graph, KeepingIndexer, Refs};
use gpkt::{Sink, Source};
use gsession::laws::{began_stays, rounds_are_few};
use gsession::{FetchPlan, Session};
use gtalk::{Room, TalkFault};
use std::alloc::{AllocError, Allocator};
use std::mem;

/// Fetches those refs of a server that match the refspecs (gitprotocol-v2(5)). Reads the server's
/// advertisement, requests the list of refs, and requests the wanted objects until the server sends
/// a pack. Ends the conversation with a lone flush packet, and then updates the local refs. Flushes
/// each request, and reads nothing after the last reply. The plan contains the refspecs, the limit
/// on the size of a pack, and the options for packs. The indexer keeps each object that the
/// repository gains, whatever the server sends.
///
/// Fails with `TooManySpecs` for more than 16 refspecs. Fails with `Repo` or `NoBuffer` if out of
/// memory at the start, and then reads nothing. Later, the first fault ends the conversation. Fails
/// with `Message` if the advertisement or a reply is malformed, or if the client does not support
/// the server (`UnknownCommand`, `Format`). Fails with `Message` (`BadName`) if the name of a local
/// ref would be invalid. Fails with `TooManyWants` if there are more wants than a request may have.
/// Fails with `StrangeAck`, `Index` or `Repo` if the client rejects the content of a reply. Fails
/// with `WriteFailed` if the sink fails. The sink has then received a prefix of the requests. Fails
/// with `Repo` if the refs can't be updated (`NotConnected`, `Refs`), or if out of memory. After
/// every fault the refs are unchanged, and the graph has lost no objects.
pub fn fetch_over_with<S: Source, W: Sink, A: Allocator + Copy, K: KeepingIndexer<A>>(
    repo: &mut Repo<A>,
    source: &mut S,
    sink: &mut W,
    indexer: &mut K,
    plan: &FetchPlan<'_, A>,
) -> Result<Fetched<A>, FetchFault<A>>
    ensures fetches { FetchesOver K.indexes K.index_fails
        (start_for repo.old plan.now.specs.now plan.now.limit plan.now.ends plan.now.options)
        (input_of S.remaining S.is_down source.old source.new)
        (output_of W.contents W.passed_on W.is_down sink.old sink.new) repo.new result }
    ensures settled { IfOk result (λ fetched. Settles repo.new.graph.entries repo.old.refs
        fetched.settled.asks fetched.settled.updates.items repo.new.refs) }
    ensures refs { OnErr result (repo.new.refs ≡ repo.old.refs) }
    ensures grows { Grows repo.old.graph.entries repo.new.graph.entries }
    ensures connected_refs { IsConnectedRepo repo.new }
    ensures bound { IfOk result (λ fetched. (held parents : ℕ)
        → CountsReached repo.old.graph.entries (tips_of repo.old) held parents
        → fetched.requests ≤ held + 1) }
    ensures keeps { KeepsOn (K.keeps indexer.old) (K.keeps indexer.new) repo.old.graph.entries
        repo.new.graph.entries }
    ensures source_loans { S.loans source.new ≡ S.loans source.old }
    ensures sink_loans { W.loans sink.new ≡ W.loans sink.old }
{
    let fetched = fetch_to(repo, source, sink, indexer, plan);
    // Laws that the proof uses.
    repo.laws();
    fetched
}

// Fetches as `fetch_over_with` does.
fn fetch_to<S: Source, W: Sink, A: Allocator + Copy, K: KeepingIndexer<A>>(
    repo: &mut Repo<A>,
    source: &mut S,
    sink: &mut W,
    indexer: &mut K,
    plan: &FetchPlan<'_, A>,
) -> Result<Fetched<A>, FetchFault<A>>
    ensures fetches { FetchesOver K.indexes K.index_fails
        (start_for repo.old plan.now.specs.now plan.now.limit plan.now.ends plan.now.options)
        (input_of S.remaining S.is_down source.old source.new)
        (output_of W.contents W.passed_on W.is_down sink.old sink.new) repo.new result }
    ensures bound { IfOk result (λ fetched. (held parents : ℕ)
        → CountsReached repo.old.graph.entries (tips_of repo.old) held parents
        → fetched.requests ≤ held + 1) }
    ensures keeps { KeepsOn (K.keeps indexer.old) (K.keeps indexer.new) repo.old.graph.entries
        repo.new.graph.entries }
    ensures source_loans { S.loans source.new ≡ S.loans source.old }
    ensures sink_loans { W.loans sink.new ≡ W.loans sink.old }
{
    // Laws that the proof uses.
    repo.laws();
    let (session, room, empty) = match prepare::<A, K>(repo, plan) {
        Ok(made) => made,
        Err(fault) => return Err(fault),
    };
    let side = ClientSide::new(mem::replace(repo, empty), session, indexer);
    let (driven, mut side) = talk(side, room, source, sink);
    let fetched = finish_into(&mut side, driven, repo);
    let _indexer = side.into_indexer();
    fetched
}

/// Begins a fetch whose dialogue the caller runs. Returns a client side that has received no
/// message, and the buffers for its connection. The side owns the repository until [`end_fetch`],
/// and `repo` is empty meanwhile.
///
/// Fails with `TooManySpecs` for more than 16 refspecs, and with `Repo` or `NoBuffer` if out of
/// memory. The repository is then unchanged, and the indexer was not used.
pub fn begin_fetch<'k, A: Allocator + Copy, K: KeepingIndexer<A>>(
    repo: &mut Repo<A>,
    indexer: &'k mut K,
    plan: &FetchPlan<'_, A>,
) -> Result<(ClientSide<'k, A, K>, Room<A>), FetchFault<A>>
    ensures begins { IfOk result (λ begun. BeginsAt
        (start_for repo.old plan.now.specs.now plan.now.limit plan.now.ends plan.now.options)
        begun.0) }
    ensures indexer { IfOk result (λ begun. begun.0.indexer.now ≡ indexer.old) }
    ensures in_place { IfOk result (λ begun.
        begun.0.indexer.ghost_name ≡ indexer.entry.ghost_name) }
    ensures fails { IfErr result (λ fault. FailsAtStart K.indexes K.index_fails
        (start_for repo.old plan.now.specs.now plan.now.limit plan.now.ends plan.now.options)
        repo.new fault) }
    ensures repo { OnErr result (repo.new ≡ repo.old) }
{
    let (session, room, empty) = match prepare::<A, K>(repo, plan) {
        Ok(made) => made,
        Err(fault) => return Err(fault),
    };
    let side = ClientSide::new(mem::replace(repo, empty), session, indexer);
    Ok((side, room))
}

// Begins the session. Allocates the buffers, and a repository for the time in which the side owns
// the caller's.
fn prepare<A: Allocator + Copy, K: KeepingIndexer<A>>(
    repo: &Repo<A>,
    plan: &FetchPlan<'_, A>,
) -> Result<(Session<A>, Room<A>, Repo<A>), FetchFault<A>>
    ensures begins { IfOk result (λ made. made.0 ≡ begin_session
        (start_for repo.now plan.now.specs.now plan.now.limit plan.now.ends plan.now.options)) }
    ensures few { IfOk result (λ made. length plan.now.specs.now ≤ max_specs) }
    ensures fails { IfErr result (λ fault. FailsAtStart K.indexes K.index_fails
        (start_for repo.now plan.now.specs.now plan.now.limit plan.now.ends plan.now.options)
        repo.now fault) }
{
    let alloc = repo.graph().allocator();
    let session = match Session::begin_with(alloc, repo, plan) {
        Ok(session) => session,
        Err(fault) => return Err(FetchFault::Client(fault)),
    };
    match make_room(alloc) {
        Ok((room, empty)) => Ok((session, room, empty)),
        Err(_) => Err(FetchFault::NoBuffer),
    }
}

// Allocates the buffers and an empty repository.
fn make_room<A: Allocator + Copy>(alloc: A) -> Result<(Room<A>, Repo<A>), AllocError> {
    let room = Room::new(alloc)?;
    match Repo::new(Graph::new(alloc), Refs::new(alloc)) {
        Ok(empty) => Ok((room, empty)),
        Err(_) => Err(AllocError),
    }
}

// Runs the dialogue of a side that has received no message. Returns the side, and whether a packet
// was sent.
fn talk<'k, S: Source, W: Sink, A: Allocator + Copy, K: KeepingIndexer<A>>(
    side: ClientSide<'k, A, K>,
    room: Room<A>,
    source: &mut S,
    sink: &mut W,
) -> (Result<bool, TalkFault>, ClientSide<'k, A, K>)
    requires { IsFresh side }
    ensures ends { EndsTalk K.indexes K.index_fails (start_of_side side.entry)
        (input_of S.remaining S.is_down source.old source.new)
        (output_of W.contents W.passed_on W.is_down sink.old sink.new) result.1 result.0 }
    ensures keeps { KeepsObjects K.keeps side.entry result.1 }
    ensures source_loans { S.loans source.new ≡ S.loans source.old }
    ensures sink_loans { W.loans sink.new ≡ W.loans sink.old }
{
    // Laws that the proof uses.
    grammars_are_exact();
    ghello::laws::endings();
    glsreply::laws::endings();
    gfetchreply::laws::endings();
    run_dialogue(side, room, source, sink)
}

/// Ends a fetch whose dialogue the caller ran. Gives the repository back into `repo`, and updates
/// the local refs after a dialogue without a fault. `driven` is the result of the dialogue: an
/// error if the sink failed.
///
/// Fails with the fault that ended the dialogue, and with `WriteFailed` if `driven` is an error.
/// Fails with `Repo` if the refs can't be updated (`NotConnected`, `Refs`), or if out of memory.
/// After every fault the refs are unchanged, and the graph has lost no objects.
pub fn end_fetch<A: Allocator + Copy, K: KeepingIndexer<A>>(
    side: ClientSide<'_, A, K>,
    driven: Result<bool, TalkFault>,
    repo: &mut Repo<A>,
) -> Result<Fetched<A>, FetchFault<A>>
    ensures fetches { (start : Start A) (input : Input) (output : Output)
        → EndsTalk K.indexes K.index_fails start input output side.entry driven
        → FetchesOver K.indexes K.index_fails start input output repo.new result }
    ensures bound { (start : Start A) (input : Input) (output : Output)
        → EndsTalk K.indexes K.index_fails start input output side.entry driven
        → IsConnectedRepo start.repo
        → IfOk result (λ fetched. (held parents : ℕ)
        → CountsReached start.repo.graph.entries (tips_of start.repo) held parents
        → fetched.requests ≤ held + 1) }
    ensures graph { repo.new.graph.entries ≡ side.entry.client.repo.graph.entries }
{
    let mut side = side;
    finish_into(&mut side, driven, repo)
}

// Ends a fetch as `end_fetch` does, and leaves the indexer to the side.
fn finish_into<A: Allocator + Copy, K: KeepingIndexer<A>>(
    side: &mut ClientSide<'_, A, K>,
    driven: Result<bool, TalkFault>,
    repo: &mut Repo<A>,
) -> Result<Fetched<A>, FetchFault<A>>
    ensures fetches { (start : Start A) (input : Input) (output : Output)
        → EndsTalk K.indexes K.index_fails start input output side.old driven
        → FetchesOver K.indexes K.index_fails start input output repo.new result }
    ensures bound { (start : Start A) (input : Input) (output : Output)
        → EndsTalk K.indexes K.index_fails start input output side.old driven
        → IsConnectedRepo start.repo
        → IfOk result (λ fetched. (held parents : ℕ)
        → CountsReached start.repo.graph.entries (tips_of start.repo) held parents
        → fetched.requests ≤ held + 1) }
    ensures indexer { KeepsIndexer side.old side.new }
    ensures graph { repo.new.graph.entries ≡ side.old.client.repo.graph.entries }
{
    let fetched = finish(side, driven);
    side.swap_repo(repo);
    fetched
}

// Updates the local refs after a dialogue without a fault. Returns the result of the conversation.
fn finish<A: Allocator + Copy, K: KeepingIndexer<A>>(
    side: &mut ClientSide<'_, A, K>,
    driven: Result<bool, TalkFault>,
) -> Result<Fetched<A>, FetchFault<A>>
    ensures fetches { (start : Start A) (input : Input) (output : Output)
        → EndsTalk K.indexes K.index_fails start input output side.old driven
        → FetchesOver K.indexes K.index_fails start input output side.new.client.repo result }
    ensures bound { (start : Start A) (input : Input) (output : Output)
        → EndsTalk K.indexes K.index_fails start input output side.old driven
        → IsConnectedRepo start.repo
        → IfOk result (λ fetched. (held parents : ℕ)
        → CountsReached start.repo.graph.entries (tips_of start.repo) held parents
        → fetched.requests ≤ held + 1) }
    ensures indexer { KeepsIndexer side.old side.new }
    ensures graph { side.new.client.repo.graph.entries ≡ side.old.client.repo.graph.entries }
{
    // Laws that the proof uses.
    distinct_are_once();
    began_stays::<A>();
    rounds_are_few::<A>();
    match driven {
        Err(_) => Err(FetchFault::WriteFailed),
        Ok(_) => match side.take_fault() {
            Some(fault) => Err(FetchFault::Client(fault)),
            None => side.client.settle(),
        },
    }
}
