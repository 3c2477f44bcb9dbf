//! Bytes that arrive as the reply to the open request. The open request is the request whose reply
//! the session awaits.

ghost use Rattle.std.specs.Prelude.{◌≡◌, IsOkUnless, IsSome, MatchResult, OnErr, alloc_error, take, Some};
ghost use Rattle.gsession.specs.Keeping.{KeepsOn};
ghost use Rattle.gworld.specs.steps.Bringing.{IsAwaited, TakesIfOpen, objects_outcome, refs_outcome};
ghost use Rattle.gworld.specs.Taking.{TakesObjects, TakesRefs, code_of};
ghost use Rattle.gworld.specs.declared.outcome.Outcome.TheVariants as outcome;

use crate::outcome::Outcome;
use gclientrepo::Repo;
use ggraph::KeepingIndexer;
use gpkt::memory::SliceSource;
use gpkt::{PacketBuffer, PacketReader};
use grequest::Request;
use gsession::{ClientFault, LsTaken, Session, Taken};
use std::alloc::{AllocError, Allocator};

/// The kind of reply that a session awaits.
#[derive(Clone, Copy, Drop)]
pub(crate) enum AwaitedReply {
    /// No reply.
    Nothing,
    /// The reply to a request for refs.
    Refs,
    /// The reply to a request for objects.
    Objects,
}

// Returns the kind of reply that the session awaits.
fn awaited_reply<A: Allocator + Copy>(session: &Session<A>) -> AwaitedReply
    ensures { IsAwaited session.now.pending result }
{
    match session.open_request() {
        Some(Request::Ls(_)) => AwaitedReply::Refs,
        Some(Request::Fetch(_)) => AwaitedReply::Objects,
        Some(Request::Empty) | None => AwaitedReply::Nothing,
    }
}

/// Passes the bytes to the session as the reply to its open request. Returns `None` if the session
/// awaits no reply.
pub(crate) fn take_bytes<A: Allocator + Copy, I: KeepingIndexer<A>>(
    session: &mut Session<A>,
    repo: &mut Repo<A>,
    bytes: &[u8],
    indexer: &mut I,
) -> Result<Option<Outcome>, AllocError>
    ensures takes { MatchResult result
        (λ took. TakesIfOpen I.indexes I.index_fails
        session.old.pending session.old repo.old bytes.now took session.new repo.new)
        (λ _. (session.new ≡ session.old) × (repo.new ≡ repo.old) × IsSome session.old.pending) }
    ensures same { OnErr result (indexer.new ≡ indexer.old) }
    ensures keeps { KeepsOn (I.keeps indexer.old) (I.keeps indexer.new)
        repo.old.graph.entries repo.new.graph.entries }
{
    match awaited_reply(session) {
        AwaitedReply::Nothing => Ok(None),
        AwaitedReply::Refs => {
            let outcome = take_refs(session, repo, bytes)?;
            Ok(Some(outcome))
        }
        AwaitedReply::Objects => {
            let outcome = take_objects(session, repo, bytes, indexer)?;
            Ok(Some(outcome))
        }
    }
}

// Passes the bytes to the session as the ls-refs reply.
fn take_refs<A: Allocator + Copy>(
    session: &mut Session<A>,
    repo: &Repo<A>,
    bytes: &[u8],
) -> Result<Outcome, AllocError>
    ensures { MatchResult result
        (λ outcome. TakesRefs session.old repo.now bytes.now outcome session.new repo.now)
        (λ _. session.new ≡ session.old) }
{
    let buffer = line_buffer(repo.graph().allocator())?;
    let mut reader = PacketReader::with_buffer(buffer, SliceSource::new(bytes));
    let result = session.take_ls(repo, &mut reader);
    Ok(refs_outcome(result))
}

// Returns the outcome of an ls-refs reply.
fn refs_outcome<A: Allocator + Copy>(taking: Result<LsTaken<A>, ClientFault<A>>) -> Outcome
    ensures { result ≡ refs_outcome taking }
{
    match taking {
        Ok(taken) => Outcome::LsTaken {
            asks: taken.asks,
            wants: taken.wants,
        },
        Err(fault) => outcome_of_fault(fault),
    }
}

/// Returns the outcome of an event that fails with this fault.
pub(crate) fn outcome_of_fault<A: Allocator + Copy>(fault: ClientFault<A>) -> Outcome
    ensures { result ≡ outcome.Fault (code_of fault) }
{
    Outcome::Fault { code: fault.code() }
}

// Passes the bytes to the session as the fetch reply.
fn take_objects<A: Allocator + Copy, I: KeepingIndexer<A>>(
    session: &mut Session<A>,
    repo: &mut Repo<A>,
    bytes: &[u8],
    indexer: &mut I,
) -> Result<Outcome, AllocError>
    ensures takes { MatchResult result
        (λ outcome. TakesObjects I.indexes I.index_fails session.old
        repo.old bytes.now outcome session.new repo.new)
        (λ _. (session.new ≡ session.old) × (repo.new ≡ repo.old)) }
    ensures same { OnErr result (indexer.new ≡ indexer.old) }
    ensures keeps { KeepsOn (I.keeps indexer.old) (I.keeps indexer.new)
        repo.old.graph.entries repo.new.graph.entries }
{
    let buffer = line_buffer(repo.graph().allocator())?;
    let mut reader = PacketReader::with_buffer(buffer, SliceSource::new(bytes));
    let result = session.take_reply_into(repo, &mut reader, indexer);
    Ok(objects_outcome(result))
}

// Returns the outcome of a fetch reply.
fn objects_outcome<A: Allocator + Copy>(taking: Result<Taken, ClientFault<A>>) -> Outcome
    ensures { result ≡ objects_outcome taking }
{
    match taking {
        Ok(Taken::Round { common }) => Outcome::Round { common },
        Ok(Taken::PackTaken { added }) => Outcome::PackTaken { added },
        Err(fault) => outcome_of_fault(fault),
    }
}

// Returns an empty buffer for packets. Fails only if out of memory.
fn line_buffer<A: Allocator + Copy>(alloc: A) -> Result<PacketBuffer<A>, AllocError>
    ensures { IsOkUnless result alloc_error }
{
    match PacketBuffer::new(alloc) {
        Ok(buffer) => Ok(buffer),
        Err(_) => Err(AllocError),
    }
}

/// Returns the first `count` bytes, or all bytes if there are fewer than `count`.
pub(crate) fn front(bytes: &[u8], count: usize) -> &[u8]
    ensures { result.now ≡ take count bytes.now }
{
    if count < bytes.len() {
        &bytes[..count]
    } else {
        bytes
    }
}
