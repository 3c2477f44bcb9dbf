//! The delivery of replies to the client.

ghost use Rattle.std.specs.Prelude.{◌≡◌, ◌↔◌, MatchResult, OnErr, slice_get, IsSome, IsTrue, IfOk, Some};
ghost use Rattle.gsession.specs.Keeping.{KeepsOn};
ghost use Rattle.gworld.specs.Taking.{IsPackTaken};
ghost use Rattle.gworld.specs.steps.Bringing.{BringsTo};
ghost use Rattle.gworld.specs.Events.{Delivers, Forges, waiting_session};
ghost use Rattle.gworld.specs.Worlds.{reply_bytes};

use super::{KeptReply, Parts, kept_at};
use crate::fault::{NO_OPEN_REQUEST, NO_SUCH_INDEX};
use crate::incoming::{front, take_bytes};
use crate::outcome::Outcome;
use gclientrepo::Repo;
use ggrammar::Ends;
use ggraph::KeepingIndexer;
use gpkt::PacketWriter;
use gpkt::memory::VecSink;
use gserve::write_reply;
use gsession::Session;
use std::alloc::{AllocError, Allocator};

impl<A: Allocator + Copy> KeptReply<A> {
    // Returns the encoded bytes of the reply.
    fn bytes(&self, alloc: A) -> Result<Vec<u8, A>, AllocError>
        ensures { IfOk result (λ bytes. bytes.items ≡ reply_bytes self.now.reply) }
    {
        let mut writer = PacketWriter::new(VecSink::new(alloc));
        let written = write_reply(&self.reply, Ends::Plain, &mut writer);
        let sink = writer.into_inner();
        match written {
            Ok(()) => Ok(sink.into_written()),
            Err(_) => Err(AllocError),
        }
    }

    // Returns whether the reply answers a request that is equal to the open request.
    fn answers_open(&self, session: &Session<A>) -> bool
        ensures { IsTrue result ↔ (session.now.pending ≡ Some self.now.asked) }
    {
        match session.open_request() {
            Some(request) => self.request.asks_as(request),
            None => false,
        }
    }
}

impl<A: Allocator + Copy> Parts<A> {
    /// Delivers the first `count` bytes of a kept reply as the reply to the open request. Delivers
    /// all bytes of a shorter reply.
    pub(crate) fn deliver<I: KeepingIndexer<A>>(
        &mut self,
        number: usize,
        count: usize,
        indexer: &mut I,
    ) -> Result<Outcome, AllocError>
        ensures brings { MatchResult result
            (λ outcome. Delivers I.indexes I.index_fails self.old
            (slice_get self.old.kept number) count (waiting_session self.old.session) outcome self.new)
            (λ _. (self.new ≡ self.old)
            × IsSome (slice_get self.old.kept number) × IsSome (waiting_session self.old.session)) }
        ensures same { OnErr result (indexer.new ≡ indexer.old) }
        ensures keeps { KeepsOn (I.keeps indexer.old) (I.keeps indexer.new)
            self.old.repo.graph.entries self.new.repo.graph.entries }
    {
        match kept_at(&self.kept, number) {
            None => Ok(Outcome::Fault {
                code: NO_SUCH_INDEX,
            }),
            Some(kept) => match &mut self.session {
                None => Ok(Outcome::Fault {
                    code: NO_OPEN_REQUEST,
                }),
                Some(session) => {
                    let delivery = Delivery { kept, count };
                    bring(
                        delivery,
                        session,
                        &mut self.repo,
                        &mut self.answered,
                        indexer,
                    )
                }
            },
        }
    }

    /// Delivers forged bytes as the reply to the open request.
    pub(crate) fn forge<I: KeepingIndexer<A>>(
        &mut self,
        bytes: &[u8],
        indexer: &mut I,
    ) -> Result<Outcome, AllocError>
        ensures brings { MatchResult result
            (λ outcome. Forges I.indexes I.index_fails self.old
            bytes.now (waiting_session self.old.session) outcome self.new)
            (λ _. (self.new ≡ self.old) × IsSome (waiting_session self.old.session)) }
        ensures same { OnErr result (indexer.new ≡ indexer.old) }
        ensures keeps { KeepsOn (I.keeps indexer.old) (I.keeps indexer.new)
            self.old.repo.graph.entries self.new.repo.graph.entries }
    {
        match &mut self.session {
            None => {
                self.forged = true;
                Ok(Outcome::Fault {
                    code: NO_OPEN_REQUEST,
                })
            }
            Some(session) => match take_bytes(session, &mut self.repo, bytes, indexer)? {
                None => {
                    self.forged = true;
                    Ok(Outcome::Fault {
                        code: NO_OPEN_REQUEST,
                    })
                }
                Some(outcome) => {
                    self.forged = true;
                    self.answered = false;
                    Ok(outcome)
                }
            },
        }
    }
}

// A kept reply to deliver, and the number of bytes to deliver.
#[derive(Drop)]
struct Delivery<'a, A: Allocator + Copy> {
    kept: &'a KeptReply<A>,
    count: usize,
}

// Delivers a kept reply to the session, and updates the flag `answered`.
fn bring<A: Allocator + Copy, I: KeepingIndexer<A>>(
    delivery: Delivery<'_, A>,
    session: &mut Session<A>,
    repo: &mut Repo<A>,
    mark: &mut bool,
    indexer: &mut I,
) -> Result<Outcome, AllocError>
    ensures brings { MatchResult result
        (λ outcome. BringsTo I.indexes I.index_fails
        delivery.entry.kept.now delivery.entry.count
        session.old.pending session.old repo.old mark.old outcome session.new repo.new mark.new)
        (λ _. (session.new ≡ session.old) × (repo.new ≡ repo.old) × (mark.new ≡ mark.old)
        × IsSome session.old.pending) }
    ensures same { OnErr result (indexer.new ≡ indexer.old) }
    ensures keeps { KeepsOn (I.keeps indexer.old) (I.keeps indexer.new)
        repo.old.graph.entries repo.new.graph.entries }
{
    if session.open_request().is_none() {
        return Ok(Outcome::Fault {
            code: NO_OPEN_REQUEST,
        });
    }
    let bytes = delivery.kept.bytes(repo.graph().allocator())?;
    let matches_open = delivery.kept.answers_open(session);
    let is_complete = bytes.len() <= delivery.count;
    match take_bytes(
        session,
        repo,
        front(bytes.as_slice(), delivery.count),
        indexer,
    )? {
        Some(outcome) => {
            *mark = matches_open && is_complete && is_pack_taken(outcome);
            Ok(outcome)
        }
        // The session awaits no reply, because its open request is empty.
        None => Ok(Outcome::Fault {
            code: NO_OPEN_REQUEST,
        }),
    }
}

// Returns whether the outcome reports an accepted pack.
fn is_pack_taken(outcome: Outcome) -> bool
    ensures { IsTrue result ↔ IsPackTaken outcome }
{
    matches!(outcome, Outcome::PackTaken { .. })
}
