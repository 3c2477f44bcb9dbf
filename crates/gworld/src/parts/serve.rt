//! The events of the server: conversations and replies.

ghost use Rattle.std.specs.Prelude.{◌≡◌, ◌≢◌, ◌∷◌, ◌++◌, [], IfOk, IsSome, MatchResult, length, slice_get};
ghost use Rattle.gobject.specs.Packs.{MayPack};
ghost use Rattle.ganswer.specs.Answers.{reply_of};
ghost use Rattle.ganswer.specs.Faults.{serve_fault_row};
ghost use Rattle.grequest.specs.RequestValues.{asked_by_request};
ghost use Rattle.gworld.specs.Events.{HearsStranger, ServesRequest, TalksTo, stranger_outcome};
ghost use Rattle.gworld.specs.declared.outcome.Outcome.TheVariants as outcome;

use super::{KeptReply, Parts, sent_at};
use crate::fault::NO_SUCH_INDEX;
use crate::outcome::Outcome;
use ganswer::{OnePack, Reply, ServeFault, Server};
use ggrammar::Ends;
use ggraph::Packer;
use gpkt::memory::{SliceSource, VecSink};
use grequest::Request;
use gserve::laws::serving_is_talking;
use gserve::{End, serve};
use std::alloc::{AllocError, Allocator};

impl<A: Allocator + Copy> Parts<A> {
    /// Runs the server's conversation with an unknown client that sends these bytes.
    pub(crate) fn hear_stranger<K: Packer<A>>(
        &mut self,
        bytes: &[u8],
        packer: &K,
    ) -> Result<Outcome, AllocError>
        ensures told { IfOk result (λ outcome. HearsStranger (MayPack (K.packs packer.now))
            (K.pack_fails packer.now) self.old bytes.now outcome self.new) }
        ensures same { self.new ≡ self.old }
    {
        talk(&self.server, packer, bytes, self.repo.graph().allocator())
    }

    /// Makes the server's reply to a sent request, and keeps the reply.
    pub(crate) fn serve<K: Packer<A>>(
        &mut self,
        number: usize,
        packer: &K,
    ) -> Result<Outcome, AllocError>
        ensures { MatchResult result
            (λ outcome. ServesRequest (MayPack (K.packs packer.now))
            (K.pack_fails packer.now) self.old
            (slice_get self.old.sent number) outcome self.new)
            (λ _. (self.new ≡ self.old) × IsSome (slice_get self.old.sent number)) }
    {
        let alloc = self.repo.graph().allocator();
        match sent_at(&self.sent, number) {
            None => Ok(Outcome::Fault {
                code: NO_SUCH_INDEX,
            }),
            Some(sent) => match self.server.answer(&sent.request, &mut OnePack::new(packer)) {
                Ok(reply) => keep(alloc, &mut self.kept, &sent.request, reply),
                Err(fault) => Ok(refuse_request(fault)),
            },
        }
    }
}

// Stores a reply, with a copy of its request.
fn keep<A: Allocator + Copy>(
    alloc: A,
    kept: &mut Vec<KeptReply<A>, A>,
    request: &Request<A>,
    reply: Reply<A>,
) -> Result<Outcome, AllocError>
    ensures { MatchResult result
        (λ told. (told ≡ outcome.Served (length kept.old.items))
        × (kept.new.items ≡ kept.old.items
        ++ (record { asked = asked_by_request request.now; reply = reply_of reply }) ∷ []))
        (λ _. kept.new.items ≡ kept.old.items) }
{
    let number = kept.len();
    let request = request.copy_in(alloc)?;
    kept.push(KeptReply { request, reply })?;
    Ok(Outcome::Served { reply: number })
}

// Returns the outcome of a request that the server rejects.
fn refuse_request(fault: ServeFault) -> Outcome
    ensures { result ≡ outcome.Fault (serve_fault_row fault).code }
{
    Outcome::Fault { code: fault.code() }
}

// Returns the outcome of a conversation with a client that sends these bytes.
fn talk<A: Allocator + Copy, K: Packer<A>>(
    server: &Server<A>,
    packer: &K,
    bytes: &[u8],
    alloc: A,
) -> Result<Outcome, AllocError>
    ensures { IfOk result (TalksTo server.now (MayPack (K.packs packer.now))
        (K.pack_fails packer.now)
        bytes.now) }
{
    // Laws that the proof uses.
    serving_is_talking::<A, K>();
    let mut source = SliceSource::new(bytes);
    let mut sink = VecSink::new(alloc);
    let mut packer = OnePack::new(packer);
    let served = serve(server, &mut packer, Ends::Plain, &mut source, &mut sink);
    let written = sink.written_bytes().len();
    stranger_outcome(written, served.end)
}

// Returns the outcome of a conversation: the number of written bytes, or a fault. A write to memory
// fails only if out of memory.
fn stranger_outcome(written: usize, ended: End) -> Result<Outcome, AllocError>
    ensures { MatchResult result
        (λ told. (told ≡ stranger_outcome written ended) × (ended ≢ End.WriteFailed))
        (λ _. ended ≡ End.WriteFailed) }
{
    match ended {
        End::WriteFailed => Err(AllocError),
        End::Closed | End::Ended => Ok(Outcome::StrangerServed {
            written: written as u128,
        }),
        End::Refused(fault) => {
            if fault.is_memory() {
                Ok(Outcome::Fault { code: fault.code() })
            } else {
                Ok(Outcome::StrangerServed {
                    written: written as u128,
                })
            }
        }
    }
}
