//! Reading ls-refs replies.

ghost use Rattle.std.specs.Prelude.{◌≡◌, ◌≤◌, [], List, All, MatchBool, MatchOption, MatchResult, IfOk, None, length};
ghost use Rattle.gobject.specs.declared.node.Entry.{Entry};
ghost use Rattle.gpkt.specs.Change.{change_of};
ghost use Rattle.gsession.specs.Asking.{AreNamed, asks_by_all};
ghost use Rattle.gsession.specs.TakingRefs.{stage_for};

use crate::asks::{are_named, asked_of, unborn_of, wants_of};
use crate::fault::ClientFault;
use crate::session::{Session, set_pending};
use crate::stage::Stage;
use crate::taken::LsTaken;
use gclientrepo::{Asks, Repo};
use ggrammar::{MessageFault, Why};
use glsreply::{LsReply, LsReplyReader, read_ls_reply_in};
use gname::Oid;
use gpkt::{PacketReader, Source};
use grequest::{Request, max_wants};
use std::alloc::Allocator;

impl<A: Allocator + Copy> Session<A> {
    ghost use Rattle.glsreply.specs.WellFormed.{IsLsReplyIn};
    ghost use Rattle.gname.specs.Ids.{IsIdOf};
    ghost use Rattle.grequest.specs.Asked.{max_wants};
    ghost use Rattle.gsession.specs.Sessions.{LeavesReplies};
    ghost use Rattle.gsession.specs.steps.Calls.{AnswersLs, AnswersRefs, FindsAsks};
    ghost use Rattle.glsreply.specs.steps.ReplyState.{Holds};
    ghost use Rattle.gsession.specs.TakingRefs.{AcceptsRefs, AwaitsRefs, IsRefsFault, TakesLines, TakesLs, with_refs};

    /// Reads the ls-refs reply, and nothing after it. Stores the requested updates and the wants,
    /// and returns the target of an unborn `HEAD`. For each ref that matches a refspec, the session
    /// requests an update of the local ref to which the refspec maps that ref. If several updates
    /// would be for the same local ref, the session requests only the first. The wants are the
    /// requested ids that are not connected.
    ///
    /// Fails with `NoOpenRequest` if no request for refs is open, and reads nothing. Any other
    /// fault ends the session. Fails with `Message` if a packet of the reply is unreadable or
    /// malformed, or if the name of a local ref would be invalid. The fault for an invalid name
    /// gives the position of the reply's last packet. Otherwise fails with `TooManyWants` for more
    /// wants than the limits of the session allow, or with `Repo` if out of memory.
    pub fn take_ls<S: Source, B: Allocator + Copy>(
        &mut self,
        repo: &Repo<A>,
        reader: &mut PacketReader<S, B>,
    ) -> Result<LsTaken<A>, ClientFault<A>>
        ensures takes { TakesLs self.old repo.now.graph.entries
            (change_of S.remaining reader.old.source reader.new.source) self.new result }
        ensures reader { LeavesReplies S.is_down reader.old reader.new result }
        ensures loans { S.loans reader.new.source ≡ S.loans reader.old.source }
    {
        match self.read_refs(repo, reader) {
            Ok(taken) => Ok(taken),
            Err(fault) => Err(self.end_with_fault(fault)),
        }
    }

    // Reads the ls-refs reply, if the open request is for refs. A fault does not yet end the
    // session.
    fn read_refs<S: Source, B: Allocator + Copy>(
        &mut self,
        repo: &Repo<A>,
        reader: &mut PacketReader<S, B>,
    ) -> Result<LsTaken<A>, ClientFault<A>>
        ensures takes { AnswersLs self.old repo.now.graph.entries
            (change_of S.remaining reader.old.source reader.new.source) self.new result }
        ensures reader { LeavesReplies S.is_down reader.old reader.new result }
        ensures loans { S.loans reader.new.source ≡ S.loans reader.old.source }
    {
        if !self.awaits_refs() {
            return Err(ClientFault::NoOpenRequest);
        }
        match read_ls_reply_in(reader, self.format, self.ends, self.allocator()) {
            Ok(reply) => self.take_refs(repo, &reply),
            Err(fault) => Err(ClientFault::Message(fault)),
        }
    }

    /// Returns a reader of the reply to the open request for refs, or `None` if no request for refs
    /// is open. [`Session::accept_refs`] applies the complete reply.
    pub fn refs_reader(&self) -> Option<LsReplyReader<A>>
        ensures { MatchOption result
            (¬ (AwaitsRefs self.now))
            (λ reader. AwaitsRefs self.now × (reader.format ≡ self.now.format)
            × (reader.ends ≡ self.now.ends) × Holds reader []) }
    {
        if self.awaits_refs() {
            Some(LsReplyReader::new(self.allocator(), self.format, self.ends))
        } else {
            None
        }
    }

    /// Applies a complete ls-refs reply, as [`Session::take_ls`] does after it read the reply.
    ///
    /// Fails with `NoOpenRequest` if no request for refs is open, and changes nothing. Any other
    /// fault ends the session. Fails with `Message` if the name of a local ref would be invalid.
    /// Otherwise fails with `TooManyWants` for more wants than the limits of the session allow, or
    /// with `Repo` if out of memory.
    pub fn accept_refs(
        &mut self,
        repo: &Repo<A>,
        reply: &LsReply<A>,
    ) -> Result<LsTaken<A>, ClientFault<A>>
        requires { IsLsReplyIn self.old.format reply.now }
        ensures { AcceptsRefs self.old repo.now.graph.entries reply.now self.new result }
    {
        if !self.awaits_refs() {
            return Err(ClientFault::NoOpenRequest);
        }
        match self.take_refs(repo, reply) {
            Ok(taken) => Ok(taken),
            Err(fault) => Err(self.end_with_fault(fault)),
        }
    }

    // Returns whether a request for refs waits for its reply.
    fn awaits_refs(&self) -> bool
        ensures { MatchBool result (AwaitsRefs self.now) (¬ (AwaitsRefs self.now)) }
    {
        match &self.pending {
            Some(Request::Ls(_)) => true,
            Some(Request::Empty | Request::Fetch(_)) | None => false,
        }
    }

    // Updates the session with the refs of a complete reply.
    fn take_refs(
        &mut self,
        repo: &Repo<A>,
        reply: &LsReply<A>,
    ) -> Result<LsTaken<A>, ClientFault<A>>
        requires waits { AwaitsRefs self.old }
        requires formed { IsLsReplyIn self.old.format reply.now }
        ensures { AnswersRefs self.old repo.now.graph.entries reply.now self.new result }
    {
        if !are_named(self.refspecs.as_slice(), reply) {
            return Err(self.misnamed_fault(reply));
        }
        let asks = asked_of(self.allocator(), self.refspecs.as_slice(), reply)?;
        self.take_asked(repo, reply, asks)
    }

    // Stores the requested updates that follow from a reply, and the wants.
    fn take_asked(
        &mut self,
        repo: &Repo<A>,
        reply: &LsReply<A>,
        asks: Asks<A>,
    ) -> Result<LsTaken<A>, ClientFault<A>>
        requires waits { AwaitsRefs self.old }
        requires asked { FindsAsks self.old.refspecs reply.now.lines asks }
        requires ids { All (λ ask. IsIdOf self.old.format ask.id) asks }
        ensures { AnswersRefs self.old repo.now.graph.entries reply.now self.new result }
    {
        match self.find_wants(repo, reply, &asks) {
            Ok((wants, taken)) => {
                self.keep_wants(asks, wants);
                Ok(taken)
            }
            Err(fault) => Err(fault),
        }
    }

    // Returns the wants that follow from the requested updates, and the result of accepting the
    // reply.
    fn find_wants(
        &self,
        repo: &Repo<A>,
        reply: &LsReply<A>,
        asks: &Asks<A>,
    ) -> Result<(Vec<Oid, A>, LsTaken<A>), ClientFault<A>>
        requires asked { FindsAsks self.now.refspecs reply.now.lines asks.now }
        requires ids { All (λ ask. IsIdOf self.now.format ask.id) asks.now }
        ensures wanted { MatchResult result
            (λ pair. TakesLines self.now repo.now.graph.entries reply.now
            (with_refs self.now reply.now pair.0.items) pair.1)
            (IsRefsFault self.now repo.now.graph.entries reply.now) }
        ensures ids { IfOk result (λ pair. All (IsIdOf self.now.format) pair.0.items) }
        ensures few { IfOk result (λ pair. length pair.0.items ≤ max_wants self.now.options.limits) }
    {
        let wants = wants_of(repo, asks)?;
        if wants.len() > max_wants(self.options.limits) {
            return Err(ClientFault::TooManyWants);
        }
        let taken = LsTaken {
            asks: asks.len(),
            wants: wants.len(),
            unborn: unborn_of(self.allocator(), self.refspecs.as_slice(), reply)?,
        };
        Ok((wants, taken))
    }

    // Stores the requested updates and the wants.
    fn keep_wants(&mut self, asks: Asks<A>, wants: Vec<Oid, A>)
        requires waits { AwaitsRefs self.old }
        requires ids { All (IsIdOf self.old.format) wants.items }
        requires few { length wants.items ≤ max_wants self.old.options.limits }
        ensures { self.new ≡ record self.old {
          stage = stage_for wants.items;
          pending = None;
          asks = asks;
          wants = wants.items;
        } }
    {
        self.stage = stage_for(wants.as_slice());
        set_pending(&mut self.pending, None);
        self.asks = asks;
        self.wants = wants;
    }

    // Returns the fault for an invalid name of a local ref, with the position of the reply's last
    // packet.
    fn misnamed_fault(&self, reply: &LsReply<A>) -> ClientFault<A>
        requires { ¬ (AreNamed {A = A} (asks_by_all self.now.refspecs reply.now.lines)) }
        ensures { (g : List (Entry A)) → IsRefsFault self.now g reply.now result }
    {
        ClientFault::Message(MessageFault {
            frame: reply.last_frame(self.ends),
            why: Why::BadName,
        })
    }
}

// Returns the next stage: `Fetching` if there are wants, and `Settling` otherwise.
fn stage_for(wants: &[Oid]) -> Stage
    ensures { result ≡ stage_for wants.now }
{
    if wants.is_empty() {
        Stage::Settling
    } else {
        Stage::Fetching
    }
}
