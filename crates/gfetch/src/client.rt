//! The client's state during a conversation.

ghost use Rattle.std.specs.Prelude.{◌≡◌, Err, IfOk, List, MatchResult, None, Ok, Some};
ghost use Rattle.gpkt.specs.Packets.{Packet};
ghost use Rattle.ggrammar.specs.Grammar.{IsWhole};
ghost use Rattle.glsreply.specs.LsReplies as ls;
ghost use Rattle.glsreply.specs.steps.ReplyState.{Holds};
ghost use Rattle.gfetchreply.specs.FetchReplies as fetch;
ghost use Rattle.grequest.specs.Asked.{FetchAsked, Ls, LsRefsAsked};
ghost use Rattle.grequest.specs.RequestValues.{asked_by_request};
ghost use Rattle.gsession.specs.Keeping.{KeepsOn};
ghost use Rattle.gsession.specs.Readers.{HoldsObjects};
ghost use Rattle.gsession.specs.Requesting.{Requests};
ghost use Rattle.gsession.specs.Sessions.{IsSession, over};
ghost use Rattle.gsession.specs.TakingReplies.{Awaits, reading_for};
ghost use Rattle.gsession.specs.declared.stage.Stage.TheVariants.{Settling};

use crate::fault::FetchFault;
use crate::fetched::Fetched;
use gclientrepo::Repo;
use ggrammar::MessageFault;
use ggraph::graph_laws::distinct_are_once;
use ggraph::{KeepingIndexer, Offers};
use ghello::Advert;
use glsreply::LsReplyReader;
use gname::RefName;
use grequest::Request;
use gsession::{ClientFault, ObjectsReader, Session, Taken};
use std::alloc::Allocator;
use std::marker::Model;
use std::mem;

/// A client's repository and session during a conversation. Each request for objects continues the
/// walk of the previous one, as long as the replies have only acknowledgments.
#[derive(Drop)]
pub(crate) struct Client<A: Allocator + Copy> {
    repo: Repo<A>,
    session: Session<A>,
    // The ref that the server's unborn `HEAD` points at, if a refspec fetches `HEAD`.
    unborn: Option<RefName<A>>,
    // The walk of the previous requests for objects, or `None` if the next request starts a new
    // one.
    walk: Option<Offers<A>>,
}

impl<A: Allocator + Copy> Model for Client<A> {
    ghost use Rattle.std.specs.Prelude.{IfSome};
    ghost use Rattle.gsession.specs.Offering.{AreOffersOf};
    ghost use Rattle.gfetch.specs.Turns.{ClientState};

    ghost Value = { ClientState A };

    ghost view = { λ it. record { session = it.session; repo = it.repo; unborn = it.unborn } };

    ghost invariant = { λ it. IfSome it.walk (AreOffersOf it.session it.repo.graph.entries) };
}

impl<A: Allocator + Copy> Client<A> {
    ghost use Rattle.gfetch.specs.steps.Accepting.{AcceptsAdvert, AcceptsObjects, AcceptsRefs, IsReady};
    ghost use Rattle.gfetch.specs.steps.Ending.{SettlesFetch};

    /// Returns a client with this repository and this session, and without a walk.
    pub(crate) fn new(repo: Repo<A>, session: Session<A>) -> Client<A>
        ensures repo { result.repo ≡ repo }
        ensures session { result.session ≡ session }
        ensures unborn { result.unborn ≡ None }
    {
        Client {
            repo,
            session,
            unborn: None,
            walk: None,
        }
    }

    /// Returns the repository.
    pub(crate) fn repo(&self) -> &Repo<A>
        ensures { result.now ≡ self.now.repo }
    {
        &self.repo
    }

    /// Returns the session.
    pub(crate) fn session(&self) -> &Session<A>
        ensures { result.now ≡ self.now.session }
    {
        &self.session
    }

    /// Exchanges the repository with another repository.
    pub(crate) fn swap_repo(&mut self, repo: &mut Repo<A>)
        ensures { repo.new ≡ self.old.repo }
    {
        self.walk = None;
        mem::swap(&mut self.repo, repo);
    }

    /// Ends the session because the awaited message is malformed. Returns the fault.
    pub(crate) fn refuse(&mut self, fault: MessageFault) -> ClientFault<A>
        ensures fault { result ≡ ClientFault.Message fault }
        ensures session { self.new.session ≡ over self.old.session }
        ensures repo { self.new.repo ≡ self.old.repo }
        ensures unborn { self.new.unborn ≡ self.old.unborn }
    {
        self.walk = None;
        self.session.refuse(fault)
    }

    /// Applies the advertisement. Fails if the client does not support the server.
    pub(crate) fn accept_advert(&mut self, advert: &Advert<A>) -> Result<(), ClientFault<A>>
        ensures accepts { AcceptsAdvert self.old.session advert.now self.new.session result }
        ensures repo { self.new.repo ≡ self.old.repo }
        ensures unborn { self.new.unborn ≡ self.old.unborn }
    {
        self.walk = None;
        match advert.check_in(self.session.format()) {
            Ok(()) => self.session.hear(advert),
            Err(fault) => Err(self.session.refuse(fault)),
        }
    }

    /// Makes the next request, which then waits for its reply. Fails like `Session::request`.
    pub(crate) fn request(&mut self) -> Result<Request<A>, ClientFault<A>>
        ensures requests { MatchResult result
            (λ request. Requests self.old.session self.old.repo.graph.entries self.new.session
            (Ok (asked_by_request request)))
            (λ fault. Requests self.old.session self.old.repo.graph.entries self.new.session
            (Err fault)) }
        ensures repo { self.new.repo ≡ self.old.repo }
        ensures unborn { self.new.unborn ≡ self.old.unborn }
    {
        match self.session.request_on(&self.repo, &mut self.walk) {
            Ok(request) => Ok(request),
            Err(fault) => {
                self.walk = None;
                Err(fault)
            }
        }
    }

    /// Applies the reply to an ls-refs request.
    pub(crate) fn accept_refs(&mut self, reader: LsReplyReader<A>) -> Result<(), ClientFault<A>>
        ensures accepts { (asked : LsRefsAsked) (lines : List Packet)
            → self.old.session.pending ≡ Some (Ls asked) → Holds reader lines
            → IsWhole (ls.judge self.old.session.format self.old.session.ends) lines
            → AcceptsRefs self.old lines self.new result }
        ensures ready { IfOk result (λ done. IsReady self.old.session self.new.session) }
        ensures repo { self.new.repo ≡ self.old.repo }
    {
        self.walk = None;
        let reply = match reader.into_reply(self.session.format()) {
            Some(reply) => reply,
            None => return Err(ClientFault::NoOpenRequest),
        };
        match self.session.accept_refs(&self.repo, &reply) {
            Ok(taken) => {
                self.unborn = taken.unborn;
                Ok(())
            }
            Err(fault) => Err(fault),
        }
    }

    /// Applies the reply to a request for objects. The walk remains valid after a reply with only
    /// acknowledgments.
    pub(crate) fn accept_objects<K: KeepingIndexer<A>>(
        &mut self,
        indexer: &mut K,
        reader: ObjectsReader<K::Feed, A>,
    ) -> Result<(), ClientFault<A>>
        ensures accepts { (asked : FetchAsked) (lines : List Packet)
            → Awaits self.old.session asked
            → HoldsObjects K.fed K.index_fails (reading_for self.old.session asked) reader lines
            → IsWhole (fetch.judge (reading_for self.old.session asked)) lines
            → AcceptsObjects K.indexes K.index_fails asked self.old lines self.new result }
        ensures ready { IfOk result (λ done. IsReady self.old.session self.new.session) }
        ensures keeps { KeepsOn (K.keeps indexer.old) (K.keeps indexer.new)
            self.old.repo.graph.entries self.new.repo.graph.entries }
    {
        // Laws that the proof uses.
        distinct_are_once();
        self.session.laws();
        match self.session.accept_objects(&mut self.repo, indexer, reader) {
            Ok(Taken::Round { .. }) => Ok(()),
            Ok(Taken::PackTaken { .. }) => {
                self.walk = None;
                Ok(())
            }
            Err(fault) => {
                self.walk = None;
                Err(fault)
            }
        }
    }

    /// Updates the local refs after the conversation. Fails if the session can't update the refs.
    pub(crate) fn settle(&mut self) -> Result<Fetched<A>, FetchFault<A>>
        ensures settles { self.old.session.stage ≡ Settling
            → SettlesFetch self.old.session self.old.repo self.old.unborn self.new.repo result }
        ensures well { IsSession self.old.session }
        ensures graph { self.new.repo.graph.entries ≡ self.old.repo.graph.entries }
    {
        self.walk = None;
        let requests = self.session.rounds();
        let settled = self.session.settle(&mut self.repo)?;
        let unborn = mem::replace(&mut self.unborn, None);
        Ok(Fetched {
            settled,
            requests,
            unborn,
        })
    }
}
