//! The client's end of a dialogue (gitprotocol-v2(5), "Capability Advertisement" and "Command
//! Request").

ghost use Rattle.std.specs.Prelude.{◌≡◌, ◌≢◌, ◌<◌, ◌⊎◌, Bool, List, None, Some};
ghost use Rattle.gpkt.specs.Packets.{Packet};
ghost use Rattle.ggrammar.specs.Grammar.{IsWhole};
ghost use Rattle.ghello.specs.Adverts as adverts;
ghost use Rattle.glsreply.specs.LsReplies as ls;
ghost use Rattle.glsreply.specs.steps.ReplyState.{Holds};
ghost use Rattle.gfetchreply.specs.FetchReplies as fetch;
ghost use Rattle.grequest.specs.Asked.{Fetches, FetchAsked, Ls, LsRefsAsked};
ghost use Rattle.gsession.specs.Readers.{HoldsObjects};
ghost use Rattle.gsession.specs.Sessions.{IsBegun};
ghost use Rattle.gsession.specs.TakingReplies.{Awaits, reading_for};
ghost use Rattle.gsession.specs.declared.stage.Stage.TheVariants.{Over};
ghost use Rattle.gdialogue.specs.Sides.{MayAnswer, SaysExactly};
ghost use Rattle.gfetch.specs.Fetching.{AcceptsReply, AnswersAdvert, DeclinesReply, GoesOn, KeepsIndexer, KeepsObjects, MismatchesAdvert, messages_of};
ghost use Rattle.gfetch.specs.Saying.{reply_rest};
ghost use Rattle.gfetch.specs.steps.Accepting.{KeepsRest};

use crate::asking::ClientReply;
use crate::client::Client;
use crate::heard::Heard;
use gclientrepo::Repo;
use gdialogue::{Answer, Side};
use ggrammar::laws::grammars_are_exact;
use ggrammar::{Message, MessageFault, Step, Why};
use ggraph::KeepingIndexer;
use ghello::{Advert, AdvertReader};
use glsreply::LsReplyReader;
use grequest::Request;
use gsession::{ClientFault, ObjectsReader, Session};
use std::alloc::Allocator;
use std::mem;

/// The client's end of a connection. The client receives the advertisement, and then the reply to
/// each of its requests. The borrowed indexer reads the pack of a reply, and keeps the objects of
/// an accepted pack.
///
/// After the last reply, the client sends a lone flush packet, which ends the connection. If a
/// message is refused or rejected, the client sends nothing more, and stores the fault.
#[derive(Drop)]
pub struct ClientSide<'k, A: Allocator + Copy, K> {
    pub(crate) client: Client<A>,
    indexer: &'k mut K,
    fault: Option<ClientFault<A>>,
}

impl<'k, A: Allocator + Copy, K> ClientSide<'k, A, K> {
    /// Returns a client side that has received no message. The session must have begun on this
    /// repository, and must not have received an advertisement.
    pub(crate) fn new(
        repo: Repo<A>,
        session: Session<A>,
        indexer: &'k mut K,
    ) -> ClientSide<'k, A, K>
        ensures repo { result.client.repo ≡ repo }
        ensures session { result.client.session ≡ session }
        ensures indexer { result.indexer.now ≡ indexer.old }
        ensures in_place { result.indexer.ghost_name ≡ indexer.entry.ghost_name }
        ensures unborn { result.client.unborn ≡ None }
        ensures fault { result.fault ≡ None }
    {
        ClientSide {
            client: Client::new(repo, session),
            indexer,
            fault: None,
        }
    }

    /// Exchanges the repository of the side with another repository.
    pub(crate) fn swap_repo(&mut self, repo: &mut Repo<A>)
        ensures repo { repo.new ≡ self.old.client.repo }
        ensures indexer { KeepsIndexer self.old self.new }
    {
        self.client.swap_repo(repo);
    }

    /// Consumes the side, and returns only the indexer.
    pub(crate) fn into_indexer(self) -> &'k mut K
        ensures value { result.now ≡ self.entry.indexer.now }
        ensures in_place { result.ghost_name ≡ self.entry.indexer.ghost_name }
    {
        let ClientSide {
            client: _client,
            indexer,
            fault: _fault,
        } = self;
        indexer
    }

    /// Removes the fault that ended the dialogue, and returns it.
    pub(crate) fn take_fault(&mut self) -> Option<ClientFault<A>>
        ensures fault { result ≡ self.old.fault }
        ensures client { self.new.client ≡ self.old.client }
        ensures stays { KeepsRest self.old self.new }
    {
        mem::replace(&mut self.fault, None)
    }

    // Stores the fault, and ends the dialogue without a further packet.
    fn fail(&mut self, fault: ClientFault<A>) -> Answer<ClientReply<A>>
        ensures fault { self.new.fault ≡ Some fault }
        ensures client { self.new.client ≡ self.old.client }
        ensures stays { KeepsRest self.old self.new }
        ensures silent { result ≡ Answer.Last ClientReply.Silence }
    {
        self.fault = Some(fault);
        Answer::Last(ClientReply::Silence)
    }
}

impl<'k, A: Allocator + Copy, K: KeepingIndexer<A>> ClientSide<'k, A, K> {
    // Answers the advertisement.
    fn answer_advert(&mut self, advert: &Advert<A>) -> Answer<ClientReply<A>>
        ensures answers { (lines said : List Packet) (goes : Bool)
            → adverts.Says lines advert.now → IsBegun self.old.client.session
            → MayAnswer (SaysExactly reply_rest) result said goes
            → AnswersAdvert self.old self.new lines said goes
            ⊎ MismatchesAdvert self.old self.new lines said goes }
        ensures fewer { (reply : ClientReply A) → result ≡ Answer.GoesOn reply
            → messages_of self.new.client.session < messages_of self.old.client.session }
        ensures stays { KeepsRest self.old self.new }
    {
        match self.client.accept_advert(advert) {
            Ok(()) => self.ask_next(),
            Err(fault) => self.fail(fault),
        }
    }

    // Answers the reply to an ls-refs request.
    fn answer_refs(&mut self, reader: LsReplyReader<A>) -> Answer<ClientReply<A>>
        ensures answers { (asked : LsRefsAsked) (lines said : List Packet) (goes : Bool)
            → self.old.client.session.pending ≡ Some (Ls asked) → Holds reader lines
            → IsWhole (ls.judge self.old.client.session.format self.old.client.session.ends) lines
            → MayAnswer (SaysExactly reply_rest) result said goes
            → AcceptsReply K.indexes K.index_fails
            (Ls asked) self.old self.new lines said goes
            ⊎ DeclinesReply K.indexes K.index_fails
            (Ls asked) self.old self.new lines said goes }
        ensures fewer { (reply : ClientReply A) → result ≡ Answer.GoesOn reply
            → messages_of self.new.client.session < messages_of self.old.client.session }
        ensures stays { KeepsRest self.old self.new }
    {
        match self.client.accept_refs(reader) {
            Ok(()) => self.ask_next(),
            Err(fault) => self.fail(fault),
        }
    }

    // Answers the reply to a request for objects.
    fn answer_objects(&mut self, reader: ObjectsReader<K::Feed, A>) -> Answer<ClientReply<A>>
        ensures answers { (asked : FetchAsked) (lines said : List Packet) (goes : Bool)
            → Awaits self.old.client.session asked
            → HoldsObjects K.fed K.index_fails (reading_for self.old.client.session asked) reader
            lines
            → IsWhole (fetch.judge (reading_for self.old.client.session asked)) lines
            → MayAnswer (SaysExactly reply_rest) result said goes
            → AcceptsReply K.indexes K.index_fails (Fetches asked) self.old self.new lines said goes
            ⊎ DeclinesReply K.indexes K.index_fails (Fetches asked) self.old self.new lines said
            goes }
        ensures fewer { (reply : ClientReply A) → result ≡ Answer.GoesOn reply
            → messages_of self.new.client.session < messages_of self.old.client.session }
        ensures keeps { KeepsObjects K.keeps self.old self.new }
    {
        match self.client.accept_objects(&mut *self.indexer, reader) {
            Ok(()) => self.ask_next(),
            Err(fault) => self.fail(fault),
        }
    }

    // Returns the next request, or the lone flush packet if the client needs nothing more.
    fn ask_next(&mut self) -> Answer<ClientReply<A>>
        ensures goes { self.old.client.session.pending ≡ None → self.old.client.session.stage ≢ Over
            → (said : List Packet) (goes : Bool) → MayAnswer (SaysExactly reply_rest) result said goes
            → GoesOn self.old.client self.old.fault self.new said goes }
        ensures fewer { (reply : ClientReply A) → result ≡ Answer.GoesOn reply
            → messages_of self.new.client.session < messages_of self.old.client.session }
        ensures stays { KeepsRest self.old self.new }
    {
        let session = self.client.session();
        let format = session.format();
        if !session.is_due() {
            return Answer::Last(ClientReply::request(Request::Empty, format));
        }
        match self.client.request() {
            Ok(request) => {
                // Laws that the proof uses.
                let _rounds = self.client.session().rounds();
                Answer::GoesOn(ClientReply::request(request, format))
            }
            Err(fault) => self.fail(fault),
        }
    }
}

impl<'k, A: Allocator + Copy, K: KeepingIndexer<A>> Side<Heard<A, K::Feed>, ClientReply<A>>
    for ClientSide<'k, A, K> {
    ghost use Rattle.gfetch.specs.Fetching.{AnswersMessage, OpensFresh, RefusesMessage, messages_of};
    ghost use Rattle.gfetch.specs.Heard.{HearsAfter, session_brings, session_judge};

    ghost judge = { λ side. session_judge side.client.session };

    ghost brings = { λ side. session_brings side.client.session };

    ghost hears = { λ side message packets.
        HearsAfter side.client.session K.fed K.index_fails side.client.session.pending message
        packets };

    ghost opens = { OpensFresh };

    ghost answers = { AnswersMessage K.indexes K.index_fails K.keeps };

    ghost refuses = { RefusesMessage };

    ghost messages = { λ side. messages_of side.client.session };

    fn message(&self) -> Heard<A, K::Feed> {
        let session = self.client.session();
        if let Some(reader) = session.refs_reader() {
            return Heard::Refs(reader);
        }
        match session.objects_reader(&*self.indexer) {
            Some(reader) => Heard::Objects(reader),
            None => Heard::Advert(AdvertReader::new(self.client.repo().graph().allocator())),
        }
    }

    fn hear(&self, message: &mut Heard<A, K::Feed>, line: gpkt::Packet<'_>) -> Result<Step, Why> {
        match message {
            Heard::Advert(reader) => reader.accept_packet(line),
            Heard::Refs(reader) => reader.hear_packet(line),
            Heard::Objects(reader) => reader.hear_packet(&*self.indexer, line),
        }
    }

    fn answer(&mut self, message: Heard<A, K::Feed>) -> Answer<ClientReply<A>> {
        match message {
            Heard::Advert(reader) => {
                let advert = reader.finish();
                self.answer_advert(&advert)
            }
            Heard::Refs(reader) => self.answer_refs(reader),
            Heard::Objects(reader) => self.answer_objects(reader),
        }
    }

    fn refuse(&mut self, fault: MessageFault) -> ClientReply<A> {
        let fault = self.client.refuse(fault);
        self.fault = Some(fault);
        ClientReply::Silence
    }

    fn laws() {
        // Laws that the proof uses.
        grammars_are_exact();
    }
}
