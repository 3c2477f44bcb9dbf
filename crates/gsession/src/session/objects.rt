//! Reading fetch replies.

ghost use Rattle.std.specs.Prelude.{◌≡◌, ◌++◌, [], false, All, Contains, Err, IfErr, IfOk, IsTrue, List, MatchOption, MatchResult, OnOk, length};
ghost use Rattle.gname.specs.Ids.{Id};
ghost use Rattle.gpkt.specs.Change.{change_of};
ghost use Rattle.gpkt.specs.Packets.{Bytes, Packet};
ghost use Rattle.gsession.specs.steps.Calls.{MayHaveFed};

use crate::acks::{first_strange, with_acks};
use crate::fault::ClientFault;
use crate::feed::PackFeed;
use crate::reader::ObjectsReader;
use crate::session::{Session, set_pending};
use crate::stage::Stage;
use crate::taken::Taken;
use gclientrepo::Repo;
use gfetchreply::{FetchHead, FetchReading, StreamLimit, read_fetch_reply_into_in};
use ggraph::graph_laws::distinct_are_once;
use ggraph::{Entry, IndexFault, Indexer, KeepingIndexer, KeepsNothing};
use gname::Oid;
use gpkt::{PacketReader, Source};
use grequest::Request;
use std::alloc::Allocator;

impl<A: Allocator + Copy> Session<A> {
    ghost use Rattle.gfetchreply.specs.FetchReplies.{FetchReply, Says};
    ghost use Rattle.gfetchreply.specs.FetchHeads.{acknowledged_by, head_of, pack_of};
    ghost use Rattle.gfetchreply.specs.Views.{head_in, reading_in};
    ghost use Rattle.gdag.specs.Levels.{distinct_of};
    ghost use Rattle.gdag.specs.Reach.{Grows};
    ghost use Rattle.grequest.specs.Asked.{FetchAsked, is_direct};
    ghost use Rattle.gsession.specs.Keeping.{KeepsOn};
    ghost use Rattle.gsession.specs.Sessions.{AreCommons, LeavesReplies};
    ghost use Rattle.gsession.specs.steps.Calls.{AnswersRead, AnswersReply, FitsOpen, IsAcksFault, IsStrangeAck, MayHaveFed};
    ghost use Rattle.gsession.specs.Readers.{HoldsObjects};
    ghost use Rattle.gsession.specs.TakingReplies.{AcceptsRead, AddsCommons, Awaits, AwaitsObjects, HasPack, HasTaken, TakesReply, after_acks, reading_for};

    /// Reads the reply to a request for objects, and nothing after it. Passes the pack to the
    /// indexer while the pack arrives. After the end of the reply, checks that each acknowledged id
    /// is one of the request's haves, and adds the id to the common ids. Adds all objects of the
    /// pack to the repository, or no objects.
    ///
    /// Fails with `NoOpenRequest` if no request for objects is open, and reads nothing. Any other
    /// fault ends the session, and leaves the repository unchanged. Fails with `Message` if a
    /// packet of the reply is unreadable or malformed, or if there is not enough memory for an
    /// acknowledged id. Otherwise fails with `StrangeAck` if an acknowledged id is not a have.
    /// Otherwise fails with `Index` if the indexer rejected the pack. Otherwise fails with `Repo`
    /// if the graph rejects the objects, or if out of memory.
    pub fn take_reply<S: Source, K: Indexer<A>, B: Allocator + Copy>(
        &mut self,
        repo: &mut Repo<A>,
        reader: &mut PacketReader<S, B>,
        indexer: &K,
    ) -> Result<Taken, ClientFault<A>>
        ensures takes { TakesReply K.indexes K.index_fails self.old repo.old
            (change_of S.remaining reader.old.source reader.new.source) self.new repo.new result }
        ensures grows { Grows repo.old.graph.entries repo.new.graph.entries }
        ensures reader { LeavesReplies S.is_down reader.old reader.new result }
        ensures loans { S.loans reader.new.source ≡ S.loans reader.old.source }
    {
        self.take_reply_into(repo, reader, &mut KeepsNothing::new(indexer))
    }

    /// Reads a reply like [`Session::take_reply`], with an indexer that has a store. The indexer
    /// keeps each object that the repository gains, whatever the server sends. It still keeps all
    /// that it kept before, and may keep objects of a reply that is then rejected.
    pub fn take_reply_into<S: Source, K: KeepingIndexer<A>, B: Allocator + Copy>(
        &mut self,
        repo: &mut Repo<A>,
        reader: &mut PacketReader<S, B>,
        indexer: &mut K,
    ) -> Result<Taken, ClientFault<A>>
        ensures takes { TakesReply K.indexes K.index_fails self.old repo.old
            (change_of S.remaining reader.old.source reader.new.source) self.new repo.new result }
        ensures grows { Grows repo.old.graph.entries repo.new.graph.entries }
        ensures keeps { KeepsOn (K.keeps indexer.old) (K.keeps indexer.new)
            repo.old.graph.entries repo.new.graph.entries }
        ensures reader { LeavesReplies S.is_down reader.old reader.new result }
        ensures loans { S.loans reader.new.source ≡ S.loans reader.old.source }
    {
        match self.read_objects(repo, reader, indexer) {
            Ok(taken) => Ok(taken),
            Err(fault) => Err(self.end_with_fault(fault)),
        }
    }

    // Reads the fetch reply, if the open request is for objects. A fault does not yet end the
    // session.
    fn read_objects<S: Source, K: KeepingIndexer<A>, B: Allocator + Copy>(
        &mut self,
        repo: &mut Repo<A>,
        reader: &mut PacketReader<S, B>,
        indexer: &mut K,
    ) -> Result<Taken, ClientFault<A>>
        ensures takes { AnswersReply K.indexes K.index_fails self.old repo.old
            (change_of S.remaining reader.old.source reader.new.source) self.new repo.new result }
        ensures keeps { KeepsOn (K.keeps indexer.old) (K.keeps indexer.new)
            repo.old.graph.entries repo.new.graph.entries }
        ensures reader { LeavesReplies S.is_down reader.old reader.new result }
        ensures loans { S.loans reader.new.source ≡ S.loans reader.old.source }
    {
        let Some(reading) = self.reply_reading() else {
            return Err(ClientFault::NoOpenRequest);
        };
        let alloc = self.allocator();
        let mut feed = PackFeed::start(alloc, &*indexer);
        let read = read_fetch_reply_into_in(reader, reading, &mut feed, alloc);
        let feed = feed.into_feed();
        match read {
            Ok(head) => self.take_head(repo, head, indexer, feed),
            Err(fault) => Err(ClientFault::Message(fault)),
        }
    }

    /// Returns a reader of the reply to the open request for objects, or `None` if no request for
    /// objects is open. The reader passes the pack to this indexer. [`Session::accept_objects`]
    /// applies the complete reply.
    pub fn objects_reader<K: KeepingIndexer<A>>(
        &self,
        indexer: &K,
    ) -> Option<ObjectsReader<K::Feed, A>>
        ensures { MatchOption result
            (¬ (AwaitsObjects self.now))
            (λ reader. (asked : FetchAsked) × Awaits self.now asked
            × HoldsObjects K.fed K.index_fails (reading_for self.now asked) reader []) }
    {
        match self.reply_reading() {
            Some(reading) => Some(ObjectsReader::start(self.allocator(), reading, indexer)),
            None => None,
        }
    }

    /// Applies a complete reply to the open request for objects, as [`Session::take_reply_into`]
    /// does after it read the reply.
    ///
    /// Fails with `NoOpenRequest` if no request for objects is open, or if the reply has no pack
    /// although the request requires one. Any other fault ends the session. A fault leaves the
    /// repository unchanged. Fails with `StrangeAck` if an acknowledged id is not a have. Otherwise
    /// fails with `Index` if the indexer rejected the pack. Otherwise fails with `Repo` if the
    /// graph rejects the objects, or if out of memory.
    pub fn accept_objects<K: KeepingIndexer<A>>(
        &mut self,
        repo: &mut Repo<A>,
        indexer: &mut K,
        reader: ObjectsReader<K::Feed, A>,
    ) -> Result<Taken, ClientFault<A>>
        ensures accepts { (asked : FetchAsked) (lines : List Packet) (reply : FetchReply)
            → Awaits self.old asked
            → HoldsObjects K.fed K.index_fails (reading_for self.old asked) reader lines
            → Says (reading_for self.old asked) lines reply
            → AcceptsRead K.indexes K.index_fails asked.haves self.old repo.old reply self.new
            repo.new result }
        ensures closed { ¬ (AwaitsObjects self.old)
            → (result ≡ Err ClientFault.NoOpenRequest) × (self.new ≡ self.old) }
        ensures errs { IfErr result (λ _. repo.new ≡ repo.old) }
        ensures grows { Grows repo.old.graph.entries repo.new.graph.entries }
        ensures goes { IfOk result (HasTaken self.old self.new) }
        ensures round { IfOk result (AddsCommons self.old repo.old self.new repo.new) }
        ensures keeps { KeepsOn (K.keeps indexer.old) (K.keeps indexer.new)
            repo.old.graph.entries repo.new.graph.entries }
    {
        let ObjectsReader { reply, feed } = reader;
        let head = reply.finish();
        if !self.fits_open(&head) {
            return Err(ClientFault::NoOpenRequest);
        }
        match self.take_head(repo, head, indexer, feed) {
            Ok(done) => Ok(done),
            Err(fault) => Err(self.end_with_fault(fault)),
        }
    }

    // Returns whether this may be the head of a reply to the open request for objects.
    fn fits_open(&self, head: &FetchHead<A>) -> bool
        ensures fits { IsTrue result → FitsOpen self.now (head_in head.now) }
        ensures all { FitsOpen self.now (head_in head.now) → IsTrue result }
    {
        match self.reply_reading() {
            Some(reading) => match head {
                FetchHead::Acks(_) => !reading.direct,
                FetchHead::Ready(_) | FetchHead::Pack => true,
            },
            None => false,
        }
    }

    // Returns the parameters for reading the reply to the open request, or `None` if no request for
    // objects is open.
    fn reply_reading(&self) -> Option<FetchReading<StreamLimit>>
        ensures { MatchOption result
            (¬ (AwaitsObjects self.now))
            (λ reading. (asked : FetchAsked) × Awaits self.now asked
            × (reading_in reading ≡ reading_for self.now asked)) }
    {
        match &self.pending {
            Some(Request::Fetch(asked)) => Some(FetchReading {
                limits: self.options.limits,
                format: self.format,
                direct: asked.is_direct(),
                limit: self.limit,
                ends: self.ends,
            }),
            Some(Request::Empty | Request::Ls(_)) | None => None,
        }
    }

    // Updates the session and the repository with the content of a complete reply.
    fn take_head<K: KeepingIndexer<A>>(
        &mut self,
        repo: &mut Repo<A>,
        head: FetchHead<A>,
        indexer: &mut K,
        feed: Result<K::Feed, IndexFault>,
    ) -> Result<Taken, ClientFault<A>>
        requires { FitsOpen self.old (head_in head) }
        ensures goes { IfOk result (HasTaken self.old self.new) }
        ensures round { IfOk result (AddsCommons self.old repo.old self.new repo.new) }
        ensures errs { IfErr result (λ _. repo.new ≡ repo.old) }
        ensures grows { Grows repo.old.graph.entries repo.new.graph.entries }
        ensures answers { (asked : FetchAsked) (reply : FetchReply) → Awaits self.old asked
            → head_in head ≡ head_of reply
            → MayHaveFed K.fed K.index_fails feed (pack_of reply)
            → AnswersRead K.indexes K.index_fails asked.haves self.old repo.old reply self.new
            repo.new result }
        ensures keeps { KeepsOn (K.keeps indexer.old) (K.keeps indexer.new)
            repo.old.graph.entries repo.new.graph.entries }
    {
        match head {
            FetchHead::Acks(acks) => self.take_acks(acks.ids()),
            FetchHead::Ready(acks) => self.take_pack(repo, acks.ids(), indexer, feed),
            FetchHead::Pack => self.take_pack(repo, &[], indexer, feed),
        }
    }

    // Updates the session after a reply with only acknowledgments.
    fn take_acks(&mut self, acks: &[Oid]) -> Result<Taken, ClientFault<A>>
        requires { (asked : FetchAsked) × Awaits self.old asked × (is_direct asked ≡ false) }
        ensures goes { IfOk result (HasTaken self.old self.new) }
        ensures answers { (asked : FetchAsked) → Awaits self.old asked → MatchResult result
            (λ taken. All (Contains asked.haves) acks.now
            × (self.new ≡ after_acks self.old Stage.Fetching acks.now)
            × (taken ≡ Taken.Round (length self.new.commons)))
            (λ fault. IsAcksFault asked.haves acks.now fault × (self.new ≡ self.old)) }
    {
        self.check_acks(acks)?;
        let joined = with_acks(self.allocator(), self.commons.as_slice(), acks)?;
        let common = joined.len();
        self.commons = joined;
        self.stage = Stage::Fetching;
        set_pending(&mut self.pending, None);
        Ok(Taken::Round { common })
    }

    // Updates the session and the repository after a reply with a pack, with or without
    // acknowledgments. The indexer keeps the objects of the pack before the graph gains them.
    fn take_pack<K: KeepingIndexer<A>>(
        &mut self,
        repo: &mut Repo<A>,
        acks: &[Oid],
        indexer: &mut K,
        feed: Result<K::Feed, IndexFault>,
    ) -> Result<Taken, ClientFault<A>>
        requires { AwaitsObjects self.old }
        ensures goes { IfOk result (HasTaken self.old self.new) }
        ensures round { IfOk result (AddsCommons self.old repo.old self.new repo.new) }
        ensures errs { IfErr result (λ _. repo.new ≡ repo.old) }
        ensures grows { Grows repo.old.graph.entries repo.new.graph.entries }
        ensures answers { (asked : FetchAsked) (reply : FetchReply) → Awaits self.old asked
            → acknowledged_by reply ≡ acks.now
            → HasPack reply
            → MayHaveFed K.fed K.index_fails feed (pack_of reply)
            → AnswersRead K.indexes K.index_fails asked.haves self.old repo.old reply self.new
            repo.new result }
        ensures keeps { KeepsOn (K.keeps indexer.old) (K.keeps indexer.new)
            repo.old.graph.entries repo.new.graph.entries }
    {
        self.check_acks(acks)?;
        let entries = finish(indexer, feed)?;
        let commons = with_acks(self.allocator(), self.commons.as_slice(), acks)?;
        let added = repo.insert_all(entries)?;
        self.commons = commons;
        self.stage = Stage::Settling;
        set_pending(&mut self.pending, None);
        Ok(Taken::PackTaken { added })
    }

    // Checks that each acknowledged id is a have of the request.
    fn check_acks(&self, acks: &[Oid]) -> Result<(), ClientFault<A>>
        requires { AwaitsObjects self.now }
        ensures checks { (asked : FetchAsked) → Awaits self.now asked → MatchResult result
            (λ _. All (Contains asked.haves) acks.now)
            (IsStrangeAck asked.haves acks.now) }
        ensures commons { OnOk result (AreCommons self.now.options.limits self.now.format
            (distinct_of (self.now.commons ++ acks.now))) }
    {
        // Laws that the proof uses.
        distinct_are_once();
        self.laws();
        match first_strange(self.allocator(), self.open_haves(), acks) {
            Some(id) => Err(ClientFault::StrangeAck { id }),
            None => Ok(()),
        }
    }

    // Returns the haves of the open request for objects.
    fn open_haves(&self) -> &[Oid]
        ensures { (asked : FetchAsked) → Awaits self.now asked → result.now ≡ asked.haves }
    {
        match &self.pending {
            Some(Request::Fetch(asked)) => asked.haves(),
            Some(Request::Empty | Request::Ls(_)) | None => &[],
        }
    }
}

// Returns the entries of a pack whose last piece was fed, and keeps the objects of the pack. Fails
// with the indexer's first fault.
fn finish<K: KeepingIndexer<A>, A: Allocator + Copy>(
    indexer: &mut K,
    feed: Result<K::Feed, IndexFault>,
) -> Result<Vec<Entry<A>, A>, IndexFault>
    ensures answers { MatchResult result
        (λ entries. ((bytes : Bytes) → MayHaveFed K.fed K.index_fails feed bytes
        → K.indexes bytes entries.items))
        (λ fault. ((bytes : Bytes) → MayHaveFed K.fed K.index_fails feed bytes
        → K.index_fails bytes fault)) }
    ensures kept { IfOk result (λ entries. All (λ entry. K.keeps indexer.new entry.id)
        entries.items) }
    ensures stays { (id : Id) → K.keeps indexer.old id → K.keeps indexer.new id }
{
    match feed {
        Ok(feed) => indexer.finish(feed),
        Err(fault) => Err(fault),
    }
}
