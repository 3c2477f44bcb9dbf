//! The answers to fetch requests (gitprotocol-v2(5), "fetch"). The common ids of a request are the
//! haves that the server holds.

ghost use Rattle.std.specs.Prelude.{◌≡◌, ◌↔◌, IfOk, IfErr, IsTrue, MatchResult};
ghost use Rattle.gobject.specs.Packs.{MayPack};
ghost use Rattle.gdag.specs.declared.fault.GraphFault.TheVariants.{Memory as OutOfMemory};
ghost use Rattle.gfetchreply.specs.Views.{IsReplyOf, reply_in};
ghost use Rattle.ganswer.specs.Answers.{FetchRefuses};
ghost use Rattle.ganswer.specs.BegunFetches.{BeginsFetch, FetchDeclines};
ghost use Rattle.ganswer.specs.FetchAnswers.{FetchAnswer, IsReadyFor, IsSent, commons_of};
ghost use Rattle.ganswer.specs.OnePack.{packing_of_fault, packing_of_fetch};
ghost use Rattle.ganswer.specs.steps.Answers.{ChecksWants, PacksFor};
ghost use Rattle.ganswer.specs.declared.fault.ServeFault.TheVariants.{Memory};
ghost use Rattle.ganswer.specs.declared.one_pack.Packing.TheVariants as packing;

use crate::fault::ServeFault;
use crate::one_pack::OnePack;
use crate::server::Server;
use gfetchreply::{Acks, FetchReply, PackBytes};
use ggraph::graph_laws::positions_are_nodes;
use ggraph::{Entry, GraphFault, Packer, common_ids, ready, send_list, send_list_tags};
use gname::Oid;
use grequest::{FetchFlag, FetchRequest};
use std::alloc::Allocator;

/// The answer to a fetch request, before the objects to send are packed.
#[derive(Drop)]
pub enum BegunFetch<A: Allocator + Copy> {
    /// The common ids without a pack, since at least one want reaches no common id.
    Acks(Acks<A>),
    /// The common ids and the objects to send, since each want reaches a common id.
    Ready(Acks<A>, Vec<Entry<A>, A>),
    /// The objects to send, without acknowledgments.
    Pack(Vec<Entry<A>, A>),
}

impl<A: Allocator + Copy> Server<A> {
    /// Returns the answer to a fetch request (gitprotocol-v2(5), "fetch"), as [`Server::answer`]
    /// does. The packer is asked for a pack at most once, and only if the answer contains a pack or
    /// the packer fails.
    ///
    /// A fault of the packer is always reported. `Memory` is reported only if the packer was not
    /// asked for a pack.
    pub fn answer_fetch<K: Packer<A>>(
        &self,
        request: &FetchRequest<A>,
        packer: &mut OnePack<'_, K>,
    ) -> Result<FetchReply<A>, ServeFault>
        requires unasked { packer.old.answered ≡ packing.Unasked }
        ensures answer { MatchResult result
            (λ reply. FetchAnswer self.now (MayPack (K.packs packer.old.packer)) request.now.asked
            (reply_in reply))
            (FetchRefuses self.now (K.pack_fails packer.old.packer) request.now.asked) }
        ensures format { IfOk result (IsReplyOf request.now.limits self.now.graph.format) }
        ensures packing { MatchResult result
            (λ reply. packer.new.answered ≡ packing_of_fetch (reply_in reply))
            (λ fault. packer.new.answered ≡ packing_of_fault fault) }
        ensures packer { packer.new.packer ≡ packer.old.packer }
    {
        match self.begin_fetch(request)? {
            BegunFetch::Acks(commons) => Ok(FetchReply::Acks(commons)),
            BegunFetch::Ready(commons, list) => {
                let pack = self.pack(request, list.as_slice(), packer)?;
                Ok(FetchReply::Ready(commons, pack))
            }
            BegunFetch::Pack(list) => {
                let pack = self.pack(request, list.as_slice(), packer)?;
                Ok(FetchReply::Pack(pack))
            }
        }
    }

    /// Returns the answer to a fetch request before the objects are packed, so that the caller can
    /// pack the objects itself.
    ///
    /// Fails with `NoWants` if the request has no wants, or with `NotOurs` for the first want that
    /// the server does not hold. Otherwise fails only if memory runs out.
    pub fn begin_fetch(&self, request: &FetchRequest<A>) -> Result<BegunFetch<A>, ServeFault>
        ensures { MatchResult result (BeginsFetch request.now.limits self.now request.now.asked)
            (FetchDeclines self.now request.now.asked) }
    {
        self.check_wants(request.wants())?;
        let commons = self.commons(request)?;
        if request.is_direct() {
            let list = self.objects(request, commons.ids())?;
            return Ok(BegunFetch::Pack(list));
        }
        if !self.is_ready(request, commons.ids())? {
            return Ok(BegunFetch::Acks(commons));
        }
        let list = self.objects(request, commons.ids())?;
        Ok(BegunFetch::Ready(commons, list))
    }

    // Checks that the request has wants, and that the server holds all of them.
    fn check_wants(&self, wants: &[Oid]) -> Result<(), ServeFault>
        ensures { ChecksWants self.now wants.now result }
    {
        if wants.is_empty() {
            return Err(ServeFault::NoWants);
        }
        match self.graph().first_absent(wants) {
            Some(id) => Err(ServeFault::NotOurs { id }),
            None => Ok(()),
        }
    }

    // Returns acknowledgments of the common ids. The acknowledgments have the limits of the
    // request.
    fn commons(&self, request: &FetchRequest<A>) -> Result<Acks<A>, ServeFault>
        ensures commons { IfOk result (λ commons. commons ≡ record {
          limits = request.now.limits;
          format = self.now.graph.format;
          ids = commons_of self.now request.now.asked;
        }) }
        ensures fault { IfErr result (λ fault. fault ≡ Memory) }
    {
        // Laws that the proof uses.
        positions_are_nodes::<A>();
        request.laws();
        let ids = self.common_ids(request)?;
        let made = Acks::from_ids_within(self.graph().format(), ids, request.limits());
        Ok(made.unwrap())
    }

    // Returns the common ids.
    fn common_ids(&self, request: &FetchRequest<A>) -> Result<Vec<Oid, A>, ServeFault>
        ensures ids { IfOk result (λ ids. ids.items ≡ commons_of self.now request.now.asked) }
        ensures fault { IfErr result (λ fault. fault ≡ Memory) }
    {
        common_ids(self.graph(), request.haves()).map_err(no_memory)
    }

    // Returns whether each want reaches one of the common ids.
    fn is_ready(&self, request: &FetchRequest<A>, commons: &[Oid]) -> Result<bool, ServeFault>
        requires { commons.now ≡ commons_of self.now request.now.asked }
        ensures ready { IfOk result (λ ready. IsTrue ready
            ↔ IsReadyFor self.now request.now.asked) }
        ensures fault { IfErr result (λ fault. fault ≡ Memory) }
    {
        ready(self.graph(), request.wants(), commons).map_err(no_memory)
    }

    // Returns the pack of the objects to send. Only the contract uses `request`.
    fn pack<K: Packer<A>>(
        &self,
        request: &FetchRequest<A>,
        list: &[Entry<A>],
        packer: &mut OnePack<'_, K>,
    ) -> Result<PackBytes<A>, ServeFault>
        requires sent { IsSent self.now request.now.asked list.now }
        requires unasked { packer.old.answered ≡ packing.Unasked }
        ensures pack { PacksFor self.now (MayPack (K.packs packer.old.packer))
            (K.pack_fails packer.old.packer) request.now.asked result }
        ensures packing { MatchResult result
            (λ _. packer.new.answered ≡ packing.Packed)
            (λ fault. packer.new.answered ≡ packing_of_fault fault) }
        ensures packer { packer.new.packer ≡ packer.old.packer }
    {
        let _ = request;
        let bytes = packer.pack(self.graph().allocator(), list)?;
        Ok(PackBytes::new(bytes).unwrap())
    }

    // Returns the objects to send: those that a want reaches and no common id reaches, and the
    // requested tags.
    fn objects(
        &self,
        request: &FetchRequest<A>,
        commons: &[Oid],
    ) -> Result<Vec<Entry<A>, A>, ServeFault>
        requires { commons.now ≡ commons_of self.now request.now.asked }
        ensures list { IfOk result (λ list. IsSent self.now request.now.asked list.items) }
        ensures fault { IfErr result (λ fault. fault ≡ Memory) }
    {
        let graph = self.graph();
        if request.has(FetchFlag::IncludeTag) {
            send_list_tags(graph, request.wants(), commons, self.refs()).map_err(no_memory)
        } else {
            send_list(graph, request.wants(), commons).map_err(no_memory)
        }
    }
}

// Returns `Memory` for a fault of a graph walk, since a graph walk fails only if memory runs out.
fn no_memory(fault: GraphFault) -> ServeFault
    requires { fault ≡ OutOfMemory }
    ensures { result ≡ Memory }
{
    let _ = fault;
    ServeFault::Memory
}
