//! A world whose client keeps all objects of its repository.

ghost use Rattle.std.specs.Prelude.{◌≡◌, MatchResult};
ghost use Rattle.gname.specs.Ids.{Id};
ghost use Rattle.gsession.specs.Keeping.{KeepsGraph};
ghost use Rattle.gworld.specs.KeepingWorlds.{KeptNeedsMemory, KeptPromises, StartsKept};
ghost use Rattle.gworld.specs.Promises.{AreRefsConnected};
ghost use Rattle.gworld.specs.Runs.{RunWith, RunsFront, outcomes_before};
ghost use Rattle.gworld.specs.Worlds.{tools_of};

use crate::fault::{RunFault, WorldFault};
use crate::outcome::Outcome;
use crate::parts::Parts;
use ganswer::Server;
use gclientrepo::Repo;
use ggraph::{FindingIndexer, Packer};
use gscenario::Event;
use std::alloc::{Allocator, Global};
use std::marker::Model;

/// A world whose client keeps all objects of its repository in the store of an indexer.
#[derive(Drop)]
pub struct KeepingWorld<
    P: Packer<A> + Drop,
    I: FindingIndexer<A> + Drop,
    A: Allocator + Copy = Global,
> {
    parts: Parts<A>,
    packer: P,
    indexer: I,
}

impl<P: Packer<A> + Drop, I: FindingIndexer<A> + Drop, A: Allocator + Copy> Model
    for KeepingWorld<P, I, A> {
    ghost use Rattle.gsession.specs.Keeping.{KeepsGraph};
    ghost use Rattle.gworld.specs.KeepingWorlds.{KeptWorld};
    ghost use Rattle.gworld.specs.Sound.{IsSound};
    ghost use Rattle.gworld.specs.Worlds.{tools_of};

    ghost Value = { KeptWorld A P I };

    ghost view = { λ it. record { packer = it.packer; indexer = it.indexer; world = it.parts } };

    ghost invariant = { λ it. IsSound
        (tools_of (P.packs it.packer) (P.pack_fails it.packer) I.indexes I.index_fails) it.parts
        × KeepsGraph (I.keeps it.indexer) it.parts.repo.graph.entries };
}

impl<P: Packer<A> + Drop, I: FindingIndexer<A> + Drop, A: Allocator + Copy> KeepingWorld<P, I, A> {
    /// Makes a world from a server, a client's repository, a packer and an indexer.
    ///
    /// Fails like [`World::new`](crate::World::new). Otherwise fails with `NotKept` if the indexer
    /// does not keep an object of the client's repository. The fault gives the first such id, in
    /// the order of the client's objects.
    pub fn new(
        server: Server<A>,
        repo: Repo<A>,
        packer: P,
        indexer: I,
    ) -> Result<KeepingWorld<P, I, A>, WorldFault>
        ensures { StartsKept I.keeps server repo packer indexer result }
    {
        let parts = Parts::new(server, repo)?;
        match parts.first_unkept(&indexer) {
            Some(id) => Err(WorldFault::NotKept { id }),
            None => Ok(KeepingWorld {
                parts,
                packer,
                indexer,
            }),
        }
    }

    /// Returns the client's repository.
    pub fn client(&self) -> &Repo<A>
        ensures { result.now ≡ self.now.world.repo }
    {
        self.parts.client()
    }

    /// Returns the server.
    pub fn server(&self) -> &Server<A>
        ensures { result.now ≡ self.now.world.server }
    {
        self.parts.server()
    }

    /// Returns the indexer.
    pub fn indexer(&self) -> &I
        ensures { result.now ≡ self.now.indexer }
    {
        &self.indexer
    }

    /// Executes the events like [`World::run`](crate::World::run), with one more fault. An event
    /// `ClientAdd` fails with 98 (`NotKept`) if the indexer does not keep the id of its object.
    /// The world is then unchanged.
    ///
    /// After any run the indexer keeps each object of the client's repository, whatever bytes
    /// arrived. The indexer also still keeps all that it kept before the run.
    pub fn run(&mut self, events: &[Event<A>]) -> Result<Vec<Outcome, A>, RunFault<A>>
        ensures kept { KeepsGraph (I.keeps self.new.indexer) self.new.world.repo.graph.entries }
        ensures stays { (id : Id) → I.keeps self.old.indexer id → I.keeps self.new.indexer id }
        ensures packer { self.new.packer ≡ self.old.packer }
        ensures connected_refs { AreRefsConnected self.new.world }
        ensures runs { MatchResult result
            (λ outcomes. RunWith (KeptPromises (tools_of (P.packs self.old.packer)
            (P.pack_fails self.old.packer) I.indexes I.index_fails) I.keeps)
            self.old events.now outcomes.items self.new)
            (λ fault. RunsFront (KeptPromises (tools_of (P.packs self.old.packer)
            (P.pack_fails self.old.packer) I.indexes I.index_fails) I.keeps) KeptNeedsMemory
            self.old events.now (outcomes_before fault) self.new) }
    {
        let result = self
            .parts
            .run_events(events, &self.packer, &mut self.indexer);
        // Laws that the proof uses.
        self.parts.laws();
        result
    }
}
