//! The effects of events.

ghost use Rattle.std.specs.Prelude.{◌≡◌, MatchResult, OnErr};
ghost use Rattle.gworld.specs.Runs.{NeedsMemory};
ghost use Rattle.gworld.specs.Sound.{AreEndsConnected};
ghost use Rattle.gworld.specs.Events.{Step};
ghost use Rattle.gworld.specs.Worlds.{tools_of};
ghost use Rattle.gworld.specs.KeepingWorlds.{KeepsAt};

use super::Parts;
use crate::outcome::Outcome;
use ggraph::{KeepingIndexer, Packer};
use gscenario::Event;
use std::alloc::{AllocError, Allocator};

impl<A: Allocator + Copy> Parts<A> {
    /// Executes the event.
    pub(crate) fn happen<P: Packer<A>, I: KeepingIndexer<A>>(
        &mut self,
        event: &Event<A>,
        packer: &P,
        indexer: &mut I,
    ) -> Result<Outcome, AllocError>
        ensures step { MatchResult result
            (λ outcome. Step (tools_of (P.packs packer.now) (P.pack_fails packer.now)
            I.indexes I.index_fails)
            self.old event.now outcome self.new)
            (λ _. (self.new ≡ self.old) × NeedsMemory self.old event.now) }
        ensures same { OnErr result (indexer.new ≡ indexer.old) }
        ensures keeps { KeepsAt I.keeps event.now indexer.old indexer.new
            self.old.repo.graph.entries self.new.repo.graph.entries }
    {
        match event {
            Event::Begin(specs) => Ok(self.begin(specs.as_slice())),
            Event::Ask => self.ask(),
            Event::Serve(number) => self.serve(*number, packer),
            Event::Deliver { reply, count } => self.deliver(*reply, *count, indexer),
            Event::Forge(bytes) => self.forge(bytes.as_slice(), indexer),
            Event::StrangeRequest(bytes) => self.hear_stranger(bytes.as_slice(), packer),
            Event::Settle => Ok(self.settle()),
            Event::RestartClient => Ok(self.restart_client()),
            Event::RestartServer => Ok(Outcome::Done),
            Event::ServerAdd(entry) => self.add_at_server(entry),
            Event::ServerRef(name, id) => self.set_at_server(name, *id),
            Event::ClientAdd(entry) => self.add_at_client(entry),
            Event::ClientRef(name, id) => self.set_at_client(name, *id),
        }
    }

    /// Proves that the server, the client's repository and the session satisfy their invariants.
    pub(crate) fn laws(&self)
        ensures { AreEndsConnected self.now }
    {
        self.server.laws();
        self.repo.laws();
        if let Some(session) = &self.session {
            session.laws();
        }
    }
}
