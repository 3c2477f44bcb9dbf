//! Runs of events.

ghost use Rattle.std.specs.Prelude.{◌≡◌, ◌≢◌, ◌≤◌, [], MatchBool, MatchResult, OnErr, length, vec_capacity, vec_len};
ghost use Rattle.gsession.specs.Keeping.{KeepsOn};
ghost use Rattle.gworld.specs.KeepingWorlds.{AddsKept, AddsUnkept, KeepsAt, KeptNeedsMemory, KeptPromises, kept_world};
ghost use Rattle.gworld.specs.Promises.{Promises};
ghost use Rattle.gworld.specs.Runs.{NeedsMemory, RunWith, RunsFront, outcomes_before};
ghost use Rattle.gworld.specs.Sound.{IsSound};
ghost use Rattle.gworld.specs.Worlds.{tools_of};

use super::Parts;
use crate::fault::{NOT_KEPT, RunFault};
use crate::laws::steps_keep;
use crate::outcome::Outcome;
use gclientrepo::laws::refusals_change_nothing;
use ggraph::{FindingIndexer, Packer};
use gscenario::Event;
use std::alloc::{AllocError, Allocator};

impl<A: Allocator + Copy> Parts<A> {
    // Executes one event. Requires a sound world. Also requires that the event is not `ClientAdd`,
    // or that the indexer keeps the id of its object. The world is sound afterwards, and the step
    // keeps its promises.
    fn step<P: Packer<A>, I: FindingIndexer<A>>(
        &mut self,
        event: &Event<A>,
        packer: &P,
        indexer: &mut I,
    ) -> Result<Outcome, AllocError>
        requires sound { IsSound (tools_of (P.packs packer.now) (P.pack_fails packer.now)
            I.indexes I.index_fails) self.old }
        requires kept { AddsKept (I.keeps indexer.old) event.now }
        ensures step { MatchResult result
            (λ outcome.
            IsSound (tools_of (P.packs packer.now) (P.pack_fails packer.now)
            I.indexes I.index_fails) self.new
            × Promises (tools_of (P.packs packer.now) (P.pack_fails packer.now)
            I.indexes I.index_fails)
            self.old event.now outcome self.new)
            (λ _. (self.new ≡ self.old) × NeedsMemory self.old event.now) }
        ensures same { OnErr result (indexer.new ≡ indexer.old) }
        ensures keeps { KeepsOn (I.keeps indexer.old) (I.keeps indexer.new)
            self.old.repo.graph.entries self.new.repo.graph.entries }
        ensures at { KeepsAt I.keeps event.now indexer.old indexer.new
            self.old.repo.graph.entries self.new.repo.graph.entries }
    {
        // Laws that the proof uses.
        steps_keep::<A, P, I>();
        refusals_change_nothing::<A>();
        self.laws();
        let outcome = self.happen(event, packer, indexer)?;
        // Laws that the proof uses.
        self.laws();
        Ok(outcome)
    }

    // Executes one event, but refuses an event `ClientAdd` if the indexer does not keep the id of
    // its object. Requires a sound world. The world is sound afterwards.
    fn step_or_refuse<P: Packer<A>, I: FindingIndexer<A>>(
        &mut self,
        event: &Event<A>,
        packer: &P,
        indexer: &mut I,
    ) -> Result<Outcome, AllocError>
        requires { IsSound (tools_of (P.packs packer.now) (P.pack_fails packer.now)
            I.indexes I.index_fails) self.old }
        ensures step { MatchResult result
            (λ outcome.
            IsSound (tools_of (P.packs packer.now) (P.pack_fails packer.now)
            I.indexes I.index_fails) self.new
            × KeptPromises (tools_of (P.packs packer.now) (P.pack_fails packer.now)
            I.indexes I.index_fails) I.keeps
            (kept_world packer.now indexer.old self.old) event.now outcome
            (kept_world packer.now indexer.new self.new))
            (λ _. (self.new ≡ self.old) × NeedsMemory self.old event.now) }
        ensures same { OnErr result (indexer.new ≡ indexer.old) }
        ensures keeps { KeepsOn (I.keeps indexer.old) (I.keeps indexer.new)
            self.old.repo.graph.entries self.new.repo.graph.entries }
    {
        if adds_unkept(event, indexer) {
            return Ok(Outcome::Fault { code: NOT_KEPT });
        }
        self.step(event, packer, indexer)
    }

    // Returns an empty list with room for the outcome of each event.
    fn no_outcomes(&self, events: &[Event<A>]) -> Result<Vec<Outcome, A>, RunFault<A>>
        ensures { MatchResult result
            (λ outcomes. (outcomes.items ≡ []) × (vec_len outcomes ≡ 0)
            × (length events.now ≤ vec_capacity outcomes))
            (λ fault. (outcomes_before fault ≡ []) × (events.now ≢ [])) }
    {
        let alloc = self.repo.graph().allocator();
        match Vec::with_capacity(alloc, events.len()) {
            Ok(outcomes) => Ok(outcomes),
            Err(_) => Err(RunFault::Memory {
                outcomes: Vec::new(alloc),
            }),
        }
    }

    /// Executes the events, one after the other. Refuses an event `ClientAdd` if the indexer does
    /// not keep the id of its object. Allocates the list of outcomes before the first event.
    pub(crate) fn run_events<P: Packer<A>, I: FindingIndexer<A>>(
        &mut self,
        events: &[Event<A>],
        packer: &P,
        indexer: &mut I,
    ) -> Result<Vec<Outcome, A>, RunFault<A>>
        requires { IsSound (tools_of (P.packs packer.now) (P.pack_fails packer.now)
            I.indexes I.index_fails) self.old }
        ensures sound { IsSound (tools_of (P.packs packer.now) (P.pack_fails packer.now)
            I.indexes I.index_fails) self.new }
        ensures keeps { KeepsOn (I.keeps indexer.old) (I.keeps indexer.new)
            self.old.repo.graph.entries self.new.repo.graph.entries }
        ensures runs { MatchResult result
            (λ outcomes. RunWith (KeptPromises (tools_of (P.packs packer.now)
            (P.pack_fails packer.now) I.indexes I.index_fails) I.keeps)
            (kept_world packer.now indexer.old self.old) events.now outcomes.items
            (kept_world packer.now indexer.new self.new))
            (λ fault. RunsFront (KeptPromises (tools_of (P.packs packer.now)
            (P.pack_fails packer.now) I.indexes I.index_fails) I.keeps) KeptNeedsMemory
            (kept_world packer.now indexer.old self.old) events.now (outcomes_before fault)
            (kept_world packer.now indexer.new self.new)) }
    {
        match self.no_outcomes(events) {
            Ok(outcomes) => self.run_each(events, packer, indexer, outcomes),
            Err(fault) => Err(fault),
        }
    }

    // Executes the events, one after the other. Requires that the list `outcomes` is empty, and has
    // room for the outcome of each event.
    fn run_each<P: Packer<A>, I: FindingIndexer<A>>(
        &mut self,
        events: &[Event<A>],
        packer: &P,
        indexer: &mut I,
        outcomes: Vec<Outcome, A>,
    ) -> Result<Vec<Outcome, A>, RunFault<A>>
        requires none { outcomes.items ≡ [] }
        requires empty { vec_len outcomes ≡ 0 }
        requires room { length events.now ≤ vec_capacity outcomes }
        requires sound { IsSound (tools_of (P.packs packer.now) (P.pack_fails packer.now)
            I.indexes I.index_fails) self.old }
        ensures sound { IsSound (tools_of (P.packs packer.now) (P.pack_fails packer.now)
            I.indexes I.index_fails) self.new }
        ensures keeps { KeepsOn (I.keeps indexer.old) (I.keeps indexer.new)
            self.old.repo.graph.entries self.new.repo.graph.entries }
        ensures runs { MatchResult result
            (λ outcomes. RunWith (KeptPromises (tools_of (P.packs packer.now)
            (P.pack_fails packer.now) I.indexes I.index_fails) I.keeps)
            (kept_world packer.now indexer.old self.old) events.now outcomes.items
            (kept_world packer.now indexer.new self.new))
            (λ fault. RunsFront (KeptPromises (tools_of (P.packs packer.now)
            (P.pack_fails packer.now) I.indexes I.index_fails) I.keeps) KeptNeedsMemory
            (kept_world packer.now indexer.old self.old) events.now (outcomes_before fault)
            (kept_world packer.now indexer.new self.new)) }
    {
        let mut results = outcomes;
        for event in events {
            match self.step_or_refuse(event, packer, indexer) {
                Ok(outcome) => results.push_reserved(outcome),
                Err(_) => return Err(RunFault::Memory { outcomes: results }),
            }
        }
        Ok(results)
    }
}

// Returns whether the event is `ClientAdd` and the indexer does not keep the id of its object.
fn adds_unkept<A: Allocator + Copy, I: FindingIndexer<A>>(event: &Event<A>, indexer: &I) -> bool
    ensures { MatchBool result (AddsUnkept (I.keeps indexer.now) event.now)
        (AddsKept (I.keeps indexer.now) event.now) }
{
    match event {
        Event::ClientAdd(entry) => !indexer.has(&entry.id),
        _ => false,
    }
}
