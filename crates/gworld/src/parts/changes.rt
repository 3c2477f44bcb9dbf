//! Changes of objects and refs at the server and at the client.

ghost use Rattle.std.specs.Prelude.{◌≡◌, MatchBool, MatchResult};
ghost use Rattle.ganswer.specs.Faults.{build_fault_row};
ghost use Rattle.gdag.specs.Laws.{AgreesWith};
ghost use Rattle.gobject.specs.Objects.{entry_of};
ghost use Rattle.gclientrepo.specs.Faults.{repo_fault_row};
ghost use Rattle.gworld.specs.declared.outcome.Outcome.TheVariants as outcome;
ghost use Rattle.gworld.specs.Events.{AddsAtClient, AddsAtServer, Disagrees, SetsAtClient, SetsAtServer};

use super::Parts;
use crate::fault::DISAGREE;
use crate::outcome::Outcome;
use ganswer::BuildFault;
use gclientrepo::RepoFault;
use gclientrepo::laws::refusals_change_nothing;
use ggraph::Graph;
use gname::{Oid, RefName};
use gobject::{Entry, Node};
use std::alloc::{AllocError, Allocator};

impl<A: Allocator + Copy> Parts<A> {
    /// Adds an object to the server.
    pub(crate) fn add_at_server(&mut self, entry: &Entry<A>) -> Result<Outcome, AllocError>
        ensures { MatchResult result
            (λ outcome. AddsAtServer self.old entry.now outcome self.new)
            (λ _. (self.new ≡ self.old) × AgreesWith self.old.repo.graph.entries entry.now) }
    {
        if !agrees(self.repo.graph(), &entry.id, &entry.node) {
            return Ok(Outcome::Fault { code: DISAGREE });
        }
        let copy = entry.copy_in(self.repo.graph().allocator())?;
        Ok(self.add_agreed(copy))
    }

    // Adds an object to the server. Requires that the client does not hold a different object under
    // the same id.
    fn add_agreed(&mut self, entry: Entry<A>) -> Outcome
        requires { AgreesWith self.old.repo.graph.entries entry }
        ensures { AddsAtServer self.old entry result self.new }
    {
        match self.server.add(entry) {
            Ok(()) => Outcome::Done,
            Err(fault) => refuse_build(fault),
        }
    }

    /// Sets a ref of the server.
    pub(crate) fn set_at_server(
        &mut self,
        name: &RefName<A>,
        id: Oid,
    ) -> Result<Outcome, AllocError>
        ensures { MatchResult result
            (λ outcome. SetsAtServer self.old name.now id outcome self.new)
            (λ _. self.new ≡ self.old) }
    {
        let copy = name.copy_in(self.repo.graph().allocator())?;
        match self.server.set_ref(copy, id) {
            Ok(()) => Ok(Outcome::Done),
            Err(fault) => Ok(refuse_build(fault)),
        }
    }

    /// Adds an object to the client.
    pub(crate) fn add_at_client(&mut self, entry: &Entry<A>) -> Result<Outcome, AllocError>
        ensures { MatchResult result
            (λ outcome. AddsAtClient self.old entry.now outcome self.new)
            (λ _. (self.new ≡ self.old) × AgreesWith self.old.server.graph.entries entry.now) }
    {
        if !agrees(self.server.graph(), &entry.id, &entry.node) {
            return Ok(Outcome::Fault { code: DISAGREE });
        }
        let copy = entry.copy_in(self.repo.graph().allocator())?;
        Ok(self.add_agreed_locally(copy))
    }

    // Adds an object to the client. Requires that the server does not hold a different object under
    // the same id.
    fn add_agreed_locally(&mut self, entry: Entry<A>) -> Outcome
        requires { AgreesWith self.old.server.graph.entries entry }
        ensures { AddsAtClient self.old entry result self.new }
    {
        // Laws that the proof uses.
        refusals_change_nothing::<A>();
        match self.repo.add_local(entry) {
            Ok(_) => Outcome::Done,
            Err(fault) => refuse_local(fault),
        }
    }

    /// Sets a ref of the client.
    pub(crate) fn set_at_client(
        &mut self,
        name: &RefName<A>,
        id: Oid,
    ) -> Result<Outcome, AllocError>
        ensures { MatchResult result
            (λ outcome. SetsAtClient self.old name.now id outcome self.new)
            (λ _. self.new ≡ self.old) }
    {
        let copy = name.copy_in(self.repo.graph().allocator())?;
        match self.repo.set_local_ref(copy, id) {
            Ok(()) => Ok(Outcome::Done),
            Err(fault) => Ok(refuse_local(fault)),
        }
    }
}

/// Returns `false` exactly if the graph holds a different object under the id.
pub(super) fn agrees<A: Allocator + Copy>(graph: &Graph<A>, id: &Oid, node: &Node<A>) -> bool
    ensures { MatchBool result (AgreesWith graph.now.entries (entry_of id.now node.now))
        (Disagrees graph.now.entries (entry_of id.now node.now)) }
{
    match graph.node(id) {
        Some(held) => held.is_same(node),
        None => true,
    }
}

// Returns the outcome of an event whose change the server rejects.
fn refuse_build<A: Allocator + Copy>(fault: BuildFault<A>) -> Outcome
    ensures { result ≡ outcome.Fault (build_fault_row fault).0 }
{
    Outcome::Fault { code: fault.code() }
}

// Returns the outcome of an event whose change the client's repository rejects.
fn refuse_local<A: Allocator + Copy>(fault: RepoFault<A>) -> Outcome
    ensures { result ≡ outcome.Fault (repo_fault_row fault).0 }
{
    Outcome::Fault { code: fault.code() }
}
