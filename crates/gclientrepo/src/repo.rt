//! A client's repository.

ghost use Rattle.std.specs.Map.{values_of};
ghost use Rattle.std.specs.Prelude.{◌≡◌, ◌⊎◌, [], ◌∷◌, All, Contains, IfErr, IfOk, MatchResult, OnOk};
ghost use Rattle.gname.specs.Ids.{Id};
ghost use Rattle.gdag.specs.declared.fault.GraphFault.TheVariants.{Memory};
ghost use Rattle.gdag.specs.Graphs.{IsGraph, IsNode};
ghost use Rattle.gdag.specs.Insert.{Adds, AddsOnly, AddsOnlyParents};
ghost use Rattle.gdag.specs.Reach.{Grows, IsConnected, Keeps};
ghost use Rattle.gdag.specs.Walks.{Misses};
ghost use Rattle.ggraph.specs.ConnectedRefs.{HasConnectedRefs};
ghost use Rattle.grefs.specs.RefLists.{IsRefs, SetsRef};
ghost use Rattle.gwalk.specs.Marks.{MarksReached};
ghost use Rattle.gclientrepo.specs.Asks.{asked_ids};
ghost use Rattle.gclientrepo.specs.Changes.{AddsLocal, NeedsWalk, Marks, Opens, SetsLocal, SettlesAsks};
ghost use Rattle.gclientrepo.specs.steps.Repos.{ComeFrom};
ghost use Rattle.gclientrepo.specs.Repos.{IsConnectedRepo};
ghost use Rattle.gclientrepo.specs.Settling.{CannotSettle, Settles};

use crate::ask::RefUpdate;
use crate::asks::Asks;
use crate::fault::RepoFault;
use crate::laws::connected_repo_stays;
use crate::opening::first_unconnected;
use crate::settling::{cannot_set, cannot_settle, first_absent, settle_refs};
use ggraph::graph_laws::{closed_is_connected, ordered_is_closed};
use ggraph::{
    ConnectedMarks, Entry, Graph, GraphFault, Refs, RefsFault, mark_connected, missing_known,
};
use gname::{Format, Oid, RefName};
use grefs::laws::refs_come_in_order;
use std::alloc::{Allocator, Global};
use std::marker::Model;

/// A client's objects, its refs, and marks of objects that are known to be connected. Each ref is
/// connected at all times: the repository holds the whole ancestry of the ref.
#[derive(Debug, Drop)]
pub struct Repo<A: Allocator + Copy = Global> {
    graph: Graph<A>,
    refs: Refs<A>,
    known: ConnectedMarks<A>,
}

impl<A: Allocator + Copy> Model for Repo<A> {
    ghost use Rattle.gclientrepo.specs.Repos.{RepoState, IsConnectedRepo};

    ghost Value = { RepoState A };

    ghost view = { λ it. record { graph = it.graph; refs = it.refs; known = it.known } };

    ghost invariant = { λ it. IsConnectedRepo (record { graph = it.graph; refs = it.refs; known = it.known }) };
}

impl<A: Allocator + Copy> Repo<A> {
    /// Makes a repository of these objects and refs, and marks every object that the refs reach.
    ///
    /// Fails with `UnconnectedRef` at the first ref, in the order of the names, that is not
    /// connected. Fails with `Graph` if out of memory. If the graph stores each object after its
    /// parents, out of memory is reported only if each ref is connected. A failed call drops the
    /// graph and the refs.
    pub fn new(graph: Graph<A>, refs: Refs<A>) -> Result<Repo<A>, RepoFault<A>>
        ensures opens { Opens graph refs result }
        ensures whole { IfOk result IsConnectedRepo }
    {
        if let Some(place) = first_unconnected(&graph, &refs)? {
            return Err(RepoFault::UnconnectedRef {
                name: refs.into_name(place),
            });
        }
        let known = marks_of(&graph, &refs)?;
        Ok(Repo { graph, refs, known })
    }

    /// Returns the objects of the repository.
    pub fn graph(&self) -> &Graph<A>
        ensures { result.now ≡ self.now.graph }
    {
        &self.graph
    }

    /// Returns the refs of the repository.
    pub fn refs(&self) -> &Refs<A>
        ensures { result.now ≡ self.now.refs }
    {
        &self.refs
    }

    /// Returns the marks of objects that are known to be connected.
    pub fn marks(&self) -> &ConnectedMarks<A>
        ensures { result.now ≡ self.now.known }
    {
        &self.known
    }

    /// Returns the object format of the repository: SHA-1 or SHA-256.
    pub fn format(&self) -> Format
        ensures format { result ≡ self.now.graph.format }
        ensures whole { IsConnectedRepo self.now }
        ensures graph { IsGraph self.now.graph }
        ensures refs { IsRefs self.now.refs }
    {
        // Laws that the proof uses.
        self.laws();
        self.graph.format()
    }

    /// Proves that the repository satisfies its invariants.
    pub fn laws(&self)
        ensures whole { IsConnectedRepo self.now }
        ensures graph { IsGraph self.now.graph }
        ensures refs { IsRefs self.now.refs }
    {
        self.graph.laws();
        self.refs.laws();
    }

    /// Returns an id that one of the given ids reaches, but that the repository does not hold.
    /// Returns `None` if all given ids are connected. First checks whether the graph holds the
    /// given ids. If the graph stores each object after its parents, no further check is necessary.
    /// Otherwise walks the ancestries, and stops at marked objects.
    ///
    /// Fails only with `Memory`, and only if the repository holds all given ids and stores some
    /// object before one of its parents.
    pub fn missing(&self, ids: &[Oid]) -> Result<Option<Oid>, GraphFault>
        ensures answer { IfOk result (Misses self.now.graph.entries ids.now) }
        ensures fault { IfErr result (λ fault. (fault ≡ Memory)
            × NeedsWalk self.now.graph.entries ids.now) }
    {
        // Laws that the proof uses.
        ordered_is_closed::<A>();
        closed_is_connected::<A>();
        if let Some(id) = self.graph.first_absent(ids) {
            return Ok(Some(id));
        }
        if self.graph.is_ordered() {
            return Ok(None);
        }
        self.missing_by_walk(ids)
    }

    // Walks the ancestries of the ids, and returns an id that the repository does not hold. Fails
    // only with `Memory`.
    fn missing_by_walk(&self, ids: &[Oid]) -> Result<Option<Oid>, GraphFault>
        ensures answer { IfOk result (Misses self.now.graph.entries ids.now) }
        ensures fault { IfErr result (λ fault. fault ≡ Memory) }
    {
        let (missing, _count) = missing_known(&self.graph, ids, &self.known)?;
        Ok(missing)
    }

    /// Adds an object if the repository holds its parents, and returns whether its id is new. Refs
    /// and marks are unchanged.
    ///
    /// Fails with `MissingParent` at the first parent that the repository does not hold, and
    /// otherwise like `Graph::insert`. A failed call leaves the repository unchanged.
    pub fn add_local(&mut self, entry: Entry<A>) -> Result<bool, RepoFault<A>>
        ensures adds { AddsLocal self.old entry self.new result }
        ensures grows { Grows self.old.graph.entries self.new.graph.entries }
        ensures whole { IsConnectedRepo self.new }
    {
        // Laws that the proof uses.
        connected_repo_stays::<A>();
        if let Some(id) = self.graph.first_absent(entry.node.parents.as_slice()) {
            return Err(RepoFault::MissingParent { id });
        }
        Ok(self.graph.insert(entry)?)
    }

    /// Adds all objects of a pack or no objects, and returns the number of new ids. The parents of
    /// the objects may be missing. Refs and marks are unchanged.
    ///
    /// Fails like `Graph::insert_all`. A failed call leaves the repository unchanged.
    pub fn insert_all(&mut self, entries: Vec<Entry<A>, A>) -> Result<usize, GraphFault>
        ensures adds { Adds self.old.graph entries.items self.new.graph result }
        ensures only { AddsOnly self.old.graph.entries entries.items self.new.graph.entries }
        ensures only_parents { AddsOnlyParents self.old.graph.entries entries.items
            self.new.graph.entries }
        ensures held { OnOk result (All (λ entry. IsNode self.new.graph.entries entry.id
            entry.node) entries.items) }
        ensures grows { Grows self.old.graph.entries self.new.graph.entries }
        ensures keeps { Keeps self.old.graph.entries self.new.graph.entries }
        ensures connected { (a : Id) → IsConnected self.old.graph.entries a
            → IsConnected self.new.graph.entries a }
        ensures refs { self.new.refs ≡ self.old.refs }
        ensures known { self.new.known ≡ self.old.known }
        ensures whole { IsConnectedRepo self.new }
    {
        // Laws that the proof uses.
        connected_repo_stays::<A>();
        self.graph.insert_all(entries)
    }

    /// Sets a ref to a connected id, even if the move is not a fast-forward. First marks every
    /// object that the id reaches.
    ///
    /// Fails with `UnconnectedId` if the new id reaches an id that the repository does not hold.
    /// Otherwise fails with `Refs` if the ref is HEAD or if there would be too many refs. Otherwise
    /// fails only if out of memory. If [`Repo::missing`] needs a walk, out of memory for the walk
    /// (`Graph`) may be reported instead of these faults. A failed call leaves the repository
    /// unchanged.
    pub fn set_local_ref(&mut self, name: RefName<A>, id: Oid) -> Result<(), RepoFault<A>>
        ensures sets { SetsLocal self.old name id self.new result }
        ensures whole { IsConnectedRepo self.new }
    {
        if let Some(missing) = self.missing(&[id])? {
            return Err(RepoFault::UnconnectedId { missing });
        }
        if cannot_set(&self.refs, &name) {
            return Err(RepoFault::Refs(RefsFault::Refs));
        }
        match self.put(name, id) {
            Ok(()) => Ok(()),
            Err(_) => Err(RepoFault::Refs(RefsFault::Memory)),
        }
    }

    // Sets a ref to a connected id. Requires that the ref can be set. Fails only if out of memory.
    fn put(&mut self, name: RefName<A>, id: Oid) -> Result<(), RepoFault<A>>
        requires { All (IsConnected self.old.graph.entries) (id ∷ []) }
        ensures puts { MatchResult result
            (λ _. Marks self.old (id ∷ []) self.new × SetsRef self.old.refs self.new.refs name id)
            (λ _. self.new ≡ self.old) }
        ensures whole { IsConnectedRepo self.new }
    {
        let mut refs = self.refs.copy_in(self.graph.allocator())?;
        refs.set(name, id)?;
        self.install(refs, &[id])?;
        Ok(())
    }

    /// Makes each requested update if the ref is new, or if the update is forced or a fast-forward.
    /// All updates happen at once, and all other refs are unchanged. Returns the outcome of each
    /// requested update, in the order of the list. Each outcome is determined from the refs before
    /// the call. Before it moves any ref, the call marks every object that the new ids reach.
    ///
    /// Fails with `NotConnected` if the new ids reach an id that the repository does not hold.
    /// Otherwise fails with `Refs` if an update is for HEAD or if there would be too many refs.
    /// Otherwise fails only if out of memory. If [`Repo::missing`] needs a walk, out of memory for
    /// the walk (`Graph`) may be reported instead of these faults. A failed call leaves the
    /// repository unchanged.
    pub fn settle(&mut self, asks: &Asks<A>) -> Result<Vec<RefUpdate, A>, RepoFault<A>>
        ensures settles { MatchResult result
            (λ updates. SettlesAsks self.old asks.now self.new (Ok updates.items))
            (λ fault. SettlesAsks self.old asks.now self.new (Err fault)) }
        ensures whole { IsConnectedRepo self.new }
    {
        if let Some(missing) = self.missing_of(asks)? {
            return Err(RepoFault::NotConnected { missing });
        }
        if cannot_settle(&self.refs, asks) {
            return Err(RepoFault::Refs(RefsFault::Refs));
        }
        match self.move_refs(asks) {
            Ok(updates) => Ok(updates),
            Err(_) => Err(RepoFault::Refs(RefsFault::Memory)),
        }
    }

    // Returns the result of `missing` for the new ids of the requested updates. Allocates memory
    // only for a walk.
    fn missing_of(&self, asks: &Asks<A>) -> Result<Option<Oid>, GraphFault>
        ensures answer { IfOk result (Misses self.now.graph.entries (asked_ids asks.now)) }
        ensures fault { IfErr result (λ fault. (fault ≡ Memory)
            × NeedsWalk self.now.graph.entries (asked_ids asks.now)) }
    {
        // Laws that the proof uses.
        ordered_is_closed::<A>();
        closed_is_connected::<A>();
        if let Some(id) = first_absent(&self.graph, asks) {
            return Ok(Some(id));
        }
        if self.graph.is_ordered() {
            return Ok(None);
        }
        let ids = asks.ids(self.graph.allocator())?;
        self.missing_by_walk(ids.as_slice())
    }

    // Makes the allowed updates of refs. Requires that the new ids are connected and that the refs
    // can be set. Fails only if out of memory.
    fn move_refs(&mut self, asks: &Asks<A>) -> Result<Vec<RefUpdate, A>, GraphFault>
        requires connected { All (IsConnected self.old.graph.entries) (asked_ids asks.now) }
        requires can { ¬ (CannotSettle self.old.refs asks.now) }
        ensures moves { MatchResult result
            (λ updates. Marks self.old (asked_ids asks.now) self.new
            × Settles self.old.graph.entries self.old.refs asks.now updates.items self.new.refs)
            (λ _. self.new ≡ self.old) }
        ensures whole { IsConnectedRepo self.new }
    {
        // Laws that the proof uses.
        refs_come_in_order();
        let ids = asks.ids(self.graph.allocator())?;
        let (refs, updates) = settle_refs(&self.graph, &self.refs, asks)?;
        self.install(refs, ids.as_slice())?;
        Ok(updates)
    }

    // Replaces the refs with new refs, and marks every object that the ids reach. Requires that
    // each new ref is an old ref or points at one of the ids.
    fn install(&mut self, refs: Refs<A>, ids: &[Oid]) -> Result<(), GraphFault>
        requires connected { All (IsConnected self.old.graph.entries) ids.now }
        requires from { ComeFrom self.old.refs ids.now refs }
        ensures installs { MatchResult result
            (λ _. Marks self.old ids.now self.new × (self.new.refs ≡ refs))
            (λ fault. (self.new ≡ self.old) × (fault ≡ Memory)) }
        ensures whole { IsConnectedRepo self.new }
    {
        mark_connected(&self.graph, ids, &mut self.known)?;
        self.refs = refs;
        Ok(())
    }
}

// Marks every object that the refs reach, and returns the marks. Requires that the refs are
// connected. Fails only if out of memory.
fn marks_of<A: Allocator + Copy>(
    graph: &Graph<A>,
    refs: &Refs<A>,
) -> Result<ConnectedMarks<A>, GraphFault>
    requires { HasConnectedRefs graph.now.entries refs.now }
    ensures marks { IfOk result (MarksReached graph.now.entries (values_of refs.now) []) }
    ensures fault { IfErr result (λ fault. fault ≡ Memory) }
    ensures whole { IfOk result (λ known. IsConnectedRepo
        (record { graph = graph.now; refs = refs.now; known = known })) }
{
    let alloc = graph.allocator();
    let targets = refs.ids(alloc)?;
    let mut known = ConnectedMarks::new(alloc);
    mark_connected(graph, targets.as_slice(), &mut known)?;
    Ok(known)
}
