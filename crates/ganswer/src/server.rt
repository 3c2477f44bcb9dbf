//! The served repository, and changes to it.

ghost use Rattle.std.specs.Prelude.{◌≡◌, ◌↔◌, slice_get, IfOk, IfSome, IsTrue, MatchOption, MatchResult, Some};
ghost use Rattle.gname.specs.Ids.{Id};
ghost use Rattle.gobject.specs.Objects.{node_at};
ghost use Rattle.gdag.specs.Graphs.{Holds, IsFirstAbsent};
ghost use Rattle.gdag.specs.Reach.{Grows, IsClosed};
ghost use Rattle.grefs.specs.RefLists.{IsRefs};
ghost use Rattle.ganswer.specs.Changes.{Adds, Sets, SetsHead};
ghost use Rattle.ganswer.specs.LsAnswers.{KnowsPeels, IsPeeled};
ghost use Rattle.ganswer.specs.Servers.{HoldsHead, HoldsRefs, IsServer, Makes, parents_in, server_of};
ghost use Rattle.ganswer.specs.steps.Answers.{DanglesAt};
ghost use Rattle.gname.specs.Names.{Name, head_name};

use crate::fault::BuildFault;
use crate::peels::{empty_peeled_ids, keep_peeled, look_up};
use ggraph::graph_laws::{closed_stays, ordered_is_closed, positions_are_nodes};
use ggraph::{Entry, Graph, Head, Refs};
use gname::{Oid, RefName};
use std::alloc::{Allocator, Global};
use std::marker::Model;

/// A served repository: a graph, refs and HEAD (gitglossary(7), "ref", "HEAD"). The graph holds all
/// parents of its objects, the id of each ref, and the id of a detached HEAD. HEAD may be unborn.
#[derive(Drop)]
pub struct Server<A: Allocator + Copy = Global> {
    graph: Graph<A>,
    refs: Refs<A>,
    head: Head<A>,
    // The ref name `HEAD`, which answers borrow.
    name_of_head: RefName<A>,
    // The peeled ids of the refs, in the order of the refs, so that answers need not look them up.
    // The list is empty if memory ran out, or after a ref was set.
    peels: Vec<Option<Oid>, A>,
}

impl<A: Allocator + Copy> Model for Server<A> {
    ghost use Rattle.std.specs.Prelude.{◌≡◌};
    ghost use Rattle.gname.specs.Names.{head_name};
    ghost use Rattle.ganswer.specs.LsAnswers.{KnowsPeels};
    ghost use Rattle.ganswer.specs.Servers.{Server, IsServer};

    ghost Value = { Server A };

    ghost view = { λ server. record { graph = server.graph; refs = server.refs; head = server.head } };

    ghost invariant = { λ server. IsServer (record { graph = server.graph; refs = server.refs; head = server.head }) × (server.name_of_head ≡ head_name) × KnowsPeels server.graph.entries server.refs server.peels.items };
}

impl<A: Allocator + Copy> Server<A> {
    /// Creates a server from a graph, refs and HEAD.
    ///
    /// Fails with `NotClosed` for the first parent that the graph does not hold. Otherwise fails
    /// with `RefMissing` for the first ref, in the order of names, whose id the graph does not
    /// hold. Otherwise fails with `HeadMissing` if HEAD is detached at an id that the graph does
    /// not hold. The faults `NotClosed`, `RefMissing` and `HeadMissing` are reported even if memory
    /// has run out. If no object is missing, fails with `Memory` if there is no memory for the name
    /// HEAD. A failed call drops the graph, the refs and HEAD.
    pub fn new(graph: Graph<A>, refs: Refs<A>, head: Head<A>) -> Result<Server<A>, BuildFault<A>>
        ensures { Makes (server_of graph refs head) result }
    {
        // Laws that the proof uses.
        graph.laws();
        if let Some(id) = missing_parent(&graph) {
            return Err(BuildFault::NotClosed { id });
        }
        match check_refs(&graph, refs.as_slice()) {
            Ok(peels) => Server::with_refs(graph, refs, head, peels),
            Err(place) => Err(BuildFault::RefMissing {
                name: refs.into_name(place),
            }),
        }
    }

    // Creates a server from a graph that holds all parents and the id of each ref. The graph need
    // not hold the id of HEAD.
    fn with_refs(
        graph: Graph<A>,
        refs: Refs<A>,
        head: Head<A>,
        peels: Vec<Option<Oid>, A>,
    ) -> Result<Server<A>, BuildFault<A>>
        requires closed { IsClosed graph.entries }
        requires held { HoldsRefs graph.entries refs }
        requires peels { KnowsPeels graph.entries refs peels.items }
        ensures { Makes (server_of graph refs head) result }
    {
        // Laws that the proof uses.
        graph.laws();
        refs.laws();
        head.laws();
        if !holds_head(&graph, &head) {
            return Err(BuildFault::HeadMissing);
        }
        let name_of_head = RefName::head(graph.allocator())?;
        Ok(Server {
            graph,
            refs,
            head,
            name_of_head,
            peels,
        })
    }

    /// Returns the graph of objects.
    pub fn graph(&self) -> &Graph<A>
        ensures graph { result.now ≡ self.now.graph }
        ensures server { IsServer self.now }
    {
        &self.graph
    }

    /// Returns the refs, in the byte order of their names.
    pub fn refs(&self) -> &Refs<A>
        ensures refs { result.now ≡ self.now.refs }
        ensures server { IsServer self.now }
    {
        &self.refs
    }

    /// Proves that the server is valid: its graph holds all parents, and the ids of the refs and of
    /// a detached HEAD.
    pub fn laws(&self)
        ensures { IsServer self.now }
    {
        let _ = &self.graph;
    }

    /// Returns HEAD.
    pub fn head(&self) -> &Head<A>
        ensures head { result.now ≡ self.now.head }
        ensures server { IsServer self.now }
    {
        &self.head
    }

    /// Appends an object to the graph. Changes nothing if the graph already holds the id of the
    /// object with the same kind and parents.
    ///
    /// Fails with `MissingParent` for the first parent of the object that the graph does not hold.
    /// Otherwise fails with `Graph` if `Graph::insert` fails. A failed call changes nothing.
    pub fn add(&mut self, entry: Entry<A>) -> Result<(), BuildFault<A>>
        ensures adds { Adds self.old entry self.new result }
        ensures format { self.new.graph.format ≡ self.old.graph.format }
        ensures grows { Grows self.old.graph.entries self.new.graph.entries }
        ensures server { IsServer self.new }
    {
        // Laws that the proof uses.
        closed_stays::<A>();
        if let Some(id) = self.graph.first_absent(entry.node.parents.as_slice()) {
            return Err(BuildFault::MissingParent { id });
        }
        match self.graph.insert(entry) {
            Ok(_) => Ok(()),
            Err(cause) => Err(BuildFault::Graph(cause)),
        }
    }

    /// Creates or updates a ref (git-update-ref(1)).
    ///
    /// Fails with `RefMissing` if the graph does not hold the id, and otherwise with `Refs` if
    /// `Refs::set` fails. A failed call changes nothing.
    pub fn set_ref(&mut self, name: RefName<A>, id: Oid) -> Result<(), BuildFault<A>>
        ensures sets { Sets self.old name id self.new result }
        ensures server { IsServer self.new }
    {
        if !self.graph.contains(&id) {
            return Err(BuildFault::RefMissing { name });
        }
        match self.refs.set(name, id) {
            Ok(()) => {
                self.peels = Vec::new(self.graph.allocator());
                Ok(())
            }
            Err(cause) => Err(BuildFault::Refs(cause)),
        }
    }

    /// Sets HEAD (git-symbolic-ref(1)). Allocates nothing.
    ///
    /// Fails with `HeadMissing` if the new HEAD is detached at an id that the graph does not hold.
    /// A failed call changes nothing.
    pub fn set_head(&mut self, head: Head<A>) -> Result<(), BuildFault<A>>
        ensures sets { SetsHead self.old head self.new result }
        ensures server { IsServer self.new }
    {
        if !holds_head(&self.graph, &head) {
            return Err(BuildFault::HeadMissing);
        }
        // Laws that the proof uses.
        head.laws();
        self.head = head;
        Ok(())
    }

    /// Returns the name `HEAD`.
    pub fn name_of_head(&self) -> &RefName<A>
        ensures { result.now ≡ head_name }
    {
        &self.name_of_head
    }

    /// Returns the id that the ref at index `place` peels to, or `Some(None)` if the ref does not
    /// point at a tag or its tag peels to no commit. Returns `None` if the peeled id was not looked
    /// up before.
    pub fn peeled_at(&self, place: usize) -> Option<Option<Oid>>
        ensures { (ref : Name × Id) → slice_get self.now.refs place ≡ Some ref
            → IfSome result (IsPeeled self.now.graph.entries ref.1) }
    {
        self.peels.get(place).copied()
    }
}

// Returns the first parent that the graph does not hold, if any.
fn missing_parent<A: Allocator + Copy>(graph: &Graph<A>) -> Option<Oid>
    ensures { MatchOption result (IsClosed graph.now.entries)
        (IsFirstAbsent graph.now.entries (parents_in graph.now.entries)) }
{
    // Laws that the proof uses.
    ordered_is_closed::<A>();
    if graph.is_ordered() {
        return None;
    }
    first_missing_parent(graph)
}

// Looks up each parent, and returns the first parent that the graph does not hold.
fn first_missing_parent<A: Allocator + Copy>(graph: &Graph<A>) -> Option<Oid>
    ensures { MatchOption result (IsClosed graph.now.entries)
        (IsFirstAbsent graph.now.entries (parents_in graph.now.entries)) }
{
    // Laws that the proof uses.
    positions_are_nodes::<A>();
    for place in 0..graph.len() {
        if let Some(id) = graph.first_absent(graph.parents(place)) {
            return Some(id);
        }
    }
    None
}

// Returns the peeled ids of the refs, or an empty list if memory runs out. Fails with the index of
// the first ref whose id the graph does not hold.
fn check_refs<A: Allocator + Copy>(
    graph: &Graph<A>,
    refs: &[(RefName<A>, Oid)],
) -> Result<Vec<Option<Oid>, A>, usize>
    ensures held { MatchResult result (λ _. HoldsRefs graph.now.entries refs.now)
        (DanglesAt graph.now.entries refs.now) }
    ensures peels { IfOk result (λ peels. KnowsPeels graph.now.entries refs.now peels.items) }
{
    let mut peels = empty_peeled_ids(graph.allocator(), refs.len());
    for (place, reference) in refs.iter().enumerate() {
        match look_up(graph, &reference.1) {
            Some(peeled) => keep_peeled(&mut peels, place, peeled),
            None => return Err(place),
        }
    }
    Ok(peels)
}

// Returns whether the graph holds the id of a detached HEAD. Returns true if HEAD is not detached.
fn holds_head<A: Allocator + Copy>(graph: &Graph<A>, head: &Head<A>) -> bool
    ensures { IsTrue result ↔ HoldsHead graph.now.entries head.now }
{
    match head {
        Head::Id(id) => graph.contains(id),
        Head::None | Head::Symref(_) => true,
    }
}
