//! The commits and tags that given ids reach, parents first.

ghost use Rattle.std.specs.Prelude.{◌≡◌, [], IfOk, IfSome, OnOk, length};
ghost use Rattle.gitcommitgraph.specs.Chains.{graph_commits};
ghost use Rattle.gitrepository.specs.Entries.{IsKnown, IsOfObject};
ghost use Rattle.gitrepository.specs.Repositories.{IsHistory};

use crate::commit_graph::known_entry;
use crate::fault::{ObjectCause, RepositoryFault};
use crate::nodes::entry_of;
use ggraph::{Entry, Graph, Kind, MAX_NODES};
use gitcommitgraph::CommitGraph;
use gitobject::ObjectType;
use gitobjects::{ObjectFiles, ObjectReader};
use gname::Oid;
use std::alloc::Allocator;
use std::marker::Model;

// A parent to visit, and the kind of its child. An object that a ref points to counts as the parent
// of a tag, because refs and tags may point to objects of any type.
#[derive(Clone, Copy, Drop)]
struct Parent {
    id: Oid,
    child: Kind,
}

/// The commits and tags that were read so far. A tree or blob that a ref or tag points to counts as
/// a commit without parents.
#[derive(Drop)]
pub(crate) struct History<'g, A: Allocator + Copy> {
    alloc: A,
    // The commit-graph, which lists the parents of commits. Commits that the commit-graph lists
    // need not be read.
    commits: &'g CommitGraph<A>,
    // The objects whose whole ancestry was visited.
    graph: Graph<A>,
    // A path of objects, in which each object is a parent of the previous object.
    path: Vec<Entry<A>, A>,
    // For each object of the path, the number of its parents that were visited so far.
    visited: Vec<usize, A>,
}

impl<'g, A: Allocator + Copy> Model for History<'g, A> {
    ghost use Rattle.std.specs.Prelude.{All};
    ghost use Rattle.gitcommitgraph.specs.Chains.{graph_commits};
    ghost use Rattle.gitrepository.specs.Entries.{IsKnown};
    ghost use Rattle.gitrepository.specs.Repositories.{Reading};

    ghost Value = { Reading A };

    ghost view = { λ h. record { commits = graph_commits h.commits.now; graph = h.graph } };

    ghost invariant = { λ h. All (IsKnown (graph_commits h.commits.now)) h.graph.entries
        × All (IsKnown (graph_commits h.commits.now)) h.path.items };
}

impl<'g, A: Allocator + Copy> History<'g, A> {
    /// Returns a history without objects, with room for as many objects as the commit-graph has
    /// commits.
    pub(crate) fn new(alloc: A, commits: &'g CommitGraph<A>) -> History<'g, A>
        ensures { result.commits ≡ graph_commits commits.now }
    {
        let mut graph = Graph::new(alloc);
        graph.make_room(commits.len().min(MAX_NODES));
        History {
            alloc,
            commits,
            graph,
            path: Vec::new(alloc),
            visited: Vec::new(alloc),
        }
    }

    /// Returns the number of objects.
    pub(crate) fn len(&self) -> usize
        ensures { result ≡ length self.now.graph.entries }
    {
        self.graph.len()
    }

    /// Adds the object with this id, and everything it reaches.
    pub(crate) fn add<F: ObjectFiles>(
        &mut self,
        reader: &mut ObjectReader<'_, F, A>,
        id: &Oid,
    ) -> Result<(), RepositoryFault<A>>
        ensures { self.new.commits ≡ self.old.commits }
    {
        self.reach(
            reader,
            Parent {
                id: *id,
                child: Kind::Tag,
            },
        )?;
        for _ in 0..u64::MAX {
            if !self.step(reader)? {
                break;
            }
        }
        Ok(())
    }

    // Visits the next parent of the last object on the path. If no parent remains, moves the last
    // object to the graph. Returns `false` if the path was empty.
    fn step<F: ObjectFiles>(
        &mut self,
        reader: &mut ObjectReader<'_, F, A>,
    ) -> Result<bool, RepositoryFault<A>>
        ensures { self.new.commits ≡ self.old.commits }
    {
        match self.next_parent() {
            Some(parent) => {
                self.reach(reader, parent)?;
                Ok(true)
            }
            None => self.insert_last(),
        }
    }

    // Moves the last object on the path to the graph. Returns `false` if the path was empty.
    fn insert_last(&mut self) -> Result<bool, RepositoryFault<A>>
        ensures { self.new.commits ≡ self.old.commits }
    {
        match self.pop() {
            Some(entry) => {
                self.insert(entry)?;
                Ok(true)
            }
            None => Ok(false),
        }
    }

    // Removes and returns the last object on the path, or returns `None` if the path is empty.
    fn pop(&mut self) -> Option<Entry<A>>
        ensures same { self.new ≡ self.old }
        ensures known { IfSome result (λ entry. IsKnown self.old.commits entry) }
    {
        let _visited = self.visited.pop();
        self.path.pop()
    }

    // Adds an object to the graph.
    fn insert(&mut self, entry: Entry<A>) -> Result<(), RepositoryFault<A>>
        requires { IsKnown self.old.commits entry }
        ensures { self.new.commits ≡ self.old.commits }
    {
        let id = entry.id;
        match self.graph.insert(entry) {
            Ok(_) => Ok(()),
            Err(fault) => Err(RepositoryFault::of_node(&id, fault)),
        }
    }

    // Returns the next parent of the last object on the path, or `None` if no parent remains.
    fn next_parent(&mut self) -> Option<Parent>
        ensures { self.new ≡ self.old }
    {
        let entry = self.path.last()?;
        let visited = self.visited.last_mut()?;
        let id = *entry.node.parents.as_slice().get(*visited)?;
        let child = entry.node.kind;
        *visited = visited.saturating_add(1);
        Some(Parent { id, child })
    }

    // Adds a parent to the path, unless the graph already holds the parent. Fails with `Objects` if
    // the path is too long, as in a cycle of parents.
    #[tactic(auto, using(crate::proofs::HistoryLemmas::known_pushed))]
    fn reach<F: ObjectFiles>(
        &mut self,
        reader: &mut ObjectReader<'_, F, A>,
        parent: Parent,
    ) -> Result<(), RepositoryFault<A>>
        ensures { self.new ≡ self.old }
    {
        if self.graph.contains(&parent.id) {
            return Ok(());
        }
        if self.path.len() >= MAX_NODES {
            return Err(RepositoryFault::Objects);
        }
        let entry = self.find(reader, parent)?;
        self.visited.push(0)?;
        self.path.push(entry)?;
        Ok(())
    }

    // Returns the graph entry of an object. Reads the object if [`known_entry`] returns `None`.
    fn find<F: ObjectFiles>(
        &self,
        reader: &mut ObjectReader<'_, F, A>,
        parent: Parent,
    ) -> Result<Entry<A>, RepositoryFault<A>>
        ensures { IfOk result (λ entry. IsKnown self.now.commits entry) }
    {
        match known_entry(self.commits, reader.store(), &parent.id)? {
            Some(entry) => Ok(entry),
            None => read_entry(self.alloc, reader, parent),
        }
    }

    /// Returns the graph of the added objects. Fails with `Objects` if an object precedes its
    /// parent.
    #[tactic(auto, using(crate::proofs::HistoryLemmas::is_history))]
    pub(crate) fn into_graph(self) -> Result<Graph<A>, RepositoryFault<A>>
        ensures { IfOk result (λ graph. IsHistory self.entry.commits graph) }
    {
        if self.graph.is_ordered() {
            Ok(self.graph)
        } else {
            Err(RepositoryFault::Objects)
        }
    }
}

// Reads an object, checks its id, and returns its graph entry. Fails if the object is a parent of a
// commit, but is not a commit.
fn read_entry<F: ObjectFiles, A: Allocator + Copy>(
    alloc: A,
    reader: &mut ObjectReader<'_, F, A>,
    parent: Parent,
) -> Result<Entry<A>, RepositoryFault<A>>
    ensures { IfOk result (λ entry. IsOfObject entry) }
{
    let id = parent.id;
    let object = reader.read_checked(&id)?;
    if parent.child == Kind::Commit && object.kind != ObjectType::Commit {
        return Err(RepositoryFault::object_fault(&id, ObjectCause::Type));
    }
    match entry_of(alloc, &id, object.kind, object.body.as_slice()) {
        Ok(entry) => Ok(entry),
        Err(fault) => Err(RepositoryFault::of_object(&id, fault)),
    }
}
