//! The graph: a map from ids to nodes, in insertion order.

ghost use Rattle.std.specs.Prelude.{◌≡◌, [], length, IsTrue, ◌↔◌, slice_get, take, MatchOption, OnOk, OnErr, IfOk, IfErr, All, None, Some, ◌≤◌, ◌<◌, ◌++◌, ◌∷◌};
ghost use Rattle.std.specs.Option.{option_copied, option_map};
ghost use Rattle.gobject.specs.Objects.{IsShaped, entry_of, node_at, position_of};
ghost use Rattle.gname.specs.declared.formats.Format.TheVariants.{Sha1};
ghost use Rattle.gdag.specs.declared.fault.GraphFault.TheVariants.{Memory};
ghost use Rattle.gdag.specs.Graphs.{IsGraph, IsOrdered, Holds, IsFirstAbsent, HasIdsOf, max_nodes, pairs_of};

use crate::fault::GraphFault;
use gname::{Format, Oid};
use gobject::{Entry, Node};
use indexmap::IndexMap;
use std::alloc::{AllocError, Allocator, Global};
use std::hash::{BuildHasherDefault, DefaultHasher};
use std::marker::Model;

/// The maximum number of nodes of a graph.
pub const MAX_NODES: usize = 1_048_576;

/// The hasher for the ids of a graph. Under std's faster hasher, an attacker who chooses ids could
/// easily construct ids that collide. Under `DefaultHasher` the attacker must search for each
/// collision.
pub type IdHasher = BuildHasherDefault<DefaultHasher>;

/// The commits and tags of a repository, in the order of their insertion. The ids are distinct and
/// have the same object format.
#[derive(Debug, Drop)]
pub struct Graph<A: Allocator + Copy = Global> {
    format: Format,
    nodes: IndexMap<Oid, Node<A>, IdHasher, A>,
    // Whether each node was inserted after all its parents.
    ordered: bool,
}

impl<A: Allocator + Copy> Model for Graph<A> {
    ghost use Rattle.std.specs.Prelude.{IsTrue, ◌↔◌};
    ghost use Rattle.gdag.specs.Graphs.{History, IsGraph, IsOrdered, entries_of};

    ghost Value = { History A };

    ghost view = { λ graph. record { format = graph.format; entries = entries_of graph.nodes.entries } };

    ghost invariant = { λ graph. IsGraph (record { format = graph.format; entries = entries_of graph.nodes.entries }) × (IsTrue graph.ordered ↔ IsOrdered (entries_of graph.nodes.entries)) };
}

impl<A: Allocator + Copy> Graph<A> {
    /// Returns a graph without nodes, for ids of the given format. The call does not allocate.
    pub fn new_in(alloc: A, format: Format) -> Graph<A>
        ensures { result ≡ record { format = format; entries = [] } }
    {
        Graph {
            format,
            nodes: IndexMap::with_hasher(alloc, BuildHasherDefault::new()),
            ordered: true,
        }
    }

    /// Returns a graph without nodes, for SHA-1 ids. The call does not allocate.
    pub fn new(alloc: A) -> Graph<A>
        ensures { result ≡ record { format = Sha1; entries = [] } }
    {
        Graph::new_in(alloc, Format::Sha1)
    }

    /// Reserves room for `more` nodes, so that adding these nodes does not move the existing nodes.
    /// If memory runs out, the call frees the memory that it allocated. The contents of the graph
    /// are unchanged.
    pub fn make_room(&mut self, more: usize)
        ensures { self.new ≡ self.old }
    {
        let before = self.nodes.capacity();
        if self.nodes.reserve(more).is_err() {
            self.nodes.shrink_to(before);
        }
    }

    /// Returns the format of the graph's ids.
    pub fn format(&self) -> Format
        ensures { result ≡ self.now.format }
    {
        self.format
    }

    /// Returns the number of nodes.
    pub fn len(&self) -> usize
        ensures len { result ≡ length self.now.entries }
        ensures graph { IsGraph self.now }
    {
        self.nodes.len()
    }

    /// Proves that the ids of a graph are distinct and have its format, and that the graph has at
    /// most [`MAX_NODES`] nodes. Each node has at most `MAX_PARENTS` parents, and a tag has exactly
    /// one.
    pub fn laws(&self)
        ensures { IsGraph self.now }
    {
        let _ = &self.format;
    }

    /// Returns whether the graph has no nodes.
    pub fn is_empty(&self) -> bool
        ensures { IsTrue result ↔ (self.now.entries ≡ []) }
    {
        self.nodes.is_empty()
    }

    /// Returns whether each node was inserted after all its parents. A graph in this order is
    /// closed, and none of its ids reaches an id at a higher position. The call does not allocate.
    pub fn is_ordered(&self) -> bool
        ensures graph { IsGraph self.now }
        ensures ordered { IsTrue result ↔ IsOrdered self.now.entries }
    {
        self.ordered
    }

    /// Returns whether the graph contains the id. The call does not allocate.
    #[tactic(auto, using(crate::proofs::Pairs::node_at_pairs))]
    pub fn contains(&self, id: &Oid) -> bool
        ensures { IsTrue result ↔ Holds self.now.entries id.now }
    {
        self.nodes.contains_key(id)
    }

    /// Returns whether the graph contains each of the ids. The call does not allocate.
    pub fn contains_all(&self, ids: &[Oid]) -> bool
        ensures { IsTrue result ↔ All (Holds self.now.entries) ids.now }
    {
        ids.iter().all(|id| self.contains(id))
    }

    /// Returns the first of the ids that the graph does not contain, or `None` if the graph
    /// contains all ids. The call does not allocate.
    pub fn first_absent(&self, ids: &[Oid]) -> Option<Oid>
        ensures { MatchOption result (All (Holds self.now.entries) ids.now)
            (IsFirstAbsent self.now.entries ids.now) }
    {
        for id in ids {
            if !self.contains(id) {
                return Some(*id);
            }
        }
        None
    }

    /// Returns the node with this id, or `None` if the graph does not contain the id.
    #[tactic(auto, using(crate::proofs::Pairs::node_at_pairs))]
    pub fn node(&self, id: &Oid) -> Option<&Node<A>>
        ensures { option_copied result ≡ node_at self.now.entries id.now }
    {
        self.nodes.get(id)
    }

    /// Returns the position of the id in insertion order, counted from 0, or `None` if the graph
    /// does not contain the id.
    #[tactic(auto, using(crate::proofs::Pairs::position_of_pairs))]
    pub fn position(&self, id: &Oid) -> Option<usize>
        ensures { result ≡ position_of self.now.entries id.now }
    {
        self.nodes.get_index_of(id)
    }

    /// Returns the id and the node at a position in insertion order, counted from 0, or `None`
    /// after the last node.
    #[tactic(auto, using(crate::proofs::Pairs::at_pair))]
    pub fn at(&self, position: usize) -> Option<(&Oid, &Node<A>)>
        ensures at { MatchOption result (length self.now.entries ≤ position) (λ pair.
            slice_get self.now.entries position ≡ Some (entry_of pair.0.now pair.1.now)) }
        ensures graph { IsGraph self.now }
    {
        self.nodes.get_index(position)
    }

    /// Returns the map from ids to nodes, in insertion order.
    #[tactic(auto, using(crate::proofs::Pairs::pairs_again))]
    pub fn as_map(&self) -> &IndexMap<Oid, Node<A>, IdHasher, A>
        ensures { result.now.entries ≡ pairs_of self.now.entries }
    {
        &self.nodes
    }

    /// Returns the allocator of the graph.
    pub fn allocator(&self) -> A {
        *self.nodes.allocator()
    }

    /// Returns the parents of the node at a position in insertion order, in the order in which the
    /// object lists them.
    #[tactic(auto, using(crate::proofs::Pairs::parents_at_value))]
    pub fn parents(&self, position: usize) -> &[Oid]
        requires { position < length self.now.entries }
        ensures { option_map (λ entry. entry.node.parents) (slice_get self.now.entries position)
            ≡ Some result.now }
    {
        self.nodes[position].parents.as_slice()
    }

    /// Returns the id at a position in insertion order.
    pub fn id_at(&self, position: usize) -> &Oid
        requires { position < length self.now.entries }
        ensures { option_map (λ entry. entry.id) (slice_get self.now.entries position)
            ≡ Some result.now }
    {
        self.at(position).unwrap().0
    }

    /// Returns a copy of the entry at a position in insertion order. Fails only if out of memory.
    pub fn entry_in(&self, position: usize, alloc: A) -> Result<Entry<A>, AllocError>
        requires { position < length self.now.entries }
        ensures { IfOk result (λ entry. slice_get self.now.entries position ≡ Some entry) }
    {
        let (id, node) = self.at(position).unwrap();
        let node = node.copy_in(alloc)?;
        Ok(Entry { id: *id, node })
    }

    // Returns whether each node would come after all its parents if one more node were appended.
    // The argument `parents_held` states whether the graph contains the parents of the new node.
    fn stays_ordered(&self, parents_held: bool) -> bool
        ensures { IsTrue result ↔ (IsOrdered self.now.entries × IsTrue parents_held) }
    {
        self.is_ordered() && parents_held
    }

    /// Appends an entry whose id the graph does not contain. Fails only with `Memory`, and then
    /// leaves the graph unchanged.
    pub(crate) fn push(&mut self, entry: Entry<A>) -> Result<(), GraphFault>
        requires new { node_at self.old.entries entry.id ≡ None }
        requires ids { HasIdsOf self.old.format entry }
        requires shaped { IsShaped entry.node }
        requires room { length self.old.entries < max_nodes }
        ensures ok { OnOk result (self.new
            ≡ record { format = self.old.format; entries = self.old.entries ++ entry ∷ [] }) }
        ensures err { OnErr result (self.new ≡ self.old) }
        ensures graph { IsGraph self.new }
        ensures fault { IfErr result (λ fault. fault ≡ Memory) }
    {
        let parents_held = self.contains_all(entry.node.parents.as_slice());
        self.push_after(entry, parents_held)
    }

    /// Appends an entry whose id the graph does not contain. The argument `parents_held` states
    /// whether the graph contains all parents of the entry.
    ///
    /// Fails only with `Memory`, and then leaves the graph unchanged.
    #[tactic(auto, using(crate::proofs::Pairs::pushed_pairs))]
    pub fn push_after(&mut self, entry: Entry<A>, parents_held: bool) -> Result<(), GraphFault>
        requires new { node_at self.old.entries entry.id ≡ None }
        requires ids { HasIdsOf self.old.format entry }
        requires shaped { IsShaped entry.node }
        requires room { length self.old.entries < max_nodes }
        requires parents { IsTrue parents_held ↔ All (Holds self.old.entries) entry.node.parents }
        ensures ok { OnOk result (self.new
            ≡ record { format = self.old.format; entries = self.old.entries ++ entry ∷ [] }) }
        ensures err { OnErr result (self.new ≡ self.old) }
        ensures graph { IsGraph self.new }
        ensures fault { IfErr result (λ fault. fault ≡ Memory) }
    {
        let ordered = self.stays_ordered(parents_held);
        self.nodes.insert(entry.id, entry.node)?;
        self.ordered = ordered;
        Ok(())
    }

    /// Keeps only the first `count` entries. The argument `ordered` states whether each of these
    /// entries comes after all its parents.
    #[tactic(auto, using(crate::proofs::Pairs::taken_pairs))]
    pub(crate) fn cut_back(&mut self, count: usize, ordered: bool)
        requires { IsTrue ordered ↔ IsOrdered (take count self.old.entries) }
        ensures { self.new ≡ record {
          format = self.old.format;
          entries = take count
              self.old.entries;
        } }
    {
        self.nodes.truncate(count);
        self.ordered = ordered;
    }
}
