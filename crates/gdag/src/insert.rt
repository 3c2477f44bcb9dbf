//! Inserting entries into a graph. Either all entries of a list are inserted, or none of them.

ghost use Rattle.std.specs.Prelude.{◌≡◌, ◌<◌, ◌++◌, ◌∷◌, ◌↔◌, [], length, None, MatchResult, OnOk, IsTrue, All};
ghost use Rattle.gobject.specs.Objects.{IsShaped, node_at};
ghost use Rattle.gname.specs.Ids.{Id, IsIdOf};
ghost use Rattle.gdag.specs.Graphs.{HasIdsOf, IsGraph, IsNode};
ghost use Rattle.gdag.specs.Reach.{Reaches, IsConnected, Grows, Keeps};
ghost use Rattle.gdag.specs.Insert.{IsMisshapen, IsCause, Admits, Adds, AddsOne, AddsOnly, AddsOnlyParents};
ghost use Rattle.gdag.specs.declared.fault.GraphFault.TheVariants.{OtherFormat};

use crate::fault::GraphFault;
use crate::graph::{Graph, MAX_NODES};
use gname::{Format, Oid};
use gobject::{Entry, Kind, MAX_PARENTS, Node};
use std::alloc::Allocator;

impl<A: Allocator + Copy> Graph<A> {
    /// Appends an entry, and returns whether its id is new. If the graph already maps the id to the
    /// same node, nothing changes.
    ///
    /// Fails with the faults of `insert_all` for a list with only this entry. A failed call leaves
    /// the graph unchanged.
    pub fn insert(&mut self, entry: Entry<A>) -> Result<bool, GraphFault>
        ensures adds { AddsOne self.old entry self.new result }
        ensures only { AddsOnly self.old.entries (entry ∷ []) self.new.entries }
        ensures only_parents { AddsOnlyParents self.old.entries (entry ∷ []) self.new.entries }
        ensures held { OnOk result (IsNode self.new.entries entry.id entry.node) }
        ensures grows { Grows self.old.entries self.new.entries }
        ensures keeps { Keeps self.old.entries self.new.entries }
        ensures reaches { (a b : Id) → Reaches self.old.entries a b
            → Reaches self.new.entries a b }
        ensures connected { (a : Id) → IsConnected self.old.entries a → IsConnected self.new.entries a }
        ensures graph { IsGraph self.new }
    {
        let is_new = self.admits(&entry)?;
        if is_new {
            self.push(entry)?;
        }
        Ok(is_new)
    }

    /// Appends all entries or none of them, and returns the number of new ids. An entry is skipped
    /// if the graph already maps its id to the same node. New entries keep the order of the list,
    /// and no entry is copied.
    ///
    /// The call checks the entries in order, and fails at the first entry that can't be added. A
    /// failed call leaves the graph unchanged. The fault is the first of the following that applies
    /// to the entry:
    ///
    /// - `OtherFormat`: the entry's id or the id of a parent does not have the graph's format.
    /// - `TooManyParents`: the entry has more than `MAX_PARENTS` parents.
    /// - `TagShape`: the entry is a tag without exactly one parent.
    /// - `Conflict`: the entry's id has a different node in the graph or earlier in the list.
    /// - `TooMany`: the graph already has the maximum number of nodes.
    /// - `Memory`: memory runs out.
    pub fn insert_all(&mut self, entries: Vec<Entry<A>, A>) -> Result<usize, GraphFault>
        ensures adds { Adds self.old entries.items self.new result }
        ensures only { AddsOnly self.old.entries entries.items self.new.entries }
        ensures only_parents { AddsOnlyParents self.old.entries entries.items self.new.entries }
        ensures held { OnOk result (All (λ entry. IsNode self.new.entries entry.id entry.node)
            entries.items) }
        ensures grows { Grows self.old.entries self.new.entries }
        ensures keeps { Keeps self.old.entries self.new.entries }
        ensures reaches { (a b : Id) → Reaches self.old.entries a b
            → Reaches self.new.entries a b }
        ensures connected { (a : Id) → IsConnected self.old.entries a → IsConnected self.new.entries a }
        ensures graph { IsGraph self.new }
    {
        let before = self.len();
        let was_ordered = self.is_ordered();
        for entry in entries {
            if let Err(fault) = self.insert(entry) {
                self.cut_back(before, was_ordered);
                return Err(fault);
            }
        }
        Ok(self.len() - before)
    }

    // Returns whether the entry must be appended because its id is new. Returns `false` if the
    // graph already maps the id to the same node. Fails if the entry can't be added.
    fn admits(&self, entry: &Entry<A>) -> Result<bool, GraphFault>
        ensures graph { IsGraph self.now }
        ensures admits { MatchResult result
            (Admits self.now.format self.now.entries entry.now)
            (IsCause self.now.format self.now.entries entry.now) }
    {
        let count = self.len();
        check_ids(self.format(), entry)?;
        check_shape(&entry.node)?;
        if let Some(node) = self.node(&entry.id) {
            if node.is_same(&entry.node) {
                return Ok(false);
            }
            return Err(GraphFault::Conflict { id: entry.id });
        }
        if count == MAX_NODES {
            return Err(GraphFault::TooMany);
        }
        Ok(true)
    }
}

// Returns whether the id has the format.
fn is_of(format: Format, id: &Oid) -> bool
    ensures { IsTrue result ↔ IsIdOf format id.now }
{
    id.format() == format
}

// Returns whether all ids have the format.
fn are_of(format: Format, ids: &[Oid]) -> bool
    ensures { IsTrue result ↔ All (IsIdOf format) ids.now }
{
    ids.iter().all(|id| is_of(format, id))
}

// Checks that the id of an entry and the ids of its parents have the format.
fn check_ids<A: Allocator + Copy>(format: Format, entry: &Entry<A>) -> Result<(), GraphFault>
    ensures { MatchResult result
        (λ _. HasIdsOf format entry.now)
        (λ fault. (fault ≡ OtherFormat entry.now.id) × ¬ (HasIdsOf format entry.now)) }
{
    if is_of(format, &entry.id) && are_of(format, entry.node.parents.as_slice()) {
        return Ok(());
    }
    Err(GraphFault::OtherFormat { id: entry.id })
}

// Checks that a node has at most `MAX_PARENTS` parents, and exactly one if it is a tag.
fn check_shape<A: Allocator + Copy>(node: &Node<A>) -> Result<(), GraphFault>
    ensures { MatchResult result (λ _. IsShaped node.now) (IsMisshapen node.now) }
{
    let parents = node.parents.as_slice().len();
    if parents > MAX_PARENTS {
        return Err(GraphFault::TooManyParents);
    }
    if node.kind == Kind::Tag && parents != 1 {
        return Err(GraphFault::TagShape);
    }
    Ok(())
}
