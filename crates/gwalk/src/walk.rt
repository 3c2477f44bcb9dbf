//! The walk from a list of ids to all their ancestors.

ghost use Rattle.std.specs.Prelude.{◌≡◌, ◌<◌, ◌∷◌, ◌++◌, [], Bool, List, slice_get, length, IfOk, OnOk, Some};
ghost use Rattle.std.specs.Option.{option_map};
ghost use Rattle.gname.specs.Ids.{Id};
ghost use Rattle.gdag.specs.Graphs.{IsGraph};
ghost use Rattle.gdag.specs.Levels.{new_ids};
ghost use Rattle.gwalk.specs.Marks.{stop_at};
ghost use Rattle.gwalk.specs.Walks.{HasMet, IsWalk};

use crate::marks::is_marked;
use gdag::Graph;
use gname::Oid;
use std::alloc::{AllocError, Allocator};

/// The state of a walk. The walk meets the starting ids, and then the parents of each id that it
/// visits. The walk visits each id of the graph at most once. A walk can be limited by marks of
/// known ids: it does not continue to the parents of a known id.
#[derive(Drop)]
pub struct Walk<A: Allocator + Copy> {
    /// Marks at the positions of all ids of the graph that the walk has met.
    pub marks: Vec<bool, A>,
    /// The positions of the ids that the walk has met, level by level.
    pub met: Vec<usize, A>,
    /// An id that the walk has met and that is not in the graph, if there is such an id.
    pub missing: Option<Oid>,
    /// The total number of parents of all nodes that the walk has met, except nodes that are marked
    /// as known.
    pub parent_count: u64,
}

/// Returns the parents of the node at a position, or an empty slice if the position is marked as
/// known.
pub fn parents_past<'a, A: Allocator + Copy>(
    graph: &'a Graph<A>,
    known: &[bool],
    position: usize,
) -> &'a [Oid]
    requires { position < length graph.now.entries }
    ensures { option_map (λ entry. entry.node.parents)
        (slice_get (stop_at known.now graph.now.entries) position)
        ≡ Some result.now }
{
    if is_marked(known, position) {
        return &[];
    }
    graph.parents(position)
}

impl<A: Allocator + Copy> Walk<A> {
    /// Returns a walk that has not met any id. Fails only if out of memory.
    pub fn new(graph: &Graph<A>) -> Result<Walk<A>, AllocError>
        ensures graph { IsGraph graph.now }
        ensures met { IfOk result (λ walk. (known : List Bool) →
            HasMet (stop_at known graph.now.entries) [] walk.marks.items walk.met.items walk.missing
            walk.parent_count) }
    {
        let alloc = graph.allocator();
        let marks = vec![in alloc; false; graph.len()]?;
        Ok(Walk {
            marks,
            met: Vec::new(alloc),
            missing: None,
            parent_count: 0,
        })
    }

    /// Adds an id to the ids that the walk has met. Fails only if out of memory, and then the walk
    /// cannot be used any more.
    pub fn meet(&mut self, graph: &Graph<A>, known: &[bool], id: &Oid) -> Result<(), AllocError>
        requires graph { IsGraph graph.now }
        requires has { (ids : List Id) × HasMet (stop_at known.now graph.now.entries) ids
            self.old.marks.items self.old.met.items self.old.missing self.old.parent_count }
        ensures { OnOk result ((ids : List Id) →
            HasMet (stop_at known.now graph.now.entries) ids
            self.old.marks.items self.old.met.items self.old.missing self.old.parent_count →
            HasMet (stop_at known.now graph.now.entries) (ids ++ new_ids ids (id.now ∷ []))
            self.new.marks.items self.new.met.items self.new.missing self.new.parent_count) }
    {
        let Some(position) = graph.position(id) else {
            self.missing = Some(*id);
            return Ok(());
        };
        if !self.marks[position] {
            self.met.push(position)?;
            self.marks[position] = true;
            self.parent_count += parents_past(graph, known, position).len() as u64;
        }
        Ok(())
    }

    /// Adds ids, in order, to the ids that the walk has met. Fails as `meet` does.
    pub fn meet_all(
        &mut self,
        graph: &Graph<A>,
        known: &[bool],
        ids: &[Oid],
    ) -> Result<(), AllocError>
        requires graph { IsGraph graph.now }
        requires has { (before : List Id) × HasMet (stop_at known.now graph.now.entries) before
            self.old.marks.items self.old.met.items self.old.missing self.old.parent_count }
        ensures { OnOk result ((before : List Id) →
            HasMet (stop_at known.now graph.now.entries) before
            self.old.marks.items self.old.met.items self.old.missing self.old.parent_count →
            HasMet (stop_at known.now graph.now.entries) (before ++ new_ids before ids.now)
            self.new.marks.items self.new.met.items self.new.missing self.new.parent_count) }
    {
        for id in ids {
            self.meet(graph, known, id)?;
        }
        Ok(())
    }
}

/// Returns the final state of a walk from the starting ids to all ids that they reach. The walk
/// does not continue past ids marked as known. Fails only if out of memory.
pub fn walk_past<A: Allocator + Copy>(
    graph: &Graph<A>,
    known: &[bool],
    starts: &[Oid],
) -> Result<Walk<A>, AllocError>
    ensures graph { IsGraph graph.now }
    ensures walk { IfOk result (λ walk. IsWalk (stop_at known.now graph.now.entries) starts.now
        walk.marks.items walk.met.items walk.missing walk.parent_count) }
{
    let mut walk = Walk::new(graph)?;
    walk.meet_all(graph, known, starts)?;
    let mut at = 0;
    while at < walk.met.len() {
        let position = walk.met[at];
        walk.meet_all(graph, known, parents_past(graph, known, position))?;
        at += 1;
    }
    Ok(walk)
}

/// Returns the final state of a walk from the starting ids to all ids that they reach. Fails only
/// if out of memory.
pub fn walk_from<A: Allocator + Copy>(
    graph: &Graph<A>,
    starts: &[Oid],
) -> Result<Walk<A>, AllocError>
    ensures graph { IsGraph graph.now }
    ensures walk { IfOk result (λ walk. IsWalk graph.now.entries starts.now
        walk.marks.items walk.met.items walk.missing walk.parent_count) }
{
    walk_past(graph, &[], starts)
}
