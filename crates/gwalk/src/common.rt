//! The common ids of a server and a client, and the ids that reach a common id.

ghost use Rattle.std.specs.Prelude.{◌≡◌, ◌↔◌, ◌<◌, [], List, Ok, Some, length, not, is_some, filter, IfOk, IfErr, IsTrue, false, All, Contains};
ghost use Rattle.std.specs.List.{Any};
ghost use Rattle.gname.specs.Ids.{Id};
ghost use Rattle.gobject.specs.Objects.{node_at};
ghost use Rattle.gdag.specs.Levels.{new_ids};
ghost use Rattle.gdag.specs.Reach.{Reaches};
ghost use Rattle.gdag.specs.Walks.{IsReady, common_of};
ghost use Rattle.gdag.specs.declared.fault.GraphFault.TheVariants.{Memory};
ghost use Rattle.gwalk.specs.steps.Common.{AreGoals, ids_at};
ghost use Rattle.gwalk.specs.Walks.{HasMet};

use crate::walk::Walk;
use gdag::{Graph, GraphFault};
use gname::Oid;
use std::alloc::{AllocError, Allocator};

/// Returns the common ids (gitprotocol-v2(5), "fetch": `ACK`): the distinct haves that the graph
/// contains, in the order of their first occurrences.
///
/// Fails only with `Memory`.
pub fn common_ids<A: Allocator + Copy>(
    graph: &Graph<A>,
    haves: &[Oid],
) -> Result<Vec<Oid, A>, GraphFault>
    ensures answer { IfOk result (λ ids. ids.items ≡ common_of graph.now.entries haves.now) }
    ensures fault { IfErr result (λ fault. fault ≡ Memory) }
{
    let walk = met_of(graph, haves)?;
    Ok(ids_at(graph, walk.met.as_slice())?)
}

/// Returns whether the id `a` reaches the id `b`. An id reaches itself, and an id of the graph
/// reaches all that its parents reach.
///
/// In an ordered graph the call makes one pass over the objects from `b` to `a`. In any other graph
/// the call walks from `a`, and stops at `b`. Fails only with `Memory`.
pub fn reaches<A: Allocator + Copy>(graph: &Graph<A>, a: &Oid, b: &Oid) -> Result<bool, GraphFault>
    ensures answer { IfOk result (λ answer. IsTrue answer
        ↔ Reaches graph.now.entries a.now b.now) }
    ensures fault { IfErr result (λ fault. fault ≡ Memory) }
{
    if graph.is_ordered() {
        return crate::ordered::reaches(graph, a, b);
    }
    let goals = Goals::new(graph, &[*b])?;
    Ok(goals.reached_by(graph, a)?)
}

/// Returns whether the server is ready to send a pack (gitprotocol-v2(5), "fetch": `ready`): there
/// are common ids, and each want reaches one of them. The call does not allocate if there are no
/// common ids.
///
/// In an ordered graph the call makes one pass over the objects from the first common id to the
/// last want. In any other graph the call walks from each want, and stops at the first common id.
/// Fails only with `Memory`.
pub fn ready<A: Allocator + Copy>(
    graph: &Graph<A>,
    wants: &[Oid],
    commons: &[Oid],
) -> Result<bool, GraphFault>
    ensures answer { IfOk result (λ answer. IsTrue answer
        ↔ IsReady graph.now.entries wants.now commons.now) }
    ensures nothing { commons.now ≡ [] → result ≡ Ok false }
    ensures fault { IfErr result (λ fault. fault ≡ Memory) }
{
    if graph.is_ordered() {
        return crate::ordered::ready(graph, wants, commons);
    }
    if commons.is_empty() {
        return Ok(false);
    }
    Ok(all_reach(graph, wants, commons)?)
}

// Returns whether each of the ids reaches one of the goals.
fn all_reach<A: Allocator + Copy>(
    graph: &Graph<A>,
    ids: &[Oid],
    goals: &[Oid],
) -> Result<bool, AllocError>
    ensures { IfOk result (λ answer. IsTrue answer ↔
        All (λ id. Any (Reaches graph.now.entries id) goals.now) ids.now) }
{
    let goals = Goals::new(graph, goals)?;
    for id in ids {
        if !goals.reached_by(graph, id)? {
            return Ok(false);
        }
    }
    Ok(true)
}

/// Returns the state of a walk that starts at exactly the given ids, and that has not visited any
/// id. Fails only if out of memory.
pub fn met_of<A: Allocator + Copy>(graph: &Graph<A>, ids: &[Oid]) -> Result<Walk<A>, AllocError>
    ensures { IfOk result (λ walk. HasMet graph.now.entries (new_ids [] ids.now)
        walk.marks.items walk.met.items walk.missing walk.parent_count) }
{
    let mut walk = Walk::new(graph)?;
    walk.meet_all(graph, &[], ids)?;
    Ok(walk)
}

// Returns the ids at these positions.
fn ids_at<A: Allocator + Copy>(
    graph: &Graph<A>,
    positions: &[usize],
) -> Result<Vec<Oid, A>, AllocError>
    requires { All (λ position. position < length graph.now.entries) positions.now }
    ensures { IfOk result (λ ids. ids.items ≡ ids_at graph.now.entries positions.now) }
{
    let mut ids = Vec::new(graph.allocator());
    for position in positions {
        ids.push(*graph.id_at(*position))?;
    }
    Ok(ids)
}

fn is_absent<A: Allocator + Copy>(graph: &Graph<A>, id: &Oid) -> bool
    ensures { result ≡ not (is_some (node_at graph.now.entries id.now)) }
{
    graph.node(id).is_none()
}

// Returns the given ids that the graph does not contain.
fn absent_of<A: Allocator + Copy>(graph: &Graph<A>, ids: &[Oid]) -> Result<Vec<Oid, A>, AllocError>
    ensures { IfOk result (λ absent.
        absent.items ≡ filter (λ a. not (is_some (node_at graph.now.entries a))) ids.now) }
{
    ids.iter()
        .copied()
        .filter(|id| is_absent(graph, id))
        .collect(graph.allocator())
}

// Returns whether `list` contains at least one of `ids`.
fn has_one(list: &[Oid], ids: &[Oid]) -> bool
    ensures { IsTrue result ↔ Any (Contains list.now) ids.now }
{
    for id in ids {
        if list.contains(id) {
            return true;
        }
    }
    false
}

// The ids that a walk searches for: marks at the positions of those ids that the graph contains,
// and a list of the other ids.
#[derive(Drop)]
struct Goals<A: Allocator + Copy> {
    marks: Vec<bool, A>,
    absent: Vec<Oid, A>,
}

impl<A: Allocator + Copy> Goals<A> {
    fn new(graph: &Graph<A>, ids: &[Oid]) -> Result<Goals<A>, AllocError>
        ensures { IfOk result (λ goals. AreGoals graph.now.entries ids.now goals.marks.items
            goals.absent.items) }
    {
        let walk = met_of(graph, ids)?;
        let absent = absent_of(graph, ids)?;
        Ok(Goals {
            marks: walk.marks,
            absent,
        })
    }

    // Returns whether the id reaches one of the goals.
    fn reached_by(&self, graph: &Graph<A>, start: &Oid) -> Result<bool, AllocError>
        requires { (ids : List Id)
            × AreGoals graph.now.entries ids self.now.marks.items self.now.absent.items }
        ensures { IfOk result (λ answer. (ids : List Id) →
            AreGoals graph.now.entries ids self.now.marks.items self.now.absent.items →
            IsTrue answer ↔ Any (Reaches graph.now.entries start.now) ids) }
    {
        if self.absent.contains(start) {
            return Ok(true);
        }
        let mut walk = Walk::new(graph)?;
        walk.meet(graph, &[], start)?;
        let mut at = 0;
        while at < walk.met.len() {
            let position = walk.met[at];
            let parents = graph.parents(position);
            if self.marks[position] {
                return Ok(true);
            }
            if has_one(self.absent.as_slice(), parents) {
                return Ok(true);
            }
            walk.meet_all(graph, &[], parents)?;
            at += 1;
        }
        Ok(false)
    }
}
