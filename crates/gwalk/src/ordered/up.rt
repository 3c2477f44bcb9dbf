//! Reachability by one pass up the insertion order. The pass marks the objects that reach one of
//! the given ids.

ghost use Rattle.std.specs.Prelude.{◌≡◌, ◌↔◌, ◌≤◌, ◌<◌, ◌∷◌, [], ℕ, IfErr, IfOk, IsTrue, Ok, false, length, true};
ghost use Rattle.std.specs.List.{Any};
ghost use Rattle.gwalk.specs.steps.Passes.{HasMarked, IsInOrder, IsPositionOf, IsReachingAt, MarksReaching, is_marked};
ghost use Rattle.gdag.specs.Graphs.{IsOrdered};
ghost use Rattle.gdag.specs.Reach.{Reaches};
ghost use Rattle.gdag.specs.Walks.{IsReady};
ghost use Rattle.gdag.specs.declared.fault.GraphFault.TheVariants.{Memory};

use crate::ordered::marks::{end_of, first_of, is_marked, mark_all, no_marks};
use gdag::{Graph, GraphFault};
use gname::Oid;
use std::alloc::Allocator;

/// Returns whether the server is ready to send a pack: there are common ids, and each want reaches
/// one of them (gitprotocol-v2(5), "fetch": `ready`). An id that is not in the graph reaches only
/// itself. Without common ids the call returns `false`, and does not allocate.
///
/// Each object of the graph must have been inserted after its parents (`Graph::is_ordered`). The
/// call visits the objects in insertion order, from the first common id to the last want.
///
/// Fails only with `Memory`. The call allocates one byte for each object up to the last want.
#[tactic(auto, using(crate::proofs::Positions::in_order))]
pub fn ready<A: Allocator + Copy>(
    graph: &Graph<A>,
    wants: &[Oid],
    commons: &[Oid],
) -> Result<bool, GraphFault>
    requires { IsOrdered graph.now.entries }
    ensures answer { IfOk result (λ answer. IsTrue answer
        ↔ IsReady graph.now.entries wants.now commons.now) }
    ensures nothing { commons.now ≡ [] → result ≡ Ok false }
    ensures fault { IfErr result (λ fault. fault ≡ Memory) }
{
    prove!(graph.is_ordered());
    if commons.is_empty() {
        return Ok(false);
    }
    let good = marks_reaching(graph, commons, end_of(graph, wants))?;
    for want in wants {
        if !is_good(graph, want, commons, good.as_slice()) {
            return Ok(false);
        }
    }
    Ok(true)
}

/// Returns whether the id `a` reaches the id `b`: both are the same, or a parent of `a` reaches `b`
/// (gitglossary(7), "reachable").
///
/// Each object of the graph must have been inserted after its parents (`Graph::is_ordered`). The
/// call visits the objects in insertion order, from `b` to `a`.
///
/// Fails only with `Memory`. The call allocates one byte for each object up to `a`.
#[tactic(auto, using(crate::proofs::Positions::in_order))]
pub fn reaches<A: Allocator + Copy>(graph: &Graph<A>, a: &Oid, b: &Oid) -> Result<bool, GraphFault>
    requires { IsOrdered graph.now.entries }
    ensures answer { IfOk result (λ answer. IsTrue answer
        ↔ Reaches graph.now.entries a.now b.now) }
    ensures fault { IfErr result (λ fault. fault ≡ Memory) }
{
    prove!(graph.is_ordered());
    let good = marks_reaching(graph, &[*b], end_of(graph, &[*a]))?;
    Ok(is_good(graph, a, &[*b], good.as_slice()))
}

// Returns whether the id reaches one of the goals. `good` must mark the positions of exactly the
// objects that reach a goal.
fn is_good<A: Allocator + Copy>(graph: &Graph<A>, id: &Oid, goals: &[Oid], good: &[bool]) -> bool
    requires order { IsInOrder graph.now.entries }
    requires good { MarksReaching graph.now.entries goals.now (length good.now) good.now }
    requires inside { (p : ℕ) → IsPositionOf graph.now.entries (id.now ∷ []) p → p < length good.now }
    ensures { IsTrue result ↔ Any (Reaches graph.now.entries id.now) goals.now }
{
    match graph.position(id) {
        Some(position) => is_marked(good, position),
        None => goals.contains(id),
    }
}

// Returns marks at the positions below `end` whose objects reach one of the goals.
fn marks_reaching<A: Allocator + Copy>(
    graph: &Graph<A>,
    goals: &[Oid],
    end: usize,
) -> Result<Vec<bool, A>, GraphFault>
    requires order { IsInOrder graph.now.entries }
    requires inside { end ≤ length graph.now.entries }
    ensures marks { IfOk result (λ good. MarksReaching graph.now.entries goals.now end
        good.items) }
    ensures long { IfOk result (λ good. length good.items ≡ end) }
    ensures fault { IfErr result (λ fault. fault ≡ Memory) }
{
    let mut good = no_marks(graph.allocator(), end)?;
    mark_all(graph, goals, &mut good);
    for position in first_of(graph, goals, end)..end {
        if has_marked(graph, graph.parents(position), good.as_slice()) {
            good[position] = true;
        }
    }
    Ok(good)
}

// Returns whether at least one of the ids has a marked position.
fn has_marked<A: Allocator + Copy>(graph: &Graph<A>, ids: &[Oid], marks: &[bool]) -> bool
    ensures { IsTrue result ↔ HasMarked graph.now.entries ids.now marks.now }
{
    for id in ids {
        if let Some(position) = graph.position(id) {
            if is_marked(marks, position) {
                return true;
            }
        }
    }
    false
}
