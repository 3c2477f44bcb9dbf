//! The search for missing ancestors of the given ids.

ghost use Rattle.std.specs.Prelude.{◌≡◌, IfOk, IfErr, IsTrue, is_ok};
ghost use Rattle.gdag.specs.Graphs.{IsOrdered};
ghost use Rattle.gdag.specs.Walks.{Misses, CountsReached};
ghost use Rattle.gdag.specs.declared.fault.GraphFault.TheVariants.{Memory};
ghost use Rattle.gwalk.specs.Marks.{AreConnected, stop_at};

use crate::marks::ConnectedMarks;
use crate::walk::walk_past;
use gdag::{Graph, GraphFault};
use gname::Oid;
use std::alloc::Allocator;

/// The number of ids that a walk visited, and the number of their parents.
#[derive(Clone, Copy, Debug, PartialEq, Eq)]
pub struct Count {
    /// The number of visited ids of the graph. No id is visited twice.
    pub ids: u64,
    /// The total number of parents of the visited nodes, without the parents of marked ids.
    pub parents: u64,
}

/// Returns an id that one of the given ids reaches and that the graph does not contain. Returns
/// `None` if each of the given ids is connected.
///
/// In an ordered graph (`Graph::is_ordered`) the call only looks up the given ids, and does not
/// allocate. Fails only with `Memory`.
pub fn missing<A: Allocator + Copy>(
    graph: &Graph<A>,
    ids: &[Oid],
) -> Result<Option<Oid>, GraphFault>
    ensures answer { IfOk result (Misses graph.now.entries ids.now) }
    ensures sure { IsOrdered graph.now.entries → IsTrue (is_ok result) }
    ensures fault { IfErr result (λ fault. fault ≡ Memory) }
{
    // The proof uses these laws.
    gdag::laws::ordered_is_closed::<A>();
    gdag::laws::closed_is_connected::<A>();
    if graph.is_ordered() {
        return Ok(graph.first_absent(ids));
    }
    let (missing, _count) = missing_counted(graph, ids)?;
    Ok(missing)
}

/// Returns the result of `missing`, the number of ids in the graph that the given ids reach, and
/// the total number of parents of those reached ids.
///
/// Fails only with `Memory`.
pub fn missing_counted<A: Allocator + Copy>(
    graph: &Graph<A>,
    ids: &[Oid],
) -> Result<(Option<Oid>, Count), GraphFault>
    ensures answer { IfOk result (λ pair. Misses graph.now.entries ids.now pair.0) }
    ensures count { IfOk result (λ pair. CountsReached graph.now.entries ids.now pair.1.ids
        pair.1.parents) }
    ensures fault { IfErr result (λ fault. fault ≡ Memory) }
{
    missing_known(graph, ids, &ConnectedMarks::new(graph.allocator()))
}

/// Returns the result of `missing`, by a walk that does not continue past marked ids. Also counts
/// the ids of the graph that the walk visits, and the parents of the unmarked ids among them.
///
/// Fails only with `Memory`.
pub fn missing_known<A: Allocator + Copy>(
    graph: &Graph<A>,
    ids: &[Oid],
    known: &ConnectedMarks<A>,
) -> Result<(Option<Oid>, Count), GraphFault>
    requires { AreConnected graph.now.entries known.now }
    ensures answer { IfOk result (λ pair. Misses graph.now.entries ids.now pair.0) }
    ensures count { IfOk result (λ pair.
        CountsReached (stop_at known.now graph.now.entries) ids.now pair.1.ids pair.1.parents) }
    ensures fault { IfErr result (λ fault. fault ≡ Memory) }
{
    let walk = walk_past(graph, known.as_slice(), ids)?;
    let count = Count {
        ids: walk.met.len() as u64,
        parents: walk.parent_count,
    };
    Ok((walk.missing, count))
}
