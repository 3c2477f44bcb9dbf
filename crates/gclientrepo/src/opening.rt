//! The search for the first ref that is not connected.

ghost use Rattle.std.specs.Prelude.{◌≡◌, All, IfErr, IfOk, MatchOption};
ghost use Rattle.std.specs.Map.{values_of};
ghost use Rattle.gdag.specs.declared.fault.GraphFault.TheVariants.{Memory};
ghost use Rattle.gdag.specs.Graphs.{IsOrdered};
ghost use Rattle.gdag.specs.Reach.{IsConnected};
ghost use Rattle.gclientrepo.specs.steps.Repos.{IsFirstLost};

use ggraph::graph_laws::{closed_is_connected, ordered_is_closed};
use ggraph::{Graph, GraphFault, Refs, missing};
use gname::Oid;
use std::alloc::Allocator;

/// Returns the index of the first ref that is not connected, or `None` if all refs are connected.
///
/// Fails only with `Memory`, and only if the graph stores some object before one of its parents.
pub(crate) fn first_unconnected<A: Allocator + Copy>(
    graph: &Graph<A>,
    refs: &Refs<A>,
) -> Result<Option<usize>, GraphFault>
    ensures place { IfOk result (λ place. MatchOption place
        (All (IsConnected graph.now.entries) (values_of refs.now))
        (IsFirstLost graph.now.entries (values_of refs.now))) }
    ensures fault { IfErr result (λ fault. (fault ≡ Memory)
        × ¬ (IsOrdered graph.now.entries)) }
{
    if graph.is_ordered() {
        return Ok(first_absent(graph, refs));
    }
    let targets = refs.ids(graph.allocator())?;
    let ids = targets.as_slice();
    if missing(graph, ids)?.is_none() {
        return Ok(None);
    }
    Ok(Some(first_lost(graph, ids)?))
}

// Returns the index of the first ref whose id the graph does not hold, if any. In a graph that
// stores each object after its parents, every id of the graph is connected.
fn first_absent<A: Allocator + Copy>(graph: &Graph<A>, refs: &Refs<A>) -> Option<usize>
    requires { IsOrdered graph.now.entries }
    ensures { MatchOption result (All (IsConnected graph.now.entries) (values_of refs.now))
        (IsFirstLost graph.now.entries (values_of refs.now)) }
{
    // Laws that the proof uses.
    ordered_is_closed::<A>();
    closed_is_connected::<A>();
    graph.laws();
    let pairs = refs.as_slice();
    for place in 0..pairs.len() {
        if !graph.contains(&pairs[place].1) {
            return Some(place);
        }
    }
    None
}

// Returns the index of the first id that is not connected. Requires that some id is not connected.
// Fails only with `Memory`.
fn first_lost<A: Allocator + Copy>(graph: &Graph<A>, ids: &[Oid]) -> Result<usize, GraphFault>
    requires { ¬ (All (IsConnected graph.now.entries) ids.now) }
    ensures place { IfOk result (IsFirstLost graph.now.entries ids.now) }
    ensures fault { IfErr result (λ fault. fault ≡ Memory) }
{
    // All ids before index `connected` are connected. Some id before index `end` is not connected.
    let mut connected = 0;
    let mut end = ids.len();
    while connected + 1 < end {
        let middle = connected + (end - connected) / 2;
        if missing(graph, &ids[..middle])?.is_none() {
            connected = middle;
        } else {
            end = middle;
        }
    }
    Ok(connected)
}
