//! The check that all refs are connected in a graph.

ghost use Rattle.std.specs.Prelude.{◌≡◌, ◌↔◌, IfErr, IfOk, IsTrue};
ghost use Rattle.gdag.specs.declared.fault.GraphFault.TheVariants.{Memory};
ghost use Rattle.ggraph.specs.ConnectedRefs.{HasConnectedRefs};

use gdag::{Graph, GraphFault};
use grefs::Refs;
use gwalk::missing;
use std::alloc::Allocator;

/// Returns whether each ref is connected: the graph contains the id of the ref and all ancestors of
/// that id.
///
/// Fails only with `Memory`.
pub fn has_connected_refs<A: Allocator + Copy>(
    graph: &Graph<A>,
    refs: &Refs<A>,
) -> Result<bool, GraphFault>
    ensures answer { IfOk result (λ connected_refs. IsTrue connected_refs ↔ HasConnectedRefs graph.now.entries refs.now) }
    ensures fault { IfErr result (λ fault. fault ≡ Memory) }
{
    let ids = refs.ids(graph.allocator())?;
    Ok(missing(graph, ids.as_slice())?.is_none())
}
