//! The list to send: the new objects that the pass down found, with their tags.

ghost use Rattle.std.specs.Prelude.{◌≡◌, IfErr, IfOk};
ghost use Rattle.gdag.specs.Graphs.{IsOrdered};
ghost use Rattle.gdag.specs.Sending.{IsListToSend};
ghost use Rattle.gdag.specs.declared.fault.GraphFault.TheVariants.{Memory};

use crate::ordered::down::pass_down;
use crate::ordered::tags::tags_of;
use gdag::{Graph, GraphFault};
use gname::Oid;
use gobject::Entry;
use std::alloc::Allocator;

/// Returns the objects to send for the wants, in insertion order (gitprotocol-v2(5), "fetch":
/// `want`, `have`, `include-tag`). The receiver is assumed to hold the common ids and all their
/// ancestors. The list has each object that some want reaches and no common id reaches. The list
/// also has each tag in a chain of tags from a tip to a commit of the list. Without `include-tag`,
/// pass no tips. An id that is not in the graph adds nothing to the list.
///
/// Each object of the graph must have been inserted after its parents (`Graph::is_ordered`). The
/// call searches for new objects in reverse insertion order, from the last want or common id. The
/// search stops as soon as every unvisited object reached from a want was also reached from a
/// common id.
///
/// Fails only with `Memory`. The graph's allocator allocates the list, and at most three bytes for
/// each object up to the last of the given ids.
#[tactic(auto, using(crate::proofs::Positions::in_order))]
pub fn send_list<A: Allocator + Copy>(
    graph: &Graph<A>,
    wants: &[Oid],
    commons: &[Oid],
    tips: &[Oid],
) -> Result<Vec<Entry<A>, A>, GraphFault>
    requires { IsOrdered graph.now.entries }
    ensures answer { IfOk result (λ list. IsListToSend graph.now.entries wants.now commons.now
        tips.now list.items) }
    ensures fault { IfErr result (λ fault. fault ≡ Memory) }
{
    prove!(graph.is_ordered());
    let alloc = graph.allocator();
    let pass = pass_down(graph, wants, commons)?;
    let tagged = tags_of(graph, &pass, tips)?;
    let mut list = Vec::new(alloc);
    for position in pass.next..pass.end().max(tagged.len()) {
        if pass.is_sent(tagged.as_slice(), position) {
            list.push(graph.entry_in(position, alloc)?)?;
        }
    }
    Ok(list)
}
