//! The laws of repositories. Each function does nothing at run time, and its contract states the
//! law.

ghost use Rattle.ggraph.specs.Loading.{ParentsFirstIsOrdered, TextsStopOnce};
ghost use Rattle.ggraph.specs.ConnectedRefs.{ConnectedRefsStay, SettingKeepsConnectedRefs};

use crate::text::text_laws;
use gdag::laws::connected_stays_connected;
use std::alloc::Allocator;

/// Proves that connected refs stay connected when the graph changes but keeps all its nodes.
pub fn connected_refs_stay<A: Allocator + Copy>()
    ensures { ConnectedRefsStay A }
{
    connected_stays_connected::<A>();
}

/// Proves that connected refs stay connected when one of them is set to a connected id.
pub fn setting_keeps_connected_refs<A: Allocator + Copy>()
    ensures { SettingKeepsConnectedRefs A }
{}

/// Proves that in a repository that is loaded with `Order::ParentsFirst`, each node comes after its
/// parents.
pub fn parents_first_is_ordered<A: Allocator + Copy>()
    ensures { ParentsFirstIsOrdered A }
{}

/// Proves that [`load`](crate::load) has at most one possible fault for a text and an order, apart
/// from `Memory`. The fault reports the first line that is wrong or missing.
#[tactic(auto, using(crate::proofs::StoppingOnce::stop_once))]
pub fn texts_stop_once<A: Allocator + Copy>()
    ensures { TextsStopOnce A }
{
    text_laws();
}
