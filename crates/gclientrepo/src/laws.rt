//! Laws of repositories. Each function does nothing, and its contract states a proved property.

ghost use Rattle.gclientrepo.specs.Laws.{HeldIsNotMissing, RefusalsChangeNothing, SettingStaysConnected, SettlingIsDecided, SettlingStaysConnected, ConnectedRepoStays};

use ggraph::graph_laws::{growing_keeps, reaching_goes_on};
use ggraph::laws::connected_refs_stay;
use ggraph::walk_laws::{covering_stays, marks_stay_connected};
use grefs::laws::{refs_are_their_look_ups, refs_come_in_order};
use std::alloc::Allocator;

/// Proves that a repository stays connected if its graph gains objects. In a connected repository
/// each ref and each marked object is connected, and every object that a ref reaches is marked.
pub fn connected_repo_stays<A: Allocator + Copy>()
    ensures { ConnectedRepoStays A }
{
    growing_keeps::<A>();
    connected_refs_stay::<A>();
    marks_stay_connected::<A>();
    covering_stays::<A>();
}

/// Proves that a repository stays connected if requested ref updates are settled.
#[tactic(auto, using(crate::proofs::KeepingConnected::settling_stays_connected))]
pub fn settling_stays_connected<A: Allocator + Copy>()
    ensures { SettlingStaysConnected A }
{
    refs_come_in_order();
    reaching_goes_on::<A>();
}

/// Proves that a repository stays connected if a ref is set.
#[tactic(auto, using(crate::proofs::KeepingConnected::setting_stays_connected))]
pub fn setting_stays_connected<A: Allocator + Copy>()
    ensures { SettingStaysConnected A }
{
    reaching_goes_on::<A>();
}

/// Proves that a failed call of `add_local`, `set_local_ref` or `settle` leaves the repository
/// unchanged.
#[tactic(auto, using(crate::proofs::Refusals::refusals_change_nothing))]
pub fn refusals_change_nothing<A: Allocator + Copy>()
    ensures { RefusalsChangeNothing A }
{}

/// Proves that no id is missing in the ancestries of connected ids.
#[tactic(auto, using(crate::proofs::RepoLemmas::not_all_held))]
pub fn held_is_not_missing<A: Allocator + Copy>()
    ensures { HeldIsNotMissing A }
{}

/// Proves that the graph, the old refs and a list of requested updates determine the outcome of
/// each update, and the refs after settling.
#[tactic(auto, using(crate::proofs::OneSettling::settling_is_decided))]
pub fn settling_is_decided<A: Allocator + Copy>()
    ensures { SettlingIsDecided A }
{
    refs_are_their_look_ups();
}
