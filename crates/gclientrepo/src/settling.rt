//! The settling of requested ref updates (git-fetch(1), "<refspec>").

ghost use Rattle.std.specs.Prelude.{◌≡◌, ◌↔◌, All, Contains, IfErr, IfOk, IsTrue, MatchOption, None, count_by, map};
ghost use Rattle.gdag.specs.declared.fault.GraphFault.TheVariants.{Memory};
ghost use Rattle.gdag.specs.Graphs.{Holds};
ghost use Rattle.gname.specs.Names.{head_name};
ghost use Rattle.gobject.specs.Objects.{node_at};
ghost use Rattle.grefs.specs.RefLists.{CannotSet, IsRefs};
ghost use Rattle.gclientrepo.specs.steps.Settling.{HasSettled, TakesAsk};
ghost use Rattle.gclientrepo.specs.Asks.{ask_of_aim, asked_ids};
ghost use Rattle.gclientrepo.specs.Settling.{CannotSettle, IsUpdate, is_new};

use crate::ask::RefUpdate;
use crate::asks::{Aim, Asks};
use crate::ref_map::RefMap;
use ggraph::{Graph, GraphFault, MAX_REFS, Refs, reaches};
use gname::{Oid, RefName};
use grefs::laws::limits_are_the_constants;
use std::alloc::Allocator;

/// Returns the refs after settling, and the outcome of each requested update. Requires that the
/// updates can be settled. Fails only with `Memory`.
pub(crate) fn settle_refs<A: Allocator + Copy>(
    graph: &Graph<A>,
    refs: &Refs<A>,
    asks: &Asks<A>,
) -> Result<(Refs<A>, Vec<RefUpdate, A>), GraphFault>
    requires { ¬ (CannotSettle refs.now asks.now) }
    ensures settles { IfOk result (λ pair.
        HasSettled graph.now.entries refs.now asks.now pair.1.items pair.0) }
    ensures valid { IfOk result (λ pair. IsRefs pair.0) }
{
    let alloc = graph.allocator();
    let mut new = RefMap::copy_of(alloc, refs)?;
    let updates = take_asks(graph, refs, asks, &mut new)?;
    let new = new.into_refs(alloc)?;
    Ok((new, updates))
}

// Makes the allowed updates of refs, and returns the outcome of each requested update.
fn take_asks<A: Allocator + Copy>(
    graph: &Graph<A>,
    old: &Refs<A>,
    asks: &Asks<A>,
    refs: &mut RefMap<A>,
) -> Result<Vec<RefUpdate, A>, GraphFault>
    requires can { ¬ (CannotSettle old.now asks.now) }
    requires copy { refs.old ≡ old.now }
    ensures { IfOk result (λ updates.
        HasSettled graph.now.entries old.now asks.now updates.items refs.new) }
{
    let mut updates = Vec::new(graph.allocator());
    for place in 0..asks.len() {
        let (name, aim) = asks.aim(place);
        let update = take_ask(graph, old, name, aim, refs)?;
        updates.push(update)?;
    }
    Ok(updates)
}

/// Returns the first new id of the requested updates that the graph does not hold, if any.
/// Allocates nothing.
pub(crate) fn first_absent<A: Allocator + Copy>(graph: &Graph<A>, asks: &Asks<A>) -> Option<Oid>
    ensures { MatchOption result (All (Holds graph.now.entries) (asked_ids asks.now))
        (λ id. Contains (asked_ids asks.now) id × (node_at graph.now.entries id ≡ None)) }
{
    for place in 0..asks.len() {
        let (_name, aim) = asks.aim(place);
        if !graph.contains(&aim.id) {
            return Some(aim.id);
        }
    }
    None
}

/// Returns whether the ref can't be set: the ref is HEAD, or it is new and there are already
/// `MAX_REFS` refs.
pub(crate) fn cannot_set<A: Allocator + Copy>(refs: &Refs<A>, name: &RefName<A>) -> bool
    ensures { IsTrue result ↔ CannotSet refs.now name.now }
{
    name.is_head() || (refs.get(name).is_none() && refs.len() == MAX_REFS)
}

/// Returns whether the requested updates can't be settled: an update is for HEAD, or there would be
/// too many refs.
pub(crate) fn cannot_settle<A: Allocator + Copy>(refs: &Refs<A>, asks: &Asks<A>) -> bool
    ensures { IsTrue result ↔ CannotSettle refs.now asks.now }
{
    // Laws that the proof uses.
    limits_are_the_constants();
    asks_for_head(asks) || count_new(refs, asks) > MAX_REFS - refs.len()
}

// Returns whether one of the requested updates is for HEAD.
fn asks_for_head<A: Allocator + Copy>(asks: &Asks<A>) -> bool
    ensures { IsTrue result ↔ Contains (map (λ ask. ask.name) asks.now) head_name }
{
    for place in 0..asks.len() {
        let (name, _aim) = asks.aim(place);
        if name.is_head() {
            return true;
        }
    }
    false
}

// Returns the number of requested updates of new refs.
fn count_new<A: Allocator + Copy>(refs: &Refs<A>, asks: &Asks<A>) -> usize
    ensures { result ≡ count_by (is_new refs.now) asks.now }
{
    let mut count = 0;
    for place in 0..asks.len() {
        let (name, _aim) = asks.aim(place);
        if refs.get(name).is_none() {
            count += 1;
        }
    }
    count
}

// Makes one requested update if it is allowed, and returns the outcome. The outcome depends on the
// old refs, not on the updated refs.
fn take_ask<A: Allocator + Copy>(
    graph: &Graph<A>,
    old: &Refs<A>,
    name: &RefName<A>,
    aim: &Aim,
    refs: &mut RefMap<A>,
) -> Result<RefUpdate, GraphFault>
    requires { ¬ (CannotSet refs.old name.now) }
    ensures { IfOk result (TakesAsk graph.now.entries old.now (ask_of_aim (name.now, aim.now)) refs.old
        refs.new) }
{
    let update = update_of(graph, old, name, aim)?;
    if update == RefUpdate::Moved {
        let name = name.copy_in(graph.allocator())?;
        refs.set(name, aim.id)?;
    }
    Ok(update)
}

// Returns the outcome of a requested update.
fn update_of<A: Allocator + Copy>(
    graph: &Graph<A>,
    refs: &Refs<A>,
    name: &RefName<A>,
    aim: &Aim,
) -> Result<RefUpdate, GraphFault>
    ensures update { IfOk result (IsUpdate graph.now.entries refs.now
        (ask_of_aim (name.now, aim.now))) }
    ensures fault { IfErr result (λ fault. fault ≡ Memory) }
{
    let Some(old) = refs.get(name) else {
        return Ok(RefUpdate::Moved);
    };
    if old == aim.id {
        return Ok(RefUpdate::Same);
    }
    if aim.forced || reaches(graph, &aim.id, &old)? {
        return Ok(RefUpdate::Moved);
    }
    Ok(RefUpdate::NotForward)
}
